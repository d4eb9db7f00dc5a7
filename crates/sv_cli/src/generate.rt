//! The command `generate`: the counts of the recording that a number's workload gives.
ghost use Rattle.std.specs.Prelude.{◌≡◌, ◌≢◌, []};
ghost use Rattle.sv_base.specs.Causes.{BlamesLast};
ghost use Rattle.sv_cli.specs.Commands.{IsUpTo, most_of_steps};
ghost use Rattle.sv_cli.specs.Recorded.{IsGenerated};

use crate::make::Make;
use crate::play::put_played;
use crate::simulate::made_of;
use crate::status::Status;
use std::alloc::Global;
use sv_base::Sink;
use sv_journal::Journal;
use sv_workload::generated;

/// Simulates the workload of the number, from 1 to 1000000: writes the four lines of counts of the
/// bytes that are sent, and the end line.
pub fn generate<K: Sink>(alloc: Global, number: u32, out: &mut K, journal: &mut Journal) -> Status
    requires number { IsUpTo most_of_steps number }
    requires empty { journal.old.items ≡ [] }
    ensures answered { IsGenerated number
        (K.written out.old) (K.written out.new) journal.new.items result }
    ensures unread { result ≢ Status.ReadFault }
    ensures sink { BlamesLast (result ≡ Status.WriteFault)
        (K.broken out.new) (K.faults out.old) (K.faults out.new) }
{
    let Ok(load) = generated(alloc, number) else {
        return Status::NoMemory;
    };
    let mut history = Journal::new(alloc);
    let made = made_of(alloc, Make::Counts, &load, &mut history);
    put_played(&load, Make::Counts.head(), made, history, out, journal)
}
