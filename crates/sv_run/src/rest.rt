//! The steps that no thread took.
ghost use Rattle.std.specs.Prelude.{◌≡◌, ℕ, ◌<◌, true, length, count_by};
ghost use Rattle.sv_load.specs.Load.{script_of};
ghost use Rattle.sv_journal.specs.Items.{is_call_of};
ghost use Rattle.sv_run.specs.Named.{IsRecorderOf};
ghost use Rattle.sv_run.specs.Ran.{AreThrough};

use std::sync::Wait;
use sv_desc::Describes;
use sv_recorder::Recorder;
use sv_ring::{DownReader, UpWriter};

/// The next step of a writer. Says whether its script is through, and then nothing has changed.
fn is_through<U: UpWriter + Drop, D: DownReader + Drop, P: Describes + Drop>(
    recorder: &mut Recorder<'_, U, D, P>,
    writer: u32,
) -> bool
    requires writer { writer < length recorder.old.load.scripts }
    ensures load { recorder.new.load ≡ recorder.old.load }
    ensures ring { recorder.new.ring ≡ recorder.old.ring }
    ensures down { recorder.new.down ≡ recorder.old.down }
    ensures size { recorder.new.size ≡ recorder.old.size }
    ensures unchanged { result ≡ true → recorder.new ≡ recorder.old }
    ensures through { result ≡ true →
        count_by (λ i. is_call_of writer i.origin) recorder.old.items
        ≡ length (script_of recorder.old.load writer) }
{
    recorder.section(writer).is_none()
}

/// The next step of each writer that has one left. Says whether none had.
fn round<U: UpWriter + Drop, D: DownReader + Drop, P: Describes + Drop>(
    recorder: &mut Recorder<'_, U, D, P>,
    writers: u32,
) -> bool
    requires writers { writers ≡ length recorder.old.load.scripts }
    ensures load { recorder.new.load ≡ recorder.old.load }
    ensures ring { recorder.new.ring ≡ recorder.old.ring }
    ensures down { recorder.new.down ≡ recorder.old.down }
    ensures size { recorder.new.size ≡ recorder.old.size }
    ensures through { result ≡ true → AreThrough recorder.new.load recorder.new.items }
{
    let mut through = true;
    for writer in 0..writers {
        if !is_through(recorder, writer) {
            through = false;
        }
    }
    through
}

/// The steps that are left, until no writer has one.
pub(crate) fn steps_left<R: Wait, U: UpWriter + Drop, D: DownReader + Drop, P: Describes + Drop>(
    rt: &R,
    recorder: &mut Recorder<'_, U, D, P>,
    writers: u32,
)
    requires writers { writers ≡ length recorder.old.load.scripts }
    ensures load { recorder.new.load ≡ recorder.old.load }
    ensures ring { recorder.new.ring ≡ recorder.old.ring }
    ensures down { recorder.new.down ≡ recorder.old.down }
    ensures size { recorder.new.size ≡ recorder.old.size }
    ensures through { AreThrough recorder.new.load recorder.new.items }
{
    for _ in rt.forever() {
        if round(recorder, writers) {
            return;
        }
    }
    unreachable!()
}
