//! The commands on a recording: the loop of its view, and the status that it ends with.
ghost use Rattle.std.specs.Prelude.{◌≡◌, [], None, Some, IfSome};
ghost use Rattle.sv_view.specs.Answer.{IsShown};
ghost use Rattle.sv_view.specs.Files.{OfFile};
ghost use Rattle.sv_view.specs.Live.{IsToldLive};
ghost use Rattle.sv_cli.specs.Answers.{Ended, is_silent};
ghost use Rattle.sv_cli.specs.Commands.{IsUpTo, file_of, most_of_piece, named_in, show_request};
ghost use Rattle.sv_cli.specs.Commands.{shows};
ghost use Rattle.sv_cli.specs.Devices.{HasRead, HasWritten};
ghost use Rattle.sv_base.specs.Causes.{BlamesLast};

use crate::status::{Status, status_of};
use std::alloc::Global;
use sv_base::{Sink, Source};
use sv_view::{View, live_file, scan_file, views};

/// Scans the recording of the name, and says how that ended.
fn scan<S: Source, K: Sink, V: View + Drop>(
    alloc: Global,
    view: V,
    name: &str,
    src: &mut S,
    out: &mut K,
) -> Status
    requires none { V.shown view [] }
    ensures answered { Ended (λ ended. OfFile (S.held src.old name.now) (S.left src.new)
        (λ file taken. IsShown V.text taken (taken ≡ file)
        (K.written out.old) (K.written out.new) ended)) result }
    ensures source { HasRead (Some name.now) (src.new ≡ src.old) (S.sure src.old)
        (S.begins src.old) (S.begins src.new) (S.faults src.old) (S.faults src.new)
        (result ≡ Status.ReadFault) }
    ensures sink { BlamesLast (result ≡ Status.WriteFault)
        (K.broken out.new) (K.faults out.old) (K.faults out.new) }
{
    status_of(scan_file(alloc, view, name, src, out))
}

/// Shows the recording of the file by the view of the name, if there is one, and says how that ended.
pub fn show_file<S: Source, K: Sink>(
    alloc: Global,
    name: &str,
    file: &str,
    src: &mut S,
    out: &mut K,
) -> Status
    ensures usage { named_in shows name.now ≡ None → result ≡ Status.Usage }
    ensures answered { IfSome (named_in shows name.now) (λ text.
        Ended (λ ended. OfFile (S.held src.old file.now) (S.left src.new)
        (λ file taken. IsShown text taken (taken ≡ file)
        (K.written out.old) (K.written out.new) ended)) result) }
    ensures source { HasRead (file_of (show_request (named_in shows name.now) file.now))
        (src.new ≡ src.old) (S.sure src.old) (S.begins src.old) (S.begins src.new)
        (S.faults src.old) (S.faults src.new) (result ≡ Status.ReadFault) }
    ensures sink { HasWritten (is_silent (show_request (named_in shows name.now) file.now) result)
        (out.new ≡ out.old) (K.broken out.new) (K.faults out.old) (K.faults out.new)
        (result ≡ Status.WriteFault) }
{
    match name {
        "events" => scan(alloc, views::events::Events, file, src, out),
        "check" => scan(alloc, views::check::Check::new(), file, src, out),
        "timeline" => scan(alloc, views::timeline::Runs::new(alloc), file, src, out),
        "report" => scan(alloc, views::report::Summary::new(alloc), file, src, out),
        _ => Status::Usage,
    }
}

/// Tells of the recording of the name by pieces of this size, and says how that ended.
pub fn tell_file<S: Source, K: Sink>(
    alloc: Global,
    size: u32,
    name: &str,
    src: &mut S,
    out: &mut K,
) -> Status
    requires size { IsUpTo most_of_piece size }
    ensures answered { Ended (λ ended. OfFile (S.held src.old name.now) (S.left src.new)
        (λ file taken. IsToldLive size taken (taken ≡ file)
        (K.written out.old) (K.written out.new) ended)) result }
    ensures source { HasRead (Some name.now) (src.new ≡ src.old) (S.sure src.old)
        (S.begins src.old) (S.begins src.new) (S.faults src.old) (S.faults src.new)
        (result ≡ Status.ReadFault) }
    ensures sink { BlamesLast (result ≡ Status.WriteFault)
        (K.broken out.new) (K.faults out.old) (K.faults out.new) }
{
    status_of(live_file(alloc, size, name, src, out))
}
