//! What the program does, and how it ends.
ghost use Rattle.std.specs.Prelude.{◌≡◌, ◌↔◌, List, [], Option, None, Some, true, IfNone};
ghost use Rattle.std.specs.Prelude.{IfSome, MatchOption};
ghost use Rattle.sv_ring.specs.declared.story.Story.{Story};
ghost use Rattle.sv_cli.specs.Answers.{Answers, is_ringless, is_silent};
ghost use Rattle.sv_cli.specs.Commands.{by_two, by_three, file_of, offline_of, request_of};
ghost use Rattle.sv_cli.specs.Commands.{run};
ghost use Rattle.sv_cli.specs.Devices.{HasRead, HasWritten, Says};
ghost use Rattle.sv_cli.specs.ErrorLine.{error_line};

use crate::generate::generate;
use crate::make::Make;
use crate::number::number_of;
use crate::run::run_file;
use crate::shown::{show_file, tell_file};
use crate::simulate::simulate_file;
use crate::status::{Status, say};
use std::alloc::Global;
use std::sync::Wait;
use std::thread::Threads;
use sv_base::{Gate, Sink, Source};
use sv_journal::Journal;
use sv_ring::Dock;

/// Does the command of two words, if there is one, and says how it ended.
fn answer_two<S: Source, K: Sink>(
    alloc: Global,
    name: &str,
    word: &str,
    src: &mut S,
    out: &mut K,
    journal: &mut Journal,
) -> Status
    requires { journal.old.items ≡ [] }
    ensures usage { IfNone (by_two name.now word.now)
        ((result ≡ Status.Usage) × (journal.new ≡ journal.old)) }
    ensures answered { (before now : Option (List Story)) → IfSome (by_two name.now word.now) (λ request.
        Answers (S.held src.old) (S.left src.new) request
        (K.written out.old) (K.written out.new) before now journal.new.items result) }
    ensures source { HasRead (file_of (by_two name.now word.now)) (src.new ≡ src.old)
        (S.sure src.old) (S.begins src.old) (S.begins src.new)
        (S.faults src.old) (S.faults src.new) (result ≡ Status.ReadFault) }
    ensures sink { HasWritten (is_silent (by_two name.now word.now) result) (out.new ≡ out.old)
        (K.broken out.new) (K.faults out.old) (K.faults out.new) (result ≡ Status.WriteFault) }
{
    match name {
        "generate" => match number_of(word, 1000000) {
            Some(number) => generate(alloc, number, out, journal),
            None => Status::Usage,
        },
        "simulate" => simulate_file(alloc, Make::Report, word, src, out, journal),
        "record" => simulate_file(alloc, Make::Recording, word, src, out, journal),
        _ => show_file(alloc, name, word, src, out),
    }
}

/// Does the command of three words, if there is one, and says how it ended.
fn answer_three<S: Source, K: Sink>(
    alloc: Global,
    name: &str,
    size: &str,
    file: &str,
    src: &mut S,
    out: &mut K,
    journal: &mut Journal,
) -> Status
    requires { journal.old.items ≡ [] }
    ensures usage { IfNone (by_three name.now size.now file.now)
        ((result ≡ Status.Usage) × (journal.new ≡ journal.old)) }
    ensures answered { (before now : Option (List Story)) → IfSome (by_three name.now size.now file.now) (λ request.
        Answers (S.held src.old) (S.left src.new) request
        (K.written out.old) (K.written out.new) before now journal.new.items result) }
    ensures source { HasRead (file_of (by_three name.now size.now file.now)) (src.new ≡ src.old)
        (S.sure src.old) (S.begins src.old) (S.begins src.new)
        (S.faults src.old) (S.faults src.new) (result ≡ Status.ReadFault) }
    ensures sink { HasWritten (is_silent (by_three name.now size.now file.now) result) (out.new ≡ out.old)
        (K.broken out.new) (K.faults out.old) (K.faults out.new) (result ≡ Status.WriteFault) }
{
    if name != "live" {
        return Status::Usage;
    }
    match number_of(size, 65536) {
        Some(size) => tell_file(alloc, size, file, src, out),
        None => Status::Usage,
    }
}

/// Does the command of the words, if there is one, and says how it ended.
fn answer<S: Source, K: Sink>(
    alloc: Global,
    words: &[&str],
    src: &mut S,
    out: &mut K,
    journal: &mut Journal,
) -> Status
    requires { journal.old.items ≡ [] }
    ensures usage { IfNone (offline_of words.now)
        ((result ≡ Status.Usage) × (journal.new ≡ journal.old)) }
    ensures answered { (before now : Option (List Story)) → IfSome (offline_of words.now) (λ request.
        Answers (S.held src.old) (S.left src.new) request
        (K.written out.old) (K.written out.new) before now journal.new.items result) }
    ensures source { HasRead (file_of (offline_of words.now)) (src.new ≡ src.old)
        (S.sure src.old) (S.begins src.old) (S.begins src.new)
        (S.faults src.old) (S.faults src.new) (result ≡ Status.ReadFault) }
    ensures sink { HasWritten (is_silent (offline_of words.now) result) (out.new ≡ out.old)
        (K.broken out.new) (K.faults out.old) (K.faults out.new) (result ≡ Status.WriteFault) }
{
    match words {
        [name, word] => answer_two(alloc, name, word, src, out, journal),
        [name, size, file] => answer_three(alloc, name, size, file, src, out, journal),
        _ => Status::Usage,
    }
}

/// Does the command that the words name, and says how it ended.
///
/// `words` are those after the program's name. `events F`, `check F`, `timeline F` and `report F`
/// read the file F from `src`, of at most 2^33 bytes, in pieces of 4096 bytes, and nothing after a
/// piece that is damaged. `events` writes a line for each event to `out`, those of a piece at once,
/// and an end line; `check` writes how many packets there are, the time of the last one, and the
/// end line; `timeline` writes a line for each run of ticks with equal contexts as the runs end,
/// those of a piece at once, then the last run's and the end line; `report` writes the report of
/// all events. `live N F` reads the same file by pieces of N bytes, and writes after each piece
/// that has bytes how many there are so far and their report; the first that is damaged is the
/// last.
/// `simulate W` and `record W` read the workload W, of at most 2^26 bytes, and simulate it.
/// `simulate` writes the report of the bytes that were sent, and `record` a line and these bytes;
/// `journal` is then that of the run. `generate N` reads no file: it simulates the workload of the
/// number N, from 1 to 1000000, and writes the counts of the bytes that were sent, and the end
/// line; `journal` is that of the run. A status other than Done is told to `err`, in one line; what
/// `err` does with it changes nothing.
pub fn offline<S: Source, K: Sink>(
    alloc: Global,
    words: &[&str],
    src: &mut S,
    out: &mut K,
    err: &mut K,
    journal: &mut Journal,
) -> Status
    requires { journal.old.items ≡ [] }

    // The words alone are to blame.
    ensures usage { (result ≡ Status.Usage) ↔ (offline_of words.now ≡ None) }
    ensures untouched { result ≡ Status.Usage →
        (src.new ≡ src.old) × (out.new ≡ out.old) × (journal.new ≡ journal.old) }

    // The bytes of the file fix the answer, as far as they were taken, or the number does.
    ensures answered { IfSome (offline_of words.now) (λ request.
        Answers (S.held src.old) (S.left src.new) request
        (K.written out.old) (K.written out.new) None None journal.new.items result) }

    // What it does to its devices.
    ensures source { HasRead (file_of (offline_of words.now)) (src.new ≡ src.old)
        (S.sure src.old) (S.begins src.old) (S.begins src.new)
        (S.faults src.old) (S.faults src.new) (result ≡ Status.ReadFault) }
    ensures sink { HasWritten (is_silent (offline_of words.now) result) (out.new ≡ out.old)
        (K.broken out.new) (K.faults out.old) (K.faults out.new) (result ≡ Status.WriteFault) }

    // The error sink has the status's line, or has failed within it.
    ensures said { Says (error_line result)
        (K.written err.old) (K.written err.new) (K.faults err.old) (K.faults err.new) }
{
    let status = answer(alloc, words, src, out, journal);
    say(err, &status);
    status
}

/// The name of the workload that the words ask to run, if they do.
fn run_asked<'a>(words: &[&'a str]) -> Option<&'a str>
    ensures { MatchOption result
        (request_of words.now ≡ offline_of words.now)
        (λ file. request_of words.now ≡ Some (run file.now)) }
{
    match words {
        ["run", file] => Some(file),
        _ => None,
    }
}

/// Does the command or the run of the words, if there is one, and says how it ended.
fn respond<R: Threads + Wait + Sync, S: Source, K: Sink, D: Dock, G: Gate>(
    rt: &R,
    alloc: Global,
    words: &[&str],
    src: &mut S,
    out: &mut K,
    dock: &mut D,
    gate: &G,
    journal: &mut Journal,
) -> Status
    requires { journal.old.items ≡ [] }
    ensures usage { IfNone (request_of words.now)
        ((result ≡ Status.Usage) × (journal.new ≡ journal.old)) }
    ensures answered { IfSome (request_of words.now) (λ request.
        Answers (S.held src.old) (S.left src.new) request (K.written out.old) (K.written out.new)
        (D.stories dock.old) (D.stories dock.new) journal.new.items result) }
    ensures source { HasRead (file_of (request_of words.now)) (src.new ≡ src.old)
        (S.sure src.old) (S.begins src.old) (S.begins src.new)
        (S.faults src.old) (S.faults src.new) (result ≡ Status.ReadFault) }
    ensures sink { HasWritten (is_silent (request_of words.now) result) (out.new ≡ out.old)
        (K.broken out.new) (K.faults out.old) (K.faults out.new) (result ≡ Status.WriteFault) }
    ensures ringless { is_ringless (request_of words.now) result ≡ true → dock.new ≡ dock.old }
{
    match run_asked(words) {
        Some(file) => run_file(rt, alloc, file, src, out, dock, gate, journal),
        None => answer(alloc, words, src, out, journal),
    }
}

/// Does what the words ask for, and says how it ended: `run W`, or a command of [`offline`].
///
/// `run W` reads the workload W, of at most 2^26 bytes, from `src`, and runs it over rings of
/// `dock`: a thread for each writer takes the steps of its script, and the calling thread is the
/// host. It writes the report of the bytes that the host has taken to `out`; `journal` is then that
/// of the run, and `dock` has its story, where it tells stories. In which order the threads go on
/// is open, and with it the report; the contract holds of each. A test may hold them by `gate`.
/// After NoMemory nothing is written, and the journal is empty.
///
/// May wait for its threads. With all other words it does what [`offline`] does, and leaves `dock`
/// as it was.
pub fn sysview<R: Threads + Wait + Sync, S: Source, K: Sink, D: Dock, G: Gate>(
    rt: &R,
    alloc: Global,
    words: &[&str],
    src: &mut S,
    out: &mut K,
    err: &mut K,
    dock: &mut D,
    gate: &G,
    journal: &mut Journal,
) -> Status
    requires { journal.old.items ≡ [] }

    // The words alone are to blame.
    ensures usage { (result ≡ Status.Usage) ↔ (request_of words.now ≡ None) }
    ensures untouched { result ≡ Status.Usage → (src.new ≡ src.old) × (out.new ≡ out.old)
        × (dock.new ≡ dock.old) × (journal.new ≡ journal.old) }

    // The bytes of the file fix the answer of a command, as far as they were taken, or its number
    // does; a run answers with its journal, the report of that, and its story.
    ensures answered { IfSome (request_of words.now) (λ request.
        Answers (S.held src.old) (S.left src.new) request (K.written out.old) (K.written out.new)
        (D.stories dock.old) (D.stories dock.new) journal.new.items result) }

    // What it does to its devices.
    ensures source { HasRead (file_of (request_of words.now)) (src.new ≡ src.old)
        (S.sure src.old) (S.begins src.old) (S.begins src.new)
        (S.faults src.old) (S.faults src.new) (result ≡ Status.ReadFault) }
    ensures sink { HasWritten (is_silent (request_of words.now) result) (out.new ≡ out.old)
        (K.broken out.new) (K.faults out.old) (K.faults out.new) (result ≡ Status.WriteFault) }
    ensures ringless { is_ringless (request_of words.now) result ≡ true → dock.new ≡ dock.old }

    // The error sink has the status's line, or has failed within it.
    ensures said { Says (error_line result)
        (K.written err.old) (K.written err.new) (K.faults err.old) (K.faults err.new) }
{
    let status = respond(rt, alloc, words, src, out, dock, gate, journal);
    say(err, &status);
    status
}
