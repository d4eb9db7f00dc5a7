//! How a command ends: its status, exit code, and line on the error sink.
ghost use Rattle.std.specs.Prelude.{◌≡◌, ◌++◌, ◌≤◌, length, codes};
ghost use Rattle.std.specs.Fmt.{decimal};
ghost use Rattle.sv_cli.specs.Devices.{Says};
ghost use Rattle.sv_cli.specs.ErrorLine.{error_line, usage_line};
ghost use Rattle.sv_cli.specs.Status.{status_for};

use arrayvec::ArrayString;
use itoa::Buffer;
use sv_base::{Sink, put_all};
use sv_report::reason_number;
use sv_stream::End;
use sv_view::{Cut, MOST_BYTES};

/// How a command ended.
#[derive(Clone, Copy, Debug, PartialEq, Eq)]
pub enum Status {
    /// The input was read to its end, and all of its text is written.
    Done,
    /// The words are no command.
    Usage,
    /// The file could not be opened, or not be read to its end.
    ReadFault,
    /// The output took less than the text.
    WriteFault,
    /// The recording is damaged: with the byte at `place`, an offset in bytes, no packet goes on.
    /// `reason` is the number of the reason, from 1 to 4.
    Damaged { place: u64, reason: u8 },
    /// The recording ends inside a packet, of which `held` bytes stand.
    Truncated { held: u64 },
    /// No ten zero bytes in a row stand in the recording, so that nothing in it can be read. Of a
    /// workload: it never starts the recorder.
    NoSync,
    /// The text is no workload: the line `line`, counted from 1, is the first with a fault, and
    /// `reason` is the fault's number, from 1 to 10.
    Workload { line: u32, reason: u8 },
    /// The file has more bytes than the limit.
    TooLong { limit: u64 },
    /// Memory was not to be had.
    NoMemory,
}

impl Status {
    ghost use Rattle.std.specs.Prelude.{◌≡◌};
    ghost use Rattle.sv_cli.specs.Status.{code_of};

    /// The exit code of a program that ends so: 0 for Done, 2 and above for all others.
    pub fn code(&self) -> u8
        ensures { result ≡ code_of self.now }
    {
        match self {
            Status::Done => 0,
            Status::Usage => 2,
            Status::ReadFault => 3,
            Status::WriteFault => 4,
            Status::Damaged { .. } => 5,
            Status::Truncated { .. } => 6,
            Status::NoSync => 7,
            Status::Workload { .. } => 8,
            Status::TooLong { .. } => 9,
            Status::NoMemory => 10,
        }
    }
}

/// How a command ends whose recording ends so, or was cut.
pub fn status_of(ended: Result<End, Cut>) -> Status
    ensures { result ≡ status_for ended }
{
    match ended {
        Ok(End::Clean) => Status::Done,
        Ok(End::Truncated { held }) => Status::Truncated { held },
        Ok(End::NoSync) => Status::NoSync,
        Ok(End::Damaged { place, reason }) => Status::Damaged {
            place,
            reason: reason_number(reason),
        },
        Err(Cut::Unread) => Status::ReadFault,
        Err(Cut::TooLong) => Status::TooLong { limit: MOST_BYTES },
        Err(Cut::Unwritten) => Status::WriteFault,
        Err(Cut::NoMemory) => Status::NoMemory,
    }
}

/// Room for the longest line: it is made where memory may be wanting, so it takes none.
type Line = ArrayString<256>;

fn words(text: &str) -> Line
    requires { length text.now ≤ 256 }
    ensures { result.bytes ≡ text.now }
{
    let mut line = Line::new();
    line.push_str(text);
    line
}

fn numbered(text: &str, number: u64) -> Line
    requires { length text.now ≤ 200 }
    ensures { result.bytes ≡ text.now ++ (decimal number ++ codes "\n") }
{
    let mut line = words(text);
    line.push_str(Buffer::new().format(number));
    line.push_str("\n");
    line
}

fn reasoned(text: &str, number: u64, reason: u8) -> Line
    requires { length text.now ≤ 200 }
    ensures { result.bytes ≡ text.now
        ++ (decimal number ++ (codes " reason " ++ (decimal reason ++ codes "\n"))) }
{
    let mut line = words(text);
    line.push_str(Buffer::new().format(number));
    line.push_str(" reason ");
    line.push_str(Buffer::new().format(reason));
    line.push_str("\n");
    line
}

/// The line that tells the forms of all commands.
fn usage() -> &'static str
    ensures { result.now ≡ usage_line }
{
    "usage: sysview events F | check F | timeline F | report F | \
     live N F | simulate W | record W | run W | generate N\n"
}

/// The line of a status; none for Done.
fn line_of(status: &Status) -> Line
    ensures { result.bytes ≡ error_line status.now }
{
    match status {
        Status::Done => words(""),
        Status::Usage => words(usage()),
        Status::ReadFault => words("read fault\n"),
        Status::WriteFault => words("write fault\n"),
        Status::Damaged { place, reason } => reasoned("damaged at ", *place, *reason),
        Status::Truncated { held } => numbered("truncated, held ", *held),
        Status::NoSync => words("no sync\n"),
        Status::Workload { line, reason } => reasoned("workload line ", u64::from(*line), *reason),
        Status::TooLong { limit } => numbered("longer than ", *limit),
        Status::NoMemory => words("no memory\n"),
    }
}

/// Says a status other than Done to the error sink, in one line. It takes no memory, and a write
/// that fails changes nothing else.
pub fn say<K: Sink>(err: &mut K, status: &Status)
    ensures { Says (error_line status.now)
        (K.written err.old) (K.written err.new) (K.faults err.old) (K.faults err.new) }
{
    let _ = put_all(err, line_of(status).as_str().as_bytes());
}
