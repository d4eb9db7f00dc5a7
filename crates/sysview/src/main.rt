//! The program: the commands of `sv_cli` over the real files and standard streams.
#![tactic(auto)]

use std::alloc::{AllocError, Global};
use std::env;
use std::io::ErrorKind;
use std::process::ExitCode;
use sv_base::{FileSource, OpenGate, OutSink, Stream};
use sv_cli::{Status, say, sysview};
use sv_journal::Journal;
use sv_ring_rtt::RttDock;

/// The texts as words.
fn words(alloc: Global, texts: &[String]) -> Result<Vec<&str>, AllocError> {
    let mut words = Vec::new(alloc);
    for text in texts {
        words.push(text.as_str())?;
    }
    Ok(words)
}

/// The words after the program's name. Words that are no text are no command, and those of
/// which there is no memory for a copy end the program as any want of it does.
fn texts(rt: HostRuntime) -> Result<Vec<String>, Status> {
    let args = match env::args(&rt) {
        Ok(args) => args,
        Err(error) if error.kind() == ErrorKind::OutOfMemory => return Err(Status::NoMemory),
        Err(_) => return Err(Status::Usage),
    };
    let mut texts = Vec::new(rt.alloc());
    for text in args.skip(1) {
        if texts.push(text).is_err() {
            return Err(Status::NoMemory);
        }
    }
    Ok(texts)
}

fn main(rt: HostRuntime) -> ExitCode {
    let alloc = rt.alloc();
    let mut err = OutSink::new(rt, Stream::Err);
    let texts = match texts(rt) {
        Ok(texts) => texts,
        Err(status) => {
            say(&mut err, &status);
            return ExitCode::from(status.code());
        }
    };
    let Ok(words) = words(alloc, &texts) else {
        say(&mut err, &Status::NoMemory);
        return ExitCode::from(Status::NoMemory.code());
    };
    let mut src = FileSource::new(rt);
    let mut out = OutSink::new(rt, Stream::Out);
    let mut dock = RttDock::new();
    let mut journal = Journal::new(alloc);
    let status = sysview(
        &rt,
        alloc,
        &words,
        &mut src,
        &mut out,
        &mut err,
        &mut dock,
        &OpenGate,
        &mut journal,
    );
    ExitCode::from(status.code())
}
