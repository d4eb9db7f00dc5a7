ghost use Rattle.std.specs.Prelude.{◌≡◌, ◌<◌, None, IsTrue, is_ok, OnErr, false, length};
ghost use Rattle.std.specs.Io.{ReadsAtMost};
ghost use Rattle.sv_base.specs.Causes.{HasCause, one_more};
ghost use Rattle.sv_base.specs.Streams.{goes_on};

use crate::failed::Failed;
use crate::source::Source;
use std::fs;
use std::io::Read;
use std::marker::Model;
use std::rt::Files;

/// Files by their paths. Nothing is known of their bytes, and no call is sure to succeed.
///
/// An open file is closed where it ends, where it fails, and where the next is begun.
#[derive(Drop)]
pub struct FileSource<R: Files + Drop> {
    rt: R,
    file: Option<R::File>,
    begins: u64,
    faults: u64,
}

impl<R: Files + Drop> Model for FileSource<R> {
    ghost use Rattle.std.specs.Prelude.{is_some};
    ghost use Rattle.sv_base.specs.Devices.{FileState};

    ghost Value = { FileState };

    ghost view = { λ s. record { opened = is_some s.file; begins = s.begins; faults = s.faults } };
}

impl<R: Files + Drop> FileSource<R> {
    /// The files that `rt` opens, of which none is begun.
    pub fn new(rt: R) -> FileSource<R>
        ensures { result ≡ record { opened = false; begins = 0; faults = 0 } }
    {
        FileSource {
            rt,
            file: None,
            begins: 0,
            faults: 0,
        }
    }
}

impl<R: Files + Drop> Source for FileSource<R> {
    ghost held = { λ s name. None };

    ghost left = { λ s. None };

    ghost opened = { λ s. s.opened };

    ghost begins = { λ s. s.begins };

    ghost sure = { λ s name. ⊥ };

    ghost safe = { λ s. ⊥ };

    ghost faults = { λ s. s.faults };

    /// Opens the path for reading.
    fn begin(&mut self, name: &str) -> Result<(), Failed>
        ensures opened { self.new.opened ≡ is_ok result }
        ensures begins { self.new.begins ≡ one_more self.old.begins }
        ensures cause { HasCause self.old.faults self.new.faults result }
        ensures fault { OnErr result (self.new.faults ≡ one_more self.old.faults) }
    {
        self.begins = self.begins.saturating_add(1);
        match fs::open(&self.rt, name) {
            Ok(file) => {
                self.file = Some(file);
                Ok(())
            }
            Err(_) => {
                self.file = None;
                self.faults = self.faults.saturating_add(1);
                Err(Failed)
            }
        }
    }

    /// Makes one read of the file, which may give fewer bytes than the buffer takes.
    fn read(&mut self, buf: &mut [u8]) -> Result<usize, Failed>
        requires open { IsTrue self.old.opened }
        requires room { 0 < length buf.old }
        ensures bound { ReadsAtMost result buf.new }
        ensures opened { self.new.opened ≡ goes_on result }
        ensures begins { self.new.begins ≡ self.old.begins }
        ensures cause { HasCause self.old.faults self.new.faults result }
        ensures fault { OnErr result (self.new.faults ≡ one_more self.old.faults) }
    {
        let Some(file) = &mut self.file else {
            unreachable!()
        };
        match file.read(buf) {
            Ok(0) => {
                self.file = None;
                Ok(0)
            }
            Ok(count) => Ok(count),
            Err(_) => {
                self.file = None;
                self.faults = self.faults.saturating_add(1);
                Err(Failed)
            }
        }
    }
}
