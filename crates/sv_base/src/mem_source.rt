ghost use Rattle.std.specs.Prelude.{◌≡◌, ◌⊎◌, ◌↔◌, ◌+◌, ◌^◌, ◌<◌, [], Some, None, false};
ghost use Rattle.std.specs.Prelude.{Contains, IsTrue, IsOk, is_ok, IsErr, IsNone, IfOk};
ghost use Rattle.std.specs.Prelude.{OnOk, OnErr, length, drop, min};
ghost use Rattle.std.specs.Io.{ReadsAtMost};
ghost use Rattle.std.specs.Io.KnownBytes.{ReadConsumes};
ghost use Rattle.sv_base.specs.Causes.{HasCause, one_more};
ghost use Rattle.sv_base.specs.Memory.{IsSure, bytes_at, bytes_of, files_of, first_place, left_of};
ghost use Rattle.sv_base.specs.Streams.{IsSameFiles, goes_on};

use crate::failed::Failed;
use crate::source::Source;
use std::marker::Model;

/// Files in memory, for tests: a [`Source`] of which all is known, and whose calls fail where it is
/// told to.
///
/// Of two files with one name the first is held. Calls of `begin` and `read` are numbered together,
/// from 1. A call fails whose number is in `fails`, and so does a begin of a name that is not
/// there.
#[derive(Drop)]
pub struct MemSource {
    files: Vec<(String, Vec<u8>)>,
    fails: Vec<u64>,
    calls: u64,
    begins: u64,
    faults: u64,
    file: Option<usize>,
    at: usize,
    opened: bool,
}

impl Model for MemSource {
    ghost use Rattle.std.specs.Prelude.{drop, is_some};
    ghost use Rattle.sv_base.specs.Memory.{MemFiles, bytes_at, files_of};

    ghost Value = { MemFiles };

    ghost view = { λ s. record {
      files = files_of s.files.items;
      fails = s.fails.items;
      calls = s.calls;
      begins = s.begins;
      faults = s.faults;
      left = drop s.at (bytes_at (files_of s.files.items) s.file);
      begun = is_some s.file;
      opened = s.opened;
    } };
}

impl MemSource {
    /// A source of these files, of which none is begun. `fails` holds the numbers of the calls that
    /// fail.
    pub fn new(files: Vec<(String, Vec<u8>)>, fails: Vec<u64>) -> MemSource
        ensures { result ≡ record {
          files = files_of files.items;
          fails = fails.items;
          calls = 0;
          begins = 0;
          faults = 0;
          left = [];
          begun = false;
          opened = false;
        } }
    {
        MemSource {
            files,
            fails,
            calls: 0,
            begins: 0,
            faults: 0,
            file: None,
            at: 0,
            opened: false,
        }
    }
}

/// The place of the first file of this name.
fn place_of(files: &[(String, Vec<u8>)], name: &str) -> Option<usize>
    ensures { result ≡ first_place files.now name.now }
{
    files.iter().position(|file| file.0.as_str() == name)
}

/// The bytes of a file from a place on.
fn rest_of(files: &[(String, Vec<u8>)], file: Option<usize>, at: usize) -> &[u8]
    ensures rest { result.now ≡ drop at (bytes_at (files_of files.now) file) }
    ensures fits { at + length result.now < 2 ^ 64 }
{
    let Some(place) = file else {
        return &[];
    };
    let Some((_, bytes)) = files.get(place) else {
        return &[];
    };
    if at > bytes.len() {
        return &[];
    }
    &bytes[at..]
}

impl Source for MemSource {
    ghost held = { λ s name. bytes_of s.files name };

    ghost left = { left_of };

    ghost opened = { λ s. s.opened };

    ghost begins = { λ s. s.begins };

    ghost sure = { IsSure };

    ghost safe = { λ s. s.fails ≡ [] };

    ghost faults = { λ s. s.faults };

    /// Looks through `fails` and through the names, one by one.
    fn begin(&mut self, name: &str) -> Result<(), Failed>
        ensures files { IsSameFiles
            (bytes_of self.old.files) (bytes_of self.new.files)
            (IsSure self.old) (IsSure self.new) }
        ensures content { OnOk result (left_of self.new ≡ bytes_of self.old.files name.now) }
        ensures unopened { OnErr result (left_of self.new ≡ None) }
        ensures opened { self.new.opened ≡ is_ok result }
        ensures begins { self.new.begins ≡ one_more self.old.begins }
        ensures sure { IsSure self.old name.now → IsOk result × (self.new.fails ≡ []) }
        ensures cause { HasCause self.old.faults self.new.faults result }

        // It fails exactly where it is told to or the name is not there, and counts that.
        ensures same { (self.new.files ≡ self.old.files) × (self.new.fails ≡ self.old.fails) }
        ensures call { self.new.calls ≡ one_more self.old.calls }
        ensures fails { IsErr result
            ↔ (Contains self.old.fails self.new.calls ⊎ IsNone (bytes_of self.old.files name.now)) }
        ensures fault { OnErr result (self.new.faults ≡ one_more self.old.faults) }
    {
        self.begins = self.begins.saturating_add(1);
        self.calls = self.calls.saturating_add(1);
        if !self.fails.contains(&self.calls) {
            if let Some(place) = place_of(&self.files, name) {
                self.file = Some(place);
                self.at = 0;
                self.opened = true;
                return Ok(());
            }
        }
        self.file = None;
        self.opened = false;
        self.faults = self.faults.saturating_add(1);
        Err(Failed)
    }

    /// Looks through `fails`, and copies as many bytes as the buffer takes, or all that are left.
    fn read(&mut self, buf: &mut [u8]) -> Result<usize, Failed>
        requires open { IsTrue self.old.opened }
        requires room { 0 < length buf.old }
        ensures files { IsSameFiles
            (bytes_of self.old.files) (bytes_of self.new.files)
            (IsSure self.old) (IsSure self.new) }
        ensures bound { ReadsAtMost result buf.new }
        ensures bytes { ReadConsumes (left_of self.old) (left_of self.new) result buf.new }
        ensures opened { self.new.opened ≡ goes_on result }
        ensures begins { self.new.begins ≡ self.old.begins }
        ensures safe { self.old.fails ≡ [] → IsOk result × (self.new.fails ≡ []) }
        ensures cause { HasCause self.old.faults self.new.faults result }

        // It fails exactly where it is told to, and counts that. Else it gives all that the buffer
        // takes.
        ensures same { (self.new.files ≡ self.old.files) × (self.new.fails ≡ self.old.fails) }
        ensures call { self.new.calls ≡ one_more self.old.calls }
        ensures fails { IsErr result ↔ Contains self.old.fails self.new.calls }
        ensures fault { OnErr result (self.new.faults ≡ one_more self.old.faults) }
        ensures count { IfOk result (λ count. count ≡ min (length self.old.left) (length buf.old)) }
    {
        self.calls = self.calls.saturating_add(1);
        if self.fails.contains(&self.calls) {
            self.opened = false;
            self.faults = self.faults.saturating_add(1);
            return Err(Failed);
        }
        let rest = rest_of(&self.files, self.file, self.at);
        let count = rest.len().min(buf.len());
        buf[..count].copy_from_slice(&rest[..count]);
        self.at += count;
        self.opened = count > 0;
        Ok(count)
    }
}
