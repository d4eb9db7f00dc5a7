//! Modules of a target, numbered from 0 in the order in which they registered.
ghost use Rattle.std.specs.Prelude.{◌≡◌, ◌+◌, ◌<◌, ◌≤◌, ◌↔◌, ◌∷◌, ◌++◌, [], true, length, take};
ghost use Rattle.std.specs.Prelude.{slice_get, Some, IsErr, IsNone, IfOk, IfErr, IfSome, OnOk};
ghost use Rattle.std.specs.Prelude.{OnErr};
ghost use Rattle.sv_desc.specs.Modules.{offset_after, is_full_for, AreRegistered};

use arrayvec::ArrayVec;
use std::alloc::Global;
use std::default::MadeWith;
use std::marker::Model;
use sv_prim::Bytes;
use thiserror::Error;

/// How many modules may register.
const MOST_MODULES: usize = 64;

/// The first event identifier that a module can have.
const FIRST_OFFSET: u64 = 512;

/// Event identifiers end here.
const MOST_OFFSET: u64 = 16384;

/// One place for a module.
#[derive(Debug, Drop)]
struct Row {
    events: u32,
    /// None at a place that is free, which reads as no bytes.
    name: Option<Bytes>,
}

impl Model for Row {
    ghost use Rattle.std.specs.Prelude.{[], unwrap_or};
    ghost use Rattle.sv_desc.specs.Modules.{ModuleRow};

    ghost Value = { ModuleRow };

    ghost view = { λ r. record { events = r.events; name = unwrap_or r.name [] } };
}

impl MadeWith<Global> for Row {
    fn made_with(_alloc: Global) -> Row {
        Row {
            events: 0,
            name: None,
        }
    }
}

impl Row {
    fn new(name: Bytes, events: u32) -> Row
        ensures { result ≡ record { events = events; name = name } }
    {
        Row {
            events,
            name: Some(name),
        }
    }

    fn events(&self) -> u32
        ensures { result ≡ self.now.events }
    {
        self.events
    }

    fn name(&self) -> &[u8]
        ensures { result.now ≡ self.now.name }
    {
        match &self.name {
            Some(name) => name.bytes(),
            None => &[],
        }
    }
}

/// A registered module. Its events have the identifiers from `offset` on.
#[derive(Clone, Copy, Debug, PartialEq, Eq, Drop)]
pub struct Module<'a> {
    pub offset: u32,
    pub events: u32,
    /// What describes its events, 1 to 128 bytes.
    pub name: &'a [u8],
}

/// No further module of the size that was asked for can register: so many did, and the next event
/// identifier is `offset`.
#[derive(Clone, Copy, Debug, PartialEq, Eq, Error)]
#[error("no room after {modules} modules up to {offset}")]
pub struct Full {
    pub modules: u32,
    pub offset: u64,
}

/// The modules that registered, at most 64. They lie in the value itself, so that only their names
/// take memory.
#[derive(Debug, Drop)]
pub struct Modules {
    rows: ArrayVec<Row, 64, Global>,
    next: u64,
}

impl Model for Modules {
    ghost use Rattle.std.specs.Prelude.{◌≡◌, List};
    ghost use Rattle.sv_desc.specs.Modules.{ModuleRow, offset_after, AreRegistered};

    ghost Value = { List ModuleRow };

    ghost view = { λ m. m.rows.items };

    ghost invariant = { λ m.
        AreRegistered m.rows.items × (m.next ≡ offset_after m.rows.items) };
}

impl Modules {
    /// No module so far. Takes no memory.
    pub fn new(alloc: Global) -> Modules
        ensures { result ≡ [] }
    {
        Modules {
            rows: ArrayVec::new_in(alloc),
            next: FIRST_OFFSET,
        }
    }

    /// How many modules registered, at most 64.
    pub fn count(&self) -> u32
        ensures count { result ≡ length self.now }
        ensures registered { AreRegistered self.now }
    {
        self.rows.len() as u32
    }

    /// Whether no room is left for a module of so many events.
    pub fn is_full_for(&self, events: u32) -> bool
        ensures { result ≡ is_full_for self.now events }
    {
        self.rows.len() >= MOST_MODULES || self.next + u64::from(events) > MOST_OFFSET
    }

    /// Registers a module, whose name has 1 to 128 bytes, and answers its first event identifier:
    /// that after all events of the modules before it.
    ///
    /// Answers [`Full`] exactly where 64 modules registered, or where one of its identifiers would
    /// be past 16,383; then nothing changes. Takes no memory.
    pub fn register(&mut self, name: Bytes, events: u32) -> Result<u32, Full>
        requires some { 1 ≤ length name }
        requires short { length name ≤ 128 }
        ensures full { IsErr result ↔ (is_full_for self.old events ≡ true) }
        ensures offset { IfOk result (λ offset. offset ≡ offset_after self.old) }
        ensures added { OnOk result
            (self.new ≡ self.old ++ record { events = events; name = name } ∷ []) }
        ensures told { IfErr result (λ full. full ≡
            record { modules = length self.old; offset = offset_after self.old }) }
        ensures kept { OnErr result (self.new ≡ self.old) }
    {
        if self.is_full_for(events) {
            return Err(Full {
                modules: self.rows.len() as u32,
                offset: self.next,
            });
        }
        // A name is made of bytes, by what its type keeps.
        let _ = name.bytes();
        let offset = self.next as u32;
        self.rows.push(Row::new(name, events));
        self.next += u64::from(events);
        Ok(offset)
    }
}

impl Modules {
    /// The first event identifier after the first so many modules.
    fn offset_before(&self, count: usize) -> u32
        requires { count ≤ length self.now }
        ensures { result ≡ offset_after (take count self.now) }
    {
        let mut offset = FIRST_OFFSET;
        for row in &self.rows.as_slice()[..count] {
            offset += u64::from(row.events());
        }
        offset as u32
    }

    /// The module of this number, None exactly where there is none.
    pub fn get(&self, index: u32) -> Option<Module<'_>>
        ensures none { IsNone result ↔ (length self.now ≤ index) }
        ensures told { IfSome result (λ found. slice_get self.now index ≡
            Some (record { events = found.events; name = found.name.now })) }
        ensures offset { IfSome result
            (λ found. found.offset ≡ offset_after (take index self.now)) }
    {
        let row = self.rows.as_slice().get(index as usize)?;
        Some(Module {
            offset: self.offset_before(index as usize),
            events: row.events(),
            name: row.name(),
        })
    }
}
