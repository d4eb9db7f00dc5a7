ghost use Rattle.std.specs.Prelude.{◌≡◌, ◌<◌, [], ◌∷◌, ◌++◌, length, vec_capacity};

use std::alloc::Global;
use std::marker::Model;

/// What a recorder answers by itself (UM08027, initialisation and module events): the packets that
/// describe the target after a start or a command, and the one that says that it stopped.
#[derive(Debug, Clone, Copy, PartialEq, Eq, Drop)]
pub enum Kind {
    TraceStart,
    Init,
    Line,
    Systime,
    Task,
    Stack,
    ModuleCount,
    Module,
    TraceStop,
}

/// Where an item comes from.
#[derive(Debug, Clone, Copy, PartialEq, Eq, Drop)]
pub enum Origin {
    /// A writer's step, both counted from 0.
    Call { writer: u32, step: u32 },
    /// The ten zero bytes of a start.
    Sync,
    /// A packet that the recorder forms by itself. `index` counts from 0 the lines, tasks or
    /// modules that it describes.
    Reply { kind: Kind, index: u32 },
    /// The packet that says how many packets were refused since the last stored overflow.
    Overflow { count: u32 },
    /// Two bytes that the host sent.
    Command { byte: u8, param: u8 },
}

/// What became of an item.
#[derive(Debug, Clone, Copy, PartialEq, Eq, Drop)]
pub enum Outcome {
    /// Its bytes are in the ring, all of them.
    Stored,
    /// There was too little room, and none of its bytes are in the ring.
    Refused,
    /// The recorder was off.
    Ignored,
    /// It forms no packet: a start, a stop or a command.
    Handled,
}

/// One thing that a recorder did.
#[derive(Debug, Clone, Copy, PartialEq, Eq, Drop)]
pub struct Item {
    pub origin: Origin,
    /// When its section was at work, in ticks: those of all steps up to its own.
    pub moment: u64,
    /// How many bytes the ring was known to have given to the host when this was decided.
    pub freed: u64,
    pub outcome: Outcome,
}

/// The history of a run, in the order in which the recorder's lock was held.
#[derive(Drop)]
pub struct Journal {
    items: Vec<Item>,
}

impl Model for Journal {
    ghost use Rattle.std.specs.Global.{Vec};
    ghost use Rattle.sv_journal.specs.declared.journal.Item.{Item};

    ghost Value = { Vec Item };

    ghost view = { λ j. j.items };
}

impl Journal {
    /// A journal without an item. Takes no memory.
    pub fn new(alloc: Global) -> Journal
        ensures { result.items ≡ [] }
    {
        Journal {
            items: Vec::new(alloc),
        }
    }

    /// The items, the first one first.
    pub fn items(&self) -> &[Item]
        ensures { result.now ≡ self.now.items }
    {
        self.items.as_slice()
    }

    /// A journal of these items.
    pub fn of(items: Vec<Item>) -> Journal
        ensures { result ≡ items }
    {
        Journal { items }
    }

    /// One item more, for which there is room.
    #[inline(always)]
    pub fn push_reserved(&mut self, item: Item)
        requires room { length self.old.items < vec_capacity self.old }
        ensures item { self.new.items ≡ self.old.items ++ item ∷ [] }
        ensures capacity { vec_capacity self.new ≡ vec_capacity self.old }
    {
        self.items.push_reserved(item);
    }
}
