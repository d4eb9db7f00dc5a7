ghost use Rattle.std.specs.Prelude.{◌≡◌};

use std::marker::Model;

/// Bytes that went through an end of a ring, from first to last.
#[derive(Debug, Drop)]
pub struct Log {
    pub(crate) items: Vec<u8>,
}

impl Model for Log {
    ghost use Rattle.std.specs.Prelude.{List, ℕ};

    ghost Value = { List ℕ };

    ghost view = { λ l. l.items.items };
}

impl Log {
    /// The bytes, in order.
    pub fn bytes(&self) -> &[u8]
        ensures { result.now ≡ self.now }
    {
        &self.items
    }
}

/// What went through the two rings of a dock, from when they were made until they were settled.
#[derive(Debug, Drop)]
pub struct Story {
    /// The size of the up ring, in bytes.
    pub size: u32,
    /// What was stored in the up ring.
    pub sent: Log,
    /// What was taken from it, the bytes that were left as it was settled included.
    pub taken: Log,
    /// What was sent through the down ring.
    pub asked: Log,
    /// What was taken from it.
    pub answered: Log,
}
