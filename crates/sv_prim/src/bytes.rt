ghost use Rattle.std.specs.Prelude.{◌≡◌, ℕ, List, IfOk};
ghost use Rattle.sv_prim.specs.Text.{AreBytes};

use crate::memory::NoMemory;
use std::alloc::Global;
use std::marker::Model;

/// A list of bytes that owns its memory: a text, or a payload.
#[derive(Debug, Drop)]
pub struct Bytes {
    items: Vec<u8>,
}

impl Model for Bytes {
    ghost use Rattle.std.specs.Prelude.{List, ℕ};
    ghost use Rattle.sv_prim.specs.Text.{AreBytes};

    ghost Value = { List ℕ };

    ghost view = { λ b. b.items.items };

    ghost invariant = { λ b. AreBytes b.items.items };
}

impl PartialEq for Bytes {
    ghost use Rattle.std.specs.Prelude.{nat_eq};
    ghost use Rattle.std.specs.Cmp.{partial_equiv_from_equiv};
    ghost use Rattle.std.specs.Cmp.Lexicographic.{pointwise, nat_list_eq_equiv};

    ghost eq = { pointwise nat_eq };

    fn eq(&self, other: &Bytes) -> bool {
        self.bytes() == other.bytes()
    }

    ghost laws = { partial_equiv_from_equiv nat_list_eq_equiv };
}

impl Eq for Bytes {
    ghost use Rattle.std.specs.Cmp.Lexicographic.{nat_list_eq_equiv};

    ghost laws = { nat_list_eq_equiv };
}

impl Bytes {
    /// A copy of the bytes.
    pub fn new(alloc: Global, bytes: &[u8]) -> Result<Bytes, NoMemory>
        ensures { IfOk result (λ b. b ≡ bytes.now) }
    {
        match bytes.to_vec(alloc) {
            Ok(items) => Ok(Bytes { items }),
            Err(_) => Err(NoMemory),
        }
    }

    /// The bytes, in order.
    pub fn bytes(&self) -> &[u8]
        ensures items { result.now ≡ self.now }
        ensures range { AreBytes result.now }
    {
        self.items.as_slice()
    }
}
