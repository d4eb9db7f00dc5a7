ghost use Rattle.std.specs.Prelude.{◌≡◌, ℕ, List, IfOk};
ghost use Rattle.sv_prim.specs.Number.{AreWords};

use crate::memory::NoMemory;
use std::alloc::Global;
use std::marker::Model;

/// A list of numbers that owns its memory: the arguments of a print.
#[derive(Debug, Drop)]
pub struct Numbers {
    items: Vec<u32>,
}

impl Model for Numbers {
    ghost use Rattle.std.specs.Prelude.{List, ℕ};
    ghost use Rattle.sv_prim.specs.Number.{AreWords};

    ghost Value = { List ℕ };

    ghost view = { λ n. n.items.items };

    ghost invariant = { λ n. AreWords n.items.items };
}

impl PartialEq for Numbers {
    ghost use Rattle.std.specs.Prelude.{nat_eq};
    ghost use Rattle.std.specs.Cmp.{partial_equiv_from_equiv};
    ghost use Rattle.std.specs.Cmp.Lexicographic.{pointwise, nat_list_eq_equiv};

    ghost eq = { pointwise nat_eq };

    fn eq(&self, other: &Numbers) -> bool {
        self.numbers() == other.numbers()
    }

    ghost laws = { partial_equiv_from_equiv nat_list_eq_equiv };
}

impl Eq for Numbers {
    ghost use Rattle.std.specs.Cmp.Lexicographic.{nat_list_eq_equiv};

    ghost laws = { nat_list_eq_equiv };
}

impl From<Vec<u32>> for Numbers {
    ghost use Rattle.std.specs.Prelude.{◌≡◌};

    /// The same numbers, in the same memory.
    fn from(items: Vec<u32>) -> Numbers
        ensures { result ≡ items.items }
    {
        Numbers { items }
    }
}

impl Numbers {
    /// A copy of the numbers.
    pub fn new(alloc: Global, numbers: &[u32]) -> Result<Numbers, NoMemory>
        ensures { IfOk result (λ n. n ≡ numbers.now) }
    {
        match numbers.to_vec(alloc) {
            Ok(items) => Ok(Numbers { items }),
            Err(_) => Err(NoMemory),
        }
    }

    /// The numbers, in order.
    pub fn numbers(&self) -> &[u32]
        ensures items { result.now ≡ self.now }
        ensures range { AreWords result.now }
    {
        self.items.as_slice()
    }
}
