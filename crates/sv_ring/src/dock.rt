ghost use Rattle.std.specs.Prelude.{◌≡◌, ℕ, ◌^◌, ◌≤◌, List, [], Option, ◌++◌, IfOk, IfSome, OnErr};
ghost use Rattle.sv_ring.specs.Down.{IsFront};
ghost use Rattle.sv_ring.specs.Docks.{GainsStory};
ghost use Rattle.sv_ring.specs.declared.story.Story.{Story};

use crate::down_reader::DownReader;
use crate::down_writer::DownWriter;
use crate::up_reader::UpReader;
use crate::up_writer::UpWriter;
use std::alloc::Global;
use sv_prim::NoMemory;

/// The four ends of an up ring and a down ring. Each may go its own way, as to another thread.
#[derive(Drop)]
pub struct Ends<U, H, W, T> {
    /// The target stores its packets by it.
    pub up: U,
    /// The host takes them from it.
    pub host: H,
    /// The host sends its commands by it.
    pub down: W,
    /// The target takes them from it.
    pub target: T,
}

/// Makes rings, and takes their ends back.
pub trait Dock {
    type Up: UpWriter + Send + Drop;

    type Host: UpReader + Drop;

    type Down: DownWriter + Drop;

    type Target: DownReader + Send + Drop;

    /// What went through the rings that were settled, a story for each pair of them, in order,
    /// where this dock tells that.
    ghost stories: { Self → Option (List Story) };

    /// Makes an up ring of `size` bytes, 64 to 65,536, for at most `limit` bytes in all, up to
    /// 2^33, and a down ring. Both are empty.
    ///
    /// All memory that the ends need is taken here. Answers [`NoMemory`] where there is not so
    /// much.
    fn make(
        &mut self,
        alloc: Global,
        size: u32,
        limit: u64,
    ) -> Result<Ends<Self::Up, Self::Host, Self::Down, Self::Target>, NoMemory>
        requires size { (64 ≤ size) × (size ≤ 65536) }
        requires limit { limit ≤ 2 ^ 33 }

        // The ends of one ring have its name.
        ensures up_ring { IfOk result (λ e. Self.Up.ring e.up ≡ Self.Host.ring e.host) }
        ensures down_ring { IfOk result (λ e. Self.Down.ring e.down ≡ Self.Target.ring e.target) }
        ensures size { IfOk result (λ e. Self.Up.size e.up ≡ size) }
        ensures limit { IfOk result
            (λ e. (Self.Up.limit e.up ≡ limit) × (Self.Host.limit e.host ≡ limit)) }

        // Nothing went through any of them, and none has looked at another.
        ensures sent { IfOk result (λ e. (Self.Up.sent e.up ≡ []) × (Self.Up.freed e.up ≡ 0)) }
        ensures taken { IfOk result (λ e. Self.Host.taken e.host ≡ []) }
        ensures asked { IfOk result (λ e. Self.Down.asked e.down ≡ []) }
        ensures answered { IfOk result (λ e.
            (Self.Target.answered e.target ≡ []) × (Self.Target.empties e.target ≡ 0)) }
        ensures up_looks { IfOk result (λ e. IfSome (Self.Up.looks e.up) (λ looks. looks ≡ 0)) }
        ensures host_knows { IfOk result (λ e.
            IfSome (Self.Host.seen e.host) (λ seen. seen ≡ 0)
            × IfSome (Self.Host.looks e.host) (λ looks. looks ≡ 0)) }
        ensures target_knows { IfOk result (λ e.
            IfSome (Self.Target.asked e.target) (λ asked. asked ≡ [])
            × IfSome (Self.Target.seen e.target) (λ seen. seen ≡ 0)
            × IfSome (Self.Target.looks e.target) (λ looks. looks ≡ 0)) }
        ensures stories { stories self.new ≡ stories self.old };

    /// Takes the ends back, and gives the bytes of the up ring that are not taken, in order.
    ///
    /// Answers [`NoMemory`] where there is not so much memory, and drops the ends then too.
    fn settle(
        &mut self,
        alloc: Global,
        ends: Ends<Self::Up, Self::Host, Self::Down, Self::Target>,
    ) -> Result<Vec<u8>, NoMemory>
        requires up_ring { Self.Up.ring ends.up ≡ Self.Host.ring ends.host }
        requires down_ring { Self.Down.ring ends.down ≡ Self.Target.ring ends.target }
        ensures rest { IfOk result
            (λ rest. Self.Host.taken ends.host ++ rest.items ≡ Self.Up.sent ends.up) }
        ensures front { IfOk result
            (λ rest. IsFront (Self.Target.answered ends.target) (Self.Down.asked ends.down)) }

        // The story counts the rest as taken.
        ensures story { IfOk result (λ rest. GainsStory (stories self.old) (stories self.new)
            (record {
              size = Self.Up.size ends.up;
              sent = Self.Up.sent ends.up;
              taken = Self.Host.taken ends.host ++ rest.items;
              asked = Self.Down.asked ends.down;
              answered = Self.Target.answered ends.target;
            })) }
        ensures kept { OnErr result (stories self.new ≡ stories self.old) };
}
