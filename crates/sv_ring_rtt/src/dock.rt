//! The dock of these rings.
ghost use Rattle.std.specs.Prelude.{◌≡◌, ℕ, ◌+◌, ◌-◌, ◌<◌, ◌≤◌, [], ◌++◌, None, IfOk, OnErr};
ghost use Rattle.std.specs.Prelude.{length};
ghost use Rattle.sv_ring.specs.Down.{IsFront};
ghost use Rattle.sv_ring.specs.Docks.{GainsStory};
ghost use Rattle.sv_ring_rtt.specs.Ends.{untold};

use crate::down::{RttDown, RttTarget};
use crate::host::RttHost;
use crate::up::RttUp;
use crate::whole::{Whole, ends};
use std::alloc::Global;
use sv_prim::NoMemory;
use sv_ring::{Dock, Ends};

/// Makes an up ring and a down ring on tables of shared words.
#[derive(Drop)]
pub struct RttDock;

impl RttDock {
    pub fn new() -> RttDock {
        RttDock
    }
}

impl Dock for RttDock {
    type Up = RttUp;

    type Host = RttHost;

    type Down = RttDown;

    type Target = RttTarget;

    ghost stories = { λ d. untold };

    fn make(
        &mut self,
        alloc: Global,
        size: u32,
        limit: u64,
    ) -> Result<Ends<RttUp, RttHost, RttDown, RttTarget>, NoMemory> {
        let (up, host) = ends(alloc, size, limit)?;
        let (down, target) = ends(alloc, 1024, 512)?;
        Ok(Ends {
            up: RttUp { end: up },
            host: RttHost { end: host },
            down: RttDown { end: down },
            target: RttTarget {
                end: target,
                empties: 0,
            },
        })
    }

    /// Takes the memory for the rest first, and then joins the ends. One load for each byte of the
    /// rest.
    fn settle(
        &mut self,
        alloc: Global,
        ends: Ends<RttUp, RttHost, RttDown, RttTarget>,
    ) -> Result<Vec<u8>, NoMemory>
        requires up_ring { ends.up.name ≡ ends.host.name }
        requires down_ring { ends.down.name ≡ ends.target.name }
        ensures rest { IfOk result
            (λ rest. ends.host.reading.got ++ rest.items ≡ ends.up.writing.sent) }
        ensures front { IfOk result
            (λ rest. IsFront ends.target.reading.got ends.down.writing.sent) }
        ensures story { IfOk result (λ rest. GainsStory untold untold
            (record {
              size = ends.up.writing.size;
              sent = ends.up.writing.sent;
              taken = ends.host.reading.got ++ rest.items;
              asked = ends.down.writing.sent;
              answered = ends.target.reading.got;
            })) }
        ensures kept { OnErr result (untold ≡ untold) }
    {
        let Ends {
            up: RttUp { end: up },
            host: RttHost { end: host },
            down: RttDown { end: down },
            target: RttTarget {
                end: target,
                empties: _,
            },
        } = ends;
        let left = up.stored().saturating_sub(host.taken());
        let Ok(rest) = Vec::with_capacity(alloc, left as usize) else {
            return Err(NoMemory);
        };
        let rest = Whole::of(up, host).take_rest(rest);
        Whole::of(down, target).check();
        Ok(rest)
    }
}
