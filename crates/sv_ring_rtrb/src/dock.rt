//! The dock of these rings.
ghost use Rattle.std.specs.Prelude.{◌≡◌, ℕ, ◌+◌, ◌-◌, ◌^◌, ◌<◌, ◌≤◌, [], ◌++◌, None, IfOk, OnErr};
ghost use Rattle.std.specs.Prelude.{length};
ghost use Rattle.rtrb.specs.Ring.{sent, received, known_items, known_free, IsPair};
ghost use Rattle.sv_ring.specs.Down.{IsFront};
ghost use Rattle.sv_ring.specs.Docks.{GainsStory};
ghost use Rattle.sv_ring_rtrb.specs.Ends.{untold};

use crate::down::{RtrbDown, RtrbTarget};
use crate::host::RtrbHost;
use crate::up::RtrbUp;
use rtrb::{Consumer, Producer, RingBuffer};
use std::alloc::Global;
use sv_prim::NoMemory;
use sv_ring::{Dock, Ends};

/// Makes an up ring and a down ring, each a queue of bytes between two threads.
#[derive(Drop)]
pub struct RtrbDock;

impl RtrbDock {
    pub fn new() -> RtrbDock {
        RtrbDock
    }
}

/// An empty queue with so many slots.
fn queue(
    alloc: Global,
    slots: usize,
) -> Result<(Producer<u8, Global>, Consumer<u8, Global>), NoMemory>
    ensures pair { IfOk result (λ q. IsPair q.0 q.1) }
    ensures producer { IfOk result (λ q. (sent q.0 ≡ []) × (known_free q.0 ≡ slots)) }
    ensures consumer { IfOk result (λ q. (received q.1 ≡ []) × (known_items q.1 ≡ [])) }
{
    match RingBuffer::new(alloc, slots) {
        Ok(ends) => Ok(ends),
        Err(_) => Err(NoMemory),
    }
}

/// Takes the bytes that are left in a queue, of which both ends are in this thread.
#[tactic(auto, using(crate::proofs::Fronts::all_of))]
fn rest_of(
    alloc: Global,
    producer: Producer<u8, Global>,
    consumer: Consumer<u8, Global>,
) -> Result<Vec<u8>, NoMemory>
    requires pair { IsPair producer consumer }
    ensures { IfOk result (λ rest. received consumer ++ rest.items ≡ sent producer) }
{
    let mut producer = producer;
    let mut consumer = consumer;
    let left = consumer.slots_beside(&mut producer);
    let Ok(mut rest) = Vec::with_capacity(alloc, left) else {
        return Err(NoMemory);
    };
    for _place in 0..left {
        rest.push_reserved(consumer.pop_known());
    }
    Ok(rest)
}

/// What was popped from a queue is the front of what was pushed.
#[tactic(auto, using(crate::proofs::Fronts::front_of))]
fn compare(producer: Producer<u8, Global>, consumer: Consumer<u8, Global>)
    requires pair { IsPair producer consumer }
    ensures { IsFront (received consumer) (sent producer) }
{
    let mut producer = producer;
    let mut consumer = consumer;
    consumer.slots_beside(&mut producer);
}

impl Dock for RtrbDock {
    type Up = RtrbUp;

    type Host = RtrbHost;

    type Down = RtrbDown;

    type Target = RtrbTarget;

    ghost stories = { λ d. untold };

    fn make(
        &mut self,
        alloc: Global,
        size: u32,
        limit: u64,
    ) -> Result<Ends<RtrbUp, RtrbHost, RtrbDown, RtrbTarget>, NoMemory> {
        let (up, host) = queue(alloc, (size - 1) as usize)?;
        let (down, target) = queue(alloc, 512)?;
        Ok(Ends {
            up: RtrbUp {
                producer: up,
                size,
                limit,
                stored: 0,
                freed: 0,
            },
            host: RtrbHost {
                consumer: host,
                limit,
                count: 0,
            },
            down: RtrbDown { producer: down },
            target: RtrbTarget {
                consumer: target,
                count: 0,
                empties: 0,
            },
        })
    }

    fn settle(
        &mut self,
        alloc: Global,
        ends: Ends<RtrbUp, RtrbHost, RtrbDown, RtrbTarget>,
    ) -> Result<Vec<u8>, NoMemory>
        requires up_ring { ends.up.name ≡ ends.host.name }
        requires down_ring { ends.down.name ≡ ends.target.name }
        ensures rest { IfOk result (λ rest. ends.host.taken ++ rest.items ≡ ends.up.sent) }
        ensures front { IfOk result (λ rest. IsFront ends.target.answered ends.down.asked) }
        ensures story { IfOk result (λ rest. GainsStory untold untold
            (record {
              size = ends.up.size;
              sent = ends.up.sent;
              taken = ends.host.taken ++ rest.items;
              asked = ends.down.asked;
              answered = ends.target.answered;
            })) }
        ensures kept { OnErr result (untold ≡ untold) }
    {
        let Ends {
            up: RtrbUp {
                producer: up,
                size: _,
                limit: _,
                stored: _,
                freed: _,
            },
            host: RtrbHost {
                consumer: host,
                limit: _,
                count: _,
            },
            down: RtrbDown { producer: down },
            target: RtrbTarget {
                consumer: target,
                count: _,
                empties: _,
            },
        } = ends;
        compare(down, target);
        rest_of(alloc, up, host)
    }
}
