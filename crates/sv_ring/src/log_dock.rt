ghost use Rattle.std.specs.Prelude.{◌≡◌, ◌+◌, ◌-◌, ◌≤◌, ◌↔◌, [], ◌++◌, Some, None};
ghost use Rattle.std.specs.Prelude.{IsNone, IfSome, IfOk, OnErr, length, slice_get, vec_capacity};
ghost use Rattle.sv_ring.specs.Down.{IsFront};
ghost use Rattle.sv_ring.specs.Docks.{GainsStory};

use crate::dock::{Dock, Ends};
use crate::log_ends::{LogDown, LogHost, LogTarget, LogUp};
use crate::story::{Log, Story};
use crate::up_writer::UpWriter;
use std::alloc::Global;
use std::marker::Model;
use sv_prim::NoMemory;

/// A dock over another whose ends keep the bytes that go through them, for those who want to look
/// at them afterwards. Contracts see it as its stories.
///
/// [`Dock::make`] takes the memory for the bytes: twice the limit, and 1,024 bytes.
#[derive(Drop)]
pub struct LogDock<D: Dock + Drop> {
    inner: D,
    stories: Vec<Story>,
}

impl<D: Dock + Drop> Model for LogDock<D> {
    ghost use Rattle.std.specs.Prelude.{List};
    ghost use Rattle.sv_ring.specs.declared.story.Story.{Story};

    ghost Value = { List Story };

    ghost view = { λ d. d.stories.items };
}

impl<D: Dock + Drop> LogDock<D> {
    /// A dock with no story. Takes no memory.
    pub fn new(alloc: Global, inner: D) -> LogDock<D>
        ensures { result ≡ [] }
    {
        LogDock {
            inner,
            stories: Vec::new(alloc),
        }
    }

    /// The stories of the rings that were settled, in order.
    pub fn stories(&self) -> &[Story]
        ensures { result.now ≡ self.now }
    {
        &self.stories
    }

    /// The story of the rings that were settled last. None exactly where none were settled.
    pub fn story(&self) -> Option<&Story>
        ensures none { IsNone result ↔ (self.now ≡ []) }
        ensures last { IfSome result
            (λ story. slice_get self.now (length self.now - 1) ≡ Some story.now) }
    {
        self.stories.last()
    }
}

/// An empty list with memory for so many bytes.
fn log_for(alloc: Global, count: u64) -> Result<Vec<u8>, NoMemory>
    ensures empty { IfOk result (λ log. log.items ≡ []) }
    ensures room { IfOk result (λ log. vec_capacity log ≡ count) }
{
    let Ok(count) = usize::try_from(count) else {
        return Err(NoMemory);
    };
    match Vec::with_capacity(alloc, count) {
        Ok(log) => Ok(log),
        Err(_) => Err(NoMemory),
    }
}

impl<D: Dock + Drop> Dock for LogDock<D> {
    type Up = LogUp<D::Up>;

    type Host = LogHost<D::Host>;

    type Down = LogDown<D::Down>;

    type Target = LogTarget<D::Target>;

    ghost stories = { λ d. Some d };

    fn make(
        &mut self,
        alloc: Global,
        size: u32,
        limit: u64,
    ) -> Result<
        Ends<LogUp<D::Up>, LogHost<D::Host>, LogDown<D::Down>, LogTarget<D::Target>>,
        NoMemory,
    > {
        let sent = log_for(alloc, limit)?;
        let taken = log_for(alloc, limit)?;
        let asked = log_for(alloc, 512)?;
        let answered = log_for(alloc, 512)?;
        let ends = self.inner.make(alloc, size, limit)?;
        Ok(Ends {
            up: LogUp {
                inner: ends.up,
                bytes: sent,
            },
            host: LogHost {
                inner: ends.host,
                bytes: taken,
            },
            down: LogDown {
                inner: ends.down,
                bytes: asked,
            },
            target: LogTarget {
                inner: ends.target,
                bytes: answered,
            },
        })
    }

    /// Takes the memory for the story first, and settles the ends of the dock in it.
    fn settle(
        &mut self,
        alloc: Global,
        ends: Ends<LogUp<D::Up>, LogHost<D::Host>, LogDown<D::Down>, LogTarget<D::Target>>,
    ) -> Result<Vec<u8>, NoMemory>
        requires up_ring { D.Up.ring ends.up ≡ D.Host.ring ends.host }
        requires down_ring { D.Down.ring ends.down ≡ D.Target.ring ends.target }
        ensures rest { IfOk result
            (λ rest. D.Host.taken ends.host ++ rest.items ≡ D.Up.sent ends.up) }
        ensures front { IfOk result
            (λ rest. IsFront (D.Target.answered ends.target) (D.Down.asked ends.down)) }
        ensures story { IfOk result (λ rest. GainsStory (Some self.old) (Some self.new)
            (record {
              size = D.Up.size ends.up;
              sent = D.Up.sent ends.up;
              taken = D.Host.taken ends.host ++ rest.items;
              asked = D.Down.asked ends.down;
              answered = D.Target.answered ends.target;
            })) }
        ensures kept { OnErr result (Some self.new ≡ Some self.old) }
    {
        let Ends {
            up: LogUp {
                inner: up,
                bytes: sent,
            },
            host: LogHost {
                inner: host,
                bytes: mut taken,
            },
            down: LogDown {
                inner: down,
                bytes: asked,
            },
            target: LogTarget {
                inner: target,
                bytes: answered,
            },
        } = ends;
        let size = up.size();
        let Ok(()) = self.stories.reserve(1) else {
            return Err(NoMemory);
        };
        let rest = self.inner.settle(
            alloc,
            Ends {
                up,
                host,
                down,
                target,
            },
        )?;
        let Ok(()) = taken.extend_from_slice(&rest) else {
            return Err(NoMemory);
        };
        self.stories.push_reserved(Story {
            size,
            sent: Log { items: sent },
            taken: Log { items: taken },
            asked: Log { items: asked },
            answered: Log { items: answered },
        });
        Ok(rest)
    }
}
