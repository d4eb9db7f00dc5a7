//! A view takes the entries of a recording one after another.
ghost use Rattle.std.specs.Prelude.{◌≡◌, List};
ghost use Rattle.sv_view.specs.Answer.{or_end};
ghost use Rattle.sv_view.specs.Scan.{HasShown};
ghost use Rattle.sv_view.specs.Text.{lines_of};

use crate::view::View;
use sv_feed::Gather;
use sv_packet::EventRef;
use sv_prim::NoMemory;
use sv_stream::{End, Mark};

/// Gathers the lines that a view makes of entries, and keeps the first damage.
#[derive(Drop)]
pub struct Showing<V: View + Drop> {
    pub view: V,
    pub first: Option<End>,
}

/// The first damage, or else this end.
pub fn told(first: Option<End>, end: End) -> End
    ensures { result ≡ or_end first end }
{
    match first {
        Some(damage) => damage,
        None => end,
    }
}

impl<V: View + Drop> Gather<u8> for Showing<V> {
    ghost made = { lines_of V.text };

    ghost taken = { HasShown V.shown };

    ghost failed = { λ showing before after. Unit {0} };

    #[inline(always)]
    fn event(
        &mut self,
        time: u64,
        event: &EventRef<'_>,
        lines: &mut Vec<u8>,
    ) -> Result<(), NoMemory> {
        self.view.event(time, event, lines)
    }

    fn mark(&mut self, mark: &Mark, lines: &mut Vec<u8>) -> Result<(), NoMemory> {
        self.view.mark(mark, lines)?;
        let damage = End::Damaged {
            place: mark.place,
            reason: mark.reason,
        };
        self.first = Some(told(self.first, damage));
        Ok(())
    }
}
