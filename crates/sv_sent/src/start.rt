//! Whether a journal's recorder was ever started.
ghost use Rattle.std.specs.Prelude.{◌≡◌, false};
ghost use Rattle.std.specs.Option.{option_map_or};
ghost use Rattle.sv_load.specs.Load.{act_of};
ghost use Rattle.sv_load.specs.Need.{is_start_act};
ghost use Rattle.sv_journal.specs.Items.{is_start as starts};
ghost use Rattle.sv_sent.specs.Start.{has_start as holds_start};

use sv_journal::{Item, Origin};
use sv_load::{Act, Workload};

/// Whether a writer's step starts the recorder.
fn is_start_step(load: &Workload, writer: u32, step: u32) -> bool
    ensures { result ≡ option_map_or is_start_act (act_of load.now writer step) false }
{
    if writer >= load.writers() {
        return false;
    }
    match load.steps(writer).get(step as usize) {
        Some(step) => matches!(&step.act, Act::Start),
        None => false,
    }
}

/// Whether an item of this origin is a start.
fn is_start(load: &Workload, origin: Origin) -> bool
    ensures { result ≡ starts load.now origin }
{
    match origin {
        Origin::Call { writer, step } => is_start_step(load, writer, step),
        Origin::Command { byte, .. } => byte == 1,
        Origin::Sync => false,
        Origin::Reply { .. } => false,
        Origin::Overflow { .. } => false,
    }
}

/// Whether some item is a start: without one, nothing of a journal is sent.
pub fn has_start(load: &Workload, items: &[Item]) -> bool
    ensures { result ≡ holds_start load.now items.now }
{
    items.iter().any(|item| is_start(load, item.origin))
}
