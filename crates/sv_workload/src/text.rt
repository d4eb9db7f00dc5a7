//! Texts read as workloads.
ghost use Rattle.std.specs.Prelude.{◌≡◌, ℕ, ◌<◌, ◌^◌, length, IfOk, Err, Some};
ghost use Rattle.sv_workload.specs.declared.fault.WorkFault.{WorkFault};
ghost use Rattle.sv_workload.specs.Grammar.{first_reason, IsWorkload};

use crate::draft::Draft;
use crate::fault::WorkFault;
use std::alloc::Global;
use sv_load::Workload;
use sv_text::first_line;

/// Reads a text as a workload. `Line` names the first line with a fault, counted from 1, and the
/// reason: the first check that it fails. `NoMemory` says only that there was too little of it.
///
/// The text is read once, line by line, and memory is taken for what is kept of it alone: each
/// step, task, command and turn, and a name, a printed text or a call's numbers in a piece of their
/// own.
pub fn parse(alloc: Global, text: &[u8]) -> Result<Workload, WorkFault>
    requires { length text.now < 2 ^ 32 }
    ensures ok { IfOk result (λ load. IsWorkload text.now load) }
    ensures line { (line reason : ℕ) → result ≡ Err (WorkFault.Line line reason)
        → first_reason text.now ≡ Some (line, reason) }
{
    let mut draft = Draft::new(alloc);
    let mut rest = text;
    let mut number = 0u32;
    while !rest.is_empty() {
        let (line, behind) = first_line(rest);
        number += 1;
        if let Some(fault) = draft.take(alloc, line)? {
            return Err(WorkFault::Line {
                line: number,
                reason: fault.reason(),
            });
        }
        rest = behind;
    }
    Ok(draft.into_workload())
}
