//! Labels of contexts, appended to a buffer.
ghost use Rattle.std.specs.Prelude.{◌≡◌, ◌++◌, OnOk, codes};
ghost use Rattle.sv_report.specs.Spans.{label_of};

use crate::head::LINE;
use crate::spans::label_before;
use std::alloc::AllocError;
use sv_context::Context;

/// Appends a space and the words that name the context.
pub fn put_label(context: Context, out: &mut Vec<u8>) -> Result<(), AllocError>
    ensures { OnOk result (out.new.items ≡ out.old.items ++ (codes " " ++ label_of context)) }
{
    let mut line = [0; LINE];
    let start = label_before(context, &mut line, LINE);
    out.extend_from_slice(&line[start..])
}
