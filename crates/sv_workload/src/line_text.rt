//! The text of a line.
ghost use Rattle.std.specs.Prelude.{◌≡◌, List, ◌&&◌, not, nat_le, length, false};
ghost use Rattle.std.specs.List.{list_all};
ghost use Rattle.std.specs.Option.{option_map_or};
ghost use Rattle.sv_workload.specs.Line.{Line};
ghost use Rattle.sv_workload.specs.Checks.{is_printable, has_bad_text};

use crate::read_line::ReadLine;

#[inline(always)]
fn are_printable(text: &[u8]) -> bool
    ensures { result ≡ list_all is_printable text.now }
{
    text.iter().all(|byte| b' ' <= *byte && *byte <= b'~')
}

/// Whether a text is too long, or not all of it can be printed.
#[inline(always)]
fn is_bad_text(text: &[u8], most: usize) -> bool
    ensures { result ≡ not (nat_le (length text.now) most && list_all is_printable text.now) }
{
    text.len() > most || !are_printable(text)
}

/// Whether the text of a line is too long, or not all of it can be printed.
#[inline(always)]
pub fn has_bad_text(line: &ReadLine<'_>) -> bool
    ensures { (before : List Line) → result ≡ has_bad_text before line.now }
{
    match line.most_text() {
        Some(most) => is_bad_text(line.text(), most),
        None => false,
    }
}
