//! What stands after the keyword of a line, and the ticks before it, read in one pass.
ghost use Rattle.std.specs.Prelude.{◌≡◌, ◌-◌, ◌^◌, ◌==◌, ◌&&◌, length, min, option_and_then};
ghost use Rattle.std.specs.Prelude.{option_map, unwrap_or, true};
ghost use Rattle.std.specs.Option.{option_map_or};
ghost use Rattle.sv_workload.specs.Checks.{is_word, is_within};
ghost use Rattle.sv_workload.specs.Fields.{AreFieldsOf};
ghost use Rattle.sv_workload.specs.Forms.{between, form_of};
ghost use Rattle.sv_load.specs.Limits.{most_ticks};
ghost use Rattle.sv_text.specs.Words.{number_of};

use crate::cut_line::CutLine;
use crate::form::Form;
use crate::numbers::Numbers;
use crate::range::Range;
use arrayvec::ArrayVec;
use sv_load::MOST_TICKS;
use sv_text::{Words, capped_number};

/// What is read of a line besides its keyword.
#[derive(Drop)]
pub struct Fields<'a> {
    /// The ticks that pass before a step, 0 where there is no number for them.
    pub ticks: u64,
    /// The numbers after the keyword. A word that is no number counts as 0, and one above the
    /// greatest `u32` as that one.
    pub numbers: ArrayVec<u32, 9>,
    /// All that is after the numbers that the keyword can't be without.
    pub text: &'a [u8],
    /// Whether no word is missing, empty or too many.
    pub shaped: bool,
    /// Whether the ticks and the numbers are of their ranges, as far as there are words.
    pub ranged: bool,
}

/// The ticks that a word says, and whether so many may pass before a step. Without a word they
/// are 0.
#[inline(always)]
fn ticks_of(word: Option<&[u8]>) -> (u64, bool)
    ensures ticks { result.0 ≡ min (unwrap_or
        (option_and_then number_of (option_map (λ word. word.now) word.entry)) 0) (2 ^ 64 - 1) }
    ensures few { result.1 ≡ option_map_or (is_within (between 0 most_ticks))
        (option_map (λ word. word.now) word.entry) true }
{
    let Some(word) = word else {
        return (0, true);
    };
    match capped_number(word) {
        Some(ticks) => (ticks, ticks <= MOST_TICKS),
        None => (0, false),
    }
}

/// Whether no word is left.
#[inline(always)]
fn is_over(mut words: Words<'_>) -> bool
    ensures { result ≡ (length words.entry == 0) }
{
    words.next_word().is_none()
}

/// Whether a word was there for each of these numbers, and none was empty.
#[inline(always)]
fn are_whole(numbers: &Numbers, ranges: &[Range]) -> bool
    ensures { result ≡
        ((length numbers.now.values.items == length ranges.now) && numbers.now.filled) }
{
    numbers.values.len() == ranges.len() && numbers.filled
}

/// Whether the line ends as the form wants it: with this text, or with no word after the numbers.
#[inline(always)]
fn ends_well(form: &Form, text: &[u8], filled: bool, left: Words<'_>) -> bool
    ensures { result ≡ option_map_or (λ most. is_word text.now) form.now.text
        (filled && (length left.entry == 0)) }
{
    match form.text {
        Some(_) => !text.is_empty(),
        None => filled && is_over(left),
    }
}

/// Reads what stands around the keyword of a line, whose form this is.
#[inline(always)]
pub fn fields_of<'a>(line: &CutLine<'a>, form: &Form) -> Fields<'a>
    requires { form.now ≡ form_of line.now.keyword }
    ensures { AreFieldsOf line.now result }
{
    let (ticks, few) = ticks_of(line.advance);
    let mut words = line.words.again();
    let mut numbers = Numbers::of(form.numbers, &mut words);
    let whole = are_whole(&numbers, form.numbers);
    let text = words.text();
    numbers.take_all(form.more, &mut words);
    let ended = ends_well(form, text, numbers.filled, words);
    Fields {
        ticks,
        numbers: numbers.values,
        text,
        shaped: whole & ended,
        ranged: few & numbers.ranged,
    }
}
