//! Lines of commands, whose parameter goes with the byte.
ghost use Rattle.std.specs.Prelude.{◌≡◌, ◌==◌, ◌&&◌, length, if◌then◌else◌};
ghost use Rattle.std.specs.List.{list_all};
ghost use Rattle.sv_workload.specs.Checks.{is_word, fits_command};
ghost use Rattle.sv_workload.specs.Checking.{is_command_word};

use crate::keyword::{Keyword, SetupWord};
use sv_text::{Words, capped_number};

/// The bytes from here on have a parameter.
const FIRST_WITH_PARAM: u64 = 128;

/// Whether the keyword is that of a command.
#[inline(always)]
pub fn is_command_word(keyword: Keyword) -> bool
    ensures { result ≡ is_command_word keyword }
{
    match keyword {
        Keyword::Setup(SetupWord::Command) => true,
        _ => false,
    }
}

/// Whether no word is left for a plain byte, and else one that is not empty.
fn fits_param(mut words: Words<'_>, plain: bool) -> bool
    ensures { result ≡ (list_all is_word words.entry
        && (length words.entry == (if plain then 0 else 1))) }
{
    match words.next_word() {
        Some(param) => !plain && !param.is_empty() && words.next_word().is_none(),
        None => plain,
    }
}

/// Whether the words of a command are as many as its byte wants. A byte that is no number is left
/// to the next check.
pub fn fits_command(words: &Words<'_>) -> bool
    ensures { result ≡ fits_command words.now }
{
    let mut words = words.again();
    let Some(byte) = words.next_word() else {
        return false;
    };
    match capped_number(byte) {
        Some(n) => fits_param(words, n < FIRST_WITH_PARAM),
        None => true,
    }
}
