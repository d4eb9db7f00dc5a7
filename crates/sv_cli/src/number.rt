//! The numbers that words say.
ghost use Rattle.std.specs.Prelude.{◌≡◌, IfSome};
ghost use Rattle.sv_cli.specs.Commands.{IsUpTo, number_in};

use itoa::Buffer;

/// The number that a word says: from 1 to `most`, in decimal with no zero before it.
pub fn number_of(word: &str, most: u32) -> Option<u32>
    ensures number { result ≡ number_in most word.now }
    ensures bound { IfSome result (IsUpTo most) }
{
    let Ok(number) = word.parse::<u32>() else {
        return None;
    };
    if number < 1 {
        return None;
    }
    if most < number {
        return None;
    }
    if Buffer::new().format(number) != word {
        return None;
    }
    Some(number)
}
