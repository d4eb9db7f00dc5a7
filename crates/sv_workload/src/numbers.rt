//! The numbers of a line.
ghost use Rattle.std.specs.Prelude.{◌≡◌, ◌+◌, ◌++◌, ◌∷◌, ◌≤◌, ◌<◌, ◌&&◌, [], take, drop};
ghost use Rattle.std.specs.Prelude.{map, length, slice_index_or};
ghost use Rattle.std.specs.List.{list_all};
ghost use Rattle.sv_workload.specs.Numbers.{counts_as};
ghost use Rattle.sv_workload.specs.Checks.{is_word, is_within, are_within};

use crate::range::{Range, is_in};
use arrayvec::ArrayVec;
use sv_text::{Words, capped_number};

/// The numbers of the words that were taken, in order.
#[derive(Drop)]
pub struct Numbers {
    /// A word that is no number counts as 0, and one above the greatest `u32` as that one.
    pub values: ArrayVec<u32, 9>,
    /// Whether no word was empty.
    pub filled: bool,
    /// Whether each word was a number of its range.
    pub ranged: bool,
}

/// The number that a word counts as, and whether it is one of the range.
#[inline(always)]
fn number_in(range: &Range, word: &[u8]) -> (u32, bool)
    ensures value { result.0 ≡ counts_as word.now }
    ensures within { result.1 ≡ is_within range.now word.now }
{
    match capped_number(word) {
        Some(n) => (n.min(u32::MAX as u64) as u32, is_in(range, n)),
        None => (0, false),
    }
}

impl Numbers {
    /// Takes one more word.
    #[inline(always)]
    fn take(&mut self, range: &Range, word: &[u8])
        requires { length self.old.values.items < 9 }
        ensures values { self.new.values.items
            ≡ self.old.values.items ++ counts_as word.now ∷ [] }
        ensures filled { self.new.filled ≡ (self.old.filled && is_word word.now) }
        ensures ranged { self.new.ranged ≡ (self.old.ranged && is_within range.now word.now) }
    {
        let (value, within) = number_in(range, word);
        self.values.push(value);
        self.filled = self.filled && !word.is_empty();
        self.ranged = self.ranged && within;
    }

    /// Takes a word off the front for each range, as far as there are words.
    #[inline(always)]
    pub fn take_all(&mut self, ranges: &[Range], words: &mut Words<'_>)
        requires { length self.old.values.items + length ranges.now ≤ 9 }
        ensures values { self.new.values.items ≡ self.old.values.items
            ++ map counts_as (take (length ranges.now) words.old) }
        ensures filled { self.new.filled
            ≡ (self.old.filled && list_all is_word (take (length ranges.now) words.old)) }
        ensures ranged { self.new.ranged
            ≡ (self.old.ranged && are_within ranges.now words.old) }
        ensures rest { words.new ≡ drop (length ranges.now) words.old }
    {
        for range in ranges {
            let Some(word) = words.next_word() else {
                return;
            };
            self.take(range, word);
        }
    }

    /// Takes a word off the front for each range, as far as there are words, from no number on.
    #[inline(always)]
    pub fn of(ranges: &[Range], words: &mut Words<'_>) -> Numbers
        requires { length ranges.now ≤ 9 }
        ensures values { result.values.items
            ≡ map counts_as (take (length ranges.now) words.old) }
        ensures filled { result.filled ≡ list_all is_word (take (length ranges.now) words.old) }
        ensures ranged { result.ranged ≡ are_within ranges.now words.old }
        ensures rest { words.new ≡ drop (length ranges.now) words.old }
    {
        let mut numbers = Numbers {
            values: ArrayVec::new(),
            filled: true,
            ranged: true,
        };
        numbers.take_all(ranges, words);
        numbers
    }
}

/// The number at a place, or the default where there is none.
#[inline(always)]
pub fn number_or(numbers: &[u32], place: usize, default: u32) -> u32
    ensures { result ≡ slice_index_or numbers.now place default }
{
    match numbers.get(place) {
        Some(number) => *number,
        None => default,
    }
}
