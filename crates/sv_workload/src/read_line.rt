//! A line that was read.
ghost use Rattle.std.specs.Prelude.{◌≡◌, ◌-◌, ◌^◌, List, map, min, option_and_then, unwrap_or};
ghost use Rattle.sv_workload.specs.Forms.{form_of};
ghost use Rattle.sv_workload.specs.Line.{Line, line_from, numbers_of, text_after};
ghost use Rattle.sv_workload.specs.Meaning.{number};
ghost use Rattle.sv_workload.specs.Numbers.{capped};
ghost use Rattle.sv_text.specs.Words.{number_of};
ghost use Rattle.sv_workload.specs.Checks.{is_misshapen, has_bad_number};

use crate::command_words::{fits_command, is_command_word};
use crate::cut_line::{CutLine, cut_into_words};
use crate::fields::{Fields, fields_of};
use crate::form::{Form, form_of};
use crate::keyword::Keyword;
use crate::numbers::number_or;
use std::marker::Model;

/// A line with the form of its keyword, and all that its words say, each of which was read once.
#[derive(Drop)]
pub struct ReadLine<'a> {
    cut: CutLine<'a>,
    form: Form,
    fields: Fields<'a>,
}

impl<'a> Model for ReadLine<'a> {
    ghost use Rattle.std.specs.Prelude.{◌≡◌};
    ghost use Rattle.sv_workload.specs.Fields.{AreFieldsOf};
    ghost use Rattle.sv_workload.specs.Forms.{form_of};
    ghost use Rattle.sv_workload.specs.Line.{Line};

    ghost Value = { Line };

    ghost view = { λ r. r.cut };

    ghost invariant = { λ r. (r.form ≡ form_of r.cut.keyword) × AreFieldsOf r.cut r.fields };
}

impl<'a> ReadLine<'a> {
    /// Reads a line that is no remark.
    #[inline(always)]
    pub fn of(bytes: &'a [u8]) -> ReadLine<'a>
        ensures { result ≡ line_from bytes.now }
    {
        let cut = cut_into_words(bytes);
        let form = form_of(cut.keyword);
        let fields = fields_of(&cut, &form);
        ReadLine { cut, form, fields }
    }

    #[inline(always)]
    pub fn keyword(&self) -> Keyword
        ensures { result ≡ self.now.keyword }
    {
        self.cut.keyword
    }

    /// The ticks that pass before a step. More than the greatest `u64` count as that many, and a
    /// line without a number for them has 0.
    #[inline(always)]
    pub fn ticks(&self) -> u64
        ensures { result ≡
            min (unwrap_or (option_and_then number_of self.now.advance) 0) (2 ^ 64 - 1) }
    {
        self.fields.ticks
    }

    /// The numbers after the keyword. One above the greatest `u32` counts as that one.
    #[inline(always)]
    pub fn numbers(&self) -> &[u32]
        ensures { result.now ≡ map capped (numbers_of self.now) }
    {
        self.fields.numbers.as_slice()
    }

    /// The first number. One above the greatest `u32` counts as that one, and a line without
    /// numbers has 0.
    #[inline(always)]
    pub fn first_number(&self) -> u32
        ensures { result ≡ capped (number self.now 0) }
    {
        number_or(self.numbers(), 0, 0)
    }

    /// Whether the first number is an identifier of the target.
    #[inline(always)]
    pub fn has_identifier(&self) -> bool
        ensures { result ≡ (form_of self.now.keyword).identifier }
    {
        self.form.identifier
    }

    /// How many bytes the text has at most, if there is one.
    #[inline(always)]
    pub fn most_text(&self) -> Option<usize>
        ensures { result ≡ (form_of self.now.keyword).text }
    {
        self.form.text
    }

    /// The text after the numbers, with all its spaces.
    #[inline(always)]
    pub fn text(&self) -> &'a [u8]
        ensures { result.now ≡ text_after self.now }
    {
        self.fields.text
    }

    /// Whether a word is missing, empty or too many.
    #[inline(always)]
    pub fn is_misshapen(&self) -> bool
        ensures { (before : List Line) → result ≡ is_misshapen before self.now }
    {
        if is_command_word(self.cut.keyword) {
            !fits_command(&self.cut.words)
        } else {
            !self.fields.shaped
        }
    }

    /// Whether the ticks or a word for a number are no number, or one out of its range.
    #[inline(always)]
    pub fn has_bad_number(&self) -> bool
        ensures { (before : List Line) → result ≡ has_bad_number before self.now }
    {
        !self.fields.ranged
    }
}
