//! What is wrong with a line after the lines of a draft: the checks in their order.
ghost use Rattle.std.specs.Prelude.{◌≡◌, List, [], IfNone, false};
ghost use Rattle.sv_workload.specs.Line.{Line};
ghost use Rattle.sv_workload.specs.Checks.{lacks_keyword, is_misplaced, has_bad_number};
ghost use Rattle.sv_workload.specs.Checks.{is_unaligned, is_repeated, is_too_many, has_no_writer};
ghost use Rattle.sv_workload.specs.Checks.{has_no_room, fault_of};
ghost use Rattle.sv_workload.specs.Draft.{Stands};
ghost use Rattle.sv_workload.specs.Checking.{is_no_keyword, first_failed, form_checks};
ghost use Rattle.sv_workload.specs.Checking.{later_checks};

use crate::draft::Draft;
use crate::fault::LineFault;
use crate::keyword::Keyword;
use crate::line_text::has_bad_text;
use crate::read_line::ReadLine;

/// Whether a keyword stands for every word that is none.
#[inline(always)]
fn is_no_keyword(keyword: Keyword) -> bool
    ensures { result ≡ is_no_keyword keyword }
{
    match keyword {
        Keyword::Unknown => true,
        _ => false,
    }
}

/// Whether no keyword stands where it should.
#[inline(always)]
fn lacks_keyword(line: &ReadLine<'_>) -> bool
    ensures { (lines : List Line) → result ≡ lacks_keyword lines line.now }
{
    is_no_keyword(line.keyword())
}

impl Draft {
    /// Whether a line stands in another part of the text than its own.
    #[inline(always)]
    pub fn is_misplaced(&self, line: &ReadLine<'_>) -> bool
        ensures { (lines : List Line) → Stands self.now lines
            → result ≡ is_misplaced lines line.now }
    {
        !self.has_place(line.keyword())
    }

    /// Whether a line's like stands before it as often as it may.
    #[inline(always)]
    pub fn is_too_many(&self, line: &ReadLine<'_>) -> bool
        ensures { (lines : List Line) → Stands self.now lines
            → result ≡ is_too_many lines line.now }
    {
        self.has_all(line.keyword())
    }

    /// Whether a line's identifier has low bits that the target would not send. Its numbers are of
    /// their ranges.
    #[inline(always)]
    pub fn is_unaligned(&self, line: &ReadLine<'_>) -> bool
        requires { has_bad_number [] line.now ≡ false }
        ensures { (lines : List Line) → Stands self.now lines
            → result ≡ is_unaligned lines line.now }
    {
        self.loses_bits(line.has_identifier(), line.first_number())
    }

    /// Whether a line's setting was told before, or a task with its identifier was. Its numbers are
    /// of their ranges.
    #[inline(always)]
    pub fn is_repeated(&self, line: &ReadLine<'_>) -> bool
        requires { has_bad_number [] line.now ≡ false }
        ensures { (lines : List Line) → Stands self.now lines
            → result ≡ is_repeated lines line.now }
    {
        self.repeats(line.keyword(), line.first_number())
    }

    /// Whether a line's turn goes to a writer that there isn't.
    #[inline(always)]
    pub fn has_no_writer(&self, line: &ReadLine<'_>) -> bool
        ensures { (lines : List Line) → Stands self.now lines
            → result ≡ has_no_writer lines line.now }
    {
        self.lacks_writer(line.keyword(), line.first_number())
    }

    /// Whether a line's module finds no identifiers for its events.
    #[inline(always)]
    pub fn has_no_room(&self, line: &ReadLine<'_>) -> bool
        ensures { (lines : List Line) → Stands self.now lines
            → result ≡ has_no_room lines line.now }
    {
        self.lacks_room(line.keyword(), line.first_number())
    }

    /// What is wrong with where a line stands, or with its words.
    #[inline(always)]
    fn form_fault(&self, line: &ReadLine<'_>) -> Option<LineFault>
        ensures first { (lines : List Line) → Stands self.now lines
            → result ≡ first_failed form_checks lines line.now }
        ensures good { IfNone result (has_bad_number [] line.now ≡ false) }
    {
        if lacks_keyword(line) {
            return Some(LineFault::UnknownWord);
        }
        if self.is_misplaced(line) {
            return Some(LineFault::Misplaced);
        }
        if line.is_misshapen() {
            return Some(LineFault::Shape);
        }
        if line.has_bad_number() {
            return Some(LineFault::Number);
        }
        if has_bad_text(line) {
            return Some(LineFault::BadText);
        }
        None
    }

    /// What is wrong with what a line says after the lines before it.
    #[inline(always)]
    fn later_fault(&self, line: &ReadLine<'_>) -> Option<LineFault>
        requires good { has_bad_number [] line.now ≡ false }
        ensures { (lines : List Line) → Stands self.now lines
            → result ≡ first_failed later_checks lines line.now }
    {
        if self.is_unaligned(line) {
            return Some(LineFault::Unaligned);
        }
        if self.is_repeated(line) {
            return Some(LineFault::Repeated);
        }
        if self.is_too_many(line) {
            return Some(LineFault::TooMany);
        }
        if self.has_no_writer(line) {
            return Some(LineFault::NoSuchWriter);
        }
        if self.has_no_room(line) {
            return Some(LineFault::ModuleFull);
        }
        None
    }

    /// What is wrong with a line after the lines of the draft, if anything is.
    #[inline(always)]
    pub fn fault(&self, line: &ReadLine<'_>) -> Option<LineFault>
        ensures { (lines : List Line) → Stands self.now lines → result ≡ fault_of lines line.now }
    {
        match self.form_fault(line) {
            Some(fault) => Some(fault),
            None => self.later_fault(line),
        }
    }
}
