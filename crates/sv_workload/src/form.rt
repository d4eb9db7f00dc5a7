//! What stands after each keyword.
ghost use Rattle.std.specs.Prelude.{◌≡◌};
ghost use Rattle.sv_workload.specs.Forms.{bare, of_numbers, form_of};

use crate::keyword::{ActWord, Keyword, SetupWord, TurnWord};
use crate::range::Range;
use std::marker::Model;
use sv_load::MOST_STEPS;

/// What stands after a keyword.
#[derive(Drop)]
pub struct Form {
    pub numbers: &'static [Range],
    pub more: &'static [Range],
    pub text: Option<usize>,
    pub identifier: bool,
}

impl Model for Form {
    ghost use Rattle.sv_workload.specs.Forms.{Form};

    ghost Value = { Form };

    ghost view = { λ f. record {
      numbers = f.numbers.now;
      more = f.more.now;
      text = f.text;
      identifier = f.identifier;
    } };
}

const WORD: Range = Range {
    least: 0,
    most: Some(u32::MAX),
};

const ANY: Range = Range {
    least: 0,
    most: None,
};

#[inline(always)]
fn bare() -> Form
    ensures { result ≡ bare }
{
    Form {
        numbers: &[],
        more: &[],
        text: None,
        identifier: false,
    }
}

#[inline(always)]
fn of_numbers(ranges: &'static [Range]) -> Form
    ensures { result ≡ of_numbers ranges.now }
{
    Form {
        numbers: ranges,
        ..bare()
    }
}

/// What stands after a setup word.
fn setup_form(word: SetupWord) -> Form
    ensures { result ≡ form_of (Keyword.Setup word) }
{
    match word {
        SetupWord::Ring => of_numbers(&[Range {
            least: 64,
            most: Some(65536),
        }]),
        SetupWord::Clock | SetupWord::Cpu => of_numbers(&[Range {
            least: 1,
            most: Some(u32::MAX),
        }]),
        SetupWord::Base => of_numbers(&[WORD]),
        SetupWord::Shift => of_numbers(&[Range {
            least: 0,
            most: Some(31),
        }]),
        SetupWord::Time => bare(),
        SetupWord::Desc => Form {
            text: Some(128),
            ..bare()
        },
        SetupWord::Task => Form {
            numbers: &[WORD, WORD, WORD, WORD, WORD],
            more: &[],
            text: Some(32),
            identifier: true,
        },
        SetupWord::Module => Form {
            text: Some(128),
            ..of_numbers(&[Range {
                least: 0,
                most: Some(16384),
            }])
        },
        SetupWord::Command => Form {
            more: &[Range {
                least: 0,
                most: Some(255),
            }],
            ..of_numbers(&[Range {
                least: 0,
                most: Some(255),
            }])
        },
    }
}

/// What stands after the word of a step.
#[inline(always)]
fn act_form(word: ActWord) -> Form
    ensures { result ≡ form_of (Keyword.Act word) }
{
    match word {
        ActWord::Start
        | ActWord::Stop
        | ActWord::Nop
        | ActWord::IsrExit
        | ActWord::Halt
        | ActWord::Idle
        | ActWord::Sched
        | ActWord::TimerExit => bare(),
        ActWord::Isr | ActWord::Mark | ActWord::MarkEnd => of_numbers(&[WORD]),
        ActWord::Run | ActWord::Ready | ActWord::Create | ActWord::Terminate | ActWord::Timer =>
            Form {
                identifier: true,
                ..of_numbers(&[WORD])
            },
        ActWord::Unready => Form {
            identifier: true,
            ..of_numbers(&[WORD, WORD])
        },
        ActWord::Name => Form {
            numbers: &[WORD],
            more: &[],
            text: Some(128),
            identifier: true,
        },
        ActWord::Print => Form {
            text: Some(128),
            ..bare()
        },
        ActWord::Call => Form {
            more: &[WORD, WORD, WORD, WORD, WORD, WORD, WORD, WORD],
            ..of_numbers(&[Range {
                least: 32,
                most: Some(16383),
            }])
        },
        ActWord::Return => Form {
            more: &[WORD],
            ..of_numbers(&[WORD])
        },
    }
}

/// What stands after a word of the schedule.
fn turn_form(word: TurnWord) -> Form
    ensures { result ≡ form_of (Keyword.Turn word) }
{
    match word {
        TurnWord::Step => Form {
            more: &[Range {
                least: 1,
                most: Some(MOST_STEPS),
            }],
            ..of_numbers(&[ANY])
        },
        TurnWord::Read => of_numbers(&[Range {
            least: 1,
            most: Some(65536),
        }]),
        TurnWord::Send => bare(),
    }
}

/// What stands after a keyword.
#[inline(always)]
pub fn form_of(keyword: Keyword) -> Form
    ensures { result ≡ form_of keyword }
{
    match keyword {
        Keyword::Setup(word) => setup_form(word),
        Keyword::Act(word) => act_form(word),
        Keyword::Turn(word) => turn_form(word),
        Keyword::Writer | Keyword::Schedule | Keyword::Unknown => bare(),
    }
}
