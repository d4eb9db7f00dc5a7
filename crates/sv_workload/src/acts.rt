//! What a step does, by its keyword, its numbers and its text.
ghost use Rattle.std.specs.Prelude.{◌≡◌, ℕ, ◌≤◌, List, ◌∷◌, IfOk, length, slice_index, []};
ghost use Rattle.sv_prim.specs.Number.{numbers_spelling};
ghost use Rattle.sv_workload.specs.declared.keyword.ActWord.TheVariants.{Call, Name, Print};
ghost use Rattle.sv_workload.specs.declared.keyword.Keyword.TheVariants as keyword;
ghost use Rattle.sv_workload.specs.Forms.{form_of};
ghost use Rattle.sv_workload.specs.Meaning.{act_with, with_shrunk};

use crate::form::form_of;
use crate::keyword::{ActWord, Keyword};
use crate::numbers::number_or;
use std::alloc::Global;
use sv_load::Act;
use sv_packet::Event;
use sv_prim::{Buf, Bytes, NoMemory, Numbers, put_u32, shrink};

/// The first number as the target sends it: an identifier is shrunk.
#[inline(always)]
fn sent(word: ActWord, first: u32, base: u32, shift: u32) -> u32
    requires { shift ≤ 31 }
    ensures { (rest : List ℕ) → result ∷ rest
        ≡ with_shrunk (form_of (keyword.Act word)).identifier base shift (first ∷ rest) }
{
    if form_of(Keyword::Act(word)).identifier {
        shrink(first, base, shift)
    } else {
        first
    }
}

/// The spellings of numbers, one after another.
fn payload(alloc: Global, numbers: &[u32]) -> Result<Bytes, NoMemory>
    requires { length numbers.now ≤ 8 }
    ensures { IfOk result (λ b. b ≡ numbers_spelling numbers.now) }
{
    let mut spelled = Buf::new();
    for number in numbers {
        put_u32(*number, &mut spelled);
    }
    Bytes::new(alloc, spelled.as_slice())
}

/// A step that names a resource.
fn name(alloc: Global, resource: u32, text: &[u8]) -> Result<Act, NoMemory>
    ensures { IfOk result (λ a. a ≡ act_with Name (resource ∷ []) text.now) }
{
    let text = Bytes::new(alloc, text)?;
    Ok(Act::Event(Event::NameResource { resource, text }))
}

/// A step that prints a text.
fn print(alloc: Global, text: &[u8]) -> Result<Act, NoMemory>
    ensures { (numbers : List ℕ) → IfOk result (λ a. a ≡ act_with Print numbers text.now) }
{
    let text = Bytes::new(alloc, text)?;
    Ok(Act::Event(Event::Print {
        text,
        options: 0,
        args: Numbers::from(Vec::new(alloc)),
    }))
}

/// A step that calls a function of a module, with these numbers.
fn call(alloc: Global, event: u32, numbers: &[u32]) -> Result<Act, NoMemory>
    requires event { event ≤ 16383 }
    requires few { length numbers.now ≤ 8 }
    ensures { (text : List ℕ) → IfOk result (λ a. a ≡ act_with Call (event ∷ numbers.now) text) }
{
    let payload = payload(alloc, numbers)?;
    Ok(Act::Event(Event::Opaque {
        id: event as u16,
        payload,
    }))
}

/// What a step does by its first number and the rest of them.
#[inline(always)]
fn act_by(
    alloc: Global,
    word: ActWord,
    first: u32,
    rest: &[u32],
    text: &[u8],
) -> Result<Act, NoMemory>
    requires event { word ≡ Call → first ≤ 16383 }
    requires few { word ≡ Call → length rest.now ≤ 8 }
    ensures { IfOk result (λ a. a ≡ act_with word (first ∷ rest.now) text.now) }
{
    match word {
        ActWord::Start => Ok(Act::Start),
        ActWord::Stop => Ok(Act::Stop),
        ActWord::Nop => Ok(Act::Event(Event::Nop)),
        ActWord::Isr => Ok(Act::Event(Event::IsrEnter { isr: first })),
        ActWord::IsrExit => Ok(Act::Event(Event::IsrExit)),
        ActWord::Run => Ok(Act::Event(Event::TaskStart { task: first })),
        ActWord::Halt => Ok(Act::Event(Event::TaskStop)),
        ActWord::Ready => Ok(Act::Event(Event::TaskReady { task: first })),
        ActWord::Unready => Ok(Act::Event(Event::TaskUnready {
            task: first,
            cause: number_or(rest, 0, 0),
        })),
        ActWord::Create => Ok(Act::Event(Event::TaskCreate { task: first })),
        ActWord::Terminate => Ok(Act::Event(Event::TaskTerminate { task: first })),
        ActWord::Mark => Ok(Act::Event(Event::MarkStart { id: first })),
        ActWord::MarkEnd => Ok(Act::Event(Event::MarkStop { id: first })),
        ActWord::Idle => Ok(Act::Event(Event::Idle)),
        ActWord::Sched => Ok(Act::Event(Event::ToScheduler)),
        ActWord::Timer => Ok(Act::Event(Event::TimerEnter { timer: first })),
        ActWord::TimerExit => Ok(Act::Event(Event::TimerExit)),
        ActWord::Name => name(alloc, first, text),
        ActWord::Print => print(alloc, text),
        ActWord::Call => call(alloc, first, rest),
        ActWord::Return => Ok(Act::Event(Event::EndCall {
            event: first,
            value: rest.first().copied(),
        })),
    }
}

/// What a step does by its keyword, its numbers and its text. Memory is taken once where a text or
/// the numbers of a call are kept, and else not.
#[inline(always)]
pub fn act(
    alloc: Global,
    word: ActWord,
    numbers: &[u32],
    text: &[u8],
    base: u32,
    shift: u32,
) -> Result<Act, NoMemory>
    requires shift { shift ≤ 31 }
    requires event { word ≡ Call → slice_index numbers.now 0 ≤ 16383 }
    requires few { word ≡ Call → length numbers.now ≤ 9 }
    ensures { IfOk result (λ a. a ≡ act_with word
        (with_shrunk (form_of (keyword.Act word)).identifier base shift numbers.now) text.now) }
{
    match numbers {
        [] => act_by(alloc, word, 0, &[], text),
        [first, rest @ ..] => act_by(alloc, word, sent(word, *first, base, shift), rest, text),
    }
}
