//! Payloads under a length field: the forms of the identifiers 24 to 29, and any other as bytes.
ghost use Rattle.std.specs.Prelude.{◌≡◌, ℕ, ◌≤◌, ◌↔◌, List, length, IsTrue, true, MatchOption};
ghost use Rattle.sv_packet.specs.EventRef.{seen};
ghost use Rattle.sv_packet.specs.Packet.{IsForm};
ghost use Rattle.sv_packet.specs.Parts.{AreNumbers};
ghost use Rattle.sv_packet.specs.Forms.{IsFormOf, IsRegularForm, IsCountedId};
ghost use Rattle.sv_packet.specs.Made.{IsEventOf};

use crate::building::regular_event;
use crate::event_ref::EventRef;
use crate::numbers_ref::NumbersRef;
use crate::reader::{Four, Reader};
use crate::shape::shape_of;

/// A payload that is a form of its identifier, as it stands in the slice.
#[derive(Clone, Copy)]
pub enum Form<'a> {
    /// Numbers, and behind them a text or none (24, 25, 27, 29).
    Regular {
        four: Four,
        text: &'a [u8],
    },
    /// A text, its options, and so many arguments, whose spellings fill the rest (26).
    Print {
        text: &'a [u8],
        options: u32,
        count: u32,
        args: &'a [u8],
    },
    /// One number or two (28).
    EndCall {
        event: u32,
        value: Option<u32>,
    },
}

/// Whether the bytes spell so many numbers, and no more.
fn are_numbers(bytes: &[u8], count: u32) -> bool
    ensures { IsTrue result ↔ ((numbers : List ℕ) × AreNumbers count numbers bytes.now) }
{
    let mut reader = Reader { bytes, at: 0 };
    for _ in 0..count {
        let Ok(_) = reader.number() else {
            return false;
        };
    }
    reader.at == bytes.len()
}

/// Numbers and a text, as the identifier tells, if they are the whole payload.
fn regular(id: u16, payload: &[u8]) -> Option<Form<'_>>
    requires { IsRegularForm id }
    ensures { MatchOption result (IsForm id payload.now → ⊥) (IsFormOf id payload.now) }
{
    let mut reader = Reader {
        bytes: payload,
        at: 0,
    };
    let (count, ends) = shape_of(id);
    let Ok(four) = reader.numbers(count) else {
        return None;
    };
    let Ok(text) = reader.text_if(ends) else {
        return None;
    };
    if payload.len() > reader.at {
        return None;
    }
    Some(Form::Regular { four, text })
}

/// A text, its options and its arguments, if they are the whole payload.
fn print(payload: &[u8]) -> Option<Form<'_>>
    ensures { MatchOption result (IsForm 26 payload.now → ⊥) (IsFormOf 26 payload.now) }
{
    let mut reader = Reader {
        bytes: payload,
        at: 0,
    };
    let Ok(text) = reader.text() else {
        return None;
    };
    let Ok(options) = reader.number() else {
        return None;
    };
    let Ok(count) = reader.number() else {
        return None;
    };
    let args = &payload[reader.at..];
    if !are_numbers(args, count) {
        return None;
    }
    Some(Form::Print {
        text,
        options,
        count,
        args,
    })
}

/// One number or two, if they are the whole payload.
fn end_call(payload: &[u8]) -> Option<Form<'_>>
    ensures { MatchOption result (IsForm 28 payload.now → ⊥) (IsFormOf 28 payload.now) }
{
    let mut reader = Reader {
        bytes: payload,
        at: 0,
    };
    let Ok(event) = reader.number() else {
        return None;
    };
    if reader.at == payload.len() {
        return Some(Form::EndCall { event, value: None });
    }
    let Ok(value) = reader.number() else {
        return None;
    };
    if reader.at < payload.len() {
        return None;
    }
    Some(Form::EndCall {
        event,
        value: Some(value),
    })
}

/// The form of the identifier that the whole payload is, if it is one.
fn find_form(id: u16, payload: &[u8]) -> Option<Form<'_>>
    requires { 24 ≤ id }
    ensures { MatchOption result (IsForm id payload.now → ⊥) (IsFormOf id payload.now) }
{
    match id {
        24 | 25 | 27 | 29 => regular(id, payload),
        26 => print(payload),
        28 => end_call(payload),
        _ => None,
    }
}

/// Whether the payload is a form of the identifier. No byte of it is looked at twice, and no memory
/// is taken.
pub fn is_form(id: u16, payload: &[u8]) -> bool
    requires { 24 ≤ id }
    ensures { IsTrue result ↔ IsForm id payload.now }
{
    find_form(id, payload).is_some()
}

/// Whether no payload of the identifier is a form.
#[inline(always)]
fn has_no_form(id: u16) -> bool
    requires { 24 ≤ id }
    ensures { (payload : List ℕ) → result ≡ true → IsForm id payload → ⊥ }
{
    id > 29
}

/// The event of the payload under a length field: of its form, or else the payload as it stands.
#[inline(always)]
pub fn counted_event(id: u16, payload: &[u8]) -> EventRef<'_>
    requires { IsCountedId id }
    ensures { IsEventOf id payload.now (seen result) }
{
    if has_no_form(id) {
        return EventRef::Opaque { id, payload };
    }
    match find_form(id, payload) {
        None => EventRef::Opaque { id, payload },
        Some(Form::Regular { four, text }) => regular_event(id, four, text),
        Some(Form::EndCall { event, value }) => EventRef::EndCall { event, value },
        Some(
            Form::Print {
                text,
                options,
                count,
                args,
            },
        ) => EventRef::Print {
            text,
            options,
            args: NumbersRef::new(args, count),
        },
    }
}
