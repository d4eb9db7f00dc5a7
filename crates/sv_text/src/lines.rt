//! Lines, cut at the line feeds of a text.
ghost use Rattle.std.specs.Prelude.{◌≡◌, ◌<◌, ◌==◌, length, position};
ghost use Rattle.sv_text.specs.Lines.{IsFirstLine, is_remark};

use memchr::memchr;

/// Where the first line ends, if a line feed ends it.
#[inline(always)]
fn line_end(text: &[u8]) -> Option<usize>
    ensures { result ≡ position (λ b. b == 10) text.now }
{
    memchr(b'\n', text)
}

/// The first line of a text, and what stands after it.
#[inline(always)]
pub fn first_line(text: &[u8]) -> (&[u8], &[u8])
    requires { 0 < length text.now }
    ensures { IsFirstLine text.now result.0.now result.1.now }
{
    match line_end(text) {
        Some(place) => (&text[..place], &text[place + 1..]),
        None => (text, &text[text.len()..]),
    }
}

/// Whether a line is for the reader alone.
#[inline(always)]
pub fn is_remark(line: &[u8]) -> bool
    ensures { result ≡ is_remark line.now }
{
    match line.first() {
        Some(byte) => *byte == b';',
        None => true,
    }
}
