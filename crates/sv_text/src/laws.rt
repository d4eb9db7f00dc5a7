//! What is written is read back.
ghost use Rattle.std.specs.Prelude.{◌≡◌, ℕ, ◌<◌, ◌^◌, List, Some, All};
ghost use Rattle.std.specs.Fmt.{decimal};
ghost use Rattle.sv_text.specs.Lines.{lines_of, text_from, IsOneLine};
ghost use Rattle.sv_text.specs.Words.{number_of};

/// The law of lines: a text that was made of lines has these lines, where no line feed stands in
/// one of them.
pub fn lines_are_read_back()
    ensures { (lines : List (List ℕ)) → All IsOneLine lines → lines_of (text_from lines) ≡ lines }
{}

/// The law of numbers: a number in decimal is read as that number.
pub fn numbers_are_read_back()
    ensures { (n : ℕ) → n < 2 ^ 64 → number_of (decimal n) ≡ Some n }
{}
