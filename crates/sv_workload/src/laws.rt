//! What holds of all texts, and of all generated ones.
ghost use Rattle.std.specs.Prelude.{◌≡◌, ℕ, ◌+◌, ◌<◌, ◌≤◌, List, [], length, take, slice_index_or};
ghost use Rattle.std.specs.Prelude.{Some};
ghost use Rattle.std.specs.Prelude.{None};
ghost use Rattle.sv_text.specs.Lines.{lines_of};
ghost use Rattle.sv_workload.specs.Generated.{generated_load};
ghost use Rattle.sv_workload.specs.GeneratedText.{generated_text};
ghost use Rattle.sv_workload.specs.Grammar.{fault_at, first_fault, IsFirstFault, IsWorkload};
ghost use Rattle.sv_workload.specs.declared.fault.LineFault.{LineFault};

/// The law of the language: a text's first fault is that of the one line with a fault after lines
/// without one, and a text without such a line has none.
pub fn the_first_fault()
    ensures some { (text : List ℕ) (place : ℕ) (fault : LineFault) →
        IsFirstFault text place fault → first_fault text ≡ Some (place + 1, fault) }
    ensures none { (text : List ℕ) →
        ((place : ℕ) → place < length (lines_of text) →
        fault_at (take place (lines_of text)) (slice_index_or (lines_of text) place []) ≡ None) →
        first_fault text ≡ None }
{}

/// The law of generated workloads: each is what a text of the language says, line by line.
pub fn generated_is_said()
    ensures { (n : ℕ) → n ≤ 1000000 → IsWorkload (generated_text n) (generated_load n) }
{}
