ghost use Rattle.std.specs.Prelude.{◌≡◌, ℕ, ◌-◌, ◌^◌, ◌≤◌, ◌⊎◌, List, All};
ghost use Rattle.sv_load.specs.Load.{Load};
ghost use Rattle.sv_journal.specs.declared.journal.Item.{Item};
ghost use Rattle.sv_journal.specs.Items.{latest_first};
ghost use Rattle.sv_journal.specs.Legal.{IsLegal, AreFirstCommands, EachItem};
ghost use Rattle.sv_journal.specs.Stream.{stream_of};
ghost use Rattle.sv_journal.specs.Frees.{frees_before};
ghost use Rattle.sv_core.specs.Simulated.{IsSimulated};
ghost use Rattle.sv_core.specs.Turns.{Turns, IsReplayed, IsSameButIdle, turns_of};
ghost use Rattle.sv_core.specs.BadTurns.{IsBadTurns, AreAskable};
ghost use Rattle.sv_core.specs.Rises.{IsRise};
ghost use Rattle.sv_core.specs.Turned.{RisesLittle};
ghost use Rattle.sv_core.specs.Replayed.{replay_of};

/// The law of simulations: a workload has no two journals in the order of a simulation, so the
/// workload alone fixes every item: its place and origin, its moment, what became of it and how
/// many bytes the host had taken. The stream that `record` writes is that journal's.
pub fn simulated_once()
    ensures journal { (load : Load) (a b : List Item) → IsSimulated load a → IsSimulated load b →
        a ≡ b }
{}

/// The law of a replay: turns give at most one journal.
pub fn replayed_once()
    ensures { (load : Load) → (turns : Turns) → (a b : List Item) →
        IsReplayed load turns a → IsReplayed load turns b → a ≡ b }
{}

/// The law of a journal's own turns: they give it again, but for the freed of items that are not
/// written, with the same bytes; and they never fail.
pub fn replay_same()
    ensures given { (load : Load) → (items : List Item) → IsLegal load items →
        AreFirstCommands load items → IsReplayed load (turns_of items) (replay_of items) }
    ensures same { (load : Load) → (items others : List Item) → IsLegal load items →
        AreFirstCommands load items → IsReplayed load (turns_of items) others →
        IsSameButIdle items others }
    ensures stream { (load : Load) → (items others : List Item) → IsLegal load items →
        AreFirstCommands load items → IsReplayed load (turns_of items) others →
        stream_of load items ≡ stream_of load others }
    ensures sound { (load : Load) → (items : List Item) → (at : ℕ) → IsLegal load items →
        AreFirstCommands load items → IsBadTurns load (turns_of items) at → ⊥ }
{}

/// The law of bad turns: they give no journal, and fail at one place. All other turns give one,
/// where the workload's commands have parameters from 128 on alone.
pub fn bad_turns()
    ensures apart { (load : Load) → (turns : Turns) → (at : ℕ) → (items : List Item) →
        IsBadTurns load turns at → IsReplayed load turns items → ⊥ }
    ensures once { (load : Load) → (turns : Turns) → (a b : ℕ) →
        IsBadTurns load turns a → IsBadTurns load turns b → a ≡ b }
    ensures either { (load : Load) → (turns : Turns) → AreAskable load →
        ((at : ℕ) × IsBadTurns load turns at) ⊎
        ((items : List Item) × IsReplayed load turns items) }
{}

/// The law of a journal's frees: from one written item to the next no more is freed than the ring
/// holds.
pub fn frees_small()
    ensures rises { (load : Load) → (items : List Item) → IsLegal load items →
        EachItem (IsRise (load.ring - 1)) (latest_first items) }
    ensures numbers { (load : Load) → (items : List Item) → IsLegal load items →
        All (λ n. n ≤ load.ring - 1) (frees_before (latest_first items)) }
    ensures little { (load : Load) → (items : List Item) → IsLegal load items →
        load.ring ≤ 2 ^ 32 → EachItem RisesLittle (latest_first items) }
{}
