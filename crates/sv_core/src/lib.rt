//! Whole runs of a workload: in which order its writers and the host take their turns, the journal
//! that such a run gives, and the simulation that runs it over one ring.
//!
//! The contracts above this crate are those of [`simulate`], whose journal is legal, whole and in
//! the order of a simulation, and of [`replay`], which runs the turns of a journal again or says at
//! which of them no run goes on. By the laws [`simulated_once`] and [`replayed_once`] a workload,
//! and a workload with turns, has one such journal at most.
#![tactic(auto)]

mod laws;
mod plan_ring;
mod replays;
mod simulation;
mod turns;

pub use laws::{bad_turns, frees_small, replay_same, replayed_once, simulated_once};
pub use replays::{ReplayFault, replay};
pub use simulation::{Simulated, simulate};
pub use turns::{StepTurn, Turns, turns_of};
