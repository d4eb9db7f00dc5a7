//! Workloads: what the writers of a run do, and in which order.
//!
//! The contract above this crate: a [`Workload`] is at any time within its limits, and tells how
//! many items and bytes its journal and its stream have at most. A [`Builder`] makes the workload
//! of exactly the parts that were put into it.
#![tactic(auto)]

mod builder;
mod limits;
mod load;
mod scripts;

pub use builder::Builder;
pub use limits::{
    MOST_COMMANDS, MOST_LINES, MOST_MODULES, MOST_STARTS, MOST_STEPS, MOST_TASKS, MOST_TICKS,
    MOST_WRITERS,
};
pub use load::{Act, Action, Command, Need, Step, Task, Workload};
