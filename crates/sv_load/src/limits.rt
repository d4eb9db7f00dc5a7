//! The most of what a workload holds.

/// Steps of all scripts together, turns of a schedule, and steps of one turn.
pub const MOST_STEPS: u32 = 1048576;

/// Steps that start the recorder.
pub const MOST_STARTS: u64 = 256;

/// Writers.
pub const MOST_WRITERS: u32 = 16;

/// Lines that describe the target.
pub const MOST_LINES: usize = 4;

/// Tasks.
pub const MOST_TASKS: usize = 32;

/// Modules.
pub const MOST_MODULES: u32 = 64;

/// Commands of the host.
pub const MOST_COMMANDS: usize = 256;

/// Ticks before a step: 2^33.
pub const MOST_TICKS: u64 = 8589934592;
