//! Tests of the commands over sources and sinks of memory: texts, statuses, and devices that fail.
#![tactic(auto)]

#[cfg(test)]
mod commands;
