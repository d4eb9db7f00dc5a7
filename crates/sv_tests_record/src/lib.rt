//! Tests of workloads, the recorder, simulations and replays: worked examples, and each public call
//! once with ample memory.
#![tactic(auto)]

#[cfg(test)]
mod generator;
#[cfg(test)]
mod recorder;
#[cfg(test)]
mod simulation;
#[cfg(test)]
mod workloads;
