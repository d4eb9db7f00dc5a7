//! Tests of timelines, latencies and the texts about them: worked examples, and each public call once
//! with ample memory.
#![tactic(auto)]

#[cfg(test)]
mod latencies;
#[cfg(test)]
mod reports;
#[cfg(test)]
mod timelines;
