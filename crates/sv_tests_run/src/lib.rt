//! Tests of runs in threads over the rings of both kinds: gates hold one thread until another went
//! on, so that what runs at once is seen.
#![tactic(auto)]

#[cfg(test)]
mod runs;
