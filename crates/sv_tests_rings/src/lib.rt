//! Tests of rings: for one thread, on shared words and over a queue, each public call once with ample
//! memory, and a million bytes between two threads.
#![tactic(auto)]

#[cfg(test)]
mod plain;
#[cfg(test)]
mod queue;
#[cfg(test)]
mod shared_words;
