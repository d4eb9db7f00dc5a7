//! Tests of packets, of their decoding, and of recordings as streams of bytes: worked examples, and
//! each public call once with ample memory.
#![tactic(auto)]

#[cfg(test)]
mod decoding;
#[cfg(test)]
mod lengths;
#[cfg(test)]
mod packets;
#[cfg(test)]
mod streams;
