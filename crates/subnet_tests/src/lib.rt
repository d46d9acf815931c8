//! Tests of whole runs, through public calls alone. They say what no clause
//! does: what faults say in words, worked ways of packets, and that calls succeed if memory is there.
#![tactic(auto)]

#[cfg(test)]
mod error_texts;
#[cfg(test)]
mod registries;
#[cfg(test)]
mod runs;
#[cfg(test)]
mod traces;
