//! Tests of the configuration texts, through their public calls alone.
//!
//! They say what no clause says and what the program does not print: what is read of worked texts, by
//! which MAD a line asks, which cable a line cuts or mends, and that a text is read if memory is
//! there. Texts that are refused, and listings, stand in `tests/`.
#![tactic(auto)]

#[cfg(test)]
mod asks;
#[cfg(test)]
mod cables;
#[cfg(test)]
mod discoveries;
#[cfg(test)]
mod fault_texts;
#[cfg(test)]
mod fixtures;
#[cfg(test)]
mod imports;
#[cfg(test)]
mod partition_members;
#[cfg(test)]
mod partitions;
#[cfg(test)]
mod topology_texts;
#[cfg(test)]
mod words;
