//! Tests of the program in memory: files and outputs that fail, arguments that are refused. End-to-end tests are in
//! `tests/`.
#![tactic(auto)]

#[cfg(test)]
mod calls;
#[cfg(test)]
mod fixtures;
#[cfg(test)]
mod memory;
#[cfg(test)]
mod refusals;
#[cfg(test)]
mod runs;
