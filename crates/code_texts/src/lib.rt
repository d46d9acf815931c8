//! What each code means that the program prints for an error or a refusal: the texts of `fabric explain`.
//!
//! [`Code::text`] is the explanation of a [`Code`]: its cause, the rule, and an input that has it with its correction.
//! [`explained`] returns that text, or a line for each code. The texts are in modules by kind of input.
#![tactic(auto)]

mod code;
mod discovery_texts;
mod dump_texts;
mod fabric_texts;
mod keys_texts;
mod lanes_texts;
mod laws;
mod lines;
mod machine_texts;
mod mft_texts;
mod partition_texts;
mod script_texts;
mod smp_texts;
mod topology_texts;

pub use crate::code::Code;
pub use crate::laws::{codes_are_listed_in_order, every_code_is_read};
pub use crate::lines::explained;
