//! Texts and fabrics that tests of several crates share, over either wire, and what texts of fabrics are made of.
//!
//! A value that cannot be made is a failure of the test that asks for it.
#![tactic(auto)]

mod chance;
mod fabrics;
mod fat_tree;
mod lines;
mod plain;
mod texts;

pub use crate::chance::Chance;
pub use crate::fabrics::{fabric_of, fabric_over, two_switch_fabric};
pub use crate::fat_tree::fat_tree_of;
pub use crate::lines::{put, put_cable, put_line};
pub use crate::plain::{plain_wire_of, two_switch_wire};
pub use crate::texts::{ONE_PARTITION_FILE, TWO_SWITCHES};
