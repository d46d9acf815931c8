//! What the loss of each cable between switches would do to a fabric, reported before it is out.
//!
//! [`cut`] says whether the fabric of the topology without that cable would come up, and with which routes, or why it would not
//! (`specs/Fate.antt`): as `plan` of `subnet_fabric` does, over the graph of the fabric that is up. Nothing is swept and nothing
//! is pushed (IBA volume 1, chapter 14). [`losses`] asks this of each cable between two switches, and counts the entries of
//! linear forwarding tables and the masks that differ then (`specs/Outcomes.antt`). [`cuts_text`] prints a line for each,
//! [`cut_text`] that of one cable with the entries that change (`specs/Texts.antt`), and [`needed`] says which cables the fabric
//! can't do without. [`changes_are_the_fabrics`] and [`masks_are_the_fabrics`] say that the report is what the two fabrics hold,
//! [`one_fate_is_reported`] that there is one answer.
#![tactic(auto)]

mod cables;
mod changes;
mod cutting;
mod fate;
mod keeping;
mod laws;
mod loss;
mod masks;
mod outcome;
mod texts;
mod wrong_rules;

pub use crate::cables::{can_be_cut, joins_switches};
pub use crate::changes::Change;
pub use crate::cutting::cut;
pub use crate::fate::{Cut, Stop};
pub use crate::keeping::needed;
pub use crate::laws::{
    changes_are_the_fabrics, changes_are_what_differs, entries_are_reported_once,
    kept_is_what_comes_up, lines_are_whole, mask_changes_are_the_fabrics,
    mask_changes_are_what_differs, masks_are_reported_once, masks_are_the_fabrics,
    numbers_are_of_what_differs, one_fate_is_reported, one_text_is_reported,
};
pub use crate::loss::{Loss, losses};
pub use crate::masks::MaskChange;
pub use crate::outcome::{Difference, Outcome};
pub use crate::texts::{cut_text, cuts_text};
