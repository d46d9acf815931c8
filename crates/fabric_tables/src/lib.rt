//! The tables that a simulated fabric holds, as lines.
//!
//! [`keys_text`] prints the P_Key table of each end port, and of each port of a switch that faces one of a channel adapter,
//! as SMPs left them (IBA volume 1, 14.2.5.7); `specs/Keys.antt` says what the lines
//! look like. [`tables_text`] prints, for each switch by LID, the entries of its linear forwarding table that lead to end
//! ports, in the form in which `dump_fts` of infiniband-diags prints those of a real fabric (chapter 14), and behind all of
//! these the multicast forwarding tables, in the form of `dump_mfts`; `specs/Tables.antt` and `specs/Multicast.antt` have
//! these forms, and `specs/Whole.antt` shows multicast tables whole.
#![tactic(auto)]

mod digits;
mod keys;
mod laws;
mod multicast;
mod nodes;
mod tables;

pub use crate::keys::keys_text;
pub use crate::laws::tables_are_whole;
pub use crate::multicast::tables_text;
