//! What is printed of partitions: who may talk to whom, what a new partition file changes, and which pairs two sets of P_Key
//! tables tell apart.
//!
//! Lines that more than one output has, and the ports in them, by the names of their nodes: each call adds to a text that grows;
//! if an allocation fails, the text has some beginning of what is added. `specs/Ports.antt` and `specs/Lines.antt` say how ports
//! and lines look, and `specs/WholeLines.antt` shows each form of a line as a whole.
//!
//! The lines of `fabric shares`: [`shares_text`] is the call that the command makes: for each two end ports of a subnet, and for
//! each partition in which their keys match, a line; or only those that name one port. Two keys match if they name one partition
//! and at least one of them is a full member's (IBA volume 1, 14.2.5.7). `specs/Shares.antt` says it over P_Key tables alone, and
//! `specs/ShareLaws.antt` that two ports have a line if and only if they are near each other.
//!
//! The lines of `fabric diff`: [`changes_text`] says what a partition file in place of another changes in a subnet: partitions,
//! groups, members and shares that go, each behind `-`, or come, each behind `+`. `specs/Changes.antt` says it over two
//! configurations of one topology.
//!
//! Pairs of end ports that may talk by one set of P_Key tables and not by another: [`membership_of`] says what an end port is in
//! a partition by its P_Keys. [`new_pairs`] lists the pairs that may talk now and might not before, and [`new_pair_count`] counts
//! them without looking at pairs. `specs/Membership.antt` says who may talk, and `specs/PairLaws.antt` that this is the rule for
//! P_Keys that match (IBA volume 1, 14.2.5.7).
#![tactic(auto)]

mod bases;
mod change_laws;
mod change_wrong_rules;
mod changed_bases;
mod changed_ports;
mod changed_shares;
mod changed_sums;
mod changes;
mod counting;
mod headings;
mod line_laws;
mod lines;
mod members;
mod membership;
mod pair_laws;
mod pair_wrong_rules;
mod pairs;
mod ports;
mod share_laws;
mod shares;
mod sums;

pub use crate::bases::{bases_of_both, rising};
pub use crate::change_laws::{
    groups_are_reported, members_are_reported, near_stays_where_no_share_is_reported,
    nothing_is_reported_of_the_same, partitions_are_reported, shares_are_reported,
};
pub use crate::changes::changes_text;
pub use crate::counting::new_pair_count;
pub use crate::line_laws::lines_are_whole;
pub use crate::lines::{push_heading_line, push_member_line};
pub use crate::membership::{Membership, membership_of};
pub use crate::pair_laws::{pairs_are_listed, talking_is_matching};
pub use crate::pairs::{Member, Pair, new_pairs};
pub use crate::ports::push_port;
pub use crate::share_laws::near_is_to_share;
pub use crate::shares::{may_talk, push_share_line, shares_text};
pub use crate::sums::{PairSum, are_few, listed_shares, push_sum_line, sum_of};
