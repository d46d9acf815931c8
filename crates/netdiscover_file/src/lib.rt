//! What `ibnetdiscover` prints of a real fabric, read into nodes and the ends of their cables.
//!
//! [`is_discovery`] reports whether a text is one of these. [`read`] gives the [`Discovery`] that a text reports, or the
//! first fault with its line. What a text reports is stated in `specs/Discovery.antt`, line by line; what the words of a
//! line say, in `specs/Ends.antt`, `specs/Lids.antt`, `specs/Comment.antt` and `specs/Assignment.antt`.
//! A discovery agrees with itself: `specs/Sound.antt` says how.
#![tactic(auto)]

mod agreement;
mod assignment;
mod comment;
mod cut;
mod discovery;
mod draft;
mod ends;
mod examples;
mod fault;
mod kind;
mod laws;
mod lids;
mod node;
mod port;
mod reader;
mod spelling;
mod wrong_rules;

pub use crate::discovery::Discovery;
pub use crate::ends::{FarEnd, NodeId};
pub use crate::fault::{DiscoveryCause, DiscoveryFault};
pub use crate::kind::NodeKind;
pub use crate::laws::cables_have_one_other_end;
pub use crate::node::{Node, NodeName};
pub use crate::port::PortLine;
pub use crate::reader::{is_discovery, read};
