//! A topology of ours from what `ibnetdiscover` printed of a real fabric.
//!
//! [`topology_text`] gives the text that `topo_file` reads, or what is wrong with the line of the discovery that it comes from.
//! `specs/Import.antt` says which text that is: over the end ports and adapters of `specs/Ends.antt`, the nodes of
//! `specs/Nodes.antt` with the names of `specs/Names.antt`, and the cables of `specs/Cables.antt`, encoded as `specs/Text.antt`
//! says. If the fabric is too large to be simulated, the text says so by `specs/Sizes.antt`. A text is given only if the topology
//! that is read of it is that of the discovery, as `specs/Agreement.antt` says.
//!
//! That such a topology is that of the discovery is a law of any test (`specs/Laws.antt`), so that `specs/WrongRules.antt` can say
//! of each weaker test which topology it lets pass.
#![tactic(auto)]

mod agreement;
mod cables;
mod ends;
mod examples;
mod fault;
mod import;
mod index;
mod laws;
mod names;
mod nodes;
mod planned;
mod port_pairs;
mod sizes;
mod text;

pub use crate::fault::{ImportCause, ImportFault};
pub use crate::import::topology_text;
pub use crate::laws::{
    cables_are_wanted, ends_are_wanted, lines_are_wanted, near_ends_alone_are_not_enough,
    no_roots_are_wanted, others_are_reported, switches_are_joined_too, the_manager_is_wanted,
};
pub use crate::nodes::switch_guid_at;
pub use crate::planned::Planned;
