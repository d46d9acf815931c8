//! The records of subnet administration: what requests ask by, and what answers show.
//!
//! Each record is a struct of raw fields and one table of their places, as headers and attributes are (`mad_layout`):
//! `read` gives each field its value, `write` encodes the record and 0 elsewhere, and contracts compare both with the
//! list of places that stands in `specs/`. `selected_by` says whether a record agrees with a request on every
//! component that the request's ComponentMask names; `specs/Component.antt` says what a component is, and each record
//! lists its own. `ask_by` sets a field by its name in scripts and gives its bits of the mask, from the same table of
//! components that `selected_by` reads, except the numbers in ServiceData (IBA volume 1
//!, 15.2.1.1 and 15.2.5).
#![tactic(auto)]

mod asked;
mod component;
mod laws;
mod mc_member_record;
pub mod member_mask;
pub mod node_mask;
mod node_record;
pub mod path_mask;
mod path_record;
mod sa_attribute;
mod sa_record;
pub mod service_mask;
mod service_record;

pub use crate::component::{code_satisfies, rate_satisfies};
pub use crate::laws::{
    fields_have_own_bits, mc_member_records_read_back, node_records_read_back,
    path_records_read_back, rates_are_in_order, service_records_read_back, the_numbers,
};
pub use crate::mc_member_record::{
    MC_MEMBER_RECORD_BYTES, MC_MEMBER_RECORD_OFFSET, McMemberRecord,
};
pub use crate::node_record::{NODE_RECORD_BYTES, NODE_RECORD_OFFSET, NodeRecord};
pub use crate::path_record::{PATH_RECORD_BYTES, PATH_RECORD_OFFSET, PathRecord};
pub use crate::sa_attribute::SaAttribute;
pub use crate::sa_record::SaRecord;
pub use crate::service_record::{SERVICE_RECORD_BYTES, SERVICE_RECORD_OFFSET, ServiceRecord};
