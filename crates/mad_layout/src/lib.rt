//! The bits of a management datagram (MAD), and its headers.
//!
//! [`get_bits`] and [`put_bits`] read and write a field of any width at any bit. A header is a struct of
//! raw fields and one table of their places, which [`read_fields`] and [`write_fields`] go through;
//! contracts compare it with the list of places that stands in `specs/`. [`Method`], [`MadStatus`] and
//! [`RmppKind`] name codes, [`RmppFlags`] and [`JoinState`] bits. The layouts are those of the IBA volume 1
//!: 13.4.2, 14.2.1.2, 15.2.1.1 and, for RMPP, chapter 13.
#![tactic(auto)]

mod aligned;
mod bits;
mod dr_smp;
mod fields;
mod join_state;
mod laws;
mod mad_header;
mod method;
mod rmpp_flags;
mod rmpp_header;
mod rmpp_kind;
mod sa_mad;
mod status;

pub use crate::aligned::{
    bytes_at, flag_at, put_bytes_at, put_flag_at, put_u16_at, put_u32_at, put_u64_at, put_u128_at,
    u16_at, u32_at, u64_at, u128_at,
};
pub use crate::bits::{get_bits, known_bytes, put_bits};
pub use crate::dr_smp::DrSmp;
pub use crate::join_state::JoinState;
pub use crate::laws::{
    bytes_are_fields, bytes_are_set, dr_smp_reads_back, header_reads_back, layouts_encode,
    layouts_set, parts_have_fields, put_leaves_others, put_reads_back, rmpp_header_reads_back,
    sa_mad_reads_back, what_is_held_fits,
};
pub use crate::mad_header::{Header, Mad};
pub use crate::method::Method;
pub use crate::rmpp_flags::RmppFlags;
pub use crate::rmpp_header::RmppHeader;
pub use crate::rmpp_kind::RmppKind;
pub use crate::sa_mad::{SA_DATA_BYTES, SaMad};
pub use crate::status::MadStatus;
