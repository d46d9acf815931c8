//! What a MAD asks.

ghost use Rattle.std.specs.Prelude.{◌≡◌, ◌==◌, bit_and};
ghost use Rattle.sa_replies.specs.Request.{has_versions, is_response, request_in};

use bitflags::Flags;
use mad_layout::{Header, Mad, RmppFlags, RmppHeader, SA_DATA_BYTES, SaMad};
use rmpp_core::{BASE_VERSION, SA_CLASS_VERSION};
use std::marker::Model;

/// A MAD of subnet administration: its headers, its ComponentMask, and its data, in which a record stands first.
///
/// Source: IBA volume 1, 13.4.2 and 15.2.1.1.
#[derive(Clone, Copy)]
pub(crate) struct Request {
    pub(crate) header: Header,
    pub(crate) rmpp: RmppHeader,
    pub(crate) component_mask: u64,
    pub(crate) content: [u8; SA_DATA_BYTES],
}

impl Model for Request {
    ghost use Rattle.sa_replies.specs.Request.{Request};

    ghost Value = { Request };

    ghost view = { λ request. record {
      header = request.header;
      rmpp = request.rmpp;
      component_mask = request.component_mask;
      content = request.content;
    } };

    ghost inverse = { λ request. record {
      header = request.header;
      rmpp = request.rmpp;
      component_mask = request.component_mask;
      content = request.content;
    } };
}

impl Request {
    /// What the MAD asks.
    #[tactic(auto, unfolding(sa_replies::specs::Request::request_in))]
    pub(crate) fn read(mad: &Mad) -> Request
        ensures { result ≡ request_in mad.now }
    {
        let fields = SaMad::read(mad);
        let content = fields.data;
        Request {
            header: Header::read(mad),
            rmpp: RmppHeader::read(mad),
            component_mask: fields.component_mask,
            content,
        }
    }

    /// Whether both of its versions are those that are answered.
    pub(crate) fn has_versions(&self) -> bool
        ensures { result ≡ has_versions self.now.header }
    {
        self.header.base_version == BASE_VERSION && self.header.class_version == SA_CLASS_VERSION
    }

    /// Whether it is a response.
    pub(crate) fn is_response(&self) -> bool
        ensures { result ≡ is_response self.now.header }
    {
        self.header.is_response()
    }

    /// Whether it is a MAD of a transfer.
    pub(crate) fn is_active(&self) -> bool
        ensures { result ≡ (bit_and self.now.rmpp.flags 1 == 1) }
    {
        self.rmpp.flags().contains(RmppFlags::ACTIVE)
    }
}
