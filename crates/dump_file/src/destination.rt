//! What a row says of its LID.

ghost use Rattle.std.specs.Prelude.{◌≡◌, None};
ghost use Rattle.dump_file.specs.Destination.{destination_in, end_port_in, further_in, further_said, guid_said, if_said, named_in, path_in};
ghost use Rattle.dump_file.specs.Destination.{router_in, said_in, switch_in};

use crate::fault::DumpCause;
use crate::parts::{behind, between, count_in, cut, guid_in};
use text_words::cut_at;

/// Whose a LID is, as a row says.
#[derive(Clone, Copy, Debug, PartialEq, Eq)]
pub enum Destination {
    /// A port of a channel adapter has it.
    ChannelAdapter {
        /// The GUID of the port.
        guid: u64,
    },
    /// Port 0 of a switch has it.
    Switch {
        /// The GUID of port 0.
        guid: u64,
    },
    /// A port of a router has it.
    Router {
        /// The GUID of the port.
        guid: u64,
    },
    /// It is a further LID of a port (LMC), of which kind is not said.
    FurtherLid {
        /// The GUID of the port.
        guid: u64,
    },
    /// The fabric has no such LID.
    Nobody,
    /// Nothing is said, since the entry leads to no port of the switch.
    NotReported,
}

impl Destination {
    /// The GUID of the end port that is said to have the LID, if one is.
    pub fn guid(self) -> Option<u64>
        ensures { result ≡ guid_said self }
    {
        match self {
            Destination::ChannelAdapter { guid }
            | Destination::Switch { guid }
            | Destination::Router { guid }
            | Destination::FurtherLid { guid } => Some(guid),
            Destination::Nobody | Destination::NotReported => None,
        }
    }
}

fn router_in(text: &[u8]) -> Result<Destination, DumpCause>
    ensures { result ≡ router_in text.now }
{
    let word = behind(b"Router portguid ", text)?;
    let guid = guid_in(word)?;
    Ok(Destination::Router { guid })
}

fn switch_in(text: &[u8]) -> Result<Destination, DumpCause>
    ensures { result ≡ switch_in text.now }
{
    let Ok(word) = behind(b"Switch portguid ", text) else {
        return router_in(text);
    };
    let guid = guid_in(word)?;
    Ok(Destination::Switch { guid })
}

fn end_port_in(text: &[u8]) -> Result<Destination, DumpCause>
    ensures { result ≡ end_port_in text.now }
{
    let Ok(word) = behind(b"Channel Adapter portguid ", text) else {
        return switch_in(text);
    };
    let guid = guid_in(word)?;
    Ok(Destination::ChannelAdapter { guid })
}

#[tactic(auto, unfolding(crate::specs::Destination::named_in))]
fn named_in(text: &[u8]) -> Result<Destination, DumpCause>
    ensures { result ≡ named_in text.now }
{
    let (reported, name) = cut(b':', text)?;
    between(b" '", b"'", name)?;
    end_port_in(reported)
}

#[tactic(auto, unfolding(crate::specs::Destination::further_in))]
fn further_in(text: &[u8]) -> Result<Destination, DumpCause>
    ensures { result ≡ further_in text.now }
{
    let reported = behind(b"out of ", text)?;
    match cut_at(b':', reported) {
        Some((count, port)) => further_said(count, port),
        None => without_guid(reported),
    }
}

#[tactic(auto, unfolding(crate::specs::Destination::further_said))]
fn further_said(count: &[u8], port: &[u8]) -> Result<Destination, DumpCause>
    ensures { result ≡ further_said (count.now, port.now) }
{
    count_in(count)?;
    let word = behind(b" portguid ", port)?;
    let guid = guid_in(word)?;
    Ok(Destination::FurtherLid { guid })
}

/// A LID of which the GUID is left out, by the count of paths alone.
fn without_guid(count: &[u8]) -> Result<Destination, DumpCause>
    ensures { result ≡ if_said count.now None }
{
    count_in(count)?;
    Ok(Destination::NotReported)
}

#[tactic(auto, unfolding(crate::specs::Destination::path_in))]
fn path_in(text: &[u8]) -> Result<Destination, DumpCause>
    ensures { result ≡ path_in text.now }
{
    let (number, reported) = cut(b' ', text)?;
    count_in(number)?;
    if reported == b"- illegal port".as_slice() {
        return Ok(Destination::NotReported);
    }
    further_in(reported)
}

fn said_in(text: &[u8]) -> Result<Destination, DumpCause>
    ensures { result ≡ said_in text.now }
{
    if text == b"illegal port".as_slice() {
        return Ok(Destination::NotReported);
    }
    if text == b"node info not available fabric scan".as_slice() {
        return Ok(Destination::Nobody);
    }
    match text.strip_prefix(b"path #") {
        Some(path) => path_in(path),
        None => named_in(text),
    }
}

/// What stands behind the port of a row.
pub(crate) fn destination_in(text: &[u8]) -> Result<Destination, DumpCause>
    ensures { result ≡ destination_in text.now }
{
    let reported = between(b": (", b")", text)?;
    said_in(reported)
}
