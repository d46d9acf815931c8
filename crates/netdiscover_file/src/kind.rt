//! The kinds of nodes.

ghost use Rattle.std.specs.Prelude.{◌≡◌};
ghost use Rattle.netdiscover_file.specs.Kind.{is_same_kind, is_switch, kind_headed, kind_named, letter};

use crate::fault::DiscoveryCause;

/// What kind of node a text reports.
///
/// Source: IBA volume 1, 14.2.5.3 (NodeInfo).
#[derive(Clone, Copy, Debug, PartialEq, Eq)]
pub enum NodeKind {
    /// A switch.
    Switch,
    /// A channel adapter.
    ChannelAdapter,
    /// A router.
    Router,
}

impl NodeKind {
    /// The letter that names it.
    fn letter(self) -> u8
        ensures { result ≡ letter self }
    {
        match self {
            NodeKind::Switch => b'S',
            NodeKind::ChannelAdapter => b'H',
            NodeKind::Router => b'R',
        }
    }

    /// Whether both are the same.
    pub(crate) fn is_same(self, other: NodeKind) -> bool
        ensures { result ≡ is_same_kind self other }
    {
        self.letter() == other.letter()
    }

    /// Whether it is a switch.
    pub fn is_switch(self) -> bool
        ensures { result ≡ is_switch self }
    {
        self.is_same(NodeKind::Switch)
    }
}

/// The kind that a letter names.
pub(crate) fn kind_named(word: &[u8]) -> Result<NodeKind, DiscoveryCause>
    ensures { result ≡ kind_named word.now }
{
    if word == b"S".as_slice() {
        return Ok(NodeKind::Switch);
    }
    if word == b"H".as_slice() {
        return Ok(NodeKind::ChannelAdapter);
    }
    if word == b"R".as_slice() {
        return Ok(NodeKind::Router);
    }
    Err(DiscoveryCause::Malformed)
}

/// The kind of which a header with this first word is.
pub(crate) fn kind_headed(word: &[u8]) -> Result<NodeKind, DiscoveryCause>
    ensures { result ≡ kind_headed word.now }
{
    if word == b"Switch".as_slice() {
        return Ok(NodeKind::Switch);
    }
    if word == b"Ca".as_slice() {
        return Ok(NodeKind::ChannelAdapter);
    }
    if word == b"Rt".as_slice() {
        return Ok(NodeKind::Router);
    }
    Err(DiscoveryCause::Malformed)
}
