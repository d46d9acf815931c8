//! What was asked.

ghost use Rattle.std.specs.Prelude.{◌≡◌};
ghost use Rattle.pkeys_file.specs.Query.{judged_title, kind_named, place_asked, port_title_of, query_in, query_of, title_of};

use crate::fault::KeysCause;
use crate::parts::{behind, cut, port_of, u16_of};
use text_words::cut_at;

/// What a query asks for.
///
/// Source: IBA volume 1, 14.2.5.3 (NodeInfo), 14.2.5.4 (SwitchInfo), 14.2.5.6 (PortInfo), 14.2.5.7 (P_KeyTable).
#[derive(Clone, Copy, Debug, PartialEq, Eq)]
pub enum QueryKind {
    /// `nodeinfo`.
    NodeInfo,
    /// `switchinfo`.
    SwitchInfo,
    /// `pkeys`: a P_Key table.
    Keys,
    /// `portinfo`.
    PortInfo,
}

/// A query, by the words of its command.
#[derive(Clone, Copy, Debug, PartialEq, Eq)]
pub struct Query {
    /// What it asks for.
    pub kind: QueryKind,
    /// The LID that it is sent to.
    pub lid: u16,
    /// The port; 0 if none is named. Of an adapter it does not count: the LID names the port.
    pub port: u8,
}

impl QueryKind {
    ghost use Rattle.std.specs.Prelude.{◌≡◌};
    ghost use Rattle.pkeys_file.specs.Query.{code_of_kind};

    fn code(self) -> u8
        ensures { result ≡ code_of_kind self }
    {
        match self {
            QueryKind::NodeInfo => 0,
            QueryKind::SwitchInfo => 1,
            QueryKind::Keys => 2,
            QueryKind::PortInfo => 3,
        }
    }
}

/// What distinguishes a query from others.
#[derive(Clone, Copy, Debug, PartialEq, Eq, Hash)]
pub(crate) struct QueryKey {
    pub(crate) code: u8,
    pub(crate) lid: u16,
    pub(crate) port: u8,
}

fn kind_named(word: &[u8]) -> Result<QueryKind, KeysCause>
    ensures { result ≡ kind_named word.now }
{
    if word == b"nodeinfo".as_slice() {
        return Ok(QueryKind::NodeInfo);
    }
    if word == b"switchinfo".as_slice() {
        return Ok(QueryKind::SwitchInfo);
    }
    if word == b"pkeys".as_slice() {
        return Ok(QueryKind::Keys);
    }
    if word == b"portinfo".as_slice() {
        return Ok(QueryKind::PortInfo);
    }
    Err(KeysCause::Malformed)
}

#[tactic(auto, unfolding(crate::specs::Query::place_asked))]
fn place_asked(kind: QueryKind, lid: &[u8], port: &[u8]) -> Result<Query, KeysCause>
    ensures { result ≡ place_asked kind lid.now port.now }
{
    let lid = u16_of(lid)?;
    let port = port_of(port)?;
    Ok(Query { kind, lid, port })
}

fn query_of(kind: QueryKind, words: &[u8]) -> Result<Query, KeysCause>
    ensures { result ≡ query_of kind words.now }
{
    match cut_at(b' ', words) {
        Some((lid, port)) => place_asked(kind, lid, port),
        None => place_asked(kind, words, b"0"),
    }
}

/// The query of a line `# smpquery QUERY LID [PORT]`.
#[tactic(auto, unfolding(crate::specs::Query::query_in))]
pub(crate) fn query_in(text: &[u8]) -> Result<Query, KeysCause>
    ensures { result ≡ query_in text.now }
{
    let words = behind(b"# smpquery ", text)?;
    let (word, place) = cut(b' ', words)?;
    let kind = kind_named(word)?;
    query_of(kind, place)
}

/// The query, if a title with this LID and port is that of its answer.
fn judged_title(query: Query, lid: u16, port: u8) -> Result<Query, KeysCause>
    ensures { result ≡ judged_title query lid port }
{
    if query.lid == lid && query.port == port {
        Ok(query)
    } else {
        Err(KeysCause::OtherAnswer)
    }
}

/// The query, if `# Node info: Lid 5` is the title of its answer, with these words before the LID.
#[tactic(auto, unfolding(crate::specs::Query::title_of))]
fn title_of(first: &[u8], query: Query, text: &[u8]) -> Result<Query, KeysCause>
    ensures { result ≡ title_of first.now query text.now }
{
    let rest = behind(first, text)?;
    let lid = u16_of(rest)?;
    judged_title(query, lid, query.port)
}

/// The same of `# Port info: Lid 3 port 1`.
#[tactic(auto, unfolding(crate::specs::Query::port_title_of))]
fn port_title_of(query: Query, text: &[u8]) -> Result<Query, KeysCause>
    ensures { result ≡ port_title_of query text.now }
{
    let rest = behind(b"# Port info: Lid ", text)?;
    let (lid, words) = cut(b' ', rest)?;
    let lid = u16_of(lid)?;
    let word = behind(b"port ", words)?;
    let port = port_of(word)?;
    judged_title(query, lid, port)
}

impl Query {
    ghost use Rattle.std.specs.Prelude.{◌≡◌};
    ghost use Rattle.pkeys_file.specs.Query.{judged_by, key_of};

    /// What distinguishes the query from others.
    pub(crate) fn key(self) -> QueryKey
        ensures { result ≡ key_of self }
    {
        QueryKey {
            code: self.kind.code(),
            lid: self.lid,
            port: self.port,
        }
    }

    /// The query, if this is the title of its answer.
    pub(crate) fn judged_by(self, text: &[u8]) -> Result<Query, KeysCause>
        ensures { result ≡ judged_by self text.now }
    {
        match self.kind {
            QueryKind::NodeInfo => title_of(b"# Node info: Lid ", self, text),
            QueryKind::SwitchInfo => title_of(b"# Switch info: Lid ", self, text),
            QueryKind::Keys => Err(KeysCause::Malformed),
            QueryKind::PortInfo => port_title_of(self, text),
        }
    }
}
