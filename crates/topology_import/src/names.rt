//! The names of nodes.

ghost use Rattle.std.specs.Prelude.{◌≡◌, ◌≤◌, ◌++◌, [], ◌∷◌, not, map, take, List, IfOk, OnOk};
ghost use Rattle.topology_import.specs.Tried.{AreTaken, KnowsTried};
ghost use Rattle.topology_import.specs.declared.planned.Planned.{Planned};
ghost use Rattle.text_words.specs.Words.{is_name_byte};
ghost use Rattle.topology_import.specs.Names.{free_number, has_name, name_at, name_byte, named, numbered, or_node, own_name, encoded, suffix, with_name};

use crate::nodes::Meant;
use crate::planned::PlannedList;
use fabric_parts::NAME_BYTES;
use indexmap::IndexMap;
use netdiscover_file::Node;
use std::alloc::{AllocError, Global};
use text_words::push_decimal;

/// The name of the node there as it stands, or no name if there is none.
pub(crate) fn name_at(nodes: &[Node], place: usize) -> &[u8]
    ensures { result.now ≡ name_at nodes.now place }
{
    match nodes.get(place) {
        Some(node) => node.name.as_bytes(),
        None => &[],
    }
}

fn is_name_byte(byte: u8) -> bool
    ensures { result ≡ is_name_byte byte }
{
    byte.is_ascii_alphanumeric() || (byte == b'_' || (byte == b'-' || byte == b'.'))
}

fn name_byte(byte: u8) -> u8
    ensures { result ≡ name_byte byte }
{
    if is_name_byte(byte) { byte } else { b'_' }
}

/// As many bytes as a name has at most.
fn cut_to(bytes: usize, name: &[u8]) -> &[u8]
    ensures { result.now ≡ take bytes name.now }
{
    if name.len() <= bytes {
        name
    } else {
        &name[..bytes]
    }
}

fn plain(alloc: Global, name: &[u8]) -> Result<Vec<u8>, AllocError>
    ensures { IfOk result (λ text. text.items ≡ map name_byte name.now) }
{
    name.iter().map(|byte| name_byte(*byte)).collect(alloc)
}

fn or_node(alloc: Global, name: Vec<u8>) -> Result<Vec<u8>, AllocError>
    ensures { IfOk result (λ text. text.items ≡ or_node name.items) }
{
    if name.is_empty() {
        return Vec::from_slice(alloc, b"node");
    }
    Ok(name)
}

/// A name, encoded with the bytes that one may have.
fn encoded(alloc: Global, name: &[u8]) -> Result<Vec<u8>, AllocError>
    ensures { IfOk result (λ text. text.items ≡ encoded name.now) }
{
    let name = plain(alloc, cut_to(NAME_BYTES, name))?;
    or_node(alloc, name)
}

fn suffix(alloc: Global, number: usize) -> Result<Vec<u8>, AllocError>
    ensures { IfOk result (λ text. text.items ≡ suffix number) }
{
    let mut text = Vec::from_slice(alloc, b"-")?;
    push_decimal(&mut text, number)?;
    Ok(text)
}

/// A name with a number behind it.
fn numbered(alloc: Global, name: &[u8], number: usize) -> Result<Vec<u8>, AllocError>
    ensures { IfOk result (λ text. text.items ≡ numbered name.now number) }
{
    let suffix = suffix(alloc, number)?;
    let mut text = Vec::from_slice(alloc, cut_to(NAME_BYTES.saturating_sub(suffix.len()), name))?;
    text.extend_from_slice(suffix.as_slice())?;
    Ok(text)
}

/// Whether no node has the name with this number.
fn is_free(
    alloc: Global,
    nodes: &PlannedList,
    name: &[u8],
    number: usize,
) -> Result<bool, AllocError>
    ensures { IfOk result (λ free. free ≡ not (has_name nodes.now (numbered name.now number))) }
{
    let name = numbered(alloc, name, number)?;
    Ok(!nodes.has_name(name.as_slice()))
}

/// The first number with which the name is free, looked for from a first one on; those below are taken.
fn free_number(
    alloc: Global,
    nodes: &PlannedList,
    name: &[u8],
    first: usize,
) -> Result<usize, AllocError>
    requires low { 2 ≤ first }
    requires taken { AreTaken nodes.now name.now first }
    ensures value { IfOk result (λ number. number ≡ free_number nodes.now name.now) }
    ensures taken { IfOk result (AreTaken nodes.now name.now) }
{
    let count = nodes.as_slice().len();
    for number in first..count + 2 {
        if is_free(alloc, nodes, name, number)? {
            return Ok(number);
        }
    }
    Ok(count + 2)
}

/// Of names, a number below which all are taken.
type Tried = IndexMap<Vec<u8>, usize>;

/// A number below which all are taken with the name.
fn first_number(tried: &Tried, name: &Vec<u8>) -> usize
    ensures low { 2 ≤ result }
    ensures taken { (nodes : List Planned) → KnowsTried tried.now nodes → AreTaken nodes name.now.items result }
{
    match tried.get(name) {
        Some(number) if *number > 2 => *number,
        _ => 2,
    }
}

/// A name of which no node is yet. What is tried for it is noted, so that no number is tried again.
fn own_name(
    alloc: Global,
    nodes: &PlannedList,
    tried: &mut Tried,
    name: Vec<u8>,
) -> Result<Vec<u8>, AllocError>
    requires { KnowsTried tried.old nodes.now }
    ensures value { IfOk result (λ text. text.items ≡ own_name nodes.now name.items) }
    ensures tried { OnOk result (KnowsTried tried.new nodes.now) }
{
    if !nodes.has_name(name.as_slice()) {
        return Ok(name);
    }
    let first = first_number(tried, &name);
    let number = free_number(alloc, nodes, name.as_slice(), first)?;
    let text = numbered(alloc, name.as_slice(), number)?;
    tried.insert(name, number)?;
    Ok(text)
}

fn push_named(
    alloc: Global,
    found: &[Node],
    nodes: &mut PlannedList,
    tried: &mut Tried,
    node: &Meant,
) -> Result<(), AllocError>
    requires { KnowsTried tried.old nodes.old }
    ensures added { OnOk result (nodes.new ≡ nodes.old ++ with_name found.now nodes.old node.now ∷ []) }
    ensures tried { OnOk result (KnowsTried tried.new nodes.new) }
{
    let name = encoded(alloc, name_at(found, node.node))?;
    let name = own_name(alloc, nodes, tried, name)?;
    nodes.push(alloc, name, *node)?;
    Ok(())
}

/// Nodes with their names, each named after those before it.
pub(crate) fn named(
    alloc: Global,
    found: &[Node],
    nodes: &[Meant],
) -> Result<PlannedList, AllocError>
    ensures { IfOk result (λ list. list ≡ named found.now [] nodes.now) }
{
    let mut list = PlannedList::new(alloc);
    let mut tried = IndexMap::new(alloc);
    for node in nodes {
        push_named(alloc, found, &mut list, &mut tried, node)?;
    }
    Ok(list)
}
