//! The lines of what decides: the LIDs that packets of hosts do not come to, and those that come to an unknown entry. And the lines
//! by switch and LID, or how many they are.

ghost use Rattle.std.specs.Prelude.{◌≡◌, ◌++◌, false, filter, take, IfOk, OnOk};
ghost use Rattle.audit_net.specs.Net.{has_table};
ghost use Rattle.audit_routes.specs.Deciding.{by_switch, counted_line, host_switches, is_entered, is_hosts, lacking_entries, lacks_entry, line_count, losers, losing};
ghost use Rattle.audit_routes.specs.Deciding.{more_words, places_line, switches_words, unknown_line, unknown_lines, unreached_line, unreached_lines};
ghost use Rattle.topo_file.specs.Connectivity.{switches};

use crate::lines::{is_fed, push_lid, push_name_words, push_troubles};
use crate::loops::is_others;
use crate::pairs::is_lost_by;
use crate::verdict::is_unknown;
use audit_net::{Aim, Net};
use fabric_parts::PortRef;
use std::alloc::{AllocError, Global};
use text_words::push_decimal;

/// The switches whose names a line has: the first eight of them.
fn named(places: &[usize]) -> &[usize]
    ensures { result.now ≡ take 8 places.now }
{
    if places.len() > 8 {
        &places[..8]
    } else {
        places
    }
}

fn push_more(text: &mut Vec<u8>, count: usize) -> Result<(), AllocError>
    ensures { OnOk result (text.new.items ≡ text.old.items ++ more_words count) }
{
    if count > 8 {
        text.extend_from_slice(b" and ")?;
        push_decimal(text, count - 8)?;
        text.extend_from_slice(b" more")?;
    }
    Ok(())
}

/// Adds how many switches these are, and the names of the first eight.
#[tactic(auto, unfolding(crate::specs::Deciding::switches_words))]
fn push_switches(net: &Net<'_>, text: &mut Vec<u8>, places: &[usize]) -> Result<(), AllocError>
    ensures { OnOk result (text.new.items ≡ text.old.items ++ switches_words net.now places.now) }
{
    push_decimal(text, places.len())?;
    text.extend_from_slice(b" switches:")?;
    push_name_words(net, text, named(places))?;
    push_more(text, places.len())?;
    text.push(b'\n')?;
    Ok(())
}

/// Adds the line of a LID at these switches, if there are any.
fn push_places(
    net: &Net<'_>,
    text: &mut Vec<u8>,
    word: &[u8],
    joint: &[u8],
    aim: Aim,
    places: &[usize],
) -> Result<(), AllocError>
    ensures { OnOk result (text.new.items ≡ text.old.items ++ places_line word.now joint.now net.now aim places.now) }
{
    if places.is_empty() {
        return Ok(());
    }
    text.extend_from_slice(word)?;
    push_lid(net, text, aim.lid, aim.end)?;
    text.extend_from_slice(joint)?;
    push_switches(net, text, places)
}

/// The switches to which a host is attached.
fn host_switches(net: &Net<'_>, alloc: Global) -> Result<Vec<usize>, AllocError>
    ensures { IfOk result (λ places. places.items ≡ host_switches net.now) }
{
    net.switches()
        .iter()
        .copied()
        .filter(|place| net.links().carries_host(*place))
        .collect(alloc)
}

/// Those of them from which packets to the LID of this port are lost.
fn losing(
    net: &Net<'_>,
    alloc: Global,
    places: &[usize],
    lid: u16,
    end: PortRef,
) -> Result<Vec<usize>, AllocError>
    requires { places.now ≡ host_switches net.now }
    ensures { IfOk result (λ some. some.items ≡ losing net.now lid end) }
{
    places
        .iter()
        .copied()
        .filter(|place| is_lost_by(net.fate(lid, end, *place)))
        .collect(alloc)
}

fn losers(
    net: &Net<'_>,
    alloc: Global,
    places: &[usize],
    aim: Aim,
) -> Result<Vec<usize>, AllocError>
    requires { places.now ≡ host_switches net.now }
    ensures { IfOk result (λ some. some.items ≡ losers net.now aim) }
{
    match aim.end {
        Some(end) if net.plan().is_host(end.node) => losing(net, alloc, places, aim.lid, end),
        _ => Ok(Vec::new(alloc)),
    }
}

fn push_unreached_to(
    net: &Net<'_>,
    alloc: Global,
    text: &mut Vec<u8>,
    places: &[usize],
    aim: &Aim,
) -> Result<(), AllocError>
    requires { places.now ≡ host_switches net.now }
    ensures { OnOk result (text.new.items ≡ text.old.items ++ unreached_line net.now aim.now) }
{
    let aim = *aim;
    let some = losers(net, alloc, places, aim)?;
    push_places(net, text, b"unreached ", b" from ", aim, &some)
}

/// Adds a line of each LID of a host to which packets from some switch with a host are lost.
pub(crate) fn push_unreached(
    net: &Net<'_>,
    alloc: Global,
    text: &mut Vec<u8>,
    aims: &[Aim],
) -> Result<(), AllocError>
    ensures { OnOk result (text.new.items ≡ text.old.items ++ unreached_lines net.now aims.now) }
{
    let places = host_switches(net, alloc)?;
    for aim in aims {
        push_unreached_to(net, alloc, text, &places, aim)?;
    }
    Ok(())
}

/// Whether it is the LID of a host's port.
fn is_hosts(net: &Net<'_>, aim: Aim) -> bool
    ensures { result ≡ is_hosts net.now aim }
{
    match aim.end {
        Some(end) => net.plan().is_host(end.node),
        None => false,
    }
}

/// Whether packets to the LID come to the switch there from one of its hosts, or from another switch.
fn is_entered(net: &Net<'_>, aim: Aim, place: usize) -> bool
    ensures { result ≡ is_entered net.now aim place }
{
    (is_hosts(net, aim) && net.links().carries_host(place)) || is_fed(net, place, aim.lid)
}

fn has_table(net: &Net<'_>, place: usize) -> bool
    ensures { result ≡ has_table net.now place }
{
    net.table_at(place).is_some()
}

fn lacks_entry(net: &Net<'_>, aim: Aim, place: usize) -> bool
    ensures { result ≡ lacks_entry net.now aim place }
{
    has_table(net, place) && is_unknown(net.turn(aim.lid, place)) && is_entered(net, aim, place)
}

fn all_lacking(net: &Net<'_>, alloc: Global, aim: Aim) -> Result<Vec<usize>, AllocError>
    ensures { IfOk result (λ some. some.items ≡ filter (lacks_entry net.now aim) (switches net.now.plan.nodes)) }
{
    net.switches()
        .iter()
        .copied()
        .filter(|place| lacks_entry(net, aim, *place))
        .collect(alloc)
}

/// The switches whose entry of the LID is unknown, though they have a table and packets come to it.
fn lacking_entries(net: &Net<'_>, alloc: Global, aim: &Aim) -> Result<Vec<usize>, AllocError>
    ensures { IfOk result (λ some. some.items ≡ lacking_entries net.now aim.now) }
{
    if is_others(net, aim) {
        all_lacking(net, alloc, *aim)
    } else {
        Ok(Vec::new(alloc))
    }
}

fn push_unknown_to(
    net: &Net<'_>,
    alloc: Global,
    text: &mut Vec<u8>,
    aim: &Aim,
) -> Result<(), AllocError>
    ensures { OnOk result (text.new.items ≡ text.old.items ++ unknown_line net.now aim.now) }
{
    let some = lacking_entries(net, alloc, aim)?;
    push_places(net, text, b"unknown ", b" at ", *aim, &some)
}

/// Adds a line of each LID that comes to an unknown entry, except the LIDs of switches.
pub(crate) fn push_unknown(
    net: &Net<'_>,
    alloc: Global,
    text: &mut Vec<u8>,
    aims: &[Aim],
) -> Result<(), AllocError>
    ensures { OnOk result (text.new.items ≡ text.old.items ++ unknown_lines net.now aims.now) }
{
    for aim in aims {
        push_unknown_to(net, alloc, text, aim)?;
    }
    Ok(())
}

fn line_count(text: &[u8]) -> usize
    ensures { result ≡ line_count text.now }
{
    text.iter().filter(|byte| **byte == b'\n').count()
}

#[tactic(auto, unfolding(crate::specs::Deciding::counted_line))]
fn push_counted(text: &mut Vec<u8>, count: usize) -> Result<(), AllocError>
    ensures { OnOk result (text.new.items ≡ text.old.items ++ counted_line count) }
{
    if count == 0 {
        return Ok(());
    }
    text.extend_from_slice(b"# ")?;
    push_decimal(text, count)?;
    text.extend_from_slice(b" lines by switch and LID: --all prints them\n")
}

fn push_count_of_troubles(
    net: &Net<'_>,
    alloc: Global,
    text: &mut Vec<u8>,
    aims: &[Aim],
) -> Result<(), AllocError>
    ensures { OnOk result (text.new.items ≡ text.old.items ++ by_switch false net.now aims.now) }
{
    let mut troubles = Vec::new(alloc);
    push_troubles(net, alloc, &mut troubles, aims)?;
    push_counted(text, line_count(&troubles))
}

/// Adds what is wrong at each switch with each LID, or how many lines that is.
pub(crate) fn push_by_switch(
    net: &Net<'_>,
    alloc: Global,
    text: &mut Vec<u8>,
    aims: &[Aim],
    all: bool,
) -> Result<(), AllocError>
    ensures { OnOk result (text.new.items ≡ text.old.items ++ by_switch all net.now aims.now) }
{
    if all {
        push_troubles(net, alloc, text, aims)
    } else {
        push_count_of_troubles(net, alloc, text, aims)
    }
}
