//! The lines of an audit, except its last ones.

ghost use Rattle.std.specs.Prelude.{◌≡◌, ◌≤◌, ◌*◌, ◌++◌, true, false, Some, OnOk, flat_map};
ghost use Rattle.std.specs.List.{list_any, range_with_len};
ghost use Rattle.std.specs.Option.{option_map_or};
ghost use Rattle.audit_net.specs.Following.{loop_from, turn};
ghost use Rattle.audit_net.specs.Lids.{is_named};
ghost use Rattle.audit_net.specs.Net.{table_at};
ghost use Rattle.dump_file.specs.Sound.{is_rising};
ghost use Rattle.audit_routes.specs.Lines.{apart_line, passed_words, files_by, goes_to, has_switch, is_fed, lid_text, owner_text, hole_line, is_least, is_nobodys, is_stray, lacking_line, leaves_out};
ghost use Rattle.audit_routes.specs.Lines.{is_among, is_untold, left_out_line, line_by, loop_line, name_text, name_word, nobodys_line, unplaced_line, no_lid_line, no_lid_lines, no_port_line, no_switch_line, no_switches_line, no_table_line};
ghost use Rattle.audit_routes.specs.Lines.{nowhere_line, port_text, stray_line, trouble_line, troubles_at, troubles_by, unreported_line, unreported_lines, words_at, wrong_line};
ghost use Rattle.topo_file.specs.Connectivity.{switches};

use audit_net::{Aim, Net, Turn, has_lid, is_left_out, row_of};
use audit_plan::{PlanNode, name_at};
use dump_file::{Destination, Row, Table};
use fabric_parts::{Cable, NO_PORT, PortRef};
use std::alloc::{AllocError, Global};
use text_words::{push_decimal, push_guid, push_port_name};

/// Whether a switch of these has the GUID.
pub fn has_switch(guid: u64, nodes: &[PlanNode]) -> bool
    ensures { result ≡ has_switch guid nodes.now }
{
    nodes
        .iter()
        .any(|node| node.is_switch() && node.guid() == guid)
}

fn push_lacking(text: &mut Vec<u8>, lid: u16, guid: Option<u64>) -> Result<(), AllocError>
    ensures { OnOk result (text.new.items ≡ text.old.items ++ lacking_line lid guid) }
{
    if let Some(guid) = guid {
        text.extend_from_slice(b"no-port ")?;
        push_decimal(text, usize::from(lid))?;
        text.extend_from_slice(b" ")?;
        push_guid(text, guid)?;
        text.push(b'\n')?;
    }
    Ok(())
}

fn push_no_port(text: &mut Vec<u8>, aim: &Aim) -> Result<(), AllocError>
    ensures { OnOk result (text.new.items ≡ text.old.items ++ no_port_line aim.now) }
{
    let aim = *aim;
    if aim.end.is_none() {
        push_lacking(text, aim.lid, aim.guid)?;
    }
    Ok(())
}

fn push_no_ports(text: &mut Vec<u8>, aims: &[Aim]) -> Result<(), AllocError>
    ensures { OnOk result (text.new.items ≡ text.old.items ++ flat_map no_port_line aims.now) }
{
    for aim in aims {
        push_no_port(text, aim)?;
    }
    Ok(())
}

fn is_named(rows: &[Row], lid: u16) -> bool
    ensures { result ≡ is_named rows.now lid }
{
    rows.iter().any(|row| row.lid == lid)
}

fn leaves_out(lid: u16, table: &Table) -> bool
    ensures { result ≡ leaves_out lid table.now }
{
    is_left_out(table, lid) && !is_named(table.rows.as_slice(), lid)
}

fn some_leaves_out(tables: &[Table], lid: u16) -> bool
    ensures { result ≡ list_any (leaves_out lid) tables.now }
{
    tables.iter().any(|table| leaves_out(lid, table))
}

fn is_among(aims: &[Aim], lid: u16) -> bool
    ensures { result ≡ is_among aims.now lid }
{
    aims.iter().any(|aim| aim.lid == lid)
}

fn is_nobodys(destination: Destination) -> bool
    ensures { result ≡ is_nobodys destination }
{
    match destination {
        Destination::Nobody => true,
        _ => false,
    }
}

fn is_stray(lid: u16, table: &Table) -> bool
    requires { is_rising table.now ≡ true }
    ensures { result ≡ is_stray lid table.now }
{
    match row_of(table.rows.as_slice(), lid, table.top) {
        Some(row) => is_nobodys(row.destination) && row.port != NO_PORT,
        None => false,
    }
}

fn is_least(place: usize, ring: &[usize]) -> bool
    ensures { result ≡ is_least place ring.now }
{
    ring.iter().all(|other| place <= *other)
}

#[tactic(auto, unfolding(crate::specs::Lines::passed_words))]
fn push_passed_words(text: &mut Vec<u8>) -> Result<(), AllocError>
    ensures { OnOk result (text.new.items ≡ text.old.items ++ passed_words) }
{
    text.extend_from_slice(b"# passed over: ")
}

/// Adds the name of a node.
pub fn push_name(net: &Net<'_>, text: &mut Vec<u8>, place: usize) -> Result<(), AllocError>
    ensures { OnOk result (text.new.items ≡ text.old.items ++ name_text net.now place) }
{
    text.extend_from_slice(name_at(net.plan().nodes(), place))
}

/// Adds a port by the name of its node, as `A/3`.
pub fn push_port(net: &Net<'_>, text: &mut Vec<u8>, port: PortRef) -> Result<(), AllocError>
    ensures { OnOk result (text.new.items ≡ text.old.items ++ port_text net.now port) }
{
    push_port_name(text, name_at(net.plan().nodes(), port.node), port.port)
}

fn push_owner(net: &Net<'_>, text: &mut Vec<u8>, end: Option<PortRef>) -> Result<(), AllocError>
    ensures { OnOk result (text.new.items ≡ text.old.items ++ owner_text net.now end) }
{
    if let Some(end) = end {
        text.extend_from_slice(b" (")?;
        push_port(net, text, end)?;
        text.extend_from_slice(b")")?;
    }
    Ok(())
}

/// Adds a LID, and the port that has it.
pub fn push_lid(
    net: &Net<'_>,
    text: &mut Vec<u8>,
    lid: u16,
    end: Option<PortRef>,
) -> Result<(), AllocError>
    ensures { OnOk result (text.new.items ≡ text.old.items ++ lid_text net.now lid end) }
{
    push_decimal(text, usize::from(lid))?;
    push_owner(net, text, end)
}

#[tactic(auto, unfolding(crate::specs::Lines::apart_line))]
fn push_apart(net: &Net<'_>, text: &mut Vec<u8>, cable: Cable) -> Result<(), AllocError>
    ensures { OnOk result (text.new.items ≡ text.old.items ++ apart_line net.now cable) }
{
    push_passed_words(text)?;
    push_port(net, text, cable.first)?;
    text.extend_from_slice(b" ")?;
    push_port(net, text, cable.second)?;
    text.push(b'\n')?;
    Ok(())
}

/// Adds the cables that join no switch.
fn push_all_apart(net: &Net<'_>, text: &mut Vec<u8>) -> Result<(), AllocError>
    ensures { OnOk result (text.new.items ≡ text.old.items ++ flat_map (apart_line net.now) net.now.plan.apart) }
{
    for cable in net.plan().apart() {
        push_apart(net, text, *cable)?;
    }
    Ok(())
}

#[tactic(auto, unfolding(crate::specs::Lines::no_switches_line))]
fn push_no_switches_line(net: &Net<'_>, text: &mut Vec<u8>) -> Result<(), AllocError>
    ensures { OnOk result (text.new.items ≡ text.old.items ++ no_switches_line net.now) }
{
    if net.switches().is_empty() {
        text.extend_from_slice(b"# no switches\n")?;
    }
    Ok(())
}

fn push_no_table(net: &Net<'_>, text: &mut Vec<u8>, place: usize) -> Result<(), AllocError>
    ensures { OnOk result (text.new.items ≡ text.old.items ++ no_table_line net.now place) }
{
    if net.table_at(place).is_none() {
        text.extend_from_slice(b"no-table ")?;
        push_name(net, text, place)?;
        text.push(b'\n')?;
    }
    Ok(())
}

fn push_no_tables(net: &Net<'_>, text: &mut Vec<u8>) -> Result<(), AllocError>
    ensures { OnOk result (text.new.items ≡ text.old.items ++ flat_map (no_table_line net.now) (switches net.now.plan.nodes)) }
{
    for place in net.switches() {
        push_no_table(net, text, *place)?;
    }
    Ok(())
}

fn push_no_switch(net: &Net<'_>, text: &mut Vec<u8>, table: &Table) -> Result<(), AllocError>
    ensures { OnOk result (text.new.items ≡ text.old.items ++ no_switch_line net.now table.now) }
{
    if !has_switch(table.guid, net.plan().nodes()) {
        text.extend_from_slice(b"no-switch ")?;
        push_guid(text, table.guid)?;
        text.push(b'\n')?;
    }
    Ok(())
}

fn push_no_switches(net: &Net<'_>, text: &mut Vec<u8>) -> Result<(), AllocError>
    ensures { OnOk result (text.new.items ≡ text.old.items ++ flat_map (no_switch_line net.now) net.now.dump.tables) }
{
    for table in net.dump().tables() {
        push_no_switch(net, text, table)?;
    }
    Ok(())
}

fn push_no_lid(
    net: &Net<'_>,
    text: &mut Vec<u8>,
    aims: &[Aim],
    port: PortRef,
) -> Result<(), AllocError>
    ensures { OnOk result (text.new.items ≡ text.old.items ++ no_lid_line net.now aims.now port) }
{
    if !has_lid(net, aims, port) {
        text.extend_from_slice(b"no-lid ")?;
        push_port(net, text, port)?;
        text.push(b'\n')?;
    }
    Ok(())
}

fn push_no_lids_of(
    net: &Net<'_>,
    text: &mut Vec<u8>,
    aims: &[Aim],
    cable: Cable,
) -> Result<(), AllocError>
    ensures { OnOk result (text.new.items ≡ text.old.items ++ no_lid_lines net.now aims.now cable) }
{
    push_no_lid(net, text, aims, cable.first)?;
    push_no_lid(net, text, aims, cable.second)
}

fn push_no_lids(net: &Net<'_>, text: &mut Vec<u8>, aims: &[Aim]) -> Result<(), AllocError>
    ensures { OnOk result (text.new.items ≡ text.old.items ++ flat_map (no_lid_lines net.now aims.now) net.now.plan.cables) }
{
    for cable in net.plan().cables() {
        push_no_lids_of(net, text, aims, *cable)?;
    }
    Ok(())
}

fn is_untold(net: &Net<'_>, aims: &[Aim], lid: u16) -> bool
    ensures { result ≡ is_untold net.now aims.now lid }
{
    some_leaves_out(net.dump().tables(), lid) && !is_among(aims, lid)
}

fn push_unreported(
    net: &Net<'_>,
    text: &mut Vec<u8>,
    aims: &[Aim],
    lid: u16,
) -> Result<(), AllocError>
    ensures { OnOk result (text.new.items ≡ text.old.items ++ unreported_line net.now aims.now lid) }
{
    if is_untold(net, aims, lid) {
        text.extend_from_slice(b"untold ")?;
        push_decimal(text, usize::from(lid))?;
        text.push(b'\n')?;
    }
    Ok(())
}

fn push_unreported_below(
    net: &Net<'_>,
    text: &mut Vec<u8>,
    aims: &[Aim],
    count: u16,
) -> Result<(), AllocError>
    requires { count ≤ 1024 }
    ensures { OnOk result (text.new.items ≡ text.old.items ++ flat_map (λ n. unreported_line net.now aims.now (n * 64)) (range_with_len 0 count)) }
{
    for number in 0..count {
        push_unreported(net, text, aims, number * 64)?;
    }
    Ok(())
}

/// Adds the LIDs that a table leaves out, of which nothing is known.
fn push_unreported_lines(net: &Net<'_>, text: &mut Vec<u8>, aims: &[Aim]) -> Result<(), AllocError>
    ensures { OnOk result (text.new.items ≡ text.old.items ++ unreported_lines net.now aims.now) }
{
    push_unreported_below(net, text, aims, 1024)?;
    Ok(())
}

/// Adds what the dump and the fabric lack of one another.
#[tactic(auto, unfolding(crate::specs::Lines::files_by))]
pub(crate) fn push_files(net: &Net<'_>, text: &mut Vec<u8>, aims: &[Aim]) -> Result<(), AllocError>
    ensures { OnOk result (text.new.items ≡ text.old.items ++ files_by net.now aims.now) }
{
    push_all_apart(net, text)?;
    push_no_switches_line(net, text)?;
    push_no_tables(net, text)?;
    push_no_switches(net, text)?;
    push_no_ports(text, aims)?;
    push_no_lids(net, text, aims)?;
    push_unreported_lines(net, text, aims)?;
    Ok(())
}

/// Adds what a line of a switch and a LID begins with.
fn push_words_at(
    net: &Net<'_>,
    text: &mut Vec<u8>,
    word: &[u8],
    place: usize,
    lid: u16,
    end: Option<PortRef>,
) -> Result<(), AllocError>
    ensures { OnOk result (text.new.items ≡ text.old.items ++ words_at word.now net.now place lid end) }
{
    text.extend_from_slice(word)?;
    push_name(net, text, place)?;
    text.extend_from_slice(b" ")?;
    push_lid(net, text, lid, end)
}

fn push_left_out(
    net: &Net<'_>,
    text: &mut Vec<u8>,
    place: usize,
    lid: u16,
    end: Option<PortRef>,
) -> Result<(), AllocError>
    ensures { OnOk result (text.new.items ≡ text.old.items ++ left_out_line net.now place lid end) }
{
    if net.table_at(place).is_some() {
        push_words_at(net, text, b"left-out ", place, lid, end)?;
        text.push(b'\n')?;
    }
    Ok(())
}

fn push_hole(
    net: &Net<'_>,
    text: &mut Vec<u8>,
    place: usize,
    lid: u16,
    end: Option<PortRef>,
) -> Result<(), AllocError>
    ensures { OnOk result (text.new.items ≡ text.old.items ++ hole_line net.now place lid end) }
{
    push_words_at(net, text, b"hole ", place, lid, end)?;
    text.push(b'\n')?;
    Ok(())
}

fn push_nowhere(
    net: &Net<'_>,
    text: &mut Vec<u8>,
    place: usize,
    lid: u16,
    end: PortRef,
    number: u8,
) -> Result<(), AllocError>
    ensures { OnOk result (text.new.items ≡ text.old.items ++ nowhere_line net.now place lid end number) }
{
    push_words_at(net, text, b"nowhere ", place, lid, Some(end))?;
    text.extend_from_slice(b" port ")?;
    push_decimal(text, usize::from(number))?;
    text.push(b'\n')?;
    Ok(())
}

fn push_wrong(
    net: &Net<'_>,
    text: &mut Vec<u8>,
    place: usize,
    lid: u16,
    end: PortRef,
    there: PortRef,
) -> Result<(), AllocError>
    ensures { OnOk result (text.new.items ≡ text.old.items ++ wrong_line net.now place lid end there) }
{
    push_words_at(net, text, b"wrong ", place, lid, Some(end))?;
    text.extend_from_slice(b" ")?;
    push_port(net, text, there)?;
    text.push(b'\n')?;
    Ok(())
}

fn push_name_word(net: &Net<'_>, text: &mut Vec<u8>, place: usize) -> Result<(), AllocError>
    ensures { OnOk result (text.new.items ≡ text.old.items ++ name_word net.now place) }
{
    text.extend_from_slice(b" ")?;
    push_name(net, text, place)
}

/// Adds the names of these switches, each behind a blank.
pub(crate) fn push_name_words(
    net: &Net<'_>,
    text: &mut Vec<u8>,
    ring: &[usize],
) -> Result<(), AllocError>
    ensures { OnOk result (text.new.items ≡ text.old.items ++ flat_map (name_word net.now) ring.now) }
{
    for place in ring {
        push_name_word(net, text, *place)?;
    }
    Ok(())
}

fn push_ring(
    net: &Net<'_>,
    text: &mut Vec<u8>,
    place: usize,
    lid: u16,
    end: Option<PortRef>,
    ring: &[usize],
) -> Result<(), AllocError>
    ensures { OnOk result (text.new.items ≡ text.old.items ++ loop_line net.now place lid end (Some ring.now)) }
{
    if is_least(place, ring) {
        text.extend_from_slice(b"loop ")?;
        push_lid(net, text, lid, end)?;
        push_name_words(net, text, ring)?;
        text.push(b'\n')?;
    }
    Ok(())
}

fn push_loop(
    net: &Net<'_>,
    alloc: Global,
    text: &mut Vec<u8>,
    place: usize,
    lid: u16,
    end: Option<PortRef>,
) -> Result<(), AllocError>
    ensures { OnOk result (text.new.items ≡ text.old.items ++ loop_line net.now place lid end (loop_from net.now lid place)) }
{
    if let Some(ring) = net.loop_from(alloc, lid, place)? {
        push_ring(net, text, place, lid, end, &ring)?;
    }
    Ok(())
}

fn push_line(
    net: &Net<'_>,
    alloc: Global,
    text: &mut Vec<u8>,
    place: usize,
    lid: u16,
    end: PortRef,
) -> Result<(), AllocError>
    ensures { OnOk result (text.new.items ≡ text.old.items ++ line_by net.now place lid end (turn net.now lid place)) }
{
    match net.turn(lid, place) {
        Turn::Goes(_) => push_loop(net, alloc, text, place, lid, Some(end)),
        Turn::Arrives(there) if there == end => Ok(()),
        Turn::Arrives(there) => push_wrong(net, text, place, lid, end, there),
        Turn::Hole => push_hole(net, text, place, lid, Some(end)),
        Turn::Nowhere(number) => push_nowhere(net, text, place, lid, end, number),
        Turn::Unknown => push_left_out(net, text, place, lid, Some(end)),
    }
}

fn push_unplaced(
    net: &Net<'_>,
    alloc: Global,
    text: &mut Vec<u8>,
    place: usize,
    lid: u16,
) -> Result<(), AllocError>
    ensures { OnOk result (text.new.items ≡ text.old.items ++ unplaced_line net.now place lid (turn net.now lid place)) }
{
    match net.turn(lid, place) {
        Turn::Goes(_) => push_loop(net, alloc, text, place, lid, None),
        Turn::Hole => push_hole(net, text, place, lid, None),
        Turn::Unknown => push_left_out(net, text, place, lid, None),
        Turn::Arrives(_) | Turn::Nowhere(_) => Ok(()),
    }
}

fn goes_to(there: usize, turn: Turn) -> bool
    ensures { result ≡ goes_to there turn }
{
    match turn {
        Turn::Goes(next) => next == there,
        Turn::Arrives(_) | Turn::Hole | Turn::Nowhere(_) | Turn::Unknown => false,
    }
}

/// Whether some switch sends the LID to the one there.
pub(crate) fn is_fed(net: &Net<'_>, there: usize, lid: u16) -> bool
    ensures { result ≡ is_fed net.now there lid }
{
    net.switches()
        .iter()
        .any(|place| goes_to(there, net.turn(lid, *place)))
}

fn push_nobodys(
    net: &Net<'_>,
    alloc: Global,
    text: &mut Vec<u8>,
    place: usize,
    lid: u16,
) -> Result<(), AllocError>
    ensures { OnOk result (text.new.items ≡ text.old.items ++ nobodys_line net.now place lid (turn net.now lid place)) }
{
    match net.turn(lid, place) {
        Turn::Goes(_) => push_loop(net, alloc, text, place, lid, None),
        Turn::Unknown if is_fed(net, place, lid) => push_left_out(net, text, place, lid, None),
        _ => Ok(()),
    }
}

fn is_stray_at(net: &Net<'_>, place: usize, lid: u16) -> bool
    ensures { result ≡ option_map_or (is_stray lid) (table_at net.now place) false }
{
    match net.table_at(place) {
        Some(table) => is_stray(lid, table),
        None => false,
    }
}

fn push_stray(net: &Net<'_>, text: &mut Vec<u8>, place: usize, lid: u16) -> Result<(), AllocError>
    ensures { OnOk result (text.new.items ≡ text.old.items ++ stray_line net.now place lid) }
{
    if is_stray_at(net, place, lid) {
        text.extend_from_slice(b"stray ")?;
        push_name(net, text, place)?;
        text.extend_from_slice(b" ")?;
        push_decimal(text, usize::from(lid))?;
        text.push(b'\n')?;
    }
    Ok(())
}

fn push_trouble(
    net: &Net<'_>,
    alloc: Global,
    text: &mut Vec<u8>,
    place: usize,
    aim: &Aim,
) -> Result<(), AllocError>
    ensures { OnOk result (text.new.items ≡ text.old.items ++ trouble_line net.now place aim.now) }
{
    let aim = *aim;
    match (aim.guid, aim.end) {
        (_, Some(end)) => push_line(net, alloc, text, place, aim.lid, end),
        (Some(_), None) => push_unplaced(net, alloc, text, place, aim.lid),
        (None, None) => {
            push_stray(net, text, place, aim.lid)?;
            push_nobodys(net, alloc, text, place, aim.lid)
        }
    }
}

fn push_troubles_at(
    net: &Net<'_>,
    alloc: Global,
    text: &mut Vec<u8>,
    aims: &[Aim],
    place: usize,
) -> Result<(), AllocError>
    ensures { OnOk result (text.new.items ≡ text.old.items ++ troubles_at net.now aims.now place) }
{
    for aim in aims {
        push_trouble(net, alloc, text, place, aim)?;
    }
    Ok(())
}

/// Adds what is wrong at each switch with each LID.
pub(crate) fn push_troubles(
    net: &Net<'_>,
    alloc: Global,
    text: &mut Vec<u8>,
    aims: &[Aim],
) -> Result<(), AllocError>
    ensures { OnOk result (text.new.items ≡ text.old.items ++ troubles_by net.now aims.now) }
{
    for place in net.switches() {
        push_troubles_at(net, alloc, text, aims, *place)?;
    }
    Ok(())
}
