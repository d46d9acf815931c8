//! The lines on multicast.

ghost use Rattle.std.specs.Prelude.{◌≡◌, ◌++◌, count_by, flat_map, OnOk};
ghost use Rattle.std.specs.Option.{option_copied};
ghost use Rattle.topo_file.specs.Connectivity.{switches};
ghost use Rattle.audit_multicast.specs.Lines.{copy_line, copy_text, copy_words, cut_line, cut_text, cut_words, end_behind, found_lines, found_words, has_copy, has_cut, has_ring, is_past, is_uncabled, loop_line, mask_line, mask_lines_at, mask_port_line, mask_row_lines};
ghost use Rattle.audit_multicast.specs.Lines.{mask_table_lines, members_line, mft_at, mlid_text, mlids_line, mlids_words, multicast_lines, no_mft_line, no_mft_text, ring_text, strange_mft_line};

use crate::copies::SecondCopy;
use crate::cuts::Cut;
use crate::found::{Found, Ring};
use crate::masks::table_of;
use audit_net::Net;
use audit_plan::ports_at;
use audit_routes::{has_switch, push_name, push_port, push_port_words};
use fabric_parts::PortRef;
use mft_file::{MaskRow, MaskTable, Mfts};
use std::alloc::AllocError;
use text_words::{push_decimal, push_guid, push_hex};

fn push_mlid(text: &mut Vec<u8>, mlid: u16) -> Result<(), AllocError>
    ensures { OnOk result (text.new.items ≡ text.old.items ++ mlid_text mlid) }
{
    push_hex(text, &mlid.to_be_bytes())
}

/// The MFT of the node there.
pub(crate) fn mft_at<'a>(net: &Net<'_>, mfts: &'a Mfts, place: usize) -> Option<&'a MaskTable>
    ensures { option_copied result ≡ mft_at net.now mfts.now.tables place }
{
    let node = net.plan().nodes().get(place)?;
    table_of(mfts, node.guid())
}

fn push_no_mft_text(net: &Net<'_>, text: &mut Vec<u8>, place: usize) -> Result<(), AllocError>
    ensures { OnOk result (text.new.items ≡ text.old.items ++ no_mft_text net.now place) }
{
    text.extend_from_slice(b"multicast no-table ")?;
    push_name(net, text, place)?;
    text.push(b'\n')?;
    Ok(())
}

fn push_no_mft(
    net: &Net<'_>,
    text: &mut Vec<u8>,
    mfts: &Mfts,
    place: usize,
) -> Result<(), AllocError>
    ensures { OnOk result (text.new.items ≡ text.old.items ++ no_mft_line net.now mfts.now.tables place) }
{
    if mft_at(net, mfts, place).is_none() {
        return push_no_mft_text(net, text, place);
    }
    Ok(())
}

fn push_no_mfts(net: &Net<'_>, text: &mut Vec<u8>, mfts: &Mfts) -> Result<(), AllocError>
    ensures { OnOk result (text.new.items ≡ text.old.items ++ flat_map (no_mft_line net.now mfts.now.tables) (switches net.now.plan.nodes)) }
{
    for place in net.switches() {
        push_no_mft(net, text, mfts, *place)?;
    }
    Ok(())
}

#[tactic(auto, unfolding(crate::specs::Lines::strange_mft_line))]
fn push_strange_mft(net: &Net<'_>, text: &mut Vec<u8>, table: &MaskTable) -> Result<(), AllocError>
    ensures { OnOk result (text.new.items ≡ text.old.items ++ strange_mft_line net.now table.now) }
{
    if !has_switch(table.guid, net.plan().nodes()) {
        text.extend_from_slice(b"multicast no-switch ")?;
        push_guid(text, table.guid)?;
        text.push(b'\n')?;
    }
    Ok(())
}

fn push_strange_mfts(
    net: &Net<'_>,
    text: &mut Vec<u8>,
    tables: &[MaskTable],
) -> Result<(), AllocError>
    ensures { OnOk result (text.new.items ≡ text.old.items ++ flat_map (strange_mft_line net.now) tables.now) }
{
    for table in tables {
        push_strange_mft(net, text, table)?;
    }
    Ok(())
}

/// A port of a mask.
#[derive(Clone, Copy)]
struct MaskPort {
    place: usize,
    mlid: u16,
    number: u8,
}

#[tactic(auto, unfolding(crate::specs::Lines::mask_line))]
fn push_mask(
    net: &Net<'_>,
    text: &mut Vec<u8>,
    words: &[u8],
    port: MaskPort,
) -> Result<(), AllocError>
    ensures { OnOk result (text.new.items ≡ text.old.items ++ mask_line words.now net.now port.place port.mlid port.number) }
{
    text.extend_from_slice(b"multicast ")?;
    text.extend_from_slice(words)?;
    push_name(net, text, port.place)?;
    text.extend_from_slice(b" ")?;
    push_mlid(text, port.mlid)?;
    text.extend_from_slice(b" port ")?;
    push_decimal(text, usize::from(port.number))?;
    text.push(b'\n')?;
    Ok(())
}

fn is_past(net: &Net<'_>, place: usize, number: u8) -> bool
    ensures { result ≡ is_past net.now place number }
{
    ports_at(net.plan().nodes(), place) < number
}

fn is_uncabled(net: &Net<'_>, place: usize, number: u8) -> bool
    ensures { result ≡ is_uncabled net.now place number }
{
    let at = PortRef {
        node: place,
        port: number,
    };
    net.links().far_end(at).is_none()
}

fn push_mask_port(net: &Net<'_>, text: &mut Vec<u8>, port: MaskPort) -> Result<(), AllocError>
    ensures { OnOk result (text.new.items ≡ text.old.items ++ mask_port_line net.now port.place port.mlid port.number) }
{
    if port.number == 0 {
        return Ok(());
    }
    if is_past(net, port.place, port.number) {
        return push_mask(net, text, b"no-port ", port);
    }
    if is_uncabled(net, port.place, port.number) {
        return push_mask(net, text, b"nowhere ", port);
    }
    Ok(())
}

fn push_mask_row(
    net: &Net<'_>,
    text: &mut Vec<u8>,
    place: usize,
    row: &MaskRow,
) -> Result<(), AllocError>
    ensures { OnOk result (text.new.items ≡ text.old.items ++ mask_row_lines net.now place row.now) }
{
    for number in row.ports.as_slice() {
        let port = MaskPort {
            place,
            mlid: row.mlid,
            number: *number,
        };
        push_mask_port(net, text, port)?;
    }
    Ok(())
}

fn push_mask_table(
    net: &Net<'_>,
    text: &mut Vec<u8>,
    place: usize,
    table: &MaskTable,
) -> Result<(), AllocError>
    ensures { OnOk result (text.new.items ≡ text.old.items ++ mask_table_lines net.now place table.now) }
{
    for row in table.rows.as_slice() {
        push_mask_row(net, text, place, row)?;
    }
    Ok(())
}

fn push_masks_at(
    net: &Net<'_>,
    text: &mut Vec<u8>,
    mfts: &Mfts,
    place: usize,
) -> Result<(), AllocError>
    ensures { OnOk result (text.new.items ≡ text.old.items ++ mask_lines_at net.now mfts.now.tables place) }
{
    match mft_at(net, mfts, place) {
        Some(table) => push_mask_table(net, text, place, table),
        None => Ok(()),
    }
}

fn push_masks(net: &Net<'_>, text: &mut Vec<u8>, mfts: &Mfts) -> Result<(), AllocError>
    ensures { OnOk result (text.new.items ≡ text.old.items ++ flat_map (mask_lines_at net.now mfts.now.tables) (switches net.now.plan.nodes)) }
{
    for place in net.switches() {
        push_masks_at(net, text, mfts, *place)?;
    }
    Ok(())
}

#[tactic(auto, unfolding(crate::specs::Lines::ring_text))]
fn push_ring(net: &Net<'_>, text: &mut Vec<u8>, mlid: u16, ring: &Ring) -> Result<(), AllocError>
    ensures { OnOk result (text.new.items ≡ text.old.items ++ ring_text net.now mlid ring.now) }
{
    text.extend_from_slice(b"multicast loop ")?;
    push_mlid(text, mlid)?;
    push_port_words(net, text, ring.as_slice())?;
    text.push(b'\n')?;
    Ok(())
}

fn push_loop(
    net: &Net<'_>,
    text: &mut Vec<u8>,
    mlid: u16,
    ring: &Option<Ring>,
) -> Result<(), AllocError>
    ensures { OnOk result (text.new.items ≡ text.old.items ++ loop_line net.now mlid ring.now) }
{
    match ring {
        Some(ring) => push_ring(net, text, mlid, ring),
        None => Ok(()),
    }
}

#[tactic(auto, unfolding(crate::specs::Lines::copy_words))]
fn push_copy_words(text: &mut Vec<u8>, mlid: u16) -> Result<(), AllocError>
    ensures { OnOk result (text.new.items ≡ text.old.items ++ copy_words mlid) }
{
    text.extend_from_slice(b"multicast copies ")?;
    push_mlid(text, mlid)?;
    text.extend_from_slice(b" ")
}

#[tactic(auto, unfolding(crate::specs::Lines::copy_text))]
fn push_copy_text(
    net: &Net<'_>,
    text: &mut Vec<u8>,
    mlid: u16,
    copy: SecondCopy,
) -> Result<(), AllocError>
    ensures { OnOk result (text.new.items ≡ text.old.items ++ copy_text net.now mlid copy) }
{
    push_copy_words(text, mlid)?;
    push_name(net, text, copy.at)?;
    text.extend_from_slice(b" from ")?;
    push_name(net, text, copy.from)?;
    text.push(b'\n')?;
    Ok(())
}

fn push_copy(
    net: &Net<'_>,
    text: &mut Vec<u8>,
    mlid: u16,
    copy: Option<SecondCopy>,
) -> Result<(), AllocError>
    ensures { OnOk result (text.new.items ≡ text.old.items ++ copy_line net.now mlid copy) }
{
    match copy {
        Some(copy) => push_copy_text(net, text, mlid, copy),
        None => Ok(()),
    }
}

/// The port at the other end of the cable of this one.
fn end_behind(net: &Net<'_>, at: PortRef) -> PortRef
    ensures { result ≡ end_behind net.now at }
{
    match net.links().far_end(at) {
        Some(end) => end,
        None => at,
    }
}

#[tactic(auto, unfolding(crate::specs::Lines::cut_words))]
fn push_cut_words(net: &Net<'_>, text: &mut Vec<u8>, mlid: u16, cut: Cut) -> Result<(), AllocError>
    ensures { OnOk result (text.new.items ≡ text.old.items ++ cut_words net.now mlid cut) }
{
    text.extend_from_slice(b"multicast cut ")?;
    push_mlid(text, mlid)?;
    text.extend_from_slice(b" ")?;
    push_port(net, text, end_behind(net, cut.at))
}

#[tactic(auto, unfolding(crate::specs::Lines::cut_text))]
fn push_cut_text(net: &Net<'_>, text: &mut Vec<u8>, mlid: u16, cut: Cut) -> Result<(), AllocError>
    ensures { OnOk result (text.new.items ≡ text.old.items ++ cut_text net.now mlid cut) }
{
    push_cut_words(net, text, mlid, cut)?;
    text.extend_from_slice(b" from ")?;
    push_port(net, text, end_behind(net, cut.from))?;
    text.extend_from_slice(b", and ")?;
    push_decimal(text, cut.more)?;
    text.extend_from_slice(b" more\n")
}

fn push_cut(
    net: &Net<'_>,
    text: &mut Vec<u8>,
    mlid: u16,
    cut: Option<Cut>,
) -> Result<(), AllocError>
    ensures { OnOk result (text.new.items ≡ text.old.items ++ cut_line net.now mlid cut) }
{
    match cut {
        Some(cut) => push_cut_text(net, text, mlid, cut),
        None => Ok(()),
    }
}

fn push_found(net: &Net<'_>, text: &mut Vec<u8>, found: &Found) -> Result<(), AllocError>
    ensures { OnOk result (text.new.items ≡ text.old.items ++ found_lines net.now found.now) }
{
    push_loop(net, text, found.mlid, &found.ring)?;
    push_copy(net, text, found.mlid, found.copy)?;
    push_cut(net, text, found.mlid, found.cut)
}

fn push_all_found(net: &Net<'_>, text: &mut Vec<u8>, all: &[Found]) -> Result<(), AllocError>
    ensures { OnOk result (text.new.items ≡ text.old.items ++ flat_map (found_lines net.now) all.now) }
{
    for found in all {
        push_found(net, text, found)?;
    }
    Ok(())
}

fn ring_count(all: &[Found]) -> usize
    ensures { result ≡ count_by has_ring all.now }
{
    all.iter().filter(|found| found.has_ring()).count()
}

fn copy_count(all: &[Found]) -> usize
    ensures { result ≡ count_by has_copy all.now }
{
    all.iter().filter(|found| found.has_copy()).count()
}

fn cut_count(all: &[Found]) -> usize
    ensures { result ≡ count_by has_cut all.now }
{
    all.iter().filter(|found| found.has_cut()).count()
}

fn push_mlids_words(text: &mut Vec<u8>, all: &[Found]) -> Result<(), AllocError>
    ensures { OnOk result (text.new.items ≡ text.old.items ++ mlids_words all.now) }
{
    text.extend_from_slice(b"multicast: ")?;
    push_decimal(text, all.len())?;
    text.extend_from_slice(b" MLIDs, ")?;
    Ok(())
}

fn push_found_words(text: &mut Vec<u8>, all: &[Found]) -> Result<(), AllocError>
    ensures { OnOk result (text.new.items ≡ text.old.items ++ found_words all.now) }
{
    push_decimal(text, ring_count(all))?;
    text.extend_from_slice(b" with a loop, ")?;
    push_decimal(text, copy_count(all))?;
    text.extend_from_slice(b" with copies, ")?;
    push_decimal(text, cut_count(all))?;
    text.extend_from_slice(b" cut\n")?;
    Ok(())
}

#[tactic(auto, unfolding(crate::specs::Lines::mlids_line))]
fn push_mlids(text: &mut Vec<u8>, all: &[Found]) -> Result<(), AllocError>
    ensures { OnOk result (text.new.items ≡ text.old.items ++ mlids_line all.now) }
{
    push_mlids_words(text, all)?;
    push_found_words(text, all)
}

#[tactic(auto, unfolding(crate::specs::Lines::members_line))]
fn push_members(text: &mut Vec<u8>) -> Result<(), AllocError>
    ensures { OnOk result (text.new.items ≡ text.old.items ++ members_line) }
{
    text.extend_from_slice(
        b"# multicast: a member to which no mask leads is unknown, since MFTs do not say who is a member\n",
    )
}

/// Adds all lines on multicast except the verdict.
#[tactic(auto, unfolding(crate::specs::Lines::multicast_lines))]
pub(crate) fn push_multicast(
    net: &Net<'_>,
    text: &mut Vec<u8>,
    mfts: &Mfts,
    all: &[Found],
) -> Result<(), AllocError>
    ensures { OnOk result (text.new.items ≡ text.old.items ++ multicast_lines net.now mfts.now.tables all.now) }
{
    push_no_mfts(net, text, mfts)?;
    push_strange_mfts(net, text, mfts.tables())?;
    push_masks(net, text, mfts)?;
    push_all_found(net, text, all)?;
    push_mlids(text, all)?;
    push_members(text)
}
