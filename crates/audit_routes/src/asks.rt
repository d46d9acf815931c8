//! What to ask switches whose entries the dump leaves out.

ghost use Rattle.std.specs.Prelude.{◌≡◌, ◌++◌, OnOk, option_map};
ghost use Rattle.std.specs.List.{list_any};
ghost use Rattle.audit_net.specs.Net.{has_table};
ghost use Rattle.audit_routes.specs.Asks.{ask_line, ask_text, asks_by, is_own, is_to_ask, lacks_row, may_lack_rows, own_lid};

use crate::lines::is_fed;
use crate::verdict::is_unknown;
use audit_net::{Aim, Net, is_wide};
use audit_plan::ports_at;
use fabric_parts::PortRef;
use std::alloc::AllocError;
use text_words::push_decimal;

fn is_own(place: usize, aim: &Aim) -> bool
    ensures { result ≡ is_own place aim.now }
{
    match aim.end {
        Some(end) => {
            end == PortRef {
                node: place,
                port: 0,
            }
        }
        None => false,
    }
}

/// The LID of the switch there.
fn own_lid(aims: &[Aim], place: usize) -> Option<u16>
    ensures { result ≡ own_lid aims.now place }
{
    match aims.iter().find(|aim| is_own(place, aim)) {
        Some(aim) => Some(aim.lid),
        None => None,
    }
}

fn lacks_row(net: &Net<'_>, place: usize, aim: &Aim) -> bool
    ensures { result ≡ lacks_row net.now place aim.now }
{
    let aim = *aim;
    is_unknown(net.turn(aim.lid, place)) && (aim.end.is_some() || is_fed(net, place, aim.lid))
}

/// Whether `dump_fts` may have left out rows of the switch there.
fn may_lack_rows(net: &Net<'_>, place: usize) -> bool
    ensures { result ≡ may_lack_rows net.now place }
{
    is_wide(ports_at(net.plan().nodes(), place)) && net.table_at(place).is_some()
}

fn some_lack_rows(net: &Net<'_>, aims: &[Aim], place: usize) -> bool
    ensures { result ≡ list_any (lacks_row net.now place) aims.now }
{
    aims.iter().any(|aim| lacks_row(net, place, aim))
}

fn is_to_ask(net: &Net<'_>, aims: &[Aim], place: usize) -> bool
    ensures { result ≡ is_to_ask net.now aims.now place }
{
    may_lack_rows(net, place) && some_lack_rows(net, aims, place)
}

fn push_ask_text(text: &mut Vec<u8>, lid: u16) -> Result<(), AllocError>
    ensures { OnOk result (text.new.items ≡ text.old.items ++ ask_text lid) }
{
    text.extend_from_slice(b"# ask: ibroute ")?;
    push_decimal(text, usize::from(lid))?;
    text.extend_from_slice(b", and append its table to the dump\n")?;
    Ok(())
}

fn push_ask(net: &Net<'_>, text: &mut Vec<u8>, aims: &[Aim], place: usize) -> Result<(), AllocError>
    ensures { OnOk result (text.new.items ≡ text.old.items ++ ask_line net.now aims.now place) }
{
    if !is_to_ask(net, aims, place) {
        return Ok(());
    }
    match own_lid(aims, place) {
        Some(lid) => push_ask_text(text, lid),
        None => Ok(()),
    }
}

/// Adds what to ask each switch whose entries the dump leaves out.
pub(crate) fn push_asks(net: &Net<'_>, text: &mut Vec<u8>, aims: &[Aim]) -> Result<(), AllocError>
    ensures { OnOk result (text.new.items ≡ text.old.items ++ asks_by net.now aims.now) }
{
    for place in net.switches() {
        push_ask(net, text, aims, *place)?;
    }
    Ok(())
}
