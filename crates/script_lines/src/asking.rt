//! The fields that a line asks by.

ghost use Rattle.std.specs.Prelude.{◌≡◌, length};
ghost use Rattle.mad_layout.specs.Layout.{Fits};
ghost use Rattle.sa_records.specs.SaRecord.{RecordFits, attribute_of};
ghost use Rattle.sa_records.specs.ServiceRecord.{service_fields};
ghost use Rattle.script_lines.specs.Ask.{name_bytes, named_as, named_in, numbered, service_named};
ghost use Rattle.script_lines.specs.Asking.{AsksToo, IfService, ServiceFits, asked_in};
ghost use Rattle.script_lines.specs.EncodedBytes.{written_in};

use crate::encoded_bytes::{encoded, written_in};
use crate::script_cause::ScriptCause;
use mad_layout::{SaMad, known_bytes};
use sa_records::{SaAttribute, SaRecord, ServiceRecord};
use text_words::{Words, cut_at, number_in};

/// How many bytes ServiceName has.
const NAME_BYTES: usize = 64;

/// What is asked by the fields that these words name.
pub(crate) fn asked_in(attribute: SaAttribute, words: Words<'_>) -> Result<SaMad, ScriptCause>
    ensures { result ≡ asked_in attribute words.entry }
{
    let mut component_mask = 0;
    let mut asked = SaRecord::blank(attribute);
    for word in words {
        let bits = ask_by_word(&mut asked, word).ok_or(ScriptCause::BadField)?;
        if component_mask & bits != 0 {
            return Err(ScriptCause::BadField);
        }
        component_mask |= bits;
    }
    Ok(SaMad {
        sm_key: 0,
        attribute_offset: 0,
        component_mask,
        data: asked.data(),
    })
}

/// Asks by the field that a word FIELD=VALUE names, and gives its bits of the ComponentMask; none, and nothing is set,
/// if it names none.
#[tactic(auto, unfolding(crate::specs::Ask::named_in))]
fn ask_by_word(asked: &mut SaRecord, word: &[u8]) -> Option<u64>
    requires { RecordFits asked.now }
    ensures { AsksToo (named_in (attribute_of asked.old) word.now) asked.old asked.new result }
{
    let (field, value) = cut_at(b'=', word)?;
    ask_by_value(asked, field, value)
}

fn ask_by_value(asked: &mut SaRecord, field: &[u8], value: &[u8]) -> Option<u64>
    requires { RecordFits asked.now }
    ensures { AsksToo (named_as (attribute_of asked.old) field.now value.now) asked.old asked.new result }
{
    if field == b"name".as_slice() {
        ask_by_name(asked, value)
    } else {
        ask_by_number(asked, field, number_in(value)?)
    }
}

fn ask_by_name(asked: &mut SaRecord, value: &[u8]) -> Option<u64>
    requires { RecordFits asked.now }
    ensures { AsksToo (service_named (attribute_of asked.old) value.now) asked.old asked.new result }
{
    let name = name_bytes(value).ok()?;
    known_service(asked);
    known_bytes(&name);
    asked.ask_by_name(&name)
}

fn ask_by_number(asked: &mut SaRecord, field: &[u8], value: u128) -> Option<u64>
    requires { RecordFits asked.now }
    ensures { AsksToo (numbered (attribute_of asked.old) field.now value) asked.old asked.new result }
{
    known_service(asked);
    asked.ask_by(field, value)
}

/// Says what the types of a service's fields say of their values. It does nothing.
fn known_service(asked: &SaRecord)
    ensures { IfService asked.now }
{
    if let SaRecord::Service(service) = asked {
        known_fields(service);
    }
}

fn known_fields(service: &ServiceRecord)
    ensures { ServiceFits service.now }
{
    known_numbers(service);
    known_bytes(&service.service_name);
    known_bytes(&service.service_data);
}

fn known_numbers(service: &ServiceRecord)
    ensures numbers { Fits (service_fields service.now) }
    ensures name { length service.now.service_name ≡ 64 }
    ensures data { length service.now.service_data ≡ 64 }
{
    // A number that is read is known to fit its type.
    let _id = service.service_id;
    let _gid = service.service_gid;
    let _p_key = service.service_p_key;
    let _lease = service.service_lease;
    let _key = service.service_key;
}

/// The bytes of ServiceName, as `N:HEX` writes them.
fn name_bytes(value: &[u8]) -> Result<[u8; NAME_BYTES], ScriptCause>
    ensures { result ≡ name_bytes (written_in value.now) }
{
    match written_in(value) {
        Some(shown) if shown.size <= NAME_BYTES as u128 => encoded(
            shown.size as usize,
            shown.digits,
        ),
        _ => Err(ScriptCause::BadField),
    }
}
