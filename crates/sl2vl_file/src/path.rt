//! Path records.

ghost use Rattle.std.specs.Prelude.{◌≡◌, option_copied, option_map, true, IfOk, IfSome};
ghost use Rattle.sl2vl_file.specs.Path.{field_in, field_of, fields_reported, no_fields, path_of, value_of, with_field};
ghost use Rattle.sl2vl_file.specs.Sound.{has_low_sl, is_low_field, is_low_sl};

use crate::fault::LanesCause;
use crate::parts::{behind, lid_in, sl_in};

/// What a path record says: packets from the one LID to the other have this SL (service level).
#[derive(Clone, Copy, Debug)]
pub struct PathSl {
    /// The SLID.
    pub source: u16,
    /// The DLID.
    pub destination: u16,
    /// The SL, at most 15.
    pub sl: u8,
}

/// What a line of a record says.
#[derive(Clone, Copy)]
pub(crate) enum Field {
    /// The SLID.
    Source(u16),
    /// The DLID.
    Destination(u16),
    /// The SL.
    Sl(u8),
    /// What is not asked for.
    Other,
}

/// A record of which lines are still to come: what it says so far.
#[derive(Clone, Copy)]
pub(crate) struct PathFields {
    /// The line of its heading.
    pub(crate) line: usize,
    pub(crate) source: Option<u16>,
    pub(crate) destination: Option<u16>,
    pub(crate) sl: Option<u8>,
}

/// The value of the field of this name, if the field is that.
fn value_of<'a>(name: &[u8], text: &'a [u8]) -> Option<&'a [u8]>
    ensures { option_map (λ value. value.now) result ≡ value_of name.now text.now }
{
    text.strip_prefix(name)
}

/// The field that has one of these values.
fn field_of(
    slid: Option<&[u8]>,
    dlid: Option<&[u8]>,
    sl: Option<&[u8]>,
) -> Result<Field, LanesCause>
    ensures value { result ≡ field_of (option_copied slid.entry) (option_copied dlid.entry) (option_copied sl.entry) }
    ensures low { IfOk result (λ field. is_low_field field ≡ true) }
{
    match (slid, dlid, sl) {
        (Some(word), _, _) => {
            let lid = lid_in(word)?;
            Ok(Field::Source(lid))
        }
        (None, Some(word), _) => {
            let lid = lid_in(word)?;
            Ok(Field::Destination(lid))
        }
        (None, None, Some(word)) => {
            let sl = sl_in(word)?;
            Ok(Field::Sl(sl))
        }
        (None, None, None) => Ok(Field::Other),
    }
}

/// The field that a line reports.
#[tactic(auto, unfolding(crate::specs::Path::field_in))]
fn field_in(text: &[u8]) -> Result<Field, LanesCause>
    ensures value { result ≡ field_in text.now }
    ensures low { IfOk result (λ field. is_low_field field ≡ true) }
{
    let field = behind(b"\t\t", text)?;
    field_of(
        value_of(b"slid....................", field),
        value_of(b"dlid....................", field),
        value_of(b"sl......................", field),
    )
}

impl PathFields {
    /// A record before its first field.
    pub(crate) fn new(line: usize) -> PathFields
        ensures { result ≡ no_fields line }
    {
        PathFields {
            line,
            source: None,
            destination: None,
            sl: None,
        }
    }

    /// The record with one more field.
    fn with_field(self, field: Field) -> Result<PathFields, LanesCause>
        requires low { has_low_sl self ≡ true }
        requires low_field { is_low_field field ≡ true }
        ensures value { result ≡ with_field self field }
        ensures low { IfOk result (λ fields. has_low_sl fields ≡ true) }
    {
        let mut fields = self;
        match field {
            Field::Source(lid) if self.source.is_none() => fields.source = Some(lid),
            Field::Destination(lid) if self.destination.is_none() => {
                fields.destination = Some(lid);
            }
            Field::Sl(sl) if self.sl.is_none() => fields.sl = Some(sl),
            Field::Other => {}
            _ => return Err(LanesCause::DuplicateField),
        }
        Ok(fields)
    }

    /// The record with the field that a line reports.
    #[tactic(auto, unfolding(crate::specs::Path::fields_reported))]
    pub(crate) fn reported(self, text: &[u8]) -> Result<PathFields, LanesCause>
        requires low { has_low_sl self ≡ true }
        ensures value { result ≡ fields_reported self text.now }
        ensures low { IfOk result (λ fields. has_low_sl fields ≡ true) }
    {
        let field = field_in(text)?;
        self.with_field(field)
    }

    /// What the record says, if it lacks nothing.
    pub(crate) fn path(self) -> Option<PathSl>
        requires low { has_low_sl self ≡ true }
        ensures value { result ≡ path_of self }
        ensures low { IfSome result (λ path. is_low_sl path ≡ true) }
    {
        match (self.source, self.destination, self.sl) {
            (Some(source), Some(destination), Some(sl)) => Some(PathSl {
                source,
                destination,
                sl,
            }),
            _ => None,
        }
    }
}
