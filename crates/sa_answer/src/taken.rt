//! What a walk over records takes: the only one of them, or all.

ghost use Rattle.std.specs.Prelude.{◌≡◌, ◌≤◌, [], ◌∷◌, length, List, None, IfOk};
ghost use Rattle.sa_model.specs.Outcome.{the_only_one};
ghost use Rattle.sa_model.specs.Shown.{Entry};
ghost use Rattle.sa_model.specs.Visible.{SaState};
ghost use Rattle.sa_replies.specs.Answer.{one_record};
ghost use Rattle.sa_replies.specs.Success.{Success as Brought};
ghost use Rattle.std.specs.Prelude.{Ok};
ghost use Rattle.std.specs.List.{flat_map};
ghost use Rattle.sa_records.specs.SaRecord.{record_bytes};
ghost use Rattle.sa_answer.specs.Answering.{Brings};
ghost use Rattle.sa_answer.specs.Replying.{padded};
ghost use Rattle.sa_answer.specs.Taken.{IsTable, Walks, bytes_of};
ghost use Rattle.sa_answer.specs.declared.taken.Taken.TheVariants.{One};

use crate::outcome::{Outcome, Success};
use mad_layout::{MadStatus, SA_DATA_BYTES};
use std::alloc::AllocError;

/// What a walk took so far.
#[derive(Drop)]
pub(crate) enum Taken {
    /// The only record, as the data of a reply, if there was one.
    One(Option<[u8; SA_DATA_BYTES]>),
    /// The bytes of all.
    All(Vec<u8>),
}

/// A walk stopped: at a second record if one alone is taken, or as an allocation failed if all are.
#[derive(Clone, Copy)]
pub(crate) struct Stopped;

impl Taken {
    /// Takes the record of these bytes besides.
    pub(crate) fn take(&mut self, bytes: &[u8]) -> Result<(), Stopped>
        requires { length bytes.now ≤ 200 }
        ensures { Walks (bytes.now ∷ []) self.old self.new result }
    {
        match self {
            Taken::One(found) => {
                if found.is_some() {
                    return Err(Stopped);
                }
                *found = Some(data_with(bytes));
                Ok(())
            }
            Taken::All(all) => match all.extend_from_slice(bytes) {
                Ok(()) => Ok(()),
                Err(_) => Err(Stopped),
            },
        }
    }
}

/// The data of a MAD that begins with these bytes.
fn data_with(bytes: &[u8]) -> [u8; SA_DATA_BYTES]
    requires { length bytes.now ≤ 200 }
    ensures { result ≡ padded bytes.now }
{
    let mut data = [0; SA_DATA_BYTES];
    data[..bytes.len()].copy_from_slice(bytes);
    data
}

/// What comes of a Get, after a walk that ended so with the only record.
pub(crate) fn got_by(taken: Taken, walked: Result<(), Stopped>) -> Outcome
    ensures { (state : SaState) (entries : List Entry) → Walks (bytes_of entries) (One None) taken walked
        → Brings state (one_record state (the_only_one entries)) result }
{
    match walked {
        Ok(()) => match taken {
            Taken::One(Some(data)) => Ok(Success::Reply(data)),
            _ => Err(MadStatus::NoRecords),
        },
        Err(_) => Err(MadStatus::TooManyRecords),
    }
}

/// What comes of a GetTable, after a walk that ended so with all records, each in so many units of 8 bytes.
pub(crate) fn table_by(
    taken: Taken,
    walked: Result<(), Stopped>,
    spacing: u16,
) -> Result<Outcome, AllocError>
    ensures { (state : SaState) (entries : List Entry) → IsTable (bytes_of entries) taken walked
        → IfOk result (Brings state (Ok (Brought.whole_table spacing (flat_map (λ entry. record_bytes entry.shown) entries)))) }
{
    match walked {
        Ok(()) => match taken {
            Taken::All(bytes) => Ok(Ok(Success::Table { spacing, bytes })),
            Taken::One(_) => Err(AllocError),
        },
        Err(_) => Err(AllocError),
    }
}
