//! Tables of which lines are still to come.

ghost use Rattle.std.specs.Prelude.{◌≡◌, ◌++◌, None, true, IfOk, OnErr, OnOk, [], ◌∷◌};
ghost use Rattle.step_results.specs.Gives.{LineGives};
ghost use Rattle.mft_file.specs.Mfts.{are_counted, broken_off, count_reported, heading_of, heading_reported, new_heading, nothing, row_reported, with_rows};
ghost use Rattle.mft_file.specs.Row.{may_follow};
ghost use Rattle.mft_file.specs.Sound.{may_take};
ghost use Rattle.mft_file.specs.Table.{place_of};

use crate::fault::MftCause;
use crate::heading::{Heading, heading_in};
use crate::parts::{count_in, cut};
use crate::row::{MaskRow, may_follow, row_in};
use crate::stage::MftStage;
use crate::table::MaskTableList;
use std::alloc::{AllocError, Global};
use std::marker::Model;
use step_results::LineError;

/// What the lines so far report.
#[derive(Drop)]
pub(crate) struct Draft {
    pub(crate) tables: MaskTableList,
    pub(crate) stage: MftStage,
    // Of the table that is open.
    pub(crate) rows: Vec<MaskRow>,
}

impl Model for Draft {
    ghost use Rattle.mft_file.specs.Mfts.{DraftState};
    ghost use Rattle.mft_file.specs.Sound.{IsSoundSoFar};

    ghost Value = { DraftState };

    ghost view = { λ draft. record { tables = draft.tables; stage = draft.stage; rows = draft.rows.items } };

    ghost invariant = { λ draft. IsSoundSoFar (record { tables = draft.tables; stage = draft.stage; rows = draft.rows.items }) };
}

impl Draft {
    pub(crate) fn new(alloc: Global) -> Draft
        ensures { result ≡ nothing }
    {
        Draft {
            tables: MaskTableList::new(alloc),
            stage: MftStage::Between,
            rows: Vec::new(alloc),
        }
    }

    /// Judges a heading against the tables before it.
    fn new_heading(&self, heading: Heading) -> Result<Heading, MftCause>
        ensures value { result ≡ new_heading self.now heading }
        ensures new { IfOk result (λ reported. place_of reported.guid self.now.tables ≡ None) }
    {
        if self.tables.place_of(heading.guid).is_some() {
            return Err(MftCause::DuplicateTable);
        }
        Ok(heading)
    }

    /// The heading that a line reports, of a switch that has no table yet.
    #[tactic(auto, unfolding(crate::specs::Mfts::heading_reported))]
    pub(crate) fn heading_reported(&self, number: usize, text: &[u8]) -> Result<Heading, MftCause>
        ensures value { result ≡ heading_reported number self.now text.now }
        ensures new { IfOk result (λ reported. place_of reported.guid self.now.tables ≡ None) }
    {
        let heading = heading_in(number, text)?;
        self.new_heading(heading)
    }

    /// The row that a line reports, of the table that is open.
    #[tactic(auto, unfolding(crate::specs::Mfts::row_reported))]
    pub(crate) fn row_reported(
        &self,
        alloc: Global,
        heading: Heading,
        text: &[u8],
    ) -> Result<MaskRow, LineError<MftCause>>
        ensures value { LineGives (λ row. row) result (row_reported self.now heading text.now) }
        ensures rising { IfOk result (λ reported. may_follow heading.top self.now.rows reported.mlid ≡ true) }
    {
        let row = row_in(alloc, heading.columns, text)?;
        if !may_follow(heading, self.rows.as_slice(), row.mlid) {
            return Err(LineError::Fault(MftCause::WrongMlid));
        }
        Ok(row)
    }

    /// Adds a row to the table that is open. It can only run out of memory, and then all stays as it was.
    pub(crate) fn push(&mut self, row: MaskRow) -> Result<(), AllocError>
        requires open { may_take (heading_of self.old.stage) self.old.rows row ≡ true }
        ensures ok { OnOk result (self.new ≡ with_rows self.old (self.old.rows ++ row ∷ [])) }
        ensures err { OnErr result (self.new ≡ self.old) }
    {
        self.rows.reserve(1)?;
        self.rows.push(row)?;
        Ok(())
    }

    /// Breaks off the table that is open, if one is.
    pub(crate) fn break_off(&mut self, alloc: Global)
        ensures { self.new ≡ broken_off self.old }
    {
        self.rows = Vec::new(alloc);
        self.stage = MftStage::Between;
    }
}

fn are_counted(words: &[u8]) -> bool
    ensures { result ≡ are_counted words.now }
{
    words == b"valid mlids dumped".as_slice() || words == b"mlids dumped".as_slice()
}

/// What the last line of a table counts, if there are as many rows.
#[tactic(auto, unfolding(crate::specs::Mfts::count_reported))]
pub(crate) fn count_reported(rows: &[MaskRow], text: &[u8]) -> Result<u128, MftCause>
    ensures { result ≡ count_reported rows.now text.now }
{
    let (number, words) = cut(b' ', text)?;
    let number = count_in(number)?;
    if !are_counted(words) {
        return Err(MftCause::Malformed);
    }
    if number != rows.len() as u128 {
        return Err(MftCause::WrongCount);
    }
    Ok(number)
}
