//! Rows and records of which lines are still to come.

ghost use Rattle.std.specs.Prelude.{◌≡◌, ◌++◌, [], ◌∷◌, None, true, IfOk, OnErr, OnOk};
ghost use Rattle.step_results.specs.Gives.{LineGives};
ghost use Rattle.sl2vl_file.specs.Lanes.{closed, nothing, row_reported, with_path};
ghost use Rattle.sl2vl_file.specs.Rows.{place_of};
ghost use Rattle.sl2vl_file.specs.Sound.{has_low_sl, is_low_sl, is_low_stage, is_whole_row};

use crate::fault::LanesCause;
use crate::path::PathSl;
use crate::row::{LaneRow, row_in};
use crate::rows::LaneRowList;
use crate::stage::Stage;
use std::alloc::{AllocError, Global};
use std::marker::Model;
use step_results::LineError;

/// What the lines so far report.
#[derive(Drop)]
pub(crate) struct Draft {
    pub(crate) rows: LaneRowList,
    pub(crate) paths: Vec<PathSl>,
    pub(crate) stage: Stage,
}

impl Model for Draft {
    ghost use Rattle.sl2vl_file.specs.Lanes.{DraftState};
    ghost use Rattle.sl2vl_file.specs.Sound.{IsSoundSoFar};

    ghost Value = { DraftState };

    ghost view = { λ draft. record { rows = draft.rows; paths = draft.paths.items; stage = draft.stage } };

    ghost invariant = { λ draft. IsSoundSoFar (record { rows = draft.rows; paths = draft.paths.items; stage = draft.stage }) };
}

impl Draft {
    pub(crate) fn new(alloc: Global) -> Draft
        ensures { result ≡ nothing }
    {
        Draft {
            rows: LaneRowList::new(alloc),
            paths: Vec::new(alloc),
            stage: Stage::Outside,
        }
    }

    /// The row that a line reports, of the table of this LID, which has no other for its ports.
    #[tactic(auto, unfolding(crate::specs::Lanes::row_reported))]
    pub(crate) fn row_reported(
        &self,
        alloc: Global,
        number: usize,
        lid: u16,
        text: &[u8],
    ) -> Result<LaneRow, LineError<LanesCause>>
        ensures value { LineGives (λ row. row) result (row_reported number lid self.now.rows text.now) }
        ensures new { IfOk result (λ row. place_of row.lid row.input row.output self.now.rows ≡ None) }
        ensures whole { IfOk result (λ row. is_whole_row row ≡ true) }
    {
        let row = row_in(alloc, number, lid, text)?;
        if self.rows.place_of(row.lid, row.input, row.output).is_some() {
            return Err(LineError::Fault(LanesCause::DuplicateRow));
        }
        Ok(row)
    }

    /// Adds a row. It can only run out of memory, and then all stays as it was.
    pub(crate) fn push_row(&mut self, row: LaneRow) -> Result<(), AllocError>
        requires new { place_of row.lid row.input row.output self.old.rows ≡ None }
        requires whole { is_whole_row row ≡ true }
        ensures ok { OnOk result (self.new ≡ record self.old { rows = self.old.rows ++ row ∷ [] }) }
        ensures err { OnErr result (self.new ≡ self.old) }
    {
        self.rows.push(row)?;
        Ok(())
    }

    /// Adds what a record says that has ended. It can only run out of memory, and then all stays as it was.
    fn push_path(&mut self, path: PathSl) -> Result<(), AllocError>
        requires low { is_low_sl path ≡ true }
        ensures ok { OnOk result (self.new ≡ record self.old { paths = self.old.paths ++ path ∷ []; stage = Stage.Outside }) }
        ensures err { OnErr result (self.new ≡ self.old) }
    {
        self.paths.push(path)?;
        self.stage = Stage::Outside;
        Ok(())
    }

    /// Ends the record that is open, if one is. It can only run out of memory, and then all stays as it was.
    pub(crate) fn close(&mut self) -> Result<(), AllocError>
        ensures ok { OnOk result (self.new ≡ closed self.old) }
        ensures err { OnErr result (self.new ≡ self.old) }
    {
        let Stage::Record(fields) = self.stage else {
            return Ok(());
        };
        match fields.path() {
            Some(path) => self.push_path(path),
            None => {
                self.stage = Stage::Lacking(fields.line);
                Ok(())
            }
        }
    }
}
