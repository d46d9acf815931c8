//! The reader of a whole text.

ghost use Rattle.std.specs.Prelude.{◌≡◌, true, IfOk};
ghost use Rattle.step_results.specs.Gives.{LineGives};
ghost use Rattle.step_results.specs.TextGives.{TextGives};
ghost use Rattle.sl2vl_file.specs.Lanes.{after_judged, after_line, after_text, closed, is_record_heading, is_table_heading, is_unanswered, lanes_of, opened, row_reported, table_by_lid, table_in};
ghost use Rattle.sl2vl_file.specs.Lanes.{whole, with_fields, with_row};
ghost use Rattle.sl2vl_file.specs.Path.{fields_reported};
ghost use Rattle.sl2vl_file.specs.Sound.{IsSound, has_low_sl, is_low_stage};

use crate::draft::Draft;
use crate::fault::{LanesCause, LanesFault};
use crate::lanes::Lanes;
use crate::parts::{behind, lid_in};
use crate::path::PathFields;
use crate::stage::Stage;
use dump_file::is_passed_over;
use std::alloc::Global;
use step_results::LineError;
use text_words::{LineReader, is_failure, read_lines, trimmed};

fn is_table_heading(text: &[u8]) -> bool
    ensures { result ≡ is_table_heading text.now }
{
    text.starts_with(b"# SL2VL table:")
}

#[tactic(auto, unfolding(crate::specs::Lanes::table_by_lid))]
fn table_by_lid(text: &[u8]) -> Result<Stage, LanesCause>
    ensures value { result ≡ table_by_lid text.now }
    ensures low { IfOk result (λ stage. is_low_stage stage ≡ true) }
{
    let word = behind(b"# SL2VL table: Lid ", text)?;
    let lid = lid_in(word)?;
    Ok(Stage::Table(lid))
}

/// The table that a heading begins.
fn table_in(text: &[u8]) -> Result<Stage, LanesCause>
    ensures value { result ≡ table_in text.now }
    ensures low { IfOk result (λ stage. is_low_stage stage ≡ true) }
{
    if text.starts_with(b"# SL2VL table: DR path ") {
        return Err(LanesCause::DirectedRoute);
    }
    table_by_lid(text)
}

fn is_record_heading(text: &[u8]) -> bool
    ensures { result ≡ is_record_heading text.now }
{
    text == b"PathRecord dump:".as_slice()
}

impl Draft {
    /// Ends the record that is open, and begins what a heading does.
    fn take_heading(
        &mut self,
        heading: Result<Stage, LanesCause>,
    ) -> Result<(), LineError<LanesCause>>
        requires low { IfOk heading (λ stage. is_low_stage stage ≡ true) }
        ensures { LineGives (λ _. self.new) result (opened (closed self.old) heading) }
    {
        self.close()?;
        if self.stage.is_lacking() {
            return Ok(());
        }
        let stage = heading?;
        self.stage = stage;
        Ok(())
    }

    fn take_row(
        &mut self,
        alloc: Global,
        number: usize,
        lid: u16,
        text: &[u8],
    ) -> Result<(), LineError<LanesCause>>
        ensures { LineGives (λ _. self.new) result (with_row self.old (row_reported number lid self.old.rows text.now)) }
    {
        let row = self.row_reported(alloc, number, lid, text)?;
        self.push_row(row)?;
        Ok(())
    }

    fn take_field(&mut self, fields: PathFields, text: &[u8]) -> Result<(), LineError<LanesCause>>
        requires low { has_low_sl fields ≡ true }
        ensures { LineGives (λ _. self.new) result (with_fields self.old (fields_reported fields text.now)) }
    {
        let fields = fields.reported(text)?;
        self.stage = Stage::Record(fields);
        Ok(())
    }

    fn take_text(
        &mut self,
        alloc: Global,
        number: usize,
        text: &[u8],
    ) -> Result<(), LineError<LanesCause>>
        ensures { LineGives (λ _. self.new) result (after_text self.old.stage number self.old text.now) }
    {
        match self.stage {
            Stage::Table(lid) => self.take_row(alloc, number, lid, text),
            Stage::Record(fields) => self.take_field(fields, text),
            _ => Err(LineError::Fault(LanesCause::Malformed)),
        }
    }

    /// Whether a query failed here, and no record is open that still lacks a field.
    fn is_unanswered(&self, text: &[u8]) -> bool
        ensures { result ≡ is_unanswered self.now.stage text.now }
    {
        is_failure(text) && self.stage.has_all()
    }

    #[tactic(auto, unfolding(crate::specs::Lanes::after_judged))]
    fn take_judged(
        &mut self,
        alloc: Global,
        number: usize,
        text: &[u8],
    ) -> Result<(), LineError<LanesCause>>
        ensures { LineGives (λ _. self.new) result (after_judged number self.old text.now) }
    {
        if is_table_heading(text) {
            return self.take_heading(table_in(text));
        }
        if is_record_heading(text) {
            return self.take_heading(Ok(Stage::Record(PathFields::new(number))));
        }
        if is_passed_over(text) || self.is_unanswered(text) {
            return Ok(());
        }
        self.take_text(alloc, number, text)
    }

    /// What was printed, if the last record lacks nothing and there is something.
    #[tactic(auto, unfolding(crate::specs::Lanes::whole))]
    fn finish(mut self) -> Result<Lanes, LanesFault>
        ensures { TextGives (λ lanes. lanes) result (whole self) }
    {
        self.close()?;
        if let Stage::Lacking(line) = self.stage {
            return Err(LanesFault::At {
                line,
                cause: LanesCause::MissingField,
            });
        }
        if self.rows.as_slice().is_empty() && self.paths.is_empty() {
            return Err(LanesFault::At {
                line: 0,
                cause: LanesCause::Empty,
            });
        }
        Ok(Lanes {
            rows: self.rows,
            paths: self.paths,
        })
    }
}

impl LineReader for Draft {
    type Cause = LanesCause;

    ghost after_line = { after_line };

    #[tactic(auto, unfolding(crate::specs::Lanes::after_line))]
    fn take_line(
        &mut self,
        alloc: Global,
        number: usize,
        line: &[u8],
    ) -> Result<(), LineError<LanesCause>> {
        if self.stage.is_lacking() {
            return Ok(());
        }
        self.take_judged(alloc, number, trimmed(line))
    }
}

/// What a text of `smpquery sl2vl` and `saquery PR` reports, or its first fault with the line.
///
/// Lines are judged in turn, each after those before it; `specs/Lanes.antt` says how. Time is linear in the length of
/// the text.
///
/// Tables and path records may come in any order. A table goes on up to the next heading, so that rows of one LID may
/// stand under several headings. Passed over are lines with nothing on them, and lines that begin with `#` and are no
/// heading. If a line ends in blanks, or in CR LF, these do not count.
///
/// A query that fails prints `smpquery: iberror: failed: ..`, which is passed over too, except in a path record that still lacks its
/// SLID, DLID or SL.
#[tactic(auto, unfolding(crate::specs::Lanes::lanes_of))]
pub fn read(alloc: Global, text: &[u8]) -> Result<Lanes, LanesFault>
    // What the text reports, or its first fault.
    ensures exact { TextGives (λ lanes. lanes) result (lanes_of text.now) }
    // No LID has two rows for the same ports, each row has 16 VLs up to 15, and no SL is above 15.
    ensures sound { IfOk result (λ lanes. IsSound lanes) }
{
    let draft = read_lines(alloc, text, Draft::new(alloc))?;
    let lanes = draft.finish()?;
    lanes.known_sound();
    Ok(lanes)
}
