//! The reader of a whole text.

ghost use Rattle.std.specs.Prelude.{◌≡◌, Some, None, Ok, IfOk, true};
ghost use Rattle.step_results.specs.Gives.{LineGives};
ghost use Rattle.step_results.specs.TextGives.{TextGives};
ghost use Rattle.text_streams.specs.Reading.{IsEndless};
ghost use Rattle.text_streams.specs.ReadingByLines.{IsMadeOf};
ghost use Rattle.dump_file.specs.Dump.{after_between, after_line, after_multicast, after_rows, after_text, after_words, are_mlids_counted};
ghost use Rattle.dump_file.specs.Dump.{count_reported, dump_of, heading_of, heading_reported, if_title, is_heading, is_multicast_end, is_multicast_heading};
ghost use Rattle.dump_file.specs.Dump.{is_passed_over, row_reported, whole, with_heading, with_row, with_table};
ghost use Rattle.dump_file.specs.Sound.{IsSound};

use crate::draft::{Draft, count_reported};
use crate::dump::Dump;
use crate::fault::{DumpCause, DumpFault};
use crate::heading::Heading;
use crate::stage::Stage;
use std::alloc::Global;
use step_results::LineError;
use text_streams::{Reader, read_lines_of};
use text_words::{LineReader, cut_at, is_failure, number_in, read_lines, trimmed};

impl Draft {
    fn take_heading(&mut self, number: usize, text: &[u8]) -> Result<(), LineError<DumpCause>>
        requires between { heading_of self.old.stage ≡ None }
        ensures { LineGives (λ _. self.new) result (with_heading self.old (heading_reported number self.old text.now)) }
    {
        let heading = self.heading_reported(number, text)?;
        self.stage = Stage::FirstTitle(heading);
        Ok(())
    }

    fn take_row(&mut self, heading: Heading, text: &[u8]) -> Result<(), LineError<DumpCause>>
        requires open { heading_of self.old.stage ≡ Some heading }
        ensures { LineGives (λ _. self.new) result (with_row self.old (row_reported self.old heading text.now)) }
    {
        let row = self.row_reported(heading, text)?;
        self.push(row)?;
        Ok(())
    }

    fn take_count(
        &mut self,
        alloc: Global,
        heading: Heading,
        text: &[u8],
    ) -> Result<(), LineError<DumpCause>>
        requires open { heading_of self.old.stage ≡ Some heading }
        ensures { LineGives (λ _. self.new) result (with_table self.old heading (count_reported self.old.rows text.now)) }
    {
        count_reported(self.rows.as_slice(), text)?;
        self.close(alloc, heading)?;
        Ok(())
    }

    fn take_between(&mut self, number: usize, text: &[u8]) -> Result<(), LineError<DumpCause>>
        requires between { heading_of self.old.stage ≡ None }
        ensures { LineGives (λ _. self.new) result (after_between number self.old text.now) }
    {
        if is_heading(text) {
            return self.take_heading(number, text);
        }
        if is_multicast_heading(text) {
            self.stage = Stage::Multicast;
            return Ok(());
        }
        if text.starts_with(b"*** WARNING ***") {
            return Ok(());
        }
        Err(LineError::Fault(DumpCause::Malformed))
    }

    fn take_in_table(
        &mut self,
        alloc: Global,
        heading: Heading,
        text: &[u8],
    ) -> Result<(), LineError<DumpCause>>
        requires open { heading_of self.old.stage ≡ Some heading }
        ensures { LineGives (λ _. self.new) result (after_rows self.old heading text.now) }
    {
        if text.starts_with(b"0x") {
            return self.take_row(heading, text);
        }
        self.take_count(alloc, heading, text)
    }

    fn take_multicast(&mut self, text: &[u8]) -> Result<(), LineError<DumpCause>>
        requires multicast { heading_of self.old.stage ≡ None }
        ensures { LineGives (λ _. self.new) result (after_multicast self.old text.now) }
    {
        if is_heading(text) || is_multicast_heading(text) {
            return Err(LineError::Fault(DumpCause::Malformed));
        }
        if is_multicast_end(text) {
            self.stage = Stage::Between;
        }
        Ok(())
    }

    fn take_title(&mut self, is_title: bool, next: Stage) -> Result<(), LineError<DumpCause>>
        requires same { heading_of next ≡ heading_of self.old.stage }
        ensures { LineGives (λ _. self.new) result (if_title is_title self.old next) }
    {
        if !is_title {
            return Err(LineError::Fault(DumpCause::Malformed));
        }
        self.stage = next;
        Ok(())
    }

    fn take_text(
        &mut self,
        alloc: Global,
        number: usize,
        text: &[u8],
    ) -> Result<(), LineError<DumpCause>>
        ensures { LineGives (λ _. self.new) result (after_text self.old.stage number self.old text.now) }
    {
        match self.stage {
            Stage::Between => self.take_between(number, text),
            Stage::FirstTitle(heading) => {
                let is_title = text == b"  Lid  Out   Destination".as_slice();
                self.take_title(is_title, Stage::SecondTitle(heading))
            }
            Stage::SecondTitle(heading) => {
                let is_title = text == b"       Port     Info".as_slice();
                self.take_title(is_title, Stage::Rows(heading))
            }
            Stage::Rows(heading) => self.take_in_table(alloc, heading, text),
            Stage::Multicast => self.take_multicast(text),
        }
    }

    /// Takes a line that has something on it and is no comment.
    fn take_words(
        &mut self,
        alloc: Global,
        number: usize,
        text: &[u8],
    ) -> Result<(), LineError<DumpCause>>
        ensures { LineGives (λ _. self.new) result (after_words number self.old text.now) }
    {
        if is_failure(text) {
            self.break_off(alloc);
            return Ok(());
        }
        self.take_text(alloc, number, text)
    }

    /// The dump, if its last table has ended and there is one.
    #[tactic(auto, unfolding(crate::specs::Dump::whole))]
    fn finish(self, alloc: Global) -> Result<Dump, DumpFault>
        ensures { TextGives (λ dump. dump) result (whole self) }
    {
        if !self.stage.is_between() || self.tables.is_empty() {
            return Err(DumpFault::At {
                line: 0,
                cause: DumpCause::Unfinished,
            });
        }
        Ok(Dump::latest(alloc, self.tables)?)
    }
}

impl LineReader for Draft {
    type Cause = DumpCause;

    ghost after_line = { after_line };

    #[tactic(auto, unfolding(crate::specs::Dump::after_line))]
    fn take_line(
        &mut self,
        alloc: Global,
        number: usize,
        line: &[u8],
    ) -> Result<(), LineError<DumpCause>> {
        let text = trimmed(line);
        if is_passed_over(text) {
            return Ok(());
        }
        self.take_words(alloc, number, text)
    }
}

/// Whether an LFT begins here.
pub fn is_heading(text: &[u8]) -> bool
    ensures { result ≡ is_heading text.now }
{
    text.starts_with(b"Unicast lids [")
}

/// Whether an MFT begins here.
pub fn is_multicast_heading(text: &[u8]) -> bool
    ensures { result ≡ is_multicast_heading text.now }
{
    text.starts_with(b"Multicast mlids [")
}

fn are_mlids_counted(words: &[u8]) -> bool
    ensures { result ≡ are_mlids_counted words.now }
{
    words == b"valid mlids dumped".as_slice() || words == b"mlids dumped".as_slice()
}

/// Whether a multicast table ends here.
fn is_multicast_end(text: &[u8]) -> bool
    ensures { result ≡ is_multicast_end text.now }
{
    match cut_at(b' ', text) {
        Some((number, words)) => number_in(number).is_some() && are_mlids_counted(words),
        None => false,
    }
}

/// Whether nothing stands on a line, or a comment.
pub fn is_passed_over(text: &[u8]) -> bool
    ensures { result ≡ is_passed_over text.now }
{
    text.is_empty() || text.starts_with(b"#")
}

/// What a text of `dump_fts` reports, or its first fault with the line.
///
/// Lines are judged in turn, each after those before it; `specs/Dump.antt` says how. Time is linear in the length
/// of the text, and no name is kept.
///
/// Read are the tables that `dump_fts` and `ibroute` print, with their option `-a` or without, and those of
/// `fabric tables`. `ibroute LID` has rows that `dump_fts` may leave out, so of a switch that has a table of both that by its
/// LID counts. Passed over are lines with nothing on them, lines that begin with `#`, multicast tables, and the
/// warning that ends what `dump_mfts` prints. If a line ends in blanks, or in CR LF, these do not count.
///
/// A program that fails prints `ibroute: iberror: failed: ..`. Between tables that line is passed over. A table that is open there is
/// broken off: neither it nor its rows count.
#[tactic(auto, unfolding(crate::specs::Dump::dump_of))]
pub fn read(alloc: Global, text: &[u8]) -> Result<Dump, DumpFault>
    // What the text reports, or its first fault.
    ensures exact { TextGives (λ dump. dump) result (dump_of text.now) }
    // No switch has two tables, LIDs rise in each up to its top, and each LID has one end port.
    ensures sound { IfOk result (λ dump. IsSound dump) }
{
    let draft = read_lines(alloc, text, Draft::new(alloc))?;
    let dump = draft.finish(alloc)?;
    Ok(dump)
}

/// What the text of `dump_fts` reports that a reader has left, or its first fault with the line. Lines are taken while the text is
/// read, so that it is not kept: [`read`] says which. `None` if a read fails, or no end comes within as many reads as a big text may
/// take ([`text_streams::read_lines_of`]).
#[tactic(auto, unfolding(crate::specs::Dump::dump_of))]
pub fn read_from<R: Reader>(alloc: Global, reader: &mut R) -> Result<Option<Dump>, DumpFault>
    // What the text reports, or its first fault.
    ensures exact { IsMadeOf (λ dump. dump) result (R.remaining reader.old) dump_of }
    ensures sure { R.is_sure reader.old ≡ true → result ≡ Ok None → IsEndless (R.remaining reader.old) }
{
    let Some(draft) = read_lines_of(alloc, reader, Draft::new(alloc))? else {
        return Ok(None);
    };
    let dump = draft.finish(alloc)?;
    Ok(Some(dump))
}
