//! The reader of a whole text.

ghost use Rattle.std.specs.Prelude.{◌≡◌, Some, None, IfOk};
ghost use Rattle.step_results.specs.Gives.{LineGives};
ghost use Rattle.step_results.specs.TextGives.{TextGives};
ghost use Rattle.mft_file.specs.Mfts.{after_between, after_line, after_rows, after_text, after_titles, after_unicast, after_words, are_lids_counted, count_reported, heading_of, heading_reported};
ghost use Rattle.mft_file.specs.Mfts.{if_title, is_unicast_end, mfts_of, row_reported, whole, with_columns, with_heading, with_row, with_table};
ghost use Rattle.mft_file.specs.Heading.{columns_in};
ghost use Rattle.mft_file.specs.Sound.{IsSound};

use crate::draft::{Draft, count_reported};
use crate::fault::{MftCause, MftFault};
use crate::heading::{Heading, columns_in, is_tens};
use crate::mfts::Mfts;
use crate::stage::MftStage;
use dump_file::{is_heading as is_unicast_heading, is_multicast_heading, is_passed_over};
use std::alloc::Global;
use step_results::LineError;
use text_words::{LineReader, cut_at, is_failure, number_in, read_lines, trimmed};

impl Draft {
    fn take_heading(&mut self, number: usize, text: &[u8]) -> Result<(), LineError<MftCause>>
        requires between { heading_of self.old.stage ≡ None }
        ensures { LineGives (λ _. self.new) result (with_heading self.old (heading_reported number self.old text.now)) }
    {
        let heading = self.heading_reported(number, text)?;
        self.stage = MftStage::Titles(heading);
        Ok(())
    }

    fn take_between(&mut self, number: usize, text: &[u8]) -> Result<(), LineError<MftCause>>
        requires between { heading_of self.old.stage ≡ None }
        ensures { LineGives (λ _. self.new) result (after_between number self.old text.now) }
    {
        if is_multicast_heading(text) {
            return self.take_heading(number, text);
        }
        if is_unicast_heading(text) {
            self.stage = MftStage::Unicast;
            return Ok(());
        }
        if text.starts_with(b"*** WARNING ***") {
            return Ok(());
        }
        Err(LineError::Fault(MftCause::Malformed))
    }

    fn take_columns(&mut self, heading: Heading, text: &[u8]) -> Result<(), LineError<MftCause>>
        requires open { heading_of self.old.stage ≡ Some heading }
        ensures { LineGives (λ _. self.new) result (with_columns self.old heading (columns_in text.now)) }
    {
        let columns = columns_in(text)?;
        self.stage = MftStage::LastTitle(Heading { columns, ..heading });
        Ok(())
    }

    fn take_titles(&mut self, heading: Heading, text: &[u8]) -> Result<(), LineError<MftCause>>
        requires open { heading_of self.old.stage ≡ Some heading }
        ensures { LineGives (λ _. self.new) result (after_titles self.old heading text.now) }
    {
        if is_tens(text) {
            return Ok(());
        }
        self.take_columns(heading, text)
    }

    fn take_last_title(&mut self, heading: Heading, text: &[u8]) -> Result<(), LineError<MftCause>>
        requires open { heading_of self.old.stage ≡ Some heading }
        ensures { LineGives (λ _. self.new) result (if_title self.old heading text.now) }
    {
        if text != b" MLid".as_slice() {
            return Err(LineError::Fault(MftCause::Malformed));
        }
        self.stage = MftStage::Rows(heading);
        Ok(())
    }

    fn take_row(
        &mut self,
        alloc: Global,
        heading: Heading,
        text: &[u8],
    ) -> Result<(), LineError<MftCause>>
        requires open { heading_of self.old.stage ≡ Some heading }
        ensures { LineGives (λ _. self.new) result (with_row self.old (row_reported self.old heading text.now)) }
    {
        let row = self.row_reported(alloc, heading, text)?;
        self.push(row)?;
        Ok(())
    }

    fn take_count(
        &mut self,
        alloc: Global,
        heading: Heading,
        text: &[u8],
    ) -> Result<(), LineError<MftCause>>
        requires open { heading_of self.old.stage ≡ Some heading }
        ensures { LineGives (λ _. self.new) result (with_table self.old heading (count_reported self.old.rows text.now)) }
    {
        count_reported(self.rows.as_slice(), text)?;
        self.tables.push(alloc, heading, &mut self.rows)?;
        self.stage = MftStage::Between;
        Ok(())
    }

    fn take_in_table(
        &mut self,
        alloc: Global,
        heading: Heading,
        text: &[u8],
    ) -> Result<(), LineError<MftCause>>
        requires open { heading_of self.old.stage ≡ Some heading }
        ensures { LineGives (λ _. self.new) result (after_rows self.old heading text.now) }
    {
        if text.starts_with(b"0x") {
            return self.take_row(alloc, heading, text);
        }
        self.take_count(alloc, heading, text)
    }

    fn take_unicast(&mut self, text: &[u8]) -> Result<(), LineError<MftCause>>
        requires unicast { heading_of self.old.stage ≡ None }
        ensures { LineGives (λ _. self.new) result (after_unicast self.old text.now) }
    {
        if is_unicast_heading(text) || is_multicast_heading(text) {
            return Err(LineError::Fault(MftCause::Malformed));
        }
        if is_unicast_end(text) {
            self.stage = MftStage::Between;
        }
        Ok(())
    }

    fn take_text(
        &mut self,
        alloc: Global,
        number: usize,
        text: &[u8],
    ) -> Result<(), LineError<MftCause>>
        ensures { LineGives (λ _. self.new) result (after_text self.old.stage number self.old text.now) }
    {
        match self.stage {
            MftStage::Between => self.take_between(number, text),
            MftStage::Titles(heading) => self.take_titles(heading, text),
            MftStage::LastTitle(heading) => self.take_last_title(heading, text),
            MftStage::Rows(heading) => self.take_in_table(alloc, heading, text),
            MftStage::Unicast => self.take_unicast(text),
        }
    }

    /// Takes a line that has something on it and is no comment.
    fn take_words(
        &mut self,
        alloc: Global,
        number: usize,
        text: &[u8],
    ) -> Result<(), LineError<MftCause>>
        ensures { LineGives (λ _. self.new) result (after_words number self.old text.now) }
    {
        if is_failure(text) {
            self.break_off(alloc);
            return Ok(());
        }
        self.take_text(alloc, number, text)
    }

    /// The tables, if the last one has ended and there is one.
    #[tactic(auto, unfolding(crate::specs::Mfts::whole))]
    fn finish(self) -> Result<Mfts, MftFault>
        ensures { TextGives (λ mfts. mfts) result (whole self) }
    {
        if !self.stage.is_between() || self.tables.as_slice().is_empty() {
            return Err(MftFault::At {
                line: 0,
                cause: MftCause::Unfinished,
            });
        }
        Ok(Mfts {
            tables: self.tables,
        })
    }
}

impl LineReader for Draft {
    type Cause = MftCause;

    ghost after_line = { after_line };

    #[tactic(auto, unfolding(crate::specs::Mfts::after_line))]
    fn take_line(
        &mut self,
        alloc: Global,
        number: usize,
        line: &[u8],
    ) -> Result<(), LineError<MftCause>> {
        let text = trimmed(line);
        if is_passed_over(text) {
            return Ok(());
        }
        self.take_words(alloc, number, text)
    }
}

fn are_lids_counted(words: &[u8]) -> bool
    ensures { result ≡ are_lids_counted words.now }
{
    words == b"valid lids dumped".as_slice() || words == b"lids dumped".as_slice()
}

/// Whether a unicast table ends here.
fn is_unicast_end(text: &[u8]) -> bool
    ensures { result ≡ is_unicast_end text.now }
{
    match cut_at(b' ', text) {
        Some((number, words)) => number_in(number).is_some() && are_lids_counted(words),
        None => false,
    }
}

/// What a text of `dump_fts -M` reports, or its first fault with the line.
///
/// Lines are judged in turn, each after those before it; `specs/Mfts.antt` says how. Time is linear in the length
/// of the text, and no name is kept.
///
/// Read are the tables that `dump_fts -M` and `dump_mfts` print, with their option `-a` or without, and those of
/// `fabric tables`. Passed over are lines with nothing on them, lines that begin with `#`, unicast tables, and the
/// warning that ends what `dump_mfts` prints. If a line ends in blanks, or in CR LF, these do not count.
///
/// A program that fails prints `ibroute: iberror: failed: ..`. Between tables that line is passed over. A table that is open there is
/// broken off: neither it nor its rows count.
#[tactic(auto, unfolding(crate::specs::Mfts::mfts_of))]
pub fn read(alloc: Global, text: &[u8]) -> Result<Mfts, MftFault>
    // What the text reports, or its first fault.
    ensures exact { TextGives (λ mfts. mfts) result (mfts_of text.now) }
    // No switch has two tables, MLIDs rise in each up to its top, and so do the ports of a mask.
    ensures sound { IfOk result (λ mfts. IsSound mfts) }
{
    let draft = read_lines(alloc, text, Draft::new(alloc))?;
    let mfts = draft.finish()?;
    mfts.known_sound();
    Ok(mfts)
}
