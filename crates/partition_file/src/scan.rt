//! The text so far, as it is gone through byte by byte.

ghost use Rattle.std.specs.Prelude.{◌≡◌, ◌≤◌, ◌<◌, true, None, IfOk, OnOk, OnErr};
ghost use Rattle.step_results.specs.AtLine.{on_line};
ghost use Rattle.partition_file.specs.Pieces.{folded};
ghost use Rattle.partition_file.specs.Cases.{fault_of, is_one_too_many, base_here};
ghost use Rattle.partition_file.specs.Counting.{bases_given};
ghost use Rattle.partition_file.specs.Definitions.{after_byte, at_end, next, with_item, with_piece};
ghost use Rattle.partition_file.specs.ScanState.{start};
ghost use Rattle.partition_file.specs.Tokens.{token_of};
ghost use Rattle.step_results.specs.TextGives.{TextGives};

use crate::definition::{Definition, DefinitionList, PartitionName};
use crate::definition_part::Part;
use crate::fault::{PartFault, PartitionCause};
use crate::item::{Item, Ports};
use crate::piece::{Delimiter, delimiter_of, folded, is_allowed};
use crate::token::{Token, Value};
use pkey_rules::PARTITIONS;
use std::alloc::{AllocError, Global};
use std::marker::Model;
use std::mem;

impl Definition {
    /// Takes one more piece.
    fn take_piece(
        &mut self,
        token: Token,
        delimiter: Delimiter,
        piece: Vec<u8>,
    ) -> Result<(), AllocError>
        ensures ok { OnOk result (self.new ≡ with_piece self.old token delimiter piece.items) }
        ensures err_base { OnErr result (self.new.base ≡ self.old.base) }
        ensures err_flags { OnErr result (self.new.flags ≡ self.old.flags) }
    {
        match token {
            Token::Name(_) => {
                self.name = PartitionName::from_vec(piece);
                Ok(())
            }
            Token::Base(base) => {
                self.base = base;
                Ok(())
            }
            Token::FlagWord(flag) if !delimiter.is_equals() => {
                self.flags = self.flags.with_flag(flag);
                Ok(())
            }
            Token::FlagValue(Value::Taken(setting)) => {
                self.flags = self.flags.with_setting(setting);
                Ok(())
            }
            Token::ListWord(Some(ports)) if !delimiter.is_equals() => {
                self.push_item(ports, self.flags.is_full_by_default())
            }
            Token::Membership(ports, word) => self.push_item(ports, word.is_full()),
            _ => Ok(()),
        }
    }

    fn push_item(&mut self, ports: Ports, full: bool) -> Result<(), AllocError>
        ensures ok { OnOk result (self.new ≡ with_item self.old ports full) }
        ensures base { self.new.base ≡ self.old.base }
        ensures flags { self.new.flags ≡ self.old.flags }
    {
        self.items.push(Item { ports, full })
    }
}

/// What the text so far says: the part that the next delimiter ends, the definition that it belongs
/// to, and the definitions before.
#[derive(Drop)]
pub(crate) struct Scan {
    part: Part,
    current: Definition,
    done: DefinitionList,
}

impl Model for Scan {
    ghost use Rattle.partition_file.specs.ScanState.{ScanState};
    ghost use Rattle.partition_file.specs.Sound.{IsSoundSoFar};

    ghost Value = { ScanState };

    ghost view = { λ scan. record { at = scan.part; current = scan.current; done = scan.done } };

    ghost invariant = { λ scan. IsSoundSoFar (record { at = scan.part; current = scan.current; done = scan.done }) };
}

impl Scan {
    pub(crate) fn new(alloc: Global) -> Result<Scan, AllocError>
        ensures { IfOk result (λ scan. scan ≡ start) }
    {
        let done = DefinitionList::new(alloc)?;
        Ok(Scan {
            part: Part::Name,
            current: Definition::blank(alloc),
            done,
        })
    }

    /// Whether the list that this delimiter begins is that of one partition too many.
    fn is_one_too_many(&self, delimiter: Delimiter, token: Token) -> bool
        ensures { result ≡ is_one_too_many self.now.at delimiter (bases_given self.now.done) (base_here token self.now.current.base) }
    {
        let base = token.base_here(self.current.base);
        delimiter.is_colon() && !self.part.is_in_list() && self.done.count_with(base) > PARTITIONS
    }

    /// The first fault in turn of a piece that says this and ends at this delimiter.
    #[tactic(auto, unfolding(crate::specs::Cases::fault_of, crate::specs::Cases::has_fault))]
    fn fault_of(&self, delimiter: Delimiter, token: Token) -> Option<PartitionCause>
        ensures { result ≡ fault_of self.now delimiter token }
    {
        if token.is_both_membership() {
            return Some(PartitionCause::BothMembership);
        }
        if token.is_mgid_item() {
            return Some(PartitionCause::MgidItem);
        }
        if token.is_bad_character(delimiter) {
            return Some(PartitionCause::BadCharacter);
        }
        if token.is_bad_number(delimiter) {
            return Some(PartitionCause::BadNumber);
        }
        if token.is_reserved_key(delimiter) {
            return Some(PartitionCause::ReservedKey);
        }
        if token.is_unknown_flag(delimiter) {
            return Some(PartitionCause::UnknownFlag);
        }
        if self.is_one_too_many(delimiter, token) {
            return Some(PartitionCause::TooManyPartitions);
        }
        if self.part.is_unfinished(delimiter) {
            return Some(PartitionCause::Unfinished);
        }
        if token.is_bad_flag_value(delimiter, self.current.flags) {
            return Some(PartitionCause::BadFlagValue);
        }
        None
    }

    /// Goes on after a piece that has no fault.
    #[tactic(auto, unfolding(crate::specs::Definitions::next))]
    fn go_on(
        &mut self,
        alloc: Global,
        delimiter: Delimiter,
        token: Token,
        piece: Vec<u8>,
    ) -> Result<(), AllocError>
        requires says { token ≡ token_of self.old.at piece.items }
        requires clean { fault_of self.old delimiter token ≡ None }
        ensures { OnOk result (self.new ≡ next self.old delimiter token piece.items) }
    {
        let after = self.part.after(delimiter, token);
        self.current.take_piece(token, delimiter, piece)?;
        self.part = after;
        if delimiter.is_semicolon() {
            let whole = mem::replace(&mut self.current, Definition::blank(alloc));
            self.done.push(whole)?;
        }
        Ok(())
    }

    /// Takes the byte after a piece, which is on this line.
    #[tactic(auto, unfolding(crate::specs::Definitions::after_byte))]
    pub(crate) fn take_byte(
        &mut self,
        alloc: Global,
        line: usize,
        raw: &[u8],
        byte: u8,
    ) -> Result<(), PartFault>
        ensures { TextGives (λ _. self.new) result (on_line line (after_byte self.old (folded raw.now) byte)) }
    {
        let Some(delimiter) = delimiter_of(byte) else {
            if is_allowed(byte) {
                return Ok(());
            }
            return Err(PartFault::At {
                line,
                cause: PartitionCause::BadCharacter,
            });
        };
        let piece = folded(alloc, raw)?;
        let token = self.part.token_of(&piece);
        if let Some(cause) = self.fault_of(delimiter, token) {
            return Err(PartFault::At { line, cause });
        }
        self.go_on(alloc, delimiter, token, piece)?;
        Ok(())
    }

    /// The definitions, if the text ends after this piece, on this line.
    pub(crate) fn finish(
        self,
        alloc: Global,
        line: usize,
        raw: &[u8],
    ) -> Result<DefinitionList, PartFault>
        ensures { TextGives (λ definitions. definitions) result (on_line line (at_end self (folded raw.now))) }
    {
        let piece = folded(alloc, raw)?;
        if self.part.is_inside(&piece) {
            return Err(PartFault::At {
                line,
                cause: PartitionCause::Unfinished,
            });
        }
        Ok(self.done)
    }
}
