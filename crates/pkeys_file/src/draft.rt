//! Answers of which lines are still to come.

ghost use Rattle.std.specs.Prelude.{◌≡◌, [], None, OnOk};
ghost use Rattle.pkeys_file.specs.Answers.{answer_of, closed, nothing, reply_of, IsNew};
ghost use Rattle.pkeys_file.specs.Reply.{reply_by};

use crate::answer::{Answer, Reply, keys_reply, node_reply, port_reply, switch_reply};
use crate::answers::Answers;
use crate::fields::Fields;
use crate::query::{Query, QueryKind};
use std::alloc::{AllocError, Global};
use std::marker::Model;
use std::mem;

/// The query whose answer is read.
#[derive(Clone, Copy)]
pub(crate) struct Asked {
    pub(crate) line: usize,
    pub(crate) query: Query,
    pub(crate) fields: Fields,
    // Whether a line says so.
    pub(crate) failed: bool,
}

/// What the lines so far report.
#[derive(Drop)]
pub(crate) struct Draft {
    pub(crate) answers: Answers,
    pub(crate) asked: Option<Asked>,
    // Of the rows of the answer that is read.
    pub(crate) words: Vec<u16>,
}

impl Model for Draft {
    ghost use Rattle.pkeys_file.specs.Answers.{DraftState, IsNew};

    ghost Value = { DraftState };

    ghost view = { λ draft. record { answers = draft.answers; asked = draft.asked; words = draft.words.items } };

    ghost invariant = { λ draft. IsNew draft.asked draft.answers };
}

/// What the fields and rows behind a query make.
fn reply_by(kind: QueryKind, fields: Fields, words: Vec<u16>) -> Reply
    ensures { result ≡ reply_by kind fields words.items }
{
    match kind {
        QueryKind::NodeInfo => node_reply(fields),
        QueryKind::SwitchInfo => switch_reply(fields),
        QueryKind::Keys => keys_reply(fields, words),
        QueryKind::PortInfo => port_reply(fields),
    }
}

fn reply_of(asked: Asked, words: Vec<u16>) -> Reply
    ensures { result ≡ reply_of asked words.items }
{
    if asked.failed {
        return Reply::Unread;
    }
    reply_by(asked.query.kind, asked.fields, words)
}

fn answer_of(asked: Asked, words: Vec<u16>) -> Answer
    ensures { result ≡ answer_of asked words.items }
{
    Answer {
        line: asked.line,
        query: asked.query,
        reply: reply_of(asked, words),
    }
}

impl Draft {
    pub(crate) fn new(alloc: Global) -> Draft
        ensures { result ≡ nothing }
    {
        Draft {
            answers: Answers::new(alloc),
            asked: None,
            words: Vec::new(alloc),
        }
    }

    /// Ends the answer that is read.
    pub(crate) fn close(&mut self, alloc: Global) -> Result<(), AllocError>
        ensures answers { OnOk result (self.new.answers ≡ closed self.old) }
        ensures asked { OnOk result (self.new.asked ≡ None) }
        ensures words { OnOk result (self.new.words ≡ []) }
    {
        let words = mem::replace(&mut self.words, Vec::new(alloc));
        if let Some(asked) = self.asked {
            self.asked = None;
            self.answers.push(answer_of(asked, words))?;
        }
        Ok(())
    }
}
