//! Answers, in the order of the text.

ghost use Rattle.std.specs.Prelude.{◌≡◌, [], ◌∷◌, ◌++◌, None, OnErr, OnOk};
ghost use Rattle.std.specs.Option.{option_copied};
ghost use Rattle.pkeys_file.specs.Answers.{answer_to, place_of};

use crate::answer::Answer;
use crate::query::{Query, QueryKey};
use indexmap::IndexSet;
use std::alloc::{AllocError, Global};
use std::marker::Model;

/// What different queries brought, in the order of the text, and found by query in constant time.
#[derive(Debug, Drop)]
pub struct Answers {
    // The queries again, each at the place of its answer.
    queries: IndexSet<QueryKey>,
    answers: Vec<Answer>,
}

impl Model for Answers {
    ghost use Rattle.std.specs.Prelude.{◌≡◌, List, map};
    ghost use Rattle.pkeys_file.specs.Query.{key_of};
    ghost use Rattle.pkeys_file.specs.declared.answer.Answer.{Answer};

    ghost Value = { List Answer };

    ghost view = { λ all. all.answers.items };

    ghost invariant = { λ all. all.queries.keys ≡ map (λ answer. key_of answer.query) all.answers.items };
}

impl Answers {
    pub(crate) fn new(alloc: Global) -> Answers
        ensures { result ≡ [] }
    {
        Answers {
            queries: IndexSet::new(alloc),
            answers: Vec::new(alloc),
        }
    }

    /// The answers, in the order of the text.
    pub fn as_slice(&self) -> &[Answer]
        ensures { result.now ≡ self.now }
    {
        self.answers.as_slice()
    }

    /// Where the answer to this query stands, looked up in constant time.
    pub fn place_of(&self, query: Query) -> Option<usize>
        ensures { result ≡ place_of query self.now }
    {
        self.queries.get_index_of(&query.key())
    }

    /// Adds an answer at the end. It can only run out of memory, and then all stays as it was.
    pub(crate) fn push(&mut self, answer: Answer) -> Result<(), AllocError>
        requires new { place_of answer.query self.old ≡ None }
        ensures ok { OnOk result (self.new ≡ self.old ++ answer ∷ []) }
        ensures err { OnErr result (self.new ≡ self.old) }
    {
        self.answers.reserve(1)?;
        self.queries.insert(answer.query.key())?;
        self.answers.push(answer)?;
        Ok(())
    }
}
