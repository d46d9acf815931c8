//! The reader of a whole text.

ghost use Rattle.std.specs.Prelude.{◌≡◌, ◌==◌, [], None, Some};
ghost use Rattle.std.specs.List.{list_any};
ghost use Rattle.step_results.specs.Gives.{LineGives};
ghost use Rattle.step_results.specs.TextGives.{TextGives};
ghost use Rattle.pkeys_file.specs.Answers.{after_answer_line, after_field_line, after_line, after_query, after_row, after_table_line, after_text, answers_of, by_kind};
ghost use Rattle.pkeys_file.specs.Answers.{closed, fields_after, in_answer, is_flag, is_query, is_row, is_title, judged_answers, whole, with_field, with_query};

use crate::answers::Answers;
use crate::draft::{Asked, Draft};
use crate::fault::{KeysCause, KeysFault};
use crate::fields::{Fields, field_in, with_node_field, with_port_field, with_switch_field};
use crate::query::{Query, QueryKind, query_in};
use crate::rows::{capacity_after, push_row};
use std::alloc::Global;
use step_results::LineError;
use text_words::{LineReader, cut_at, is_failure, read_lines, trimmed};

fn is_row(text: &[u8]) -> bool
    ensures { result ≡ is_row text.now }
{
    text.iter().any(|byte| *byte == b':')
}

fn with_field(
    kind: QueryKind,
    fields: Fields,
    name: &[u8],
    value: &[u8],
) -> Result<Fields, KeysCause>
    ensures { result ≡ with_field kind fields (name.now, value.now) }
{
    match kind {
        QueryKind::NodeInfo => with_node_field(fields, name, value),
        QueryKind::SwitchInfo => with_switch_field(fields, name, value),
        QueryKind::Keys => Err(KeysCause::Malformed),
        QueryKind::PortInfo => with_port_field(fields, name, value),
    }
}

#[tactic(auto, unfolding(crate::specs::Answers::fields_after))]
fn fields_after(asked: Asked, text: &[u8]) -> Result<Fields, KeysCause>
    ensures { result ≡ fields_after asked text.now }
{
    if text.starts_with(b"\t") {
        return Ok(asked.fields);
    }
    let (name, value) = field_in(text)?;
    with_field(asked.query.kind, asked.fields, name, value)
}

impl Draft {
    fn take_new(&mut self, number: usize, query: Query) -> Result<(), LineError<KeysCause>>
        requires closed { self.old.asked ≡ None }
        requires none { self.old.words ≡ [] }
        ensures { LineGives (λ _. self.new) result (with_query number self.old.answers query) }
    {
        if self.answers.place_of(query).is_some() {
            return Err(LineError::Fault(KeysCause::DuplicateQuery));
        }
        self.asked = Some(Asked {
            line: number,
            query,
            fields: Fields::none(),
            failed: false,
        });
        Ok(())
    }

    fn take_query(
        &mut self,
        alloc: Global,
        number: usize,
        text: &[u8],
    ) -> Result<(), LineError<KeysCause>>
        ensures { LineGives (λ _. self.new) result (after_query number self.old text.now) }
    {
        let query = query_in(text)?;
        self.close(alloc)?;
        self.take_new(number, query)
    }

    fn take_row(&mut self, asked: Asked, text: &[u8]) -> Result<(), LineError<KeysCause>>
        requires { self.old.asked ≡ Some asked }
        ensures { LineGives (λ _. self.new) result (after_row self.old asked.fields text.now) }
    {
        if asked.fields.capacity.is_some() {
            return Err(LineError::Fault(KeysCause::Malformed));
        }
        push_row(&mut self.words, text)
    }

    fn take_table_line(&mut self, asked: Asked, text: &[u8]) -> Result<(), LineError<KeysCause>>
        requires { self.old.asked ≡ Some asked }
        ensures { LineGives (λ _. self.new) result (after_table_line self.old asked text.now) }
    {
        if is_row(text) {
            return self.take_row(asked, text);
        }
        let mut next = asked;
        next.fields = capacity_after(self.words.as_slice(), asked.fields, text)?;
        self.asked = Some(next);
        Ok(())
    }

    fn take_field_line(&mut self, asked: Asked, text: &[u8]) -> Result<(), LineError<KeysCause>>
        requires { self.old.asked ≡ Some asked }
        ensures { LineGives (λ _. self.new) result (after_field_line self.old asked text.now) }
    {
        let mut next = asked;
        next.fields = fields_after(asked, text)?;
        self.asked = Some(next);
        Ok(())
    }

    fn take_by_kind(&mut self, asked: Asked, text: &[u8]) -> Result<(), LineError<KeysCause>>
        requires { self.old.asked ≡ Some asked }
        ensures { LineGives (λ _. self.new) result (by_kind asked.query.kind self.old asked text.now) }
    {
        match asked.query.kind {
            QueryKind::Keys => self.take_table_line(asked, text),
            QueryKind::NodeInfo | QueryKind::SwitchInfo | QueryKind::PortInfo => {
                self.take_field_line(asked, text)
            }
        }
    }

    fn take_answer_line(&mut self, asked: Asked, text: &[u8]) -> Result<(), LineError<KeysCause>>
        requires { self.old.asked ≡ Some asked }
        ensures { LineGives (λ _. self.new) result (after_answer_line self.old asked text.now) }
    {
        if text.starts_with(b"#") {
            asked.query.judged_by(text)?;
            return Ok(());
        }
        self.take_by_kind(asked, text)
    }

    fn take_in_answer(&mut self, text: &[u8]) -> Result<(), LineError<KeysCause>>
        ensures { LineGives (λ _. self.new) result (in_answer self.old self.old.asked text.now) }
    {
        let fails = is_failure(text);
        let Some(asked) = self.asked else {
            if fails {
                return Ok(());
            }
            return Err(LineError::Fault(KeysCause::Malformed));
        };
        if asked.failed || fails {
            let mut next = asked;
            next.failed = true;
            self.asked = Some(next);
            return Ok(());
        }
        self.take_answer_line(asked, text)
    }

    fn take_text(
        &mut self,
        alloc: Global,
        number: usize,
        text: &[u8],
    ) -> Result<(), LineError<KeysCause>>
        ensures { LineGives (λ _. self.new) result (after_text number self.old text.now) }
    {
        if text.starts_with(b"# smpquery ") {
            return self.take_query(alloc, number, text);
        }
        self.take_in_answer(text)
    }

    /// The answers, if there are any.
    #[tactic(auto, unfolding(crate::specs::Answers::whole))]
    fn finish(self, alloc: Global) -> Result<Answers, KeysFault>
        ensures { TextGives (λ answers. answers) result (whole self) }
    {
        let mut all = self;
        all.close(alloc)?;
        let Draft { answers, .. } = all;
        if answers.as_slice().is_empty() {
            return Err(KeysFault::At {
                line: 0,
                cause: KeysCause::NoQuery,
            });
        }
        Ok(answers)
    }
}

impl LineReader for Draft {
    type Cause = KeysCause;

    ghost after_line = { after_line };

    #[tactic(auto, unfolding(crate::specs::Answers::after_line))]
    fn take_line(
        &mut self,
        alloc: Global,
        number: usize,
        line: &[u8],
    ) -> Result<(), LineError<KeysCause>> {
        let text = trimmed(line);
        if text.is_empty() {
            return Ok(());
        }
        self.take_text(alloc, number, text)
    }
}

/// What a text of `smpquery` reports, or its first fault with the line.
///
/// Before what each query printed stands a line `# smpquery QUERY LID [PORT]`, with QUERY `nodeinfo`, `switchinfo`, `pkeys` or
/// `portinfo`. If no whole answer follows, or a line of it says that the query failed, it is
/// [`Reply::Unread`](crate::Reply::Unread). Lines with nothing on them are passed over, and so are fields that do not count. If a
/// line ends in blanks, or in CR LF, these do not count. Time is linear in the length of the text.
#[tactic(auto, unfolding(crate::specs::Answers::answers_of))]
pub fn read(alloc: Global, text: &[u8]) -> Result<Answers, KeysFault>
    // What the text reports, or its first fault.
    ensures exact { TextGives (λ answers. answers) result (answers_of text.now) }
{
    let draft = read_lines(alloc, text, Draft::new(alloc))?;
    draft.finish(alloc)
}
