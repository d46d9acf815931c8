//! A wire of lines: an SMP goes out as a line, and the next line that comes in is its reply.

ghost use Rattle.std.specs.Prelude.{◌≡◌, ◌+◌, ◌-◌, ◌^◌, ◌++◌, min, if◌then◌else◌, is_some, None, OnOk, IfErr, IfOk, IfSome};
ghost use Rattle.std.specs.Io.KnownBytes.{prepend_known};
ghost use Rattle.smp_lines.specs.LineWire.{Hears, HearsUntil, IsOfReading, IsStill, Sends, SendsUntil, request_line, said_in};

use crate::answering::push_mad;
use crate::stop::SmpStop;
use mad_layout::Mad;
use script_lines::mad_in;
use smp_wire::SmpWire;
use std::alloc::{AllocError, Global};
use text_streams::{Output, Reader, read_line, write_whole};
use text_words::Words;

/// What a line says of a reply.
#[derive(Clone, Copy)]
pub(crate) enum Heard {
    /// Nothing: it is empty, or a comment.
    Nothing,
    /// That there is no reply.
    Lost,
    /// The reply.
    Reply(Mad),
}

/// Sends each SMP as a line `smp 256:HEX`, and takes the next line for its reply: `256:HEX`, or `none` if there is none.
/// Empty lines and comments are passed over.
///
/// After a line that is neither, and after a read, a write or an allocation that failed, it keeps the cause, sends nothing
/// more, and no reply comes. It stands for no fabric.
#[derive(Drop)]
pub struct LineWire<'a, R: Reader, O: Output> {
    alloc: Global,
    reader: &'a mut R,
    output: &'a mut O,
    waiting: Vec<u8>,
    lines: u64,
    exchanges: u64,
    last: Mad,
    stop: Option<SmpStop>,
}

impl<'a, R: Reader, O: Output> LineWire<'a, R, O> {
    /// The wire from this reader to this output, over which nothing was sent.
    pub fn new(alloc: Global, reader: &'a mut R, output: &'a mut O) -> Self
        ensures same_reader { result.reader.ghost_name ≡ reader.entry.ghost_name }
        ensures same_output { result.output.ghost_name ≡ output.entry.ghost_name }
        ensures none { result.exchanges ≡ 0 }
        ensures open { result.stop ≡ None }
    {
        LineWire {
            alloc,
            reader,
            output,
            waiting: Vec::new(alloc),
            lines: 0,
            exchanges: 0,
            last: [0; 256],
            stop: None,
        }
    }

    /// Why nothing more is sent, if so.
    pub fn stop(&self) -> Option<SmpStop>
        ensures { result ≡ self.now.stop }
    {
        self.stop
    }

    /// Sends an SMP, and returns its reply, unless there is none or the wire is at its end.
    pub fn reply_to(&mut self, smp: &Mad) -> Option<Mad>
        ensures same_reader { self.new.reader.ghost_name ≡ self.old.reader.ghost_name }
        ensures same_output { self.new.output.ghost_name ≡ self.old.output.ghost_name }
        ensures stopped { IfSome self.old.stop (λ stop. IsStill result self.new.stop self.new.exchanges stop self.old.exchanges) }
        // Once it has stopped nothing more is written or read.
        ensures unwritten { IfSome self.old.stop (λ _. O.contents self.new.output.now ≡ O.contents self.old.output.now) }
        ensures unread { IfSome self.old.stop (λ _. R.remaining self.new.reader.now ≡ R.remaining self.old.reader.now) }
        ensures counted { self.old.stop ≡ None → self.new.exchanges ≡ min (self.old.exchanges + 1) (2 ^ 64 - 1) }
        ensures kept { self.new.last ≡ (if is_some self.old.stop then self.old.last else smp.now) }
        ensures written { self.old.stop ≡ None → SendsUntil self.new.stop (O.contents self.old.output.now) (O.contents self.new.output.now)
            (request_line smp.now) }
        ensures heard { self.old.stop ≡ None → HearsUntil self.new.stop result (prepend_known self.old.waiting.items (R.remaining self.old.reader.now))
            (prepend_known self.new.waiting.items (R.remaining self.new.reader.now)) self.old.lines self.new.lines }
    {
        if self.stop.is_some() {
            return None;
        }
        self.exchanges = self.exchanges.saturating_add(1);
        self.last = *smp;
        let given = ask(
            self.alloc,
            smp,
            &mut *self.output,
            &mut *self.reader,
            &mut self.waiting,
            &mut self.lines,
        );
        match given {
            Ok(reply) => reply,
            Err(stop) => {
                self.stop = Some(stop);
                None
            }
        }
    }

    /// How many SMPs were sent, one that was sent in part among them.
    pub fn exchanges(&self) -> u64
        ensures { result ≡ self.now.exchanges }
    {
        self.exchanges
    }

    /// The last SMP that was sent, one that was sent in part among them; zeros before the first.
    pub fn last(&self) -> &Mad
        ensures { result.now ≡ self.now.last }
    {
        &self.last
    }
}

impl<'a, R: Reader, O: Output> SmpWire for LineWire<'a, R, O> {
    ghost fabric = { λ _. None };

    fn exchange(&mut self, smp: &Mad) -> Option<Mad> {
        self.reply_to(smp)
    }
}

/// Writes the line of an SMP and flushes it, then reads its reply, if there is one.
fn ask<R: Reader, O: Output>(
    alloc: Global,
    smp: &Mad,
    output: &mut O,
    reader: &mut R,
    waiting: &mut Vec<u8>,
    lines: &mut u64,
) -> Result<Option<Mad>, SmpStop>
    ensures sent { Sends result (O.contents output.old) (O.contents output.new) (request_line smp.now) }
    ensures heard { Hears result (prepend_known waiting.old.items (R.remaining reader.old))
        (prepend_known waiting.new.items (R.remaining reader.new)) lines.old lines.new }
{
    let line = request_line(alloc, smp)?;
    if !write_whole(output, &line) {
        return Err(SmpStop::Write);
    }
    hear(alloc, output, reader, waiting, lines)
}

/// Reads lines until one says what the reply is. Of the lines that were read `lines` is the count.
fn hear<R: Reader, O: Output>(
    alloc: Global,
    output: &O,
    reader: &mut R,
    waiting: &mut Vec<u8>,
    lines: &mut u64,
) -> Result<Option<Mad>, SmpStop>
    ensures heard { Hears result (prepend_known waiting.old.items (R.remaining reader.old))
        (prepend_known waiting.new.items (R.remaining reader.new)) lines.old lines.new }
    ensures not_written { IfErr result IsOfReading }
{
    while *lines < u64::MAX {
        let mut line = Vec::new(alloc);
        let is_ended = read_line(reader, waiting, &mut line, output)?;
        *lines += 1;
        match said_in(&line) {
            None => return Err(SmpStop::Line(*lines)),
            Some(Heard::Reply(reply)) => return Ok(Some(reply)),
            Some(Heard::Lost) => return Ok(None),
            Some(Heard::Nothing) if !is_ended => return Err(SmpStop::Read),
            Some(Heard::Nothing) => {}
        }
    }
    Err(SmpStop::Read)
}

/// What a line says of a reply; `None` for a line that is faulty.
fn said_in(line: &[u8]) -> Option<Heard>
    ensures { result ≡ said_in line.now }
{
    let mut words = Words::of(line)?;
    match (words.next(), words.next()) {
        (None, _) => Some(Heard::Nothing),
        (Some(b"none"), None) => Some(Heard::Lost),
        (Some(word), None) => Some(Heard::Reply(mad_in(word)?)),
        _ => None,
    }
}

/// The line of an SMP.
fn request_line(alloc: Global, smp: &Mad) -> Result<Vec<u8>, AllocError>
    ensures { IfOk result (λ line. line.items ≡ request_line smp.now) }
{
    let mut line = Vec::from_slice(alloc, b"smp ")?;
    push_mad(&mut line, smp)?;
    Ok(line)
}
