//! SMPs that are read, and the replies of a fabric.

ghost use Rattle.std.specs.Prelude.{◌≡◌, ◌++◌, ◌≤◌, true, length, Ok, IfErr, IfOk, IsErrOf, OnOk};
ghost use Rattle.std.specs.Io.KnownBytes.{Appends};
ghost use Rattle.smp_lines.specs.SmpLines.{EndsSo, OfBytes, after, answered, mad_line, output_of, reply_line, smp_in};
ghost use Rattle.smp_lines.specs.Steps.{TakesLine};
ghost use Rattle.text_streams.specs.Reading.{IsEndless};
ghost use Rattle.text_streams.specs.Writing.{AppendsPart};
ghost use Rattle.text_words.specs.Lines.{lines};

use crate::stop::SmpStop;
use fabric_wire::Fabric;
use mad_layout::Mad;
use script_lines::mad_in;
use smp_wire::SmpWire;
use std::alloc::{AllocError, Global};
use text_streams::{Output, Reader, read_line, write_whole};
use text_words::{Words, digits_of};

/// Answers SMPs that are read as lines, each before the next line is read: what the fabric replies at the SM port is written
/// and flushed as a line `256:HEX`, or `none`. Empty lines and comments are passed over.
///
/// The fabric changes by what it is asked to set, and by nothing else. A line that is no SMP ends it, and so does a read, a
/// write or an allocation that fails.
pub fn answer_smps<R: Reader, W: Output>(
    alloc: Global,
    fabric: &mut Fabric,
    reader: &mut R,
    writer: &mut W,
) -> Result<(), SmpStop>
    ensures exact { OfBytes (R.remaining reader.old) (λ bytes.
        EndsSo (answered 1 fabric.old (lines bytes)) result (W.contents writer.old) (W.contents writer.new)) }
    ensures endless { R.is_sure reader.old ≡ true → IsErrOf result SmpStop.Read → IsEndless (R.remaining reader.old) }
    ensures sure { W.is_sure writer.old ≡ true → IsErrOf result SmpStop.Write → ⊥ }
{
    let mut waiting = Vec::new(alloc);
    for number in 1..u64::MAX {
        let mut line = Vec::new(alloc);
        let is_ended = read_line(reader, &mut waiting, &mut line, writer)?;
        take_line(alloc, fabric, number, &line, writer)?;
        if !is_ended {
            return Ok(());
        }
    }
    Err(SmpStop::Read)
}

/// Answers the SMP of a line, if it has one.
fn take_line<W: Output>(
    alloc: Global,
    fabric: &mut Fabric,
    number: u64,
    line: &[u8],
    writer: &mut W,
) -> Result<(), SmpStop>
    ensures takes { TakesLine number line.now fabric.old result fabric.new (W.contents writer.old) (W.contents writer.new) }
    ensures sure { W.is_sure writer.old ≡ true → IsErrOf result SmpStop.Write → ⊥ }
    ensures stays { W.is_sure writer.old ≡ true → W.is_sure writer.new ≡ true }
{
    let Some(smp) = smp_in(line) else {
        return Err(SmpStop::Line(number));
    };
    let Some(smp) = smp else {
        return Ok(());
    };
    let reply = fabric.exchange(&smp);
    let text = reply_line(alloc, &reply)?;
    if write_whole(writer, &text) {
        Ok(())
    } else {
        Err(SmpStop::Write)
    }
}

/// The SMP of a line, if it has one; `None` for a line that is faulty.
fn smp_in(line: &[u8]) -> Option<Option<Mad>>
    ensures { result ≡ smp_in line.now }
{
    let mut words = Words::of(line)?;
    match (words.next(), words.next()) {
        (None, _) => Some(None),
        (Some(word), None) => Some(Some(mad_in(word)?)),
        _ => None,
    }
}

/// The line of a reply, or of none.
fn reply_line(alloc: Global, reply: &Option<Mad>) -> Result<Vec<u8>, AllocError>
    ensures { IfOk result (λ text. text.items ≡ reply_line reply.now) }
{
    let mut text = Vec::new(alloc);
    match reply {
        Some(reply) => push_mad(&mut text, reply)?,
        None => text.extend_from_slice(b"none\n")?,
    }
    Ok(text)
}

/// Adds an SMP as `256:HEX`, and LF.
pub(crate) fn push_mad(text: &mut Vec<u8>, smp: &Mad) -> Result<(), AllocError>
    ensures { OnOk result (text.new.items ≡ text.old.items ++ mad_line smp.now) }
{
    let mut room = [0; 512];
    text.extend_from_slice(b"256:")?;
    text.extend_from_slice(digits_of(smp, &mut room))?;
    text.extend_from_slice(b"\n")
}
