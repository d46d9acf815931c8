//! A script that is carried out while it is read.

ghost use Rattle.std.specs.Prelude.{◌≡◌, ◌+◌, ◌≤◌, ◌<◌, ◌^◌, ◌∷◌, [], true, length, map, IfOk, IsErrOf, OnOk};
ghost use Rattle.sa_replies.specs.State.{at_start};
ghost use Rattle.subnet_core.specs.Stream.{CarriesOut, report_so_far};
ghost use Rattle.subnet_core.specs.EventLines.{line_text, report_text};
ghost use Rattle.subnet_core.specs.StreamSteps.{ReadsOn, Takes, Reports, begun_by_parts, lines_of_parts, rest_of};
ghost use Rattle.subnet_fabric.specs.Sends.{event_of};
ghost use Rattle.std.specs.Io.KnownBytes.{Appends};
ghost use Rattle.text_streams.specs.Reading.{AreInTime, IsEndless};
ghost use Rattle.text_streams.specs.Writing.{AppendsPart};
ghost use Rattle.text_words.specs.Lines.{ends_in, lines};

use crate::event_lines::{LINE_BYTES, push_line};
use crate::fault::RunFault;
use crate::lookup::{PortIndex, places_by_guid};
use crate::subnet::Subnet;
use indexmap::IndexMap;
use std::alloc::{AllocError, Global};
use std::io::ErrorKind;
use std::marker::Model;
use subnet_fabric::Event;
use text_streams::{Output, PIECE, READS, Reader, write_whole};
use text_words::Lines;

/// What is reported waits until it has so many bytes.
const TEXT_BYTES: usize = 8192;

/// A subnet that carries out a script, and what is reported and still to be written.
#[derive(Drop)]
pub(crate) struct Stream {
    alloc: Global,
    subnet: Subnet,
    /// Where the subnet's list of ports has the port of each GUID.
    places: IndexMap<u64, usize>,
    text: Vec<u8>,
    /// How many lines were taken.
    taken: usize,
}

impl Model for Stream {
    ghost use Rattle.std.specs.Prelude.{nat_eq};
    ghost use Rattle.indexmap.specs.IndexMap.{get};
    ghost use Rattle.subnet_core.specs.Lookup.{Finds};
    ghost use Rattle.subnet_core.specs.StreamSteps.{StreamState};

    ghost Value = { StreamState };

    ghost view = { λ stream. record { subnet = stream.subnet; text = stream.text.items; taken = stream.taken } };

    ghost invariant = { λ stream. Finds stream.subnet.inventory.configuration.ports (get nat_eq stream.places) };
}

impl Stream {
    /// Before the first line. It can only run out of memory.
    pub(crate) fn new(alloc: Global, subnet: Subnet) -> Result<Stream, AllocError>
        ensures { IfOk result (λ stream. stream ≡ record { subnet = subnet; text = []; taken = 0 }) }
    {
        let places = places_by_guid(alloc, subnet.inventory().configuration().ports())?;
        Ok(Stream {
            alloc,
            subnet,
            places,
            // With room for the line that makes it too long.
            text: Vec::with_capacity(alloc, TEXT_BYTES + LINE_BYTES)?,
            taken: 0,
        })
    }

    /// Carries a script out from the start, and writes all that is reported.
    pub(crate) fn run<R: Reader, W: Output>(
        &mut self,
        reader: &mut R,
        writer: &mut W,
    ) -> Result<(), RunFault>
        requires text { self.old.text ≡ [] }
        requires taken { self.old.taken ≡ 0 }
        requires fresh { self.old.subnet.administration ≡ at_start self.old.subnet.inventory.configuration }
        ensures exact { CarriesOut _ self.old.subnet.inventory result (R.remaining reader.old) (R.remaining reader.new)
            (W.contents writer.old) (W.contents writer.new) }
        ensures in_time { R.waits reader.old ≡ true → AreInTime (report_so_far self.old.subnet.inventory) (R.remaining reader.old)
            (W.contents writer.old) (R.moments reader.old) (R.moments reader.new) }
        ensures endless { R.is_sure reader.old ≡ true → IsErrOf result RunFault.Read → IsEndless (R.remaining reader.old) }
        ensures sure { W.is_sure writer.old ≡ true → IsErrOf result RunFault.Write → ⊥ }
    {
        let ended = self.carry_out(reader, writer);
        if !self.is_written_out(writer) {
            return Err(RunFault::Write);
        }
        ended
    }

    /// Takes what is read of the script, and answers why it ends. What is reported and not written yet waits then.
    fn carry_out<R: Reader, W: Output>(
        &mut self,
        reader: &mut R,
        writer: &mut W,
    ) -> Result<(), RunFault>
        requires text { self.old.text ≡ [] }
        requires taken { self.old.taken ≡ 0 }
        requires fresh { self.old.subnet.administration ≡ at_start self.old.subnet.inventory.configuration }
        ensures reads { ReadsOn _ result self.old self.new (R.remaining reader.old) (R.remaining reader.new)
            (W.contents writer.old) (W.contents writer.new) }
        ensures in_time { R.waits reader.old ≡ true → AreInTime (report_so_far self.old.subnet.inventory) (R.remaining reader.old)
            (W.contents writer.old) (R.moments reader.old) (R.moments reader.new) }
        ensures endless { R.is_sure reader.old ≡ true → IsErrOf result RunFault.Read → IsEndless (R.remaining reader.old) }
        ensures sure { W.is_sure writer.old ≡ true → IsErrOf result RunFault.Write → ⊥ }
        ensures stays { W.is_sure writer.old ≡ true → W.is_sure writer.new ≡ true }
    {
        let mut begun = Vec::new(self.alloc);
        for _turn in 0..READS {
            self.catch_up(reader, writer)?;
            let mut piece = [0u8; PIECE];
            match reader.next_piece(&mut piece, writer) {
                Ok(0) => return self.take_last(&begun, writer),
                Ok(count) => self.take_piece(&mut begun, &piece[..count], writer)?,
                Err(error) if error.kind() == ErrorKind::Interrupted => {}
                Err(_) => return Err(RunFault::Read),
            }
        }
        Err(RunFault::Read)
    }

    /// Writes what is reported, if the next read may have to wait, so that a partner sees it before its next line.
    fn catch_up<R: Reader, W: Output>(&mut self, reader: &R, writer: &mut W) -> Result<(), RunFault>
        ensures reports { Reports [] result self.old self.new (W.contents writer.old) (W.contents writer.new) }
        ensures written { R.waits reader.now ≡ true → OnOk result (self.new.text ≡ []) }
        ensures sure { W.is_sure writer.old ≡ true → IsErrOf result RunFault.Write → ⊥ }
        ensures stays { W.is_sure writer.old ≡ true → W.is_sure writer.new ≡ true }
    {
        if !reader.may_wait() || self.text.is_empty() {
            return Ok(());
        }
        self.write_out(writer)
    }

    /// Takes the line at the end of a script, if it lacks its LF.
    fn take_last<W: Output>(&mut self, begun: &[u8], writer: &mut W) -> Result<(), RunFault>
        requires { self.old.taken + 1 < 2 ^ 64 }
        ensures takes { Takes (rest_of begun.now) result self.old self.new (W.contents writer.old) (W.contents writer.new) }
        ensures sure { W.is_sure writer.old ≡ true → IsErrOf result RunFault.Write → ⊥ }
        ensures stays { W.is_sure writer.old ≡ true → W.is_sure writer.new ≡ true }
    {
        if begun.is_empty() {
            Ok(())
        } else {
            self.take_line(begun, writer)
        }
    }

    /// Takes the lines that end in a piece, the first behind what was begun of it.
    fn take_piece<W: Output>(
        &mut self,
        begun: &mut Vec<u8>,
        piece: &[u8],
        writer: &mut W,
    ) -> Result<(), RunFault>
        requires { self.old.taken + length piece.now < 2 ^ 64 }
        ensures takes { Takes (lines_of_parts begun.old.items (lines piece.now)) result self.old self.new
            (W.contents writer.old) (W.contents writer.new) }
        ensures begun { OnOk result (begun.new.items ≡ begun_by_parts begun.old.items (lines piece.now)) }
        ensures few { OnOk result (self.new.taken ≤ self.old.taken + length piece.now) }
        ensures sure { W.is_sure writer.old ≡ true → IsErrOf result RunFault.Write → ⊥ }
        ensures stays { W.is_sure writer.old ≡ true → W.is_sure writer.new ≡ true }
    {
        for part in Lines::new(piece) {
            self.take_part(begun, part, writer)?;
        }
        Ok(())
    }

    /// Takes the line that ends in this part of it, or adds the part to what was begun.
    fn take_part<W: Output>(
        &mut self,
        begun: &mut Vec<u8>,
        part: &[u8],
        writer: &mut W,
    ) -> Result<(), RunFault>
        requires { self.old.taken + 1 < 2 ^ 64 }
        ensures takes { Takes (lines_of_parts begun.old.items (part.now ∷ [])) result self.old self.new
            (W.contents writer.old) (W.contents writer.new) }
        ensures begun { OnOk result (begun.new.items ≡ begun_by_parts begun.old.items (part.now ∷ [])) }
        ensures sure { W.is_sure writer.old ≡ true → IsErrOf result RunFault.Write → ⊥ }
        ensures stays { W.is_sure writer.old ≡ true → W.is_sure writer.new ≡ true }
    {
        if !is_whole(part) {
            begun.extend_from_slice(part)?;
            return Ok(());
        }
        if begun.as_slice().is_empty() {
            return self.take_line(part, writer);
        }
        begun.extend_from_slice(part)?;
        let taken = self.take_line(begun, writer);
        begun.clear();
        taken
    }

    /// Carries out a line, and reports what comes of it.
    fn take_line<W: Output>(&mut self, line: &[u8], writer: &mut W) -> Result<(), RunFault>
        requires { self.old.taken + 1 < 2 ^ 64 }
        ensures takes { Takes (line.now ∷ []) result self.old self.new (W.contents writer.old) (W.contents writer.new) }
        ensures sure { W.is_sure writer.old ≡ true → IsErrOf result RunFault.Write → ⊥ }
        ensures stays { W.is_sure writer.old ≡ true → W.is_sure writer.new ≡ true }
    {
        let number = self.taken + 1;
        let command = self.subnet.parse(number, line)?;
        self.taken = number;
        match command {
            Some(command) => {
                let events = self.subnet.step(&command)?;
                self.write_reports(&events, writer)
            }
            None => Ok(()),
        }
    }

    /// Reports of these events.
    fn write_reports<W: Output>(&mut self, events: &[Event], writer: &mut W) -> Result<(), RunFault>
        ensures reports { Reports (report_text self.old.subnet.inventory.configuration.ports (map event_of events.now)) result self.old self.new
            (W.contents writer.old) (W.contents writer.new) }
        ensures sure { W.is_sure writer.old ≡ true → IsErrOf result RunFault.Write → ⊥ }
        ensures stays { W.is_sure writer.old ≡ true → W.is_sure writer.new ≡ true }
    {
        for event in events {
            self.report_one(event, writer)?;
        }
        Ok(())
    }

    /// Reports of one event, once there is room for its line.
    fn report_one<W: Output>(&mut self, event: &Event, writer: &mut W) -> Result<(), RunFault>
        ensures reports { Reports (line_text self.old.subnet.inventory.configuration.ports (event_of event.now)) result self.old self.new
            (W.contents writer.old) (W.contents writer.new) }
        ensures sure { W.is_sure writer.old ≡ true → IsErrOf result RunFault.Write → ⊥ }
        ensures stays { W.is_sure writer.old ≡ true → W.is_sure writer.new ≡ true }
    {
        self.make_room(writer)?;
        let ports = PortIndex::new(
            self.subnet.inventory().configuration().ports(),
            &self.places,
        );
        if push_line(&mut self.text, &ports, event).is_err() {
            // What the text has of the line is not known.
            self.text.clear();
            return Err(RunFault::NoMemory);
        }
        Ok(())
    }

    /// Writes what is still to be written, and flushes the writer, and answers whether all of it went out.
    fn is_written_out<W: Output>(&self, writer: &mut W) -> bool
        ensures whole { result ≡ true → Appends (W.contents writer.old) (W.contents writer.new) self.now.text }
        ensures part { AppendsPart (W.contents writer.old) (W.contents writer.new) self.now.text }
        ensures sure { W.is_sure writer.old ≡ true → result ≡ true }
    {
        write_whole(writer, &self.text)
    }

    /// Makes room for a line.
    fn make_room<W: Output>(&mut self, writer: &mut W) -> Result<(), RunFault>
        ensures reports { Reports [] result self.old self.new (W.contents writer.old) (W.contents writer.new) }
        ensures sure { W.is_sure writer.old ≡ true → IsErrOf result RunFault.Write → ⊥ }
        ensures stays { W.is_sure writer.old ≡ true → W.is_sure writer.new ≡ true }
    {
        if self.text.len() < TEXT_BYTES {
            return Ok(());
        }
        self.write_out(writer)
    }

    /// Writes what is reported, and flushes the writer. If the writer refuses, the rest is lost.
    fn write_out<W: Output>(&mut self, writer: &mut W) -> Result<(), RunFault>
        ensures reports { Reports [] result self.old self.new (W.contents writer.old) (W.contents writer.new) }
        ensures written { self.new.text ≡ [] }
        ensures sure { W.is_sure writer.old ≡ true → IsErrOf result RunFault.Write → ⊥ }
        ensures stays { W.is_sure writer.old ≡ true → W.is_sure writer.new ≡ true }
    {
        let is_written = write_whole(writer, &self.text);
        self.text.clear();
        if !is_written {
            return Err(RunFault::Write);
        }
        Ok(())
    }
}

/// Whether a line has its LF.
fn is_whole(line: &[u8]) -> bool
    ensures { result ≡ ends_in 10 line.now }
{
    matches!(line, [.., b'\n'])
}
