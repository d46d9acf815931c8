//! What a run answers.

ghost use Rattle.std.specs.Prelude.{◌≡◌, map, IfOk};
ghost use Rattle.subnet_fabric.specs.Sends.{event_of};
ghost use Rattle.subnet_core.specs.EventLines.{report_text};

use crate::event_lines;
use std::alloc::{AllocError, Global};
use std::marker::Model;
use subnet_fabric::Event;
use subnet_model::{Configuration, SubnetPort};

/// What happened in a run: its events, in order, at ports that have names.
#[derive(Debug, Drop)]
pub struct Report {
    alloc: Global,
    configuration: Configuration,
    events: Vec<Event>,
}

impl Model for Report {
    ghost use Rattle.std.specs.Prelude.{map};
    ghost use Rattle.subnet_core.specs.Run.{ReportState};
    ghost use Rattle.subnet_fabric.specs.Sends.{event_of};

    ghost Value = { ReportState };

    ghost view = { λ report. record { ports = report.configuration.ports; events = map event_of report.events.items } };
}

impl Report {
    ghost use Rattle.subnet_core.specs.Run.{ReportState};

    pub(crate) fn new(alloc: Global, configuration: Configuration, events: Vec<Event>) -> Report
        ensures { result ≡ record { ports = configuration.ports; events = map event_of events.items } }
    {
        Report {
            alloc,
            configuration,
            events,
        }
    }

    /// The events, in order.
    pub fn events(&self) -> &[Event]
        ensures { map event_of result.now ≡ self.now.events }
    {
        self.events.as_slice()
    }

    /// The ports at which they happen, and all others.
    pub(crate) fn ports(&self) -> &[SubnetPort]
        ensures { result.now ≡ self.now.ports }
    {
        self.configuration.ports()
    }

    pub(crate) fn into_events(self) -> Vec<Event>
        ensures { map event_of result.items ≡ self.events }
    {
        self.events
    }

    /// The report as it is printed: a line for each event, in ASCII.
    pub fn text(&self) -> Result<Vec<u8>, AllocError>
        ensures { IfOk result (λ text. text.items ≡ report_text self.now.ports self.now.events) }
    {
        event_lines::report_text(self.alloc, self.configuration.ports(), &self.events)
    }
}
