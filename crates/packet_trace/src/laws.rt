//! What holds of all traces, and a number that definitions and code share. Each function's contract is its law; it does
//! nothing.

ghost use Rattle.std.specs.Prelude.{◌≡◌};
ghost use Rattle.packet_trace.specs.Laws.{AdaptersAccept, TracesHaveAnEnd, TracesShowAllWays, TracesReportDeliveries};
ghost use Rattle.packet_trace.specs.Whole.{TraceLinesAreWhole};
ghost use Rattle.packet_trace.specs.declared.lines.TheConstants.{DATA_QP};

/// A port accepts a packet in its trace if and only if the packet is delivered there. So a trace names the ports to which
/// the fabric carries a packet, and no others.
pub fn traces_report_deliveries()
    ensures { TracesReportDeliveries }
{}

/// If a trace says that a port accepts the packet, the port is one of a channel adapter.
pub fn adapters_accept()
    ensures { AdaptersAccept }
{}

/// The trace of a unicast packet has an end: its last step says why the packet goes no further. So no trace is cut while the
/// packet goes on, if the packet goes in a cycle either.
pub fn traces_have_an_end()
    ensures { TracesHaveAnEnd }
{}

/// The trace of a packet has a step at each port where the packet comes in, and at no other. So no way is cut, no port on it
/// left out, nor a way left out where ways meet.
pub fn traces_show_all_ways()
    ensures { TracesShowAllWays }
{}

/// Each form of a line of a trace, once as a whole text.
pub fn trace_lines_are_whole()
    ensures { TraceLinesAreWhole }
{}

/// The queue pair of a packet that is traced, written out.
pub fn the_numbers()
    ensures { DATA_QP ≡ 2 }
{}
