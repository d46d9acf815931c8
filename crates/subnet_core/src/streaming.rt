//! A run whose script comes from a reader, and whose report goes to a writer.

ghost use Rattle.std.specs.Prelude.{◌≡◌, true, IfOk, IsErrOf};
ghost use Rattle.std.specs.Option.{option_copied};
ghost use Rattle.subnet_core.specs.Inventory.{inventory_of};
ghost use Rattle.subnet_core.specs.Stream.{Streams, report_so_far};
ghost use Rattle.text_streams.specs.Reading.{AreInTime, IsEndless};

use crate::bringing_up::bring_up;
use crate::fault::RunFault;
use crate::stream::Stream;
use std::alloc::Global;
use text_streams::{Output, Reader};

/// Runs a script on the subnet of a topology under a partition file, or without one, while it is read: each line is carried
/// out once it is read whole, and what [`run`](crate::run) would report of it goes to the writer.
///
/// If a read may have to wait, all that was reported is written and flushed before it, so that a partner who writes line by
/// line sees the events of each; otherwise the report is written in pieces of some kilobytes.
///
/// The subnet is brought up before the script is read. A faulty line ends the run, and so does a reader that fails or has no
/// end within 1,048,576 reads; the report of the lines before it is written then.
pub fn run_stream<R: Reader, W: Output>(
    alloc: Global,
    topology: &[u8],
    partitions: Option<&[u8]>,
    reader: &mut R,
    writer: &mut W,
) -> Result<(), RunFault>
    ensures exact { Streams result (inventory_of topology.now (option_copied partitions.entry))
        (R.remaining reader.old) (R.remaining reader.new) (W.contents writer.old) (W.contents writer.new) }
    // Before each read that may have to wait, what the lines read so far report is written: a partner who reads it can answer.
    ensures in_time { R.waits reader.old ≡ true → IfOk (inventory_of topology.now (option_copied partitions.entry)) (λ inventory.
        AreInTime (report_so_far inventory) (R.remaining reader.old) (W.contents writer.old) (R.moments reader.old) (R.moments reader.new)) }
    // If no read fails, the script is given up for its length alone; and what a writer takes for sure goes out.
    ensures endless { R.is_sure reader.old ≡ true → IsErrOf result RunFault.Read → IsEndless (R.remaining reader.old) }
    ensures sure { W.is_sure writer.old ≡ true → IsErrOf result RunFault.Write → ⊥ }
{
    let subnet = bring_up(alloc, topology, partitions)?;
    let mut stream = Stream::new(alloc, subnet)?;
    stream.run(reader, writer)
}
