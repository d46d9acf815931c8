//! The blocks of a partition's MLID range at each switch, before and after a change of receivers.

ghost use Rattle.std.specs.Prelude.{◌≡◌, ◌<◌, length};
ghost use Rattle.table_push.specs.Masks.{receives_of, wanted_range};
ghost use Rattle.table_push.specs.RangeBlocks.{AreRangeBlocks, IsChangeOf};

use crate::attachments::switches_of;
use crate::multicast::put_range;
use crate::places::blocks_at;
use crate::trees::{Tree, blocks_of};
use attr_tables::WORDS_PER_BLOCK;
use fabric_parts::SWITCHES;
use subnet_model::GroupReceiver;
use switch_model::POSITIONS;
use updn_routes::Routes;

/// A change of who receives what is sent to the groups of a partition.
#[derive(Clone, Copy)]
pub(crate) struct Change<'a> {
    pub(crate) partition: u16,
    pub(crate) before: &'a [GroupReceiver],
    pub(crate) after: &'a [GroupReceiver],
    /// The spanning tree of the routes.
    pub(crate) tree: &'a Tree,
    /// The switches whose blocks may differ: bit N is the switch at place N of the graph.
    pub(crate) places: u64,
}

/// How the blocks of a switch are found, for some receivers.
#[derive(Drop)]
pub(crate) enum RangeBlocks {
    /// For one switch at a time: for each MLID of the range the set of switches that have a receiver attached.
    Walked([u64; WORDS_PER_BLOCK]),
    /// For all switches at once: for each MLID of the range the port mask of every switch.
    Masks([[u64; SWITCHES]; WORDS_PER_BLOCK]),
}

impl RangeBlocks {
    /// The blocks for these receivers.
    pub(crate) fn of(
        routes: &Routes,
        change: Change<'_>,
        receivers: &[GroupReceiver],
        is_walked: bool,
    ) -> RangeBlocks
        requires { IsChangeOf routes.now change }
        ensures { AreRangeBlocks routes.now change.entry.partition receivers.now result }
    {
        if is_walked {
            RangeBlocks::Walked(switches_of(routes, change.partition, receivers))
        } else {
            let mut masks = [[0; SWITCHES]; WORDS_PER_BLOCK];
            put_range(routes, change.tree, change.partition, receivers, &mut masks);
            RangeBlocks::Masks(masks)
        }
    }

    /// The blocks of one switch, one for each position.
    pub(crate) fn at(
        &self,
        routes: &Routes,
        change: Change<'_>,
        receivers: &[GroupReceiver],
        place: usize,
    ) -> [[u16; WORDS_PER_BLOCK]; POSITIONS]
        requires of { IsChangeOf routes.now change }
        requires blocks { AreRangeBlocks routes.now change.partition receivers.now self.now }
        requires there { place < length routes.now.graph.switches }
        requires few { place < 64 }
        ensures { result ≡ wanted_range routes.now change.entry.partition (receives_of receivers.now) place }
    {
        match self {
            RangeBlocks::Walked(switches) => blocks_at(
                routes,
                change.tree,
                change.partition,
                receivers,
                switches,
                place,
            ),
            RangeBlocks::Masks(masks) => blocks_of(masks, place),
        }
    }
}
