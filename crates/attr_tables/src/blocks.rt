//! Where the entries of a table stand in its blocks.

ghost use Rattle.std.specs.Prelude.{◌<◌};
ghost use Rattle.attr_tables.specs.Blocks.{IsBlockCount, StandsAt};

/// How many ports a block of a linear forwarding table has.
pub const PORTS_PER_BLOCK: usize = 64;

/// How many keys a block of a P_Key table has, and how many masks one of an MFT.
pub const WORDS_PER_BLOCK: usize = 32;

/// Where an entry of a table stands.
#[derive(Clone, Copy, Debug, PartialEq, Eq)]
pub struct BlockPlace {
    /// The block, counted from 0.
    pub block: usize,
    /// The place in that block, counted from 0.
    pub place: usize,
}

/// How many blocks of `SIZE` entries a table of so many entries needs.
pub fn block_count<const SIZE: usize>(entries: usize) -> usize
    requires { 0 < SIZE }
    ensures { IsBlockCount SIZE entries result }
{
    entries.div_ceil(SIZE)
}

/// Where the entry of that index stands, in blocks of `SIZE` entries.
pub fn block_place<const SIZE: usize>(index: usize) -> BlockPlace
    requires { 0 < SIZE }
    ensures { StandsAt SIZE index result.block result.place }
{
    BlockPlace {
        block: index / SIZE,
        place: index % SIZE,
    }
}
