//! Tables of 16-bit words, read and set by blocks.

ghost use Rattle.std.specs.Prelude.{◌≡◌};
ghost use Rattle.agent_rules.specs.Agent.{word_block, set_word_block, Leaves};

use crate::carried::words_in;
use attr_tables::{WORDS_PER_BLOCK, WordBlock};
use mad_layout::MadStatus;

/// The block of that number of a table of keys or masks, as the attribute, or the refusal if the
/// table has no such block.
#[tactic(auto, unfolding(attr_tables::specs::Blocks::block_of))]
pub fn word_block_at(table: &[u16], block: usize) -> Result<[u8; 64], MadStatus>
    ensures { result ≡ word_block block table.now }
{
    if block >= table.len() / WORDS_PER_BLOCK {
        return Err(MadStatus::InvalidField);
    }
    let mut words = [0; WORDS_PER_BLOCK];
    let first = WORDS_PER_BLOCK * block;
    words.copy_from_slice(&table[first..first + WORDS_PER_BLOCK]);
    let mut attribute = [0; 64];
    WordBlock { words }.write(&mut attribute);
    Ok(attribute)
}

/// Sets that block of a table of keys or masks to the words of an attribute, or refuses if the table
/// has no such block.
#[tactic(auto, unfolding(attr_tables::specs::Blocks::with_block))]
pub fn set_word_block(
    table: &mut [u16],
    block: usize,
    attribute: &[u8; 64],
) -> Result<(), MadStatus>
    ensures { Leaves result table.old table.new (set_word_block block attribute.now table.old) }
{
    if block >= table.len() / WORDS_PER_BLOCK {
        return Err(MadStatus::InvalidField);
    }
    let first = WORDS_PER_BLOCK * block;
    table[first..first + WORDS_PER_BLOCK].copy_from_slice(&words_in(attribute));
    Ok(())
}
