//! The multicast forwarding table, read and set by blocks and positions.

ghost use Rattle.std.specs.Prelude.{◌≡◌};
ghost use Rattle.agent_rules.specs.Agent.{Leaves};
ghost use Rattle.switch_model.specs.Agent.{is_mask_modifier, mask_block, mask_position, get_masks, set_masks};

use agent_rules::{set_word_block, word_block_at};
use mad_layout::MadStatus;

/// How many positions a multicast forwarding table has: each has a mask of 16 ports.
pub const POSITIONS: usize = 3;

/// The block of masks that the modifier names.
pub fn get_masks<const MFT: usize>(
    modifier: u32,
    masks: &[[u16; MFT]; POSITIONS],
) -> Result<[u8; 64], MadStatus>
    ensures { result ≡ get_masks modifier masks.now }
{
    let position = mask_position(modifier);
    if !is_mask_modifier(modifier) || position >= POSITIONS {
        return Err(MadStatus::InvalidField);
    }
    word_block_at(&masks[position], mask_block(modifier))
}

/// Sets the block of masks that the modifier names.
pub fn set_masks<const MFT: usize>(
    modifier: u32,
    wanted: &[u8; 64],
    masks: &mut [[u16; MFT]; POSITIONS],
) -> Result<(), MadStatus>
    ensures { Leaves result masks.old masks.new (set_masks modifier wanted.now masks.old) }
{
    let position = mask_position(modifier);
    if !is_mask_modifier(modifier) || position >= POSITIONS {
        return Err(MadStatus::InvalidField);
    }
    set_word_block(&mut masks[position], mask_block(modifier), wanted)
}

/// Whether the bits between position and block are 0.
fn is_mask_modifier(modifier: u32) -> bool
    ensures { result ≡ is_mask_modifier modifier }
{
    (modifier >> 9) % (1 << 19) == 0
}

fn mask_position(modifier: u32) -> usize
    ensures { result ≡ mask_position modifier }
{
    (modifier >> 28) as usize
}

fn mask_block(modifier: u32) -> usize
    ensures { result ≡ mask_block modifier }
{
    (modifier % (1 << 9)) as usize
}
