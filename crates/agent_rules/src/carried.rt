//! What a Set carries, read from the attribute that it has.

ghost use Rattle.std.specs.Prelude.{◌≡◌};
ghost use Rattle.agent_rules.specs.Carried.{linear_fdb_top_in, ports_in, words_in};

use attr_tables::{PortBlock, SwitchInfo, WordBlock};

/// The words of a block of keys or masks.
pub fn words_in(attribute: &[u8; 64]) -> [u16; 32]
    ensures { result ≡ words_in attribute.now }
{
    WordBlock::read(attribute).words
}

/// The ports of a block of a linear forwarding table.
pub fn ports_in(attribute: &[u8; 64]) -> [u8; 64]
    ensures { result ≡ ports_in attribute.now }
{
    PortBlock::read(attribute).ports
}

/// LinearFDBTop of SwitchInfo.
pub fn linear_fdb_top_in(attribute: &[u8; 64]) -> u16
    ensures { result ≡ linear_fdb_top_in attribute.now }
{
    SwitchInfo::read(attribute).linear_fdb_top
}
