//! That each attribute is read back as it was written. The functions do nothing; their contracts are the laws.

ghost use Rattle.attr_tables.specs.declared.blocks.TheConstants.{PORTS_PER_BLOCK, WORDS_PER_BLOCK};
ghost use Rattle.std.specs.Prelude.{◌≡◌, ◌<◌};
ghost use Rattle.attr_tables.specs.Blocks.{word_bytes};
ghost use Rattle.attr_tables.specs.Laws.{AttributesAreEncoded, BlocksTile};
ghost use Rattle.attr_tables.specs.NodeInfo.{node_info_bytes};
ghost use Rattle.attr_tables.specs.PortInfo.{port_info, port_info_bytes};
ghost use Rattle.attr_tables.specs.SwitchInfo.{switch_info_bytes};
ghost use Rattle.mad_layout.specs.Layout.{Fits};

use crate::node_info::NodeInfo;
use crate::port_block::PortBlock;
use crate::port_info::PortInfo;
use crate::switch_info::SwitchInfo;
use crate::word_block::WordBlock;

/// A NodeInfo that is written is read again.
pub fn node_info_reads_back(info: &NodeInfo, bytes: &mut [u8; 64]) -> NodeInfo
    requires { info.now.vendor_id < 16777216 }
    ensures read { result ≡ info.now }
    ensures written { bytes.new ≡ node_info_bytes info.now }
{
    info.write(bytes);
    NodeInfo::read(bytes)
}

/// A PortInfo that is written is read again.
pub fn port_info_reads_back(info: &PortInfo, bytes: &mut [u8; 64]) -> PortInfo
    requires { Fits (port_info info.now) }
    ensures read { result ≡ info.now }
    ensures written { bytes.new ≡ port_info_bytes info.now }
{
    info.write(bytes);
    PortInfo::read(bytes)
}

/// A SwitchInfo that is written is read again.
pub fn switch_info_reads_back(info: &SwitchInfo, bytes: &mut [u8; 64]) -> SwitchInfo
    requires { info.now.life_time_value < 32 }
    ensures read { result ≡ info.now }
    ensures written { bytes.new ≡ switch_info_bytes info.now }
{
    info.write(bytes);
    SwitchInfo::read(bytes)
}

/// A block of ports that is written is read again.
pub fn port_block_reads_back(block: &PortBlock, bytes: &mut [u8; 64]) -> PortBlock
    ensures read { result ≡ block.now }
    ensures written { bytes.new ≡ block.now.ports }
{
    block.write(bytes);
    PortBlock::read(bytes)
}

/// A block of keys or masks that is written is read again.
pub fn word_block_reads_back(block: &WordBlock, bytes: &mut [u8; 64]) -> WordBlock
    ensures read { result ≡ block.now }
    ensures written { bytes.new ≡ word_bytes block.now.words }
{
    block.write(bytes);
    WordBlock::read(bytes)
}

/// Every entry of a table stands at one place of one of its blocks. Like the law below it does nothing:
/// its contract is the law.
pub fn blocks_tile()
    ensures { BlocksTile }
{}

/// What records and blocks encode fills an attribute.
pub fn attributes_are_encoded()
    ensures { AttributesAreEncoded }
{}

/// How many entries a block has, written out: a block is one attribute of 64 bytes.
pub fn the_numbers()
    ensures ports_per_block { PORTS_PER_BLOCK ≡ 64 }
    ensures words_per_block { WORDS_PER_BLOCK ≡ 32 }
{}
