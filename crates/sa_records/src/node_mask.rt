//! The bits of the ComponentMask that name the components of a request by NodeRecord (IBA volume 1, 15.2.5).

/// LID.
pub const LID: u64 = 1 << 0;

/// BaseVersion.
pub const BASE_VERSION: u64 = 1 << 2;

/// ClassVersion.
pub const CLASS_VERSION: u64 = 1 << 3;

/// NodeType.
pub const NODE_TYPE: u64 = 1 << 4;
