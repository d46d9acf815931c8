//! The bits of the ComponentMask that name the components of a request by ServiceRecord (IBA volume 1, 15.2.5.14). The numbers of
//! ServiceData have the bits from 7 on.

/// ServiceID.
pub const SERVICE_ID: u64 = 1 << 0;

/// ServiceGID.
pub const SERVICE_GID: u64 = 1 << 1;

/// ServiceP_Key.
pub const SERVICE_P_KEY: u64 = 1 << 2;

/// ServiceLease.
pub const SERVICE_LEASE: u64 = 1 << 4;

/// ServiceKey.
pub const SERVICE_KEY: u64 = 1 << 5;

/// ServiceName.
pub const SERVICE_NAME: u64 = 1 << 6;
