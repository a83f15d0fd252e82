//! The rights of a region, as bits of a number.

/// A request of the region's own domain may write here by its local side.
pub const LOCAL_WRITE: u8 = 1;

/// It may read here by its remote side.
pub const REMOTE_READ: u8 = 2;

/// It may write here by its remote side.
pub const REMOTE_WRITE: u8 = 4;

/// It may swap and add here.
pub const ATOMIC: u8 = 8;
