//! The limits that several crates speak of.

/// How many bytes a memory has at most.
pub const MAX_MEMORY: u64 = 33_554_432;

/// How many bytes an access has at most.
pub const MAX_TRANSFER: u64 = 1_048_576;

/// How many slots a ring has at most.
pub const MAX_RING: u64 = 65_536;

/// How many regions an image has at most.
pub const MAX_REGIONS: u64 = 4_096;

/// How many queues an image has at most.
pub const MAX_QUEUES: u64 = 65_535;

/// How many message places an image has, one for each chain, at most.
pub const MAX_RECEIVES: u64 = 16;

/// How many slots all rings of an image have together, at most.
pub const MAX_SLOTS: u64 = 524_288;

/// The number by which the receive counter of chain 0 is named: above those of all queues.
pub const RECEIVE_BASE: u64 = 65_536;
