//! How long the files that are read may be, in bytes.

/// The greatest length of a source file.
pub const MAX_FILE: u64 = 1_048_576;

/// The greatest length of an image file.
pub const MAX_IMAGE: u64 = 33_554_432;

/// The greatest length of a listing.
pub const MAX_LISTING: u64 = 268_435_456;

/// The greatest length of a schedule.
pub const MAX_SCHEDULE: u64 = 16_777_216;
