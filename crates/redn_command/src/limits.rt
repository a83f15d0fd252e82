//! How many steps a made schedule may have.

/// The most steps of a fair or shuffled schedule.
pub const MAX_STEPS: u64 = 4_000_000;

/// The same where the steps are recorded.
pub const MAX_RECORDED: u64 = 500_000;
