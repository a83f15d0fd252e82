use thiserror::Error;

/// Why a text has no tokens: the first place at which no token goes on, or the first byte of a
/// number above 2^64 - 1. Places are in bytes from the start of the text.
#[derive(Clone, Copy, Debug, PartialEq, Eq, Error)]
pub enum LexFault {
    #[error("no token goes on at byte {at}")]
    BadByte { at: u32 },
    #[error("the number at byte {at} is above 18446744073709551615")]
    NumberTooWide { at: u32 },
    #[error("out of memory")]
    Memory,
}
