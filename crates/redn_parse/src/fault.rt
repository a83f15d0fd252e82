use thiserror::Error;

/// Why a list of tokens has no tree that is taken. `token` is the number of the first token with
/// which no file goes on, or the number of tokens where the end comes too early; `at` is the byte
/// of the first brace that opens a 65th nested block. The blocks of a chain's own body have
/// depth 1.
#[derive(Clone, Copy, Debug, PartialEq, Eq, Error)]
pub enum ParseFault {
    #[error("no file goes on with token {token}")]
    Unexpected { token: u64 },
    #[error("a 65th nested block opens at byte {at}")]
    Deep { at: u32 },
    #[error("out of memory")]
    Memory,
}
