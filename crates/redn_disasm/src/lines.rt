//! Which lines of a listing stand where.

ghost use Rattle.std.specs.Prelude.{◌≡◌};
ghost use Rattle.redn_disasm.specs.Assembly.{fills};

use crate::fields::field_len;

/// Whether a line is one of those that stand behind all rows: whether a slot's, a word's or the last
/// one's begins so.
#[tactic(auto, unfolding(crate::specs::Assembly::fills))]
pub fn is_filling(line: &[u8]) -> bool
    ensures { result ≡ fills line.now }
{
    let word = &line[..field_len(line)];
    word == b"slot".as_slice() || word == b"data".as_slice() || word == b"end".as_slice()
}
