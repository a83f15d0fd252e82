//! Words, zeros and requests behind what a memory has so far.

ghost use Rattle.std.specs.Prelude.{◌≡◌, ◌++◌, ◌<◌, ◌^◌, replicate, OnOk};
ghost use Rattle.redn_words.specs.Words.{spelled};
ghost use Rattle.redn_words.specs.Requests.{encoded};
ghost use Rattle.redn_emit.specs.Layout.{words_bytes};

use byteorder::{BigEndian, WriteBytesExt};
use redn_words::{Memory, Request};
use redn_wqe::encode;

/// Appends the eight bytes of a word.
#[tactic(auto, unfolding(redn_words::specs::Words::spelled))]
pub fn put_word(out: &mut Vec<u8>, word: u64) -> Result<(), Memory>
    ensures { OnOk result (out.new.items ≡ out.old.items ++ spelled 8 word) }
{
    out.write_u64::<BigEndian>(word).map_err(|_| Memory)
}

pub fn put_words(out: &mut Vec<u8>, words: &[u64]) -> Result<(), Memory>
    ensures { OnOk result (out.new.items ≡ out.old.items ++ words_bytes words.now) }
{
    for word in words {
        put_word(out, *word)?;
    }
    Ok(())
}

/// Appends so many bytes of 0.
pub fn put_zeros(out: &mut Vec<u8>, count: u64) -> Result<(), Memory>
    ensures { OnOk result (out.new.items ≡ out.old.items ++ replicate count 0) }
{
    for _i in 0..count {
        out.push(0)?;
    }
    Ok(())
}

/// Appends the slot of a request.
pub fn put_request(out: &mut Vec<u8>, r: &Request) -> Result<(), Memory>
    requires { r.now.id < 2 ^ 48 }
    ensures { OnOk result (out.new.items ≡ out.old.items ++ encoded r.now) }
{
    out.extend_from_slice(&encode(r))?;
    Ok(())
}
