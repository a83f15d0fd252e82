//! The messages of the generated file.

ghost use Rattle.std.specs.Prelude.{◌≡◌, ◌<◌, IfOk};
ghost use Rattle.redn_gen.specs.Generated.{generated_messages, message as message_of};

use crate::number::{chain_count, key_of};
use redn_words::{Memory, Messages};
use std::alloc::Global;

/// The message of a chain: the offset of a bucket and its key.
#[tactic(auto, unfolding(redn_words::specs::Words::spelled))]
fn message(alloc: Global, n: u32, chain: u32) -> Result<Vec<u8>, Memory>
    ensures { IfOk result (λ bytes. bytes.items ≡ message_of n chain) }
{
    let bucket = (u64::from(n) + u64::from(chain)) % 511;
    let mut bytes = Vec::new(alloc);
    bytes.extend_from_slice(&(16 * bucket).to_be_bytes())?;
    bytes.extend_from_slice(&key_of(n, bucket).to_be_bytes())?;
    Ok(bytes)
}

/// The messages of the generated file of a number, one for each chain in order. Each is two words
/// of 8 bytes, the most significant first: the offset of a bucket, in bytes, and its key. The one
/// error is want of memory.
#[tactic(auto, using(crate::proofs::Below::none))]
pub fn gen_messages(alloc: Global, n: u32) -> Result<Messages, Memory>
    ensures messages { IfOk result (λ messages. messages ≡ generated_messages n) }
{
    let mut list = Vec::new(alloc);
    for chain in 0..chain_count(n) {
        list.push(Some(message(alloc, n, chain)?))?;
    }
    Ok(Messages { list })
}
