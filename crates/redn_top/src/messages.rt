//! The messages that words give to the chains of an image.

ghost use Rattle.std.specs.Prelude.{◌≡◌, Ok, None, [], replicate, map, string_bytes, IfOk, IfErr, OnOk};
ghost use Rattle.hex.specs.Hex.{decode_of};
ghost use Rattle.redn_command.specs.Words.{message_view};
ghost use Rattle.redn_top.specs.MessageWords.{messages, word_faults};
ghost use Rattle.redn_top.specs.Refusals.{DigitsRefused, WordsRefused};
ghost use Rattle.redn_top.specs.Reasons.{Or, Nil, first_fault};

use crate::status::{MessageFault, Status};
use hex::FromHexError;
use redn_command::MessageWord;
use redn_words::{Memory, Messages};
use std::alloc::Global;

/// The bytes of a message word.
fn message_bytes(alloc: Global, word: &MessageWord) -> Result<Vec<u8>, Status>
    ensures bytes { IfOk result (λ bytes. decode_of (string_bytes word.now.hex) ≡ Ok bytes.items) }
    ensures refused { IfErr result (DigitsRefused word.now.chain (string_bytes word.now.hex)) }
{
    match hex::decode(alloc, word.hex.as_bytes()) {
        Ok(bytes) => Ok(bytes),
        Err(FromHexError::OutOfMemory) => Err(Status::Memory),
        Err(_) => Err(Status::Message(MessageFault::BadHex { chain: word.chain })),
    }
}

/// No message for any of so many chains.
fn no_messages(alloc: Global, chains: usize) -> Result<Vec<Option<Vec<u8>>>, Memory>
    ensures { IfOk result (λ list. list.items ≡ replicate chains None) }
{
    let mut list = Vec::new(alloc);
    for _ in 0..chains {
        list.push(None)?;
    }
    Ok(list)
}

/// The messages for so many chains that words give.
pub fn messages_of(alloc: Global, chains: usize, words: &[MessageWord]) -> Result<Messages, Status>
    ensures messages { IfOk result (λ ms. ms ≡ messages chains (map message_view words.now)) }
    ensures accepted { OnOk result (word_faults chains [] (map message_view words.now) ≡ []) }
    ensures refused { IfErr result
        (WordsRefused (Or (first_fault (word_faults chains [] (map message_view words.now))) Nil)) }
{
    let mut list = no_messages(alloc, chains)?;
    for word in words {
        let chain = word.chain;
        let Some(place) = list.get_mut(chain as usize) else {
            return Err(Status::Message(MessageFault::NoChain { chain }));
        };
        if place.is_some() {
            return Err(Status::Message(MessageFault::Twice { chain }));
        }
        *place = Some(message_bytes(alloc, word)?);
    }
    Ok(Messages { list })
}
