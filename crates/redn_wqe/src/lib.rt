//! A work request and the 64 bytes of its slot.
#![tactic(auto)]

mod codec;
mod fields;
mod opcodes;

pub use codec::{decode, encode};
pub use fields::{Field, field_at};
pub use opcodes::{ADD, CAS, ENABLE, NOOP, READ, SEND, WAIT, WRITE, class, is_signalled, opcode};
