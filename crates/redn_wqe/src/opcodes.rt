ghost use Rattle.std.specs.Prelude.{◌≡◌, ◌%◌, ◌==◌};
ghost use Rattle.redn_words.specs.Requests.{opcode_of};
ghost use Rattle.redn_words.specs.Steps.{class_of};

use redn_words::{Class, Opcode, Request};

/// The opcodes' numbers.
pub const NOOP: u16 = 0;

pub const WRITE: u16 = 1;

pub const READ: u16 = 2;

pub const CAS: u16 = 3;

pub const ADD: u16 = 4;

pub const SEND: u16 = 5;

pub const WAIT: u16 = 6;

pub const ENABLE: u16 = 7;

/// What the opcode's number names.
#[tactic(auto, unfolding(redn_words::specs::Requests::opcode_named))]
pub fn opcode(r: &Request) -> Opcode
    ensures { result ≡ opcode_of r.now }
{
    match r.op {
        NOOP => Opcode::Noop,
        WRITE => Opcode::Write,
        READ => Opcode::Read,
        CAS => Opcode::Cas,
        ADD => Opcode::Add,
        SEND => Opcode::Send,
        WAIT => Opcode::Wait,
        ENABLE => Opcode::Enable,
        other => Opcode::Undefined(other),
    }
}

/// What the start of a request asks for.
pub fn class(r: &Request) -> Class
    ensures { result ≡ class_of r.now }
{
    match opcode(r) {
        Opcode::Wait => Class::Passes,
        Opcode::Enable => Class::Raises,
        Opcode::Undefined(_) => Class::Undefined,
        _ => Class::Flies,
    }
}

/// Whether its completion is counted: bit 0 of the flags, whose other bits mean nothing.
pub fn is_signalled(r: &Request) -> bool
    ensures { result ≡ (r.now.flags % 2 == 1) }
{
    r.flags % 2 == 1
}
