use std::alloc::{AllocError, AllocFailed};
use std::marker::Model;

/// Want of memory.
#[derive(Clone, Copy, Debug, PartialEq, Eq)]
pub struct Memory;

impl From<AllocError> for Memory {
    fn from(_e: AllocError) -> Memory {
        Memory
    }
}

impl<T: Drop> From<AllocFailed<T>> for Memory {
    fn from(_e: AllocFailed<T>) -> Memory {
        Memory
    }
}

/// For each chain, by its number, the bytes of its message, or none.
#[derive(Debug, Drop)]
pub struct Messages {
    pub list: Vec<Option<Vec<u8>>>,
}

impl Model for Messages {
    ghost use Rattle.std.specs.Prelude.{List, Option, ℕ, map};
    ghost use Rattle.std.specs.Option.{option_map};

    ghost Value = { List (Option (List ℕ)) };

    ghost view = { λ m. map (option_map (λ v. v.items)) m.list.items };
}

/// What an adapter may do next.
#[derive(Clone, Copy, Debug, PartialEq, Eq)]
pub enum Action {
    Deliver { chain: u32 },
    Fetch { queue: u32, index: u64 },
    Start { queue: u32 },
    Land { queue: u32, index: u64 },
    Complete { queue: u32 },
}

/// What a step shows.
#[derive(Clone, Copy, Debug, PartialEq, Eq)]
pub enum Obs {
    Nothing,
    Set {
        chain: u16,
        var: u32,
        word: u64,
    },
    Load {
        chain: u16,
        var: u32,
        table: u16,
        offset: u64,
        word: u64,
    },
    Look {
        chain: u16,
        table: u16,
        offset: u64,
        word: u64,
    },
    Store {
        chain: u16,
        table: u16,
        offset: u64,
        word: u64,
    },
    Reply {
        chain: u16,
        count: u8,
        words: [u64; 8],
    },
    Fault {
        chain: u16,
        table: u16,
        offset: u64,
    },
    Stale {
        queue: u32,
        index: u64,
    },
    Undefined {
        queue: u32,
        index: u64,
    },
    Refused {
        queue: u32,
        index: u64,
    },
    Odd {
        queue: u32,
        index: u64,
    },
}

/// The ten fields of a work request.
#[derive(Clone, Copy, Debug, PartialEq, Eq)]
pub struct Request {
    pub op: u16,
    pub id: u64,
    pub lkey: u32,
    pub rkey: u32,
    pub local: u64,
    pub remote: u64,
    pub length: u64,
    pub first: u64,
    pub second: u64,
    pub flags: u64,
}

#[derive(Clone, Copy, Debug, PartialEq, Eq)]
pub enum Opcode {
    Noop,
    Write,
    Read,
    Cas,
    Add,
    Send,
    Wait,
    Enable,
    Undefined(u16),
}

/// What the start of a request asks for: to go into flight, to pass (a WAIT), to raise a queue's
/// limit (an ENABLE), or nothing that is known.
#[derive(Clone, Copy, Debug, PartialEq, Eq)]
pub enum Class {
    Flies,
    Passes,
    Raises,
    Undefined,
}

#[derive(Clone, Copy, Debug, PartialEq, Eq)]
pub enum Kind {
    Vars,
    Table(u16),
    Code,
    Control,
    Message,
}

#[derive(Clone, Copy, Debug, PartialEq, Eq)]
pub struct Region {
    pub key: u32,
    pub domain: u16,
    pub kind: Kind,
    pub rights: u8,
    pub base: u64,
    pub len: u64,
}

/// What an access needs.
#[derive(Clone, Copy, Debug, PartialEq, Eq)]
pub enum Need {
    Any,
    LocalWrite,
    RemoteRead,
    RemoteWrite,
    Atomic,
}

/// Where an allowed access lies.
#[derive(Clone, Copy, Debug, PartialEq, Eq)]
pub struct Spot {
    pub at: u64,
    pub kind: Kind,
}

#[derive(Clone, Copy, Debug, PartialEq, Eq)]
pub enum Refusal {
    NoKey,
    WrongDomain,
    Length,
    Range,
    Unaligned,
    Rights,
}

#[derive(Clone, Copy, Debug, PartialEq, Eq)]
pub struct QueueRow {
    pub domain: u16,
    pub managed: bool,
    pub base: u64,
    pub slots: u64,
    pub limit: u64,
}

/// Where a chain's message is put.
#[derive(Clone, Copy, Debug, PartialEq, Eq)]
pub struct Receive {
    pub base: u64,
    pub len: u64,
}

/// A request in flight.
#[derive(Clone, Copy, Debug, PartialEq, Eq)]
pub struct Flight {
    pub index: u64,
    pub copy: [u8; 64],
    pub landed: bool,
}

/// Whose request it is, and where it stands.
#[derive(Clone, Copy, Debug, PartialEq, Eq)]
pub struct Origin {
    pub chain: u16,
    pub queue: u32,
    pub index: u64,
}
