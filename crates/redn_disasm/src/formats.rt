//! How the fields of each line are written.

/// How a field is written.
#[derive(Clone, Copy, Debug, PartialEq, Eq)]
pub enum Format {
    /// A decimal number, and the greatest one that the field can hold.
    Number(u64),
    /// The word of a region's kind.
    Kind,
    /// The word of a queue's order.
    Order,
    /// The word of an opcode, or `?` and its number.
    Op,
    /// The 16 hexadecimal digits of a word.
    Hex,
}

const BITS_16: Format = Format::Number(0xffff);

const BITS_32: Format = Format::Number(0xffff_ffff);

const BITS_48: Format = Format::Number(0xffff_ffff_ffff);

const BITS_64: Format = Format::Number(u64::MAX);

/// The size of memory.
pub const MEMORY: [Format; 1] = [BITS_64];

/// A region's key, domain, kind, table, rights, base and length.
pub const REGION: [Format; 7] = [
    BITS_32,
    BITS_16,
    Format::Kind,
    BITS_32,
    BITS_32,
    BITS_64,
    BITS_64,
];

/// A queue's number, domain, order, base, slots and limit.
pub const QUEUE: [Format; 6] = [BITS_64, BITS_32, Format::Order, BITS_64, BITS_64, BITS_64];

/// A message place's number, base and length.
pub const RECEIVE: [Format; 3] = [BITS_64, BITS_64, BITS_64];

/// A slot's queue and index, and the ten fields of its request.
pub const SLOT: [Format; 12] = [
    BITS_64,
    BITS_64,
    Format::Op,
    BITS_48,
    BITS_32,
    BITS_32,
    BITS_64,
    BITS_64,
    BITS_64,
    BITS_64,
    BITS_64,
    BITS_64,
];

/// A word's offset and its digits.
pub const DATA: [Format; 2] = [BITS_64, Format::Hex];
