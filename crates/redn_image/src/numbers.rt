//! Rows as the numbers that stand for them in the bytes of an image. They may break any rule.

ghost use Rattle.std.specs.Prelude.{◌≡◌};
ghost use Rattle.redn_image.specs.Rules.{kind_number, queue_numbers, region_numbers, table_number};

use redn_words::{Kind, QueueRow, Region};

#[derive(Clone, Copy)]
pub struct RegionNumbers {
    pub key: u32,
    pub domain: u16,
    pub kind: u16,
    pub table: u32,
    pub rights: u32,
    pub base: u64,
    pub len: u64,
}

#[derive(Clone, Copy)]
pub struct QueueNumbers {
    pub domain: u32,
    pub managed: u32,
    pub base: u64,
    pub slots: u64,
    pub limit: u64,
}

/// A broken rule, and the row that breaks it: 0 for a rule of the header.
#[derive(Clone, Copy)]
pub struct Fault {
    pub rule: u8,
    pub index: u32,
}

/// The numbers of a kind and of its table.
pub fn kind_fields(kind: Kind) -> (u16, u32)
    ensures { result ≡ (kind_number kind, table_number kind) }
{
    match kind {
        Kind::Vars => (0, 0),
        Kind::Table(table) => (1, u32::from(table)),
        Kind::Code => (2, 0),
        Kind::Control => (3, 0),
        Kind::Message => (4, 0),
    }
}

/// The numbers of a region's row.
pub fn numbers_of_region(r: &Region) -> RegionNumbers
    ensures { result ≡ region_numbers r.now }
{
    let (kind, table) = kind_fields(r.kind);
    RegionNumbers {
        key: r.key,
        domain: r.domain,
        kind,
        table,
        rights: u32::from(r.rights),
        base: r.base,
        len: r.len,
    }
}

/// The numbers of a queue's row.
pub fn numbers_of_queue(q: &QueueRow) -> QueueNumbers
    ensures { result ≡ queue_numbers q.now }
{
    QueueNumbers {
        domain: u32::from(q.domain),
        managed: u32::from(q.managed),
        base: q.base,
        slots: q.slots,
        limit: q.limit,
    }
}
