//! The rules of an image. Each is looked at in one pass over its rows, for the first row that breaks it.

ghost use Rattle.std.specs.Prelude.{◌≡◌, ℕ, ◌+◌, ◌^◌, ◌<◌, ◌≤◌, ◌==◌, ◌&&◌, true, None, Some, IfOk, IfSome, OnOk, [], length, not, nat_lt, nat_le, position, if◌then◌else◌};
ghost use Rattle.std.specs.Option.{option_map, option_or};
ghost use Rattle.std.specs.Ordering.{nat_cmp};
ghost use Rattle.std.specs.BTreeMap.{get};
ghost use Rattle.redn_image.specs.Rules.{breaking, fault_at, has_place_of, row_faults, table_is_one, first_of, unless as unless_holds, header_faults, key_is_new, kind_is_known, region_is_inside, ring_is_inside, receive_is_inside, slots_are_few};

use crate::numbers::{Fault, QueueNumbers, RegionNumbers};
use redn_words::{
    MAX_MEMORY, MAX_QUEUES, MAX_RECEIVES, MAX_REGIONS, MAX_RING, MAX_SLOTS, Memory, Receive,
};
use std::alloc::Global;
use std::collections::{BTreeMap, BTreeSet};

/// A rule of the header, unless it holds.
fn unless(holds: bool, rule: u8) -> Option<Fault>
    ensures { result ≡ first_of (unless_holds holds rule) }
{
    if holds {
        None
    } else {
        Some(Fault { rule, index: 0 })
    }
}

/// The first rule of the header that these numbers break.
pub fn header_fault(regions: u64, queues: u64, receives: u64, zero: u32, size: u64) -> Option<Fault>
    ensures { result ≡ first_of (header_faults regions queues receives zero size) }
{
    unless(regions <= MAX_REGIONS, 1)
        .or(unless(queues <= MAX_QUEUES, 2))
        .or(unless(0 < receives && receives <= MAX_RECEIVES, 3))
        .or(unless(zero == 0, 4))
        .or(unless(size % 8 == 0 && size <= MAX_MEMORY, 5))
}

/// Whether a range ends within so many bytes. Its end may not fit a word.
fn ends_by(base: u64, len: u64, size: u64) -> bool
    ensures { result ≡ nat_le (base + len) size }
{
    base <= size && len <= size - base
}

fn known_kind(r: &RegionNumbers) -> bool
    ensures { result ≡ kind_is_known [] r.now }
{
    match r.kind {
        1 => r.table < 64,
        kind => kind < 5 && r.table == 0,
    }
}

fn region_inside(r: &RegionNumbers, size: u64) -> bool
    ensures { result ≡ region_is_inside size [] r.now }
{
    r.base % 8 == 0 && ends_by(r.base, r.len, size)
}

fn ring_inside(q: &QueueNumbers, size: u64) -> bool
    ensures { result ≡ ring_is_inside size [] q.now }
{
    q.base % 64 == 0 && 0 < q.slots && q.slots <= MAX_RING && ends_by(q.base, 64 * q.slots, size)
}

fn receive_inside(r: &Receive, size: u64) -> bool
    ensures { result ≡ receive_is_inside size [] r.now }
{
    r.base % 8 == 0 && r.len % 8 == 0 && r.len <= 64 && ends_by(r.base, r.len, size)
}

fn strange_domain(rows: &[RegionNumbers], chains: usize) -> Option<usize>
    ensures first { result ≡ position (λ r. not (nat_lt r.domain chains)) rows.now }
    ensures within { IfSome result (λ i. i < length rows.now) }
{
    rows.iter().position(|r| usize::from(r.domain) >= chains)
}

fn unknown_kind(rows: &[RegionNumbers]) -> Option<usize>
    ensures first { result ≡ position (λ r. not (kind_is_known [] r)) rows.now }
    ensures within { IfSome result (λ i. i < length rows.now) }
{
    rows.iter().position(|r| !known_kind(r))
}

fn strange_rights(rows: &[RegionNumbers]) -> Option<usize>
    ensures first { result ≡ position (λ r. not (nat_lt r.rights 16)) rows.now }
    ensures within { IfSome result (λ i. i < length rows.now) }
{
    rows.iter().position(|r| r.rights >= 16)
}

fn outer_region(rows: &[RegionNumbers], size: u64) -> Option<usize>
    ensures first { result ≡ position (λ r. not (region_is_inside size [] r)) rows.now }
    ensures within { IfSome result (λ i. i < length rows.now) }
{
    rows.iter().position(|r| !region_inside(r, size))
}

fn strange_queue_domain(rows: &[QueueNumbers], chains: usize) -> Option<usize>
    ensures first { result ≡ position (λ q. not (nat_lt q.domain chains)) rows.now }
    ensures within { IfSome result (λ i. i < length rows.now) }
{
    rows.iter().position(|q| q.domain as usize >= chains)
}

fn unknown_order(rows: &[QueueNumbers]) -> Option<usize>
    ensures first { result ≡ position (λ q. not (nat_lt q.managed 2)) rows.now }
    ensures within { IfSome result (λ i. i < length rows.now) }
{
    rows.iter().position(|q| q.managed >= 2)
}

fn outer_ring(rows: &[QueueNumbers], size: u64) -> Option<usize>
    ensures first { result ≡ position (λ q. not (ring_is_inside size [] q)) rows.now }
    ensures within { IfSome result (λ i. i < length rows.now) }
{
    rows.iter().position(|q| !ring_inside(q, size))
}

fn wide_limit(rows: &[QueueNumbers]) -> Option<usize>
    ensures first { result ≡ position (λ q. not (nat_le q.limit q.slots)) rows.now }
    ensures within { IfSome result (λ i. i < length rows.now) }
{
    rows.iter().position(|q| q.limit > q.slots)
}

fn outer_receive(rows: &[Receive], size: u64) -> Option<usize>
    ensures first { result ≡ position (λ r. not (receive_is_inside size [] r)) rows.now }
    ensures within { IfSome result (λ i. i < length rows.now) }
{
    rows.iter().position(|r| !receive_inside(r, size))
}

/// The first queue with which there are too many slots.
fn slot_fault(rows: &[QueueNumbers]) -> Option<Fault>
    requires { length rows.now < 2 ^ 32 }
    ensures { result ≡ first_of (breaking 16 slots_are_few [] rows.now) }
{
    let mut left = MAX_SLOTS;
    for (index, row) in rows.iter().enumerate() {
        if row.slots > left {
            let index = index as u32;
            return Some(Fault { rule: 16, index });
        }
        left -= row.slots;
    }
    None
}

/// The first region whose key is 0 or that of an earlier one.
fn key_fault(alloc: Global, rows: &[RegionNumbers]) -> Result<Option<Fault>, Memory>
    requires { length rows.now < 2 ^ 32 }
    ensures { IfOk result (λ f. f ≡ first_of (breaking 6 key_is_new [] rows.now)) }
{
    let mut keys = BTreeSet::new(alloc);
    for (index, row) in rows.iter().enumerate() {
        if row.key == 0 || !keys.insert(row.key)? {
            let index = index as u32;
            return Ok(Some(Fault { rule: 6, index }));
        }
    }
    Ok(None)
}

/// Whether a row of a table has the place of its table's first region, which it becomes where there
/// was none.
fn keeps_place(
    first: &mut BTreeMap<u32, RegionNumbers>,
    row: &RegionNumbers,
) -> Result<bool, Memory>
    ensures kept { IfOk result (λ kept. kept ≡
        (if row.now.kind == 1 then has_place_of row.now (get nat_cmp first.old row.now.table) else true)) }
    ensures first { OnOk result ((t : ℕ) → get nat_cmp first.new t ≡
        option_or (get nat_cmp first.old t) (if row.now.kind == 1 && row.now.table == t then Some row.now else None)) }
{
    if row.kind != 1 {
        return Ok(true);
    }
    match first.get(&row.table).copied() {
        Some(one) => Ok(row.base == one.base && row.len == one.len),
        None => {
            first.insert(row.table, *row)?;
            Ok(true)
        }
    }
}

/// The first region of a table that lies elsewhere than an earlier one.
fn table_fault(alloc: Global, rows: &[RegionNumbers]) -> Result<Option<Fault>, Memory>
    requires { length rows.now < 2 ^ 32 }
    ensures { IfOk result (λ f. f ≡ first_of (breaking 11 table_is_one [] rows.now)) }
{
    let mut first = BTreeMap::new(alloc);
    for (index, row) in rows.iter().enumerate() {
        if !keeps_place(&mut first, row)? {
            let index = index as u32;
            return Ok(Some(Fault { rule: 11, index }));
        }
    }
    Ok(None)
}

fn fault(rule: u8, index: Option<usize>) -> Option<Fault>
    requires { IfSome index (λ i. i < 2 ^ 32) }
    ensures { result ≡ option_map (fault_at rule) index }
{
    let index = index? as u32;
    Some(Fault { rule, index })
}

/// The first rule of rows that these break, with the first row that breaks it.
pub fn row_fault(
    alloc: Global,
    regions: &[RegionNumbers],
    queues: &[QueueNumbers],
    receives: &[Receive],
    size: u64,
) -> Result<Option<Fault>, Memory>
    requires regions { length regions.now < 2 ^ 32 }
    requires queues { length queues.now < 2 ^ 32 }
    requires receives { length receives.now < 2 ^ 32 }
    ensures { IfOk result (λ f. f ≡ first_of (row_faults (record {
      regions = regions.now;
      queues = queues.now;
      receives = receives.now;
      size = size;
    }))) }
{
    let chains = receives.len();
    let keys = key_fault(alloc, regions)?;
    let tables = table_fault(alloc, regions)?;
    Ok(
        keys.or(fault(7, strange_domain(regions, chains)))
            .or(fault(8, unknown_kind(regions)))
            .or(fault(9, strange_rights(regions)))
            .or(fault(10, outer_region(regions, size)))
            .or(tables)
            .or(fault(12, strange_queue_domain(queues, chains)))
            .or(fault(13, unknown_order(queues)))
            .or(fault(14, outer_ring(queues, size)))
            .or(fault(15, wide_limit(queues)))
            .or(slot_fault(queues))
            .or(fault(17, outer_receive(receives, size))),
    )
}
