//! Rows held to the rules of an image.

ghost use Rattle.std.specs.Prelude.{◌≡◌, ◌+◌, ◌∷◌, ◌≤◌, ℕ, [], true, None, Some, IfErr, IfNone, IfOk, IfSome, length, map, replicate};
ghost use Rattle.redn_image.specs.Rules.{fault_at, first_of, header_faults, kind_number, queue_numbers, region_numbers, table_number};
ghost use Rattle.redn_disasm.specs.Going.{BreaksFirst, IsFresh};
ghost use Rattle.redn_disasm.specs.Holding.{is_known, StandFor, StandsForQueue, StandsForRegion};
ghost use Rattle.redn_disasm.specs.Reading.{numbers, queue_of, region_of};

use crate::assembler::ListFault;
use crate::rows::{QueueFields, RegionFields, Rows};
use redn_image::{Image, RuleFault, image_of};
use redn_words::{
    Kind, MAX_MEMORY, MAX_QUEUES, MAX_RECEIVES, MAX_REGIONS, Memory, QueueRow, Region,
};
use std::alloc::Global;

/// The first rule of an image's header that these counts and this size of memory break.
fn broken_count(regions: u64, queues: u64, receives: u64, size: u64) -> Option<u8>
    ensures broken { IfSome result (λ rule.
        first_of (header_faults regions queues receives 0 size) ≡ Some (fault_at rule 0)) }
    ensures kept { IfNone result (header_faults regions queues receives 0 size ≡ []) }
{
    if regions > MAX_REGIONS {
        return Some(1);
    }
    if queues > MAX_QUEUES {
        return Some(2);
    }
    if receives == 0 || receives > MAX_RECEIVES {
        return Some(3);
    }
    if size % 8 != 0 || size > MAX_MEMORY {
        return Some(5);
    }
    None
}

/// The kind of these numbers; where none has them, one that breaks the same rule.
fn kind_for(kind: u16, table: u32) -> Kind
    ensures known { is_known (kind_number result) (table_number result) ≡ is_known kind table }
    ensures same { is_known kind table ≡ true →
        (kind_number result ≡ kind) × (table_number result ≡ table) }
{
    match (kind, table) {
        (0, 0) => Kind::Vars,
        (2, 0) => Kind::Code,
        (3, 0) => Kind::Control,
        (4, 0) => Kind::Message,
        (1, _) if table <= u32::from(u16::MAX) => Kind::Table(table as u16),
        _ => Kind::Table(u16::MAX),
    }
}

/// The region of these numbers; where none has them, one that breaks the same rules.
fn region_for(r: &RegionFields) -> Region
    ensures { StandsForRegion (region_of r.now) (region_numbers result) }
{
    Region {
        key: r.key,
        domain: r.domain,
        kind: kind_for(r.kind, r.table),
        rights: r.rights.min(u32::from(u8::MAX)) as u8,
        base: r.base,
        len: r.len,
    }
}

/// The queue of these numbers; where none has them, one that breaks the same rules.
fn queue_for(q: &QueueFields) -> QueueRow
    ensures { StandsForQueue (queue_of q.now) (queue_numbers result) }
{
    QueueRow {
        domain: q.domain.min(u32::from(u16::MAX)) as u16,
        managed: q.managed,
        base: q.base,
        slots: q.slots,
        limit: q.limit,
    }
}

fn regions_for(alloc: Global, rows: &[RegionFields]) -> Result<Vec<Region>, Memory>
    ensures { IfOk result (λ v.
        StandFor StandsForRegion (map region_of rows.now) (map region_numbers v.items)) }
{
    let mut regions = Vec::new(alloc);
    for row in rows {
        regions.push(region_for(row))?;
    }
    Ok(regions)
}

fn queues_for(alloc: Global, rows: &[QueueFields]) -> Result<Vec<QueueRow>, Memory>
    ensures { IfOk result (λ v.
        StandFor StandsForQueue (map queue_of rows.now) (map queue_numbers v.items)) }
{
    let mut queues = Vec::new(alloc);
    for row in rows {
        queues.push(queue_for(row))?;
    }
    Ok(queues)
}

/// The image of these rows with a memory of zeros, or the first rule that they break.
pub fn hold(alloc: Global, rows: Rows) -> Result<Image, ListFault>
    ensures fresh { IfOk result (λ i. IsFresh (numbers rows) i) }
    ensures broken { IfErr result (BreaksFirst (numbers rows)) }
{
    let Rows {
        size,
        regions,
        queues,
        receives,
    } = rows;
    let counts = (
        regions.len() as u64,
        queues.len() as u64,
        receives.len() as u64,
    );
    if let Some(number) = broken_count(counts.0, counts.1, counts.2, size) {
        return Err(ListFault::Rule { number, index: 0 });
    }
    let regions = regions_for(alloc, &regions)?;
    let queues = queues_for(alloc, &queues)?;
    let memory = vec![in alloc; 0u8; size as usize]?;
    match image_of(alloc, regions, queues, receives, memory) {
        Ok(image) => Ok(image),
        Err(RuleFault::Rule { number, index }) => Err(ListFault::Rule { number, index }),
        Err(RuleFault::Memory) => Err(ListFault::Memory),
    }
}
