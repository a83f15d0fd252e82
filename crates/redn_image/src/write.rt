ghost use Rattle.std.specs.Prelude.{◌≡◌, ◌++◌, ◌^◌, ◌<◌, ◌≤◌, ℕ, IfOk, OnOk, List, map, take, is_ok, if◌then◌else◌};
ghost use Rattle.std.specs.List.{flat_map};
ghost use Rattle.redn_words.specs.Words.{spelled};
ghost use Rattle.redn_image.specs.Rules.{region_numbers, queue_numbers};
ghost use Rattle.redn_image.specs.Spelling.{spelled_region, spelled_queue, spelled_receive, spelled_header, Spells};

use crate::image::Image;
use crate::numbers::kind_fields;
use byteorder::{BigEndian, WriteBytesExt};
use redn_words::{Memory, QueueRow, Receive, Region};
use std::alloc::Global;

/// Adds the two bytes of a number, the greatest digit first.
#[tactic(auto, unfolding(redn_words::specs::Words::spelled))]
fn put_u16(out: &mut Vec<u8>, x: u16) -> Result<(), Memory>
    ensures { OnOk result (out.new.items ≡ out.old.items ++ spelled 2 x) }
{
    out.write_u16::<BigEndian>(x).map_err(|_| Memory)
}

#[tactic(auto, unfolding(redn_words::specs::Words::spelled))]
fn put_u32(out: &mut Vec<u8>, x: u32) -> Result<(), Memory>
    ensures { OnOk result (out.new.items ≡ out.old.items ++ spelled 4 x) }
{
    out.write_u32::<BigEndian>(x).map_err(|_| Memory)
}

#[tactic(auto, unfolding(redn_words::specs::Words::spelled))]
fn put_u64(out: &mut Vec<u8>, x: u64) -> Result<(), Memory>
    ensures { OnOk result (out.new.items ≡ out.old.items ++ spelled 8 x) }
{
    out.write_u64::<BigEndian>(x).map_err(|_| Memory)
}

#[tactic(auto, unfolding(crate::specs::Spelling::spelled_region))]
fn put_region(out: &mut Vec<u8>, r: &Region) -> Result<(), Memory>
    ensures { OnOk result
        (out.new.items ≡ out.old.items ++ spelled_region (region_numbers r.now)) }
{
    let (kind, table) = kind_fields(r.kind);
    put_u32(out, r.key)?;
    put_u16(out, r.domain)?;
    put_u16(out, kind)?;
    put_u32(out, table)?;
    put_u32(out, u32::from(r.rights))?;
    put_u64(out, r.base)?;
    put_u64(out, r.len)
}

#[tactic(auto, unfolding(crate::specs::Spelling::spelled_queue))]
fn put_queue(out: &mut Vec<u8>, q: &QueueRow) -> Result<(), Memory>
    ensures { OnOk result (out.new.items ≡ out.old.items ++ spelled_queue (queue_numbers q.now)) }
{
    put_u32(out, u32::from(q.domain))?;
    put_u32(out, u32::from(q.managed))?;
    put_u64(out, q.base)?;
    put_u64(out, q.slots)?;
    put_u64(out, q.limit)
}

#[tactic(auto, unfolding(crate::specs::Spelling::spelled_receive))]
fn put_receive(out: &mut Vec<u8>, r: &Receive) -> Result<(), Memory>
    ensures { OnOk result (out.new.items ≡ out.old.items ++ spelled_receive r.now) }
{
    put_u64(out, r.base)?;
    put_u64(out, r.len)
}

fn put_regions(out: &mut Vec<u8>, rows: &[Region]) -> Result<(), Memory>
    ensures { OnOk result (out.new.items ≡
        out.old.items ++ flat_map (λ r. spelled_region (region_numbers r)) rows.now) }
{
    for row in rows {
        put_region(out, row)?;
    }
    Ok(())
}

fn put_queues(out: &mut Vec<u8>, rows: &[QueueRow]) -> Result<(), Memory>
    ensures { OnOk result (out.new.items ≡
        out.old.items ++ flat_map (λ q. spelled_queue (queue_numbers q)) rows.now) }
{
    for row in rows {
        put_queue(out, row)?;
    }
    Ok(())
}

fn put_receives(out: &mut Vec<u8>, rows: &[Receive]) -> Result<(), Memory>
    ensures { OnOk result (out.new.items ≡ out.old.items ++ flat_map spelled_receive rows.now) }
{
    for row in rows {
        put_receive(out, row)?;
    }
    Ok(())
}

fn put_header(
    out: &mut Vec<u8>,
    regions: u32,
    queues: u32,
    receives: u32,
    size: u64,
) -> Result<(), Memory>
    ensures { OnOk result
        (out.new.items ≡ out.old.items ++ spelled_header regions queues receives size) }
{
    out.extend_from_slice(b"REDN")?;
    put_u32(out, 1)?;
    put_u32(out, regions)?;
    put_u32(out, queues)?;
    put_u32(out, receives)?;
    put_u32(out, 0)?;
    put_u64(out, size)
}

/// The bytes of an image.
#[tactic(auto, unfolding(crate::specs::Spelling::spelling))]
pub fn write_image(alloc: Global, i: &Image) -> Result<Vec<u8>, Memory>
    ensures { IfOk result (λ bytes. Spells bytes.items i.now) }
{
    let mut out = Vec::new(alloc);
    put_header(
        &mut out,
        i.regions.len() as u32,
        i.queues.len() as u32,
        i.receives.len() as u32,
        i.memory.len() as u64,
    )?;
    put_regions(&mut out, &i.regions)?;
    put_queues(&mut out, &i.queues)?;
    put_receives(&mut out, &i.receives)?;
    out.extend_from_slice(&i.memory)?;
    Ok(out)
}
