//! The rows of an image, as lines give them. They may break any rule.

ghost use Rattle.std.specs.Prelude.{◌≡◌, ℕ, ⊤, IfNone, IfOk, IfSome, codes};
ghost use Rattle.std.specs.Bool.{MatchBool};
ghost use Rattle.redn_words.specs.declared.types.Receive.{Receive as Place};
ghost use Rattle.redn_image.specs.declared.numbers.QueueNumbers.{QueueNumbers};
ghost use Rattle.redn_image.specs.declared.numbers.RegionNumbers.{RegionNumbers};
ghost use Rattle.redn_disasm.specs.Assembly.{GivenRows, GivesQueue, GivesReceive, GivesRegion, Leads, Progress, queue_formats, queue_values, receive_formats, receive_values, region_formats, region_values};
ghost use Rattle.redn_disasm.specs.Fields.{IsRow};
ghost use Rattle.redn_disasm.specs.Reading.{numbers, queue_of, region_of};

use crate::fields::read_row;
use crate::formats::{QUEUE, RECEIVE, REGION};
use redn_words::{Memory, Receive};

/// The numbers of a region's line.
#[derive(Clone, Copy)]
pub struct RegionFields {
    pub key: u32,
    pub domain: u16,
    pub kind: u16,
    pub table: u32,
    pub rights: u32,
    pub base: u64,
    pub len: u64,
}

/// The numbers of a queue's line, but for its own.
#[derive(Clone, Copy)]
pub struct QueueFields {
    pub domain: u32,
    pub managed: bool,
    pub base: u64,
    pub slots: u64,
    pub limit: u64,
}

/// The size of memory, and the rows so far.
#[derive(Drop)]
pub struct Rows {
    pub size: u64,
    pub regions: Vec<RegionFields>,
    pub queues: Vec<QueueFields>,
    pub receives: Vec<Receive>,
}

/// The region of a line.
fn region_in(line: &[u8]) -> Option<RegionFields>
    ensures found { IfSome result (λ r.
        IsRow (codes "region") region_formats line.now (region_values (region_of r))) }
    ensures none { IfNone result ((r : RegionNumbers) →
        ¬ IsRow (codes "region") region_formats line.now (region_values r)) }
{
    let Some(values) = read_row(line, b"region", &REGION) else {
        return None;
    };
    let [key, domain, kind, table, rights, base, len] = values;
    Some(RegionFields {
        key: key as u32,
        domain: domain as u16,
        kind: kind as u16,
        table: table as u32,
        rights: rights as u32,
        base,
        len,
    })
}

/// The queue of a line, and its number.
fn queue_in(line: &[u8]) -> Option<(u64, QueueFields)>
    ensures found { IfSome result (λ p.
        IsRow (codes "queue") queue_formats line.now (queue_values p.0 (queue_of p.1))) }
    ensures none { IfNone result ((k : ℕ) (q : QueueNumbers) →
        ¬ IsRow (codes "queue") queue_formats line.now (queue_values k q)) }
{
    let Some(values) = read_row(line, b"queue", &QUEUE) else {
        return None;
    };
    let [k, domain, managed, base, slots, limit] = values;
    let queue = QueueFields {
        domain: domain as u32,
        managed: managed == 1,
        base,
        slots,
        limit,
    };
    Some((k, queue))
}

/// The message place of a line, and its number.
fn receive_in(line: &[u8]) -> Option<(u64, Receive)>
    ensures found { IfSome result (λ p.
        IsRow (codes "receive") receive_formats line.now (receive_values p.0 p.1)) }
    ensures none { IfNone result ((k : ℕ) (r : Place) →
        ¬ IsRow (codes "receive") receive_formats line.now (receive_values k r)) }
{
    let Some(values) = read_row(line, b"receive", &RECEIVE) else {
        return None;
    };
    let [k, base, len] = values;
    Some((k, Receive { base, len }))
}

/// Adds the region of a line, where no queue and no message place has come.
fn add_region(rows: &mut Rows, line: &[u8]) -> Result<bool, Memory>
    ensures added { IfOk result (λ added. MatchBool added
        (GivesRegion (numbers rows.old) line.now (GivenRows (numbers rows.new)))
        ((after : Progress) → ¬ GivesRegion (numbers rows.old) line.now after)) }
    ensures same { IfOk result (λ added. MatchBool added ⊤ (rows.new ≡ rows.old)) }
{
    if !rows.receives.is_empty() || !rows.queues.is_empty() {
        return Ok(false);
    }
    let Some(region) = region_in(line) else {
        return Ok(false);
    };
    rows.regions.push(region)?;
    Ok(true)
}

/// Adds the queue of a line, where it has the next number and no message place has come.
fn add_queue(rows: &mut Rows, line: &[u8]) -> Result<bool, Memory>
    ensures added { IfOk result (λ added. MatchBool added
        (GivesQueue (numbers rows.old) line.now (GivenRows (numbers rows.new)))
        ((after : Progress) → ¬ GivesQueue (numbers rows.old) line.now after)) }
    ensures same { IfOk result (λ added. MatchBool added ⊤ (rows.new ≡ rows.old)) }
{
    if !rows.receives.is_empty() {
        return Ok(false);
    }
    let Some((k, queue)) = queue_in(line) else {
        return Ok(false);
    };
    if k != rows.queues.len() as u64 {
        return Ok(false);
    }
    rows.queues.push(queue)?;
    Ok(true)
}

/// Adds the message place of a line, where it has the next number.
fn add_receive(rows: &mut Rows, line: &[u8]) -> Result<bool, Memory>
    ensures { IfOk result (λ added. MatchBool added
        (GivesReceive (numbers rows.old) line.now (GivenRows (numbers rows.new)))
        ((after : Progress) → ¬ GivesReceive (numbers rows.old) line.now after)) }
{
    let Some((k, receive)) = receive_in(line) else {
        return Ok(false);
    };
    if k != rows.receives.len() as u64 {
        return Ok(false);
    }
    rows.receives.push(receive)?;
    Ok(true)
}

/// Adds the row of a line, where it is the next one possible.
#[tactic(auto, unfolding(crate::specs::Assembly::Leads))]
pub fn add_row(rows: &mut Rows, line: &[u8]) -> Result<bool, Memory>
    ensures { IfOk result (λ added. MatchBool added
        (Leads (GivenRows (numbers rows.old)) line.now (GivenRows (numbers rows.new)))
        ((after : Progress) → ¬ Leads (GivenRows (numbers rows.old)) line.now after)) }
{
    if add_region(rows, line)? {
        return Ok(true);
    }
    if add_queue(rows, line)? {
        return Ok(true);
    }
    if add_receive(rows, line)? {
        return Ok(true);
    }
    Ok(false)
}
