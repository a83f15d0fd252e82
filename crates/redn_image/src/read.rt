//! The image that bytes spell.

ghost use Rattle.std.specs.Prelude.{◌≡◌, ◌+◌, ◌*◌, ◌<◌, ◌≤◌, IfErr, IfOk, OnOk, MatchResult, None, length, map, All};
ghost use Rattle.redn_words.specs.Words.{number};
ghost use Rattle.redn_image.specs.Answers.{HasHeader, IsQueue, IsRegion, SaysWhy};
ghost use Rattle.redn_image.specs.Rules.{Image as Parts, queue_numbers, region_numbers};
ghost use Rattle.redn_image.specs.Spelling.{queue_at, receive_at, refused, region_at, rows_from, wrong_length, Spells};

use crate::image::Image;
use crate::numbers::{Fault, QueueNumbers, RegionNumbers};
use crate::rules::{header_fault, row_fault};
use byteorder::{BigEndian, ByteOrder};
use redn_words::{Kind, Memory, QueueRow, Receive, Region};
use std::alloc::{AllocError, Global};

/// Why bytes spell no image: their first word isn't that of an image, another version, fewer bytes
/// than are needed, so many bytes too many, or a rule that they break, with the first row that breaks
/// it, or 0 for a rule of the header; or want of memory.
#[derive(Clone, Copy, Debug, PartialEq, Eq)]
pub enum ImageFault {
    Magic,
    Version { v: u32 },
    Short { need: u64 },
    Trailing { n: u64 },
    Rule { number: u8, index: u32 },
    Memory,
}

impl From<Memory> for ImageFault {
    ghost use Rattle.std.specs.Prelude.{◌≡◌};
    ghost use Rattle.redn_image.specs.declared.read.ImageFault.TheVariants.{Memory as OutOfMemory};

    ghost from_gives = { λ _ e. e ≡ OutOfMemory };

    fn from(_e: Memory) -> Self {
        ImageFault::Memory
    }
}

impl From<AllocError> for ImageFault {
    ghost use Rattle.std.specs.Prelude.{◌≡◌};
    ghost use Rattle.redn_image.specs.declared.read.ImageFault.TheVariants.{Memory as OutOfMemory};

    ghost from_gives = { λ _ e. e ≡ OutOfMemory };

    fn from(_e: AllocError) -> Self {
        ImageFault::Memory
    }
}

impl From<Fault> for ImageFault {
    ghost use Rattle.std.specs.Prelude.{◌≡◌};
    ghost use Rattle.redn_image.specs.declared.read.ImageFault.TheVariants.{Rule};

    ghost from_gives = { λ f e. e ≡ Rule f.rule f.index };

    fn from(f: Fault) -> Self {
        ImageFault::Rule {
            number: f.rule,
            index: f.index,
        }
    }
}

#[tactic(auto, unfolding(redn_words::specs::Words::number), using(redn_words::proofs::Numbers::big_from_drop))]
fn u16_at(bytes: &[u8], at: usize) -> u16
    requires { at + 2 ≤ length bytes.now }
    ensures { result ≡ number 2 bytes.now at }
{
    BigEndian::read_u16(&bytes[at..])
}

#[tactic(auto, unfolding(redn_words::specs::Words::number), using(redn_words::proofs::Numbers::big_from_drop))]
fn u32_at(bytes: &[u8], at: usize) -> u32
    requires { at + 4 ≤ length bytes.now }
    ensures { result ≡ number 4 bytes.now at }
{
    BigEndian::read_u32(&bytes[at..])
}

#[tactic(auto, unfolding(redn_words::specs::Words::number), using(redn_words::proofs::Numbers::big_from_drop))]
fn u64_at(bytes: &[u8], at: usize) -> u64
    requires { at + 8 ≤ length bytes.now }
    ensures { result ≡ number 8 bytes.now at }
{
    BigEndian::read_u64(&bytes[at..])
}

fn read_region(bytes: &[u8], at: usize) -> RegionNumbers
    requires { at + 32 ≤ length bytes.now }
    ensures { result ≡ region_at bytes.now at }
{
    RegionNumbers {
        key: u32_at(bytes, at),
        domain: u16_at(bytes, at + 4),
        kind: u16_at(bytes, at + 6),
        table: u32_at(bytes, at + 8),
        rights: u32_at(bytes, at + 12),
        base: u64_at(bytes, at + 16),
        len: u64_at(bytes, at + 24),
    }
}

fn read_queue(bytes: &[u8], at: usize) -> QueueNumbers
    requires { at + 32 ≤ length bytes.now }
    ensures { result ≡ queue_at bytes.now at }
{
    QueueNumbers {
        domain: u32_at(bytes, at),
        managed: u32_at(bytes, at + 4),
        base: u64_at(bytes, at + 8),
        slots: u64_at(bytes, at + 16),
        limit: u64_at(bytes, at + 24),
    }
}

fn read_receive(bytes: &[u8], at: usize) -> Receive
    requires { at + 16 ≤ length bytes.now }
    ensures { result ≡ receive_at bytes.now at }
{
    Receive {
        base: u64_at(bytes, at),
        len: u64_at(bytes, at + 8),
    }
}

fn read_regions(
    alloc: Global,
    bytes: &[u8],
    at: usize,
    count: usize,
) -> Result<Vec<RegionNumbers>, Memory>
    requires { at + 32 * count ≤ length bytes.now }
    ensures { IfOk result (λ v. v.items ≡ rows_from region_at 32 bytes.now at count) }
{
    let mut rows = Vec::new(alloc);
    for i in 0..count {
        rows.push(read_region(bytes, at + 32 * i))?;
    }
    Ok(rows)
}

fn read_queues(
    alloc: Global,
    bytes: &[u8],
    at: usize,
    count: usize,
) -> Result<Vec<QueueNumbers>, Memory>
    requires { at + 32 * count ≤ length bytes.now }
    ensures { IfOk result (λ v. v.items ≡ rows_from queue_at 32 bytes.now at count) }
{
    let mut rows = Vec::new(alloc);
    for i in 0..count {
        rows.push(read_queue(bytes, at + 32 * i))?;
    }
    Ok(rows)
}

fn read_receives(
    alloc: Global,
    bytes: &[u8],
    at: usize,
    count: usize,
) -> Result<Vec<Receive>, Memory>
    requires { at + 16 * count ≤ length bytes.now }
    ensures { IfOk result (λ v. v.items ≡ rows_from receive_at 16 bytes.now at count) }
{
    let mut rows = Vec::new(alloc);
    for i in 0..count {
        rows.push(read_receive(bytes, at + 16 * i))?;
    }
    Ok(rows)
}

/// The region of these numbers.
fn region_of(r: &RegionNumbers) -> Region
    requires { IsRegion r.now }
    ensures { region_numbers result ≡ r.now }
{
    let kind = match r.kind {
        0 => Kind::Vars,
        1 => Kind::Table(r.table as u16),
        2 => Kind::Code,
        3 => Kind::Control,
        _ => Kind::Message,
    };
    Region {
        key: r.key,
        domain: r.domain,
        kind,
        rights: r.rights as u8,
        base: r.base,
        len: r.len,
    }
}

/// The queue of these numbers.
fn queue_of(q: &QueueNumbers) -> QueueRow
    requires { IsQueue q.now }
    ensures { queue_numbers result ≡ q.now }
{
    QueueRow {
        domain: q.domain as u16,
        managed: q.managed == 1,
        base: q.base,
        slots: q.slots,
        limit: q.limit,
    }
}

fn regions_of(alloc: Global, rows: &[RegionNumbers]) -> Result<Vec<Region>, Memory>
    requires { All IsRegion rows.now }
    ensures { IfOk result (λ v. map region_numbers v.items ≡ rows.now) }
{
    let mut regions = Vec::new(alloc);
    for row in rows {
        regions.push(region_of(row))?;
    }
    Ok(regions)
}

fn queues_of(alloc: Global, rows: &[QueueNumbers]) -> Result<Vec<QueueRow>, Memory>
    requires { All IsQueue rows.now }
    ensures { IfOk result (λ v. map queue_numbers v.items ≡ rows.now) }
{
    let mut queues = Vec::new(alloc);
    for row in rows {
        queues.push(queue_of(row))?;
    }
    Ok(queues)
}

/// How many rows and bytes of memory follow a header.
#[derive(Clone, Copy)]
struct Header {
    regions: u32,
    queues: u32,
    receives: u32,
    size: u64,
}

fn read_header(bytes: &[u8]) -> Result<Header, ImageFault>
    ensures header { IfOk result (λ h. HasHeader bytes.now h.regions h.queues h.receives h.size) }
    ensures refusal { IfErr result (SaysWhy (refused bytes.now)) }
{
    if bytes.len() < 32 {
        return Err(ImageFault::Short { need: 32 });
    }
    if &bytes[..4] != b"REDN".as_slice() {
        return Err(ImageFault::Magic);
    }
    let v = u32_at(bytes, 4);
    if v != 1 {
        return Err(ImageFault::Version { v });
    }
    let regions = u32_at(bytes, 8);
    let queues = u32_at(bytes, 12);
    let receives = u32_at(bytes, 16);
    let zero = u32_at(bytes, 20);
    let size = u64_at(bytes, 24);
    let counts = (u64::from(regions), u64::from(queues), u64::from(receives));
    match header_fault(counts.0, counts.1, counts.2, zero, size) {
        Some(fault) => Err(ImageFault::from(fault)),
        None => Ok(Header {
            regions,
            queues,
            receives,
            size,
        }),
    }
}

/// Whether there are as many bytes as are needed.
fn check_length(len: usize, need: usize) -> Result<(), ImageFault>
    ensures same { OnOk result (len ≡ need) }
    ensures refusal { IfErr result (SaysWhy (wrong_length len need None)) }
{
    if len < need {
        return Err(ImageFault::Short { need: need as u64 });
    }
    if need < len {
        let n = (len - need) as u64;
        return Err(ImageFault::Trailing { n });
    }
    Ok(())
}

/// The image in these bytes, where they spell one.
fn image_in(alloc: Global, bytes: &[u8]) -> Result<Image, ImageFault>
    ensures image { IfOk result (λ i. Spells bytes.now i) }
    ensures accepted { OnOk result (refused bytes.now ≡ None) }
    ensures refusal { IfErr result (SaysWhy (refused bytes.now)) }
{
    let header = read_header(bytes)?;
    let queues_at = 32 + 32 * header.regions as usize;
    let receives_at = queues_at + 32 * header.queues as usize;
    let memory_at = receives_at + 16 * header.receives as usize;
    check_length(bytes.len(), memory_at + header.size as usize)?;
    let regions = read_regions(alloc, bytes, 32, header.regions as usize)?;
    let queues = read_queues(alloc, bytes, queues_at, header.queues as usize)?;
    let receives = read_receives(alloc, bytes, receives_at, header.receives as usize)?;
    if let Some(fault) = row_fault(alloc, &regions, &queues, &receives, header.size)? {
        return Err(ImageFault::from(fault));
    }
    let regions = regions_of(alloc, &regions)?;
    let queues = queues_of(alloc, &queues)?;
    let memory = Vec::from_slice(alloc, &bytes[memory_at..])?;
    Ok(Image {
        regions,
        queues,
        receives,
        memory,
    })
}

/// The image with this spelling, or the first reason why there is none: fewer bytes than a header
/// has, another first word, another version, a rule of the header, fewer or more bytes than the header
/// announces, and a rule of the rows, one rule after the other. What `write_image` gives is read back.
pub fn read_image(alloc: Global, bytes: &[u8]) -> Result<Image, ImageFault>
    ensures image { IfOk result (λ i. Spells bytes.now i) }
    ensures accepted { OnOk result (refused bytes.now ≡ None) }
    ensures refusal { IfErr result (SaysWhy (refused bytes.now)) }
    ensures read_back { (i : Parts) → Spells bytes.now i →
        MatchResult result (λ j. j ≡ i) (λ e. e ≡ ImageFault.Memory) }
{
    image_in(alloc, bytes)
}
