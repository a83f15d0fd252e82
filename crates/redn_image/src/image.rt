ghost use Rattle.std.specs.Prelude.{◌≡◌, IfErr, IfOk, OnOk, map};
ghost use Rattle.redn_image.specs.Rules.{Obeys, faults, first_of, numbers_of, parts_of, queue_numbers, region_numbers};
ghost use Rattle.redn_image.specs.Answers.{NamesFirst};

use crate::numbers::{Fault, QueueNumbers, RegionNumbers, numbers_of_queue, numbers_of_region};
use crate::rules::{header_fault, row_fault};
use redn_words::{Memory, QueueRow, Receive, Region};
use std::alloc::{AllocError, Global};
use std::marker::Model;

/// The rows and the memory of an adapter before its first step. Every image keeps the rules of `specs/Rules.antt`.
#[derive(Drop)]
pub struct Image {
    pub regions: Vec<Region>,
    pub queues: Vec<QueueRow>,
    /// One for each chain.
    pub receives: Vec<Receive>,
    pub memory: Vec<u8>,
}

impl Model for Image {
    ghost use Rattle.redn_image.specs.Rules.{Image as Parts};

    ghost Value = { Parts };

    ghost use Rattle.redn_image.specs.View.{image_view, IsImage};

    ghost view = { image_view };

    ghost invariant = { IsImage };
}

/// Why rows and memory are no image: a rule that they break, with the first row that breaks it, or 0
/// for a rule of the header; or want of memory.
#[derive(Clone, Copy, Debug, PartialEq, Eq)]
pub enum RuleFault {
    Rule { number: u8, index: u32 },
    Memory,
}

impl From<Memory> for RuleFault {
    ghost use Rattle.std.specs.Prelude.{◌≡◌};
    ghost use Rattle.redn_image.specs.declared.image.RuleFault.TheVariants.{Memory as OutOfMemory};

    ghost from_gives = { λ _ e. e ≡ OutOfMemory };

    fn from(_e: Memory) -> Self {
        RuleFault::Memory
    }
}

impl From<AllocError> for RuleFault {
    ghost use Rattle.std.specs.Prelude.{◌≡◌};
    ghost use Rattle.redn_image.specs.declared.image.RuleFault.TheVariants.{Memory as OutOfMemory};

    ghost from_gives = { λ _ e. e ≡ OutOfMemory };

    fn from(_e: AllocError) -> Self {
        RuleFault::Memory
    }
}

impl From<Fault> for RuleFault {
    ghost use Rattle.std.specs.Prelude.{◌≡◌};
    ghost use Rattle.redn_image.specs.declared.image.RuleFault.TheVariants.{Rule};

    ghost from_gives = { λ f e. e ≡ Rule f.rule f.index };

    fn from(f: Fault) -> Self {
        RuleFault::Rule {
            number: f.rule,
            index: f.index,
        }
    }
}

fn region_rows(alloc: Global, rows: &[Region]) -> Result<Vec<RegionNumbers>, AllocError>
    ensures { IfOk result (λ v. v.items ≡ map region_numbers rows.now) }
{
    rows.iter().map(numbers_of_region).collect(alloc)
}

fn queue_rows(alloc: Global, rows: &[QueueRow]) -> Result<Vec<QueueNumbers>, AllocError>
    ensures { IfOk result (λ v. v.items ≡ map queue_numbers rows.now) }
{
    rows.iter().map(numbers_of_queue).collect(alloc)
}

/// The first rule that these break.
fn first_fault(
    alloc: Global,
    regions: &[Region],
    queues: &[QueueRow],
    receives: &[Receive],
    memory: &[u8],
) -> Result<Option<Fault>, Memory>
    ensures { IfOk result (λ f. f ≡ first_of (faults (numbers_of
        (parts_of regions.now queues.now receives.now memory.now)))) }
{
    let size = memory.len() as u64;
    let counts = (
        regions.len() as u64,
        queues.len() as u64,
        receives.len() as u64,
    );
    let broken = header_fault(counts.0, counts.1, counts.2, 0, size);
    if broken.is_some() {
        return Ok(broken);
    }
    let regions = region_rows(alloc, regions)?;
    let queues = queue_rows(alloc, queues)?;
    row_fault(alloc, &regions, &queues, receives, size)
}

/// The image of rows and a memory that are known to keep the rules.
pub fn image_of_kept(
    regions: Vec<Region>,
    queues: Vec<QueueRow>,
    receives: Vec<Receive>,
    memory: Vec<u8>,
) -> Image
    requires { Obeys (parts_of regions.items queues.items receives.items memory.items) }
    ensures { result ≡ parts_of regions.items queues.items receives.items memory.items }
{
    Image {
        regions,
        queues,
        receives,
        memory,
    }
}

/// The image of these rows and this memory where they keep the rules, else the first rule that they
/// break: those of the header, then those of the rows, one rule after the other.
pub fn image_of(
    alloc: Global,
    regions: Vec<Region>,
    queues: Vec<QueueRow>,
    receives: Vec<Receive>,
    memory: Vec<u8>,
) -> Result<Image, RuleFault>
    ensures image { IfOk result (λ i. i ≡ parts_of regions.items queues.items receives.items memory.items) }
    ensures obeys { OnOk result (Obeys (parts_of regions.items queues.items receives.items memory.items)) }
    ensures broken { IfErr result (NamesFirst (faults (numbers_of
        (parts_of regions.items queues.items receives.items memory.items)))) }
{
    match first_fault(alloc, &regions, &queues, &receives, &memory)? {
        Some(fault) => Err(RuleFault::from(fault)),
        None => Ok(Image {
            regions,
            queues,
            receives,
            memory,
        }),
    }
}
