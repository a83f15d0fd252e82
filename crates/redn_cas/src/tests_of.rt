ghost use Rattle.std.specs.Prelude.{◌≡◌, true, false, ◌++◌, ◌+◌, ◌<◌, ◌^◌, [], length, OnOk, IfOk};
ghost use Rattle.redn_kernel.specs.Costs.{test_cost, probe_cost};
ghost use Rattle.redn_segment.specs.Building.{drafts_of};
ghost use Rattle.redn_segment.specs.Drafts.{slot_from};
ghost use Rattle.redn_segment.specs.Effects.{IsTarget, probes, tests_all, tests_low};
ghost use Rattle.redn_segment.specs.Costs.{Costs};
ghost use Rattle.redn_segment.specs.Rights.{Rights};
ghost use Rattle.redn_segment.specs.Templates.{Appends};
ghost use Rattle.redn_cas.specs.Tests as drafts;

use redn_kernel::Cell;
use redn_segment::{
    CAS_WORD, READ_WORD, RingBuilder, Segment, Site, WRITE_WORD, add_to, choose, clear,
    compare_high, compare_low, copy, field, fill_high, fill_low, read_table, segment, swap_in,
    turnable,
};
use redn_words::Memory;
use std::alloc::Global;

fn test48_segments(
    alloc: Global,
    b: &RingBuilder,
    left: Cell,
    right: Cell,
    yes: u32,
    no: u32,
) -> Result<Vec<Segment>, Memory>
    requires few { length (drafts_of b.now.segments) < 2 ^ 31 }
    ensures { IfOk result (λ v. v.items
        ≡ drafts.test48 (slot_from b.now.ring (length (drafts_of b.now.segments))) left right yes no) }
{
    let mut segments = Vec::new(alloc);
    let comparing = b.slot(3);
    let turned = b.slot(5);
    let last = b.slot(6);
    segments.push(segment(
        alloc,
        &[
            clear(turned),
            fill_low(Site::Cell(left), turned),
            compare_low(Site::Cell(right), comparing),
        ],
    )?)?;
    segments.push(segment(
        alloc,
        &[
            swap_in(0, field(turned, 0, 8), WRITE_WORD),
            choose(no, last),
        ],
    )?)?;
    segments.push(segment(
        alloc,
        &[turnable(Site::Descriptor(yes), field(last, 40, 16), 16, 0)],
    )?)?;
    segments.push(segment(alloc, &[])?)?;
    Ok(segments)
}

/// Appends the test of `left ~ right`, and the choice of the next block.
pub fn test48_template(
    alloc: Global,
    b: &mut RingBuilder,
    left: Cell,
    right: Cell,
    yes: u32,
    no: u32,
) -> Result<(), Memory>
    requires few { length (drafts_of b.old.segments) < 2 ^ 31 }
    ensures made { OnOk result
        (b.new ≡ record b.old { segments = b.old.segments ++ drafts.test48 (slot_from b.old.ring (length (drafts_of b.old.segments))) left right yes no }) }
    ensures appended { OnOk result
        (Appends b.old b.new 4 6 1 (tests_low left right yes no (slot_from b.old.ring (length (drafts_of b.old.segments)) 6))) }
    ensures cost { OnOk result (Costs b.old b.new 22 (test_cost false)) }
    ensures rights { OnOk result (Rights b.old b.new []) }
{
    let segments = test48_segments(alloc, b, left, right, yes, no)?;
    b.push_segments(segments)
}

fn wide_fills(alloc: Global, b: &RingBuilder, left: Cell, right: Cell) -> Result<Segment, Memory>
    requires few { length (drafts_of b.now.segments) < 2 ^ 31 }
    ensures { IfOk result (λ s. s
        ≡ drafts.wide_fills (slot_from b.now.ring (length (drafts_of b.now.segments))) left right) }
{
    let turned = b.slot(8);
    let choice = b.slot(9);
    segment(
        alloc,
        &[
            clear(turned),
            fill_low(Site::Cell(left), turned),
            compare_low(Site::Cell(right), b.slot(6)),
            clear(choice),
            fill_high(Site::Cell(left), choice),
            compare_high(Site::Cell(right), turned),
        ],
    )
}

fn test64_segments(
    alloc: Global,
    b: &RingBuilder,
    left: Cell,
    right: Cell,
    yes: u32,
    no: u32,
) -> Result<Vec<Segment>, Memory>
    requires few { length (drafts_of b.now.segments) < 2 ^ 31 }
    ensures { IfOk result (λ v. v.items
        ≡ drafts.test64 (slot_from b.now.ring (length (drafts_of b.now.segments))) left right yes no) }
{
    let mut segments = Vec::new(alloc);
    let last = b.slot(10);
    segments.push(wide_fills(alloc, b, left, right)?)?;
    let turn = swap_in(0, field(b.slot(8), 0, 8), CAS_WORD);
    segments.push(segment(alloc, &[turn, choose(no, last)])?)?;
    let second = turnable(Site::Scratch(0), field(b.slot(9), 0, 8), 8, WRITE_WORD);
    segments.push(segment(alloc, &[second])?)?;
    let choice = turnable(Site::Descriptor(yes), field(last, 40, 16), 16, 0);
    segments.push(segment(alloc, &[choice])?)?;
    segments.push(segment(alloc, &[])?)?;
    Ok(segments)
}

/// Appends the test of `left == right`, and the choice of the next block.
pub fn test64_template(
    alloc: Global,
    b: &mut RingBuilder,
    left: Cell,
    right: Cell,
    yes: u32,
    no: u32,
) -> Result<(), Memory>
    requires few { length (drafts_of b.old.segments) < 2 ^ 31 }
    ensures made { OnOk result
        (b.new ≡ record b.old { segments = b.old.segments ++ drafts.test64 (slot_from b.old.ring (length (drafts_of b.old.segments))) left right yes no }) }
    ensures appended { OnOk result
        (Appends b.old b.new 5 10 1 (tests_all left right yes no (slot_from b.old.ring (length (drafts_of b.old.segments)) 10))) }
    ensures cost { OnOk result (Costs b.old b.new 30 (test_cost true)) }
    ensures rights { OnOk result (Rights b.old b.new []) }
{
    let segments = test64_segments(alloc, b, left, right, yes, no)?;
    b.push_segments(segments)
}

fn probe_fills(alloc: Global, b: &RingBuilder, offset: Cell, key: Cell) -> Result<Segment, Memory>
    requires few { length (drafts_of b.now.segments) < 2 ^ 31 }
    ensures { IfOk result (λ s. s
        ≡ drafts.probe_fills (slot_from b.now.ring (length (drafts_of b.now.segments))) offset key) }
{
    let load = b.slot(13);
    segment(
        alloc,
        &[
            clear(load),
            clear(b.slot(14)),
            compare_low(Site::Cell(key), b.slot(11)),
            compare_low(Site::Cell(key), b.slot(12)),
            copy(Site::Cell(offset), 0, field(b.slot(6), 24, 8), 8),
            copy(Site::Cell(offset), 0, field(load, 24, 8), 8),
        ],
    )
}

fn probe_names(alloc: Global, b: &RingBuilder) -> Result<Segment, Memory>
    requires few { length (drafts_of b.now.segments) < 2 ^ 31 }
    ensures { IfOk result (λ s. s
        ≡ drafts.probe_names (slot_from b.now.ring (length (drafts_of b.now.segments)))) }
{
    let load = b.slot(13);
    let choice = b.slot(14);
    segment(
        alloc,
        &[
            fill_low(Site::Key, load),
            fill_low(Site::Key, choice),
            add_to(0, field(load, 24, 8), 8),
        ],
    )
}

fn probe_swaps(alloc: Global, b: &RingBuilder) -> Result<Segment, Memory>
    requires few { length (drafts_of b.now.segments) < 2 ^ 31 }
    ensures { IfOk result (λ s. s
        ≡ drafts.probe_swaps (slot_from b.now.ring (length (drafts_of b.now.segments)))) }
{
    let load = swap_in(0, field(b.slot(13), 0, 8), READ_WORD);
    let choice = swap_in(1, field(b.slot(14), 0, 8), WRITE_WORD);
    segment(alloc, &[load, choice])
}

fn probe_turned(
    alloc: Global,
    b: &RingBuilder,
    to: Cell,
    table: u16,
    hit: u32,
) -> Result<Segment, Memory>
    requires few { length (drafts_of b.now.segments) < 2 ^ 31 }
    ensures { IfOk result (λ s. s
        ≡ drafts.probe_turned (slot_from b.now.ring (length (drafts_of b.now.segments))) to table hit) }
{
    let load = turnable(Site::Cell(to), Site::Table { table, offset: 0 }, 8, 0);
    let choice = turnable(Site::Descriptor(hit), field(b.slot(15), 40, 16), 16, 0);
    segment(alloc, &[load, choice])
}

fn probe_segments(
    alloc: Global,
    b: &RingBuilder,
    to: Cell,
    table: u16,
    offset: Cell,
    key: Cell,
    hit: u32,
    miss: u32,
) -> Result<Vec<Segment>, Memory>
    requires few { length (drafts_of b.now.segments) < 2 ^ 31 }
    ensures { IfOk result (λ v. v.items
        ≡ drafts.probe (slot_from b.now.ring (length (drafts_of b.now.segments))) to table offset key hit miss) }
{
    let mut segments = Vec::new(alloc);
    segments.push(probe_fills(alloc, b, offset, key)?)?;
    let look = read_table(Site::Key, table);
    segments.push(segment(alloc, &[look, choose(miss, b.slot(15))])?)?;
    segments.push(probe_names(alloc, b)?)?;
    segments.push(probe_swaps(alloc, b)?)?;
    segments.push(probe_turned(alloc, b, to, table, hit)?)?;
    segments.push(segment(alloc, &[])?)?;
    Ok(segments)
}

/// Appends the look at a key, the load of the word behind it where it matches, and the choice of
/// the next block.
pub fn probe_template(
    alloc: Global,
    b: &mut RingBuilder,
    to: Cell,
    table: u16,
    offset: Cell,
    key: Cell,
    hit: u32,
    miss: u32,
) -> Result<(), Memory>
    requires few { length (drafts_of b.old.segments) < 2 ^ 31 }
    requires target { IsTarget to }
    ensures made { OnOk result (b.new
        ≡ record b.old { segments = b.old.segments ++ drafts.probe (slot_from b.old.ring (length (drafts_of b.old.segments))) to table offset key hit miss }) }
    ensures appended { OnOk result
        (Appends b.old b.new 6 15 1 (let slot = slot_from b.old.ring (length (drafts_of b.old.segments)) in
        probes to table offset key hit miss (slot 6) (slot 13) (slot 15))) }
    ensures cost { OnOk result (Costs b.old b.new 39 probe_cost) }
    ensures rights { OnOk result (Rights b.old b.new []) }
{
    let segments = probe_segments(alloc, b, to, table, offset, key, hit, miss)?;
    b.push_segments(segments)
}
