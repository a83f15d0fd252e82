ghost use Rattle.std.specs.Prelude.{◌≡◌, ◌++◌, ◌+◌, ◌*◌, ◌<◌, ◌^◌, ℕ, [], ◌∷◌, length, OnOk, IfOk};
ghost use Rattle.redn_kernel.specs.declared.types.Cell.TheVariants.{Num};
ghost use Rattle.redn_kernel.specs.Costs.{move_cost, add_cost, load_cost, store_cost, jump_cost};
ghost use Rattle.redn_segment.specs.declared.types.SlotRef.{SlotRef as SpecSlot};
ghost use Rattle.redn_segment.specs.Building.{drafts_of};
ghost use Rattle.redn_segment.specs.Drafts.{slot_from};
ghost use Rattle.redn_segment.specs.Effects.{IsTarget, moves, adds, loads, stores, jumps};
ghost use Rattle.redn_segment.specs.Costs.{Costs};
ghost use Rattle.redn_segment.specs.Rights.{Rights};
ghost use Rattle.redn_segment.specs.Templates.{Appends};
ghost use Rattle.redn_move.specs.Adding.{add_segments as segments_to_add, add_count};
ghost use Rattle.redn_move.specs.Moves as moves;

use redn_kernel::Cell;
use redn_segment::{RingBuilder, Segment, Site, add_to, choose, copy, field, read_table, segment};
use redn_words::Memory;
use std::alloc::Global;

/// Appends `to = value`.
pub fn set_template(alloc: Global, b: &mut RingBuilder, to: Cell, value: u64) -> Result<(), Memory>
    requires few { length (drafts_of b.old.segments) < 2 ^ 31 }
    requires target { IsTarget to }
    ensures made { OnOk result
        (b.new ≡ record b.old { segments = b.old.segments ++ moves.move_word (slot_from b.old.ring (length (drafts_of b.old.segments))) to (Num value) }) }
    ensures appended { OnOk result (Appends b.old b.new 1 1 0 (moves to (Num value))) }
    ensures cost { OnOk result (Costs b.old b.new 5 move_cost) }
    ensures rights { OnOk result (Rights b.old b.new []) }
{
    move_template(alloc, b, to, Cell::Num(value))
}

fn move_segments(alloc: Global, to: Cell, from: Cell) -> Result<Vec<Segment>, Memory>
    ensures { (slot : ℕ → SpecSlot) → IfOk result (λ v. v.items ≡ moves.move_word slot to from) }
{
    let mut segments = Vec::new(alloc);
    let set = copy(Site::Cell(from), 0, Site::Cell(to), 8);
    segments.push(segment(alloc, &[set])?)?;
    Ok(segments)
}

/// Appends `to = from`.
pub fn move_template(alloc: Global, b: &mut RingBuilder, to: Cell, from: Cell) -> Result<(), Memory>
    requires few { length (drafts_of b.old.segments) < 2 ^ 31 }
    requires target { IsTarget to }
    ensures made { OnOk result
        (b.new ≡ record b.old { segments = b.old.segments ++ moves.move_word (slot_from b.old.ring (length (drafts_of b.old.segments))) to from }) }
    ensures appended { OnOk result (Appends b.old b.new 1 1 0 (moves to from)) }
    ensures cost { OnOk result (Costs b.old b.new 5 move_cost) }
    ensures rights { OnOk result (Rights b.old b.new []) }
{
    let segments = move_segments(alloc, to, from)?;
    b.push_segments(segments)
}

fn add_segments(alloc: Global, b: &RingBuilder, to: Cell, by: Cell) -> Result<Vec<Segment>, Memory>
    requires few { length (drafts_of b.now.segments) < 2 ^ 31 }
    ensures { IfOk result (λ v. v.items
        ≡ segments_to_add (slot_from b.now.ring (length (drafts_of b.now.segments))) to by) }
{
    let mut segments = Vec::new(alloc);
    match by {
        Cell::Num(n) => {
            segments.push(segment(alloc, &[add_to(0, Site::Cell(to), n)])?)?;
        }
        _ => {
            let fill = copy(Site::Cell(by), 0, field(b.slot(1), 40, 8), 8);
            segments.push(segment(alloc, &[fill])?)?;
            segments.push(segment(alloc, &[add_to(0, Site::Cell(to), 0)])?)?;
        }
    }
    Ok(segments)
}

/// Appends `to += by`.
pub fn add_template(alloc: Global, b: &mut RingBuilder, to: Cell, by: Cell) -> Result<(), Memory>
    requires few { length (drafts_of b.old.segments) < 2 ^ 31 }
    requires target { IsTarget to }
    ensures made { OnOk result
        (b.new ≡ record b.old { segments = b.old.segments ++ segments_to_add (slot_from b.old.ring (length (drafts_of b.old.segments))) to by }) }
    ensures appended { OnOk result (Appends b.old b.new (add_count by) (add_count by) 0 (adds to by)) }
    ensures cost { OnOk result (Costs b.old b.new (5 * add_count by) (add_cost by)) }
    ensures rights { OnOk result (Rights b.old b.new []) }
{
    let segments = add_segments(alloc, b, to, by)?;
    b.push_segments(segments)
}

fn load_segments(
    alloc: Global,
    b: &RingBuilder,
    to: Cell,
    table: u16,
    offset: Cell,
) -> Result<Vec<Segment>, Memory>
    requires few { length (drafts_of b.now.segments) < 2 ^ 31 }
    ensures { IfOk result (λ v. v.items
        ≡ moves.load (slot_from b.now.ring (length (drafts_of b.now.segments))) to table offset) }
{
    let mut segments = Vec::new(alloc);
    let fill = copy(Site::Cell(offset), 0, field(b.slot(1), 24, 8), 8);
    segments.push(segment(alloc, &[fill])?)?;
    segments.push(segment(alloc, &[read_table(Site::Cell(to), table)])?)?;
    Ok(segments)
}

/// Appends `to = table[offset]`.
pub fn load_template(
    alloc: Global,
    b: &mut RingBuilder,
    to: Cell,
    table: u16,
    offset: Cell,
) -> Result<(), Memory>
    requires few { length (drafts_of b.old.segments) < 2 ^ 31 }
    requires target { IsTarget to }
    ensures made { OnOk result
        (b.new ≡ record b.old { segments = b.old.segments ++ moves.load (slot_from b.old.ring (length (drafts_of b.old.segments))) to table offset }) }
    ensures appended { OnOk result (Appends b.old b.new 2 2 0 (loads to table offset (slot_from b.old.ring (length (drafts_of b.old.segments)) 1))) }
    ensures cost { OnOk result (Costs b.old b.new 10 load_cost) }
    ensures rights { OnOk result (Rights b.old b.new []) }
{
    let segments = load_segments(alloc, b, to, table, offset)?;
    b.push_segments(segments)
}

fn store_segments(
    alloc: Global,
    b: &RingBuilder,
    table: u16,
    offset: Cell,
    from: Cell,
) -> Result<Vec<Segment>, Memory>
    requires few { length (drafts_of b.now.segments) < 2 ^ 31 }
    ensures { IfOk result (λ v. v.items
        ≡ moves.store (slot_from b.now.ring (length (drafts_of b.now.segments))) table offset from) }
{
    let mut segments = Vec::new(alloc);
    let fill = copy(Site::Cell(offset), 0, field(b.slot(1), 24, 8), 8);
    segments.push(segment(alloc, &[fill])?)?;
    let store = copy(Site::Cell(from), 0, Site::Table { table, offset: 0 }, 8);
    segments.push(segment(alloc, &[store])?)?;
    Ok(segments)
}

/// Appends `table[offset] = from`.
pub fn store_template(
    alloc: Global,
    b: &mut RingBuilder,
    table: u16,
    offset: Cell,
    from: Cell,
) -> Result<(), Memory>
    requires few { length (drafts_of b.old.segments) < 2 ^ 31 }
    ensures made { OnOk result
        (b.new ≡ record b.old { segments = b.old.segments ++ moves.store (slot_from b.old.ring (length (drafts_of b.old.segments))) table offset from }) }
    ensures appended { OnOk result (Appends b.old b.new 2 2 0 (stores table offset from
        (slot_from b.old.ring (length (drafts_of b.old.segments)) 1))) }
    ensures cost { OnOk result (Costs b.old b.new 10 store_cost) }
    ensures rights { OnOk result (Rights b.old b.new (table ∷ [])) }
{
    let segments = store_segments(alloc, b, table, offset, from)?;
    b.push_segments(segments)
}

fn jump_segments(alloc: Global, b: &RingBuilder, to: u32) -> Result<Vec<Segment>, Memory>
    requires few { length (drafts_of b.now.segments) < 2 ^ 31 }
    ensures { IfOk result (λ v. v.items
        ≡ moves.jump (slot_from b.now.ring (length (drafts_of b.now.segments))) to) }
{
    let mut segments = Vec::new(alloc);
    segments.push(segment(alloc, &[choose(to, b.slot(1))])?)?;
    segments.push(segment(alloc, &[])?)?;
    Ok(segments)
}

/// Appends the choice of that next block.
pub fn jump_template(alloc: Global, b: &mut RingBuilder, to: u32) -> Result<(), Memory>
    requires few { length (drafts_of b.old.segments) < 2 ^ 31 }
    ensures made { OnOk result
        (b.new ≡ record b.old { segments = b.old.segments ++ moves.jump (slot_from b.old.ring (length (drafts_of b.old.segments))) to }) }
    ensures appended { OnOk result (Appends b.old b.new 2 1 1 (jumps to (slot_from b.old.ring (length (drafts_of b.old.segments)) 1))) }
    ensures cost { OnOk result (Costs b.old b.new 9 jump_cost) }
    ensures rights { OnOk result (Rights b.old b.new []) }
{
    let segments = jump_segments(alloc, b, to)?;
    b.push_segments(segments)
}
