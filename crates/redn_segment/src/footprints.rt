//! Whether the footprints of a segment's drafts lie apart.

ghost use Rattle.std.specs.Prelude.{◌≡◌, ◌+◌, ◌<◌, ◌≤◌, ◌^◌, ℕ, Bool, List, length, IsTrue, map};
ghost use Rattle.std.specs.List.{list_all};
ghost use Rattle.redn_segment.specs.Sites.{space_of as spec_space_of, start_of as spec_start_of, size_of as spec_size_of, same_space, is_table as spec_is_table, inside as spec_inside};
ghost use Rattle.std.specs.Bool.{OnTrue};
ghost use Rattle.redn_segment.specs.Footprints as prints;
ghost use Rattle.redn_segment.specs.Orders.{LandInAnyOrder};

use crate::types::{Draft, Segment, Side, Site, SlotRef, Space};
use redn_words::Opcode;

fn space_of(site: Site) -> Space
    ensures { result ≡ spec_space_of site }
{
    match site {
        Site::Cell(c) => Space::Cell(c),
        Site::ReplyWord(_) => Space::Reply,
        Site::Key => Space::Key,
        Site::Scratch(i) => Space::Scratch(i),
        Site::Descriptor(ring) => Space::Descriptor(ring),
        Site::Field(f) => Space::Slot(f.slot),
        Site::Table { table, offset: _ } => Space::Table(table),
    }
}

fn is_table(site: Site) -> bool
    ensures { result ≡ spec_is_table site }
{
    match site {
        Site::Table { .. } => true,
        _ => false,
    }
}

/// The bytes of a site, which isn't a table, from its beginning to its end.
fn size_of(site: Site) -> u64
    ensures { result ≡ spec_size_of site }
{
    match site {
        Site::ReplyWord(i) => 64u64.saturating_sub(8 * u64::from(i)),
        Site::Field(f) => u64::from(f.len),
        Site::Descriptor(_) => 16,
        _ => 8,
    }
}

fn is_inside(site: Site, byte: u8, len: u64) -> bool
    ensures { result ≡ spec_inside site byte len }
{
    let size = size_of(site);
    let byte = u64::from(byte);
    let in_slot = match site {
        Site::Field(f) => u64::from(f.byte) + u64::from(f.len) <= 64,
        _ => true,
    };
    byte <= size && len <= size - byte && in_slot
}

fn at_local(d: &Draft, len: u64, writes: bool) -> Option<Side>
    ensures { result ≡ prints.at_local d.now len writes }
{
    Some(Side {
        site: d.local,
        byte: d.local_byte,
        len,
        writes,
    })
}

fn at_remote(d: &Draft, len: u64, writes: bool) -> Option<Side>
    ensures { result ≡ prints.at_remote d.now len writes }
{
    Some(Side {
        site: d.remote,
        byte: d.remote_byte,
        len,
        writes,
    })
}

fn local_side(d: &Draft) -> Option<Side>
    ensures { result ≡ prints.local_by d.now d.now.op }
{
    match d.op {
        Opcode::Noop | Opcode::Read => at_local(d, d.length, true),
        Opcode::Write | Opcode::Send => at_local(d, d.length, false),
        Opcode::Cas | Opcode::Add => at_local(d, 8, true),
        Opcode::Wait | Opcode::Enable | Opcode::Undefined(_) => None,
    }
}

fn remote_side(d: &Draft) -> Option<Side>
    ensures { result ≡ prints.remote_by d.now d.now.op }
{
    match d.op {
        Opcode::Noop | Opcode::Write => at_remote(d, d.length, true),
        Opcode::Read => at_remote(d, d.length, false),
        Opcode::Cas | Opcode::Add => at_remote(d, 8, true),
        Opcode::Send | Opcode::Wait | Opcode::Enable | Opcode::Undefined(_) => None,
    }
}

fn ends_inside(a: Side) -> bool
    ensures { result ≡ prints.ends_inside a }
{
    is_table(a.site) || is_inside(a.site, a.byte, a.len)
}

fn start_of(site: Site) -> u64
    ensures { result ≡ spec_start_of site }
{
    match site {
        Site::ReplyWord(i) => 8 * u64::from(i),
        Site::Field(f) => u64::from(f.byte),
        Site::Table { offset, .. } => offset,
        _ => 0,
    }
}

/// Whether two sides have a byte in common.
fn meet(a: Side, b: Side) -> bool
    ensures { result ≡ prints.meet a b }
{
    if space_of(a.site) != space_of(b.site) {
        return false;
    }
    if is_table(a.site) {
        return true;
    }
    let from = start_of(a.site) + u64::from(a.byte);
    let other = start_of(b.site) + u64::from(b.byte);
    let end = from.saturating_add(a.len);
    let other_end = other.saturating_add(b.len);
    from.max(other) < end.min(other_end)
}

fn is_free(a: Side, b: Side) -> bool
    ensures { result ≡ prints.is_free a b }
{
    !((a.writes || b.writes) && meet(a, b))
}

fn side_free(a: Side, e: &Draft) -> bool
    ensures { result ≡ prints.both_sides (prints.is_free a) e.now }
{
    let local = match local_side(e) {
        Some(b) => is_free(a, b),
        None => true,
    };
    let remote = match remote_side(e) {
        Some(b) => is_free(a, b),
        None => true,
    };
    local && remote
}

fn drafts_free(d: &Draft, e: &Draft) -> bool
    ensures { result ≡ prints.drafts_free d.now e.now }
{
    let local = match local_side(d) {
        Some(a) => side_free(a, e),
        None => true,
    };
    let remote = match remote_side(d) {
        Some(a) => side_free(a, e),
        None => true,
    };
    local && remote
}

fn free_of(d: &Draft, drafts: &[Draft]) -> bool
    ensures { result ≡ list_all (prints.drafts_free d.now) drafts.now }
{
    drafts.iter().all(|e| drafts_free(d, e))
}

fn all_free(drafts: &[Draft]) -> bool
    ensures { result ≡ prints.all_free drafts.now }
{
    match drafts {
        [] => true,
        [d, others @ ..] => free_of(d, others) && all_free(others),
    }
}

fn draft_inside(d: &Draft) -> bool
    ensures { result ≡ prints.both_sides prints.ends_inside d.now }
{
    let local = match local_side(d) {
        Some(a) => ends_inside(a),
        None => true,
    };
    let remote = match remote_side(d) {
        Some(a) => ends_inside(a),
        None => true,
    };
    local && remote
}

/// Whether a side isn't written, or is no slot among `n` from `first` on.
fn spares(first: SlotRef, n: u64, a: Side) -> bool
    ensures { result ≡ prints.spares first n a }
{
    if !a.writes || a.len == 0 {
        return true;
    }
    match a.site {
        Site::Field(f) => {
            let slot = f.slot;
            slot.ring != first.ring
                || slot.slot < first.slot
                || u64::from(slot.slot - first.slot) >= n
        }
        _ => true,
    }
}

fn draft_spares(first: SlotRef, n: u64, d: &Draft) -> bool
    ensures { result ≡ prints.both_sides (prints.spares first n) d.now }
{
    let local = match local_side(d) {
        Some(a) => spares(first, n, a),
        None => true,
    };
    let remote = match remote_side(d) {
        Some(a) => spares(first, n, a),
        None => true,
    };
    local && remote
}

fn all_inside(drafts: &[Draft]) -> bool
    ensures { result ≡ list_all (prints.both_sides prints.ends_inside) drafts.now }
{
    drafts.iter().all(|d| draft_inside(d))
}

fn all_spare(first: SlotRef, n: u64, drafts: &[Draft]) -> bool
    ensures { result ≡ list_all (prints.both_sides (prints.spares first n)) drafts.now }
{
    drafts.iter().all(|d| draft_spares(first, n, d))
}

fn are_apart(drafts: &[Draft], first: SlotRef) -> bool
    ensures { result ≡ prints.is_apart drafts.now first }
{
    all_inside(drafts) && all_free(drafts) && all_spare(first, drafts.len() as u64, drafts)
}

/// Whether every side ends inside its site, no two drafts touch a byte that one of them writes, and
/// none writes a slot of the segment, whose first slot is `first`.
/// Then its drafts land in any order, wherever they are placed with their sites apart.
pub fn footprints_apart(s: &Segment, first: SlotRef) -> bool
    ensures conditions { result ≡ prints.is_apart s.now first }
    ensures any_order { OnTrue result (LandInAnyOrder s.now first) }
{
    are_apart(s.drafts.as_slice(), first)
}
