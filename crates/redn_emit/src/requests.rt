//! The requests of drafts.

ghost use Rattle.std.specs.Prelude.{◌≡◌, ◌+◌, ◌<◌, ◌≤◌, ◌^◌, ◌++◌, true, OnOk};
ghost use Rattle.std.specs.List.{list_all};
ghost use Rattle.redn_segment.specs.Primed.{number_of};
ghost use Rattle.redn_segment.specs.Sites as sites;
ghost use Rattle.redn_emit.specs.Layout as layout;
ghost use Rattle.redn_emit.specs.Kept.{is_near, are_near};

use crate::bytes::put_request;
use crate::chain::{ChainPlan, Place};
use crate::table::TablePlan;
use redn_segment::{Draft, Segment, Site, Space};
use redn_words::{Memory, Opcode, Request};
use redn_wqe::{ADD, CAS, ENABLE, NOOP, READ, SEND, WAIT, WRITE};

fn op_number(op: Opcode) -> u16
    ensures { result ≡ number_of op }
{
    match op {
        Opcode::Noop => NOOP,
        Opcode::Write => WRITE,
        Opcode::Read => READ,
        Opcode::Cas => CAS,
        Opcode::Add => ADD,
        Opcode::Send => SEND,
        Opcode::Wait => WAIT,
        Opcode::Enable => ENABLE,
        Opcode::Undefined(n) => n,
    }
}

fn space_of(site: Site) -> Space
    ensures { result ≡ sites.space_of site }
{
    match site {
        Site::Cell(cell) => Space::Cell(cell),
        Site::ReplyWord(_) => Space::Reply,
        Site::Key => Space::Key,
        Site::Scratch(i) => Space::Scratch(i),
        Site::Descriptor(ring) => Space::Descriptor(ring),
        Site::Field(f) => Space::Slot(f.slot),
        Site::Table { table, offset: _ } => Space::Table(table),
    }
}

/// The first byte of a site in its space.
fn start_of(site: Site) -> u64
    ensures { result ≡ sites.start_of site }
{
    match site {
        Site::ReplyWord(i) => 8 * u64::from(i),
        Site::Field(f) => u64::from(f.byte),
        Site::Table { table: _, offset } => offset,
        _ => 0,
    }
}

fn is_gate(op: Opcode) -> bool
    ensures { result ≡ layout.is_gate op }
{
    matches!(op, Opcode::Wait | Opcode::Enable)
}

/// The request of a WAIT or an ENABLE, which has its operands alone.
pub fn gate_request(op: Opcode, first: u64, second: u64) -> Request
    ensures { result ≡ layout.operands (number_of op) first second }
{
    Request {
        op: op_number(op),
        id: 0,
        lkey: 0,
        rkey: 0,
        local: 0,
        remote: 0,
        length: 0,
        first,
        second,
        flags: 0,
    }
}

/// A side of a draft: so many bytes behind the beginning of a site.
fn side(plan: &ChainPlan, tables: &[TablePlan], site: Site, byte: u8) -> Place
    requires { sites.start_of site ≤ 64 }
    ensures { let home = layout.home plan.now tables.now (sites.space_of site) in
        result ≡ record { key = home.region.key; offset = home.offset + (sites.start_of site + byte) } }
{
    let place = plan.place(tables, space_of(site));
    Place {
        key: place.key,
        offset: place.offset + (start_of(site) + u64::from(byte)),
    }
}

/// The remote side, which a SEND doesn't have.
fn remote_side(plan: &ChainPlan, tables: &[TablePlan], d: &Draft) -> Place
    requires { sites.start_of d.now.remote ≤ 64 }
    ensures { let home = layout.home plan.now tables.now in
        result ≡ record { key = layout.remote_key home d.now d.now.op; offset = layout.remote_offset home d.now d.now.op } }
{
    match d.op {
        Opcode::Send => Place { key: 0, offset: 0 },
        _ => side(plan, tables, d.remote, d.remote_byte),
    }
}

fn side_request(plan: &ChainPlan, tables: &[TablePlan], d: &Draft, flags: u64) -> Request
    requires { is_near d.now ≡ true }
    ensures { result ≡ layout.side_request (layout.home plan.now tables.now) d.now flags }
{
    let local = side(plan, tables, d.local, d.local_byte);
    let remote = remote_side(plan, tables, d);
    Request {
        op: op_number(d.op),
        id: 0,
        lkey: local.key,
        rkey: remote.key,
        local: local.offset,
        remote: remote.offset,
        length: d.length,
        first: d.first,
        second: d.second,
        flags,
    }
}

/// The request of a draft with these flags, which gates don't have.
fn request_of(plan: &ChainPlan, tables: &[TablePlan], d: &Draft, flags: u64) -> Request
    requires { is_near d.now ≡ true }
    ensures request { result ≡ layout.request_by (layout.home plan.now tables.now) d.now flags d.now.op }
    ensures plain { result.id ≡ 0 }
{
    match d.op {
        Opcode::Wait | Opcode::Enable => gate_request(d.op, d.first, d.second),
        _ => side_request(plan, tables, d, flags),
    }
}

/// Appends the slots of a segment. Its last request that goes into flight is signalled.
fn put_segment(
    out: &mut Vec<u8>,
    plan: &ChainPlan,
    tables: &[TablePlan],
    drafts: &[Draft],
) -> Result<(), Memory>
    requires { list_all is_near drafts.now ≡ true }
    ensures { OnOk result (out.new.items ≡ out.old.items ++ layout.segment_bytes (layout.home plan.now tables.now) drafts.now) }
{
    match drafts {
        [] => Ok(()),
        [d] => put_request(out, &request_of(plan, tables, d, 1)),
        [d, others @ ..] => {
            let flags = u64::from(is_gate(others[0].op));
            put_request(out, &request_of(plan, tables, d, flags))?;
            put_segment(out, plan, tables, others)
        }
    }
}

/// Appends the slots of some segments.
pub fn put_segments(
    out: &mut Vec<u8>,
    plan: &ChainPlan,
    tables: &[TablePlan],
    segments: &[Segment],
) -> Result<(), Memory>
    requires { are_near segments.now ≡ true }
    ensures { OnOk result (out.new.items ≡ out.old.items ++ layout.ring_bytes (layout.home plan.now tables.now) segments.now) }
{
    for segment in segments {
        put_segment(out, plan, tables, &segment.drafts)?;
    }
    Ok(())
}
