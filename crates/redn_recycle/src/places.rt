//! Where the slots of a ring go when each segment gets its lap requests and gates.

ghost use Rattle.std.specs.Prelude.{◌≡◌, ℕ, ◌+◌, ◌-◌, ◌*◌, ◌<◌, ◌≤◌, ◌^◌, ◌++◌, length, true, map, IfOk, OnOk};
ghost use Rattle.std.specs.List.{list_all};
ghost use Rattle.redn_segment.specs.Building.{drafts_of};
ghost use Rattle.redn_segment.specs.Costs.{sends as has_send};
ghost use Rattle.redn_segment.specs.Renaming.{renamed, renamed_site};
ghost use Rattle.redn_recycle.specs.Laps as spec;
ghost use Rattle.redn_recycle.specs.Lapped as lapped;

use redn_segment::{Draft, Field48, Ring, Segment, Site, SlotRef, add_to, field};
use redn_words::{Memory, Opcode};
use std::alloc::Global;
use std::marker::Model;

/// The byte of a slot at which a count or a limit stands: its second operand.
const SECOND: u8 = 48;

/// A ring, where each of its segments ends, and where each begins with laps; the last of these is
/// the end of the ring.
#[derive(Drop)]
pub struct Places {
    ring: u32,
    segments: Vec<Segment>,
    sends: bool,
    ends: Vec<u32>,
    firsts: Vec<u32>,
}

impl Model for Places {
    ghost use Rattle.redn_recycle.specs.Places.{Whole, ArePlaces};

    ghost Value = { Whole };

    ghost view = { λ p. record { ring = p.ring; segments = p.segments.items } };

    ghost invariant = { λ p. ArePlaces p.ring p.segments.items p.sends p.ends.items p.firsts.items };
}

/// Whether a segment has a SEND.
fn sends(s: &Segment) -> bool
    ensures { result ≡ has_send s.now }
{
    s.drafts.iter().any(|d| matches!(d.op, Opcode::Send))
}

/// Whether the last of some segments has a SEND.
fn sends_last(segments: &[Segment]) -> bool
    requires { 1 ≤ length segments.now }
    ensures { result ≡ lapped.sends_last segments.now }
{
    sends(&segments[segments.len() - 1])
}

/// A WAIT or an ENABLE. Its two operands are all that counts of it.
fn gate(op: Opcode, first: u64, second: u64) -> Draft
    ensures { result ≡ lapped.gate_draft op first second }
{
    Draft {
        op,
        local: Site::Scratch(0),
        local_byte: 0,
        remote: Site::Scratch(0),
        remote_byte: 0,
        length: 0,
        first,
        second,
    }
}

/// How many lap requests and gates segment `j` gets.
fn added_to(sends: bool, count: usize, j: usize) -> u32
    requires { j < count }
    ensures { result ≡ lapped.added_to sends count j }
{
    if sends && j + 1 == count {
        0
    } else if sends && j == 0 {
        3
    } else {
        4
    }
}

impl Places {
    /// The places of a ring.
    pub fn new(alloc: Global, r: Ring) -> Result<Places, Memory>
        requires { lapped.MayGoRound r.segments.items r.ring }
        ensures { IfOk result (λ p. p ≡ record { ring = r.ring; segments = r.segments.items }) }
    {
        let count = r.segments.len();
        let sends = sends_last(&r.segments);
        let mut ends = Vec::new(alloc);
        let mut firsts = Vec::new(alloc);
        let mut end: u32 = 0;
        let mut first: u32 = 0;
        firsts.push(first)?;
        for (j, s) in r.segments.iter().enumerate() {
            let drafts = s.drafts.len() as u32;
            end += drafts;
            first += drafts + added_to(sends, count, j);
            ends.push(end)?;
            firsts.push(first)?;
        }
        Ok(Places {
            ring: r.ring,
            segments: r.segments,
            sends,
            ends,
            firsts,
        })
    }

    pub fn ring(&self) -> u32
        ensures { result ≡ self.now.ring }
    {
        self.ring
    }

    /// How many segments there are.
    pub fn count(&self) -> usize
        ensures { result ≡ length self.now.segments }
    {
        self.segments.len()
    }

    /// Where segment `j` begins with laps, and behind the last one the end of the ring.
    fn first(&self, j: usize) -> u32
        requires { j ≤ length self.now.segments }
        ensures { result ≡ lapped.first_of self.now.segments j }
    {
        self.firsts[j]
    }

    /// Where segment `j` begins without laps.
    fn start(&self, j: usize) -> u32
        requires { j ≤ length self.now.segments }
        ensures { result ≡ lapped.start_of self.now.segments j }
    {
        if j == 0 { 0 } else { self.ends[j - 1] }
    }

    /// The segment of a slot.
    fn segment_of_slot(&self, slot: u32) -> usize
        ensures { result ≡ lapped.segment_of_slot self.now.segments slot }
    {
        self.ends.partition_point(|end| *end <= slot)
    }

    /// Whether a number stands for the last ENABLE.
    fn is_last_enable(&self, slot: u32) -> bool
        ensures { result ≡ lapped.names_last self.now.segments slot }
    {
        !self.sends && slot == self.start(self.segments.len())
    }

    /// The new number of a slot, or of the number behind the last draft.
    fn slot(&self, slot: u32) -> u32
        requires { slot ≤ length (drafts_of self.now.segments) }
        ensures { result ≡ lapped.slot_in_laps self.now.segments slot }
    {
        if self.is_last_enable(slot) {
            return self.first(self.segments.len()) - 1;
        }
        let j = self.segment_of_slot(slot);
        self.first(j) + (slot - self.start(j))
    }

    fn site(&self, site: Site) -> Site
        requires { lapped.names_well self.now.segments self.now.ring site ≡ true }
        ensures { result ≡ renamed_site (lapped.ref_in_laps self.now.segments self.now.ring) site }
    {
        match site {
            Site::Field(f) if f.slot.ring == self.ring => {
                let slot = SlotRef {
                    ring: f.slot.ring,
                    slot: self.slot(f.slot.slot),
                };
                Site::Field(Field48 {
                    slot,
                    byte: f.byte,
                    len: f.len,
                })
            }
            _ => site,
        }
    }

    /// A draft, whose slots have their new numbers.
    fn draft(&self, d: &Draft) -> Draft
        requires { lapped.draft_names_well self.now.segments self.now.ring d.now ≡ true }
        ensures { result ≡ renamed (lapped.ref_in_laps self.now.segments self.now.ring) d.now }
    {
        Draft {
            op: d.op,
            local: self.site(d.local),
            local_byte: d.local_byte,
            remote: self.site(d.remote),
            remote_byte: d.remote_byte,
            length: d.length,
            first: d.first,
            second: d.second,
        }
    }

    fn drafts(&self, alloc: Global, drafts: &[Draft]) -> Result<Vec<Draft>, Memory>
        requires { list_all (lapped.draft_names_well self.now.segments self.now.ring) drafts.now ≡ true }
        ensures { IfOk result (λ v. v.items ≡ map (renamed (lapped.ref_in_laps self.now.segments self.now.ring)) drafts.now) }
    {
        let mut made = Vec::new(alloc);
        for d in drafts {
            made.push(self.draft(d))?;
        }
        Ok(made)
    }

    /// Adds the number of segments to the count of the WAIT of segment `j`.
    fn raise_wait(&self, j: usize) -> Draft
        requires inside { j < length self.now.segments }
        requires gated { 3 ≤ lapped.slots_added self.now.segments j }
        ensures { (domain base : ℕ) → result ≡ spec.raise_wait self.now.ring (lapped.ring_of self.now.segments self.now.ring domain base) j }
    {
        let slot = SlotRef {
            ring: self.ring,
            slot: self.first(j + 1) - 2,
        };
        add_to(2, field(slot, SECOND, 8), self.segments.len() as u64)
    }

    /// Adds the number of slots to the limit of the ENABLE of segment `j`.
    fn raise_enable(&self, j: usize) -> Draft
        requires inside { j < length self.now.segments }
        requires gated { 3 ≤ lapped.slots_added self.now.segments j }
        ensures { (domain base : ℕ) → result ≡ spec.raise_enable self.now.ring (lapped.ring_of self.now.segments self.now.ring domain base) j }
    {
        let slot = SlotRef {
            ring: self.ring,
            slot: self.first(j + 1) - 1,
        };
        add_to(3, field(slot, SECOND, 8), self.slots())
    }

    /// Adds the number of slots to the limit in the descriptor of the ring.
    fn raise_descriptor(&self) -> Draft
        ensures { (domain base : ℕ) → result ≡ spec.raise_descriptor self.now.ring (lapped.ring_of self.now.segments self.now.ring domain base) }
    {
        let mut raise = add_to(3, Site::Descriptor(self.ring), self.slots());
        raise.remote_byte = 8;
        raise
    }

    /// How many slots the ring has with laps.
    fn slots(&self) -> u64
        ensures { result ≡ lapped.slots_in_laps self.now.segments }
    {
        u64::from(self.first(self.segments.len()))
    }

    /// Whether segment `j` is the last one, and has a SEND.
    fn is_send_last(&self, j: usize) -> bool
        requires { j < length self.now.segments }
        ensures { (domain base : ℕ) → result ≡ spec.is_send_last self.now.ring (lapped.ring_of self.now.segments self.now.ring domain base) j }
    {
        self.sends && j + 1 == self.segments.len()
    }

    /// Appends the lap requests of segment `j`.
    fn push_lap_requests(&self, j: usize, drafts: &mut Vec<Draft>) -> Result<(), Memory>
        requires { j < length self.now.segments }
        ensures { (domain base : ℕ) → OnOk result (drafts.new.items ≡ drafts.old.items ++ spec.lap_requests self.now.ring (lapped.ring_of self.now.segments self.now.ring domain base) j) }
    {
        if j == 0 {
            if !self.sends {
                drafts.push(self.raise_wait(self.segments.len() - 1))?;
            }
            drafts.push(self.raise_descriptor())?;
        } else if !self.is_send_last(j) {
            drafts.push(self.raise_wait(j - 1))?;
            drafts.push(self.raise_enable(j - 1))?;
        }
        Ok(())
    }

    /// Appends the WAIT and the ENABLE of segment `j`.
    fn push_gates(&self, j: usize, drafts: &mut Vec<Draft>) -> Result<(), Memory>
        requires { j < length self.now.segments }
        ensures { (domain base : ℕ) → OnOk result (drafts.new.items ≡ drafts.old.items ++ lapped.gate_drafts self.now.ring (lapped.ring_of self.now.segments self.now.ring domain base) j) }
    {
        let queue = u64::from(self.ring);
        if self.is_send_last(j) {
            return Ok(());
        }
        if j + 1 == self.segments.len() {
            drafts.push(gate(Opcode::Wait, queue, 0))?;
            drafts.push(gate(Opcode::Enable, 0, 0))?;
        } else {
            drafts.push(gate(Opcode::Wait, queue, j as u64 + 1))?;
            drafts.push(gate(Opcode::Enable, queue, u64::from(self.first(j + 2))))?;
        }
        Ok(())
    }

    /// Segment `j` with its lap requests and gates.
    pub fn segment(&self, alloc: Global, j: usize) -> Result<Segment, Memory>
        requires { j < length self.now.segments }
        ensures { (domain base : ℕ) → IfOk result (λ s. s ≡ lapped.lapped_segment self.now.ring (lapped.ring_of self.now.segments self.now.ring domain base) j) }
    {
        let mut drafts = self.drafts(alloc, &self.segments[j].drafts)?;
        self.push_lap_requests(j, &mut drafts)?;
        self.push_gates(j, &mut drafts)?;
        Ok(Segment { drafts })
    }
}
