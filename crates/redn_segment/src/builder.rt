ghost use Rattle.std.specs.Prelude.{◌≡◌, ◌+◌, ◌<◌, ◌^◌, true, [], ◌∷◌, ◌++◌, length, map, OnOk};
ghost use Rattle.std.specs.List.{flat_map};
ghost use Rattle.redn_segment.specs.Building.{Building, drafts_of};
ghost use Rattle.redn_segment.specs.Drafts.{slot_from};
ghost use Rattle.redn_segment.specs.Effects.{first_slot};
ghost use Rattle.redn_segment.specs.Footprints.{is_apart, segments_apart};

use crate::types::{Ring, Segment, SlotRef};
use redn_words::Memory;
use std::alloc::Global;
use std::marker::Model;

/// A ring that grows by whole segments.
#[derive(Drop)]
pub struct RingBuilder {
    ring: u32,
    segments: Vec<Segment>,
    next: u32,
}

impl Model for RingBuilder {
    ghost use Rattle.std.specs.Prelude.{◌≡◌, length};
    ghost use Rattle.redn_segment.specs.Building.{Building, drafts_of};

    ghost Value = { Building };

    ghost view = { λ b. record { ring = b.ring; segments = b.segments.items } };

    ghost invariant = { λ b. b.next ≡ length (drafts_of b.segments.items) };
}

impl RingBuilder {
    /// An empty ring of that number.
    pub fn new(alloc: Global, ring: u32) -> RingBuilder
        ensures { result ≡ record { ring = ring; segments = [] } }
    {
        RingBuilder {
            ring,
            segments: Vec::new(alloc),
            next: 0,
        }
    }

    /// Appends a segment whose footprints lie apart at the next slot.
    pub fn push_segment(&mut self, s: Segment) -> Result<(), Memory>
        requires few { length (drafts_of self.old.segments) + length s < 2 ^ 32 }
        requires apart { is_apart s (first_slot self.old) ≡ true }
        ensures { OnOk result (self.new ≡ record self.old { segments = self.old.segments ++ s ∷ [] }) }
    {
        let drafts = s.drafts.len() as u32;
        self.segments.push(s)?;
        self.next += drafts;
        Ok(())
    }

    /// Appends segments, one after the other.
    pub fn push_segments(&mut self, segments: Vec<Segment>) -> Result<(), Memory>
        requires few { length (drafts_of self.old.segments) + length (drafts_of segments.items) < 2 ^ 32 }
        requires apart { segments_apart (first_slot self.old) segments.items ≡ true }
        ensures { OnOk result (self.new ≡ record self.old { segments = self.old.segments ++ segments.items }) }
    {
        for s in segments {
            self.push_segment(s)?;
        }
        Ok(())
    }

    /// So many slots behind the first slot of the next segment.
    pub fn slot(&self, k: u32) -> SlotRef
        requires few { length (drafts_of self.now.segments) + k < 2 ^ 32 }
        ensures { result ≡ slot_from self.now.ring (length (drafts_of self.now.segments)) k }
    {
        SlotRef {
            ring: self.ring,
            slot: self.next + k,
        }
    }

    /// The first slot of the next segment.
    pub fn next_slot(&self) -> u32
        ensures { result ≡ length (drafts_of self.now.segments) }
    {
        self.next
    }

    /// The ring's number.
    pub fn ring(&self) -> u32
        ensures { result ≡ self.now.ring }
    {
        self.ring
    }

    /// The whole ring.
    pub fn finish(self) -> Ring
        ensures ring { result.ring ≡ self.ring }
        ensures segments { result.segments.items ≡ self.segments }
    {
        let RingBuilder {
            ring,
            segments,
            next: _,
        } = self;
        Ring { ring, segments }
    }
}
