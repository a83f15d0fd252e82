//! The numbers that drafts read.

ghost use Rattle.std.specs.Prelude.{◌≡◌, OnOk, IfOk};
ghost use Rattle.std.specs.List.{flat_map};
ghost use Rattle.redn_segment.specs.Building.{drafts_of};
ghost use Rattle.redn_emit.specs.Layout.{each_once, number_read};
ghost use Rattle.redn_emit.specs.Placed.{constants_of as constants_in};

use crate::ring::RingPlan;
use indexmap::IndexSet;
use redn_kernel::Cell;
use redn_segment::{Draft, Segment, Site};
use redn_words::Memory;
use std::alloc::Global;

/// Adds the number that a draft reads, where it reads one that isn't there.
fn add_draft(seen: &mut IndexSet<u64>, d: &Draft) -> Result<(), Memory>
    ensures { OnOk result (seen.new.keys ≡ each_once seen.old.keys (number_read d.now.local)) }
{
    if let Site::Cell(Cell::Num(n)) = d.local {
        seen.insert(n)?;
    }
    Ok(())
}

fn add_drafts(seen: &mut IndexSet<u64>, drafts: &[Draft]) -> Result<(), Memory>
    ensures { OnOk result (seen.new.keys ≡ each_once seen.old.keys (flat_map (λ d. number_read d.local) drafts.now)) }
{
    for d in drafts {
        add_draft(seen, d)?;
    }
    Ok(())
}

fn add_segments(seen: &mut IndexSet<u64>, segments: &[Segment]) -> Result<(), Memory>
    ensures { OnOk result (seen.new.keys ≡ each_once seen.old.keys (flat_map (λ d. number_read d.local) (drafts_of segments.now))) }
{
    for segment in segments {
        add_drafts(seen, &segment.drafts)?;
    }
    Ok(())
}

/// The numbers that the drafts of some rings read, each once, where it stands first.
pub fn constants_of(alloc: Global, rings: &[RingPlan]) -> Result<IndexSet<u64>, Memory>
    ensures { IfOk result (λ seen. seen.keys ≡ constants_in rings.now) }
{
    let mut seen = IndexSet::new(alloc);
    for ring in rings {
        add_segments(&mut seen, ring.segments())?;
    }
    Ok(seen)
}
