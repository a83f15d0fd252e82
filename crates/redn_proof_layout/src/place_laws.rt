//! Laws of placed chains. A call of one does nothing.

ghost use Rattle.redn_proof_layout.specs.Beginning.{AllBegin, AllBytes, BeginsReady};
ghost use Rattle.redn_proof_layout.specs.Rings.{AllHaveGraphs};
ghost use Rattle.redn_proof_layout.specs.Rows.{AllEntered, AllQueuesStand};
ghost use Rattle.redn_proof_layout.specs.PlacedLaws.{AllGranted, AllLaid, AllLaidOut, ChainsLieApart, WrittenAreAll};

use redn_proof_ring::layouts_are_laid;

/// Each chain of a placed image is laid out as rings with laps ask, so its windows are theirs.
pub fn all_laid()
    ensures laid_out { AllLaidOut }
    ensures laid { AllLaid }
{
    layouts_are_laid();
}

/// Each chain has the graph of its place, and each of its rings the segments of one of the graph's blocks.
pub fn all_have_graphs()
    ensures { AllHaveGraphs }
{}

/// What a chain has for itself is no other's, and no table's.
pub fn chains_lie_apart()
    ensures { ChainsLieApart }
{}

/// The regions of a chain grant what its drafts need, where they write only tables that may be written.
pub fn all_granted()
    ensures granted { AllGranted }
    ensures written { WrittenAreAll }
{}

/// Memory begins with each chain's requests, gates, descriptors and words as its rings ask before lap 0,
/// and holds bytes.
pub fn all_begin()
    ensures begin { AllBegin }
    ensures bytes { AllBytes }
{}

/// A placed chain, and what the states before its segments mean.
pub trait Meant {
    ghost use Rattle.std.specs.Prelude.{List};
    ghost use Rattle.redn_kernel.specs.declared.types.Program.{Program};
    ghost use Rattle.redn_graph.specs.declared.types.Graph.{Graph};
    ghost use Rattle.redn_proof_ring.specs.Turns.{Meaning};
    ghost use Rattle.redn_emit.specs.Layout.{ChainPlan};
    ghost use Rattle.redn_proof_layout.specs.Beginning.{plan_for};

    ghost program: { Program };

    ghost graphs: { List Graph };

    ghost chain: { ChainPlan };

    ghost meaning: { Meaning (plan_for program graphs chain) };
}

/// Where the first state means what it should, such a chain is ready before the first segment of a ring.
pub fn begins_ready<M: Meant>()
    ensures { BeginsReady M.program M.graphs M.chain M.meaning }
{}

/// The queues of an image are the entries of its chains and then their rings, and each chain is entered at
/// the ring of its entry block.
pub fn all_queues_stand()
    ensures queues { AllQueuesStand }
    ensures entered { AllEntered }
{}
