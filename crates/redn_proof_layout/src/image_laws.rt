//! Laws of images of graphs. A call of one does nothing.

ghost use Rattle.redn_proof_layout.specs.ImageLaws.{EmittedAreFaithful, EmittedAreFaithfulToGraphs, EmittedFit, EmittedHaveEntries, EmittedStandTogether};
ghost use Rattle.redn_proof_layout.specs.Segments.{SegmentsInAnyOrder};

/// The chains of an image of a sound program's graphs stand side by side, as rings of these graphs,
/// whatever the messages.
pub fn emitted_stand_together()
    ensures entries { EmittedHaveEntries }
    ensures together { EmittedStandTogether }
{}

/// Such an image has a place for all that the program names.
pub fn emitted_fit()
    ensures { EmittedFit }
{}

/// Whatever the graphs, the image does what they do, under every order of the adapter's actions: what
/// is shown is a run of the graphs that take turns, memory agrees with it, no request runs stale or
/// undefined, and no chain takes more useful actions than its graph's steps cost.
pub fn emitted_are_faithful_to_graphs()
    ensures { EmittedAreFaithfulToGraphs }
{}

/// One segment of a ring that `with_laps` made and `emit` placed, ready before: in whatever order its
/// requests are fetched, started and landed, it ends with the next one ready.
pub fn segments_in_any_order()
    ensures { SegmentsInAnyOrder }
{}

/// Where each graph follows its chain, the image does what the program says.
pub fn emitted_are_faithful()
    ensures { EmittedAreFaithful }
{}
