//! Laws of a chain's rings beside its graph. A call of one does nothing.

ghost use Rattle.std.specs.Prelude.{ℕ};
ghost use Rattle.redn_proof_chain.specs.FormLaws.{LayingsForm, PartsPay, RingsPromise, RingsSide, ShelvesHold, StepsShow};

/// The windows of an instruction or an end cost together at most what the graph's step brings there.
pub fn parts_pay()
    ensures { PartsPay }
{}

/// The graph's state behind an event is told from what the event's body wrote.
pub fn steps_show()
    ensures { StepsShow }
{}

/// Tables in memory stay where no byte of them changes, and have a word where it is stored.
pub fn shelves_hold()
    ensures { ShelvesHold }
{}

/// A chain's graph in rings tells of their runs what is asked here.
pub fn layings_form()
    ensures { LayingsForm }
{}

/// A chain's rings among others.
pub trait ChainRings {
    ghost use Rattle.redn_proof_chain.specs.Together.{Together};
    ghost use Rattle.redn_proof_chain.specs.Among.{IsAmong};

    ghost together: { Together };

    ghost number: { ℕ };

    ghost among: { IsAmong together number };
}

/// They are the compiled form of the chain's graph.
pub fn rings_promise<R: ChainRings>()
    ensures { RingsPromise R.together R.number }
{}

/// The chains of an image with these messages, as rings side by side.
pub trait ImageRings {
    ghost use Rattle.redn_kernel.specs.declared.types.Program.{Program};
    ghost use Rattle.std.specs.Prelude.{List};
    ghost use Rattle.redn_graph.specs.declared.types.Graph.{Graph};
    ghost use Rattle.redn_image.specs.Rules.{Image};
    ghost use Rattle.redn_proof_interleave.specs.Compiled.{Messages};
    ghost use Rattle.redn_proof_chain.specs.Together.{Together};
    ghost use Rattle.redn_proof_chain.specs.Sides.{IsImage};

    ghost program: { Program };

    ghost image: { Image };

    ghost graphs: { List Graph };

    ghost messages: { Messages };

    ghost together: { Together };

    ghost its: { IsImage program image graphs messages together };
}

/// They run as the graphs of the program's chains.
pub fn rings_side<I: ImageRings>()
    ensures { RingsSide I.program I.image I.graphs I.messages I.together }
{}
