//! Laws of the graphs of a program's chains. A call of one does nothing.

ghost use Rattle.std.specs.Prelude.{List};
ghost use Rattle.redn_kernel.specs.declared.types.Program.{Program};
ghost use Rattle.redn_graph.specs.declared.types.Graph.{Graph};
ghost use Rattle.redn_image.specs.Rules.{Image};
ghost use Rattle.redn_image.specs.Agreement.{Fits};
ghost use Rattle.redn_image.specs.Faithful.{Faithful};
ghost use Rattle.redn_proof_interleave.specs.Compiled.{Messages};
ghost use Rattle.redn_proof_interleave.specs.RingSides.{AllFollow, Graphed};
ghost use Rattle.redn_proof_interleave.specs.GraphLaws.{AllRingSides, GraphsRunThemselves, SilentAnywhere};

/// A graph is a machine, whose silent steps see no table.
pub fn graphs_are_machines()
    ensures machine { GraphsRunThemselves }
    ensures silent { SilentAnywhere }
{}

/// An image whose rings run as the graphs of a program's chains do.
pub trait GraphImage {
    ghost program: { Program };

    ghost image: { Image };

    ghost graphs: { List Graph };

    ghost worlds: { Messages → Graphed };

    ghost followed: { AllFollow program.chains graphs };

    ghost fits: { Fits program image };

    ghost rings: { AllRingSides program image graphs worlds };
}

/// Such an image does what its program says.
pub fn graphs_are_faithful<G: GraphImage>()
    ensures { Faithful G.program G.image }
{}
