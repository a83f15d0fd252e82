//! Laws of all chains of an image, whatever the order of the adapter's actions. A call of one does
//! nothing.

ghost use Rattle.redn_kernel.specs.declared.types.Program.{Program};
ghost use Rattle.redn_image.specs.Rules.{Image};
ghost use Rattle.redn_image.specs.Agreement.{Fits};
ghost use Rattle.redn_image.specs.Faithful.{Faithful};
ghost use Rattle.redn_proof_interleave.specs.Machines.{Many};
ghost use Rattle.redn_proof_interleave.specs.Forms.{World, AllPromise};
ghost use Rattle.redn_proof_interleave.specs.Explains.{Begins};
ghost use Rattle.redn_proof_interleave.specs.Sources.{Sourced};
ghost use Rattle.redn_proof_interleave.specs.Compiled.{Messages};
ghost use Rattle.redn_proof_interleave.specs.ChainLaws.{EveryOrder, AllCompiled};

/// Chains in compiled form, and a machine for each.
pub trait Chains {
    ghost world: { World };

    ghost machines: { Many world.M };

    ghost promised: { AllPromise world };

    ghost begun: { Begins world machines };
}

/// What the adapter shows and leaves is what the machines do, one turn after the other.
pub fn chains_in_any_order<C: Chains>()
    ensures { EveryOrder C.world C.machines }
{}

/// The compiled form of a program, for each choice of messages.
pub trait Compiled {
    ghost program: { Program };

    ghost image: { Image };

    ghost worlds: { Messages → Sourced };

    ghost fits: { Fits program image };

    ghost compiled: { AllCompiled program image worlds };
}

/// Such an image does what its program says.
pub fn compiled_is_faithful<C: Compiled>()
    ensures { Faithful C.program C.image }
{}
