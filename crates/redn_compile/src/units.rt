//! The law of an adapter that takes one request after the other. A call does nothing.

ghost use Rattle.redn_compile.specs.Units.{UnitsAreRuns};

/// Where an image is faithful to a program, whatever takes one request after the other is a run of it.
pub fn units_are_runs()
    ensures { UnitsAreRuns }
{}
