//! A law of the tests, the contract of a function that does nothing.

ghost use Rattle.redn_cas.specs.WithoutCas.{CasChooses};

/// It is compare-and-swap that chooses: with a NOOP in place of each CAS, a test chooses the other
/// ring from every state, and a probe the ring for no match, with its target as it was.
pub fn cas_chooses()
    ensures { CasChooses }
{}
