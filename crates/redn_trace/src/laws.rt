ghost use Rattle.redn_trace.specs.EventText.{EachEventHasALine};

/// What an action of an adapter shows has a line: a reply has at most eight words. This is a law,
/// and a call of it does nothing.
#[tactic(auto, using(crate::proofs::Printable::shown_fits))]
pub fn each_event_has_a_line()
    ensures { EachEventHasALine }
{}
