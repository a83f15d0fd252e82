//! Laws of drafts and templates, each the contract of a function that does nothing. Callers that
//! compose templates or renumber slots call them for what they ensure.

ghost use Rattle.redn_segment.specs.Laws as laws;

/// What two templates append, one after the other, is what one template would that does both:
/// the effects in turn, and all counts, events, footprints and rights.
pub fn templates_in_turn()
    ensures appended { laws.TemplatesInTurn }
    ensures cost { laws.CostsInTurn }
    ensures rights { laws.RightsInTurn }
    ensures added { laws.AddedOnce }
{}

/// Other numbers for slots, of which no two are one and which keep neighbours, change no plain run.
pub fn runs_renumbered()
    ensures { laws.RunsRenumbered }
{}
