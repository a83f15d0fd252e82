//! A law of an adapter's actions. A call of it does nothing.

ghost use Rattle.redn_adapter.specs.Laws.{StaleWhere};

/// Where the start of a request is stale, and that it is shown there and nowhere else.
pub fn starts_are_stale_exactly_where()
    ensures { StaleWhere }
{}
