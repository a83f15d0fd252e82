//! Laws of an adapter's actions and landings. A call of one does nothing.

ghost use Rattle.redn_words.specs.Laws.{DeliversWhere, FetchesWhere, StartsWhere, LandsWhere, CompletesWhere, RunsCut, RowsStay, OthersStay, RisesByOne, OtherDomainsStay, OtherBytesStay, ApartStays, ApartStand, ReadsOneRange, ApartExchange, ReachedInOrder, MemoryKeepsLength};

/// Where each action is possible, and what it finds there.
pub fn actions_are_possible_exactly_where()
    ensures deliver { DeliversWhere }
    ensures fetch { FetchesWhere }
    ensures start { StartsWhere }
    ensures land { LandsWhere }
    ensures complete { CompletesWhere }
{}

/// A run of actions may be cut into two.
pub fn runs_can_be_cut()
    ensures { RunsCut }
{}

/// An action changes no row, leaves every queue but its own as it is, but for a limit that it
/// raises, and leaves alone what belongs to other domains.
pub fn an_action_leaves_others()
    ensures rows { RowsStay }
    ensures queues { OthersStay }
    ensures rises { RisesByOne }
    ensures domains { OtherDomainsStay }
    ensures bytes { OtherBytesStay }
{}

/// Changes leave what lies apart from them. A landing depends on one range of memory, and two that
/// lie apart can be exchanged.
pub fn landings_apart_can_be_exchanged()
    ensures leaves { ApartStays }
    ensures stand { ApartStand }
    ensures reads { ReadsOneRange }
    ensures apart { ApartExchange }
{}

/// Every state that is reached has its queues in order, and a memory of the same length.
pub fn reached_states_are_in_order()
    ensures queues { ReachedInOrder }
    ensures memory { MemoryKeepsLength }
{}
