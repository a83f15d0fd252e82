//! Laws of the windows of managed rings, whatever the order of an adapter's actions and whatever else
//! acts in between. A call of one does nothing.

ghost use Rattle.redn_proof_window.specs.Scripts.{Script, IsScript};
ghost use Rattle.redn_proof_window.specs.WindowLaws.{WindowsOpen, WindowsMove, WindowsStay, WindowsGoOn, WindowsEnd, WindowsCount, GatesMove, GatesGoOn};
ghost use Rattle.redn_proof_window.specs.WindowLaws.{ChainsMove, ChainsStay, ChainsLeft, ChainsBegin, ChainsFollow, ChainsGoOn};

/// A window keeps its private bytes as if its requests landed in the order of their slots.
pub fn a_window_in_any_order()
    ensures opens { WindowsOpen }
    ensures moves { WindowsMove }
    ensures stays { WindowsStay }
    ensures goes_on { WindowsGoOn }
    ensures ends { WindowsEnd }
    ensures counts { WindowsCount }
{}

/// A queue of WAITs and ENABLEs alone, as a chain's entry, passes them one after the other.
pub fn gates_in_any_order()
    ensures moves { GatesMove }
    ensures goes_on { GatesGoOn }
{}

/// A chain that keeps to a script: where its windows are, and that each leads to the next.
pub trait Scripted {
    ghost script: { Script };

    ghost kept: { IsScript script };
}

/// A chain goes from window to window as its script says.
pub fn a_chain_in_any_order<S: Scripted>()
    ensures moves { ChainsMove S.script S.kept }
    ensures stays { ChainsStay S.script }
    ensures left { ChainsLeft S.script }
    ensures begins { ChainsBegin S.script }
    ensures follows { ChainsFollow S.script S.kept }
    ensures goes_on { ChainsGoOn S.script }
{}
