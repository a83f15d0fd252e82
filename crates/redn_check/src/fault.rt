ghost use Rattle.std.specs.Prelude.{◌≡◌};
ghost use Rattle.redn_check.specs.Faults as faults;

use thiserror::Error;

/// Why a file is refused: the rule that fails first, at which place, and the offending number or
/// count of a limit, which is 0 where the rule has none. Places are in bytes from the start of the
/// text.
#[derive(Clone, Copy, Debug, PartialEq, Eq, Error)]
pub enum CheckFault {
    #[error("rule {rule} fails at byte {at} ({seen})")]
    Rule { rule: u8, at: u32, seen: u64 },
    #[error("out of memory")]
    Memory,
}

/// A rule that fails at a place.
#[derive(Clone, Copy, Debug, PartialEq, Eq)]
pub struct Fault {
    pub rule: u8,
    pub at: u32,
    pub seen: u64,
}

/// This fault of a rule, where the test holds.
pub fn when(broken: bool, rule: u8, at: u32, seen: u64) -> Option<Fault>
    ensures { result ≡ faults.first_of (faults.when broken (faults.fault rule at seen)) }
{
    broken.then_some(Fault { rule, at, seen })
}

fn comes_before(a: Fault, b: Fault) -> bool
    ensures { result ≡ faults.comes_before a b }
{
    a.at < b.at || (a.at == b.at && a.rule < b.rule)
}

/// The one of two that is told: that of the lesser place, then that of the lesser rule, then the
/// left one.
pub fn earlier(a: Option<Fault>, b: Option<Fault>) -> Option<Fault>
    ensures { result ≡ faults.earlier a b }
{
    match (a, b) {
        (Some(x), Some(y)) => Some(if comes_before(y, x) { y } else { x }),
        (Some(x), None) => Some(x),
        (None, y) => y,
    }
}
