ghost use Rattle.std.specs.Prelude.{◌≡◌, ◌+◌, ◌-◌, ◌^◌, ◌<◌, ◌≤◌, ℕ, true, false, vec_len, IfOk, IfSome, OnOk, Err};
ghost use Rattle.redn_words.specs.Access.{EndsBy, access, region_of};
ghost use Rattle.redn_region.specs.Rows.{repeats};

use crate::access::place;
use redn_words::{Need, Refusal, Region, Spot};
use std::alloc::{AllocFailed, Global};
use std::collections::BTreeMap;
use std::marker::Model;

/// Why rows are no regions: the row of this index has the key of an earlier one, or want of memory.
#[derive(Clone, Copy, Debug, PartialEq, Eq)]
pub enum RegionsFault {
    Repeated { index: u32 },
    Memory,
}

impl<T: Drop> From<AllocFailed<T>> for RegionsFault {
    ghost use Rattle.std.specs.Prelude.{◌≡◌};
    ghost use Rattle.redn_region.specs.declared.regions.RegionsFault.TheVariants.{Memory};

    ghost from_gives = { λ _ e. e ≡ Memory };

    fn from(_e: AllocFailed<T>) -> Self {
        RegionsFault::Memory
    }
}

/// Regions with different keys, which are found by their key.
#[derive(Drop)]
pub struct Regions {
    rows: Vec<Region>,
    by_key: BTreeMap<u32, Region>,
}

impl Model for Regions {
    ghost use Rattle.std.specs.Prelude.{List};
    ghost use Rattle.redn_words.specs.declared.types.Region.{Region as Row};

    ghost Value = { List Row };

    ghost view = { λ r. r.rows.items };

    ghost use Rattle.redn_region.specs.Indexed.{IsIndexed};

    ghost invariant = { IsIndexed };
}

impl Regions {
    /// The regions of these rows, with an index by key, unless a key stands twice.
    pub fn new(alloc: Global, rows: Vec<Region>) -> Result<Regions, RegionsFault>
        requires few { vec_len rows < 2 ^ 32 }
        requires ends { EndsBy (2 ^ 64 - 1) rows.items }
        ensures rows { IfOk result (λ regions. regions ≡ rows.items) }
        ensures distinct { OnOk result ((i : ℕ) → repeats rows.items i ≡ false) }
        ensures repeated { (i : ℕ) → result ≡ Err (RegionsFault.Repeated i)
            → (repeats rows.items i ≡ true) × ((j : ℕ) → j < i → repeats rows.items j ≡ false) }
    {
        let mut by_key = BTreeMap::new(alloc);
        for (index, row) in rows.iter().enumerate() {
            if by_key.insert(row.key, *row)?.is_some() {
                let index = index as u32;
                return Err(RegionsFault::Repeated { index });
            }
        }
        Ok(Regions { rows, by_key })
    }

    /// The region with this key.
    pub fn row(&self, key: u32) -> Option<Region>
        ensures found { result ≡ region_of self.now key }
        ensures fits { IfSome result (λ r. r.base + r.len < 2 ^ 64) }
        // A bound on all regions is one on this one.
        ensures inside { (size : ℕ) → EndsBy size self.now → IfSome result (λ r. r.base + r.len ≤ size) }
    {
        self.by_key.get(&key).copied()
    }

    /// The place of an access, or the first refusal whose condition holds: the key, the domain, the
    /// length, the end of the region, the alignment, the right.
    #[tactic(auto, unfolding(redn_words::specs::Access::access))]
    pub fn allowed(
        &self,
        domain: u16,
        key: u32,
        off: u64,
        len: u64,
        need: Need,
    ) -> Result<Spot, Refusal>
        ensures place { result ≡ access self.now domain key off len need }
        ensures inside { (size : ℕ) → EndsBy size self.now → IfOk result (λ s. s.at + len ≤ size) }
        ensures above { IfOk result (λ s. off ≤ s.at) }
    {
        let Some(row) = self.row(key) else {
            return Err(Refusal::NoKey);
        };
        place(row, domain, off, len, need)
    }
}
