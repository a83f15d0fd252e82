//! A lookup as smaller statements.
#![tactic(auto)]

ghost use Rattle.std.specs.Prelude.{◌≡◌, ℕ, ◌-◌, IfOk};
ghost use Rattle.redn_kernel.specs.declared.types.Word.{Word};
ghost use Rattle.redn_kernel.specs.Source.{value_of};
ghost use Rattle.redn_kernel.specs.CoreRun.{cell_of};
ghost use Rattle.redn_kernel.specs.Becomes.{Becomes};
ghost use Rattle.redn_kernel.specs.Composes.{Composes};
ghost use Rattle.redn_kernel.specs.Found.{LeaveFound, buckets};
ghost use Rattle.redn_kernel.specs.Uses.{AllBelow};
ghost use Rattle.redn_lookup.specs.Lookup.{IsLookup, bucket_of, misses_of, cores_of};

use redn_kernel::{Cell, Core, Kernel, Word, cell_for};
use redn_words::Memory;
use sqlite_items::Items;
use std::alloc::Global;

/// The hidden word with the offset of a bucket.
const AT: Cell = Cell::Hidden(0);

/// A look at a bucket, with what to do where it has another key.
fn bucket(alloc: Global, to: u16, table: u16, key: Cell, miss: Items<Core>) -> Core
    ensures { result ≡ bucket_of to table key miss }
{
    Core::Probe {
        to: Cell::Var(to),
        table,
        offset: AT,
        key,
        hit: Items::new(alloc),
        miss,
    }
}

/// What to do where a bucket has another key and `count` more are looked at.
fn misses(alloc: Global, to: u16, table: u16, key: Cell, count: u8) -> Result<Items<Core>, Memory>
    ensures { IfOk result (λ miss. miss ≡ misses_of to table key count) }
{
    let mut miss = Items::new(alloc);
    for _i in 0..count {
        let mut more = Items::new(alloc);
        more.push(Core::Add {
            to: AT,
            by: Cell::Num(16),
        })?;
        more.push(bucket(alloc, to, table, key, miss))?;
        miss = more;
    }
    Ok(miss)
}

/// Those of a lookup of one probe and `more`.
fn cores(
    alloc: Global,
    to: u16,
    table: u16,
    offset: Word,
    key: Word,
    more: u8,
) -> Result<Items<Core>, Memory>
    ensures { IfOk result (λ cores. cores ≡ cores_of to table offset key more) }
{
    let key = cell_for(key);
    let miss = misses(alloc, to, table, key, more)?;
    let mut cores = Items::new(alloc);
    cores.push(Core::Move {
        to: AT,
        from: cell_for(offset),
    })?;
    cores.push(bucket(alloc, to, table, key, miss))?;
    Ok(cores)
}

/// Core statements that do what a lookup of at least one probe does. Hidden word 0 has the offset
/// of the bucket that is looked at, and no other is used.
pub fn lookup_core(alloc: Global, s: &Kernel) -> Result<Items<Core>, Memory>
    requires { IsLookup s.now }
    ensures same { IfOk result (λ cores. Becomes s.now cores) }
    ensures composes { IfOk result (λ cores. Composes s.now cores) }
    ensures cores { IfOk result (λ cores. (to table : ℕ) (offset key : Word) (probes : ℕ) →
        s.now ≡ Kernel.Lookup to table offset key probes → cores ≡ cores_of to table offset key (probes - 1)) }
    ensures hidden { IfOk result (λ cores. AllBelow 1 cores) }
    ensures finds { IfOk result (λ cores. (to table : ℕ) (offset key : Word) (probes : ℕ) →
        s.now ≡ Kernel.Lookup to table offset key probes →
        LeaveFound to table key (λ tables vars. buckets probes (value_of vars offset)) cores) }
{
    let Kernel::Lookup {
        to,
        table,
        offset,
        key,
        probes,
    } = s
    else {
        unreachable!()
    };
    cores(alloc, *to, *table, *offset, *key, *probes - 1)
}
