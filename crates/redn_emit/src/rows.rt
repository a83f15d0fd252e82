//! The rows of an image.

ghost use Rattle.std.specs.Prelude.{◌≡◌, ◌+◌, ◌*◌, ◌<◌, ◌≤◌, ◌^◌, ◌++◌, map, IfOk, OnOk};
ghost use Rattle.std.specs.List.{flat_map};
ghost use Rattle.redn_emit.specs.Layout as layout;

use crate::chain::{ChainPlan, SLOT};
use crate::ring::RingPlan;
use crate::table::TablePlan;
use redn_words::{Memory, QueueRow, Receive, Region};
use std::alloc::Global;

fn push_table_rows(
    rows: &mut Vec<Region>,
    plan: &ChainPlan,
    tables: &[TablePlan],
) -> Result<(), Memory>
    ensures { OnOk result (rows.new.items ≡ rows.old.items ++ map (layout.table_row plan.now) tables.now) }
{
    for table in tables {
        rows.push(plan.table_row(table))?;
    }
    Ok(())
}

fn push_regions(
    rows: &mut Vec<Region>,
    plan: &ChainPlan,
    tables: &[TablePlan],
) -> Result<(), Memory>
    ensures { OnOk result (rows.new.items ≡ rows.old.items ++ layout.chain_rows plan.now tables.now) }
{
    rows.push(plan.vars_row())?;
    rows.push(plan.code_row())?;
    rows.push(plan.control_row())?;
    rows.push(plan.message_row())?;
    push_table_rows(rows, plan, tables)
}

/// The regions of all chains.
pub fn regions_of(
    alloc: Global,
    plans: &[ChainPlan],
    tables: &[TablePlan],
) -> Result<Vec<Region>, Memory>
    ensures { IfOk result (λ v. v.items ≡ flat_map (λ c. layout.chain_rows c tables.now) plans.now) }
{
    let mut rows = Vec::new(alloc);
    for plan in plans {
        push_regions(&mut rows, plan, tables)?;
    }
    Ok(rows)
}

/// The entry queue of a chain, where the first one begins at `base`.
fn entry_row(base: u64, plan: &ChainPlan) -> QueueRow
    requires { base < 2 ^ 40 }
    ensures { result ≡ layout.entry_row base plan.now }
{
    QueueRow {
        domain: plan.number(),
        managed: false,
        base: base + 2 * SLOT * u64::from(plan.number()),
        slots: 2,
        limit: 2,
    }
}

/// Appends the rows of some rings, one behind the other from `base` on.
fn push_ring_rows(
    rows: &mut Vec<QueueRow>,
    domain: u16,
    mut base: u64,
    rings: &[RingPlan],
) -> Result<(), Memory>
    requires { base + 64 * layout.code_slots rings.now < 2 ^ 64 }
    ensures { OnOk result (rows.new.items ≡ rows.old.items ++ layout.ring_rows_from domain base rings.now) }
{
    for ring in rings {
        let slots = u64::from(ring.slots());
        rows.push(QueueRow {
            domain,
            managed: true,
            base,
            slots,
            limit: 0,
        })?;
        base += SLOT * slots;
    }
    Ok(())
}

fn push_entry_rows(rows: &mut Vec<QueueRow>, base: u64, plans: &[ChainPlan]) -> Result<(), Memory>
    requires { base < 2 ^ 40 }
    ensures { OnOk result (rows.new.items ≡ rows.old.items ++ map (layout.entry_row base) plans.now) }
{
    for plan in plans {
        rows.push(entry_row(base, plan))?;
    }
    Ok(())
}

fn push_all_ring_rows(rows: &mut Vec<QueueRow>, plans: &[ChainPlan]) -> Result<(), Memory>
    ensures { OnOk result (rows.new.items ≡ rows.old.items ++ flat_map layout.ring_rows plans.now) }
{
    for plan in plans {
        push_ring_rows(rows, plan.number(), plan.code_base(), plan.rings())?;
    }
    Ok(())
}

/// The queues: the entries, of which the first begins at `base`, and then the rings of each chain.
pub fn queues_of(alloc: Global, base: u64, plans: &[ChainPlan]) -> Result<Vec<QueueRow>, Memory>
    requires { base < 2 ^ 40 }
    ensures { IfOk result (λ v. v.items ≡ map (layout.entry_row base) plans.now ++ flat_map layout.ring_rows plans.now) }
{
    let mut rows = Vec::new(alloc);
    push_entry_rows(&mut rows, base, plans)?;
    push_all_ring_rows(&mut rows, plans)?;
    Ok(rows)
}

/// Where each chain's message is put.
pub fn receives_of(alloc: Global, plans: &[ChainPlan]) -> Result<Vec<Receive>, Memory>
    ensures { IfOk result (λ v. v.items ≡ map layout.receive plans.now) }
{
    let mut rows = Vec::new(alloc);
    for plan in plans {
        rows.push(Receive {
            base: plan.message_base(),
            len: plan.message_len(),
        })?;
    }
    Ok(rows)
}
