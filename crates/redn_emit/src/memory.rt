//! The memory of an image.

ghost use Rattle.std.specs.Prelude.{◌≡◌, ◌++◌, IfOk, OnOk};
ghost use Rattle.std.specs.List.{flat_map};
ghost use Rattle.redn_emit.specs.Layout as layout;

use crate::bytes::{put_request, put_word, put_words, put_zeros};
use crate::chain::{ChainPlan, DESCRIPTORS_AT};
use crate::requests::{gate_request, put_segments};
use crate::ring::RingPlan;
use crate::table::TablePlan;
use redn_kernel::TableInit;
use redn_words::{Memory, Opcode, RECEIVE_BASE};
use std::alloc::Global;

/// Appends the rings of a chain.
fn put_code(out: &mut Vec<u8>, plan: &ChainPlan, tables: &[TablePlan]) -> Result<(), Memory>
    ensures { OnOk result (out.new.items ≡ out.old.items ++ layout.chain_code plan.now tables.now) }
{
    for ring in plan.rings() {
        put_segments(out, plan, tables, ring.with_its_laps())?;
    }
    Ok(())
}

/// Appends the entry of a chain: a WAIT for its message, and an ENABLE that opens its entry block's
/// ring.
fn put_entry(out: &mut Vec<u8>, plan: &ChainPlan) -> Result<(), Memory>
    ensures { OnOk result (out.new.items ≡ out.old.items ++ layout.entry_bytes plan.now) }
{
    let counter = RECEIVE_BASE + u64::from(plan.number());
    let ring = u64::from(plan.entry_ring());
    let limit = u64::from(plan.entry_limit());
    put_request(out, &gate_request(Opcode::Wait, counter, 1))?;
    put_request(out, &gate_request(Opcode::Enable, ring, limit))
}

/// Appends the descriptors of some rings: the number of each, and the limit that opens its first
/// segment.
fn put_descriptors(out: &mut Vec<u8>, rings: &[RingPlan]) -> Result<(), Memory>
    ensures { OnOk result (out.new.items ≡ out.old.items ++ flat_map layout.descriptor rings.now) }
{
    for ring in rings {
        put_word(out, u64::from(ring.number()))?;
        put_word(out, u64::from(ring.opens()))?;
    }
    Ok(())
}

/// Appends the words of a chain.
fn put_chain_words(out: &mut Vec<u8>, plan: &ChainPlan) -> Result<(), Memory>
    ensures { OnOk result (out.new.items ≡ out.old.items ++ layout.chain_words plan.now) }
{
    put_zeros(out, DESCRIPTORS_AT)?;
    put_descriptors(out, plan.rings())?;
    put_zeros(out, plan.hidden_len())?;
    put_words(out, plan.constants())?;
    put_words(out, plan.vars())?;
    put_zeros(out, plan.message_len())
}

fn put_codes(out: &mut Vec<u8>, plans: &[ChainPlan], tables: &[TablePlan]) -> Result<(), Memory>
    ensures { OnOk result (out.new.items ≡ out.old.items ++ flat_map (λ c. layout.chain_code c tables.now) plans.now) }
{
    for plan in plans {
        put_code(out, plan, tables)?;
    }
    Ok(())
}

fn put_entries(out: &mut Vec<u8>, plans: &[ChainPlan]) -> Result<(), Memory>
    ensures { OnOk result (out.new.items ≡ out.old.items ++ flat_map layout.entry_bytes plans.now) }
{
    for plan in plans {
        put_entry(out, plan)?;
    }
    Ok(())
}

fn put_all_words(out: &mut Vec<u8>, plans: &[ChainPlan]) -> Result<(), Memory>
    ensures { OnOk result (out.new.items ≡ out.old.items ++ flat_map layout.chain_words plans.now) }
{
    for plan in plans {
        put_chain_words(out, plan)?;
    }
    Ok(())
}

fn put_tables(out: &mut Vec<u8>, tables: &[TableInit]) -> Result<(), Memory>
    ensures { OnOk result (out.new.items ≡ out.old.items ++ flat_map (λ t. t.bytes) tables.now) }
{
    for table in tables {
        out.extend_from_slice(table.bytes.as_slice())?;
    }
    Ok(())
}

/// The rings of all chains, their entries, their words, and the tables.
pub fn memory_of(
    alloc: Global,
    plans: &[ChainPlan],
    tables: &[TablePlan],
    inits: &[TableInit],
) -> Result<Vec<u8>, Memory>
    ensures { IfOk result (λ v. v.items ≡ flat_map (λ c. layout.chain_code c tables.now) plans.now
        ++ (flat_map layout.entry_bytes plans.now ++ (flat_map layout.chain_words plans.now ++ flat_map (λ t. t.bytes) inits.now))) }
{
    let mut out = Vec::new(alloc);
    put_codes(&mut out, plans, tables)?;
    put_entries(&mut out, plans)?;
    put_all_words(&mut out, plans)?;
    put_tables(&mut out, inits)?;
    Ok(out)
}
