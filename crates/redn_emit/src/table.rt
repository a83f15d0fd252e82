//! Where the tables of a program lie.

ghost use Rattle.std.specs.Prelude.{◌≡◌, ◌+◌, ◌<◌, ◌≤◌, ◌^◌, length, sum_by, IfOk};
ghost use Rattle.redn_emit.specs.Placed.{tables_from};

use redn_kernel::TableInit;
use redn_words::Memory;
use std::alloc::Global;
use std::marker::Model;

/// A table, and where it lies.
#[derive(Drop)]
pub struct TablePlan<'a> {
    pub number: u16,
    pub bytes: &'a [u8],
    pub writable: bool,
    pub base: u64,
}

impl<'a> Model for TablePlan<'a> {
    ghost use Rattle.redn_emit.specs.Layout.{TablePlan as Table};

    ghost Value = { Table };

    ghost view = { λ t. record { number = t.number; bytes = t.bytes.now; writable = t.writable; base = t.base } };
}

/// The tables of a program, one behind the other from `base` on.
pub fn tables_of(
    alloc: Global,
    mut base: u64,
    tables: &[TableInit],
) -> Result<Vec<TablePlan<'_>>, Memory>
    requires few { length tables.now ≤ 64 }
    requires room { base + sum_by (λ t. length t.bytes) tables.now < 2 ^ 64 }
    ensures { IfOk result (λ v. v.items ≡ tables_from 0 base tables.now) }
{
    let mut plans = Vec::new(alloc);
    for (i, table) in tables.iter().enumerate() {
        let bytes = table.bytes.as_slice();
        plans.push(TablePlan {
            number: i as u16,
            bytes,
            writable: table.writable,
            base,
        })?;
        base += bytes.len() as u64;
    }
    Ok(plans)
}
