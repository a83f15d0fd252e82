//! What the names in a chain's statements may mean.

ghost use Rattle.std.specs.Prelude.{◌≡◌, is_some};
ghost use Rattle.redn_check.specs.Names as names;
ghost use Rattle.redn_check.specs.Names.{Holds};
ghost use Rattle.redn_check.specs.Rules.{is_read_only};

use crate::names::Names;
use redn_syntax::{Chain, Name, Table};
use sqlite_items::at;

/// The tables of a file and the variables of one of its chains, with the places of their names.
#[derive(Clone, Copy)]
pub struct Scope<'a> {
    pub tables: &'a [Table],
    pub table_names: &'a Names,
    pub chain: &'a Chain,
    pub variables: &'a Names,
    ghost tables_held: { Holds table_names.now.places (names.table_names tables.now) },
    ghost variables_held: { Holds variables.now.places (names.variables chain.now) },
}

pub fn is_table(scope: &Scope, name: &Name) -> bool
    ensures { result ≡ names.declares (names.table_names scope.now.tables.now) name.now }
{
    scope.table_names.find(name).is_some()
}

pub fn is_variable(scope: &Scope, name: &Name) -> bool
    ensures { result ≡ names.declares (names.variables scope.now.chain.now) name.now }
{
    scope.variables.find(name).is_some()
}

/// Whether the first table of this name is only read.
pub fn is_read_only(scope: &Scope, name: &Name) -> bool
    ensures { result ≡ is_read_only (names.table_of scope.now.tables.now name.now) }
{
    let Some(place) = scope.table_names.find(name) else {
        return false;
    };
    match at(scope.tables, place) {
        Some(table) => !table.writable,
        None => false,
    }
}
