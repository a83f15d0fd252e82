//! Rule 2, and where each name was declared first.

ghost use Rattle.std.specs.Prelude.{◌≡◌, ◌++◌, [], ◌∷◌, List, length, map, IfOk, OnOk, Option};
ghost use Rattle.indexmap.specs.IndexMap.{get_by_text};
ghost use Rattle.redn_syntax.specs.declared.tree.Name.{Name as SpecName};
ghost use Rattle.redn_check.specs.Faults as faults;
ghost use Rattle.redn_check.specs.Names as names;
ghost use Rattle.redn_check.specs.Names.{Holds, declares, place_of};
ghost use Rattle.redn_check.specs.Rules.{twice};

use crate::fault::{Fault, earlier, when};
use indexmap::IndexMap;
use redn_syntax::{Chain, Name, Table};
use redn_words::Memory;
use std::alloc::Global;

/// Names, each with its place in the list in which it was declared first.
#[derive(Drop)]
pub struct Names {
    pub places: IndexMap<String, usize>,
}

/// The names of a list, and the first that stands there twice.
#[derive(Drop)]
pub struct Declared {
    pub names: Names,
    pub first: Option<Fault>,
}

impl Names {
    fn new(alloc: Global) -> Names
        ensures { Holds result.places [] }
    {
        Names {
            places: IndexMap::new(alloc),
        }
    }

    pub fn find(&self, name: &Name) -> Option<usize>
        ensures { result ≡ get_by_text self.now.places name.now.text }
    {
        self.places.get(name.text.as_str()).copied()
    }

    /// Adds a name, at its place in the list, and says whether it stands there already.
    fn add(&mut self, alloc: Global, name: &Name, place: usize) -> Result<Option<Fault>, Memory>
        ensures twice { (before : List SpecName) → Holds self.old.places before →
            IfOk result (λ found. found ≡ faults.first_of
            (faults.when (declares before name.now) (faults.fault 2 name.now.at 0))) }
        ensures holds { (before : List SpecName) → Holds self.old.places before →
            length before ≡ place → OnOk result (Holds self.new.places (before ++ name.now ∷ [])) }
    {
        if self.find(name).is_some() {
            return Ok(when(true, 2, name.at, 0));
        }
        let text = String::from_str(alloc, name.text.as_str())?;
        self.places.insert(text, place)?;
        Ok(None)
    }
}

pub fn declare_tables(alloc: Global, tables: &[Table]) -> Result<Declared, Memory>
    ensures holds { IfOk result (λ d. Holds d.names.places (names.table_names tables.now)) }
    ensures first { IfOk result (λ d.
        d.first ≡ faults.first_of (twice (names.table_names tables.now))) }
{
    let mut names = Names::new(alloc);
    let mut first = None;
    for (i, table) in tables.iter().enumerate() {
        let found = names.add(alloc, &table.name, i)?;
        first = earlier(first, found);
    }
    Ok(Declared { names, first })
}

/// The first chain whose name is taken.
pub fn declare_chains(alloc: Global, chains: &[Chain]) -> Result<Option<Fault>, Memory>
    ensures { IfOk result (λ first.
        first ≡ faults.first_of (twice (names.chain_names chains.now))) }
{
    let mut names = Names::new(alloc);
    let mut first = None;
    for (i, chain) in chains.iter().enumerate() {
        let found = names.add(alloc, &chain.name, i)?;
        first = earlier(first, found);
    }
    Ok(first)
}

fn declare_arguments(alloc: Global, args: &[Name]) -> Result<Declared, Memory>
    ensures holds { IfOk result (λ d. Holds d.names.places args.now) }
    ensures first { IfOk result (λ d. d.first ≡ faults.first_of (twice args.now)) }
{
    let mut names = Names::new(alloc);
    let mut first = None;
    for (i, name) in args.iter().enumerate() {
        let found = names.add(alloc, name, i)?;
        first = earlier(first, found);
    }
    Ok(Declared { names, first })
}

/// The variables of a chain, its arguments first.
pub fn declare_variables(alloc: Global, chain: &Chain) -> Result<Declared, Memory>
    ensures holds { IfOk result (λ d. Holds d.names.places (names.variables chain.now)) }
    ensures first { IfOk result (λ d.
        d.first ≡ faults.first_of (twice (names.variables chain.now))) }
{
    let args = chain.args.as_slice();
    let vars = chain.vars.as_slice();
    let Declared {
        mut names,
        mut first,
    } = declare_arguments(alloc, args)?;
    for (i, variable) in vars.iter().enumerate() {
        let found = names.add(alloc, &variable.name, args.len() + i)?;
        first = earlier(first, found);
    }
    Ok(Declared { names, first })
}
