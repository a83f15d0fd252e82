//! From an accepted file to its program.

ghost use Rattle.std.specs.Prelude.{◌≡◌, ◌≤◌, ◌<◌, ◌^◌, true, [], map, length, fold, All, IfOk};
ghost use Rattle.redn_kernel.specs.Program.{AreWords};
ghost use Rattle.std.specs.List.{flat_map};
ghost use Rattle.redn_check.specs.Names as names;
ghost use Rattle.redn_check.specs.Names.{Holds};
ghost use Rattle.redn_check.specs.Numbering as numbering;
ghost use Rattle.redn_check.specs.Rules as rule;
ghost use Rattle.redn_check.specs.Statements.{with_earlier, with_inner, each_of, is_search, is_plain};

use crate::limits::offset_behind;
use crate::names::{Names, declare_tables, declare_variables};
use crate::scope::Scope;
use redn_kernel::{ChainInit, Kernel, Program, TableInit, Word};
use redn_syntax::{Chain, File, Name, Operand, Stmt, StmtKind, Table, VarDecl};
use redn_words::{Memory, put_word};
use sqlite_items::Items;
use std::alloc::Global;

/// The names of a file that has few enough of them.
#[derive(Clone, Copy)]
pub struct Numbers<'a> {
    pub scope: Scope<'a>,
    ghost few_tables: { length scope.tables.now ≤ 64 },
    ghost few_variables: { length (names.variables scope.chain.now) ≤ 256 },
}

fn table_number(numbers: &Numbers, name: &Name) -> u16
    ensures { result ≡
        numbering.number_of (names.table_names numbers.now.scope.tables.now) name.now }
{
    match numbers.scope.table_names.find(name) {
        Some(place) => place as u16,
        None => 0,
    }
}

fn variable_number(numbers: &Numbers, name: &Name) -> u16
    ensures { result ≡
        numbering.number_of (names.variables numbers.now.scope.chain.now) name.now }
{
    match numbers.scope.variables.find(name) {
        Some(place) => place as u16,
        None => 0,
    }
}

fn word(numbers: &Numbers, operand: &Operand) -> Word
    ensures { result ≡
        numbering.word_of (names.variables numbers.now.scope.chain.now) operand.now }
{
    match operand {
        Operand::Name(name) => Word::Var(variable_number(numbers, name)),
        Operand::Num(number) => Word::Num(number.value),
    }
}

fn words(alloc: Global, numbers: &Numbers, operands: &[Operand]) -> Result<Items<Word>, Memory>
    ensures { IfOk result (λ ws. ws ≡
        map (numbering.word_of (names.variables numbers.now.scope.chain.now)) operands.now) }
{
    let mut list = Items::new(alloc);
    for operand in operands {
        list.push(word(numbers, operand))?;
    }
    Ok(list)
}

/// A look for a key in a table.
fn search(numbers: &Numbers, s: &Stmt) -> Kernel
    requires kept { flat_map rule.number_faults (with_inner s.now) ≡ [] }
    requires looks { is_search s.now ≡ true }
    ensures { result ≡ numbering.kernel_of
        (names.table_names numbers.now.scope.tables.now)
        (names.variables numbers.now.scope.chain.now) s.now }
{
    match &s.kind {
        StmtKind::Lookup {
            to,
            table,
            offset,
            key,
            probes,
        } => Kernel::Lookup {
            to: variable_number(numbers, to),
            table: table_number(numbers, table),
            offset: word(numbers, offset),
            key: word(numbers, key),
            probes: probes.value as u8,
        },
        StmtKind::Walk {
            to,
            table,
            offset,
            key,
            nodes,
        } => Kernel::Walk {
            to: variable_number(numbers, to),
            table: table_number(numbers, table),
            offset: word(numbers, offset),
            key: word(numbers, key),
            nodes: nodes.value as u16,
        },
        _ => unreachable!(),
    }
}

/// A statement without blocks that isn't a reply.
fn plain(numbers: &Numbers, s: &Stmt) -> Kernel
    requires kept { flat_map rule.number_faults (with_inner s.now) ≡ [] }
    requires plain { is_plain s.now ≡ true }
    ensures { result ≡ numbering.kernel_of
        (names.table_names numbers.now.scope.tables.now)
        (names.variables numbers.now.scope.chain.now) s.now }
{
    match &s.kind {
        StmtKind::Move { to, from } => Kernel::Move {
            to: variable_number(numbers, to),
            from: word(numbers, from),
        },
        StmtKind::Add { to, by } => Kernel::Add {
            to: variable_number(numbers, to),
            by: word(numbers, by),
        },
        StmtKind::Load { to, table, offset } => Kernel::Load {
            to: variable_number(numbers, to),
            table: table_number(numbers, table),
            offset: word(numbers, offset),
        },
        StmtKind::Store {
            table,
            offset,
            from,
        } => Kernel::Store {
            table: table_number(numbers, table),
            offset: word(numbers, offset),
            from: word(numbers, from),
        },
        StmtKind::Break => Kernel::Break,
        _ => search(numbers, s),
    }
}

#[cycle(number)]
fn kernel(alloc: Global, numbers: &Numbers, s: &Stmt) -> Result<Kernel, Memory>
    requires { flat_map rule.number_faults (with_inner s.now) ≡ [] }
    ensures { IfOk result (λ k. k ≡ numbering.kernel_of
        (names.table_names numbers.now.scope.tables.now)
        (names.variables numbers.now.scope.chain.now) s.now) }
{
    match &s.kind {
        StmtKind::If {
            wide,
            left,
            right,
            yes,
            no,
        } => {
            let yes = kernels(alloc, numbers, yes.as_slice())?;
            let no = kernels(alloc, numbers, no.as_slice())?;
            Ok(Kernel::If {
                wide: *wide,
                left: word(numbers, left),
                right: word(numbers, right),
                yes,
                no,
            })
        }
        StmtKind::Loop { body } => {
            let body = kernels(alloc, numbers, body.as_slice())?;
            Ok(Kernel::Loop { body })
        }
        StmtKind::Repeat { count, body } => {
            let body = kernels(alloc, numbers, body.as_slice())?;
            Ok(Kernel::Repeat {
                count: count.value as u32,
                body,
            })
        }
        StmtKind::Reply { words: operands } => {
            let list = words(alloc, numbers, operands.as_slice())?;
            Ok(Kernel::Reply { words: list })
        }
        _ => Ok(plain(numbers, s)),
    }
}

#[cycle(number)]
fn kernels(alloc: Global, numbers: &Numbers, body: &[Stmt]) -> Result<Items<Kernel>, Memory>
    requires { flat_map rule.number_faults (each_of body.now) ≡ [] }
    ensures { IfOk result (λ ks. ks ≡ map (numbering.kernel_of
        (names.table_names numbers.now.scope.tables.now)
        (names.variables numbers.now.scope.chain.now)) body.now) }
{
    let mut list = Items::new(alloc);
    for s in body {
        let next = kernel(alloc, numbers, s)?;
        list.push(next)?;
    }
    Ok(list)
}

/// Writes the words of a table's items over its bytes.
fn write_items(bytes: &mut [u8], table: &Table)
    requires placed { rule.bad_items table.now ≡ [] }
    requires whole { length bytes.old ≡ table.now.length.value }
    ensures { bytes.new ≡ fold numbering.written bytes.old (numbering.placed table.now.items) }
{
    let mut end = 0;
    for item in table.items.as_slice() {
        let offset = offset_behind(end, item);
        let _ = put_word(bytes, offset, item.word.value);
        end = offset + 8;
    }
}

/// A table's bytes: zeros, with the words of its items over them.
fn table_bytes(alloc: Global, table: &Table) -> Result<Items<u8>, Memory>
    requires { rule.bad_items table.now ≡ [] }
    ensures { IfOk result (λ bytes. bytes ≡ numbering.table_bytes table.now) }
{
    let mut bytes = vec![in alloc; 0; table.length.value as usize]?;
    write_items(&mut bytes, table);
    Ok(Items::from_vec(bytes))
}

fn tables(alloc: Global, tables: &[Table]) -> Result<Items<TableInit>, Memory>
    requires { flat_map (λ e. rule.table_faults e.0 e.1) (with_earlier tables.now) ≡ [] }
    ensures { IfOk result (λ list. list ≡ map numbering.table_init tables.now) }
{
    let mut list = Items::new(alloc);
    for table in tables {
        let bytes = table_bytes(alloc, table)?;
        let writable = table.writable;
        list.push(TableInit { bytes, writable })?;
    }
    Ok(list)
}

/// The first values of a chain's variables, those of its arguments first.
fn first_values(alloc: Global, chain: &Chain) -> Result<Items<u64>, Memory>
    ensures values { IfOk result (λ values. values ≡ numbering.first_values chain.now) }
    ensures words { IfOk result (λ values. AreWords values) }
{
    let mut list = vec![in alloc; 0; chain.args.len()]?;
    for variable in chain.vars.as_slice() {
        list.push(first_value(variable))?;
    }
    Ok(Items::from_vec(list))
}

fn first_value(variable: &VarDecl) -> u64
    ensures { result ≡ numbering.first_value variable.now }
{
    variable.first.map_or(0, |number| number.value)
}

/// How many messages a chain serves.
fn served(chain: &Chain) -> u16
    requires { rule.bad_serve chain.now ≡ [] }
    ensures { result ≡ numbering.served chain.now }
{
    chain.serve.map_or(1, |number| number.value as u16)
}

fn chain(
    alloc: Global,
    tables: &[Table],
    table_names: &Names,
    chain: &Chain,
) -> Result<ChainInit, Memory>
    requires held { Holds table_names.now.places (names.table_names tables.now) }
    requires few_tables { length tables.now ≤ 64 }
    requires few_variables { length (names.variables chain.now) ≤ 256 }
    requires numbers { flat_map rule.number_faults (each_of chain.now.body) ≡ [] }
    requires serve { rule.bad_serve chain.now ≡ [] }
    ensures chain { IfOk result (λ c. c ≡ numbering.chain_init tables.now chain.now) }
    ensures words { IfOk result (λ c. AreWords c.vars) }
{
    let declared = declare_variables(alloc, chain)?;
    let scope = Scope {
        tables,
        table_names,
        chain,
        variables: &declared.names,
    };
    let body = kernels(alloc, &Numbers { scope }, chain.body.as_slice())?;
    let vars = first_values(alloc, chain)?;
    Ok(ChainInit {
        serve: served(chain),
        args: chain.args.len() as u16,
        vars,
        body,
    })
}

fn chains(alloc: Global, f: &File, table_names: &Names) -> Result<Items<ChainInit>, Memory>
    requires held { Holds table_names.now.places (names.table_names f.now.tables) }
    requires accepted { rule.Accepts f.now }
    ensures chains { IfOk result (λ list. list ≡ map (numbering.chain_init f.now.tables) f.now.chains) }
    ensures words { IfOk result (λ list. All (λ c. AreWords c.vars) list) }
{
    let mut list = Items::new(alloc);
    for c in f.chains.as_slice() {
        let next = chain(alloc, f.tables.as_slice(), table_names, c)?;
        list.push(next)?;
    }
    Ok(list)
}

/// The program that an accepted file is.
pub fn program(alloc: Global, f: &File) -> Result<Program, Memory>
    requires { rule.Accepts f.now }
    ensures program { IfOk result (λ p. p ≡ numbering.program_of f.now) }
    ensures words { IfOk result (λ p. All (λ c. AreWords c.vars) p.chains) }
{
    let declared = declare_tables(alloc, f.tables.as_slice())?;
    let tables = tables(alloc, f.tables.as_slice())?;
    let chains = chains(alloc, f, &declared.names)?;
    Ok(Program { tables, chains })
}
