//! The canonical text of a tree.

ghost use Rattle.std.specs.Prelude.{◌≡◌, List, [], ◌∷◌, ◌++◌, IfOk, OnOk, string_bytes, map};
ghost use Rattle.redn_syntax.specs.declared.tree.StmtKind.TheOpen.{StmtKind-F};
ghost use Rattle.std.specs.List.{flat_map};
ghost use Rattle.redn_syntax.specs.Canonical as canonical;
ghost use Rattle.redn_syntax.specs.Grammar as grammar;
ghost use Rattle.redn_syntax.specs.Canonical.{spaced, ReadsBack};
ghost use Rattle.redn_syntax.specs.Grammar.{IsWritable};

use crate::token::TokenKind;
use crate::tree::{Chain, File, Item, Name, Num, Operand, Stmt, StmtKind, Table, VarDecl};
use redn_words::Memory;
use std::alloc::Global;
use std::fmt::Write;

fn access_mark(writable: bool) -> TokenKind
    ensures { result ≡ grammar.access_mark writable }
{
    if writable {
        TokenKind::Rw
    } else {
        TokenKind::Ro
    }
}

fn test_mark(wide: bool) -> TokenKind
    ensures { result ≡ grammar.test_mark wide }
{
    if wide {
        TokenKind::DoubleEquals
    } else {
        TokenKind::Tilde
    }
}

fn put(out: &mut String, word: &str) -> Result<(), Memory>
    ensures { OnOk result (string_bytes out.new ≡ string_bytes out.old ++ (word.now ++ 32 ∷ [])) }
{
    write!(out, "{word} ").map_err(|_| Memory)
}

fn put_mark(out: &mut String, kind: TokenKind) -> Result<(), Memory>
    ensures { OnOk result (string_bytes out.new
        ≡ string_bytes out.old ++ spaced (canonical.mark kind)) }
{
    put(out, kind.spelling())
}

fn put_name(out: &mut String, name: &Name) -> Result<(), Memory>
    ensures { OnOk result (string_bytes out.new
        ≡ string_bytes out.old ++ spaced (canonical.name name.now)) }
{
    put(out, name.text.as_str())
}

fn put_number(out: &mut String, number: Num) -> Result<(), Memory>
    ensures { OnOk result (string_bytes out.new
        ≡ string_bytes out.old ++ spaced (canonical.number number)) }
{
    let value = number.value;
    write!(out, "{value} ").map_err(|_| Memory)
}

fn put_value(out: &mut String, operand: &Operand) -> Result<(), Memory>
    ensures { OnOk result (string_bytes out.new
        ≡ string_bytes out.old ++ spaced (canonical.value operand.now)) }
{
    match operand {
        Operand::Name(name) => put_name(out, name),
        Operand::Num(number) => put_number(out, *number),
    }
}

fn put_slot(out: &mut String, table: &Name, offset: &Operand) -> Result<(), Memory>
    ensures { OnOk result (string_bytes out.new
        ≡ string_bytes out.old ++ spaced (canonical.slot table.now offset.now)) }
{
    put_name(out, table)?;
    put_mark(out, TokenKind::OpenBracket)?;
    put_value(out, offset)?;
    put_mark(out, TokenKind::CloseBracket)
}

fn put_values(out: &mut String, words: &[Operand]) -> Result<(), Memory>
    ensures { OnOk result (string_bytes out.new
        ≡ string_bytes out.old ++ spaced (canonical.listed canonical.value words.now)) }
{
    let Some((first, rest)) = words.split_first() else {
        return Ok(());
    };
    put_value(out, first)?;
    for word in rest {
        put_mark(out, TokenKind::Comma)?;
        put_value(out, word)?;
    }
    Ok(())
}

fn put_item(out: &mut String, item: &Item) -> Result<(), Memory>
    ensures { OnOk result (string_bytes out.new
        ≡ string_bytes out.old ++ spaced (canonical.item item.now)) }
{
    if let Some(at) = item.at {
        put_number(out, at)?;
        put_mark(out, TokenKind::Colon)?;
    }
    put_number(out, item.word)
}

fn put_items(out: &mut String, items: &[Item]) -> Result<(), Memory>
    ensures { OnOk result (string_bytes out.new
        ≡ string_bytes out.old ++ spaced (canonical.listed canonical.item items.now)) }
{
    let Some((first, rest)) = items.split_first() else {
        return Ok(());
    };
    put_item(out, first)?;
    for item in rest {
        put_mark(out, TokenKind::Comma)?;
        put_item(out, item)?;
    }
    Ok(())
}

fn put_contents(out: &mut String, items: &[Item]) -> Result<(), Memory>
    ensures { OnOk result (string_bytes out.new
        ≡ string_bytes out.old ++ spaced (canonical.contents items.now)) }
{
    if items.is_empty() {
        return Ok(());
    }
    put_mark(out, TokenKind::Equals)?;
    put_mark(out, TokenKind::OpenBrace)?;
    put_items(out, items)?;
    put_mark(out, TokenKind::CloseBrace)
}

/// A table's name and its length in brackets.
fn put_length(out: &mut String, name: &Name, length: Num) -> Result<(), Memory>
    ensures { OnOk result (string_bytes out.new ≡ string_bytes out.old ++ spaced (
        canonical.name name.now ++ canonical.mark TokenKind.OpenBracket
        ++ canonical.number length ++ canonical.mark TokenKind.CloseBracket)) }
{
    put_name(out, name)?;
    put_mark(out, TokenKind::OpenBracket)?;
    put_number(out, length)?;
    put_mark(out, TokenKind::CloseBracket)
}

fn put_table(out: &mut String, table: &Table) -> Result<(), Memory>
    ensures { OnOk result (string_bytes out.new
        ≡ string_bytes out.old ++ spaced (canonical.table table.now)) }
{
    put_mark(out, TokenKind::Table)?;
    put_length(out, &table.name, table.length)?;
    put_mark(out, access_mark(table.writable))?;
    put_contents(out, table.items.as_slice())?;
    put_mark(out, TokenKind::Semicolon)
}

fn put_argument(out: &mut String, name: &Name) -> Result<(), Memory>
    ensures { OnOk result (string_bytes out.new
        ≡ string_bytes out.old ++ spaced (canonical.argument name.now)) }
{
    put_mark(out, TokenKind::Arg)?;
    put_name(out, name)?;
    put_mark(out, TokenKind::Semicolon)
}

fn put_variable(out: &mut String, variable: &VarDecl) -> Result<(), Memory>
    ensures { OnOk result (string_bytes out.new
        ≡ string_bytes out.old ++ spaced (canonical.variable variable.now)) }
{
    put_mark(out, TokenKind::Var)?;
    put_name(out, &variable.name)?;
    if let Some(first) = variable.first {
        put_mark(out, TokenKind::Equals)?;
        put_number(out, first)?;
    }
    put_mark(out, TokenKind::Semicolon)
}

#[cycle(put)]
fn put_body(out: &mut String, body: &[Stmt]) -> Result<(), Memory>
    ensures { OnOk result (string_bytes out.new
        ≡ string_bytes out.old ++ spaced (canonical.body_of body.now)) }
{
    for statement in body {
        put_statement(out, statement)?;
    }
    Ok(())
}

#[cycle(put)]
#[tactic(auto, using(crate::proofs::Lines::body_of_is))]
fn put_block(out: &mut String, body: &[Stmt]) -> Result<(), Memory>
    ensures { OnOk result (string_bytes out.new
        ≡ string_bytes out.old ++ spaced (canonical.block (map canonical.statement body.now))) }
{
    put_mark(out, TokenKind::OpenBrace)?;
    put_body(out, body)?;
    put_mark(out, TokenKind::CloseBrace)
}

#[cycle(put)]
fn put_otherwise(out: &mut String, body: &[Stmt]) -> Result<(), Memory>
    ensures { OnOk result (string_bytes out.new
        ≡ string_bytes out.old ++ spaced (canonical.otherwise (map canonical.statement body.now))) }
{
    if body.is_empty() {
        return Ok(());
    }
    put_mark(out, TokenKind::Else)?;
    put_block(out, body)
}

#[tactic(auto, unfolding(crate::specs::Canonical::form))]
fn put_move(out: &mut String, to: &Name, from: &Operand) -> Result<(), Memory>
    ensures { OnOk result (string_bytes out.new ≡ string_bytes out.old
        ++ spaced (canonical.form (StmtKind-F.Move to.now from.now))) }
{
    put_name(out, to)?;
    put_mark(out, TokenKind::Equals)?;
    put_value(out, from)?;
    put_mark(out, TokenKind::Semicolon)
}

#[tactic(auto, unfolding(crate::specs::Canonical::form))]
fn put_add(out: &mut String, to: &Name, by: &Operand) -> Result<(), Memory>
    ensures { OnOk result (string_bytes out.new ≡ string_bytes out.old
        ++ spaced (canonical.form (StmtKind-F.Add to.now by.now))) }
{
    put_name(out, to)?;
    put_mark(out, TokenKind::PlusEquals)?;
    put_value(out, by)?;
    put_mark(out, TokenKind::Semicolon)
}

#[tactic(auto, unfolding(crate::specs::Canonical::form))]
fn put_load(out: &mut String, to: &Name, table: &Name, offset: &Operand) -> Result<(), Memory>
    ensures { OnOk result (string_bytes out.new ≡ string_bytes out.old
        ++ spaced (canonical.form (StmtKind-F.Load to.now table.now offset.now))) }
{
    put_name(out, to)?;
    put_mark(out, TokenKind::Equals)?;
    put_slot(out, table, offset)?;
    put_mark(out, TokenKind::Semicolon)
}

#[tactic(auto, unfolding(crate::specs::Canonical::form))]
fn put_store(out: &mut String, table: &Name, offset: &Operand, from: &Operand) -> Result<(), Memory>
    ensures { OnOk result (string_bytes out.new ≡ string_bytes out.old
        ++ spaced (canonical.form (StmtKind-F.Store table.now offset.now from.now))) }
{
    put_slot(out, table, offset)?;
    put_mark(out, TokenKind::Equals)?;
    put_value(out, from)?;
    put_mark(out, TokenKind::Semicolon)
}

/// An `if` up to its first block.
fn put_test(out: &mut String, wide: bool, left: &Operand, right: &Operand) -> Result<(), Memory>
    ensures { OnOk result (string_bytes out.new ≡ string_bytes out.old
        ++ spaced (canonical.mark TokenKind.If ++ canonical.value left.now
        ++ canonical.mark (grammar.test_mark wide) ++ canonical.value right.now)) }
{
    put_mark(out, TokenKind::If)?;
    put_value(out, left)?;
    put_mark(out, test_mark(wide))?;
    put_value(out, right)
}

/// The front of a `lookup` or a `walk`.
fn put_source(
    out: &mut String,
    kind: TokenKind,
    to: &Name,
    table: &Name,
    offset: &Operand,
) -> Result<(), Memory>
    ensures { OnOk result (string_bytes out.new ≡ string_bytes out.old ++ spaced (
        canonical.mark kind ++ canonical.name to.now ++ canonical.mark TokenKind.Equals
        ++ canonical.slot table.now offset.now)) }
{
    put_mark(out, kind)?;
    put_name(out, to)?;
    put_mark(out, TokenKind::Equals)?;
    put_slot(out, table, offset)
}

/// The key of a `lookup` or a `walk`, and its bound.
fn put_key(out: &mut String, key: &Operand, kind: TokenKind, bound: Num) -> Result<(), Memory>
    ensures { OnOk result (string_bytes out.new ≡ string_bytes out.old ++ spaced (
        canonical.mark TokenKind.Key ++ canonical.value key.now ++ canonical.mark kind
        ++ canonical.number bound ++ canonical.mark TokenKind.Semicolon)) }
{
    put_mark(out, TokenKind::Key)?;
    put_value(out, key)?;
    put_mark(out, kind)?;
    put_number(out, bound)?;
    put_mark(out, TokenKind::Semicolon)
}

fn put_lookup(
    out: &mut String,
    to: &Name,
    table: &Name,
    offset: &Operand,
    key: &Operand,
    probes: Num,
) -> Result<(), Memory>
    ensures { OnOk result (string_bytes out.new ≡ string_bytes out.old ++ spaced (
        canonical.form (StmtKind-F.Lookup to.now table.now offset.now key.now probes))) }
{
    put_source(out, TokenKind::Lookup, to, table, offset)?;
    put_key(out, key, TokenKind::Probes, probes)
}

fn put_walk(
    out: &mut String,
    to: &Name,
    table: &Name,
    offset: &Operand,
    key: &Operand,
    nodes: Num,
) -> Result<(), Memory>
    ensures { OnOk result (string_bytes out.new ≡ string_bytes out.old ++ spaced (
        canonical.form (StmtKind-F.Walk to.now table.now offset.now key.now nodes))) }
{
    put_source(out, TokenKind::Walk, to, table, offset)?;
    put_key(out, key, TokenKind::Nodes, nodes)
}

#[tactic(auto, unfolding(crate::specs::Canonical::form))]
fn put_reply(out: &mut String, words: &[Operand]) -> Result<(), Memory>
    ensures { OnOk result (string_bytes out.new ≡ string_bytes out.old
        ++ spaced (canonical.form (StmtKind-F.Reply words.now))) }
{
    put_mark(out, TokenKind::Reply)?;
    put_values(out, words)?;
    put_mark(out, TokenKind::Semicolon)
}

#[tactic(auto, unfolding(crate::specs::Canonical::form))]
fn put_break(out: &mut String) -> Result<(), Memory>
    ensures { OnOk result (string_bytes out.new ≡ string_bytes out.old
        ++ spaced (canonical.form StmtKind-F.Break)) }
{
    put_mark(out, TokenKind::Break)?;
    put_mark(out, TokenKind::Semicolon)
}

#[cycle(put)]
#[tactic(auto, unfolding(crate::specs::Canonical::form))]
fn put_loop(out: &mut String, body: &[Stmt]) -> Result<(), Memory>
    ensures { OnOk result (string_bytes out.new ≡ string_bytes out.old ++ spaced (
        canonical.form (StmtKind-F.Loop (map canonical.statement body.now)))) }
{
    put_mark(out, TokenKind::Loop)?;
    put_block(out, body)
}

#[cycle(put)]
#[tactic(auto, unfolding(crate::specs::Canonical::form))]
fn put_repeat(out: &mut String, count: Num, body: &[Stmt]) -> Result<(), Memory>
    ensures { OnOk result (string_bytes out.new ≡ string_bytes out.old ++ spaced (
        canonical.form (StmtKind-F.Repeat count (map canonical.statement body.now)))) }
{
    put_mark(out, TokenKind::Repeat)?;
    put_number(out, count)?;
    put_block(out, body)
}

#[cycle(put)]
fn put_statement(out: &mut String, statement: &Stmt) -> Result<(), Memory>
    ensures { OnOk result (string_bytes out.new
        ≡ string_bytes out.old ++ spaced (canonical.statement statement.now)) }
{
    match &statement.kind {
        StmtKind::Move { to, from } => put_move(out, to, from),
        StmtKind::Add { to, by } => put_add(out, to, by),
        StmtKind::Load { to, table, offset } => put_load(out, to, table, offset),
        StmtKind::Store {
            table,
            offset,
            from,
        } => put_store(out, table, offset, from),
        StmtKind::If {
            wide,
            left,
            right,
            yes,
            no,
        } => {
            put_test(out, *wide, left, right)?;
            put_block(out, yes.as_slice())?;
            put_otherwise(out, no.as_slice())
        }
        StmtKind::Loop { body } => put_loop(out, body.as_slice()),
        StmtKind::Repeat { count, body } => put_repeat(out, *count, body.as_slice()),
        StmtKind::Break => put_break(out),
        StmtKind::Lookup {
            to,
            table,
            offset,
            key,
            probes,
        } => { put_lookup(out, to, table, offset, key, *probes) }
        StmtKind::Walk {
            to,
            table,
            offset,
            key,
            nodes,
        } => { put_walk(out, to, table, offset, key, *nodes) }
        StmtKind::Reply { words } => put_reply(out, words.as_slice()),
    }
}

fn put_arguments(out: &mut String, args: &[Name]) -> Result<(), Memory>
    ensures { OnOk result (string_bytes out.new
        ≡ string_bytes out.old ++ spaced (flat_map canonical.argument args.now)) }
{
    for name in args {
        put_argument(out, name)?;
    }
    Ok(())
}

fn put_variables(out: &mut String, vars: &[VarDecl]) -> Result<(), Memory>
    ensures { OnOk result (string_bytes out.new
        ≡ string_bytes out.old ++ spaced (flat_map canonical.variable vars.now)) }
{
    for variable in vars {
        put_variable(out, variable)?;
    }
    Ok(())
}

/// How many messages a chain serves, where that is written, and the brace that opens it.
fn put_opening(out: &mut String, serve: Option<Num>) -> Result<(), Memory>
    ensures { OnOk result (string_bytes out.new
        ≡ string_bytes out.old ++ spaced (canonical.opening serve)) }
{
    if let Some(number) = serve {
        put_mark(out, TokenKind::Serve)?;
        put_number(out, number)?;
    }
    put_mark(out, TokenKind::OpenBrace)
}

/// A chain up to its first statement.
fn put_head(out: &mut String, chain: &Chain) -> Result<(), Memory>
    ensures { OnOk result (string_bytes out.new ≡ string_bytes out.old ++ spaced (
        canonical.mark TokenKind.Chain ++ canonical.name chain.now.name
        ++ canonical.opening chain.now.serve ++ flat_map canonical.argument chain.now.args
        ++ flat_map canonical.variable chain.now.vars)) }
{
    put_mark(out, TokenKind::Chain)?;
    put_name(out, &chain.name)?;
    put_opening(out, chain.serve)?;
    put_arguments(out, chain.args.as_slice())?;
    put_variables(out, chain.vars.as_slice())
}

fn put_chain(out: &mut String, chain: &Chain) -> Result<(), Memory>
    ensures { OnOk result (string_bytes out.new
        ≡ string_bytes out.old ++ spaced (canonical.chain chain.now)) }
{
    put_head(out, chain)?;
    put_body(out, chain.body.as_slice())?;
    put_mark(out, TokenKind::CloseBrace)
}

fn put_tables(out: &mut String, tables: &[Table]) -> Result<(), Memory>
    ensures { OnOk result (string_bytes out.new
        ≡ string_bytes out.old ++ spaced (flat_map canonical.table tables.now)) }
{
    for table in tables {
        put_table(out, table)?;
    }
    Ok(())
}

fn put_chains(out: &mut String, chains: &[Chain]) -> Result<(), Memory>
    ensures { OnOk result (string_bytes out.new
        ≡ string_bytes out.old ++ spaced (flat_map canonical.chain chains.now)) }
{
    for chain in chains {
        put_chain(out, chain)?;
    }
    Ok(())
}

fn put_file(out: &mut String, f: &File) -> Result<(), Memory>
    ensures { OnOk result (string_bytes out.new
        ≡ string_bytes out.old ++ spaced (canonical.file f.now)) }
{
    put_tables(out, f.tables.as_slice())?;
    put_chains(out, f.chains.as_slice())
}

/// The canonical text of a tree: every token in the order of the grammar, one space between two
/// tokens, numbers in decimal, no empty `else` block, no empty item list, and one newline at the
/// end. Some text must have the tree: a tree with a name that is none, or with a file of no chain
/// or a reply of no word, has no text at all.
pub fn print_file(alloc: Global, f: &File) -> Result<Vec<u8>, Memory>
    requires { IsWritable f.now }
    ensures text { IfOk result (λ text. text.items ≡ canonical.canonical_text f.now) }
    // It is a text of this tree, places aside.
    ensures read_back { IfOk result (λ text. ReadsBack f.now text.items) }
{
    let mut out = String::new(alloc);
    put_file(&mut out, f)?;
    let mut text = out.into_bytes();
    let last = text.len() - 1;
    text[last] = b'\n';
    Ok(text)
}
