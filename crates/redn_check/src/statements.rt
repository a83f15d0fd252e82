//! Rules 1, 3, 8 and 13, which look at one statement at a time.

ghost use Rattle.std.specs.Prelude.{◌≡◌, ◌++◌, [], ◌∷◌, map, not};
ghost use Rattle.std.specs.List.{flat_map, list_any};
ghost use Rattle.std.specs.Str.{bytes_eq};
ghost use Rattle.redn_syntax.specs.declared.tree.StmtKind.{out-StmtKind};
ghost use Rattle.redn_check.specs.Faults as faults;
ghost use Rattle.redn_check.specs.Faults.{first_of, fault};
ghost use Rattle.redn_check.specs.Names as names;
ghost use Rattle.redn_check.specs.Names.{named};
ghost use Rattle.redn_check.specs.Rules as rule;
ghost use Rattle.redn_check.specs.Statements.{each_of, with_inner};

use crate::fault::{Fault, earlier, when};
use crate::limits::outside;
use crate::scope::{Scope, is_read_only, is_table, is_variable};
use redn_syntax::{Name, Operand, Stmt, StmtKind};

/// The most words of a reply.
const MAX_WORDS: usize = 8;

fn missing_variable(scope: &Scope, name: &Name) -> Option<Fault>
    ensures { result ≡ first_of (rule.undeclared (names.variables scope.now.chain.now)
        (name.now ∷ [])) }
{
    when(!is_variable(scope, name), 1, name.at, 0)
}

fn missing_table(scope: &Scope, name: &Name) -> Option<Fault>
    ensures { result ≡ first_of (rule.undeclared (names.table_names scope.now.tables.now)
        (name.now ∷ [])) }
{
    when(!is_table(scope, name), 1, name.at, 0)
}

fn missing_in(scope: &Scope, operand: &Operand) -> Option<Fault>
    ensures { result ≡ first_of (rule.undeclared (names.variables scope.now.chain.now)
        (named operand.now)) }
{
    match operand {
        Operand::Name(name) => missing_variable(scope, name),
        Operand::Num(_) => None,
    }
}

fn missing_in_both(scope: &Scope, left: &Operand, right: &Operand) -> Option<Fault>
    ensures { result ≡ first_of (rule.undeclared (names.variables scope.now.chain.now)
        (named left.now ++ named right.now)) }
{
    earlier(missing_in(scope, left), missing_in(scope, right))
}

fn missing_in_words(scope: &Scope, words: &[Operand]) -> Option<Fault>
    ensures { result ≡ first_of (rule.undeclared (names.variables scope.now.chain.now)
        (flat_map named words.now)) }
{
    let mut first = None;
    for word in words {
        first = earlier(first, missing_in(scope, word));
    }
    first
}

fn target_and_operand(scope: &Scope, to: &Name, operand: &Operand) -> Option<Fault>
    ensures { result ≡ first_of (rule.undeclared (names.variables scope.now.chain.now)
        (to.now ∷ named operand.now)) }
{
    earlier(missing_variable(scope, to), missing_in(scope, operand))
}

fn target_and_both(scope: &Scope, to: &Name, offset: &Operand, key: &Operand) -> Option<Fault>
    ensures { result ≡ first_of (rule.undeclared (names.variables scope.now.chain.now)
        (to.now ∷ (named offset.now ++ named key.now))) }
{
    earlier(
        missing_variable(scope, to),
        missing_in_both(scope, offset, key),
    )
}

fn undeclared_variables(scope: &Scope, kind: &StmtKind) -> Option<Fault>
    ensures { result ≡ first_of (rule.undeclared (names.variables scope.now.chain.now)
        (rule.variables_in (out-StmtKind kind.now))) }
{
    match kind {
        StmtKind::Move { to, from } => target_and_operand(scope, to, from),
        StmtKind::Add { to, by } => target_and_operand(scope, to, by),
        StmtKind::Load { to, offset, .. } => target_and_operand(scope, to, offset),
        StmtKind::Store { offset, from, .. } => missing_in_both(scope, offset, from),
        StmtKind::If { left, right, .. } => missing_in_both(scope, left, right),
        StmtKind::Lookup {
            to,
            offset,
            key,
            ..
        } => target_and_both(scope, to, offset, key),
        StmtKind::Walk {
            to,
            offset,
            key,
            ..
        } => target_and_both(scope, to, offset, key),
        StmtKind::Reply { words } => missing_in_words(scope, words.as_slice()),
        StmtKind::Loop { .. } | StmtKind::Repeat { .. } | StmtKind::Break => None,
    }
}

fn undeclared_table(scope: &Scope, kind: &StmtKind) -> Option<Fault>
    ensures { result ≡ first_of (rule.undeclared (names.table_names scope.now.tables.now)
        (rule.tables_in (out-StmtKind kind.now))) }
{
    match kind {
        StmtKind::Load { table, .. } => missing_table(scope, table),
        StmtKind::Store { table, .. } => missing_table(scope, table),
        StmtKind::Lookup { table, .. } => missing_table(scope, table),
        StmtKind::Walk { table, .. } => missing_table(scope, table),
        _ => None,
    }
}

fn read_only(scope: &Scope, kind: &StmtKind) -> Option<Fault>
    ensures { result ≡ first_of (rule.read_only scope.now.tables.now (out-StmtKind kind.now)) }
{
    match kind {
        StmtKind::Store { table, .. } => when(is_read_only(scope, table), 3, table.at, 0),
        _ => None,
    }
}

fn is_the_variable(operand: &Operand, name: &Name) -> bool
    ensures { result ≡ list_any (λ n. bytes_eq name.now.text n.text) (named operand.now) }
{
    match operand {
        Operand::Name(other) => name.text.as_str() == other.text.as_str(),
        Operand::Num(_) => false,
    }
}

fn written_over(to: &Name, offset: &Operand, key: &Operand) -> Option<Fault>
    ensures { result ≡ first_of (rule.written_over to.now offset.now key.now) }
{
    let broken = is_the_variable(offset, to) || is_the_variable(key, to);
    when(broken, 8, to.at, 0)
}

fn overwritten(kind: &StmtKind) -> Option<Fault>
    ensures { result ≡ first_of (rule.overwritten (out-StmtKind kind.now)) }
{
    match kind {
        StmtKind::Lookup {
            to,
            offset,
            key,
            ..
        } => written_over(to, offset, key),
        StmtKind::Walk {
            to,
            offset,
            key,
            ..
        } => written_over(to, offset, key),
        _ => None,
    }
}

fn place_of_operand(operand: &Operand) -> u32
    ensures { result ≡ rule.place_of_operand operand.now }
{
    match operand {
        Operand::Name(name) => name.at,
        Operand::Num(number) => number.at,
    }
}

fn too_many_words(words: &[Operand]) -> Option<Fault>
    ensures { result ≡ first_of
        (rule.one_too_many 13 8 (map rule.place_of_operand words.now)) }
{
    let word = words.get(MAX_WORDS)?;
    when(true, 13, place_of_operand(word), MAX_WORDS as u64 + 1)
}

fn out_of_range(kind: &StmtKind) -> Option<Fault>
    ensures { result ≡ first_of (rule.out_of_range (out-StmtKind kind.now)) }
{
    match kind {
        StmtKind::Repeat { count, .. } => outside(13, 1, u64::from(u32::MAX), *count),
        StmtKind::Lookup { probes, .. } => outside(13, 1, 4, *probes),
        StmtKind::Walk { nodes, .. } => outside(13, 1, u64::from(u16::MAX), *nodes),
        StmtKind::Reply { words } => too_many_words(words.as_slice()),
        _ => None,
    }
}

/// The first fault of one statement, its blocks aside.
fn own_fault(scope: &Scope, s: &Stmt) -> Option<Fault>
    ensures { result ≡ first_of (rule.statement_faults scope.now.tables.now
        (names.variables scope.now.chain.now) s.now) }
{
    let kind = &s.kind;
    let undeclared = earlier(
        undeclared_variables(scope, kind),
        undeclared_table(scope, kind),
    );
    let named = earlier(undeclared, read_only(scope, kind));
    earlier(earlier(named, overwritten(kind)), out_of_range(kind))
}

#[cycle(look)]
fn look_into(scope: &Scope, s: &Stmt) -> Option<Fault>
    ensures { result ≡ first_of (flat_map (rule.statement_faults scope.now.tables.now
        (names.variables scope.now.chain.now)) (with_inner s.now)) }
{
    let own = own_fault(scope, s);
    match &s.kind {
        StmtKind::If { yes, no, .. } => {
            let inner = earlier(
                first_in(scope, yes.as_slice()),
                first_in(scope, no.as_slice()),
            );
            earlier(own, inner)
        }
        StmtKind::Loop { body } => earlier(own, first_in(scope, body.as_slice())),
        StmtKind::Repeat { body, .. } => earlier(own, first_in(scope, body.as_slice())),
        _ => own,
    }
}

/// The first fault of the statements of a list and of its blocks.
#[cycle(look)]
pub fn first_in(scope: &Scope, body: &[Stmt]) -> Option<Fault>
    ensures { result ≡ first_of (flat_map (rule.statement_faults scope.now.tables.now
        (names.variables scope.now.chain.now)) (each_of body.now)) }
{
    let mut first = None;
    for s in body {
        first = earlier(first, look_into(scope, s));
    }
    first
}
