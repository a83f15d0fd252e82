//! Rules 4 to 7: breaks, ends, and loops that do nothing.

ghost use Rattle.std.specs.Prelude.{◌≡◌, ◌++◌, [], ◌∷◌, map, List, Bool, false, None};
ghost use Rattle.redn_syntax.specs.declared.tree.Operand.{Operand as SpecOperand};
ghost use Rattle.redn_syntax.specs.declared.tree.Num.{Num as SpecNum};
ghost use Rattle.redn_syntax.specs.declared.tree.Stmt.{Stmt as SpecStmt};
ghost use Rattle.redn_syntax.specs.declared.tree.StmtKind.TheOpen.{StmtKind-F};
ghost use Rattle.redn_check.specs.Faults.{first_of, fault};
ghost use Rattle.redn_check.specs.Flow.{statement_flow, body_flow};
ghost use Rattle.redn_check.specs.Rules as rule;
ghost use Rattle.redn_check.specs.Statements.{breaks_of, layer_of};

use crate::fault::{Fault, earlier, when};
use redn_syntax::{Chain, Stmt, StmtKind};

/// How a statement may be left and whether it does nothing, with the first fault of rules 6 and 7
/// in it.
#[derive(Clone, Copy)]
pub struct StatementFlow {
    pub falls: bool,
    pub breaks: bool,
    pub is_break: bool,
    pub is_idle: bool,
    pub first: Option<Fault>,
}

/// The same of a list. `unreached` is the first of its own statements that rule 6 refuses, and
/// `inner` the first fault in one of them.
#[derive(Clone, Copy)]
pub struct BodyFlow {
    pub falls: bool,
    pub breaks: bool,
    pub breaks_idly: bool,
    pub is_idle: bool,
    pub unreached: Option<Fault>,
    pub inner: Option<Fault>,
}

/// The flow of a list with one more statement, which stands at this place.
fn followed(flow: BodyFlow, at: u32, next: StatementFlow) -> BodyFlow
    ensures { (body : List SpecStmt) (s : SpecStmt) → flow ≡ body_flow body →
        next ≡ statement_flow s → at ≡ s.at → result ≡ body_flow (body ++ s ∷ []) }
{
    BodyFlow {
        falls: flow.falls && next.falls,
        breaks: flow.breaks || next.breaks,
        breaks_idly: flow.breaks_idly || (flow.is_idle && next.is_break),
        is_idle: flow.is_idle && next.is_idle,
        unreached: earlier(flow.unreached, when(!flow.falls, 6, at, 0)),
        inner: earlier(flow.inner, next.first),
    }
}

fn flow_of_if(yes: BodyFlow, no: BodyFlow) -> StatementFlow
    ensures { (s : SpecStmt) (wide : Bool) (left right : SpecOperand) (met unmet : List SpecStmt) →
        layer_of s ≡ StmtKind-F.If wide left right met unmet → yes ≡ body_flow met →
        no ≡ body_flow unmet → result ≡ statement_flow s }
{
    StatementFlow {
        falls: yes.falls || no.falls,
        breaks: yes.breaks || no.breaks,
        is_break: false,
        is_idle: false,
        first: earlier(
            earlier(yes.unreached, no.unreached),
            earlier(yes.inner, no.inner),
        ),
    }
}

fn flow_of_loop(at: u32, body: BodyFlow) -> StatementFlow
    ensures { (s : SpecStmt) (inner : List SpecStmt) → layer_of s ≡ StmtKind-F.Loop inner →
        at ≡ s.at → body ≡ body_flow inner → result ≡ statement_flow s }
{
    let inner = earlier(body.unreached, body.inner);
    StatementFlow {
        falls: body.breaks,
        breaks: false,
        is_break: false,
        is_idle: body.breaks_idly,
        first: earlier(when(body.is_idle, 7, at, 0), inner),
    }
}

fn flow_of_repeat(body: BodyFlow) -> StatementFlow
    ensures { (s : SpecStmt) (count : SpecNum) (inner : List SpecStmt) →
        layer_of s ≡ StmtKind-F.Repeat count inner → body ≡ body_flow inner →
        result ≡ statement_flow s }
{
    StatementFlow {
        falls: body.falls || body.breaks,
        breaks: false,
        is_break: false,
        is_idle: false,
        first: earlier(body.unreached, body.inner),
    }
}

/// The flow of a statement with no block.
fn plain_flow(falls: bool, is_break: bool) -> StatementFlow
    ensures { result ≡ record {
      falls = falls;
      breaks = is_break;
      is_break = is_break;
      is_idle = false;
      first = None;
    } }
{
    StatementFlow {
        falls,
        breaks: is_break,
        is_break,
        is_idle: false,
        first: None,
    }
}

#[cycle(flow)]
fn flow_of(s: &Stmt) -> StatementFlow
    ensures { result ≡ statement_flow s.now }
{
    match &s.kind {
        StmtKind::If { yes, no, .. } => flow_of_if(
            flow_of_body(yes.as_slice()),
            flow_of_body(no.as_slice()),
        ),
        StmtKind::Loop { body } => flow_of_loop(s.at, flow_of_body(body.as_slice())),
        StmtKind::Repeat { body, .. } => flow_of_repeat(flow_of_body(body.as_slice())),
        StmtKind::Break => plain_flow(false, true),
        StmtKind::Reply { .. } => plain_flow(false, false),
        _ => plain_flow(true, false),
    }
}

#[cycle(flow)]
fn flow_of_body(body: &[Stmt]) -> BodyFlow
    ensures { result ≡ body_flow body.now }
{
    let mut flow = BodyFlow {
        falls: true,
        breaks: false,
        breaks_idly: false,
        is_idle: true,
        unreached: None,
        inner: None,
    };
    for s in body {
        flow = followed(flow, s.at, flow_of(s));
    }
    flow
}

/// The first break of a statement that leaves a loop around it.
#[cycle(breaks)]
fn loose_break(s: &Stmt) -> Option<Fault>
    ensures { result ≡ first_of (map (λ at. fault 4 at 0) (breaks_of s.now)) }
{
    match &s.kind {
        StmtKind::Break => when(true, 4, s.at, 0),
        StmtKind::If { yes, no, .. } => earlier(
            first_loose_break(yes.as_slice()),
            first_loose_break(no.as_slice()),
        ),
        _ => None,
    }
}

#[cycle(breaks)]
fn first_loose_break(body: &[Stmt]) -> Option<Fault>
    ensures { result ≡ first_of (rule.loose_breaks body.now) }
{
    let mut first = None;
    for s in body {
        first = earlier(first, loose_break(s));
    }
    first
}

/// The first fault of a chain's statements by rules 4 to 7.
pub fn first_in_flow(chain: &Chain) -> Option<Fault>
    ensures { result ≡ first_of (rule.control_faults chain.now) }
{
    let body = chain.body.as_slice();
    let flow = flow_of_body(body);
    let ends = earlier(first_loose_break(body), when(flow.falls, 5, chain.close, 0));
    earlier(earlier(ends, flow.unreached), flow.inner)
}
