//! Rule 14: what a file weighs.

ghost use Rattle.std.specs.Prelude.{◌≡◌, ◌≤◌, ◌++◌, [], ◌∷◌, List, map};
ghost use Rattle.std.specs.List.{flat_map};
ghost use Rattle.redn_syntax.specs.declared.tree.StmtKind.{out-StmtKind};
ghost use Rattle.redn_check.specs.Faults.{first_of};
ghost use Rattle.redn_check.specs.Flow.{load_of};
ghost use Rattle.redn_check.specs.Rules.{Weight, weight_at, weights, weights_in, too_heavy};
ghost use Rattle.redn_check.specs.Statements.{with_inner, each_of, own_weight};

use crate::fault::{Fault, earlier, when};
use redn_syntax::{Chain, Name, Stmt, StmtKind};
use std::alloc::Global;

/// The most that a file may weigh.
const MAX_WEIGHT: u64 = 4096;

/// The weight so far, which stops at 2^64 - 1, and the place that passed the limit.
#[derive(Clone, Copy)]
pub struct Load {
    pub total: u64,
    pub first: Option<Fault>,
}

/// The load with this weight, which stands at this place.
fn loaded(load: Load, at: u32, weight: u64) -> Load
    requires { weight ≤ 5 }
    ensures { (ws : List Weight) → load ≡ load_of ws →
        result ≡ load_of (ws ++ weight_at at weight ∷ []) }
{
    let total = load.total.saturating_add(weight);
    let passes = load.total <= MAX_WEIGHT && total > MAX_WEIGHT;
    Load {
        total,
        first: earlier(load.first, when(passes, 14, at, total)),
    }
}

/// What a statement weighs, its blocks aside.
fn own_weight(kind: &StmtKind) -> u64
    ensures weight { result ≡ own_weight (out-StmtKind kind.now) }
    ensures small { result ≤ 5 }
{
    match kind {
        StmtKind::Repeat { .. } => 2,
        StmtKind::Lookup { probes, .. } => probes.value.min(4) + 1,
        StmtKind::Walk { .. } => 5,
        _ => 1,
    }
}

#[cycle(weigh)]
fn with_statement(load: Load, s: &Stmt) -> Load
    ensures { (ws : List Weight) → load ≡ load_of ws →
        result ≡ load_of (ws ++ weights_in (with_inner s.now)) }
{
    let own = loaded(load, s.at, own_weight(&s.kind));
    match &s.kind {
        StmtKind::If { yes, no, .. } => {
            let first = with_body(own, yes.as_slice());
            with_body(first, no.as_slice())
        }
        StmtKind::Loop { body } => with_body(own, body.as_slice()),
        StmtKind::Repeat { body, .. } => with_body(own, body.as_slice()),
        _ => own,
    }
}

#[cycle(weigh)]
fn with_body(load: Load, body: &[Stmt]) -> Load
    ensures { (ws : List Weight) → load ≡ load_of ws →
        result ≡ load_of (ws ++ weights_in (each_of body.now)) }
{
    let mut sum = load;
    for s in body {
        sum = with_statement(sum, s);
    }
    sum
}

fn with_arguments(load: Load, args: &[Name]) -> Load
    ensures { (ws : List Weight) → load ≡ load_of ws →
        result ≡ load_of (ws ++ map (λ n. weight_at n.at 1) args.now) }
{
    let mut sum = load;
    for name in args {
        sum = loaded(sum, name.at, 1);
    }
    sum
}

/// The place that passes the limit, where there is one.
pub fn first_too_heavy(chains: &[Chain]) -> Option<Fault>
    ensures { result ≡ first_of (too_heavy (flat_map weights chains.now)) }
{
    let mut load = Load {
        total: 0,
        first: None,
    };
    for chain in chains {
        let args = with_arguments(load, chain.args.as_slice());
        load = with_body(args, chain.body.as_slice());
    }
    load.first
}
