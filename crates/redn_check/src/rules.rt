//! The rules as a whole.

ghost use Rattle.std.specs.Prelude.{◌≡◌, ◌++◌, ℕ, All, IfOk, IsErrOf};
ghost use Rattle.std.specs.List.{flat_map};
ghost use Rattle.redn_syntax.specs.Grammar.{IsWritable};
ghost use Rattle.redn_kernel.specs.Program.{AreWords, IsSound, ServesOne};
ghost use Rattle.redn_check.specs.declared.fault.Fault.{Fault as SpecFault};
ghost use Rattle.redn_check.specs.Answers.{FailsWith, Gives};
ghost use Rattle.redn_check.specs.Faults.{fault, first_of, IsFirst};
ghost use Rattle.redn_check.specs.Names as names;
ghost use Rattle.redn_check.specs.Names.{Holds};
ghost use Rattle.redn_check.specs.Numbering.{program_of};
ghost use Rattle.redn_check.specs.Rules.{Accepts, faults, chain_faults};

use crate::fault::{CheckFault, Fault, earlier};
use crate::flow::first_in_flow;
use crate::limits::{
    bad_serve, first_in_tables, too_many_arguments, too_many_chains, too_many_variables,
};
use crate::names::{Names, declare_chains, declare_tables, declare_variables};
use crate::number::program;
use crate::scope::Scope;
use crate::statements::first_in;
use crate::weight::first_too_heavy;
use redn_kernel::Program;
use redn_syntax::{Chain, File, Table};
use redn_words::Memory;
use std::alloc::Global;

fn first_in_chain(
    alloc: Global,
    tables: &[Table],
    table_names: &Names,
    chain: &Chain,
) -> Result<Option<Fault>, Memory>
    requires { Holds table_names.now.places (names.table_names tables.now) }
    ensures { IfOk result (λ first. first ≡ first_of (chain_faults tables.now chain.now)) }
{
    let declared = declare_variables(alloc, chain)?;
    let scope = Scope {
        tables,
        table_names,
        chain,
        variables: &declared.names,
    };
    let args = earlier(declared.first, too_many_arguments(chain.args.as_slice()));
    let many = earlier(args, too_many_variables(chain));
    let served = earlier(many, bad_serve(chain));
    let own = earlier(served, first_in(&scope, chain.body.as_slice()));
    Ok(earlier(own, first_in_flow(chain)))
}

fn first_in_chains(alloc: Global, f: &File, table_names: &Names) -> Result<Option<Fault>, Memory>
    requires { Holds table_names.now.places (names.table_names f.now.tables) }
    ensures { IfOk result (λ first.
        first ≡ first_of (flat_map (chain_faults f.now.tables) f.now.chains)) }
{
    let mut first = None;
    for chain in f.chains.as_slice() {
        let next = first_in_chain(alloc, f.tables.as_slice(), table_names, chain)?;
        first = earlier(first, next);
    }
    Ok(first)
}

/// The first fault of a file, where it has one.
fn first_fault(alloc: Global, f: &File) -> Result<Option<Fault>, Memory>
    ensures { IfOk result (λ first. first ≡ first_of (faults f.now)) }
{
    let chains = f.chains.as_slice();
    let declared = declare_tables(alloc, f.tables.as_slice())?;
    let tables = earlier(declared.first, first_in_tables(f.tables.as_slice()));
    let named = earlier(tables, declare_chains(alloc, chains)?);
    let many = earlier(named, too_many_chains(chains));
    let inner = first_in_chains(alloc, f, &declared.names)?;
    Ok(earlier(earlier(many, inner), first_too_heavy(chains)))
}

/// What `check` does, for any tree.
pub fn checked(alloc: Global, f: &File) -> Result<Program, CheckFault>
    ensures accepted { IfOk result (λ p. Accepts f.now) }
    ensures program { IfOk result (λ p. p ≡ program_of f.now) }
    ensures words { IfOk result (λ p. All (λ c. AreWords c.vars) p.chains) }
    ensures rule { (rule at seen : ℕ) → IsErrOf result (CheckFault.Rule rule at seen) →
        IsFirst (fault rule at seen) (faults f.now) }
    ensures accepts { Accepts f.now → Gives result (λ p. p ≡ program_of f.now) }
    ensures refuses { (first : SpecFault) → IsFirst first (faults f.now) →
        FailsWith result (CheckFault.Rule first.rule first.at first.seen) }
{
    let first = first_fault(alloc, f).map_err(|_| CheckFault::Memory)?;
    if let Some(fault) = first {
        return Err(CheckFault::Rule {
            rule: fault.rule,
            at: fault.at,
            seen: fault.seen,
        });
    }
    program(alloc, f).map_err(|_| CheckFault::Memory)
}

/// The program of a file that keeps the rules, with numbers in place of its names. Some text must
/// have the tree, places aside: a file of no chain and a reply of no word have no text at all.
pub fn check(alloc: Global, f: &File) -> Result<Program, CheckFault>
    requires { IsWritable f.now }

    ensures accepted { IfOk result (λ p. Accepts f.now) }
    ensures program { IfOk result (λ p. p ≡ program_of f.now) }
    ensures sound { IfOk result (λ p. IsSound p) }
    ensures one { IfOk result (λ p. ServesOne p) }
    ensures rule { (rule at seen : ℕ) → IsErrOf result (CheckFault.Rule rule at seen) →
        IsFirst (fault rule at seen) (faults f.now) }

    // Unless memory runs out, the answer is the one that the file has.
    ensures accepts { Accepts f.now → Gives result (λ p. p ≡ program_of f.now) }
    ensures refuses { (first : SpecFault) → IsFirst first (faults f.now) →
        FailsWith result (CheckFault.Rule first.rule first.at first.seen) }
{
    checked(alloc, f)
}
