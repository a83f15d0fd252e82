//! The generated file.

ghost use Rattle.std.specs.Prelude.{◌≡◌, ◌<◌, IfOk, map};
ghost use Rattle.std.specs.List.{flat_map};
ghost use Rattle.std.specs.Str.{IsAscii};
ghost use Rattle.redn_syntax.specs.Grammar.{IsWritable};
ghost use Rattle.redn_check.specs.Rules.{Accepts};
ghost use Rattle.redn_gen.specs.Generated as g;

use crate::number::{chain_count, key_of};
use crate::part::{name, named, number, statement, variable, word};
use redn_syntax::{Chain, File, Item, Name, Operand, Stmt, StmtKind, Table, VarDecl};
use redn_words::Memory;
use sqlite_items::Items;
use std::alloc::Global;

/// How many buckets the table has.
const BUCKETS: u64 = 512;

/// How many bytes a bucket has: its key and its value.
const BUCKET_BYTES: u64 = 16;

/// The words of all buckets.
#[tactic(auto, using(crate::proofs::Below::no_bucket, crate::proofs::Below::next_bucket))]
fn items(alloc: Global, n: u32) -> Result<Items<Item>, Memory>
    ensures { IfOk result (λ items. items ≡ map g.word (flat_map (g.bucket n) (g.below 512))) }
{
    let mut items = Items::new(alloc);
    for bucket in 0..BUCKETS {
        items.push(word(key_of(n, bucket)))?;
        items.push(word(u64::from(n) + bucket))?;
    }
    Ok(items)
}

fn table(alloc: Global, n: u32) -> Result<Table, Memory>
    ensures { IfOk result (λ table. table ≡ g.table n) }
{
    let name = name(alloc, b"t")?;
    let items = items(alloc, n)?;
    Ok(Table {
        name,
        length: number(BUCKETS * BUCKET_BYTES),
        writable: false,
        items,
    })
}

/// `lookup x = t[o] key k probes 2;`
fn lookup(alloc: Global) -> Result<StmtKind, Memory>
    ensures { IfOk result (λ lookup. lookup ≡ g.lookup) }
{
    let to = name(alloc, b"x")?;
    let table = name(alloc, b"t")?;
    let offset = named(alloc, b"o")?;
    let key = named(alloc, b"k")?;
    let probes = number(2);
    Ok(StmtKind::Lookup {
        to,
        table,
        offset,
        key,
        probes,
    })
}

/// Adds to a variable.
fn add(alloc: Global, to: &[u8], by: Operand) -> Result<StmtKind, Memory>
    requires { IsAscii to.now }
    ensures { IfOk result (λ add. add ≡ g.add to.now by) }
{
    let to = name(alloc, to)?;
    Ok(StmtKind::Add { to, by })
}

/// What is done 1,000 times: `lookup x = t[o] key k probes 2; s += x; i += 1;`
fn turn(alloc: Global) -> Result<Items<Stmt>, Memory>
    ensures { IfOk result (λ turn. turn ≡ g.turn) }
{
    let mut turn = Items::new(alloc);
    turn.push(statement(lookup(alloc)?))?;
    let found = named(alloc, b"x")?;
    turn.push(statement(add(alloc, b"s", found)?))?;
    let one = Operand::Num(number(1));
    turn.push(statement(add(alloc, b"i", one)?))?;
    Ok(turn)
}

/// `reply s, i;`
fn reply(alloc: Global) -> Result<StmtKind, Memory>
    ensures { IfOk result (λ reply. reply ≡ g.reply) }
{
    let mut words = Items::new(alloc);
    words.push(named(alloc, b"s")?)?;
    words.push(named(alloc, b"i")?)?;
    Ok(StmtKind::Reply { words })
}

/// `repeat 1000 { .. } reply s, i;`
fn body(alloc: Global) -> Result<Items<Stmt>, Memory>
    ensures { IfOk result (λ body. body ≡ g.body) }
{
    let repeat = StmtKind::Repeat {
        count: number(1000),
        body: turn(alloc)?,
    };
    let reply = reply(alloc)?;
    let mut body = Items::new(alloc);
    body.push(statement(repeat))?;
    body.push(statement(reply))?;
    Ok(body)
}

/// `arg o; arg k;`
fn arguments(alloc: Global) -> Result<Items<Name>, Memory>
    ensures { IfOk result (λ arguments. arguments ≡ g.arguments) }
{
    let mut arguments = Items::new(alloc);
    arguments.push(name(alloc, b"o")?)?;
    arguments.push(name(alloc, b"k")?)?;
    Ok(arguments)
}

/// `var x; var s; var i;`
fn variables(alloc: Global) -> Result<Items<VarDecl>, Memory>
    ensures { IfOk result (λ variables. variables ≡ g.variables) }
{
    let mut variables = Items::new(alloc);
    variables.push(variable(alloc, b"x")?)?;
    variables.push(variable(alloc, b"s")?)?;
    variables.push(variable(alloc, b"i")?)?;
    Ok(variables)
}

/// The name of a chain: `g` and its number.
#[tactic(auto, using(std::proofs::lemmas::Fmt::decimal_digit))]
fn chain_name(alloc: Global, chain: u32) -> Result<Name, Memory>
    requires { chain < 10 }
    ensures { IfOk result (λ name. name ≡ g.chain_name chain) }
{
    name(alloc, &[b'g', b'0' + chain as u8])
}

fn chain(alloc: Global, chain: u32) -> Result<Chain, Memory>
    requires { chain < 10 }
    ensures { IfOk result (λ made. made ≡ g.chain chain) }
{
    let name = chain_name(alloc, chain)?;
    let args = arguments(alloc)?;
    let vars = variables(alloc)?;
    let body = body(alloc)?;
    Ok(Chain {
        name,
        serve: None,
        args,
        vars,
        body,
        close: 0,
    })
}

/// The tree of the generated file of a number: a table `t` of 512 buckets of 16 bytes, and one to
/// four chains `g0`, `g1` and so on that look it up 1,000 times each. It has no text of its own,
/// so all its places are 0. The one error is want of memory.
#[tactic(auto, using(crate::proofs::Below::none))]
pub fn gen_file(alloc: Global, n: u32) -> Result<File, Memory>
    ensures file { IfOk result (λ file. file ≡ g.generated_file n) }
    // Some text has this tree, so it can be checked and printed.
    ensures writable { IfOk result (λ file. IsWritable file) }
    // The rules find no fault in it.
    ensures accepted { IfOk result (λ file. Accepts file) }
{
    let mut tables = Items::new(alloc);
    tables.push(table(alloc, n)?)?;
    let mut chains = Items::new(alloc);
    for number in 0..chain_count(n) {
        chains.push(chain(alloc, number)?)?;
    }
    Ok(File { tables, chains })
}
