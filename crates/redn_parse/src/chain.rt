//! Chains, their arguments and variables.

ghost use Rattle.std.specs.Prelude.{◌≡◌, ℕ, ◌<◌, ◌≤◌, length, OnOk};
ghost use Rattle.redn_syntax.specs.Grammar as g;
ghost use Rattle.redn_syntax.specs.Grammar.{SamePlace};
ghost use Rattle.redn_parse.specs.Reads as reading;
ghost use Rattle.redn_parse.specs.Reads.{Reads, ReadsAll, ReadsAs, ReadsWithin, with_mark};

use crate::list::add;
use crate::phrase::{either_mark, name_before, number_before};
use crate::reader::{Reader, Stop};
use crate::statement::body;
use redn_syntax::{Chain, Name, Num, TokenKind, VarDecl};
use sqlite_items::Items;
use std::alloc::Global;

/// How deep blocks may be nested in a chain.
const MAX_DEPTH: u32 = 64;

fn argument(reader: &mut Reader, alloc: Global) -> Result<Name, Stop>
    ensures reads { Reads (g.argument SamePlace) reader.old reader.new result }
    ensures moves { OnOk result (length reader.new < length reader.old) }
{
    reader.mark(TokenKind::Arg)?;
    name_before(reader, alloc, TokenKind::Semicolon)
}

/// All arguments that follow.
fn arguments(reader: &mut Reader, alloc: Global) -> Result<Items<Name>, Stop>
    ensures reads { ReadsAll (g.argument SamePlace) TokenKind.Arg
        reader.old reader.new result }
    ensures moves { OnOk result (length reader.new ≤ length reader.old) }
{
    let mut args = Items::new(alloc);
    'arguments: while reader.is_ahead(0, TokenKind::Arg) {
        let name = argument(reader, alloc)?;
        add(&mut args, name)?;
    }
    Ok(args)
}

/// The first value of a variable, or none, and the semicolon behind it.
fn first_value(reader: &mut Reader) -> Result<Option<Num>, Stop>
    ensures { Reads (with_mark (g.first_value SamePlace) TokenKind.Semicolon)
        reader.old reader.new result }
{
    let has_value = either_mark(reader, TokenKind::Equals, TokenKind::Semicolon)?;
    if !has_value {
        return Ok(None);
    }
    let number = number_before(reader, TokenKind::Semicolon)?;
    Ok(Some(number))
}

fn variable(reader: &mut Reader, alloc: Global) -> Result<VarDecl, Stop>
    ensures reads { Reads (g.variable SamePlace) reader.old reader.new result }
    ensures moves { OnOk result (length reader.new < length reader.old) }
{
    reader.mark(TokenKind::Var)?;
    let name = reader.name(alloc)?;
    let first = first_value(reader)?;
    Ok(VarDecl { name, first })
}

/// All variables that follow.
fn variables(reader: &mut Reader, alloc: Global) -> Result<Items<VarDecl>, Stop>
    ensures reads { ReadsAll (g.variable SamePlace) TokenKind.Var
        reader.old reader.new result }
    ensures moves { OnOk result (length reader.new ≤ length reader.old) }
{
    let mut vars = Items::new(alloc);
    'variables: while reader.is_ahead(0, TokenKind::Var) {
        let variable = variable(reader, alloc)?;
        add(&mut vars, variable)?;
    }
    Ok(vars)
}

/// How many messages a chain serves, or none, and the brace that opens it.
fn opening(reader: &mut Reader) -> Result<Option<Num>, Stop>
    ensures reads { Reads (g.opening SamePlace) reader.old reader.new result }
    ensures moves { OnOk result (length reader.new < length reader.old) }
{
    let is_written = either_mark(reader, TokenKind::Serve, TokenKind::OpenBrace)?;
    if !is_written {
        return Ok(None);
    }
    let number = number_before(reader, TokenKind::OpenBrace)?;
    Ok(Some(number))
}

fn chain(reader: &mut Reader, alloc: Global) -> Result<Chain, Stop>
    ensures reads { ReadsWithin (g.chain_within SamePlace) g.nothing 64 0
        reader.old reader.new result }
    ensures moves { OnOk result (length reader.new < length reader.old) }
{
    reader.mark(TokenKind::Chain)?;
    let name = reader.name(alloc)?;
    let serve = opening(reader)?;
    let args = arguments(reader, alloc)?;
    let vars = variables(reader, alloc)?;
    let body = body(reader, alloc, MAX_DEPTH)?;
    let close = reader.place();
    reader.mark(TokenKind::CloseBrace)?;
    Ok(Chain {
        name,
        serve,
        args,
        vars,
        body,
        close,
    })
}

/// One chain or more, up to the end.
pub fn chains(reader: &mut Reader, alloc: Global) -> Result<Items<Chain>, Stop>
    ensures { ReadsAs reading.some_chains reading.chains g.nothing 64 0
        reader.old reader.new result }
{
    let mut chains = Items::new(alloc);
    loop {
        let chain = chain(reader, alloc)?;
        add(&mut chains, chain)?;
        if reader.left() == 0 {
            return Ok(chains);
        }
    }
}
