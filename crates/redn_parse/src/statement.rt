//! Statements and blocks.

ghost use Rattle.std.specs.Prelude.{◌≡◌, ◌≢◌, ◌-◌, ◌<◌, ◌≤◌, ◌↔◌, Some, length, IsTrue, IfOk, OnOk};
ghost use Rattle.redn_syntax.specs.Grammar as g;
ghost use Rattle.redn_syntax.specs.Grammar.{SamePlace};
ghost use Rattle.redn_parse.specs.Lookahead.{kind_at, IsFixed, IsSlot};
ghost use Rattle.redn_parse.specs.Reads as reading;
ghost use Rattle.redn_parse.specs.Reads.{Reads, ReadsForm, ReadsAs, ReadsWithin, IsSole, with_mark, unless};

use crate::list::add;
use crate::phrase::{either_mark, name_before, number_before, slot_before, value, value_before};
use crate::reader::{Reader, Stop};
use redn_syntax::{Num, Operand, Stmt, StmtKind, TokenKind};
use sqlite_items::Items;
use std::alloc::Global;

/// Whether a place in a table comes next, and not a variable or a number alone.
fn is_slot(reader: &Reader) -> bool
    ensures { IsTrue result ↔ IsSlot reader.now }
{
    reader.is_ahead(0, TokenKind::Name) && reader.is_ahead(1, TokenKind::OpenBracket)
}

/// `x = a;` or `x = t[a];`
fn assignment(reader: &mut Reader, alloc: Global) -> Result<StmtKind, Stop>
    requires first { kind_at 0 reader.old ≡ Some TokenKind.Name }
    requires no_sum { kind_at 1 reader.old ≢ Some TokenKind.PlusEquals }
    requires no_store { kind_at 1 reader.old ≢ Some TokenKind.OpenBracket }
    ensures reads { ReadsForm reader.old reader.new result }
    ensures moves { OnOk result (length reader.new < length reader.old) }
{
    let to = name_before(reader, alloc, TokenKind::Equals)?;
    if is_slot(reader) {
        let (table, offset) = slot_before(reader, alloc, TokenKind::Semicolon)?;
        return Ok(StmtKind::Load { to, table, offset });
    }
    let from = value_before(reader, alloc, TokenKind::Semicolon)?;
    Ok(StmtKind::Move { to, from })
}

/// `x += a;`
fn sum(reader: &mut Reader, alloc: Global) -> Result<StmtKind, Stop>
    requires first { kind_at 0 reader.old ≡ Some TokenKind.Name }
    requires second { kind_at 1 reader.old ≡ Some TokenKind.PlusEquals }
    ensures reads { ReadsForm reader.old reader.new result }
    ensures moves { OnOk result (length reader.new < length reader.old) }
{
    let to = name_before(reader, alloc, TokenKind::PlusEquals)?;
    let by = value_before(reader, alloc, TokenKind::Semicolon)?;
    Ok(StmtKind::Add { to, by })
}

/// `t[a] = b;`
fn store(reader: &mut Reader, alloc: Global) -> Result<StmtKind, Stop>
    requires first { kind_at 0 reader.old ≡ Some TokenKind.Name }
    requires second { kind_at 1 reader.old ≡ Some TokenKind.OpenBracket }
    ensures reads { ReadsForm reader.old reader.new result }
    ensures moves { OnOk result (length reader.new < length reader.old) }
{
    let (table, offset) = slot_before(reader, alloc, TokenKind::Equals)?;
    let from = value_before(reader, alloc, TokenKind::Semicolon)?;
    Ok(StmtKind::Store {
        table,
        offset,
        from,
    })
}

/// A statement that begins with a name.
fn named(reader: &mut Reader, alloc: Global) -> Result<StmtKind, Stop>
    requires { kind_at 0 reader.old ≡ Some TokenKind.Name }
    ensures reads { ReadsForm reader.old reader.new result }
    ensures moves { OnOk result (length reader.new < length reader.old) }
{
    if reader.is_ahead(1, TokenKind::PlusEquals) {
        sum(reader, alloc)
    } else if reader.is_ahead(1, TokenKind::OpenBracket) {
        store(reader, alloc)
    } else {
        assignment(reader, alloc)
    }
}

fn break_statement(reader: &mut Reader) -> Result<StmtKind, Stop>
    requires { kind_at 0 reader.old ≡ Some TokenKind.Break }
    ensures reads { ReadsForm reader.old reader.new result }
    ensures moves { OnOk result (length reader.new < length reader.old) }
{
    reader.mark(TokenKind::Break)?;
    reader.mark(TokenKind::Semicolon)?;
    Ok(StmtKind::Break)
}

/// The key of a `lookup` or a `walk`, and its bound behind this word.
fn key_and_bound(
    reader: &mut Reader,
    alloc: Global,
    kind: TokenKind,
) -> Result<(Operand, Num), Stop>
    requires { IsFixed kind }
    ensures reads { Reads (reading.key_and_bound kind) reader.old reader.new result }
    ensures moves { OnOk result (length reader.new < length reader.old) }
{
    let key = value_before(reader, alloc, kind)?;
    let bound = number_before(reader, TokenKind::Semicolon)?;
    Ok((key, bound))
}

fn lookup(reader: &mut Reader, alloc: Global) -> Result<StmtKind, Stop>
    requires { kind_at 0 reader.old ≡ Some TokenKind.Lookup }
    ensures reads { ReadsForm reader.old reader.new result }
    ensures moves { OnOk result (length reader.new < length reader.old) }
{
    reader.mark(TokenKind::Lookup)?;
    let to = name_before(reader, alloc, TokenKind::Equals)?;
    let (table, offset) = slot_before(reader, alloc, TokenKind::Key)?;
    let (key, probes) = key_and_bound(reader, alloc, TokenKind::Probes)?;
    Ok(StmtKind::Lookup {
        to,
        table,
        offset,
        key,
        probes,
    })
}

fn walk(reader: &mut Reader, alloc: Global) -> Result<StmtKind, Stop>
    requires { kind_at 0 reader.old ≡ Some TokenKind.Walk }
    ensures reads { ReadsForm reader.old reader.new result }
    ensures moves { OnOk result (length reader.new < length reader.old) }
{
    reader.mark(TokenKind::Walk)?;
    let to = name_before(reader, alloc, TokenKind::Equals)?;
    let (table, offset) = slot_before(reader, alloc, TokenKind::Key)?;
    let (key, nodes) = key_and_bound(reader, alloc, TokenKind::Nodes)?;
    Ok(StmtKind::Walk {
        to,
        table,
        offset,
        key,
        nodes,
    })
}

/// A word of a reply, and whether another follows behind a comma.
fn reply_word(reader: &mut Reader, alloc: Global) -> Result<(Operand, bool), Stop>
    ensures reads { Reads reading.value_and_more reader.old reader.new result }
    ensures moves { OnOk result (length reader.new < length reader.old) }
{
    let word = value(reader, alloc)?;
    let more = either_mark(reader, TokenKind::Comma, TokenKind::Semicolon)?;
    Ok((word, more))
}

/// One word or more, and the semicolon behind the last.
fn reply_words(reader: &mut Reader, alloc: Global) -> Result<Items<Operand>, Stop>
    ensures reads { Reads (with_mark (g.listed (g.value SamePlace)) TokenKind.Semicolon)
        reader.old reader.new result }
    ensures moves { OnOk result (length reader.new < length reader.old) }
{
    let mut words = Items::new(alloc);
    loop {
        let (word, more) = reply_word(reader, alloc)?;
        add(&mut words, word)?;
        if !more {
            return Ok(words);
        }
    }
}

fn reply(reader: &mut Reader, alloc: Global) -> Result<StmtKind, Stop>
    requires { kind_at 0 reader.old ≡ Some TokenKind.Reply }
    ensures reads { ReadsForm reader.old reader.new result }
    ensures moves { OnOk result (length reader.new < length reader.old) }
{
    reader.mark(TokenKind::Reply)?;
    let words = reply_words(reader, alloc)?;
    Ok(StmtKind::Reply { words })
}

/// A test: its left side, whether it compares 64 bits, and its right side.
fn test(reader: &mut Reader, alloc: Global) -> Result<(Operand, bool, Operand), Stop>
    ensures reads { Reads reading.test reader.old reader.new result }
    ensures moves { OnOk result (length reader.new < length reader.old) }
{
    let left = value(reader, alloc)?;
    let wide = either_mark(reader, TokenKind::DoubleEquals, TokenKind::Tilde)?;
    let right = value(reader, alloc)?;
    Ok((left, wide, right))
}

/// The block behind an `else`, or none.
#[cycle(statement)]
fn otherwise(reader: &mut Reader, alloc: Global, room: u32) -> Result<Items<Stmt>, Stop>
    requires { room ≤ 64 }
    ensures reads { ReadsWithin reading.otherwise (unless TokenKind.Else) room (65 - room)
        reader.old reader.new result }
    ensures only { IfOk result
        (IsSole reading.otherwise (unless TokenKind.Else) reader.old reader.new) }
    ensures moves { OnOk result (length reader.new ≤ length reader.old) }
{
    if !reader.is_ahead(0, TokenKind::Else) {
        return Ok(Items::new(alloc));
    }
    reader.advance();
    block(reader, alloc, room)
}

#[cycle(statement)]
fn if_statement(reader: &mut Reader, alloc: Global, room: u32) -> Result<StmtKind, Stop>
    requires first { kind_at 0 reader.old ≡ Some TokenKind.If }
    requires room { room ≤ 64 }
    ensures reads { ReadsWithin reading.form (unless TokenKind.Else) room (65 - room)
        reader.old reader.new result }
    ensures only { IfOk result (IsSole reading.form (unless TokenKind.Else) reader.old reader.new) }
    ensures moves { OnOk result (length reader.new < length reader.old) }
{
    reader.mark(TokenKind::If)?;
    let (left, wide, right) = test(reader, alloc)?;
    let yes = block(reader, alloc, room)?;
    let no = otherwise(reader, alloc, room)?;
    Ok(StmtKind::If {
        wide,
        left,
        right,
        yes,
        no,
    })
}

#[cycle(statement)]
fn loop_statement(reader: &mut Reader, alloc: Global, room: u32) -> Result<StmtKind, Stop>
    requires first { kind_at 0 reader.old ≡ Some TokenKind.Loop }
    requires room { room ≤ 64 }
    ensures reads { ReadsWithin reading.form (unless TokenKind.Else) room (65 - room)
        reader.old reader.new result }
    ensures only { IfOk result (IsSole reading.form (unless TokenKind.Else) reader.old reader.new) }
    ensures moves { OnOk result (length reader.new < length reader.old) }
{
    reader.mark(TokenKind::Loop)?;
    let body = block(reader, alloc, room)?;
    Ok(StmtKind::Loop { body })
}

#[cycle(statement)]
fn repeat_statement(reader: &mut Reader, alloc: Global, room: u32) -> Result<StmtKind, Stop>
    requires first { kind_at 0 reader.old ≡ Some TokenKind.Repeat }
    requires room { room ≤ 64 }
    ensures reads { ReadsWithin reading.form (unless TokenKind.Else) room (65 - room)
        reader.old reader.new result }
    ensures only { IfOk result (IsSole reading.form (unless TokenKind.Else) reader.old reader.new) }
    ensures moves { OnOk result (length reader.new < length reader.old) }
{
    reader.mark(TokenKind::Repeat)?;
    let count = reader.number()?;
    let body = block(reader, alloc, room)?;
    Ok(StmtKind::Repeat { count, body })
}

/// What a statement is.
#[cycle(statement)]
fn statement_kind(reader: &mut Reader, alloc: Global, room: u32) -> Result<StmtKind, Stop>
    requires { room ≤ 64 }
    ensures reads { ReadsWithin reading.form (unless TokenKind.Else) room (65 - room)
        reader.old reader.new result }
    ensures only { IfOk result (IsSole reading.form (unless TokenKind.Else) reader.old reader.new) }
    ensures moves { OnOk result (length reader.new < length reader.old) }
{
    let Some(kind) = reader.kind() else {
        return Err(Stop::Unexpected);
    };
    match kind {
        TokenKind::Name => named(reader, alloc),
        TokenKind::If => if_statement(reader, alloc, room),
        TokenKind::Loop => loop_statement(reader, alloc, room),
        TokenKind::Repeat => repeat_statement(reader, alloc, room),
        TokenKind::Break => break_statement(reader),
        TokenKind::Lookup => lookup(reader, alloc),
        TokenKind::Walk => walk(reader, alloc),
        TokenKind::Reply => reply(reader, alloc),
        _ => Err(Stop::Unexpected),
    }
}

#[cycle(statement)]
fn statement(reader: &mut Reader, alloc: Global, room: u32) -> Result<Stmt, Stop>
    requires { room ≤ 64 }
    ensures reads { ReadsWithin reading.statement (unless TokenKind.Else) room (65 - room)
        reader.old reader.new result }
    ensures only { IfOk result
        (IsSole reading.statement (unless TokenKind.Else) reader.old reader.new) }
    ensures moves { OnOk result (length reader.new < length reader.old) }
{
    let at = reader.place();
    let kind = statement_kind(reader, alloc, room)?;
    Ok(Stmt { at, kind })
}

/// The statements up to a closing brace.
#[cycle(statement)]
pub fn body(reader: &mut Reader, alloc: Global, room: u32) -> Result<Items<Stmt>, Stop>
    requires { room ≤ 64 }
    ensures reads { ReadsAs reading.statements reading.body g.nothing room (65 - room)
        reader.old reader.new result }
    ensures moves { OnOk result (length reader.new ≤ length reader.old) }
{
    let mut statements = Items::new(alloc);
    'body: while !reader.is_ahead(0, TokenKind::CloseBrace) {
        let statement = statement(reader, alloc, room)?;
        add(&mut statements, statement)?;
    }
    Ok(statements)
}

/// A block in which so many blocks may still be nested, itself counted.
#[cycle(statement)]
fn block(reader: &mut Reader, alloc: Global, room: u32) -> Result<Items<Stmt>, Stop>
    requires { room ≤ 64 }
    ensures reads { ReadsWithin (g.block_within SamePlace) g.nothing room (65 - room)
        reader.old reader.new result }
    ensures moves { OnOk result (length reader.new < length reader.old) }
{
    if !reader.is_ahead(0, TokenKind::OpenBrace) {
        return Err(Stop::Unexpected);
    }
    if room == 0 {
        return Err(Stop::Deep(reader.place()));
    }
    reader.advance();
    let statements = body(reader, alloc, room - 1)?;
    reader.mark(TokenKind::CloseBrace)?;
    Ok(statements)
}
