//! Tables and their items.

ghost use Rattle.std.specs.Prelude.{◌≡◌, ◌<◌, ◌≤◌, length, OnOk, if◌then◌else◌};
ghost use Rattle.redn_syntax.specs.Grammar as g;
ghost use Rattle.redn_syntax.specs.Grammar.{SamePlace};
ghost use Rattle.redn_parse.specs.Reads.{Reads, word_and_more, item_and_more, with_mark, ReadsAll};

use crate::list::add;
use crate::phrase::{either_mark, name_before, number_before};
use crate::reader::{Reader, Stop};
use redn_syntax::{Item, Num, Table, TokenKind};
use sqlite_items::Items;
use std::alloc::Global;

/// The word of an item, and whether another item follows behind a comma.
fn word(reader: &mut Reader) -> Result<(Num, bool), Stop>
    ensures reads { Reads word_and_more reader.old reader.new result }
    ensures moves { OnOk result (length reader.new < length reader.old) }
{
    let word = reader.number()?;
    let more = either_mark(reader, TokenKind::Comma, TokenKind::CloseBrace)?;
    Ok((word, more))
}

/// An item, and whether another follows behind a comma.
fn item(reader: &mut Reader) -> Result<(Item, bool), Stop>
    ensures reads { Reads item_and_more reader.old reader.new result }
    ensures moves { OnOk result (length reader.new < length reader.old) }
{
    if !reader.is_ahead(1, TokenKind::Colon) {
        let (word, more) = word(reader)?;
        return Ok((Item { at: None, word }, more));
    }
    let offset = number_before(reader, TokenKind::Colon)?;
    let at = Some(offset);
    let (word, more) = word(reader)?;
    Ok((Item { at, word }, more))
}

/// One item or more, and the brace behind the last.
fn items(reader: &mut Reader, alloc: Global) -> Result<Items<Item>, Stop>
    ensures reads { Reads (with_mark (g.listed (g.item SamePlace)) TokenKind.CloseBrace)
        reader.old reader.new result }
    ensures moves { OnOk result (length reader.new < length reader.old) }
{
    let mut items = Items::new(alloc);
    loop {
        let (item, more) = item(reader)?;
        add(&mut items, item)?;
        if !more {
            return Ok(items);
        }
    }
}

/// The items of a table, or none, and its semicolon.
fn contents(reader: &mut Reader, alloc: Global) -> Result<Items<Item>, Stop>
    ensures reads { Reads (with_mark (g.contents SamePlace) TokenKind.Semicolon)
        reader.old reader.new result }
    ensures moves { OnOk result (length reader.new < length reader.old) }
{
    let has_items = either_mark(reader, TokenKind::Equals, TokenKind::Semicolon)?;
    if !has_items {
        return Ok(Items::new(alloc));
    }
    reader.mark(TokenKind::OpenBrace)?;
    let items = items(reader, alloc)?;
    reader.mark(TokenKind::Semicolon)?;
    Ok(items)
}

fn table(reader: &mut Reader, alloc: Global) -> Result<Table, Stop>
    ensures reads { Reads (g.table SamePlace) reader.old reader.new result }
    ensures moves { OnOk result (length reader.new < length reader.old) }
{
    reader.mark(TokenKind::Table)?;
    let name = name_before(reader, alloc, TokenKind::OpenBracket)?;
    let length = number_before(reader, TokenKind::CloseBracket)?;
    let writable = either_mark(reader, TokenKind::Rw, TokenKind::Ro)?;
    let items = contents(reader, alloc)?;
    Ok(Table {
        name,
        length,
        writable,
        items,
    })
}

/// All tables that follow.
pub fn tables(reader: &mut Reader, alloc: Global) -> Result<Items<Table>, Stop>
    ensures reads { ReadsAll (g.table SamePlace) TokenKind.Table
        reader.old reader.new result }
    ensures moves { OnOk result (length reader.new ≤ length reader.old) }
{
    let mut tables = Items::new(alloc);
    'tables: while reader.is_ahead(0, TokenKind::Table) {
        let table = table(reader, alloc)?;
        add(&mut tables, table)?;
    }
    Ok(tables)
}
