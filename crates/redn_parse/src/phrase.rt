//! The phrases that tables and statements share.

ghost use Rattle.std.specs.Prelude.{◌≡◌, ◌≢◌, ◌<◌, length, OnOk, if◌then◌else◌};
ghost use Rattle.redn_syntax.specs.Grammar as g;
ghost use Rattle.redn_syntax.specs.Grammar.{SamePlace};
ghost use Rattle.redn_parse.specs.Lookahead.{IsFixed};
ghost use Rattle.redn_parse.specs.Reads.{Reads, slot, with_mark};

use crate::reader::{Reader, Stop};
use redn_syntax::{Name, Num, Operand, TokenKind};
use std::alloc::Global;

/// A variable or a number.
pub fn value(reader: &mut Reader, alloc: Global) -> Result<Operand, Stop>
    ensures reads { Reads (g.value SamePlace) reader.old reader.new result }
    ensures moves { OnOk result (length reader.new < length reader.old) }
{
    if reader.is_ahead(0, TokenKind::Name) {
        Ok(Operand::Name(reader.name(alloc)?))
    } else {
        Ok(Operand::Num(reader.number()?))
    }
}

/// A name, and this mark behind it.
pub fn name_before(reader: &mut Reader, alloc: Global, kind: TokenKind) -> Result<Name, Stop>
    requires { IsFixed kind }
    ensures reads { Reads (with_mark (g.name SamePlace) kind) reader.old reader.new result }
    ensures moves { OnOk result (length reader.new < length reader.old) }
{
    let name = reader.name(alloc)?;
    reader.mark(kind)?;
    Ok(name)
}

/// A number, and this mark behind it.
pub fn number_before(reader: &mut Reader, kind: TokenKind) -> Result<Num, Stop>
    requires { IsFixed kind }
    ensures reads { Reads (with_mark (g.number SamePlace) kind) reader.old reader.new result }
    ensures moves { OnOk result (length reader.new < length reader.old) }
{
    let number = reader.number()?;
    reader.mark(kind)?;
    Ok(number)
}

/// A variable or a number, and this mark behind it.
pub fn value_before(reader: &mut Reader, alloc: Global, kind: TokenKind) -> Result<Operand, Stop>
    requires { IsFixed kind }
    ensures reads { Reads (with_mark (g.value SamePlace) kind) reader.old reader.new result }
    ensures moves { OnOk result (length reader.new < length reader.old) }
{
    let value = value(reader, alloc)?;
    reader.mark(kind)?;
    Ok(value)
}

/// A place in a table, as `t[a]`, and this mark behind it.
pub fn slot_before(
    reader: &mut Reader,
    alloc: Global,
    kind: TokenKind,
) -> Result<(Name, Operand), Stop>
    requires { IsFixed kind }
    ensures reads { Reads (with_mark slot kind) reader.old reader.new result }
    ensures moves { OnOk result (length reader.new < length reader.old) }
{
    let table = name_before(reader, alloc, TokenKind::OpenBracket)?;
    let offset = value_before(reader, alloc, TokenKind::CloseBracket)?;
    reader.mark(kind)?;
    Ok((table, offset))
}

/// One of two marks: true for the first.
pub fn either_mark(reader: &mut Reader, yes: TokenKind, no: TokenKind) -> Result<bool, Stop>
    requires yes { IsFixed yes }
    requires no { IsFixed no }
    ensures reads { Reads (λ is_yes. g.mark (if is_yes then yes else no))
        reader.old reader.new result }
    ensures moves { OnOk result (length reader.new < length reader.old) }
{
    if reader.is_ahead(0, yes) {
        reader.advance();
        return Ok(true);
    }
    reader.mark(no)?;
    Ok(false)
}
