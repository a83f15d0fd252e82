//! Small parts of a tree, all at place 0.

ghost use Rattle.std.specs.Prelude.{◌≡◌, IfOk};
ghost use Rattle.std.specs.Str.{IsAscii};
ghost use Rattle.redn_syntax.specs.declared.tree.Operand.TheVariants as operand;
ghost use Rattle.redn_gen.specs.Generated as g;

use redn_syntax::{Item, Name, Num, Operand, Stmt, StmtKind, Text, VarDecl};
use redn_words::Memory;
use std::alloc::Global;

pub fn name(alloc: Global, text: &[u8]) -> Result<Name, Memory>
    requires { IsAscii text.now }
    ensures { IfOk result (λ name. name ≡ g.name text.now) }
{
    let text = Text::from_ascii(alloc, text)?;
    Ok(Name { text, at: 0 })
}

pub fn number(value: u64) -> Num
    ensures { result ≡ g.number value }
{
    Num { value, at: 0 }
}

/// A variable as an operand.
pub fn named(alloc: Global, text: &[u8]) -> Result<Operand, Memory>
    requires { IsAscii text.now }
    ensures { IfOk result (λ value. value ≡ g.named text.now) }
{
    Ok(Operand::Name(name(alloc, text)?))
}

/// A word behind the one before it.
pub fn word(value: u64) -> Item
    ensures { result ≡ g.word value }
{
    Item {
        at: None,
        word: number(value),
    }
}

/// A variable without a first value.
pub fn variable(alloc: Global, text: &[u8]) -> Result<VarDecl, Memory>
    requires { IsAscii text.now }
    ensures { IfOk result (λ variable. variable ≡ g.variable text.now) }
{
    let name = name(alloc, text)?;
    Ok(VarDecl { name, first: None })
}

pub fn statement(kind: StmtKind) -> Stmt
    ensures { result ≡ g.statement kind }
{
    Stmt { at: 0, kind }
}
