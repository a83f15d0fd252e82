//! Whole files.

ghost use Rattle.std.specs.Prelude.{◌≡◌, ℕ, IfOk, IsErrOf};
ghost use Rattle.redn_syntax.specs.declared.tree.File.{File};
ghost use Rattle.redn_syntax.specs.Tokens.{Tokenizes};
ghost use Rattle.redn_syntax.specs.Grammar as g;
ghost use Rattle.redn_syntax.specs.Grammar.{SamePlace, HasTreeWithin, IsWritableWithin};
ghost use Rattle.redn_syntax.specs.Canonical.{canonical_text};
ghost use Rattle.redn_parse.specs.Reads as reading;
ghost use Rattle.redn_parse.specs.Reads.{ReadsAs};
ghost use Rattle.redn_parse.specs.Places.{IsSameAside};
ghost use Rattle.redn_parse.specs.Answers.{Gives, FailsWith, IsTooDeep, IsUnexpected};

use crate::chain::chains;
use crate::fault::ParseFault;
use crate::reader::{Reader, Stop};
use crate::table::tables;
use redn_syntax::{File, Tokens};
use std::alloc::Global;

fn file(reader: &mut Reader, alloc: Global) -> Result<File, Stop>
    ensures { ReadsAs (g.file_within SamePlace) reading.file g.nothing 64 0
        reader.old reader.new result }
{
    let tables = tables(reader, alloc)?;
    let chains = chains(reader, alloc)?;
    Ok(File { tables, chains })
}

/// The tree of the tokens of a text. It goes no deeper than 64 blocks into itself, and takes time
/// linear in the tokens. The token of `Unexpected` is the first with which no file goes on, or the
/// number of tokens where the end comes too early.
pub fn parse(alloc: Global, tokens: &Tokens) -> Result<File, ParseFault>
    requires { Tokenizes tokens.now.text.items tokens.now.list.items }

    ensures tree { IfOk result (HasTreeWithin 64 tokens.now.text.items tokens.now.list.items) }
    ensures writable { IfOk result (IsWritableWithin 64) }

    // A token isn't expected where the tokens have no tree, up to it they are viable and with it they
    // aren't, and before it no block opens too deep. A block is too deep where the first brace that
    // opens one stands and the tokens up to it are viable.
    ensures unexpected { (token : ℕ) → IsErrOf result (ParseFault.Unexpected token) →
        IsUnexpected tokens.now.text.items tokens.now.list.items token }
    ensures has_unexpected { (token : ℕ) →
        IsUnexpected tokens.now.text.items tokens.now.list.items token →
        FailsWith result (ParseFault.Unexpected token) }
    ensures deep { (at : ℕ) → IsErrOf result (ParseFault.Deep at) →
        IsTooDeep tokens.now.text.items tokens.now.list.items at }
    ensures has_deep { (at : ℕ) → IsTooDeep tokens.now.text.items tokens.now.list.items at →
        FailsWith result (ParseFault.Deep at) }

    // Unless memory runs out, tokens with a tree that isn't too deep have it as their answer.
    ensures has_tree { (f : File) → HasTreeWithin 64 tokens.now.text.items tokens.now.list.items f →
        Gives result (λ found. found ≡ f) }

    // The canonical text of a tree has that tree, places aside.
    ensures canonical { (f : File) → IsWritableWithin 64 f →
        tokens.now.text.items ≡ canonical_text f → Gives result (λ found. IsSameAside found f) }
{
    let mut reader = Reader::new(tokens);
    match file(&mut reader, alloc) {
        Ok(f) => Ok(f),
        Err(Stop::Unexpected) => {
            let read = tokens.list.len().saturating_sub(reader.left());
            Err(ParseFault::Unexpected { token: read as u64 })
        }
        Err(Stop::Deep(at)) => Err(ParseFault::Deep { at }),
        Err(Stop::Memory) => Err(ParseFault::Memory),
    }
}
