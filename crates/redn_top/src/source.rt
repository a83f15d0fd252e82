//! From a source text to its tree and its program.

ghost use Rattle.std.specs.Prelude.{◌≡◌, ◌^◌, ◌<◌, ◌≤◌, ℕ, List, length, IfOk, IfErr};
ghost use Rattle.redn_syntax.specs.declared.tree.File.{File};
ghost use Rattle.redn_syntax.specs.declared.token.Token.{Token};
ghost use Rattle.redn_syntax.specs.Tokens.{Tokenizes};
ghost use Rattle.redn_kernel.specs.declared.types.Program.{Program};
ghost use Rattle.redn_kernel.specs.Program.{IsSound};
ghost use Rattle.redn_syntax.specs.Grammar.{IsWritable};
ghost use Rattle.redn_syntax.specs.Canonical.{canonical_text};
ghost use Rattle.redn_check.specs.Rules.{Accepts};
ghost use Rattle.redn_check.specs.Numbering.{program_of};
ghost use Rattle.redn_top.specs.Sources.{IsTextOf, Means, token_place};
ghost use Rattle.redn_top.specs.Refusals.{SourceRefused, TreeRefused, RulesRefused};

use crate::limits::MAX_FILE;
use crate::status::{Status, TextFault};
use redn_check::{CheckFault, check};
use redn_kernel::Program;
use redn_lex::{LexFault, lex};
use redn_parse::{ParseFault, parse};
use redn_syntax::{File, Tokens, print_file};
use std::alloc::Global;

/// Where a token stands, by its number, or the end of the text.
fn place_of(tokens: &Tokens, token: u64) -> u64
    ensures { result ≡ token_place tokens.now.text.items tokens.now.list.items token }
{
    match tokens.list.get(token as usize) {
        Some(found) => u64::from(found.at),
        None => tokens.text.len() as u64,
    }
}

/// The tokens of a text, or why it has none.
fn tokens_of(alloc: Global, text: &[u8]) -> Result<Tokens, Status>
    requires { length text.now ≤ MAX_FILE }
    ensures text { IfOk result (λ tokens. tokens.text.items ≡ text.now) }
    ensures tokens { IfOk result (λ tokens. Tokenizes text.now tokens.list.items) }
    ensures only { IfOk result (λ tokens. (others : List Token) → Tokenizes text.now others
        → tokens.list.items ≡ others) }
    ensures refused { IfErr result (TreeRefused text.now) }
{
    match lex(alloc, text) {
        Ok(tokens) => Ok(tokens),
        Err(LexFault::BadByte { at }) => Err(Status::Text(TextFault::Byte { at: u64::from(at) })),
        Err(LexFault::NumberTooWide { at }) => {
            Err(Status::Text(TextFault::Byte { at: u64::from(at) }))
        }
        Err(LexFault::Memory) => Err(Status::Memory),
    }
}

/// The tree of a text, in which no block is nested deeper than 64.
pub fn read_tree(alloc: Global, text: &[u8]) -> Result<File, Status>
    requires { length text.now ≤ MAX_FILE }
    ensures tree { IfOk result (IsTextOf text.now) }
    ensures writable { IfOk result IsWritable }
    ensures only { IfOk result (λ f. (g : File) → IsTextOf text.now g → f ≡ g) }
    ensures refused { IfErr result (TreeRefused text.now) }
{
    let tokens = tokens_of(alloc, text)?;
    match parse(alloc, &tokens) {
        Ok(f) => Ok(f),
        Err(ParseFault::Unexpected { token }) => Err(Status::Text(TextFault::Byte {
            at: place_of(&tokens, token),
        })),
        Err(ParseFault::Deep { at }) => Err(Status::Text(TextFault::Nesting { at: u64::from(at) })),
        Err(ParseFault::Memory) => Err(Status::Memory),
    }
}

/// The program of a tree, or the first fault of its rules.
pub fn resolve(alloc: Global, f: &File) -> Result<Program, Status>
    requires { IsWritable f.now }
    ensures accepted { IfOk result (λ p. Accepts f.now) }
    ensures program { IfOk result (λ p. p ≡ program_of f.now) }
    ensures sound { IfOk result IsSound }
    ensures refused { IfErr result (RulesRefused f.now) }
{
    match check(alloc, f) {
        Ok(p) => Ok(p),
        Err(CheckFault::Rule { rule, at, seen }) => Err(Status::Program { rule, at, seen }),
        Err(CheckFault::Memory) => Err(Status::Memory),
    }
}

/// The program of a source text.
pub fn read_program(alloc: Global, text: &[u8]) -> Result<Program, Status>
    requires { length text.now ≤ MAX_FILE }
    ensures means { IfOk result (Means text.now) }
    ensures sound { IfOk result IsSound }
    ensures only { IfOk result (λ p. (q : Program) → Means text.now q → p ≡ q) }
    ensures refused { IfErr result (SourceRefused text.now) }
{
    let f = read_tree(alloc, text)?;
    resolve(alloc, &f)
}

/// The canonical text of an accepted source file.
pub fn checked_text(alloc: Global, text: &[u8]) -> Result<Vec<u8>, Status>
    requires { length text.now ≤ MAX_FILE }
    ensures text { IfOk result (λ printed. (f : File) × IsTextOf text.now f × Accepts f
        × (printed.items ≡ canonical_text f)) }
    ensures refused { IfErr result (SourceRefused text.now) }
{
    let f = read_tree(alloc, text)?;
    resolve(alloc, &f)?;
    print_file(alloc, &f).map_err(|_| Status::Memory)
}
