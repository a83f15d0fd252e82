//! Reads the tokens of a text one after the other.

ghost use Rattle.std.specs.Prelude.{◌≡◌, ℕ, ◌<◌, ◌↔◌, Some, length, drop, IsTrue, IfOk, OnOk};
ghost use Rattle.redn_syntax.specs.Lexemes.{lexemes_of};
ghost use Rattle.redn_syntax.specs.Tokens.{Tokenizes};
ghost use Rattle.redn_syntax.specs.Grammar as g;
ghost use Rattle.redn_syntax.specs.Grammar.{SamePlace};

use redn_syntax::{Name, Num, Text, Token, TokenKind, Tokens};
use sqlite_items::at;
use std::alloc::Global;
use std::marker::Model;

/// Why a phrase isn't read. The token that isn't expected is the one at which the reader stands.
#[derive(Clone, Copy, Debug)]
pub enum Stop {
    Unexpected,
    /// A 65th nested block opens at this byte.
    Deep(u32),
    Memory,
}

/// The tokens of a text that are still to be read. Contracts see it as what they say.
#[derive(Debug, Drop)]
pub struct Reader<'a> {
    text: &'a [u8],
    rest: &'a [Token],
}

impl<'a> Model for Reader<'a> {
    ghost use Rattle.std.specs.Prelude.{List, All};
    ghost use Rattle.redn_syntax.specs.Lexemes.{Lexeme, lexemes_of};
    ghost use Rattle.redn_parse.specs.Lookahead.{IsTokenOf};

    ghost Value = { List Lexeme };

    ghost view = { λ r. lexemes_of r.text.now r.rest.now };

    ghost invariant = { λ r. All (IsTokenOf r.text.now) r.rest.now };
}

impl<'a> Reader<'a> {
    ghost use Rattle.redn_parse.specs.Lookahead.{kind_at, next_place, IsFixed};
    ghost use Rattle.redn_parse.specs.Reads.{Reads};

    pub fn new(tokens: &'a Tokens) -> Reader<'a>
        requires { Tokenizes tokens.now.text.items tokens.now.list.items }
        ensures { result ≡ lexemes_of tokens.now.text.items tokens.now.list.items }
    {
        Reader {
            text: tokens.text.as_slice(),
            rest: tokens.list.as_slice(),
        }
    }

    /// How many tokens are still to be read.
    pub fn left(&self) -> usize
        ensures { result ≡ length self.now }
    {
        self.rest.len()
    }

    /// The kind of the next token.
    pub fn kind(&self) -> Option<TokenKind>
        ensures { result ≡ kind_at 0 self.now }
    {
        let token = self.rest.first()?;
        Some(token.kind)
    }

    /// Whether the token behind this many others has this kind.
    pub fn is_ahead(&self, count: usize, kind: TokenKind) -> bool
        ensures { IsTrue result ↔ (kind_at count self.now ≡ Some kind) }
    {
        match at(self.rest, count) {
            Some(token) => token.kind == kind,
            None => false,
        }
    }

    /// Where the next token stands; 0 at the end.
    pub fn place(&self) -> u32
        ensures { result ≡ next_place self.now }
    {
        match self.rest.first() {
            Some(token) => token.at,
            None => 0,
        }
    }

    /// Goes past the next token.
    pub fn advance(&mut self)
        ensures { self.new ≡ drop 1 self.old }
    {
        if let Some((_first, rest)) = self.rest.split_first() {
            self.rest = rest;
        }
    }

    /// Reads this keyword or mark.
    pub fn mark(&mut self, kind: TokenKind) -> Result<(), Stop>
        requires { IsFixed kind }
        ensures reads { Reads (λ _. g.mark kind) self.old self.new result }
        ensures moves { OnOk result (length self.new < length self.old) }
    {
        if !self.is_ahead(0, kind) {
            return Err(Stop::Unexpected);
        }
        self.advance();
        Ok(())
    }

    pub fn name(&mut self, alloc: Global) -> Result<Name, Stop>
        ensures reads { Reads (g.name SamePlace) self.old self.new result }
        ensures moves { OnOk result (length self.new < length self.old) }
    {
        let Some(token) = self.rest.first() else {
            return Err(Stop::Unexpected);
        };
        if token.kind != TokenKind::Name {
            return Err(Stop::Unexpected);
        }
        let from = token.at as usize;
        let bytes = &self.text[from..from + token.len as usize];
        let text = Text::from_ascii(alloc, bytes).map_err(|_| Stop::Memory)?;
        let at = token.at;
        self.advance();
        Ok(Name { text, at })
    }

    pub fn number(&mut self) -> Result<Num, Stop>
        ensures reads { Reads (g.number SamePlace) self.old self.new result }
        ensures moves { OnOk result (length self.new < length self.old) }
    {
        let Some(token) = self.rest.first() else {
            return Err(Stop::Unexpected);
        };
        if token.kind != TokenKind::Number {
            return Err(Stop::Unexpected);
        }
        let number = Num {
            value: token.value,
            at: token.at,
        };
        self.advance();
        Ok(number)
    }
}
