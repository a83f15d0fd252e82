ghost use Rattle.std.specs.Prelude.{◌≡◌};
ghost use Rattle.redn_syntax.specs.Tokens.{spelling};

/// The kinds of token: the keywords, the marks, names and numbers.
#[derive(Clone, Copy, Debug, PartialEq, Eq)]
pub enum TokenKind {
    Table,
    Ro,
    Rw,
    Chain,
    Arg,
    Var,
    If,
    Else,
    Loop,
    Repeat,
    Break,
    Lookup,
    Key,
    Probes,
    Walk,
    Nodes,
    Reply,
    Serve,
    OpenBrace,
    CloseBrace,
    OpenBracket,
    CloseBracket,
    Semicolon,
    Comma,
    Colon,
    Equals,
    PlusEquals,
    DoubleEquals,
    Tilde,
    Name,
    Number,
}

impl TokenKind {
    /// The bytes of a keyword or a mark. A name or a number has no one spelling, and gives none.
    pub fn spelling(self) -> &'static str
        ensures { result.now ≡ spelling self }
    {
        match self {
            TokenKind::Table => "table",
            TokenKind::Ro => "ro",
            TokenKind::Rw => "rw",
            TokenKind::Chain => "chain",
            TokenKind::Arg => "arg",
            TokenKind::Var => "var",
            TokenKind::If => "if",
            TokenKind::Else => "else",
            TokenKind::Loop => "loop",
            TokenKind::Repeat => "repeat",
            TokenKind::Break => "break",
            TokenKind::Lookup => "lookup",
            TokenKind::Key => "key",
            TokenKind::Probes => "probes",
            TokenKind::Walk => "walk",
            TokenKind::Nodes => "nodes",
            TokenKind::Reply => "reply",
            TokenKind::Serve => "serve",
            TokenKind::OpenBrace => "{",
            TokenKind::CloseBrace => "}",
            TokenKind::OpenBracket => "[",
            TokenKind::CloseBracket => "]",
            TokenKind::Semicolon => ";",
            TokenKind::Comma => ",",
            TokenKind::Colon => ":",
            TokenKind::Equals => "=",
            TokenKind::PlusEquals => "+=",
            TokenKind::DoubleEquals => "==",
            TokenKind::Tilde => "~",
            TokenKind::Name | TokenKind::Number => "",
        }
    }
}

/// A token: where it stands in its text, how many bytes it has, and the value of a number.
/// The value of any other token is 0.
#[derive(Clone, Copy, Debug, PartialEq, Eq)]
pub struct Token {
    pub kind: TokenKind,
    pub at: u32,
    pub len: u32,
    pub value: u64,
}

/// A text with its tokens, in order.
#[derive(Debug, Drop)]
pub struct Tokens {
    pub text: Vec<u8>,
    pub list: Vec<Token>,
}
