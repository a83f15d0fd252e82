use crate::text::Text;
use sqlite_items::Items;

/// A name, and the place of its first byte.
#[derive(Debug, Drop)]
pub struct Name {
    pub text: Text,
    pub at: u32,
}

/// A number, and the place of its first byte.
#[derive(Clone, Copy, Debug, PartialEq, Eq)]
pub struct Num {
    pub value: u64,
    pub at: u32,
}

/// A variable or a number.
#[derive(Debug, Drop)]
pub enum Operand {
    Name(Name),
    Num(Num),
}

/// A source file.
#[derive(Debug, Drop)]
pub struct File {
    pub tables: Items<Table>,
    pub chains: Items<Chain>,
}

/// A table of bytes. Its length is in bytes, and what no item names is 0.
#[derive(Debug, Drop)]
pub struct Table {
    pub name: Name,
    pub length: Num,
    /// `rw`, where it isn't `ro`.
    pub writable: bool,
    pub items: Items<Item>,
}

/// A word of a table, and its offset where one is written. An item without an offset stands
/// 8 bytes after the item before it, the first at 0.
#[derive(Clone, Copy, Debug, PartialEq, Eq)]
pub struct Item {
    pub at: Option<Num>,
    pub word: Num,
}

/// A chain, and how many messages it serves, which is 1 where none is written. `close` is the place of
/// its closing brace.
#[derive(Debug, Drop)]
pub struct Chain {
    pub name: Name,
    pub serve: Option<Num>,
    pub args: Items<Name>,
    pub vars: Items<VarDecl>,
    pub body: Items<Stmt>,
    pub close: u32,
}

/// A variable, and its first value, which is 0 where none is written.
#[derive(Debug, Drop)]
pub struct VarDecl {
    pub name: Name,
    pub first: Option<Num>,
}

/// A statement, and the place of its first byte.
#[cycle(statement)]
#[derive(Debug, Drop)]
pub struct Stmt {
    pub at: u32,
    pub kind: StmtKind,
}

/// What a statement is.
#[cycle(statement)]
#[derive(Debug, Drop)]
pub enum StmtKind {
    Move {
        to: Name,
        from: Operand,
    },
    Add {
        to: Name,
        by: Operand,
    },
    Load {
        to: Name,
        table: Name,
        offset: Operand,
    },
    Store {
        table: Name,
        offset: Operand,
        from: Operand,
    },
    /// `wide` is true for `==`, which compares 64 bits, and false for `~`, which compares 48.
    /// A missing `else` is an empty block.
    If {
        wide: bool,
        left: Operand,
        right: Operand,
        yes: Items<Stmt>,
        no: Items<Stmt>,
    },
    Loop {
        body: Items<Stmt>,
    },
    Repeat {
        count: Num,
        body: Items<Stmt>,
    },
    Break,
    Lookup {
        to: Name,
        table: Name,
        offset: Operand,
        key: Operand,
        probes: Num,
    },
    Walk {
        to: Name,
        table: Name,
        offset: Operand,
        key: Operand,
        nodes: Num,
    },
    Reply {
        words: Items<Operand>,
    },
}
