ghost use Rattle.std.specs.Prelude.{◌≡◌};
ghost use Rattle.redn_kernel.specs.CoreRun.{cell_of};

use sqlite_items::Items;

/// A variable of the chain, by its number, or a number.
#[derive(Clone, Copy, Debug, PartialEq, Eq)]
pub enum Word {
    Var(u16),
    Num(u64),
}

/// A statement. Variables are numbered within their chain, the arguments first, and tables
/// within the program. A word has 64 bits; offsets are in bytes.
#[derive(Debug, Drop)]
pub enum Kernel {
    /// `to = from`
    Move {
        to: u16,
        from: Word,
    },
    /// `to += by`, which wraps
    Add {
        to: u16,
        by: Word,
    },
    /// `to = table[offset]`
    Load {
        to: u16,
        table: u16,
        offset: Word,
    },
    /// `table[offset] = from`
    Store {
        table: u16,
        offset: Word,
        from: Word,
    },
    /// `wide` is true for `==`, which compares 64 bits, and false for `~`, which compares the
    /// low 48. A missing `else` is an empty block.
    If {
        wide: bool,
        left: Word,
        right: Word,
        yes: Items<Kernel>,
        no: Items<Kernel>,
    },
    Loop {
        body: Items<Kernel>,
    },
    Repeat {
        count: u32,
        body: Items<Kernel>,
    },
    /// Leaves the innermost `Loop` or `Repeat`.
    Break,
    /// Looks for `key` in up to `probes` buckets of 16 bytes, each a key and a value.
    Lookup {
        to: u16,
        table: u16,
        offset: Word,
        key: Word,
        probes: u8,
    },
    /// Looks for `key` in up to `nodes` nodes of 24 bytes, each a key, a value and the offset of
    /// the next node, which is 0 at the last.
    Walk {
        to: u16,
        table: u16,
        offset: Word,
        key: Word,
        nodes: u16,
    },
    /// Sends up to eight words, and ends the chain.
    Reply {
        words: Items<Word>,
    },
}

/// A table's bytes at the start, and whether chains may store into it.
#[derive(Debug, Drop)]
pub struct TableInit {
    pub bytes: Items<u8>,
    pub writable: bool,
}

/// A chain: how many messages it serves, how many of its variables are arguments, each variable's
/// first value, and what it does.
#[derive(Debug, Drop)]
pub struct ChainInit {
    pub serve: u16,
    pub args: u16,
    pub vars: Items<u64>,
    pub body: Items<Kernel>,
}

/// Tables and chains, which are numbered from 0.
#[derive(Debug, Drop)]
pub struct Program {
    pub tables: Items<TableInit>,
    pub chains: Items<ChainInit>,
}

/// A word that a chain's code can read: a variable, a hidden word of the chain's own, an argument
/// of its message, or a number.
#[derive(Clone, Copy, Debug, PartialEq, Eq)]
pub enum Cell {
    Var(u16),
    Hidden(u16),
    Argument(u16),
    Num(u64),
}

/// The cell that holds a word of the source.
pub fn cell_for(word: Word) -> Cell
    ensures { result ≡ cell_of word }
{
    match word {
        Word::Var(x) => Cell::Var(x),
        Word::Num(n) => Cell::Num(n),
    }
}

/// A smaller statement, over variables and hidden words: what a search becomes. A target is a
/// variable or a hidden word.
#[derive(Debug, Drop)]
pub enum Core {
    Move {
        to: Cell,
        from: Cell,
    },
    /// Wraps.
    Add {
        to: Cell,
        by: Cell,
    },
    Load {
        to: Cell,
        table: u16,
        offset: Cell,
    },
    /// `wide` is true where 64 bits are compared, and false where the low 48 are.
    If {
        wide: bool,
        left: Cell,
        right: Cell,
        yes: Items<Core>,
        no: Items<Core>,
    },
    Loop {
        body: Items<Core>,
    },
    /// Leaves the innermost `Loop`.
    Leave,
    /// Looks at the word at `offset`. Where its low 48 bits are the key's, the word behind it goes
    /// to `to`, and `hit` is done; else `miss` is.
    Probe {
        to: Cell,
        table: u16,
        offset: Cell,
        key: Cell,
        hit: Items<Core>,
        miss: Items<Core>,
    },
}
