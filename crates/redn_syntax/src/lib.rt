//! The source language's text: its tokens, its trees, and the one canonical text of a tree.
#![tactic(auto)]

mod print;
mod text;
mod token;
mod tree;

pub use print::print_file;
pub use text::Text;
pub use token::{Token, TokenKind, Tokens};
pub use tree::{Chain, File, Item, Name, Num, Operand, Stmt, StmtKind, Table, VarDecl};
