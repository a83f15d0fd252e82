//! What a chain still has to do.

ghost use Rattle.std.specs.Prelude.{◌≡◌, ◌+◌, ◌-◌, ◌++◌, ◌<◌, ℕ, List, Option, IfSome};
ghost use Rattle.redn_kernel.specs.Source.{Item, wrapped, found_or, visited, left, here};
ghost use Rattle.redn_source.specs.Tasks.{is_again, next_items, IsUsableSearch, IsUsableNext};

use redn_kernel::{Kernel, Word};

/// A search for a key in a table, and how many keys may still be looked at. Its offset is in bytes.
#[derive(Clone, Copy, Debug)]
pub struct Search {
    pub to: u16,
    pub table: u16,
    pub offset: u64,
    pub key: Word,
    pub left: u16,
}

impl Search {
    /// The search at another offset.
    pub fn at(self, offset: u64) -> Search
        ensures { result ≡ record self { offset = offset } }
    {
        Search { offset, ..self }
    }

    /// The search with one key less to look at.
    pub fn less(self) -> Search
        ensures { result ≡ record self { left = self.left - 1 } }
    {
        Search {
            left: self.left.saturating_sub(1),
            ..self
        }
    }
}

/// One thing, or some statements, that a chain has to do. The statements lie in the program.
#[derive(Clone, Copy, Debug)]
pub enum Task<'a> {
    /// The argument of this number is taken out of the message.
    Argument(u16),
    /// At least one statement.
    Statements(&'a [Kernel]),
    AgainLoop(&'a [Kernel]),
    /// The body is done so many times more.
    AgainRepeat { count: u32, body: &'a [Kernel] },
    /// The key of a bucket is looked at.
    Find(Search),
    /// A value was found.
    Take { to: u16, table: u16, offset: u64 },
    /// The key of a node is looked at.
    Visit(Search),
    /// It was another key.
    Left(Search),
    /// The offset of the next node is looked at.
    Next(Search),
    /// The next node stands here.
    Here(Search),
}

impl Task<'_> {
    /// Whether it does a body again.
    pub fn is_again(&self) -> bool
        ensures { result ≡ is_again self.now }
    {
        match self {
            Task::AgainLoop(_) | Task::AgainRepeat { .. } => true,
            _ => false,
        }
    }
}

/// What follows a look at a bucket, by whether its key is the one looked for.
pub fn after_bucket<'a>(search: Search, met: bool) -> Option<Task<'a>>
    ensures items { (rest : List Item) → found_or met search.to search.table search.offset
        search.key search.left rest ≡ next_items result ++ rest }
    ensures usable { (vars : ℕ) (words : Option (List ℕ)) → IsUsableSearch vars search
        → IfSome result (IsUsableNext vars words) }
{
    if met {
        Some(value_behind(search))
    } else if search.left == 1 {
        None
    } else {
        let next = search.at(search.offset.wrapping_add(16));
        Some(Task::Find(next.less()))
    }
}

/// What follows a look at a node's key.
pub fn after_node<'a>(search: Search, met: bool) -> Option<Task<'a>>
    ensures items { (rest : List Item) → visited met search.to search.table search.offset search.key
        search.left rest ≡ next_items result ++ rest }
    ensures usable { (vars : ℕ) (words : Option (List ℕ)) → IsUsableSearch vars search
        → IfSome result (IsUsableNext vars words) }
{
    if met {
        Some(value_behind(search))
    } else {
        Some(Task::Left(search.less()))
    }
}

/// The value behind a key.
fn value_behind<'a>(search: Search) -> Task<'a>
    ensures { result ≡ Task.Take search.to search.table (wrapped (search.offset + 8)) }
{
    Task::Take {
        to: search.to,
        table: search.table,
        offset: search.offset.wrapping_add(8),
    }
}

/// What follows a node with another key.
pub fn after_other<'a>(search: Search) -> Option<Task<'a>>
    ensures items { (rest : List Item) → left search.to search.table search.offset search.key
        search.left rest ≡ next_items result ++ rest }
    ensures usable { (vars : ℕ) (words : Option (List ℕ)) → IsUsableSearch vars search
        → IfSome result (IsUsableNext vars words) }
{
    if search.left == 0 {
        None
    } else {
        let next = search.at(search.offset.wrapping_add(16));
        Some(Task::Next(next))
    }
}

/// What follows the offset of the next node, where 0 ends the list.
pub fn after_offset<'a>(search: Search) -> Option<Task<'a>>
    ensures items { (rest : List Item) → here search.to search.table search.offset search.key
        search.left rest ≡ next_items result ++ rest }
    ensures usable { (vars : ℕ) (words : Option (List ℕ)) → IsUsableSearch vars search
        → IfSome result (IsUsableNext vars words) }
{
    if search.offset == 0 {
        None
    } else {
        Some(Task::Visit(search))
    }
}
