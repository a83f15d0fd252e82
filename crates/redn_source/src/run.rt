//! One chain's state, and what a step of it does.

ghost use Rattle.std.specs.Prelude.{◌≡◌, ◌+◌, ◌*◌, ◌<◌, ◌≤◌, ℕ, List, [], ◌∷◌, ◌++◌, length, map, slice_index, slice_set, if◌then◌else◌, true, false, MatchOption, IfSome, Option};
ghost use Rattle.std.specs.List.{All};
ghost use Rattle.std.specs.Bool.{MatchBool};
ghost use Rattle.std.specs.VecDeque.{deque_capacity};
ghost use Rattle.redn_words.specs.declared.types.Obs.TheVariants as shows;
ghost use Rattle.redn_kernel.specs.declared.types.Kernel.{out-Kernel};
ghost use Rattle.redn_kernel.specs.Program.{AllUsable, IsNamed, IsUsable, weight_of};
ghost use Rattle.redn_kernel.specs.Source as source;
ghost use Rattle.redn_kernel.specs.Source.{wrapped, value_of, argument_of, has_word, word_in, with_word_in, do_all, again, repeated, past_again, statement_does, first_does, sets, loads, stores, looks, silent, ends, replies, found_or, visited, same_low, eight, Do, take_arguments};
ghost use Rattle.redn_source.specs.Tasks.{all_items, next_items, IsUsableSearch, IsUsableNext, IsUsableTask, items_of, need, places, first_need, IsLeft};
ghost use Rattle.redn_source.specs.RunView.{run_view, words_of, behind, turn, IsRun, HasRoom};

use crate::task::{Search, Task, after_bucket, after_node, after_offset, after_other};
use redn_kernel::{Kernel, Word};
use redn_words::{Obs, low48, put_word, word_at};
use std::collections::VecDeque;

/// A chain's variables, the words of its message, and what it has to do, the first thing first.
#[derive(Debug, Drop)]
pub struct Run<'a> {
    pub vars: Vec<u64>,
    pub message: Option<Vec<u64>>,
    pub tasks: VecDeque<Task<'a>>,
    pub ended: bool,
}

/// The word at an offset of a table, or none where no whole word lies there.
fn read_word(tables: &[Vec<u8>], table: u16, offset: u64) -> Option<u64>
    ensures { let all = map (λ v. v.items) tables.now in
        MatchOption result (has_word all table offset ≡ false)
        (λ word. (has_word all table offset ≡ true) × (word ≡ word_in all table offset)) }
{
    let bytes = tables.get(table as usize)?;
    word_at(bytes, offset)
}

/// Writes a word into a table, or answers false where no whole word lies there.
fn write_word(tables: &mut [Vec<u8>], table: u16, offset: u64, word: u64) -> bool
    ensures { let all = map (λ v. v.items) tables.old in
        let after = map (λ v. v.items) tables.new in
        MatchBool result
        ((has_word all table offset ≡ true) × (after ≡ with_word_in all table offset word))
        ((has_word all table offset ≡ false) × (after ≡ all)) }
{
    let table = table as usize;
    if table < tables.len() {
        put_word(&mut tables[table], offset, word)
    } else {
        false
    }
}

/// Whether two words are equal: in all bits, or in the low 48.
fn same(wide: bool, left: u64, right: u64) -> bool
    ensures { result ≡ source.same wide left right }
{
    if wide {
        left == right
    } else {
        low48(left) == low48(right)
    }
}

fn looked(chain: u16, search: Search, word: u64) -> Obs
    ensures { result ≡ shows.Look chain search.table search.offset word }
{
    Obs::Look {
        chain,
        table: search.table,
        offset: search.offset,
        word,
    }
}

/// All goes up to the first task that is done again, and with it.
fn pop_past_again(tasks: &mut VecDeque<Task<'_>>)
    ensures left { IsLeft tasks.old.items tasks.new.items }
    ensures items { all_items tasks.new.items ≡ past_again (all_items tasks.old.items) }
    ensures capacity { deque_capacity tasks.new ≡ deque_capacity tasks.old }
{
    while let Some(task) = tasks.pop_front() {
        if task.is_again() {
            break;
        }
    }
}

impl<'a> Run<'a> {
    /// Does the first thing, and tells what it shows.
    pub fn step(&mut self, chain: u16, tables: &mut [Vec<u8>]) -> Obs
        requires kept { IsRun self.old }
        ensures keeps { IsRun self.new }
        ensures turn { turn (map (λ v. v.items) tables.new) self.new result
            ≡ first_does chain (map (λ v. v.items) tables.old) (run_view self.old)
            (all_items self.old.tasks.items) }
    {
        let Some(first) = self.tasks.front() else {
            return Obs::Nothing;
        };
        match *first {
            Task::Argument(i) => {
                let word = self.argument(i);
                self.assign(chain, i, word)
            }
            Task::Statements(body) => self.do_statement(chain, &body[0], tables),
            Task::AgainLoop(body) => self.loop_again(body),
            Task::AgainRepeat { count, body } => self.repeat_again(count, body),
            Task::Find(search) => self.find(chain, search, tables),
            Task::Take { to, table, offset } => self.load(chain, to, table, offset, tables),
            Task::Visit(search) => self.visit(chain, search, tables),
            Task::Left(search) => self.replace(after_other(search)),
            Task::Next(search) => self.next_node(chain, search, tables),
            Task::Here(search) => self.replace(after_offset(search)),
        }
    }

    fn do_statement(&mut self, chain: u16, statement: &'a Kernel, tables: &mut [Vec<u8>]) -> Obs
        requires kept { IsRun self.old }
        requires usable { IsUsable (length self.old.vars.items) statement.now }
        requires first { all_items self.old.tasks.items ≡ Do statement.now ∷ behind self.old }
        requires room { first_need self.old.tasks.items ≡ 2 * weight_of statement.now }
        ensures keeps { IsRun self.new }
        ensures turn { turn (map (λ v. v.items) tables.new) self.new result
            ≡ statement_does chain (map (λ v. v.items) tables.old) (run_view self.old)
            (out-Kernel statement.now) (behind self.old) }
    {
        match statement {
            Kernel::Move { to, from } => self.do_move(chain, *to, *from),
            Kernel::Add { to, by } => self.do_add(chain, *to, *by),
            Kernel::Load { to, table, offset } => {
                self.load(chain, *to, *table, self.value(*offset), tables)
            }
            Kernel::Store {
                table,
                offset,
                from,
            } => self.do_store(chain, *table, *offset, *from, tables),
            Kernel::If {
                wide,
                left,
                right,
                yes,
                no,
            } => {
                let met = self.holds(*wide, *left, *right);
                self.choose(met, yes.as_slice(), no.as_slice())
            }
            Kernel::Loop { body } => self.loop_again(body.as_slice()),
            Kernel::Repeat { count, body } => self.repeat_again(*count, body.as_slice()),
            Kernel::Break => self.leave_loop(),
            Kernel::Lookup {
                to,
                table,
                offset,
                key,
                probes,
            } => self.begin_lookup(*to, *table, *offset, *key, *probes),
            Kernel::Walk {
                to,
                table,
                offset,
                key,
                nodes,
            } => self.begin_walk(*to, *table, *offset, *key, *nodes),
            Kernel::Reply { words } => self.reply(chain, words.as_slice()),
        }
    }

    fn do_move(&mut self, chain: u16, to: u16, from: Word) -> Obs
        requires kept { IsRun self.old }
        requires there { to < length self.old.vars.items }
        requires named { IsNamed (length self.old.vars.items) from }
        ensures keeps { IsRun self.new }
        ensures turn { (tables : List (List ℕ)) → turn tables self.new result
            ≡ sets chain tables (run_view self.old) to (value_of self.old.vars.items from)
            (behind self.old) }
    {
        let word = self.value(from);
        self.assign(chain, to, word)
    }

    fn do_add(&mut self, chain: u16, to: u16, by: Word) -> Obs
        requires kept { IsRun self.old }
        requires there { to < length self.old.vars.items }
        requires named { IsNamed (length self.old.vars.items) by }
        ensures keeps { IsRun self.new }
        ensures turn { let vars = self.old.vars.items in
            (tables : List (List ℕ)) → turn tables self.new result
            ≡ sets chain tables (run_view self.old) to
            (wrapped (slice_index vars to + value_of vars by)) (behind self.old) }
    {
        let word = self.vars[to as usize].wrapping_add(self.value(by));
        self.assign(chain, to, word)
    }

    fn do_store(
        &mut self,
        chain: u16,
        table: u16,
        offset: Word,
        from: Word,
        tables: &mut [Vec<u8>],
    ) -> Obs
        requires kept { IsRun self.old }
        requires place { IsNamed (length self.old.vars.items) offset }
        requires named { IsNamed (length self.old.vars.items) from }
        ensures keeps { IsRun self.new }
        ensures turn { let vars = self.old.vars.items in
            turn (map (λ v. v.items) tables.new) self.new result
            ≡ stores chain (map (λ v. v.items) tables.old) (run_view self.old) table
            (value_of vars offset) (value_of vars from) (behind self.old) }
    {
        let (offset, word) = (self.value(offset), self.value(from));
        self.store(chain, table, offset, word, tables)
    }

    /// Whether a test holds.
    fn holds(&self, wide: bool, left: Word, right: Word) -> bool
        requires left { IsNamed (length self.now.vars.items) left }
        requires right { IsNamed (length self.now.vars.items) right }
        ensures { let vars = self.now.vars.items in
            result ≡ source.same wide (value_of vars left) (value_of vars right) }
    {
        same(wide, self.value(left), self.value(right))
    }

    /// One of two blocks is done.
    fn choose(&mut self, met: bool, yes: &'a [Kernel], no: &'a [Kernel]) -> Obs
        requires kept { IsRun self.old }
        requires yes_room { 1 + places yes.now ≤ first_need self.old.tasks.items }
        requires no_room { 1 + places no.now ≤ first_need self.old.tasks.items }
        requires yes_usable { AllUsable (length self.old.vars.items) yes.now }
        requires no_usable { AllUsable (length self.old.vars.items) no.now }
        ensures keeps { IsRun self.new }
        ensures turn { (tables : List (List ℕ)) (chain : ℕ) → turn tables self.new result
            ≡ silent chain tables (run_view self.old)
            (do_all (if met then yes.now else no.now) ++ behind self.old) }
    {
        if met {
            self.branch(yes)
        } else {
            self.branch(no)
        }
    }

    fn begin_lookup(&mut self, to: u16, table: u16, offset: Word, key: Word, probes: u8) -> Obs
        requires kept { IsRun self.old }
        requires room { 1 ≤ first_need self.old.tasks.items }
        requires there { to < length self.old.vars.items }
        requires place { IsNamed (length self.old.vars.items) offset }
        requires key { IsNamed (length self.old.vars.items) key }
        ensures keeps { IsRun self.new }
        ensures turn { let start = value_of self.old.vars.items offset in
            (tables : List (List ℕ)) (chain : ℕ) → turn tables self.new result
            ≡ silent chain tables (run_view self.old)
            (source.Find to table start key probes ∷ behind self.old) }
    {
        let search = Search {
            to,
            table,
            offset: self.value(offset),
            key,
            left: probes as u16,
        };
        self.replace(Some(Task::Find(search)))
    }

    fn begin_walk(&mut self, to: u16, table: u16, offset: Word, key: Word, nodes: u16) -> Obs
        requires kept { IsRun self.old }
        requires room { 1 ≤ first_need self.old.tasks.items }
        requires there { to < length self.old.vars.items }
        requires place { IsNamed (length self.old.vars.items) offset }
        requires key { IsNamed (length self.old.vars.items) key }
        ensures keeps { IsRun self.new }
        ensures turn { let start = value_of self.old.vars.items offset in
            (tables : List (List ℕ)) (chain : ℕ) → turn tables self.new result
            ≡ silent chain tables (run_view self.old)
            (source.Visit to table start key nodes ∷ behind self.old) }
    {
        let search = Search {
            to,
            table,
            offset: self.value(offset),
            key,
            left: nodes,
        };
        self.replace(Some(Task::Visit(search)))
    }

    fn value(&self, word: Word) -> u64
        requires { IsNamed (length self.now.vars.items) word }
        ensures { result ≡ value_of self.now.vars.items word }
    {
        match word {
            Word::Var(x) => self.vars[x as usize],
            Word::Num(n) => n,
        }
    }

    /// The word of an argument in the message.
    fn argument(&self, i: u16) -> u64
        requires { IfSome (words_of self.now) (λ words. i < length words) }
        ensures { result ≡ argument_of (words_of self.now) i }
    {
        match &self.message {
            Some(words) => words[i as usize],
            None => 0,
        }
    }

    /// A task is to be done first.
    fn put(&mut self, task: Task<'a>)
        requires kept { IsRun self.old }
        requires room { HasRoom self.old (1 + need task) }
        requires usable { IsUsableTask (length self.old.vars.items) (words_of self.old) task }
        ensures keeps { IsRun self.new }
        ensures items { run_view self.new
            ≡ record (run_view self.old)
            { items = items_of task.entry ++ all_items self.old.tasks.items } }
        ensures one { length self.new.tasks.items ≡ length self.old.tasks.items + 1 }
        ensures capacity { deque_capacity self.new.tasks ≡ deque_capacity self.old.tasks }
    {
        self.tasks.push_front_reserved(task);
    }

    /// Some statements are to be done first, if there are any.
    pub fn put_statements(&mut self, body: &'a [Kernel])
        requires kept { IsRun self.old }
        requires room { HasRoom self.old (1 + places body.now) }
        requires usable { AllUsable (length self.old.vars.items) body.now }
        ensures keeps { IsRun self.new }
        ensures items { run_view self.new
            ≡ record (run_view self.old)
            { items = do_all body.now ++ all_items self.old.tasks.items } }
        ensures few { length self.new.tasks.items ≤ length self.old.tasks.items + 1 }
        ensures capacity { deque_capacity self.new.tasks ≡ deque_capacity self.old.tasks }
    {
        if !body.is_empty() {
            self.put(Task::Statements(body));
        }
    }

    /// So many arguments are to be taken first, in order.
    pub fn put_arguments(&mut self, count: u16)
        requires kept { IsRun self.old }
        requires room { HasRoom self.old count }
        requires there { count ≤ length self.old.vars.items }
        requires message { IfSome (words_of self.old) (λ words. count ≤ length words) }
        ensures keeps { IsRun self.new }
        ensures items { run_view self.new ≡ record (run_view self.old)
            { items = take_arguments 0 count ++ all_items self.old.tasks.items } }
    {
        for i in (0..count).rev() {
            self.put(Task::Argument(i));
        }
    }

    /// The first thing to do goes.
    fn advance(&mut self)
        requires kept { IsRun self.old }
        ensures keeps { IsRun self.new }
        ensures items { run_view self.new ≡ record (run_view self.old) { items = behind self.old } }
        ensures room { HasRoom self.new (first_need self.old.tasks.items) }
    {
        let Some(first) = self.tasks.pop_front() else {
            return;
        };
        if let Task::Statements(body) = first {
            self.put_statements(&body[1..]);
        }
    }

    /// The first thing to do goes, and another one, or none, takes its place.
    fn replace(&mut self, next: Option<Task<'a>>) -> Obs
        requires kept { IsRun self.old }
        requires room { 1 ≤ first_need self.old.tasks.items }
        requires usable { let vars = length self.old.vars.items in
            IfSome next (IsUsableNext vars (words_of self.old)) }
        ensures keeps { IsRun self.new }
        ensures items { run_view self.new
            ≡ record (run_view self.old) { items = next_items next.entry ++ behind self.old } }
        ensures silent { result ≡ shows.Nothing }
    {
        self.advance();
        if let Some(task) = next {
            self.put(task);
        }
        Obs::Nothing
    }

    /// A variable gets a value by the first thing to do.
    fn set(&mut self, to: u16, word: u64)
        requires kept { IsRun self.old }
        requires there { to < length self.old.vars.items }
        ensures keeps { IsRun self.new }
        ensures set { run_view self.new ≡ record (run_view self.old)
            { vars = slice_set self.old.vars.items to word; items = behind self.old } }
    {
        self.advance();
        self.vars[to as usize] = word;
    }

    fn assign(&mut self, chain: u16, to: u16, word: u64) -> Obs
        requires kept { IsRun self.old }
        requires there { to < length self.old.vars.items }
        ensures keeps { IsRun self.new }
        ensures turn { (tables : List (List ℕ)) → turn tables self.new result
            ≡ sets chain tables (run_view self.old) to word (behind self.old) }
    {
        self.set(to, word);
        Obs::Set {
            chain,
            var: to as u32,
            word,
        }
    }

    fn fault(&mut self, chain: u16, table: u16, offset: u64) -> Obs
        requires kept { IsRun self.old }
        ensures keeps { IsRun self.new }
        ensures turn { (tables : List (List ℕ)) → turn tables self.new result
            ≡ ends chain tables (run_view self.old) (shows.Fault chain table offset) }
    {
        self.ended = true;
        Obs::Fault {
            chain,
            table,
            offset,
        }
    }

    fn load(&mut self, chain: u16, to: u16, table: u16, offset: u64, tables: &[Vec<u8>]) -> Obs
        requires kept { IsRun self.old }
        requires there { to < length self.old.vars.items }
        ensures keeps { IsRun self.new }
        ensures turn { let all = map (λ v. v.items) tables.now in turn all self.new result
            ≡ loads chain all (run_view self.old) to table offset (behind self.old) }
    {
        let Some(word) = read_word(tables, table, offset) else {
            return self.fault(chain, table, offset);
        };
        self.set(to, word);
        Obs::Load {
            chain,
            var: to as u32,
            table,
            offset,
            word,
        }
    }

    fn store(
        &mut self,
        chain: u16,
        table: u16,
        offset: u64,
        word: u64,
        tables: &mut [Vec<u8>],
    ) -> Obs
        requires kept { IsRun self.old }
        ensures keeps { IsRun self.new }
        ensures turn { turn (map (λ v. v.items) tables.new) self.new result
            ≡ stores chain (map (λ v. v.items) tables.old) (run_view self.old) table offset word
            (behind self.old) }
    {
        if !write_word(tables, table, offset, word) {
            return self.fault(chain, table, offset);
        }
        self.advance();
        Obs::Store {
            chain,
            table,
            offset,
            word,
        }
    }

    fn branch(&mut self, body: &'a [Kernel]) -> Obs
        requires kept { IsRun self.old }
        requires room { 1 + places body.now ≤ first_need self.old.tasks.items }
        requires usable { AllUsable (length self.old.vars.items) body.now }
        ensures keeps { IsRun self.new }
        ensures turn { (tables : List (List ℕ)) (chain : ℕ) → turn tables self.new result
            ≡ silent chain tables (run_view self.old) (do_all body.now ++ behind self.old) }
    {
        self.advance();
        self.put_statements(body);
        Obs::Nothing
    }

    fn loop_again(&mut self, body: &'a [Kernel]) -> Obs
        requires kept { IsRun self.old }
        requires room { 2 + places body.now ≤ first_need self.old.tasks.items }
        requires usable { AllUsable (length self.old.vars.items) body.now }
        ensures keeps { IsRun self.new }
        ensures turn { (tables : List (List ℕ)) (chain : ℕ) → turn tables self.new result
            ≡ silent chain tables (run_view self.old) (again body.now (behind self.old)) }
    {
        self.advance();
        self.put(Task::AgainLoop(body));
        self.put_statements(body);
        Obs::Nothing
    }

    fn repeat_again(&mut self, count: u32, body: &'a [Kernel]) -> Obs
        requires kept { IsRun self.old }
        requires room { 2 + places body.now ≤ first_need self.old.tasks.items }
        requires usable { AllUsable (length self.old.vars.items) body.now }
        ensures keeps { IsRun self.new }
        ensures turn { (tables : List (List ℕ)) (chain : ℕ) → turn tables self.new result
            ≡ silent chain tables (run_view self.old) (repeated count body.now (behind self.old)) }
    {
        self.advance();
        if count > 0 {
            let count = count - 1;
            self.put(Task::AgainRepeat { count, body });
            self.put_statements(body);
        }
        Obs::Nothing
    }

    fn leave_loop(&mut self) -> Obs
        requires kept { IsRun self.old }
        ensures keeps { IsRun self.new }
        ensures turn { (tables : List (List ℕ)) (chain : ℕ) → turn tables self.new result
            ≡ silent chain tables (run_view self.old)
            (past_again (all_items self.old.tasks.items)) }
    {
        pop_past_again(&mut self.tasks);
        Obs::Nothing
    }

    fn find(&mut self, chain: u16, search: Search, tables: &[Vec<u8>]) -> Obs
        requires kept { IsRun self.old }
        requires room { 1 ≤ first_need self.old.tasks.items }
        requires usable { IsUsableSearch (length self.old.vars.items) search }
        ensures keeps { IsRun self.new }
        ensures turn { let all = map (λ v. v.items) tables.now in
            let key = value_of self.old.vars.items search.key in turn all self.new result
            ≡ looks chain all (run_view self.old) search.table search.offset
            (λ word. found_or (same_low word key) search.to search.table search.offset search.key
            search.left (behind self.old)) }
    {
        let (table, offset) = (search.table, search.offset);
        let Some(word) = read_word(tables, table, offset) else {
            return self.fault(chain, table, offset);
        };
        let met = same(false, word, self.value(search.key));
        self.replace(after_bucket(search, met));
        looked(chain, search, word)
    }

    fn visit(&mut self, chain: u16, search: Search, tables: &[Vec<u8>]) -> Obs
        requires kept { IsRun self.old }
        requires room { 1 ≤ first_need self.old.tasks.items }
        requires usable { IsUsableSearch (length self.old.vars.items) search }
        ensures keeps { IsRun self.new }
        ensures turn { let all = map (λ v. v.items) tables.now in
            let key = value_of self.old.vars.items search.key in turn all self.new result
            ≡ looks chain all (run_view self.old) search.table search.offset
            (λ word. visited (same_low word key) search.to search.table search.offset search.key
            search.left (behind self.old)) }
    {
        let (table, offset) = (search.table, search.offset);
        let Some(word) = read_word(tables, table, offset) else {
            return self.fault(chain, table, offset);
        };
        let met = same(false, word, self.value(search.key));
        self.replace(after_node(search, met));
        looked(chain, search, word)
    }

    fn next_node(&mut self, chain: u16, search: Search, tables: &[Vec<u8>]) -> Obs
        requires kept { IsRun self.old }
        requires room { 1 ≤ first_need self.old.tasks.items }
        requires usable { IsUsableSearch (length self.old.vars.items) search }
        ensures keeps { IsRun self.new }
        ensures turn { let all = map (λ v. v.items) tables.now in turn all self.new result
            ≡ looks chain all (run_view self.old) search.table search.offset
            (λ word. source.Here search.to search.table word search.key search.left
            ∷ behind self.old) }
    {
        let (table, offset) = (search.table, search.offset);
        let Some(word) = read_word(tables, table, offset) else {
            return self.fault(chain, table, offset);
        };
        self.replace(Some(Task::Here(search.at(word))));
        looked(chain, search, word)
    }

    /// The values of up to eight words, and 0 past them.
    fn eight_values(&self, list: &[Word]) -> [u64; 8]
        requires few { length list.now ≤ 8 }
        requires named { All (IsNamed (length self.now.vars.items)) list.now }
        ensures { result ≡ eight (map (value_of self.now.vars.items) list.now) }
    {
        let mut words = [0; 8];
        for (i, word) in list.iter().enumerate() {
            words[i] = self.value(*word);
        }
        words
    }

    fn reply(&mut self, chain: u16, list: &[Word]) -> Obs
        requires kept { IsRun self.old }
        requires few { length list.now ≤ 8 }
        requires named { All (IsNamed (length self.old.vars.items)) list.now }
        ensures keeps { IsRun self.new }
        ensures turn { (tables : List (List ℕ)) → turn tables self.new result
            ≡ replies chain tables (run_view self.old)
            (map (value_of self.old.vars.items) list.now) }
    {
        let words = self.eight_values(list);
        self.ended = true;
        Obs::Reply {
            chain,
            count: list.len() as u8,
            words,
        }
    }
}
