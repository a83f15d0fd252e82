//! Rules 9 to 12 and 15: how many there may be, how large tables are, and how many messages a chain
//! serves.

ghost use Rattle.std.specs.Prelude.{◌≡◌, ◌-◌, ◌^◌, min, map, List, slice_get};
ghost use Rattle.std.specs.List.{flat_map};
ghost use Rattle.redn_check.specs.Faults.{first_of};
ghost use Rattle.redn_syntax.specs.declared.tree.Item.{Item as SpecItem};
ghost use Rattle.redn_syntax.specs.declared.tree.Table.{Table as SpecTable};
ghost use Rattle.redn_check.specs.Names.{variables};
ghost use Rattle.redn_check.specs.Rules as rule;
ghost use Rattle.redn_check.specs.Statements.{with_earlier};

use crate::fault::{Fault, earlier, when};
use redn_syntax::{Chain, Item, Name, Num, Table};

const MAX_TABLES: usize = 64;

const MAX_CHAINS: usize = 16;

const MAX_ARGUMENTS: usize = 8;

const MAX_VARIABLES: usize = 256;

/// How many messages a chain serves at most.
const MAX_SERVED: u64 = 1;

/// In bytes, of all tables together.
const MAX_LENGTH: u64 = 1_048_576;

pub fn too_many_chains(chains: &[Chain]) -> Option<Fault>
    ensures { result ≡ first_of (rule.one_too_many 9 16 (map (λ c. c.name.at) chains.now)) }
{
    let chain = chains.get(MAX_CHAINS)?;
    when(true, 9, chain.name.at, MAX_CHAINS as u64 + 1)
}

pub fn too_many_arguments(args: &[Name]) -> Option<Fault>
    ensures { result ≡ first_of (rule.one_too_many 10 8 (map (λ n. n.at) args.now)) }
{
    let name = args.get(MAX_ARGUMENTS)?;
    when(true, 10, name.at, MAX_ARGUMENTS as u64 + 1)
}

/// The place of the variable behind so many, the arguments first.
fn place_behind(chain: &Chain, count: usize) -> Option<u32>
    ensures { result ≡ slice_get (map (λ n. n.at) (variables chain.now)) count }
{
    let args = chain.args.as_slice();
    if count < args.len() {
        return Some(args[count].at);
    }
    let variable = chain.vars.get(count - args.len())?;
    Some(variable.name.at)
}

pub fn too_many_variables(chain: &Chain) -> Option<Fault>
    ensures { result ≡ first_of
        (rule.one_too_many 11 256 (map (λ n. n.at) (variables chain.now))) }
{
    let at = place_behind(chain, MAX_VARIABLES)?;
    when(true, 11, at, MAX_VARIABLES as u64 + 1)
}

/// The fault of a rule by which a number has a least and a greatest value.
pub fn outside(which: u8, least: u64, most: u64, number: Num) -> Option<Fault>
    ensures { result ≡ first_of (rule.outside which least most number) }
{
    let value = number.value;
    when(value < least || most < value, which, number.at, value)
}

pub fn bad_serve(chain: &Chain) -> Option<Fault>
    ensures { result ≡ first_of (rule.bad_serve chain.now) }
{
    outside(15, 1, MAX_SERVED, chain.serve?)
}

/// The fault of a table's length, behind tables of this length, which stops at 2^64 - 1.
fn bad_length(earlier: u64, length: Num) -> Option<Fault>
    ensures { (before : List SpecTable) (t : SpecTable) →
        earlier ≡ min (rule.lengths before) (2 ^ 64 - 1) → length ≡ t.length →
        result ≡ first_of (rule.bad_length before t) }
{
    let value = length.value;
    let passes = earlier <= MAX_LENGTH && earlier.saturating_add(value) > MAX_LENGTH;
    let broken = value == 0 || value % 8 != 0 || passes;
    when(broken, 12, length.at, value)
}

fn place_of_item(item: &Item) -> u32
    ensures { result ≡ rule.place_of_item item.now }
{
    item.at.map_or(item.word.at, |number| number.at)
}

/// Where an item stands, behind others that end here.
pub fn offset_behind(end: u64, item: &Item) -> u64
    ensures { result ≡ rule.offset_behind end item.now }
{
    item.at.map_or(end, |number| number.value)
}

fn is_misplaced(length: u64, end: u64, offset: u64) -> bool
    ensures { result ≡ rule.is_misplaced length end offset }
{
    offset % 8 != 0 || offset < end || length < 8 || length - 8 < offset
}

/// The fault of an item, behind others whose end stops at 2^64 - 1.
fn misplaced(length: u64, end: u64, item: &Item) -> Option<Fault>
    ensures { (before : List SpecItem) → end ≡ min (rule.end_of before) (2 ^ 64 - 1) →
        result ≡ first_of (rule.misplaced length before item.now) }
{
    let offset = offset_behind(end, item);
    let broken = is_misplaced(length, end, offset);
    when(broken, 12, place_of_item(item), offset)
}

/// The fault of a table's items that is told.
fn bad_items(table: &Table) -> Option<Fault>
    ensures { result ≡ first_of (rule.bad_items table.now) }
{
    let length = table.length.value;
    let mut first = None;
    let mut end = 0u64;
    for item in table.items.as_slice() {
        first = earlier(first, misplaced(length, end, item));
        end = offset_behind(end, item).saturating_add(8);
    }
    first
}

pub fn first_in_tables(tables: &[Table]) -> Option<Fault>
    ensures { result ≡ first_of
        (flat_map (λ e. rule.table_faults e.0 e.1) (with_earlier tables.now)) }
{
    let mut first = None;
    let mut total = 0u64;
    for (i, table) in tables.iter().enumerate() {
        let one_more = when(i == MAX_TABLES, 12, table.name.at, MAX_TABLES as u64 + 1);
        let own = earlier(one_more, bad_length(total, table.length));
        first = earlier(first, earlier(own, bad_items(table)));
        total = total.saturating_add(table.length.value);
    }
    first
}
