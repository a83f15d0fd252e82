ghost use Rattle.std.specs.Prelude.{◌≡◌, ◌==◌, ◌-◌, ◌<◌, ◌≤◌, ◌^◌, ℕ, [], true, false, ◌++◌, ◌∷◌, length, get_or, map, replicate, set, slice_index, slice_set, IfOk, OnOk};
ghost use Rattle.std.specs.List.{All, SwappedAt, list_any};
ghost use Rattle.redn_marks.specs.Marks.{is_marked};
ghost use Rattle.redn_marks.specs.Seats.{place_for, count_for};

use std::alloc::{AllocError, Global};
use std::marker::Model;

/// The numbers of a group, the marked ones first, and how many those are.
#[derive(Drop)]
pub struct Group {
    pub numbers: Vec<u32>,
    pub marked: u32,
}

/// The numbers from 0 on, each of one of some groups, of which some are marked. Those of a group that
/// are marked are found without going over the others. Takes no memory once it is made.
#[derive(Drop)]
pub struct Marks {
    /// Of each number its group.
    group: Vec<u16>,
    /// Of each number its place in its group.
    at: Vec<u32>,
    groups: Vec<Group>,
}

impl Model for Marks {
    ghost use Rattle.redn_marks.specs.Marks.{Marks as Marked};

    ghost Value = { Marked };

    ghost use Rattle.redn_marks.specs.Seats.{marks_view, IsMarks};

    ghost view = { marks_view };

    ghost invariant = { IsMarks };
}

/// Two numbers of a group change places.
fn exchange(places: &mut [u32], numbers: &mut [u32], at: u32, to: u32)
    requires at { at < length numbers.old }
    requires to { to < length numbers.old }
    requires there { All (λ n. n < length places.old) numbers.old }
    ensures swapped { SwappedAt numbers.old numbers.new at to }
    ensures len { length numbers.new ≡ length numbers.old }
    ensures places { places.new
        ≡ set (set places.old (slice_index numbers.old to) at) (slice_index numbers.old at) to }
{
    let number = numbers[at as usize];
    let other = numbers[to as usize];
    numbers.swap(at as usize, to as usize);
    places[other as usize] = at;
    places[number as usize] = to;
}

/// Where a number of a group goes that gets its mark, or loses it, by how many are marked.
fn place_for(mark: bool, marked: u32) -> u32
    requires { mark ≡ false → 0 < marked }
    ensures { result ≡ place_for mark marked }
{
    if mark { marked } else { marked - 1 }
}

/// How many are marked then.
fn count_for(mark: bool, marked: u32) -> u32
    requires lost { mark ≡ false → 0 < marked }
    requires got { mark ≡ true → marked < 2 ^ 32 - 1 }
    ensures { result ≡ count_for mark marked }
{
    if mark { marked + 1 } else { marked - 1 }
}

/// Adds the next number to its group, and tells its place there.
fn join(group: &mut Group, number: u32) -> Result<u32, AllocError>
    requires { length group.old.numbers.items < 2 ^ 32 - 1 }
    ensures place { IfOk result (λ p. p ≡ length group.old.numbers.items) }
    ensures numbers { OnOk result (group.new.numbers.items ≡ group.old.numbers.items ++ number ∷ []) }
    ensures marked { group.new.marked ≡ group.old.marked }
{
    let place = group.numbers.len() as u32;
    group.numbers.push(number)?;
    Ok(place)
}

/// So many groups without a number.
fn empty_groups(alloc: Global, count: u32) -> Result<Vec<Group>, AllocError>
    ensures lists { IfOk result (λ v. map (λ g. g.numbers.items) v.items ≡ replicate count []) }
    ensures marked { IfOk result (λ v. map (λ g. g.marked) v.items ≡ replicate count 0) }
{
    let mut groups = Vec::new(alloc);
    for _ in 0..count {
        let numbers = Vec::new(alloc);
        groups.push(Group { numbers, marked: 0 })?;
    }
    Ok(groups)
}

impl Marks {
    /// The numbers of these groups, of which there are so many. None is marked.
    pub fn new(alloc: Global, count: u32, group: Vec<u16>) -> Result<Marks, AllocError>
        requires few { length group.items < 2 ^ 32 }
        requires there { All (λ c. c < count) group.items }
        ensures { IfOk result (λ m. m ≡ record { groups = count; group = group.items; marked = replicate (length group.items) false }) }
    {
        let mut groups = empty_groups(alloc, count)?;
        let mut at = Vec::new(alloc);
        for (number, group) in group.iter().enumerate() {
            let place = join(&mut groups[*group as usize], number as u32)?;
            at.push(place)?;
        }
        Ok(Marks { group, at, groups })
    }

    /// Gives a number its mark, or takes it away.
    pub fn set(&mut self, number: u32, mark: bool)
        requires { number < length self.old.group }
        ensures { self.new ≡ record self.old { marked = slice_set self.old.marked number mark } }
    {
        let at = self.at[number as usize];
        let group = &mut self.groups[self.group[number as usize] as usize];
        if (at < group.marked) == mark {
            return;
        }
        let to = place_for(mark, group.marked);
        let marked = count_for(mark, group.marked);
        exchange(&mut self.at, &mut group.numbers, at, to);
        group.marked = marked;
    }

    /// The marked numbers of a group, in no order.
    pub fn of(&self, group: u32) -> &[u32]
        ensures { (n : ℕ) → list_any (λ m. n == m) result.now ≡ is_marked self.now group n }
    {
        match self.groups.get(group as usize) {
            Some(group) => &group.numbers[..group.marked as usize],
            None => &[],
        }
    }
}
