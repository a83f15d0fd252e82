//! The rings of a chain, and where they and its words lie.

ghost use Rattle.std.specs.Prelude.{◌≡◌, ℕ, [], ◌+◌, ◌*◌, ◌<◌, ◌≤◌, ◌^◌, length, take, get_or, IfOk};
ghost use Rattle.std.specs.List.{All};
ghost use Rattle.redn_segment.specs.declared.types.Space.TheVariants as space;
ghost use Rattle.redn_graph.specs.Slots.{AreSmall};
ghost use Rattle.redn_block.specs.Blocks.{BlockFits};
ghost use Rattle.redn_emit.specs.Layout as layout;
ghost use Rattle.redn_emit.specs.Placed as placed;
ghost use Rattle.redn_emit.specs.Kept.{MOST, CanBePlaced, place_of};

use crate::constants::constants_of;
use crate::ring::RingPlan;
use crate::table::TablePlan;
use indexmap::IndexSet;
use redn_graph::{Block, Graph};
use redn_kernel::{Cell, ChainInit};
use redn_segment::{SlotRef, Space};
use redn_words::{ATOMIC, Kind, LOCAL_WRITE, Memory, REMOTE_READ, REMOTE_WRITE, Region};
use std::alloc::Global;
use std::marker::Model;

/// The control words of a chain: four scratch words, the key word, the words of a reply, a descriptor
/// for each ring, hidden words, constants.
const KEY_AT: u64 = 32;

const REPLY_AT: u64 = 40;

pub const DESCRIPTORS_AT: u64 = 104;

/// The bytes of a slot.
pub const SLOT: u64 = 64;

/// What requests may do with a chain's variables and control words, with its slots, and with a table
/// that is stored into.
const WORD_RIGHTS: u8 = LOCAL_WRITE | REMOTE_WRITE | ATOMIC;

const CODE_RIGHTS: u8 = REMOTE_WRITE | ATOMIC;

const STORE_RIGHTS: u8 = REMOTE_READ | REMOTE_WRITE;

/// A chain before its places are known.
#[derive(Drop)]
pub struct ChainRings<'a> {
    init: &'a ChainInit,
    graph: &'a Graph,
    first: u32,
    rings: Vec<RingPlan>,
    slots: u64,
}

impl<'a> Model for ChainRings<'a> {
    ghost use Rattle.redn_emit.specs.Placed.{ChainRings as Chain};

    ghost Value = { Chain };

    ghost use Rattle.std.specs.Coded.{codes};
    ghost use Rattle.redn_kernel.specs.contracts.types.Kernel as kernel;

    ghost coded = { Prim.hlevel (codes, kernel.the_row.coded) };

    ghost use Rattle.redn_emit.specs.View.{rings_view, AreRings};

    ghost view = { rings_view };

    ghost invariant = { AreRings };
}

/// A chain with its rings, and where the words of the chain lie.
#[derive(Drop)]
pub struct ChainPlan<'a> {
    number: u16,
    tables: u16,
    vars: &'a [u64],
    args: u16,
    hidden: u16,
    entry: u32,
    first: u32,
    rings: Vec<RingPlan>,
    /// Where each ring begins, in slots, and behind the last one their end.
    starts: Vec<u64>,
    constants: IndexSet<u64>,
    code_base: u64,
    control_base: u64,
}

impl<'a> Model for ChainPlan<'a> {
    ghost use Rattle.redn_emit.specs.Layout.{ChainPlan as Plan};

    ghost Value = { Plan };

    ghost use Rattle.redn_emit.specs.View.{plan_view, IsPlan};

    ghost view = { plan_view };

    ghost invariant = { IsPlan };
}

/// A place in the region of that key.
#[derive(Clone, Copy)]
pub struct Place {
    pub key: u32,
    pub offset: u64,
}

/// The rings of some blocks. Block 0 has the number `first`.
fn rings_of(alloc: Global, first: u32, blocks: &[Block]) -> Result<Vec<RingPlan>, Memory>
    requires fits { All (BlockFits (2 ^ 32) first) blocks.now }
    requires small { AreSmall 65536 blocks.now }
    requires numbers { first + length blocks.now < 2 ^ 32 }
    ensures { IfOk result (λ v. v.items ≡ layout.rings_from first first blocks.now) }
{
    let mut rings = Vec::new(alloc);
    for (i, block) in blocks.iter().enumerate() {
        rings.push(RingPlan::new(alloc, first, first + i as u32, block)?)?;
    }
    Ok(rings)
}

/// How many slots some rings have with laps.
fn slots_of(rings: &[RingPlan]) -> u64
    requires { layout.code_slots rings.now < 2 ^ 64 }
    ensures { result ≡ layout.code_slots rings.now }
{
    rings.iter().map(|ring| u64::from(ring.slots())).sum()
}

/// Where each of some rings begins, and behind the last one their end.
fn starts_of(alloc: Global, rings: &[RingPlan]) -> Result<Vec<u64>, Memory>
    requires { layout.code_slots rings.now < 2 ^ 64 }
    ensures len { IfOk result (λ v. length v.items ≡ length rings.now + 1) }
    ensures starts { IfOk result (λ v. (i : ℕ) → i ≤ length rings.now → get_or v.items i 0 ≡ layout.code_slots (take i rings.now)) }
{
    let mut starts = Vec::new(alloc);
    let mut start = 0;
    starts.push(start)?;
    for ring in rings {
        start += u64::from(ring.slots());
        starts.push(start)?;
    }
    Ok(starts)
}

impl<'a> ChainRings<'a> {
    pub fn new(
        alloc: Global,
        first: u32,
        init: &'a ChainInit,
        graph: &'a Graph,
    ) -> Result<ChainRings<'a>, Memory>
        requires { CanBePlaced first init.now graph.now }
        ensures { IfOk result (λ c. c ≡ placed.chain_rings first init.now graph.now) }
    {
        let rings = rings_of(alloc, first, graph.blocks.as_slice())?;
        let slots = slots_of(&rings);
        Ok(ChainRings {
            init,
            graph,
            first,
            rings,
            slots,
        })
    }

    /// How many slots the rings have with laps.
    pub fn slots(&self) -> u64
        ensures slots { result ≡ layout.code_slots self.now.rings }
        ensures few { result ≤ MOST }
    {
        self.slots
    }
}

impl<'a> ChainPlan<'a> {
    pub fn new(
        alloc: Global,
        tables: u16,
        number: u16,
        code_base: u64,
        control_base: u64,
        chain: ChainRings<'a>,
    ) -> Result<ChainPlan<'a>, Memory>
        requires few_tables { tables ≤ 64 }
        requires few_chains { number < 16 }
        requires code { code_base < 2 ^ 40 }
        requires control { control_base < 2 ^ 40 }
        ensures { IfOk result (λ c. c ≡ placed.plan_at tables number code_base control_base chain.entry) }
    {
        let ChainRings {
            init,
            graph,
            first,
            rings,
            slots: _,
        } = chain;
        let constants = constants_of(alloc, &rings)?;
        let starts = starts_of(alloc, &rings)?;
        Ok(ChainPlan {
            number,
            tables,
            vars: init.vars.as_slice(),
            args: init.args,
            hidden: graph.hidden,
            entry: graph.entry,
            first,
            rings,
            starts,
            constants,
            code_base,
            control_base,
        })
    }

    pub fn number(&self) -> u16
        ensures { result ≡ self.now.number }
    {
        self.number
    }

    pub fn rings(&self) -> &[RingPlan]
        ensures rings { result.now ≡ self.now.rings }
        ensures few { layout.code_slots result.now ≤ MOST }
    {
        &self.rings
    }

    pub fn constants(&self) -> &[u64]
        ensures { result.now ≡ self.now.constants }
    {
        self.constants.as_slice()
    }

    pub fn vars(&self) -> &[u64]
        ensures { result.now ≡ self.now.values }
    {
        self.vars
    }

    /// The bytes of the hidden words.
    pub fn hidden_len(&self) -> u64
        ensures len { result ≡ 8 * self.now.hidden }
        ensures few { self.now.hidden < 2 ^ 16 }
    {
        8 * u64::from(self.hidden)
    }

    /// The bytes of the message.
    pub fn message_len(&self) -> u64
        ensures len { result ≡ 8 * self.now.args }
        ensures few { result < 2 ^ 19 }
    {
        8 * u64::from(self.args)
    }

    pub fn code_base(&self) -> u64
        ensures base { result ≡ self.now.code_base }
        ensures below { result < 2 ^ 40 }
    {
        self.code_base
    }

    /// How many slots the rings have.
    pub fn slots(&self) -> u64
        ensures slots { result ≡ layout.code_slots self.now.rings }
        ensures few { result ≤ MOST }
    {
        self.starts[self.rings.len()]
    }

    fn hidden_at(&self) -> u64
        ensures at { result ≡ layout.hidden_at self.now }
        ensures below { result < 2 ^ 23 }
    {
        DESCRIPTORS_AT + 16 * self.rings.len() as u64
    }

    fn constants_at(&self) -> u64
        ensures at { result ≡ layout.constants_at self.now }
        ensures below { result < 2 ^ 24 }
        ensures hidden { self.now.hidden < 2 ^ 16 }
    {
        self.hidden_at() + self.hidden_len()
    }

    fn control_len(&self) -> u64
        ensures len { result ≡ layout.control_len self.now }
        ensures few { result < 2 ^ 25 }
        ensures hidden { self.now.hidden < 2 ^ 16 }
    {
        self.constants_at() + 8 * self.constants.len() as u64
    }

    fn vars_len(&self) -> u64
        ensures len { result ≡ 8 * self.now.vars }
        ensures few { result ≤ 2048 }
    {
        8 * self.vars.len() as u64
    }

    fn vars_base(&self) -> u64
        ensures base { result ≡ layout.vars_base self.now }
        ensures below { result < 2 ^ 41 }
    {
        self.control_base + self.control_len()
    }

    pub fn message_base(&self) -> u64
        ensures { result ≡ layout.message_base self.now }
    {
        self.vars_base() + self.vars_len()
    }

    /// The bytes of all words.
    pub fn data_len(&self) -> u64
        ensures len { result ≡ layout.data_len self.now }
        ensures few { result < 2 ^ 26 }
        ensures hidden { self.now.hidden < 2 ^ 16 }
    {
        self.control_len() + (self.vars_len() + self.message_len())
    }

    /// Keys count from 1: variables, code, control words, the message, and then the tables.
    fn first_key(&self) -> u32
        ensures key { result ≡ layout.first_key self.now }
        ensures few { result ≤ 1100 }
    {
        1 + u32::from(self.number) * (4 + u32::from(self.tables))
    }

    fn row(&self, key: u32, kind: Kind, rights: u8, base: u64, len: u64) -> Region
        ensures { result ≡ layout.row self.now key kind rights base len }
    {
        Region {
            key,
            domain: self.number,
            kind,
            rights,
            base,
            len,
        }
    }

    pub fn vars_row(&self) -> Region
        ensures { result ≡ layout.vars_row self.now }
    {
        let key = self.first_key();
        self.row(
            key,
            Kind::Vars,
            WORD_RIGHTS,
            self.vars_base(),
            self.vars_len(),
        )
    }

    pub fn code_row(&self) -> Region
        ensures { result ≡ layout.code_row self.now }
    {
        let key = self.first_key() + 1;
        self.row(
            key,
            Kind::Code,
            CODE_RIGHTS,
            self.code_base,
            SLOT * self.slots(),
        )
    }

    pub fn control_row(&self) -> Region
        ensures { result ≡ layout.control_row self.now }
    {
        let key = self.first_key() + 2;
        self.row(
            key,
            Kind::Control,
            WORD_RIGHTS,
            self.control_base,
            self.control_len(),
        )
    }

    pub fn message_row(&self) -> Region
        ensures { result ≡ layout.message_row self.now }
    {
        let key = self.first_key() + 3;
        self.row(
            key,
            Kind::Message,
            0,
            self.message_base(),
            self.message_len(),
        )
    }

    pub fn table_row(&self, t: &TablePlan) -> Region
        ensures { result ≡ layout.table_row self.now t.now }
    {
        let key = self.first_key() + (4 + u32::from(t.number));
        let rights = if t.writable {
            STORE_RIGHTS
        } else {
            REMOTE_READ
        };
        let len = t.bytes.len() as u64;
        self.row(key, Kind::Table(t.number), rights, t.base, len)
    }

    fn in_control(&self, offset: u64) -> Place
        ensures { result ≡ place_of (layout.at_home (layout.control_row self.now) offset) }
    {
        let key = self.first_key() + 2;
        Place { key, offset }
    }

    /// The slot at which a ring begins, counted from the chain's first one.
    fn ring_start(&self, number: u32) -> u64
        ensures start { result ≡ layout.ring_start self.now number }
        ensures few { result ≤ MOST }
    {
        let i = number.saturating_sub(self.first) as usize;
        match self.starts.get(i) {
            Some(start) => *start,
            None => self.slots(),
        }
    }

    fn cell_place(&self, cell: Cell) -> Place
        ensures place { result ≡ place_of (layout.cell_home self.now cell) }
        ensures near { result.offset < 2 ^ 40 }
    {
        match cell {
            Cell::Var(i) => Place {
                key: self.first_key(),
                offset: 8 * u64::from(i),
            },
            Cell::Hidden(k) => self.in_control(self.hidden_at() + 8 * u64::from(k)),
            Cell::Argument(i) => Place {
                key: self.first_key() + 3,
                offset: 8 * u64::from(i),
            },
            Cell::Num(n) => {
                let absent = self.constants.len();
                let index = self.constants.get_index_of(&n).unwrap_or(absent);
                self.in_control(self.constants_at() + 8 * index as u64)
            }
        }
    }

    fn table_place(&self, tables: &[TablePlan], t: u16) -> Place
        ensures { result ≡ place_of (layout.home self.now tables.now (space.Table t)) }
    {
        let key = match tables.get(t as usize) {
            Some(t) => self.first_key() + (4 + u32::from(t.number)),
            None => 0,
        };
        Place { key, offset: 0 }
    }

    fn slot_place(&self, q: SlotRef) -> Place
        ensures place { result ≡ place_of (layout.home self.now [] (space.Slot q)) }
        ensures near { result.offset < 2 ^ 40 }
    {
        Place {
            key: self.first_key() + 1,
            offset: SLOT * (self.ring_start(q.ring) + u64::from(q.slot)),
        }
    }

    /// Where a space of the chain lies.
    pub fn place(&self, tables: &[TablePlan], at: Space) -> Place
        ensures place { result ≡ place_of (layout.home self.now tables.now at) }
        ensures near { result.offset < 2 ^ 40 }
    {
        match at {
            Space::Cell(cell) => self.cell_place(cell),
            Space::Reply => self.in_control(REPLY_AT),
            Space::Key => self.in_control(KEY_AT),
            Space::Scratch(i) => self.in_control(8 * u64::from(i)),
            Space::Descriptor(ring) => {
                let i = ring.saturating_sub(self.first);
                self.in_control(DESCRIPTORS_AT + 16 * u64::from(i))
            }
            Space::Slot(q) => self.slot_place(q),
            Space::Table(t) => self.table_place(tables, t),
        }
    }

    /// The number of the entry block's ring.
    pub fn entry_ring(&self) -> u32
        ensures { result ≡ self.now.first + self.now.entry }
    {
        self.first + self.entry
    }

    /// The limit that opens the entry block's ring.
    pub fn entry_limit(&self) -> u32
        ensures { result ≡ layout.limit_of_ring self.now (self.now.first + self.now.entry) }
    {
        self.rings[self.entry as usize].opens()
    }
}
