ghost use Rattle.std.specs.Prelude.{◌≡◌, ◌+◌, ◌-◌, ◌%◌, ◌^◌, ◌<◌, ◌≤◌, length};
ghost use Rattle.redn_words.specs.Words.{word, bytes_at};
ghost use Rattle.redn_words.specs.Landings.{lands, landing, changed};
ghost use Rattle.redn_words.specs.declared.types.Opcode.TheVariants as op;
ghost use Rattle.redn_words.specs.Access.{EndsBy};
ghost use Rattle.redn_exec.specs.Landed.{LandsAs, answer_of, from_queue};

use crate::shown::{add_shown, cas_shown, read_shown, send_shown, write_shown};
use crate::sides::{Sides, both_sides, local_side, refused};
use redn_region::Regions;
use redn_words::{
    MAX_MEMORY, Obs, Opcode, Origin, Request, copy_within_checked, put_word, word_at,
};
use redn_wqe::opcode;

/// How a landing went, and what it shows.
#[derive(Clone, Copy, Debug, PartialEq, Eq)]
pub enum Landing {
    Done(Obs),
    Refused(Obs),
}

/// The first word of the bytes at a place.
fn first_word(mem: &[u8], at: u64, len: u64) -> u64
    ensures { 8 ≤ len → at + len ≤ length mem.now → result ≡ word (bytes_at mem.now at len) 0 }
{
    word_at(mem, at).unwrap_or(0)
}

/// A WRITE lands.
#[tactic(auto, unfolding(redn_words::specs::Landings::lands))]
fn land_write(mem: &mut [u8], regions: &Regions, o: Origin, r: &Request) -> Landing
    requires inside { EndsBy (length mem.old) regions.now }
    requires size { length mem.old ≤ MAX_MEMORY }
    ensures { LandsAs mem.old (lands regions.now o mem.old r.now op.Write) mem.new result }
{
    let Sides { local, remote } = match both_sides(regions, o, Opcode::Write, r) {
        Ok(places) => places,
        Err(shown) => return Landing::Refused(shown),
    };
    let word = first_word(mem, local.at, r.length);
    copy_within_checked(mem, local.at, remote.at, r.length);
    Landing::Done(write_shown(o, r, word, local.kind, remote.kind))
}

/// A READ lands.
#[tactic(auto, unfolding(redn_words::specs::Landings::lands))]
fn land_read(mem: &mut [u8], regions: &Regions, o: Origin, r: &Request) -> Landing
    requires inside { EndsBy (length mem.old) regions.now }
    requires size { length mem.old ≤ MAX_MEMORY }
    ensures { LandsAs mem.old (lands regions.now o mem.old r.now op.Read) mem.new result }
{
    let Sides { local, remote } = match both_sides(regions, o, Opcode::Read, r) {
        Ok(places) => places,
        Err(shown) => return Landing::Refused(shown),
    };
    let word = first_word(mem, remote.at, r.length);
    copy_within_checked(mem, remote.at, local.at, r.length);
    Landing::Done(read_shown(o, r, word, local.kind, remote.kind))
}

/// A CAS lands.
#[tactic(auto, unfolding(redn_words::specs::Landings::lands))]
fn land_cas(mem: &mut [u8], regions: &Regions, o: Origin, r: &Request) -> Landing
    requires inside { EndsBy (length mem.old) regions.now }
    requires size { length mem.old ≤ MAX_MEMORY }
    ensures { LandsAs mem.old (lands regions.now o mem.old r.now op.Cas) mem.new result }
{
    let Sides { local, remote } = match both_sides(regions, o, Opcode::Cas, r) {
        Ok(places) => places,
        Err(shown) => return Landing::Refused(shown),
    };
    let word = first_word(mem, remote.at, 8);
    if word == r.first {
        put_word(mem, remote.at, r.second);
    }
    put_word(mem, local.at, word);
    Landing::Done(cas_shown(o, local.kind, remote.kind))
}

/// An ADD lands.
#[tactic(auto, unfolding(redn_words::specs::Landings::lands))]
fn land_add(mem: &mut [u8], regions: &Regions, o: Origin, r: &Request) -> Landing
    requires inside { EndsBy (length mem.old) regions.now }
    requires size { length mem.old ≤ MAX_MEMORY }
    ensures { LandsAs mem.old (lands regions.now o mem.old r.now op.Add) mem.new result }
{
    let Sides { local, remote } = match both_sides(regions, o, Opcode::Add, r) {
        Ok(places) => places,
        Err(shown) => return Landing::Refused(shown),
    };
    let word = first_word(mem, remote.at, 8);
    let sum = word.wrapping_add(r.first);
    put_word(mem, remote.at, sum);
    put_word(mem, local.at, word);
    Landing::Done(add_shown(o, r, sum, local.kind, remote.kind))
}

/// A SEND lands.
#[tactic(auto, unfolding(redn_words::specs::Landings::lands))]
fn land_send(mem: &[u8], regions: &Regions, o: Origin, r: &Request) -> Landing
    requires inside { EndsBy (length mem.now) regions.now }
    requires size { length mem.now ≤ MAX_MEMORY }
    ensures { LandsAs mem.now (lands regions.now o mem.now r.now op.Send) mem.now result }
{
    let Ok(local) = local_side(regions, o.chain, Opcode::Send, r) else {
        return Landing::Refused(refused(o));
    };
    let at = local.at as usize;
    let sent = &mem[at..at + r.length as usize];
    Landing::Done(send_shown(o, r, sent, local.kind))
}

/// A request of this opcode lands.
#[tactic(auto, unfolding(redn_words::specs::Landings::lands))]
fn land_by_opcode(mem: &mut [u8], regions: &Regions, o: Origin, r: &Request, op: Opcode) -> Landing
    requires inside { EndsBy (length mem.old) regions.now }
    requires size { length mem.old ≤ MAX_MEMORY }
    ensures { LandsAs mem.old (lands regions.now o mem.old r.now op) mem.new result }
{
    match op {
        Opcode::Noop => Landing::Done(Obs::Nothing),
        Opcode::Write => land_write(mem, regions, o, r),
        Opcode::Read => land_read(mem, regions, o, r),
        Opcode::Cas => land_cas(mem, regions, o, r),
        Opcode::Add => land_add(mem, regions, o, r),
        Opcode::Send => land_send(mem, regions, o, r),
        Opcode::Wait | Opcode::Enable | Opcode::Undefined(_) => Landing::Refused(refused(o)),
    }
}

/// A request in flight lands, of which `domain`, `queue` and `index` say whose it is and where it
/// stands: what it does to memory, and what it shows. A refused one leaves memory as it was.
///
/// A WAIT, an ENABLE and an undefined request never go into flight. They are refused here too.
pub fn land(
    mem: &mut [u8],
    regions: &Regions,
    domain: u16,
    queue: u32,
    index: u64,
    r: &Request,
) -> Landing
    requires inside { EndsBy (length mem.old) regions.now }
    requires size { length mem.old ≤ MAX_MEMORY }
    ensures memory { mem.new
        ≡ changed mem.old (landing regions.now (from_queue domain queue index) mem.old r.now).writes }
    ensures answer { result
        ≡ answer_of (landing regions.now (from_queue domain queue index) mem.old r.now) }
    ensures refused { (shown : Obs) → result ≡ Landing.Refused shown → mem.new ≡ mem.old }
{
    let origin = Origin {
        chain: domain,
        queue,
        index,
    };
    land_by_opcode(mem, regions, origin, r, opcode(r))
}
