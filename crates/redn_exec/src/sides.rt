ghost use Rattle.std.specs.Prelude.{◌≡◌, ◌+◌, ◌≤◌, ℕ, IfOk};
ghost use Rattle.redn_words.specs.Landings.{two_sides, local_side as local_side_of, remote_side as remote_side_of, side_len as side_len_of, local_need as local_need_of, remote_need as remote_need_of, odd as odd_of, remote_refused as remote_refused_of};
ghost use Rattle.redn_words.specs.declared.types.Obs.TheVariants as shows;
ghost use Rattle.redn_words.specs.declared.types.Spot.{Spot as Place};
ghost use Rattle.redn_words.specs.Landings.{Landing as LandingOf};
ghost use Rattle.redn_words.specs.Access.{EndsBy};
ghost use Rattle.redn_exec.specs.Sides.{landed_on};

use redn_region::Regions;
use redn_words::{Kind, Need, Obs, Opcode, Origin, Refusal, Request, Spot};

/// The places of the two sides of a request.
#[derive(Clone, Copy, Debug)]
pub struct Sides {
    pub local: Spot,
    pub remote: Spot,
}

pub fn odd(o: Origin) -> Obs
    ensures { result ≡ odd_of o }
{
    Obs::Odd {
        queue: o.queue,
        index: o.index,
    }
}

pub fn refused(o: Origin) -> Obs
    ensures { result ≡ shows.Refused o.queue o.index }
{
    Obs::Refused {
        queue: o.queue,
        index: o.index,
    }
}

/// How many bytes each side has.
fn side_len(op: Opcode, r: &Request) -> u64
    ensures { result ≡ side_len_of op r.now }
{
    match op {
        Opcode::Cas | Opcode::Add => 8,
        _ => r.length,
    }
}

fn local_need(op: Opcode) -> Need
    ensures { result ≡ local_need_of op }
{
    match op {
        Opcode::Read | Opcode::Cas | Opcode::Add => Need::LocalWrite,
        _ => Need::Any,
    }
}

fn remote_need(op: Opcode) -> Need
    ensures { result ≡ remote_need_of op }
{
    match op {
        Opcode::Read => Need::RemoteRead,
        Opcode::Write => Need::RemoteWrite,
        _ => Need::Atomic,
    }
}

pub fn local_side(regions: &Regions, domain: u16, op: Opcode, r: &Request) -> Result<Spot, Refusal>
    ensures place { result ≡ local_side_of regions.now domain op r.now }
    ensures inside { (size : ℕ) → EndsBy size regions.now
        → IfOk result (λ s. s.at + side_len_of op r.now ≤ size) }
    ensures above { IfOk result (λ s. r.now.local ≤ s.at) }
{
    let (len, need) = (side_len(op, r), local_need(op));
    regions.allowed(domain, r.lkey, r.local, len, need)
}

fn remote_side(regions: &Regions, domain: u16, op: Opcode, r: &Request) -> Result<Spot, Refusal>
    ensures place { result ≡ remote_side_of regions.now domain op r.now }
    ensures inside { (size : ℕ) → EndsBy size regions.now
        → IfOk result (λ s. s.at + side_len_of op r.now ≤ size) }
    ensures above { IfOk result (λ s. r.now.remote ≤ s.at) }
{
    let (len, need) = (side_len(op, r), remote_need(op));
    regions.allowed(domain, r.rkey, r.remote, len, need)
}

/// What a request shows whose remote side is refused: a fault in a table, for its range alone.
fn remote_refused(regions: &Regions, o: Origin, op: Opcode, r: &Request, e: Refusal) -> Obs
    ensures { result ≡ remote_refused_of regions.now o op r.now e }
{
    let moves = op == Opcode::Read || op == Opcode::Write;
    if e != Refusal::Range || !moves || r.length != 8 {
        return refused(o);
    }
    let Some(row) = regions.row(r.rkey) else {
        return refused(o);
    };
    match row.kind {
        Kind::Table(table) => Obs::Fault {
            chain: o.chain,
            table,
            offset: r.remote,
        },
        _ => refused(o),
    }
}

/// The places of both sides, or what their refusal shows. The local side is checked first.
pub fn both_sides(regions: &Regions, o: Origin, op: Opcode, r: &Request) -> Result<Sides, Obs>
    ensures exact { (go : Place → Place → LandingOf) → two_sides regions.now o op r.now
        (local_side_of regions.now o.chain op r.now)
        (remote_side_of regions.now o.chain op r.now) go ≡ landed_on result go }
    ensures inside { (size : ℕ) → EndsBy size regions.now
        → IfOk result (λ s. (s.local.at + side_len_of op r.now ≤ size)
        × (s.remote.at + side_len_of op r.now ≤ size)) }
    ensures above { IfOk result (λ s. (r.now.local ≤ s.local.at) × (r.now.remote ≤ s.remote.at)) }
{
    let Ok(local) = local_side(regions, o.chain, op, r) else {
        return Err(refused(o));
    };
    match remote_side(regions, o.chain, op, r) {
        Ok(remote) => Ok(Sides { local, remote }),
        Err(e) => Err(remote_refused(regions, o, op, r, e)),
    }
}
