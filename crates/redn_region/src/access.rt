//! The tests of one access.

ghost use Rattle.std.specs.Prelude.{◌≡◌, ◌+◌, ◌^◌, ◌<◌, ◌≤◌, IfOk, Some, nat_lt};
ghost use Rattle.redn_words.specs.Access.{access_in, grants, is_aligned};

use redn_words::{MAX_TRANSFER, Need, Refusal, Region, Spot};

fn permits(rights: u8, need: Need) -> bool
    ensures { result ≡ grants rights need }
{
    match need {
        Need::Any => true,
        Need::LocalWrite => rights % 2 == 1,
        Need::RemoteRead => rights / 2 % 2 == 1,
        Need::RemoteWrite => rights / 4 % 2 == 1,
        Need::Atomic => rights / 8 % 2 == 1,
    }
}

fn aligned(off: u64, need: Need) -> bool
    ensures { result ≡ is_aligned off need }
{
    match need {
        Need::Atomic => off % 8 == 0,
        _ => true,
    }
}

/// Whether a range ends past so many bytes, where its end may not fit a word.
fn past(size: u64, off: u64, len: u64) -> bool
    ensures { result ≡ nat_lt size (off + len) }
{
    size < off || size - off < len
}

/// The place of an access in a region, or the first refusal whose condition holds.
pub fn place(row: Region, domain: u16, off: u64, len: u64, need: Need) -> Result<Spot, Refusal>
    requires { row.base + row.len < 2 ^ 64 }
    ensures { result ≡ access_in (Some row) domain off len need }
{
    if row.domain != domain {
        return Err(Refusal::WrongDomain);
    }
    if len == 0 || len > MAX_TRANSFER {
        return Err(Refusal::Length);
    }
    if past(row.len, off, len) {
        return Err(Refusal::Range);
    }
    if !aligned(off, need) {
        return Err(Refusal::Unaligned);
    }
    if !permits(row.rights, need) {
        return Err(Refusal::Rights);
    }
    Ok(Spot {
        at: row.base + off,
        kind: row.kind,
    })
}
