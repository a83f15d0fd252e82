ghost use Rattle.std.specs.Prelude.{◌≡◌, ◌^◌, ◌<◌};
ghost use Rattle.redn_words.specs.Requests.{decoded, encoded};

use byteorder::{BigEndian, ByteOrder};
use redn_words::Request;

/// The request in a slot.
pub fn decode(slot: &[u8; 64]) -> Request
    ensures fields { result ≡ decoded slot.now }
    ensures narrow { result.id < 2 ^ 48 }
    ensures written_back { encoded result ≡ slot.now }
{
    Request {
        op: BigEndian::read_u16(slot),
        id: BigEndian::read_u48(&slot[2..]),
        lkey: BigEndian::read_u32(&slot[8..]),
        rkey: BigEndian::read_u32(&slot[12..]),
        local: BigEndian::read_u64(&slot[16..]),
        remote: BigEndian::read_u64(&slot[24..]),
        length: BigEndian::read_u64(&slot[32..]),
        first: BigEndian::read_u64(&slot[40..]),
        second: BigEndian::read_u64(&slot[48..]),
        flags: BigEndian::read_u64(&slot[56..]),
    }
}

/// The slot of a request.
pub fn encode(r: &Request) -> [u8; 64]
    requires { r.now.id < 2 ^ 48 }
    ensures bytes { result ≡ encoded r.now }
    ensures read_back { decoded result ≡ r.now }
{
    spell(*r)
}

/// Writes one field after the other.
fn spell(r: Request) -> [u8; 64]
    requires { r.id < 2 ^ 48 }
    ensures bytes { result ≡ encoded r }
    ensures read_back { decoded result ≡ r }
{
    let mut slot = [0; 64];
    BigEndian::write_u16(&mut slot, r.op);
    BigEndian::write_u48(&mut slot[2..], r.id);
    BigEndian::write_u32(&mut slot[8..], r.lkey);
    BigEndian::write_u32(&mut slot[12..], r.rkey);
    BigEndian::write_u64(&mut slot[16..], r.local);
    BigEndian::write_u64(&mut slot[24..], r.remote);
    BigEndian::write_u64(&mut slot[32..], r.length);
    BigEndian::write_u64(&mut slot[40..], r.first);
    BigEndian::write_u64(&mut slot[48..], r.second);
    BigEndian::write_u64(&mut slot[56..], r.flags);
    slot
}
