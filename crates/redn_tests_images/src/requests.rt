//! Requests in their slots, and regions by their keys.

use redn_region::{Regions, RegionsFault};
use redn_words::{Class, Kind, Need, Opcode, Region, Request, Spot};
use redn_wqe::{Field, WRITE, class, decode, encode, field_at, is_signalled, opcode};
use std::test::Fail;

#[test]
fn a_request_is_read_from_its_slot(rt: HostRuntime) {
    let request = Request {
        op: WRITE,
        id: 5,
        lkey: 1,
        rkey: 2,
        local: 8,
        remote: 16,
        length: 8,
        first: 0,
        second: 0,
        flags: 1,
    };
    let slot = encode(&request);
    let place = field_at(Field::Remote) as usize;
    assert_eq!(rt; decode(&slot), request);
    assert_eq!(rt; opcode(&request), Opcode::Write);
    assert_eq!(rt; class(&request), Class::Flies);
    assert!(rt; is_signalled(&request));
    assert_eq!(rt; slot[place + 7], 16);
}

#[test]
fn a_region_is_found_by_its_key(rt: HostRuntime) -> Result<(), Fail> {
    let alloc = rt.alloc();
    let kind = Kind::Code;
    let row = Region {
        key: 7,
        domain: 0,
        kind,
        rights: 4,
        base: 64,
        len: 64,
    };
    let regions = Regions::new(alloc, vec![in alloc; row]?)?;
    assert_eq!(rt; regions.row(3), None);
    let spot = regions.allowed(0, 7, 8, 8, Need::RemoteWrite);
    assert_eq!(rt; spot, Ok(Spot { at: 72, kind }));
    let twice = Regions::new(alloc, vec![in alloc; row, row]?);
    assert_eq!(rt; twice.err(), Some(RegionsFault::Repeated { index: 1 }));
    Ok(())
}
