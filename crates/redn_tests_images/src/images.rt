//! Images from rows and memory.

use redn_image::{RuleFault, image_of, read_image, write_image};
use redn_words::{Kind, QueueRow, Receive, Region};
use std::alloc::AllocError;
use std::test::Fail;

/// The one chain has no arguments.
const RECEIVE: Receive = Receive { base: 0, len: 0 };

const QUEUE: QueueRow = QueueRow {
    domain: 0,
    managed: false,
    base: 0,
    slots: 1,
    limit: 1,
};

fn region(key: u32) -> Region {
    Region {
        key,
        domain: 0,
        kind: Kind::Control,
        rights: 0,
        base: 0,
        len: 64,
    }
}

#[test]
fn rows_that_break_a_rule_are_no_image(rt: HostRuntime) -> Result<(), Fail> {
    let alloc = rt.alloc();
    let regions = vec![in alloc; region(1), region(1)]?;
    let receives = vec![in alloc; RECEIVE]?;
    let memory = vec![in alloc; 0u8; 64]?;
    let image = image_of(alloc, regions, Vec::new(alloc), receives, memory);
    let (number, index) = (6, 1);
    assert_eq!(rt; image.err(), Some(RuleFault::Rule { number, index }));
    Ok(())
}

/// The most regions and queues that an image can have.
#[test]
fn the_largest_tables_are_written_and_read(rt: HostRuntime) -> Result<(), Fail> {
    let alloc = rt.alloc();
    let mut regions = Vec::new(alloc);
    for key in 1..=4096u32 {
        regions.push(region(key)).map_err(AllocError::from)?;
    }
    let queues = vec![in alloc; QUEUE; 65_535]?;
    let receives = vec![in alloc; RECEIVE]?;
    let memory = vec![in alloc; 0u8; 64]?;
    let image = image_of(alloc, regions, queues, receives, memory)?;
    let bytes = write_image(alloc, &image)?;
    let image = read_image(alloc, &bytes)?;
    assert_eq!(rt; image.regions.len(), 4096);
    assert_eq!(rt; image.queues.len(), 65_535);
    Ok(())
}
