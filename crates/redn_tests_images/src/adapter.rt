//! The emulated adapter, its queues and its landings.

use redn_adapter::{Adapter, open};
use redn_exec::{Landing, land};
use redn_image::image_of;
use redn_queue::Queue;
use redn_region::Regions;
use redn_words::{Action, Kind, Messages, Obs, QueueRow, Receive, Region, Request};
use redn_wqe::ADD;
use std::alloc::Global;
use std::test::Fail;

/// A queue of one slot.
const ROW: QueueRow = QueueRow {
    domain: 0,
    managed: false,
    base: 0,
    slots: 1,
    limit: 1,
};

/// The queue, whose slot spells a NOOP, and two chains, whose places of 8 bytes are behind it.
fn opened(alloc: Global, first: Option<Vec<u8>>, second: Option<Vec<u8>>) -> Result<Adapter, Fail> {
    let (front, behind) = (Receive { base: 64, len: 8 }, Receive { base: 72, len: 8 });
    let queues = vec![in alloc; ROW]?;
    let receives = vec![in alloc; front, behind]?;
    let memory = vec![in alloc; 0u8; 80]?;
    let image = image_of(alloc, Vec::new(alloc), queues, receives, memory)?;
    let list = vec![in alloc; first, second]?;
    if image.receives.as_slice().len() != 2 {
        return Err(Fail::from("two chains"));
    }
    Ok(open(alloc, image, Messages { list })?)
}

#[test]
fn a_message_is_delivered_once(rt: HostRuntime) -> Result<(), Fail> {
    let alloc = rt.alloc();
    let message = vec![in alloc; 1u8, 2, 3, 4, 5, 6, 7, 8]?;
    let mut adapter = opened(alloc, None, Some(message))?;
    assert_eq!(rt; adapter.steps(), 0);
    assert!(rt; !adapter.possible(Action::Deliver { chain: 0 }));
    assert!(rt; adapter.possible(Action::Deliver { chain: 1 }));
    assert!(rt; adapter.pending(1));
    assert!(rt; !adapter.pending(0));
    assert!(rt; !adapter.pending(2));
    assert_eq!(rt;
        adapter.step(Action::Deliver { chain: 1 }),
        Some(Obs::Nothing)
    );
    assert!(rt; !adapter.pending(1));
    assert_eq!(rt; adapter.steps(), 1);
    assert_eq!(rt; adapter.step(Action::Deliver { chain: 1 }), None);
    assert_eq!(rt; adapter.steps(), 1);
    assert_eq!(rt;
        adapter.memory().get(64..),
        Some([0, 0, 0, 0, 0, 0, 0, 0, 1, 2, 3, 4, 5, 6, 7, 8].as_slice())
    );
    Ok(())
}

/// The one request is a NOOP that isn't signalled: it is fetched, starts, lands and completes. Then
/// the limit is reached, and nothing is left to do.
#[test]
fn an_adapter_gets_quiet(rt: HostRuntime) -> Result<(), Fail> {
    let alloc = rt.alloc();
    let mut adapter = opened(alloc, None, None)?;
    assert_eq!(rt; adapter.row(0), Some(&ROW));
    assert!(rt; adapter.row(1).is_none());
    assert!(rt; adapter.queue(1).is_none());
    assert!(rt; !adapter.quiet());
    let actions = [
        Action::Fetch { queue: 0, index: 0 },
        Action::Start { queue: 0 },
        Action::Land { queue: 0, index: 0 },
        Action::Complete { queue: 0 },
    ];
    for a in actions {
        if adapter.steps() > 3 {
            return Err(Fail::from("four steps"));
        }
        assert!(rt; !adapter.quiet());
        assert_eq!(rt; adapter.step(a), Some(Obs::Nothing));
    }
    assert!(rt; adapter.quiet());
    let queue = adapter.queue(0).ok_or("the queue")?;
    assert_eq!(rt; queue.head(), 1);
    assert_eq!(rt; queue.counter(), 0);
    Ok(())
}

/// A ring of 4 slots with limit 6.
#[test]
fn a_new_queue_holds_nothing(rt: HostRuntime) -> Result<(), Fail> {
    let row = QueueRow {
        domain: 0,
        managed: true,
        base: 0,
        slots: 4,
        limit: 6,
    };
    let mut queue = Queue::new(rt.alloc(), &row)?;
    assert_eq!(rt; queue.least_unheld(), Some(0));
    assert_eq!(rt; queue.greatest_unheld(), Some(3));
    queue.raise(4);
    assert_eq!(rt; queue.limit(), 6);
    queue.raise(9);
    assert_eq!(rt; queue.limit(), 9);
    assert_eq!(rt; queue.oldest_unlanded(), None);
    queue.stop();
    assert!(rt; queue.stopped());
    assert_eq!(rt; queue.least_unheld(), None);
    Ok(())
}

/// An ADD of 5 to the word 7 of a control region: the local word becomes 7, the remote one 12.
#[test]
fn an_add_lands(rt: HostRuntime) -> Result<(), Fail> {
    let alloc = rt.alloc();
    let region = Region {
        key: 1,
        domain: 0,
        kind: Kind::Control,
        rights: 9,
        base: 0,
        len: 16,
    };
    let regions = Regions::new(alloc, vec![in alloc; region]?)?;
    let mut memory = [0u8; 16];
    memory[15] = 7;
    let request = Request {
        op: ADD,
        id: 0,
        lkey: 1,
        rkey: 1,
        local: 0,
        remote: 8,
        length: 0,
        first: 5,
        second: 0,
        flags: 0,
    };
    assert_eq!(rt;
        land(&mut memory, &regions, 0, 3, 9, &request),
        Landing::Done(Obs::Nothing)
    );
    assert_eq!(rt; memory, [0, 0, 0, 0, 0, 0, 0, 7, 0, 0, 0, 0, 0, 0, 0, 12]);
    // Another domain's request is refused, and leaves memory as it was.
    let refused = Landing::Refused(Obs::Refused { queue: 3, index: 9 });
    assert_eq!(rt; land(&mut memory, &regions, 1, 3, 9, &request), refused);
    assert_eq!(rt; memory[15], 12);
    Ok(())
}
