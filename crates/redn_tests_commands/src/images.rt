//! Images that no compiler writes, and bytes that spell none.

use crate::case::{Case, NOTHING, does, each_does, obey, store_of};
use crate::echo::{BY_SCHEDULE, ECHO, FILES, SCHEDULED};
use redn_top::{ImageFault, MessageFault, Status, TextFault, status_code};
use std::alloc::{AllocError, Global};
use std::process::Abort;
use std::test::Fail;

/// The first request turns the second from NOOP into SEND.
const REWRITES_ITSELF: &[u8] = b"redn 1\nmemory 192\nregion 1 0 code 0 4 0 128\n\
    region 2 0 control 0 0 128 64\nqueue 0 0 ordinary 0 2 2\nreceive 0 0 0\n\
    slot 0 0 write 0 2 1 0 64 8 0 0 1\nslot 0 1 noop 0 2 0 8 0 8 0 0 1\n\
    data 128 0005000000000000\ndata 136 0000000000000007\nend\n";

/// An undefined request in one queue, and a reply in another.
const UNDEFINED_OPCODE: &[u8] = b"redn 1\nmemory 192\nregion 2 0 control 0 0 128 64\n\
    queue 0 0 ordinary 0 1 1\nqueue 1 0 ordinary 64 1 1\nreceive 0 0 0\n\
    slot 0 0 ?9 0 0 0 0 0 0 0 0 0\nslot 1 0 send 0 2 0 8 0 8 0 0 1\ndata 136 0000000000000007\nend\n";

/// The second request isn't opened.
const MANAGED_QUEUE: &[u8] = b"redn 1\nmemory 192\nregion 1 0 code 0 4 0 128\n\
    region 2 0 control 0 0 128 64\nqueue 0 0 managed 0 2 1\nreceive 0 0 0\n\
    slot 0 0 send 0 2 0 8 0 8 0 0 1\nslot 0 1 noop 0 2 0 8 0 8 0 0 1\n\
    data 128 0005000000000000\ndata 136 0000000000000007\nend\n";

/// A queue of one slot, which opens the queue without end.
const OPENS_ITSELF: &[u8] = b"redn 1\nmemory 64\nqueue 0 0 managed 0 1 1\nreceive 0 0 0\n\
    slot 0 0 enable 0 0 0 0 0 0 0 18446744073709551615 0\nend\n";

/// The first request rewrites the second from NOOP to SEND, and both slots are registered as a table.
const REWRITES_A_TABLE: &[u8] = b"redn 1\nmemory 192\nregion 1 0 table 0 4 0 128\n\
    region 2 0 control 0 0 128 64\nqueue 0 0 ordinary 0 2 2\nreceive 0 0 0\n\
    slot 0 0 write 0 2 1 0 64 8 0 0 1\nslot 0 1 noop 0 2 0 8 0 8 0 0 1\n\
    data 128 0005000000000000\ndata 136 0000000000000007\nend\n";

/// Each request is fetched behind the landing of the one before.
const ONE_BY_ONE: &[u8] = b"f 0 0\ns 0\nl 0 0\nf 0 1\ns 0\nl 0 1\n";

const ASSEMBLED: Case<'static> = Case {
    before: &[&["assemble", "e.lst", "e.img"]],
    words: &["run", "e.img", "--schedule", "s.txt"],
    written: Some(336),
    ..NOTHING
};

const RUNS: &[Case] = &[
    Case {
        files: &[("e.lst", OPENS_ITSELF)],
        words: &["run", "e.img", "--fair", "1000"],
        printed: b"end steps\n",
        written: Some(144),
        ..ASSEMBLED
    },
    Case {
        files: &[("e.lst", REWRITES_A_TABLE), ("s.txt", ONE_BY_ONE)],
        printed: b"store 0 0 64 1407374883553280\nreply 0 7\nend schedule\n",
        ..ASSEMBLED
    },
    // By the fair rules the second request is fetched behind the landing that turns it. Eight steps are
    // all there are to make.
    Case {
        files: &[("e.lst", REWRITES_ITSELF)],
        words: &["run", "e.img", "--fair", "100"],
        printed: b"reply 0 7\nend quiet\n",
        ..ASSEMBLED
    },
    Case {
        files: &[("e.lst", REWRITES_ITSELF)],
        words: &["run", "e.img", "--fair", "8"],
        printed: b"reply 0 7\nend steps\n",
        ..ASSEMBLED
    },
    Case {
        files: &[("e.lst", REWRITES_ITSELF)],
        words: &["run", "e.img", "--fair", "6"],
        printed: b"end steps\n",
        ..ASSEMBLED
    },
    // A NOOP that is prefetched is stale. It may be fetched again.
    Case {
        files: &[
            ("e.lst", REWRITES_ITSELF),
            ("s.txt", b"f 0 0\nf 0 1\ns 0\nl 0 0\ns 0\nl 0 1\n"),
        ],
        printed: b"stale 0 1\nend schedule\n",
        ..ASSEMBLED
    },
    Case {
        files: &[
            ("e.lst", REWRITES_ITSELF),
            ("s.txt", b"f 0 0\nf 0 1\ns 0\nl 0 0\nf 0 1\ns 0\nl 0 1\n"),
        ],
        printed: b"reply 0 7\nend schedule\n",
        ..ASSEMBLED
    },
    // The one chain takes an empty message.
    Case {
        files: &[("e.lst", REWRITES_ITSELF), ("s.txt", b"")],
        messages: &["0="],
        printed: b"end schedule\n",
        ..ASSEMBLED
    },
    // An undefined request stops its queue alone.
    Case {
        files: &[("e.lst", UNDEFINED_OPCODE)],
        words: &["run", "e.img", "--fair", "100"],
        printed: b"undefined 0 0\nreply 0 7\nend quiet\n",
        ..ASSEMBLED
    },
    Case {
        files: &[
            ("e.lst", UNDEFINED_OPCODE),
            ("s.txt", b"f 0 0\ns 0\nf 1 0\ns 1\nl 1 0\nf 0 0\n"),
        ],
        status: Status::Step { line: 6 },
        printed: b"undefined 0 0\nreply 0 7\n",
        ..ASSEMBLED
    },
    // What was assembled is listed again.
    Case {
        files: &[("e.lst", REWRITES_ITSELF)],
        words: &["disasm", "e.img"],
        printed: REWRITES_ITSELF,
        ..ASSEMBLED
    },
    Case {
        files: &[("e.lst", UNDEFINED_OPCODE)],
        words: &["disasm", "e.img"],
        printed: UNDEFINED_OPCODE,
        ..ASSEMBLED
    },
    Case {
        files: &[("e.lst", MANAGED_QUEUE)],
        words: &["disasm", "e.img"],
        printed: MANAGED_QUEUE,
        ..ASSEMBLED
    },
    // A listing is refused by its line or by a rule.
    Case {
        files: &[("e.lst", b"redn 1\nmemory 8\nreceive 0 0 0\n")],
        before: &[],
        words: &["assemble", "e.lst", "e.img"],
        status: Status::Text(TextFault::Line { line: 4 }),
        written: None,
        ..ASSEMBLED
    },
    Case {
        files: &[(
            "e.lst",
            b"redn 1\nmemory 192\nregion 1 0 code 0 4 0 128\nregion 1 0 control 0 0 128 64\n\
            receive 0 0 0\nend\n",
        )],
        before: &[],
        words: &["assemble", "e.lst", "e.img"],
        status: Status::Image(ImageFault::Rule {
            number: 6,
            index: 1,
        }),
        written: None,
        ..ASSEMBLED
    },
];

#[test]
fn listings_are_assembled_and_run(rt: HostRuntime) -> Result<(), Fail> {
    each_does(&rt, rt.alloc(), RUNS)
}

/// The messages of `echo`, and why they are refused: word by word, and then by length.
const MESSAGES: [(&[&str], MessageFault); 8] = [
    (
        &["0=2a"],
        MessageFault::Length {
            chain: 0,
            got: 1,
            want: 8,
        },
    ),
    (&["1=00"], MessageFault::NoChain { chain: 1 }),
    (&["0=2"], MessageFault::BadHex { chain: 0 }),
    (&["0=2g"], MessageFault::BadHex { chain: 0 }),
    (&["0=", "0="], MessageFault::Twice { chain: 0 }),
    (&["1=zz"], MessageFault::NoChain { chain: 1 }),
    (&["0=2a", "0=zz"], MessageFault::Twice { chain: 0 }),
    (&["0=2a", "1=00"], MessageFault::NoChain { chain: 1 }),
];

fn each_message_is_refused(
    rt: &impl Abort,
    alloc: Global,
    refused: &[(&[&str], MessageFault)],
) -> Result<(), Fail> {
    for (messages, fault) in refused {
        let mut store = store_of(alloc, FILES, &[])?;
        let (status, printed) = obey(alloc, SCHEDULED, messages, &mut store, &[])?;
        assert_eq!(rt; status, Status::Message(*fault), "{messages:?}");
        assert!(rt; printed.is_empty(), "{messages:?}");
        assert!(rt; store.get("e.img").is_some(), "{messages:?}");
    }
    Ok(())
}

#[test]
fn messages_are_refused(rt: HostRuntime) -> Result<(), Fail> {
    each_message_is_refused(&rt, rt.alloc(), &MESSAGES)
}

/// The bytes of the image that a command writes of a file.
fn image(alloc: Global, words: &[&str], file: (&str, &[u8])) -> Result<Vec<u8>, Fail> {
    let mut store = store_of(alloc, &[file], &[])?;
    obey(alloc, words, &[], &mut store, &[])?;
    let bytes = store.get("e.img").ok_or("an image")?;
    Ok(Vec::from_slice(alloc, bytes)?)
}

/// `run` of bytes answers this, and prints nothing.
fn is_refused(rt: &impl Abort, alloc: Global, bytes: &[u8], status: Status) -> Result<(), Fail> {
    let mut store = store_of(alloc, &[("e.img", bytes)], &[])?;
    let words = ["run", "e.img", "--fair", "1"];
    let (told, printed) = obey(alloc, &words, &[], &mut store, &[])?;
    assert_eq!(rt; told, status);
    assert!(rt; printed.is_empty());
    Ok(())
}

/// Bytes with another one at a place.
fn changed(alloc: Global, bytes: &[u8], at: usize, other: u8) -> Result<Vec<u8>, AllocError> {
    let mut copy = Vec::new(alloc);
    for (place, byte) in bytes.iter().enumerate() {
        copy.push(if place == at { other } else { *byte })?;
    }
    Ok(copy)
}

/// The first bytes of an image are too few, however many they are.
fn each_cut_is_short(rt: &impl Abort, alloc: Global, image: &[u8]) -> Result<(), Fail> {
    let whole = image.len() as u64;
    for len in 0..image.len() {
        let need = if len < 32 { 32 } else { whole };
        let short = Status::Image(ImageFault::Short { need });
        is_refused(rt, alloc, &image[..len], short)?;
    }
    Ok(())
}

/// A place in an image of two regions, the byte that is put there, and what is told.
const CHANGED: [(usize, u8, ImageFault); 3] = [
    (0, b'S', ImageFault::Magic),
    (7, 3, ImageFault::Version { v: 3 }),
    (
        67,
        1,
        ImageFault::Rule {
            number: 6,
            index: 1,
        },
    ),
];

fn each_change_is_told(
    rt: &impl Abort,
    alloc: Global,
    image: &[u8],
    changes: &[(usize, u8, ImageFault)],
) -> Result<(), Fail> {
    for (at, byte, fault) in changes {
        let other = changed(alloc, image, *at, *byte)?;
        is_refused(rt, alloc, &other, Status::Image(*fault))?;
    }
    Ok(())
}

#[test]
fn bytes_that_spell_no_image_are_refused(rt: HostRuntime) -> Result<(), Fail> {
    let alloc = rt.alloc();
    let listing = ("e.lst", REWRITES_ITSELF);
    let mut image = image(alloc, &["assemble", "e.lst", "e.img"], listing)?;
    each_change_is_told(&rt, alloc, &image, &CHANGED)?;
    each_cut_is_short(&rt, alloc, &image)?;
    image.push(0)?;
    is_refused(
        &rt,
        alloc,
        &image,
        Status::Image(ImageFault::Trailing { n: 1 }),
    )
}

const COMPARES: &[u8] = b"chain c { arg a; arg b; if a ~ b { if a == b { reply 2; } \
    else { reply 1; } } else { reply 0; } }";

/// The header has the letters REDN, the version, three numbers of rows, a zero and the length of memory.
#[test]
fn an_image_with_a_changed_header_is_refused_or_runs(rt: HostRuntime) -> Result<(), Fail> {
    let alloc = rt.alloc();
    let image = image(alloc, &["compile", "e.redn", "e.img"], ("e.redn", COMPARES))?;
    each_cut_is_short(&rt, alloc, &image)?;
    let words = ["run", "e.img", "--fair", "1000"];
    for (at, byte) in image.iter().take(32).enumerate() {
        for flips in [1, 8, 128, 255] {
            let other = changed(alloc, &image, at, byte ^ flips)?;
            let mut store = store_of(alloc, &[("e.img", &other)], &[])?;
            let (status, _) = obey(alloc, &words, &[], &mut store, &[])?;
            let code = status_code(&status);
            assert!(rt; code == 8 || code == 0, "byte {at} ^ {flips}: {status:?}");
        }
    }
    Ok(())
}

#[test]
fn an_image_and_a_schedule_above_their_limits_are_too_long(rt: HostRuntime) -> Result<(), Fail> {
    let alloc = rt.alloc();
    let image = vec![in alloc; 0u8; 33_554_433]?;
    let (seen, limit) = (33_554_433, 33_554_432);
    is_refused(&rt, alloc, &image, Status::Long { seen, limit })?;
    let schedule = vec![in alloc; b'\n'; 16_777_217]?;
    let (seen, limit) = (16_777_217, 16_777_216);
    let case = Case {
        files: &[("e.redn", ECHO), ("s.txt", &schedule)],
        status: Status::Long { seen, limit },
        printed: b"",
        written: None,
        ..BY_SCHEDULE
    };
    does(&rt, alloc, &case)
}
