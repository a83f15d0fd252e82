//! Listings, and the images that are assembled from them.

use redn_disasm::{ListFault, assemble, listing};
use redn_image::write_image;
use std::alloc::{AllocError, Global};
use std::process::Abort;
use std::test::Fail;

/// The lines of a listing whose first request turns the second from NOOP into SEND.
const REWRITES_ITSELF: [&str; 11] = [
    "redn 1\n",
    "memory 192\n",
    "region 1 0 code 0 4 0 128\n",
    "region 2 0 control 0 0 128 64\n",
    "queue 0 0 ordinary 0 2 2\n",
    "receive 0 0 0\n",
    "slot 0 0 write 0 2 1 0 64 8 0 0 1\n",
    "slot 0 1 noop 0 2 0 8 0 8 0 0 1\n",
    "data 128 0005000000000000\n",
    "data 136 0000000000000007\n",
    "end\n",
];

/// Its image: the letters REDN, the version, two regions, a queue, a receive place, a zero, and 192
/// bytes of memory.
const HEADER: [u8; 32] = [
    0x52, 0x45, 0x44, 0x4e, 0, 0, 0, 1, 0, 0, 0, 2, 0, 0, 0, 1, 0, 0, 0, 1, 0, 0, 0, 0, 0, 0, 0, 0,
    0, 0, 0, 0xc0,
];

/// The listing with other text in the place of a line, which is counted from 1.
fn with_line(alloc: Global, number: usize, other: &str) -> Result<String, AllocError> {
    let mut text = String::new(alloc);
    for (before, line) in REWRITES_ITSELF.iter().enumerate() {
        text.push_str(if before + 1 == number { other } else { line })?;
    }
    Ok(text)
}

#[test]
fn a_listing_is_the_text_of_its_image(rt: HostRuntime) -> Result<(), Fail> {
    let alloc = rt.alloc();
    let text = with_line(alloc, 0, "")?;
    let image = assemble(alloc, text.as_bytes())?;
    assert_eq!(rt; listing(alloc, &image)?.as_slice(), text.as_bytes());
    let bytes = write_image(alloc, &image)?;
    assert_eq!(rt; bytes.len(), 336);
    assert!(rt; bytes.as_slice().starts_with(&HEADER));
    Ok(())
}

/// A line and the text that stands in its place, and the line that is told.
const WRONG_LINES: [(usize, &str, u64); 24] = [
    (1, "redn 2\n", 1),
    (1, "\nredn 1\n", 1),
    (2, "memory 0192\n", 2),
    (2, "memory 18446744073709551616\n", 2),
    (3, "region 4294967296 0 code 0 4 0 128\n", 3),
    (3, "region 1 65536 code 0 4 0 128\n", 3),
    (3, "region 1 0 codes 0 4 0 128\n", 3),
    (4, "region 02 0 control 0 0 128 64\n", 4),
    (5, "queue 1 0 ordinary 0 2 2\n", 5),
    (5, "queue 0 0 other 0 2 2\n", 5),
    (6, "receive 1 0 0\n", 6),
    (7, "slot 0 1 write 0 2 1 0 64 8 0 0 1\n", 7),
    (8, "slot 0 1 ?5 0 2 0 8 0 8 0 0 1\n", 8),
    (8, "slot 0 1 noop 281474976710656 2 0 8 0 8 0 0 1\n", 8),
    (8, "slot 0 1 noop 0 4294967296 0 8 0 8 0 0 1\n", 8),
    (
        9,
        "slot 0 2 noop 0 0 0 0 0 0 0 0 0\ndata 128 0005000000000000\n",
        9,
    ),
    (9, "data 4 0005000000000000\n", 9),
    (9, "data 192 0005000000000000\n", 9),
    (9, "data 128 005000000000000\n", 9),
    (9, "data 128 g005000000000000\n", 9),
    (11, "end of it\n", 11),
    (11, "", 11),
    (11, "end", 11),
    (11, "end\n\n", 12),
];

fn each_line_is_told(
    rt: &impl Abort,
    alloc: Global,
    lines: &[(usize, &str, u64)],
) -> Result<(), Fail> {
    for (number, other, line) in lines {
        let text = with_line(alloc, *number, other)?;
        let fault = assemble(alloc, text.as_bytes()).err();
        assert_eq!(rt; fault, Some(ListFault::Line { line: *line }), "{other}");
    }
    Ok(())
}

#[test]
fn each_wrong_line_is_told(rt: HostRuntime) -> Result<(), Fail> {
    let alloc = rt.alloc();
    each_line_is_told(&rt, alloc, &WRONG_LINES)?;
    let nothing = assemble(alloc, b"").err();
    assert_eq!(rt; nothing, Some(ListFault::Line { line: 1 }));
    let no_size = assemble(alloc, b"redn 1\nend\n").err();
    assert_eq!(rt; no_size, Some(ListFault::Line { line: 2 }));
    Ok(())
}

/// A line and the text that stands in its place, and the rule that is told with its row.
const BROKEN_RULES: [(usize, &str, u8, u32); 11] = [
    (2, "memory 188\n", 5, 0),
    (4, "region 1 0 control 0 0 128 64\n", 6, 1),
    (4, "region 2 1 control 0 0 128 64\n", 7, 1),
    (4, "region 2 0 vars 5 0 128 64\n", 8, 1),
    (3, "region 1 0 code 0 256 0 128\n", 9, 0),
    (3, "region 1 0 code 0 4 4 128\n", 10, 0),
    (5, "queue 0 65536 ordinary 0 2 2\n", 12, 0),
    (5, "queue 0 0 ordinary 8 2 2\n", 14, 0),
    (5, "queue 0 0 ordinary 0 2 3\n", 15, 0),
    (6, "receive 0 0 72\n", 17, 0),
    (6, "", 3, 0),
];

fn each_rule_is_told(
    rt: &impl Abort,
    alloc: Global,
    lines: &[(usize, &str, u8, u32)],
) -> Result<(), Fail> {
    for (at, other, number, index) in lines {
        let (number, index) = (*number, *index);
        let text = with_line(alloc, *at, other)?;
        let fault = assemble(alloc, text.as_bytes()).err();
        assert_eq!(rt; fault, Some(ListFault::Rule { number, index }), "{other}");
    }
    Ok(())
}

#[test]
fn rules_are_looked_at_before_the_line_that_fills(rt: HostRuntime) -> Result<(), Fail> {
    let alloc = rt.alloc();
    each_rule_is_told(&rt, alloc, &BROKEN_RULES)?;
    let broken = assemble(alloc, b"redn 1\nmemory 4\nreceive 0 0 0\nend of it\n").err();
    let (number, index) = (5, 0);
    assert_eq!(rt; broken, Some(ListFault::Rule { number, index }));
    Ok(())
}

#[test]
fn words_may_stand_in_any_order_and_twice(rt: HostRuntime) -> Result<(), Fail> {
    let alloc = rt.alloc();
    let text =
        b"redn 1\nmemory 24\nreceive 0 0 0\ndata 16 00000000000000AB\ndata 0 0000000000000001\n\
        data 16 00000000000000ab\ndata 0 0000000000000000\nend\n";
    let plain: &[u8] = b"redn 1\nmemory 24\nreceive 0 0 0\ndata 16 00000000000000ab\nend\n";
    let image = assemble(alloc, text)?;
    assert_eq!(rt; listing(alloc, &image)?.as_slice(), plain);
    // A word of a slot is written again.
    let text = with_line(
        alloc,
        9,
        "data 8 0000000300000004\ndata 128 0005000000000000\n",
    )?;
    let plain = with_line(alloc, 7, "slot 0 0 write 0 3 4 0 64 8 0 0 1\n")?;
    let image = assemble(alloc, text.as_bytes())?;
    assert_eq!(rt; listing(alloc, &image)?.as_slice(), plain.as_bytes());
    Ok(())
}
