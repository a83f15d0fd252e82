//! The exit code and the line of each status.

use redn_top::{ImageFault, MessageFault, Status, TextFault, status_code, status_line};
use std::process::Abort;

const STATUSES: [(Status, u8, &[u8]); 22] = [
    (Status::Done, 0, b""),
    (Status::Words, 2, b"redn: words refused\n"),
    (Status::ReadFailed, 3, b"redn: read failed\n"),
    (Status::WriteFailed, 4, b"redn: write failed\n"),
    (
        Status::Long {
            seen: 1_048_577,
            limit: 1_048_576,
        },
        5,
        b"redn: file too long: limit 1048576\n",
    ),
    (
        Status::Text(TextFault::Byte { at: 18 }),
        6,
        b"redn: text refused: byte 18\n",
    ),
    (
        Status::Text(TextFault::Nesting { at: 723 }),
        6,
        b"redn: text refused: nesting at byte 723\n",
    ),
    (
        Status::Text(TextFault::Line { line: 11 }),
        6,
        b"redn: text refused: line 11\n",
    ),
    (
        Status::Program {
            rule: 14,
            at: 28_689,
            seen: 4097,
        },
        7,
        b"redn: program refused: rule 14 at byte 28689\n",
    ),
    (
        Status::Image(ImageFault::Magic),
        8,
        b"redn: image refused: magic\n",
    ),
    (
        Status::Image(ImageFault::Version { v: 3 }),
        8,
        b"redn: image refused: version 3\n",
    ),
    (
        Status::Image(ImageFault::Short { need: 336 }),
        8,
        b"redn: image refused: short 336\n",
    ),
    (
        Status::Image(ImageFault::Trailing { n: 1 }),
        8,
        b"redn: image refused: trailing 1\n",
    ),
    (
        Status::Image(ImageFault::Rule {
            number: 6,
            index: 1,
        }),
        8,
        b"redn: image refused: rule 6 at 1\n",
    ),
    (Status::Memory, 9, b"redn: out of memory\n"),
    (
        Status::Schedule { line: 2 },
        10,
        b"redn: schedule refused: line 2\n",
    ),
    (
        Status::Step { line: u64::MAX },
        11,
        b"redn: step not possible: line 18446744073709551615\n",
    ),
    (
        Status::Message(MessageFault::NoChain { chain: 1 }),
        12,
        b"redn: message refused: no chain 1\n",
    ),
    (
        Status::Message(MessageFault::Twice { chain: 0 }),
        12,
        b"redn: message refused: chain 0 twice\n",
    ),
    (
        Status::Message(MessageFault::BadHex { chain: 0 }),
        12,
        b"redn: message refused: chain 0 bad hex\n",
    ),
    (
        Status::Message(MessageFault::Length {
            chain: 0,
            got: 1,
            want: 8,
        }),
        12,
        b"redn: message refused: chain 0 has 1 bytes, wants 8\n",
    ),
    (Status::Missing, 16, b"redn: file missing\n"),
];

fn each_is_told(rt: &impl Abort, statuses: &[(Status, u8, &[u8])]) {
    for (status, code, text) in statuses {
        let mut buf = [0; 128];
        let len = status_line(status, &mut buf);
        assert_eq!(rt; &buf[..len], *text);
        assert_eq!(rt; status_code(status), *code);
    }
}

#[test]
fn each_status_has_its_code_and_its_line(rt: HostRuntime) {
    each_is_told(&rt, &STATUSES);
}
