//! What programs print, by the fair rules and by draws. Each text was worked out by hand from the
//! language.

use crate::case::{Case, NOTHING, does, obey, store_of};
use crate::sources::{moves, repeated};
use redn_top::Status;
use std::alloc::Global;
use std::process::Abort;
use std::str;
use std::test::Fail;

/// Runs to the end, by the fair rules and by draws.
const PLANS: [&[&str]; 2] = [
    &["go", "e.redn", "p.img", "--fair", "100000"],
    &[
        "go",
        "e.redn",
        "e.img",
        "--shuffle",
        "7",
        "--steps",
        "100000",
    ],
];

/// Programs of one chain, whose text is the same whatever the order of steps: the source, the messages,
/// and what is printed.
const PROGRAMS: [(&[u8], &[&str], &[u8]); 38] = [
    // Variables get numbers and variables.
    (
        b"chain c { var x; var y; x = 5; y = x; x = 18446744073709551615; reply x, y; }",
        &["0="],
        b"set 0 0 5\nset 0 1 5\nset 0 0 18446744073709551615\n\
        reply 0 18446744073709551615 5\nend quiet\n",
    ),
    // Numbers and variables are added, and sums wrap: 10 and 2^64 - 2 are 8.
    (
        b"chain c { arg a; var x = 7; x += 3; x += a; a += x; x += x; reply a, x; }",
        &["0=fffffffffffffffe"],
        b"set 0 0 18446744073709551614\nset 0 1 10\nset 0 1 8\nset 0 0 6\nset 0 1 16\n\
        reply 0 6 16\nend quiet\n",
    ),
    // Words of a table are loaded. The one at byte 4 is the low half of 3 and the high half of 4.
    (
        b"table t[16] ro = { 3, 4 }; chain c { arg o; var x; x = t[8]; x = t[o]; x = t[4]; reply x; }",
        &["0=0000000000000000"],
        b"set 0 0 0\nload 0 1 0 8 4\nload 0 1 0 0 3\nload 0 1 0 4 12884901888\n\
        reply 0 12884901888\nend quiet\n",
    ),
    // The second table is written, at numbers and at a variable.
    (
        b"table s[8] ro = { 1 }; table t[16] rw = { 1, 2 }; chain c { arg a; var x; t[8] = a; \
        t[0] = 9; x = t[8]; t[x] = x; x = t[0]; t[0] = x; reply x; }",
        &["0=0000000000000008"],
        b"set 0 0 8\nstore 0 1 8 8\nstore 0 1 0 9\nload 0 1 1 8 8\nstore 0 1 8 8\nload 0 1 1 0 9\n\
        store 0 1 0 9\nreply 0 9\nend quiet\n",
    ),
    // 2^48 + 5 and 5 have the same low 48 bits.
    (
        b"chain c { arg a; var x; if a ~ 5 { x = 1; } else { x = 2; } reply x; }",
        &["0=0001000000000005"],
        b"set 0 0 281474976710661\nset 0 1 1\nreply 0 1\nend quiet\n",
    ),
    (
        b"chain c { arg a; var x; if a ~ 5 { x = 1; } else { x = 2; } reply x; }",
        &["0=0000000000000006"],
        b"set 0 0 6\nset 0 1 2\nreply 0 2\nend quiet\n",
    ),
    (
        b"chain c { arg a; var x; if a == 5 { x = 1; } else { x = 2; } reply x; }",
        &["0=0001000000000005"],
        b"set 0 0 281474976710661\nset 0 1 2\nreply 0 2\nend quiet\n",
    ),
    (
        b"chain c { arg a; var x; if a == 5 { x = 1; } else { x = 2; } reply x; }",
        &["0=0000000000000005"],
        b"set 0 0 5\nset 0 1 1\nreply 0 1\nend quiet\n",
    ),
    // Two variables are compared, and there is no `else`.
    (
        b"chain c { arg a; arg b; var x; if a == b { x = 1; } if b ~ a { x += 2; } reply x; }",
        &["0=80000000000000070000000000000007"],
        b"set 0 0 9223372036854775815\nset 0 1 7\nset 0 2 2\nreply 0 2\nend quiet\n",
    ),
    // A loop that a break leaves: 1 + 2 + 3.
    (
        b"chain sum { arg n; var i; var total; loop { if i == n { break; } i += 1; total += i; } \
        reply total; }",
        &["0=0000000000000003"],
        b"set 0 0 3\nset 0 1 1\nset 0 2 1\nset 0 1 2\nset 0 2 3\nset 0 1 3\nset 0 2 6\nreply 0 6\n\
        end quiet\n",
    ),
    (
        b"chain sum { arg n; var i; var total; loop { if i == n { break; } i += 1; total += i; } \
        reply total; }",
        &["0=0000000000000000"],
        b"set 0 0 0\nreply 0 0\nend quiet\n",
    ),
    // One loop in another.
    (
        b"chain c { var i; var j; loop { j = 0; loop { j += 1; if j ~ 2 { break; } } i += 1; \
        if i ~ 2 { break; } } reply i, j; }",
        &["0="],
        b"set 0 1 0\nset 0 1 1\nset 0 1 2\nset 0 0 1\nset 0 1 0\nset 0 1 1\nset 0 1 2\nset 0 0 2\n\
        reply 0 2 2\nend quiet\n",
    ),
    (
        b"chain eightfold { arg n; repeat 3 { n += n; } reply n; }",
        &["0=0000000000000005"],
        b"set 0 0 5\nset 0 0 10\nset 0 0 20\nset 0 0 40\nreply 0 40\nend quiet\n",
    ),
    // A break leaves a repeat, and one repeat stands in another.
    (
        b"chain c { var x; repeat 5 { x += 1; if x ~ 2 { break; } } reply x; }",
        &["0="],
        b"set 0 0 1\nset 0 0 2\nreply 0 2\nend quiet\n",
    ),
    (
        b"chain c { var x; repeat 2 { repeat 2 { x += 3; } x += 1; } reply x; }",
        &["0="],
        b"set 0 0 3\nset 0 0 6\nset 0 0 7\nset 0 0 10\nset 0 0 13\nset 0 0 14\nreply 0 14\nend quiet\n",
    ),
    // The third pair has the key, and no pair has it.
    (
        b"table pairs[64] ro = { 11, 110, 22, 220, 33, 330, 44, 440 }; \
        chain get { arg k; var x = 5; lookup x = pairs[0] key k probes 4; reply x; }",
        &["0=0000000000000021"],
        b"set 0 0 33\nlook 0 0 0 11\nlook 0 0 16 22\nlook 0 0 32 33\nload 0 1 0 40 330\nreply 0 330\n\
        end quiet\n",
    ),
    (
        b"table pairs[64] ro = { 11, 110, 22, 220, 33, 330, 44, 440 }; \
        chain get { arg k; var x = 5; lookup x = pairs[0] key k probes 4; reply x; }",
        &["0=000000000000000c"],
        b"set 0 0 12\nlook 0 0 0 11\nlook 0 0 16 22\nlook 0 0 32 33\nlook 0 0 48 44\nreply 0 5\n\
        end quiet\n",
    ),
    // One probe, from a byte that a variable tells. The key has other high bits than the one sought.
    (
        b"table pairs[32] ro = { 11, 110, 22, 220 }; \
        chain get { arg k; var x; var at = 16; lookup x = pairs[at] key k probes 1; reply x; }",
        &["0=ffff000000000016"],
        b"set 0 0 18446462598732840982\nlook 0 0 16 22\nload 0 1 0 24 220\nreply 0 220\nend quiet\n",
    ),
    // A list that begins at 0, goes on at 48 and then at 24, and ends there.
    (
        b"table list[72] ro = { 0: 5, 50, 48, 24: 9, 90, 0, 48: 7, 70, 24 }; \
        chain find { arg k; var x; walk x = list[0] key k nodes 3; reply x; }",
        &["0=0000000000000009"],
        b"set 0 0 9\nlook 0 0 0 5\nlook 0 0 16 48\nlook 0 0 48 7\nlook 0 0 64 24\nlook 0 0 24 9\n\
        load 0 1 0 32 90\nreply 0 90\nend quiet\n",
    ),
    // As many nodes as may be looked at have other keys, and the list ends first.
    (
        b"table list[72] ro = { 0: 5, 50, 48, 24: 9, 90, 0, 48: 7, 70, 24 }; \
        chain find { arg k; var x; walk x = list[0] key k nodes 3; reply x; }",
        &["0=0000000000000008"],
        b"set 0 0 8\nlook 0 0 0 5\nlook 0 0 16 48\nlook 0 0 48 7\nlook 0 0 64 24\nlook 0 0 24 9\n\
        reply 0 0\nend quiet\n",
    ),
    (
        b"table list[72] ro = { 0: 5, 50, 48, 24: 9, 90, 0, 48: 7, 70, 24 }; \
        chain find { arg k; var x; walk x = list[48] key k nodes 9; reply x; }",
        &["0=0000000000000008"],
        b"set 0 0 8\nlook 0 0 48 7\nlook 0 0 64 24\nlook 0 0 24 9\nlook 0 0 40 0\nreply 0 0\nend quiet\n",
    ),
    // Eight words, of variables and numbers.
    (
        b"chain c { arg a; var x = 3; reply a, 1, x, 2, a, 18446744073709551615, x, 0; }",
        &["0=0000000000000009"],
        b"set 0 0 9\nreply 0 9 1 3 2 9 18446744073709551615 3 0\nend quiet\n",
    ),
    // A chain may reply at once, in either branch, or out of a loop.
    (b"chain z { reply 7; }", &["0="], b"reply 0 7\nend quiet\n"),
    (
        b"chain c { arg n; var i; loop { if i == n { reply i; } else { i += 1; } } }",
        &["0=0000000000000002"],
        b"set 0 0 2\nset 0 1 1\nset 0 1 2\nreply 0 2\nend quiet\n",
    ),
    // No whole word lies there: the chain ends. The last offset is 2^64 - 8.
    (
        b"table t[8] ro = { 7 }; chain c { var x = 1; x = t[0]; x = t[8]; reply x; }",
        &["0="],
        b"load 0 0 0 0 7\nfault 0 0 8\nend quiet\n",
    ),
    (
        b"table t[8] rw; chain c { arg at; t[at] = 1; reply at; }",
        &["0=0000000000000001"],
        b"set 0 0 1\nfault 0 0 1\nend quiet\n",
    ),
    (
        b"table t[16] ro = { 7, 70 }; chain c { var x; lookup x = t[0] key 8 probes 4; reply x; }",
        &["0="],
        b"look 0 0 0 7\nfault 0 0 16\nend quiet\n",
    ),
    (
        b"table t[8] ro = { 7 }; chain c { arg at; var x; x = t[at]; reply x; }",
        &["0=fffffffffffffff8"],
        b"set 0 0 18446744073709551608\nfault 0 0 18446744073709551608\nend quiet\n",
    ),
    // An empty branch is taken, and another one.
    (
        b"chain c { arg a; var x; if a ~ 1 { } else { x = 5; } reply x; }",
        &["0=0000000000000001"],
        b"set 0 0 1\nreply 0 0\nend quiet\n",
    ),
    (
        b"chain c { arg a; var x; if a ~ 1 { } else { x = 5; } reply x; }",
        &["0=0000000000000002"],
        b"set 0 0 2\nset 0 1 5\nreply 0 5\nend quiet\n",
    ),
    // A repeat of 1 is left by its break.
    (
        b"chain c { var x; repeat 1 { x = 3; break; } reply x; }",
        &["0="],
        b"set 0 0 3\nreply 0 3\nend quiet\n",
    ),
    // Loops are left at once, and one around another.
    (
        b"chain c { var x; loop { break; } loop { loop { break; } x += 1; \
        loop { loop { break; } break; } if x ~ 2 { break; } } reply x; }",
        &["0="],
        b"set 0 0 1\nset 0 0 2\nreply 0 2\nend quiet\n",
    ),
    // A body begins with a break inside a test.
    (
        b"chain c { arg a; var x; loop { if a ~ x { break; } x += 1; } reply x; }",
        &["0=0000000000000002"],
        b"set 0 0 2\nset 0 1 1\nset 0 1 2\nreply 0 2\nend quiet\n",
    ),
    // A key that is a variable stands in the third pair.
    (
        b"table t[48] rw = { 1, 10, 2, 20, 7, 70 }; chain c { var x; var k; k = 7; \
        lookup x = t[0] key k probes 3; reply x; }",
        &["0="],
        b"set 0 1 7\nlook 0 0 0 1\nlook 0 0 16 2\nlook 0 0 32 7\nload 0 0 0 40 70\nreply 0 70\nend quiet\n",
    ),
    // A list comes back to its beginning. Of four nodes the last is asked for no next one.
    (
        b"table t[72] rw = { 0, 0, 0, 5, 50, 48, 6, 60, 24 }; chain c { var x; \
        walk x = t[24] key 7 nodes 4; reply x; }",
        &["0="],
        b"look 0 0 24 5\nlook 0 0 40 48\nlook 0 0 48 6\nlook 0 0 64 24\nlook 0 0 24 5\nlook 0 0 40 48\n\
        look 0 0 48 6\nreply 0 0\nend quiet\n",
    ),
    // Up to eight arguments are replied.
    (
        b"chain c { arg a; arg b; arg c; arg d; arg e; arg f; arg g; arg h; \
        reply h, g, f, e, d, c, b, a; }",
        &[
            "0=0000000000000001000000000000000200000000000000030000000000000004\
        0000000000000005000000000000000600000000000000070000000000000008",
        ],
        b"set 0 0 1\nset 0 1 2\nset 0 2 3\nset 0 3 4\nset 0 4 5\nset 0 5 6\nset 0 6 7\n\
        set 0 7 8\nreply 0 8 7 6 5 4 3 2 1\nend quiet\n",
    ),
    (
        b"chain c { arg a; reply a, a, a, a, a, a, a, a; }",
        &["0=00000000000000ff"],
        b"set 0 0 255\nreply 0 255 255 255 255 255 255 255 255\nend quiet\n",
    ),
    (
        b"chain c { arg a; arg b; arg c; reply c; }",
        &["0=00000000000000010000000000000002ffffffffffffffff"],
        b"set 0 0 1\nset 0 1 2\nset 0 2 18446744073709551615\n\
        reply 0 18446744073709551615\nend quiet\n",
    ),
];

fn each_does_what_it_says(
    rt: &impl Abort,
    alloc: Global,
    programs: &[(&[u8], &[&str], &[u8])],
) -> Result<(), Fail> {
    for (source, messages, text) in programs {
        for words in PLANS {
            let mut store = store_of(alloc, &[("e.redn", *source)], &[])?;
            let (status, printed) = obey(alloc, words, messages, &mut store, &[])?;
            assert_eq!(rt; status, Status::Done);
            assert_eq!(rt; printed.as_slice(), *text);
        }
    }
    Ok(())
}

#[test]
fn a_chain_does_what_it_says(rt: HostRuntime) -> Result<(), Fail> {
    each_does_what_it_says(&rt, rt.alloc(), &PROGRAMS)
}

/// Words 100 to 115, a word for each of 16 chains.
const SIXTEEN: [&str; 16] = [
    "0=0000000000000064",
    "1=0000000000000065",
    "2=0000000000000066",
    "3=0000000000000067",
    "4=0000000000000068",
    "5=0000000000000069",
    "6=000000000000006a",
    "7=000000000000006b",
    "8=000000000000006c",
    "9=000000000000006d",
    "10=000000000000006e",
    "11=000000000000006f",
    "12=0000000000000070",
    "13=0000000000000071",
    "14=0000000000000072",
    "15=0000000000000073",
];

/// Programs of several chains on one table: the source, the messages, what chain 0 prints, and what the
/// others print, but the loads that find 0 first.
const SIDE_BY_SIDE: [(&[u8], &[&str], &str, &str); 6] = [
    // Each stores its own word.
    (
        b"table t[16] rw; chain a { arg v; var x; t[0] = v; x = t[0]; reply x; } \
        chain b { arg v; var x; t[8] = v; x = t[8]; x += 1; reply x; }",
        &["0=0000000000000005", "1=0000000000000006"],
        "set 0 0 5\nstore 0 0 0 5\nload 0 1 0 0 5\nreply 0 5\n",
        "set 1 0 6\nstore 1 0 8 6\nload 1 1 0 8 6\nset 1 1 7\nreply 1 7\nend quiet\n",
    ),
    // One of them has no message, and waits.
    (
        b"table t[8] rw; chain put { arg v; t[0] = v; reply v; } \
        chain get { var x; x = t[0]; reply x; }",
        &["0=0000000000000005"],
        "set 0 0 5\nstore 0 0 0 5\nreply 0 5\n",
        "end quiet\n",
    ),
    (
        b"table t[8] rw = { 4 }; chain put { arg v; t[0] = v; reply v; } \
        chain get { var x; x = t[0]; reply x; }",
        &["1="],
        "",
        "load 1 0 0 0 4\nreply 1 4\nend quiet\n",
    ),
    // The fault of one is none of the other.
    (
        b"table t[8] rw; chain a { var x; x = t[8]; reply x; } chain b { t[0] = 3; reply 4; }",
        &["0=", "1="],
        "fault 0 0 8\n",
        "store 1 0 0 3\nreply 1 4\nend quiet\n",
    ),
    // One loads a word until the other has stored it.
    (
        b"table box[8] rw; chain put { arg word; box[0] = word; reply word; } \
        chain get { var word; loop { word = box[0]; if word ~ 0 { } else { reply word; } } }",
        &["0=0000000000000007", "1="],
        "set 0 0 7\nstore 0 0 0 7\nreply 0 7\n",
        "load 1 0 0 0 7\nreply 1 7\nend quiet\n",
    ),
    // Each of 16 stores its word at its own place, loads it, and adds its number.
    (
        b"table t[128] rw; chain c0 { arg a; var x; t[0] = a; x = t[0]; x += 0; reply x; } \
        chain c1 { arg a; var x; t[8] = a; x = t[8]; x += 1; reply x; } \
        chain c2 { arg a; var x; t[16] = a; x = t[16]; x += 2; reply x; } \
        chain c3 { arg a; var x; t[24] = a; x = t[24]; x += 3; reply x; } \
        chain c4 { arg a; var x; t[32] = a; x = t[32]; x += 4; reply x; } \
        chain c5 { arg a; var x; t[40] = a; x = t[40]; x += 5; reply x; } \
        chain c6 { arg a; var x; t[48] = a; x = t[48]; x += 6; reply x; } \
        chain c7 { arg a; var x; t[56] = a; x = t[56]; x += 7; reply x; } \
        chain c8 { arg a; var x; t[64] = a; x = t[64]; x += 8; reply x; } \
        chain c9 { arg a; var x; t[72] = a; x = t[72]; x += 9; reply x; } \
        chain c10 { arg a; var x; t[80] = a; x = t[80]; x += 10; reply x; } \
        chain c11 { arg a; var x; t[88] = a; x = t[88]; x += 11; reply x; } \
        chain c12 { arg a; var x; t[96] = a; x = t[96]; x += 12; reply x; } \
        chain c13 { arg a; var x; t[104] = a; x = t[104]; x += 13; reply x; } \
        chain c14 { arg a; var x; t[112] = a; x = t[112]; x += 14; reply x; } \
        chain c15 { arg a; var x; t[120] = a; x = t[120]; x += 15; reply x; } ",
        &SIXTEEN,
        "set 0 0 100\nstore 0 0 0 100\nload 0 1 0 0 100\nset 0 1 100\nreply 0 100\n",
        "set 1 0 101\nstore 1 0 8 101\nload 1 1 0 8 101\nset 1 1 102\nreply 1 102\nset 2 0 102\n\
        store 2 0 16 102\nload 2 1 0 16 102\nset 2 1 104\nreply 2 104\nset 3 0 103\n\
        store 3 0 24 103\nload 3 1 0 24 103\nset 3 1 106\nreply 3 106\nset 4 0 104\n\
        store 4 0 32 104\nload 4 1 0 32 104\nset 4 1 108\nreply 4 108\nset 5 0 105\n\
        store 5 0 40 105\nload 5 1 0 40 105\nset 5 1 110\nreply 5 110\nset 6 0 106\n\
        store 6 0 48 106\nload 6 1 0 48 106\nset 6 1 112\nreply 6 112\nset 7 0 107\n\
        store 7 0 56 107\nload 7 1 0 56 107\nset 7 1 114\nreply 7 114\nset 8 0 108\n\
        store 8 0 64 108\nload 8 1 0 64 108\nset 8 1 116\nreply 8 116\nset 9 0 109\n\
        store 9 0 72 109\nload 9 1 0 72 109\nset 9 1 118\nreply 9 118\nset 10 0 110\n\
        store 10 0 80 110\nload 10 1 0 80 110\nset 10 1 120\nreply 10 120\nset 11 0 111\n\
        store 11 0 88 111\nload 11 1 0 88 111\nset 11 1 122\nreply 11 122\nset 12 0 112\n\
        store 12 0 96 112\nload 12 1 0 96 112\nset 12 1 124\nreply 12 124\nset 13 0 113\n\
        store 13 0 104 113\nload 13 1 0 104 113\nset 13 1 126\nreply 13 126\nset 14 0 114\n\
        store 14 0 112 114\nload 14 1 0 112 114\nset 14 1 128\nreply 14 128\nset 15 0 115\n\
        store 15 0 120 115\nload 15 1 0 120 115\nset 15 1 130\nreply 15 130\nend quiet\n",
    ),
];

/// The second words of lines: the number of a chain, or how the run ended.
const SECOND_WORDS: [&str; 17] = [
    "0", "1", "2", "3", "4", "5", "6", "7", "8", "9", "10", "11", "12", "13", "14", "15", "quiet",
];

/// What was printed, chain by chain, with the end line last.
fn by_chains(alloc: Global, printed: &[u8]) -> Result<String, Fail> {
    let printed = str::from_utf8(printed)?;
    let mut text = String::new(alloc);
    for second in SECOND_WORDS {
        for line in printed.lines() {
            if line.split(' ').nth(1) == Some(second) {
                text.push_str(line)?;
                text.push('\n')?;
            }
        }
    }
    Ok(text)
}

fn each_does_what_it_says_beside_others(
    rt: &impl Abort,
    alloc: Global,
    programs: &[(&[u8], &[&str], &str, &str)],
) -> Result<(), Fail> {
    for (source, messages, first, others) in programs {
        for words in PLANS {
            let mut store = store_of(alloc, &[("e.redn", *source)], &[])?;
            let (status, printed) = obey(alloc, words, messages, &mut store, &[])?;
            let text = by_chains(alloc, &printed)?;
            assert_eq!(rt; status, Status::Done);
            assert_eq!(rt; text.len(), printed.len());
            let behind = text.strip_prefix(*first).ok_or("what chain 0 prints")?;
            assert_eq!(rt; behind.trim_start_matches("load 1 0 0 0 0\n"), *others);
        }
    }
    Ok(())
}

#[test]
fn chains_do_what_they_say_side_by_side(rt: HostRuntime) -> Result<(), Fail> {
    each_does_what_it_says_beside_others(&rt, rt.alloc(), &SIDE_BY_SIDE)
}

/// The heaviest program: 4095 moves and a reply. Its one ring has 20,480 slots: 4 for the first move, 5
/// for each of the others, 5 for the reply's word, and the one that sends. Its words are 104, then 16 for
/// the ring, and 8 for each of two hidden words, the number 1 and the variable.
#[test]
fn a_program_of_weight_4096_runs(rt: HostRuntime) -> Result<(), Fail> {
    let alloc = rt.alloc();
    let source = moves(alloc, 4095)?;
    let sets = repeated(alloc, "set 0 0 1\n", 4095)?;
    let printed = format!(in alloc; "{sets}reply 0 1\nend quiet\n")?;
    let case = Case {
        files: &[("e.redn", source.as_bytes())],
        words: &["go", "e.redn", "e.img", "--fair", "100000"],
        messages: &["0="],
        printed: printed.as_bytes(),
        written: Some(240 + 64 * (20_480 + 2) + 152),
        ..NOTHING
    };
    does(&rt, alloc, &case)
}

/// The number of a generated file, and what its summary has before and behind the number of steps.
const SUMMARIES: [(&str, &str, &str); 2] = [
    (
        "5",
        "gen 5\nchains 2\nevents 8006\nsteps ",
        "\nreply 0 10000 1000\nreply 1 11000 1000\nend quiet\n",
    ),
    (
        "1020",
        "gen 1020\nchains 1\nevents 4003\nsteps ",
        "\nreply 0 1529000 1000\nend quiet\n",
    ),
];

fn each_is_summed(
    rt: &impl Abort,
    alloc: Global,
    summaries: &[(&str, &str, &str)],
) -> Result<(), Fail> {
    for (number, before, behind) in summaries {
        let mut store = store_of(alloc, &[], &[])?;
        let (status, printed) = obey(alloc, &["gen", *number, "e.img"], &[], &mut store, &[])?;
        assert_eq!(rt; status, Status::Done);
        assert!(rt; store.get("e.img").is_some());
        let text = str::from_utf8(&printed)?
            .strip_prefix(*before)
            .ok_or("before")?;
        let steps: u64 = text.strip_suffix(*behind).ok_or("behind")?.parse()?;
        assert!(rt; steps >= 4003 && steps <= 2_500_000, "{steps}");
    }
    Ok(())
}

#[test]
fn a_generated_file_is_run_and_summed(rt: HostRuntime) -> Result<(), Fail> {
    each_is_summed(&rt, rt.alloc(), &SUMMARIES)
}
