ghost use Rattle.std.specs.Prelude.{◌≡◌, ◌≤◌, ◌+◌, ◌++◌, length, take, decimal, codes};
ghost use Rattle.redn_top.specs.StatusText.{code_of, image_fault, message_fault, status_text};

use redn_text::{put_number, put_text};
use redn_words::Memory;

/// Where a source text or a listing goes wrong. Places are in bytes; behind the last token it is the
/// text's length. Lines are counted from 1.
#[derive(Clone, Copy, Debug, PartialEq, Eq)]
pub enum TextFault {
    /// No token goes on there, a number is too wide, or no file goes on with the token there.
    Byte { at: u64 },
    /// The brace that opens a 65th nested block.
    Nesting { at: u64 },
    /// The first line of a listing that isn't the next one possible.
    Line { line: u64 },
}

/// Why bytes, or rows and memory, are no image: another first word, another version, fewer bytes
/// than are needed, so many bytes too many, or a rule with the first row that breaks it.
#[derive(Clone, Copy, Debug, PartialEq, Eq)]
pub enum ImageFault {
    Magic,
    Version { v: u32 },
    Short { need: u64 },
    Trailing { n: u64 },
    Rule { number: u8, index: u32 },
}

/// What is wrong with the messages: there is no such chain, a chain stands twice, digits spell no
/// bytes, or a message has another length than its receive place. Lengths are in bytes.
#[derive(Clone, Copy, Debug, PartialEq, Eq)]
pub enum MessageFault {
    NoChain { chain: u32 },
    Twice { chain: u32 },
    BadHex { chain: u32 },
    Length { chain: u32, got: u64, want: u64 },
}

/// How a command ended.
#[derive(Clone, Copy, Debug, PartialEq, Eq)]
pub enum Status {
    /// All was done.
    Done,
    /// The words are no command.
    Words,
    /// A file could not be read.
    ReadFailed,
    /// There is no such file to read.
    Missing,
    /// A file or a line could not be written.
    WriteFailed,
    /// A file has more bytes than may be read. `seen` is one more than the limit.
    Long { seen: u64, limit: u64 },
    /// The source text has no tree, or one that is nested too deep; or a listing has a wrong line.
    Text(TextFault),
    /// A rule fails: the least place, then the least rule, with the number that was seen, or 0.
    Program { rule: u8, at: u32, seen: u64 },
    /// The bytes, or the rows of a listing, are no image.
    Image(ImageFault),
    /// Want of memory.
    Memory,
    /// This line of the schedule is bad.
    Schedule { line: u64 },
    /// The action of this line of the schedule isn't possible.
    Step { line: u64 },
    /// The messages can't be given to the chains.
    Message(MessageFault),
}

impl From<Memory> for Status {
    ghost use Rattle.std.specs.Prelude.{◌≡◌};
    ghost use Rattle.redn_top.specs.declared.status.Status.TheVariants.{Memory as OutOfMemory};

    ghost from_gives = { λ _ s. s ≡ OutOfMemory };

    fn from(_e: Memory) -> Self {
        Status::Memory
    }
}

/// The status with which the process ends.
pub fn status_code(s: &Status) -> u8
    ensures { result ≡ code_of s.now }
{
    match s {
        Status::Done => 0,
        Status::Words => 2,
        Status::ReadFailed => 3,
        Status::WriteFailed => 4,
        Status::Long { .. } => 5,
        Status::Text(_) => 6,
        Status::Program { .. } => 7,
        Status::Image(_) => 8,
        Status::Memory => 9,
        Status::Schedule { .. } => 10,
        Status::Step { .. } => 11,
        Status::Message(_) => 12,
        Status::Missing => 16,
    }
}

/// Puts a number between two texts.
fn put_around(buf: &mut [u8; 128], before: &[u8], number: u64, behind: &[u8]) -> usize
    requires { length before.now + length behind.now ≤ 108 }
    ensures fits { result ≤ length before.now + 20 + length behind.now }
    ensures line { take result buf.new ≡ before.now ++ decimal number ++ behind.now }
{
    let at = put_text(&mut buf[..], 0, before);
    let at = put_number(&mut buf[..], at, number);
    put_text(&mut buf[..], at, behind)
}

/// The line of a rule that fails.
fn put_rule(buf: &mut [u8; 128], rule: u8, at: u32) -> usize
    ensures fits { result ≤ 128 }
    ensures line { take result buf.new
        ≡ codes "redn: program refused: rule " ++ decimal rule ++ codes " at byte " ++ decimal at ++ codes "\n" }
{
    let end = put_text(&mut buf[..], 0, b"redn: program refused: rule ");
    let end = put_number(&mut buf[..], end, u64::from(rule));
    let end = put_text(&mut buf[..], end, b" at byte ");
    let end = put_number(&mut buf[..], end, u64::from(at));
    put_text(&mut buf[..], end, b"\n")
}

/// The line of a refused image.
fn put_image(buf: &mut [u8; 128], fault: ImageFault) -> usize
    ensures fits { result ≤ 128 }
    ensures line { take result buf.new ≡ codes "redn: image refused: " ++ image_fault fault ++ codes "\n" }
{
    match fault {
        ImageFault::Magic => put_text(&mut buf[..], 0, b"redn: image refused: magic\n"),
        ImageFault::Version { v } => {
            put_around(buf, b"redn: image refused: version ", u64::from(v), b"\n")
        }
        ImageFault::Short { need } => put_around(buf, b"redn: image refused: short ", need, b"\n"),
        ImageFault::Trailing { n } => {
            put_around(buf, b"redn: image refused: trailing ", n, b"\n")
        }
        ImageFault::Rule { number, index } => {
            let end = put_around(
                buf,
                b"redn: image refused: rule ",
                u64::from(number),
                b" at ",
            );
            let end = put_number(&mut buf[..], end, u64::from(index));
            put_text(&mut buf[..], end, b"\n")
        }
    }
}

/// The line of refused messages.
fn put_message(buf: &mut [u8; 128], fault: MessageFault) -> usize
    ensures fits { result ≤ 128 }
    ensures line { take result buf.new ≡ codes "redn: message refused: " ++ message_fault fault ++ codes "\n" }
{
    match fault {
        MessageFault::NoChain { chain } => put_around(
            buf,
            b"redn: message refused: no chain ",
            u64::from(chain),
            b"\n",
        ),
        MessageFault::Twice { chain } => put_chain(buf, chain, b" twice\n"),
        MessageFault::BadHex { chain } => put_chain(buf, chain, b" bad hex\n"),
        MessageFault::Length { chain, got, want } => {
            let end = put_chain(buf, chain, b" has ");
            let end = put_number(&mut buf[..], end, got);
            let end = put_text(&mut buf[..], end, b" bytes, wants ");
            let end = put_number(&mut buf[..], end, want);
            put_text(&mut buf[..], end, b"\n")
        }
    }
}

/// What is told of the message for a chain.
fn put_chain(buf: &mut [u8; 128], chain: u32, behind: &[u8]) -> usize
    requires { length behind.now ≤ 10 }
    ensures fits { result ≤ 60 + length behind.now }
    ensures line { take result buf.new ≡ codes "redn: message refused: chain " ++ decimal chain ++ behind.now }
{
    put_around(
        buf,
        b"redn: message refused: chain ",
        u64::from(chain),
        behind,
    )
}

/// Writes the line for standard error, newline included, to the front of the buffer, and answers
/// its length: 0 for `Done`.
pub fn status_line(s: &Status, buf: &mut [u8; 128]) -> usize
    ensures fits { result ≤ 128 }
    ensures line { take result buf.new ≡ status_text s.now }
{
    match s {
        Status::Done => 0,
        Status::Words => put_text(&mut buf[..], 0, b"redn: words refused\n"),
        Status::ReadFailed => put_text(&mut buf[..], 0, b"redn: read failed\n"),
        Status::WriteFailed => put_text(&mut buf[..], 0, b"redn: write failed\n"),
        Status::Long { limit, .. } => {
            put_around(buf, b"redn: file too long: limit ", *limit, b"\n")
        }
        Status::Text(TextFault::Byte { at }) => {
            put_around(buf, b"redn: text refused: byte ", *at, b"\n")
        }
        Status::Text(TextFault::Nesting { at }) => {
            put_around(buf, b"redn: text refused: nesting at byte ", *at, b"\n")
        }
        Status::Text(TextFault::Line { line }) => {
            put_around(buf, b"redn: text refused: line ", *line, b"\n")
        }
        Status::Program { rule, at, .. } => put_rule(buf, *rule, *at),
        Status::Image(fault) => put_image(buf, *fault),
        Status::Memory => put_text(&mut buf[..], 0, b"redn: out of memory\n"),
        Status::Schedule { line } => {
            put_around(buf, b"redn: schedule refused: line ", *line, b"\n")
        }
        Status::Step { line } => {
            put_around(buf, b"redn: step not possible: line ", *line, b"\n")
        }
        Status::Message(fault) => put_message(buf, *fault),
        Status::Missing => put_text(&mut buf[..], 0, b"redn: file missing\n"),
    }
}
