ghost use Rattle.std.specs.Prelude.{◌≡◌, ◌^◌, ◌<◌, ◌≤◌, ◌+◌, ◌++◌, ℕ, List, [], None, drop, length};
ghost use Rattle.redn_sched.specs.declared.text.Numbered.{Numbered};
ghost use Rattle.redn_sched.specs.Pieces.{first_reader, held_of, StillReads, StillBegins, actions_got, bad_got, Takes, IsFed, IsEnded};

use crate::line::{Line, read_line};
use redn_text::{line_len, put_text};
use redn_words::Action;
use std::marker::Model;

/// How many bytes of a line are held: no action's line has so many.
const HELD: usize = 34;

/// What a piece of a schedule's text gave. Lines are counted from 1.
#[derive(Clone, Copy, Debug, PartialEq, Eq)]
pub enum Got {
    /// No action and no bad line: the line goes on in the next piece, or is skipped.
    More,
    Action { line: u64, action: Action },
    Bad { line: u64 },
}

/// How many bytes of a piece were taken, and what they gave.
#[derive(Clone, Copy, Debug, PartialEq, Eq)]
pub struct Fed {
    pub taken: usize,
    pub got: Got,
}

/// Reads the text of a schedule in pieces, line by line, up to its first bad line.
#[derive(Drop)]
pub struct ScheduleReader {
    lines: u64,
    held: [u8; 34],
    len: usize,
    bad: Option<u64>,
}

impl Model for ScheduleReader {
    ghost use Rattle.redn_sched.specs.Pieces.{Reader};

    ghost Value = { Reader };

    ghost use Rattle.redn_sched.specs.Pieces.{reader_view};

    ghost view = { reader_view };

    ghost use Rattle.std.specs.Prelude.{◌≤◌};

    ghost invariant = { λ s. s.len ≤ 34 };
}

impl ScheduleReader {
    /// A reader before line 1.
    pub fn new() -> Self
        ensures { result ≡ first_reader }
    {
        ScheduleReader {
            lines: 0,
            held: [0; HELD],
            len: 0,
            bad: None,
        }
    }

    /// Holds the first bytes of a line that goes on with these.
    fn hold(&mut self, bytes: &[u8])
        ensures { self.new ≡ record self.old { held = held_of (self.old.held ++ bytes.now) } }
    {
        let more = bytes.len().min(HELD - self.len);
        self.len = put_text(&mut self.held[..], self.len, &bytes[..more]);
    }

    /// Takes the line that is held.
    fn take_line(&mut self) -> Got
        requires good { self.old.bad ≡ None }
        requires few { self.old.lines < 2 ^ 62 }
        ensures { Takes self.old self.old.held result self.new }
    {
        let meaning = read_line(&self.held[..self.len]);
        let line = self.lines + 1;
        self.lines = line;
        self.len = 0;
        match meaning {
            Line::Skipped => Got::More,
            Line::Action(action) => Got::Action { line, action },
            Line::Bad => {
                self.bad = Some(line);
                Got::Bad { line }
            }
        }
    }

    /// Takes at most one line of a piece of the text, up to and with its newline. A bad line is told
    /// again and again, and nothing behind it is taken.
    pub fn feed(&mut self, piece: &[u8]) -> Fed
        requires { self.old.lines < 2 ^ 62 }
        ensures fed { IsFed self.old piece.now result.taken result.got self.new }
        // Whatever follows: what it still reads is what it read, behind what was told.
        ensures reads { (rest : List ℕ) (xs : List Numbered) (bad : _)
            → StillReads self.new (drop result.taken piece.now ++ rest) xs bad
            → StillReads self.old (piece.now ++ rest) (actions_got result.got ++ xs) bad }
        ensures begins { (rest : List ℕ) (xs : List Numbered) → StillBegins self.new (drop result.taken piece.now ++ rest) xs
            → StillBegins self.old (piece.now ++ rest) (actions_got result.got ++ xs) }
        ensures within { result.taken ≤ length piece.now }
        ensures lines { self.new.lines ≤ self.old.lines + result.taken }
    {
        if let Some(line) = self.bad {
            return Fed {
                taken: 0,
                got: Got::Bad { line },
            };
        }
        let front = line_len(piece);
        self.hold(&piece[..front]);
        if front == piece.len() {
            return Fed {
                taken: front,
                got: Got::More,
            };
        }
        Fed {
            taken: front + 1,
            got: self.take_line(),
        }
    }

    /// Takes the last line of the text, where it lacks its newline.
    pub fn finish(&mut self) -> Got
        requires { self.old.lines < 2 ^ 62 }
        ensures ended { IsEnded self.old result self.new }
        ensures reads { StillReads self.old [] (actions_got result) (bad_got result) }
        ensures begins { StillBegins self.old [] (actions_got result) }
        ensures lines { self.new.lines ≤ self.old.lines + 1 }
    {
        if let Some(line) = self.bad {
            return Got::Bad { line };
        }
        if self.len == 0 {
            return Got::More;
        }
        self.take_line()
    }
}
