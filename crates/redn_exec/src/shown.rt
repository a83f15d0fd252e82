ghost use Rattle.std.specs.Prelude.{◌≡◌, ◌*◌, ◌^◌, ◌<◌, ◌≤◌, length, nat_lt, if◌then◌else◌};
ghost use Rattle.redn_words.specs.Words.{word};
ghost use Rattle.redn_words.specs.Landings.{write_to as write_to_of, write_shows, read_shows, read_into_vars as read_into_vars_of, read_hidden as read_hidden_of, is_hidden as is_hidden_of, add_shows, cas_shows, send_shows, reply_words as reply_words_of};

use crate::sides::odd;
use redn_words::{Kind, Obs, Origin, Request, word_at};

fn write_to(o: Origin, r: &Request, word: u64, remote: Kind) -> Obs
    requires { r.now.remote < 2 ^ 32 }
    ensures { result ≡ write_to_of o r.now word remote }
{
    match remote {
        Kind::Vars if r.length == 8 && r.remote % 8 == 0 => Obs::Set {
            chain: o.chain,
            var: (r.remote / 8) as u32,
            word,
        },
        Kind::Table(table) if r.length == 8 => Obs::Store {
            chain: o.chain,
            table,
            offset: r.remote,
            word,
        },
        Kind::Code | Kind::Control => Obs::Nothing,
        _ => odd(o),
    }
}

pub fn write_shown(o: Origin, r: &Request, word: u64, local: Kind, remote: Kind) -> Obs
    requires { r.now.remote < 2 ^ 32 }
    ensures { result ≡ write_shows o r.now word local remote }
{
    match local {
        Kind::Table(_) => odd(o),
        _ => write_to(o, r, word, remote),
    }
}

/// What a READ into variables shows.
fn read_into_vars(o: Origin, r: &Request, word: u64, remote: Kind) -> Obs
    requires { r.now.local < 2 ^ 32 }
    ensures { result ≡ read_into_vars_of o r.now word remote }
{
    if r.length != 8 || r.local % 8 != 0 {
        return odd(o);
    }
    let var = (r.local / 8) as u32;
    match remote {
        Kind::Table(table) => Obs::Load {
            chain: o.chain,
            var,
            table,
            offset: r.remote,
            word,
        },
        _ => Obs::Set {
            chain: o.chain,
            var,
            word,
        },
    }
}

/// What a READ shows into a place that isn't of the source.
fn read_hidden(o: Origin, r: &Request, word: u64, remote: Kind) -> Obs
    ensures { result ≡ read_hidden_of o r.now word remote }
{
    match remote {
        Kind::Table(table) if r.length == 8 => Obs::Look {
            chain: o.chain,
            table,
            offset: r.remote,
            word,
        },
        Kind::Table(_) => odd(o),
        _ => Obs::Nothing,
    }
}

pub fn read_shown(o: Origin, r: &Request, word: u64, local: Kind, remote: Kind) -> Obs
    requires { r.now.local < 2 ^ 32 }
    ensures { result ≡ read_shows o r.now word local remote }
{
    match local {
        Kind::Vars => read_into_vars(o, r, word, remote),
        Kind::Code | Kind::Control => read_hidden(o, r, word, remote),
        _ => odd(o),
    }
}

fn is_hidden(kind: Kind) -> bool
    ensures { result ≡ is_hidden_of kind }
{
    match kind {
        Kind::Code | Kind::Control => true,
        _ => false,
    }
}

pub fn cas_shown(o: Origin, local: Kind, remote: Kind) -> Obs
    ensures { result ≡ cas_shows o local remote }
{
    if is_hidden(local) && is_hidden(remote) {
        Obs::Nothing
    } else {
        odd(o)
    }
}

/// What an ADD shows whose sum is `word`.
pub fn add_shown(o: Origin, r: &Request, word: u64, local: Kind, remote: Kind) -> Obs
    requires { r.now.remote < 2 ^ 32 }
    ensures { result ≡ add_shows o r.now word local remote }
{
    if !is_hidden(local) {
        return odd(o);
    }
    match remote {
        Kind::Vars => Obs::Set {
            chain: o.chain,
            var: (r.remote / 8) as u32,
            word,
        },
        Kind::Code | Kind::Control => Obs::Nothing,
        _ => odd(o),
    }
}

/// Word k of a reply: of the bytes sent where it is among the first `count`, else 0.
fn reply_word(sent: &[u8], count: u8, k: u8) -> u64
    ensures { 8 * count ≤ length sent.now
        → result ≡ (if nat_lt k count then word sent.now (8 * k) else 0) }
{
    if k < count {
        word_at(sent, 8 * k as u64).unwrap_or(0)
    } else {
        0
    }
}

fn reply_words(sent: &[u8], count: u8) -> [u64; 8]
    requires { 8 * count ≤ length sent.now }
    ensures { result ≡ reply_words_of count sent.now }
{
    let w = |k: u8| reply_word(sent, count, k);
    [w(0), w(1), w(2), w(3), w(4), w(5), w(6), w(7)]
}

pub fn send_shown(o: Origin, r: &Request, sent: &[u8], local: Kind) -> Obs
    requires { r.now.length ≡ length sent.now }
    ensures { result ≡ send_shows o r.now sent.now local }
{
    if local != Kind::Control || r.length % 8 != 0 || r.length > 64 {
        return odd(o);
    }
    let count = (r.length / 8) as u8;
    Obs::Reply {
        chain: o.chain,
        count,
        words: reply_words(sent, count),
    }
}
