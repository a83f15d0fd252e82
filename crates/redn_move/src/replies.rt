ghost use Rattle.std.specs.Prelude.{◌≡◌, ◌++◌, ◌+◌, ◌*◌, ◌<◌, ◌≤◌, ◌^◌, [], length, OnOk, IfOk};
ghost use Rattle.redn_kernel.specs.Costs.{reply_cost};
ghost use Rattle.redn_segment.specs.Building.{drafts_of};
ghost use Rattle.redn_segment.specs.Effects.{replies};
ghost use Rattle.redn_segment.specs.Costs.{Costs};
ghost use Rattle.redn_segment.specs.Rights.{Rights};
ghost use Rattle.redn_segment.specs.Templates.{Appends};
ghost use Rattle.redn_move.specs.Replying.{copies_from, reply, send_words as spec_send_words};

use redn_kernel::Cell;
use redn_segment::{Draft, RingBuilder, Segment, Site, copy, segment};
use redn_words::{Memory, Opcode};
use std::alloc::Global;

/// Each word goes to its place in the reply.
fn copies(alloc: Global, words: &[Cell]) -> Result<Vec<Draft>, Memory>
    requires few { length words.now ≤ 8 }
    ensures { IfOk result (λ v. v.items ≡ copies_from 0 words.now) }
{
    let mut drafts = Vec::new(alloc);
    for (i, w) in words.iter().enumerate() {
        drafts.push(copy(Site::Cell(*w), 0, Site::ReplyWord(i as u8), 8))?;
    }
    Ok(drafts)
}

fn send_words(n: u64) -> Draft
    requires few { n ≤ 8 }
    ensures { result ≡ spec_send_words n }
{
    Draft {
        op: Opcode::Send,
        local: Site::ReplyWord(0),
        local_byte: 0,
        remote: Site::ReplyWord(0),
        remote_byte: 0,
        length: 8 * n,
        first: 0,
        second: 0,
    }
}

fn reply_segments(alloc: Global, words: &[Cell]) -> Result<Vec<Segment>, Memory>
    requires few_words { length words.now ≤ 8 }
    ensures { IfOk result (λ v. v.items ≡ reply words.now) }
{
    let mut segments = Vec::new(alloc);
    let drafts = copies(alloc, words)?;
    segments.push(Segment { drafts })?;
    let send = send_words(words.len() as u64);
    segments.push(segment(alloc, &[send])?)?;
    Ok(segments)
}

/// Appends the reply of one to eight words.
pub fn reply_template(alloc: Global, b: &mut RingBuilder, words: &[Cell]) -> Result<(), Memory>
    requires few { length (drafts_of b.old.segments) < 2 ^ 31 }
    requires some_word { 1 ≤ length words.now }
    requires few_words { length words.now ≤ 8 }
    ensures made { OnOk result (b.new ≡ record b.old { segments = b.old.segments ++ reply words.now }) }
    ensures appended { OnOk result
        (Appends b.old b.new 2 (length words.now + 1) 0 (replies words.now)) }
    ensures cost { OnOk result (Costs b.old b.new (length words.now + 5) (reply_cost (length words.now))) }
    ensures rights { OnOk result (Rights b.old b.new []) }
{
    let segments = reply_segments(alloc, words)?;
    b.push_segments(segments)
}
