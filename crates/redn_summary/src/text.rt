//! The text of a summary.

ghost use Rattle.std.specs.Prelude.{◌≡◌, ◌++◌, IfOk, OnOk};
ghost use Rattle.std.specs.List.{All};
ghost use Rattle.redn_image.specs.Faithful.{Faithful};
ghost use Rattle.redn_trace.specs.EventText.{event_text, IsPrintable};
ghost use Rattle.redn_gen.specs.Runs.{is_reply_of};
ghost use Rattle.redn_summary.specs.Counting.{replies_text, told};
ghost use Rattle.redn_summary.specs.Summary.{counted as counted_line, generated_program, summary as summary_of};

use crate::run::{Counted, MAX_SUMMARY_STEPS, count_run};
use redn_adapter::{OpenFault, open};
use redn_gen::{each_chain_replies, gen_messages};
use redn_image::Image;
use redn_sched::Fair;
use redn_text::put_number;
use redn_trace::event_line;
use redn_words::{Memory, Obs};
use std::alloc::Global;

/// Adds the line of a word and a number.
fn add_line(text: &mut Vec<u8>, word: &[u8], number: u64) -> Result<(), Memory>
    ensures { OnOk result (text.new.items ≡ text.old.items ++ counted_line word.now number) }
{
    let mut digits = [0; 20];
    let len = put_number(&mut digits[..], 0, number);
    text.extend_from_slice(word)?;
    text.extend_from_slice(&digits[..len])?;
    text.extend_from_slice(b"\n")?;
    Ok(())
}

/// Adds the line of an event.
fn add_event(text: &mut Vec<u8>, event: &Obs) -> Result<(), Memory>
    requires { IsPrintable event.now }
    ensures { OnOk result (text.new.items ≡ text.old.items ++ event_text event.now) }
{
    let mut line = [0; 256];
    let len = event_line(event, &mut line);
    text.extend_from_slice(&line[..len])?;
    Ok(())
}

/// Whether an event is a reply of this chain.
fn is_of(event: &Obs, chain: u32) -> bool
    ensures { result ≡ is_reply_of chain event.now }
{
    match event {
        Obs::Reply { chain: its, .. } => u32::from(*its) == chain,
        _ => false,
    }
}

/// Adds the lines of a chain's replies.
fn add_replies(text: &mut Vec<u8>, replies: &[Obs], chain: u32) -> Result<(), Memory>
    requires { All IsPrintable replies.now }
    ensures { OnOk result (text.new.items ≡ text.old.items ++ replies_text replies.now chain) }
{
    for event in replies {
        if is_of(event, chain) {
            add_event(text, event)?;
        }
    }
    Ok(())
}

/// What is told of a run of so many chains.
fn tell(alloc: Global, number: u32, chains: u32, counted: &Counted) -> Result<Vec<u8>, Memory>
    requires { All IsPrintable counted.now.replies.items }
    ensures { IfOk result (λ text. text.items ≡ told number chains MAX_SUMMARY_STEPS counted.now) }
{
    let mut text = Vec::new(alloc);
    add_line(&mut text, b"gen ", u64::from(number))?;
    add_line(&mut text, b"chains ", u64::from(chains))?;
    add_line(&mut text, b"events ", counted.events)?;
    add_line(&mut text, b"steps ", counted.steps)?;
    for chain in 0..chains {
        add_replies(&mut text, &counted.replies, chain)?;
    }
    let end: &[u8] = if counted.steps == MAX_SUMMARY_STEPS {
        b"end steps\n"
    } else {
        b"end quiet\n"
    };
    text.extend_from_slice(end)?;
    Ok(text)
}

/// Runs an image of the generated file of a number fairly, with the generated messages, and tells
/// what it did: the number, how many chains there are, how many events they showed in how many
/// steps, what each replied, and whether anything useful is left. The one error is want of memory.
pub fn summary(alloc: Global, image: Image, number: u32) -> Result<Vec<u8>, Memory>
    requires { Faithful (generated_program number) image }
    ensures { IfOk result (λ text. text.items ≡ summary_of number image) }
{
    each_chain_replies();
    let messages = gen_messages(alloc, number)?;
    let chains = messages.list.len() as u32;
    let mut adapter = match open(alloc, image, messages) {
        Ok(adapter) => adapter,
        Err(OpenFault::Message { .. }) => unreachable!(),
        Err(OpenFault::Memory) => return Err(Memory),
    };
    let mut fair = Fair::new(alloc, &adapter)?;
    let counted = count_run(alloc, &mut adapter, &mut fair, MAX_SUMMARY_STEPS)?;
    tell(alloc, number, chains, &counted)
}
