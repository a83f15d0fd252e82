//! The run of an image.

ghost use Rattle.std.specs.Prelude.{◌≡◌, ◌≢◌, ◌^◌, ◌+◌, ◌<◌, ◌++◌, ℕ, suc, true, None, [], ◌∷◌, length, map, IfOk, IfErr, IfSome, OnOk, OnErr};
ghost use Rattle.std.specs.Option.{option_map};
ghost use Rattle.redn_words.specs.declared.types.Action.{Action as ActionValue};
ghost use Rattle.redn_words.specs.Steps.{after, possible};
ghost use Rattle.redn_trace.specs.EventText.{event_text, IsPrintable};
ghost use Rattle.redn_adapter.specs.Opening.{opened};
ghost use Rattle.redn_sched.specs.MadeView.{followed_by};
ghost use Rattle.redn_sched.specs.Pieces.{actions_got, bad_got};
ghost use Rattle.redn_command.specs.Words.{message_view, plan_view};
ghost use Rattle.redn_top.specs.MessageWords.{length_faults};
ghost use Rattle.redn_top.specs.RunText.{made_text, planned, steps_asked};
ghost use Rattle.redn_top.specs.Reasons.{Or, Nil, first_fault};
ghost use Rattle.redn_top.specs.Refusals.{FaultsStay, ImageRan, IsFew, LinesRefused, MadeRefused, MadeStopped, MadeWhole, MakesActions, PutRefused, RunRefused, WordsRefused};
ghost use Rattle.redn_top.specs.Answers.{opened as opened_with, status_of};
ghost use Rattle.redn_top.specs.Makers.{IsFor, IsMakerOf, Makes, RanAll, StepRefused, made_from};

use crate::messages::messages_of;
use crate::status::{MessageFault, Status};
use redn_adapter::{Adapter, OpenFault, open};
use redn_command::{MessageWord, Plan};
use redn_image::Image;
use redn_outside::{Failed, Sink};
use redn_sched::{Fair, Got, ScheduleReader, Shuffle, beginnings_are_read, each_text_is_read};
use redn_text::next_line;
use redn_trace::{each_event_has_a_line, event_line};
use redn_words::{Action, Memory, Messages, Obs};
use std::alloc::Global;

/// Puts one piece.
pub fn put<K: Sink>(out: &mut K, bytes: &[u8]) -> Result<(), Status>
    ensures stays { FaultsStay (K.seen out.old) (K.seen out.new) }
    ensures ok { OnOk result ((K.seen out.new).told
        ≡ option_map (λ before. before ++ bytes.now) (K.seen out.old).told) }
    ensures refused { IfErr result (PutRefused bytes.now (K.seen out.old) (K.seen out.new)) }
{
    match out.put(bytes) {
        Ok(()) => Ok(()),
        Err(Failed) => Err(Status::WriteFailed),
    }
}

/// Puts the line of an event, and nothing for `Nothing`.
fn put_event<K: Sink>(out: &mut K, shown: &Obs) -> Result<(), Status>
    requires { IsPrintable shown.now }
    ensures stays { FaultsStay (K.seen out.old) (K.seen out.new) }
    ensures ok { OnOk result ((K.seen out.new).told
        ≡ option_map (λ before. before ++ event_text shown.now) (K.seen out.old).told) }
    ensures refused { IfErr result
        (PutRefused (event_text shown.now) (K.seen out.old) (K.seen out.new)) }
    ensures some { OnErr result (event_text shown.now ≢ []) }
{
    if let Obs::Nothing = shown {
        return Ok(());
    }
    let mut buf = [0; 256];
    let len = event_line(shown, &mut buf);
    put(out, &buf[..len])
}

/// Puts a text, each line as one piece.
pub fn put_lines<K: Sink>(out: &mut K, text: &[u8]) -> Result<(), Status>
    ensures stays { FaultsStay (K.seen out.old) (K.seen out.new) }
    ensures ok { OnOk result ((K.seen out.new).told
        ≡ option_map (λ before. before ++ text.now) (K.seen out.old).told) }
    ensures refused { IfErr result (LinesRefused text.now (K.seen out.old) (K.seen out.new)) }
{
    let mut rest = text;
    while let Some((line, behind)) = next_line(rest) {
        put(out, line)?;
        rest = behind;
    }
    Ok(())
}

/// Makes the step of a line that was read, if it has an action, and puts the line of its event.
fn make_step<K: Sink>(adapter: &mut Adapter, got: Got, out: &mut K) -> Result<(), Status>
    requires { adapter.old.steps < 2 ^ 62 }
    ensures stays { FaultsStay (K.seen out.old) (K.seen out.new) }
    ensures made { OnOk result (Makes (actions_got got) adapter.old adapter.new (K.seen out.old).told (K.seen out.new).told) }
    ensures good { OnOk result (bad_got got ≡ None) }
    ensures refused { IfErr result (StepRefused got adapter.old.state (K.seen out.old) (K.seen out.new)) }
{
    each_event_has_a_line();
    match got {
        Got::More => Ok(()),
        Got::Bad { line } => Err(Status::Schedule { line }),
        Got::Action { line, action } => {
            let Some(shown) = adapter.step(action) else {
                return Err(Status::Step { line });
            };
            put_event(out, &shown)
        }
    }
}

/// Makes the steps of a schedule's text as its lines are read, and puts the line of each event.
fn run<K: Sink>(adapter: &mut Adapter, text: &[u8], out: &mut K) -> Result<(), Status>
    requires { adapter.old.steps + length text.now < 2 ^ 61 }
    ensures stays { FaultsStay (K.seen out.old) (K.seen out.new) }
    ensures ran { OnOk result (RanAll adapter.old.state text.now (K.seen out.old).told (K.seen out.new).told) }
    ensures refused { IfErr result (RunRefused adapter.old.state text.now (K.seen out.old) (K.seen out.new)) }
{
    let mut reader = ScheduleReader::new();
    let mut rest = text;
    while !rest.is_empty() {
        let fed = reader.feed(rest);
        make_step(adapter, fed.got, out)?;
        rest = &rest[fed.taken..];
    }
    let last = reader.finish();
    make_step(adapter, last, out)
}

/// What makes the actions of a run.
#[derive(Drop)]
enum Maker {
    Fair(Fair),
    Shuffle(Shuffle),
}

impl Maker {
    /// The next action, or none where no useful action is possible.
    fn next(&mut self, a: &Adapter) -> Option<Action>
        requires { IsFor self.old a.now.state }
        ensures possible { IfSome result (λ act. possible a.now.state act ≡ true) }
        ensures list { (n : ℕ) → made_from (suc n) a.now.state self.old
            ≡ followed_by result (λ act. made_from n (after a.now.state act) self.new) }
        ensures stays { (act : ActionValue) → IsFor self.new (after a.now.state act) }
    {
        match self {
            Maker::Fair(fair) => fair.next_fair(a),
            Maker::Shuffle(shuffle) => shuffle.next_shuffled(a),
        }
    }
}

/// What makes the actions of a plan, or none where a schedule does.
fn maker_of(alloc: Global, plan: &Plan, a: &Adapter) -> Result<Option<Maker>, Memory>
    ensures { IfOk result (IsMakerOf (plan_view plan.now) a.now.state) }
{
    match plan {
        Plan::Schedule { .. } => Ok(None),
        Plan::Fair { .. } => Ok(Some(Maker::Fair(Fair::new(alloc, a)?))),
        Plan::Shuffle { number, .. } => {
            Ok(Some(Maker::Shuffle(Shuffle::new(alloc, a, *number)?)))
        }
    }
}

/// Adds an action to those that are kept.
fn keep_action(made: &mut Vec<Action>, action: Action) -> Result<(), Memory>
    ensures { OnOk result (made.new.items ≡ made.old.items ++ action ∷ []) }
{
    made.push(action)?;
    Ok(())
}

/// Makes some steps and puts the line of each event and an end line. The actions are added to those
/// made, where they are to be kept.
fn run_made<K: Sink>(
    adapter: &mut Adapter,
    maker: &mut Maker,
    steps: u64,
    keep: bool,
    made: &mut Vec<Action>,
    out: &mut K,
) -> Result<(), Status>
    requires maker { IsFor maker.old adapter.old.state }
    requires few { adapter.old.steps + steps < 2 ^ 62 }
    requires none { made.old.items ≡ [] }
    ensures stays { FaultsStay (K.seen out.old) (K.seen out.new) }
    ensures text { OnOk result ((K.seen out.new).told ≡ option_map (λ before. before
        ++ made_text adapter.old.state steps (made_from steps adapter.old.state maker.old)) (K.seen out.old).told) }
    ensures kept { OnOk result (keep ≡ true → made.new.items ≡ made_from steps adapter.old.state maker.old) }
    ensures refused { IfErr result (MadeRefused adapter.old.state steps
        (made_from steps adapter.old.state maker.old) (K.seen out.old) (K.seen out.new)) }
{
    each_event_has_a_line();
    for _ in 0..steps {
        let Some(action) = maker.next(adapter) else {
            return put(out, b"end quiet\n");
        };
        if keep {
            keep_action(made, action)?;
        }
        let Some(shown) = adapter.step(action) else {
            unreachable!()
        };
        put_event(out, &shown)?;
    }
    put(out, b"end steps\n")
}

/// Opens an image with messages.
fn open_with(alloc: Global, image: Image, messages: Messages) -> Result<Adapter, Status>
    requires { length messages ≡ length image.receives }
    ensures opened { IfOk result (λ a. a ≡ opened image messages) }
    ensures fits { OnOk result (length_faults image.receives messages ≡ []) }
    ensures refused { IfErr result
        (WordsRefused (Or (first_fault (length_faults image.receives messages)) Nil)) }
{
    match open(alloc, image, messages) {
        Ok(adapter) => Ok(adapter),
        Err(OpenFault::Memory) => Err(Status::Memory),
        Err(OpenFault::Message { chain, got, want }) => {
            let chain = u32::from(chain);
            Err(Status::Message(MessageFault::Length { chain, got, want }))
        }
    }
}

/// Runs an image with messages under the text of a schedule, and puts the lines of its events and an
/// end line.
pub fn run_image<K: Sink>(
    alloc: Global,
    image: Image,
    words: &[MessageWord],
    text: &[u8],
    out: &mut K,
) -> Result<(), Status>
    requires { length text.now < 2 ^ 60 }
    ensures stays { FaultsStay (K.seen out.old) (K.seen out.new) }
    ensures ran { ImageRan image (map message_view words.now) text.now (K.seen out.old) (K.seen out.new)
        (status_of result) }
{
    each_text_is_read();
    beginnings_are_read();
    let messages = messages_of(alloc, image.receives.as_slice().len(), words)?;
    let mut adapter = open_with(alloc, image, messages)?;
    run(&mut adapter, text, out)?;
    put(out, b"end schedule\n")
}

/// Runs an image with messages by a plan that makes the actions, puts the lines of its events and an
/// end line, and answers the actions where they are to be kept.
pub fn run_image_made<K: Sink>(
    alloc: Global,
    image: Image,
    words: &[MessageWord],
    plan: &Plan,
    keep: bool,
    out: &mut K,
) -> Result<Vec<Action>, Status>
    requires makes { MakesActions (plan_view plan.now) }
    requires few { IsFew (plan_view plan.now) }
    ensures stays { FaultsStay (K.seen out.old) (K.seen out.new) }
    ensures whole { OnOk result (MadeWhole image (map message_view words.now) (plan_view plan.now) (K.seen out.old) (K.seen out.new)) }
    ensures stopped { IfErr result (MadeStopped image (map message_view words.now) (plan_view plan.now) (K.seen out.old) (K.seen out.new)) }
    ensures kept { IfOk result (λ v. keep ≡ true
        → v.items ≡ planned (plan_view plan.now) (opened_with image (map message_view words.now))) }
{
    let messages = messages_of(alloc, image.receives.as_slice().len(), words)?;
    let mut adapter = open_with(alloc, image, messages)?;
    let steps = steps_of(plan);
    let Some(mut maker) = maker_of(alloc, plan, &adapter)? else {
        unreachable!()
    };
    let mut made = Vec::new(alloc);
    run_made(&mut adapter, &mut maker, steps, keep, &mut made, out)?;
    Ok(made)
}

/// How many steps a plan may make.
fn steps_of(plan: &Plan) -> u64
    ensures { result ≡ steps_asked (plan_view plan.now) }
{
    match plan {
        Plan::Schedule { .. } => 0,
        Plan::Fair { steps } | Plan::Shuffle { steps, .. } => *steps,
    }
}
