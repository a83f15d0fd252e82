//! The commands.

ghost use Rattle.std.specs.Prelude.{◌≡◌, ◌≤◌, List, [], ◌∷◌, ℕ, None, Some, IfOk, IfErr, OnOk, length, map, string_bytes};
ghost use Rattle.std.specs.Option.{option_map};
ghost use Rattle.redn_outside.specs.Calls.{Writes, and_calls};
ghost use Rattle.redn_outside.specs.Files.{Files, OthersStay, with_file};
ghost use Rattle.redn_outside.specs.Seen.{KeepsOthers};
ghost use Rattle.redn_image.specs.Faithful.{Faithful};
ghost use Rattle.redn_image.specs.Spelling.{Spells, spelling};
ghost use Rattle.redn_command.specs.Words.{Command as CommandValue, Check, Compile, Run, Go, Disasm, Assemble, Gen, IsCommand, command_view, message_view, plan_view};
ghost use Rattle.redn_summary.specs.Summary.{generated_program};
ghost use Rattle.redn_top.specs.declared.status.Status.{Status};
ghost use Rattle.redn_top.specs.declared.status.Status.TheVariants.{Words};
ghost use Rattle.redn_top.specs.Reasons.{Input, IsInput, First, NoneHolds, reasons};
ghost use Rattle.redn_top.specs.Answers.{DoneOrWant, Ends, IfSpoken, IsFinish, IsFinishOrWant, IsGood, IsNoCommand, NoneFailed, OthersStayThan, Spares, Stayed, status_of};
ghost use Rattle.redn_top.specs.Calls.{AreFirst, Calls, GrewBy, IsDemanded, RecordMade};
ghost use Rattle.redn_top.specs.Refusals.{CanRun, HasText, IsRunnable, RunEnds, WriteRefused, run_of};

use crate::limits::{MAX_FILE, MAX_IMAGE, MAX_LISTING};
use crate::reading::{image_in, image_of_listing, program_in, read_file, read_run};
use crate::run::{put, put_lines, run_image, run_image_made};
use crate::source::checked_text;
use crate::status::Status;
use redn_check::{CheckFault, check};
use redn_command::{Command, MessageWord, Plan, WordsFault, command_of};
use redn_compile::compile;
use redn_disasm::listing;
use redn_gen::gen_file;
use redn_image::{Image, write_image};
use redn_outside::{Sink, Store, WriteFault};
use redn_sched::{beginnings_are_read, each_text_is_read_once, schedule_text};
use redn_summary::summary;
use redn_words::Memory;
use std::alloc::Global;

/// Writes bytes under a name.
fn write_file<S: Store>(
    alloc: Global,
    name: &str,
    bytes: &[u8],
    store: &mut S,
) -> Result<(), Status>
    ensures stays { KeepsOthers name.now (S.seen store.old) (S.seen store.new) }
    ensures wrote { OnOk result ((S.seen store.new).told ≡ option_map (with_file name.now bytes.now) (S.seen store.old).told) }
    ensures refused { IfErr result (WriteRefused (S.seen store.old) (S.seen store.new)) }
    ensures called { OnOk result ((S.seen store.new).calls ≡ and_calls (Writes name.now ∷ []) (S.seen store.old).calls) }
    ensures made { IfErr result (λ _. GrewBy (AreFirst (Writes name.now ∷ [])) (S.seen store.old) (S.seen store.new)) }
{
    match store.write(alloc, name, bytes) {
        Ok(()) => Ok(()),
        Err(WriteFault::Failed) => Err(Status::WriteFailed),
        Err(WriteFault::Memory) => Err(Status::Memory),
    }
}

/// Writes the bytes of an image under a name.
fn write_out<S: Store>(
    alloc: Global,
    name: &str,
    image: &Image,
    store: &mut S,
) -> Result<(), Status>
    ensures spares { OthersStay name.now (S.seen store.old).told (S.seen store.new).told }
    ensures count { (S.seen store.old).counts.write_faults ≤ (S.seen store.new).counts.write_faults }
    ensures reliable { (S.seen store.new).reliable ≡ (S.seen store.old).reliable }
    ensures wrote { OnOk result ((bytes : List ℕ) × Spells bytes image.now ×
        ((S.seen store.new).told ≡ option_map (with_file name.now bytes) (S.seen store.old).told)) }
    ensures refused { IfErr result (WriteRefused (S.seen store.old) (S.seen store.new)) }
    ensures called { OnOk result ((S.seen store.new).calls ≡ and_calls (Writes name.now ∷ []) (S.seen store.old).calls) }
    ensures made { IfErr result (λ _. GrewBy (AreFirst (Writes name.now ∷ [])) (S.seen store.old) (S.seen store.new)) }
{
    let bytes = write_image(alloc, image)?;
    write_file(alloc, name, &bytes, store)
}

/// Runs an image by its plan, and writes the record of the steps made where it is asked for.
fn run_planned<S: Store, K: Sink>(
    alloc: Global,
    image: Image,
    plan: &Plan,
    keep: &Option<String>,
    messages: &[MessageWord],
    schedule: Option<Vec<u8>>,
    store: &mut S,
    out: &mut K,
) -> Result<(), Status>
    requires runs { IsRunnable (plan_view plan.now) (option_map string_bytes keep.now) }
    requires text { HasText (plan_view plan.now) (option_map (λ v. v.items) schedule) }
    ensures ran { RunEnds (option_map (λ v. v.items) schedule)
        (run_of (plan_view plan.now) (option_map string_bytes keep.now) (map message_view messages.now)) image
        (S.seen store.old) (S.seen store.new) (K.seen out.old) (K.seen out.new) (status_of result) }
    ensures spares { OthersStayThan None (option_map string_bytes keep.now) (S.seen store.old) (S.seen store.new) }
    ensures calls { GrewBy (RecordMade (option_map string_bytes keep.now) (status_of result)) (S.seen store.old) (S.seen store.new) }
{
    if let Some(text) = schedule {
        return run_image(alloc, image, messages, &text, out);
    }
    let made = run_image_made(alloc, image, messages, plan, keep.is_some(), out)?;
    let Some(name) = keep else {
        return Ok(());
    };
    let text = schedule_text(alloc, &made)?;
    write_file(alloc, name.as_str(), &text, store)
}

/// Prints the canonical text of a source file.
fn run_check<S: Store, K: Sink>(
    alloc: Global,
    file: &str,
    store: &mut S,
    out: &mut K,
) -> Result<(), Status>
    ensures ends { Ends (Check file.now) (S.seen store.old) (S.seen store.new)
        (K.seen out.old) (K.seen out.new) (status_of result) }
    ensures spares { Spares (Check file.now) (S.seen store.old) (S.seen store.new) }
    ensures calls { Calls (Check file.now) (S.seen store.old) (S.seen store.new) (status_of result) }
{
    let source = read_file(alloc, store, file, MAX_FILE)?;
    let text = checked_text(alloc, &source)?;
    put(out, &text)
}

/// The image of the generated file of a number.
fn generated_image(alloc: Global, number: u32) -> Result<Image, Memory>
    ensures faithful { IfOk result (λ image. Faithful (generated_program number) image) }
    ensures small { IfOk result (λ image. length (spelling image) ≤ MAX_IMAGE) }
{
    let file = gen_file(alloc, number)?;
    match check(alloc, &file) {
        Ok(program) => compile(alloc, &program),
        Err(CheckFault::Rule { .. }) => unreachable!(),
        Err(CheckFault::Memory) => Err(Memory),
    }
}

/// Writes the image of a source file.
fn run_compile<S: Store, K: Sink>(
    alloc: Global,
    file: &str,
    name: &str,
    store: &mut S,
    out: &mut K,
) -> Result<(), Status>
    ensures ends { Ends (Compile file.now name.now) (S.seen store.old) (S.seen store.new)
        (K.seen out.old) (K.seen out.new) (status_of result) }
    ensures spares { Spares (Compile file.now name.now) (S.seen store.old) (S.seen store.new) }
    ensures calls { Calls (Compile file.now name.now) (S.seen store.old) (S.seen store.new) (status_of result) }
{
    let source = read_file(alloc, store, file, MAX_FILE)?;
    let program = program_in(alloc, &source)?;
    let image = compile(alloc, &program)?;
    write_out(alloc, name, &image, store)
}

/// Runs an image.
fn run_run<S: Store, K: Sink>(
    alloc: Global,
    name: &str,
    plan: &Plan,
    keep: &Option<String>,
    messages: &[MessageWord],
    store: &mut S,
    out: &mut K,
) -> Result<(), Status>
    requires { IsRunnable (plan_view plan.now) (option_map string_bytes keep.now) }
    ensures ends { Ends (Run name.now (run_of (plan_view plan.now) (option_map string_bytes keep.now) (map message_view messages.now)))
        (S.seen store.old) (S.seen store.new) (K.seen out.old) (K.seen out.new) (status_of result) }
    ensures spares { Spares (Run name.now (run_of (plan_view plan.now) (option_map string_bytes keep.now) (map message_view messages.now)))
        (S.seen store.old) (S.seen store.new) }
    ensures calls { Calls (Run name.now (run_of (plan_view plan.now) (option_map string_bytes keep.now) (map message_view messages.now)))
        (S.seen store.old) (S.seen store.new) (status_of result) }
{
    let (bytes, schedule) = read_run(alloc, store, name, MAX_IMAGE, plan)?;
    let image = image_in(alloc, &bytes)?;
    run_planned(alloc, image, plan, keep, messages, schedule, store, out)
}

/// Writes the image of a source file, and runs it.
fn run_go<S: Store, K: Sink>(
    alloc: Global,
    file: &str,
    name: &str,
    plan: &Plan,
    keep: &Option<String>,
    messages: &[MessageWord],
    store: &mut S,
    out: &mut K,
) -> Result<(), Status>
    requires { IsRunnable (plan_view plan.now) (option_map string_bytes keep.now) }
    ensures ends { Ends (Go file.now name.now (run_of (plan_view plan.now) (option_map string_bytes keep.now) (map message_view messages.now)))
        (S.seen store.old) (S.seen store.new) (K.seen out.old) (K.seen out.new) (status_of result) }
    ensures spares { Spares (Go file.now name.now (run_of (plan_view plan.now) (option_map string_bytes keep.now) (map message_view messages.now)))
        (S.seen store.old) (S.seen store.new) }
    ensures calls { Calls (Go file.now name.now (run_of (plan_view plan.now) (option_map string_bytes keep.now) (map message_view messages.now)))
        (S.seen store.old) (S.seen store.new) (status_of result) }
{
    let (source, schedule) = read_run(alloc, store, file, MAX_FILE, plan)?;
    let program = program_in(alloc, &source)?;
    let image = compile(alloc, &program)?;
    write_out(alloc, name, &image, store)?;
    run_planned(alloc, image, plan, keep, messages, schedule, store, out)
}

/// Prints the listing of an image.
fn run_disasm<S: Store, K: Sink>(
    alloc: Global,
    name: &str,
    store: &mut S,
    out: &mut K,
) -> Result<(), Status>
    ensures ends { Ends (Disasm name.now) (S.seen store.old) (S.seen store.new)
        (K.seen out.old) (K.seen out.new) (status_of result) }
    ensures spares { Spares (Disasm name.now) (S.seen store.old) (S.seen store.new) }
    ensures calls { Calls (Disasm name.now) (S.seen store.old) (S.seen store.new) (status_of result) }
{
    let bytes = read_file(alloc, store, name, MAX_IMAGE)?;
    let image = image_in(alloc, &bytes)?;
    let text = listing(alloc, &image)?;
    put_lines(out, &text)
}

/// Writes the image of a listing.
fn run_assemble<S: Store, K: Sink>(
    alloc: Global,
    file: &str,
    name: &str,
    store: &mut S,
    out: &mut K,
) -> Result<(), Status>
    ensures ends { Ends (Assemble file.now name.now) (S.seen store.old) (S.seen store.new)
        (K.seen out.old) (K.seen out.new) (status_of result) }
    ensures spares { Spares (Assemble file.now name.now) (S.seen store.old) (S.seen store.new) }
    ensures calls { Calls (Assemble file.now name.now) (S.seen store.old) (S.seen store.new) (status_of result) }
{
    let text = read_file(alloc, store, file, MAX_LISTING)?;
    let image = image_of_listing(alloc, &text)?;
    write_out(alloc, name, &image, store)
}

/// Writes the image of the generated file of a number, and prints the summary of its run.
fn run_gen<S: Store, K: Sink>(
    alloc: Global,
    number: u32,
    name: &str,
    store: &mut S,
    out: &mut K,
) -> Result<(), Status>
    ensures ends { Ends (Gen number name.now) (S.seen store.old) (S.seen store.new)
        (K.seen out.old) (K.seen out.new) (status_of result) }
    ensures spares { Spares (Gen number name.now) (S.seen store.old) (S.seen store.new) }
    ensures calls { Calls (Gen number name.now) (S.seen store.old) (S.seen store.new) (status_of result) }
{
    let image = generated_image(alloc, number)?;
    write_out(alloc, name, &image, store)?;
    let text = summary(alloc, image, number)?;
    put_lines(out, &text)
}

/// The status with which a command ends.
fn finished(ended: Result<(), Status>) -> Status
    ensures { result ≡ status_of ended }
{
    match ended {
        Ok(()) => Status::Done,
        Err(status) => status,
    }
}

/// Runs a command.
fn obey<S: Store, K: Sink>(alloc: Global, command: &Command, store: &mut S, out: &mut K) -> Status
    requires { CanRun (command_view command.now) }
    ensures ends { Ends (command_view command.now) (S.seen store.old) (S.seen store.new)
        (K.seen out.old) (K.seen out.new) result }
    ensures spares { Spares (command_view command.now) (S.seen store.old) (S.seen store.new) }
    ensures calls { Calls (command_view command.now) (S.seen store.old) (S.seen store.new) result }
{
    match command {
        Command::Check { file } => finished(run_check(alloc, file.as_str(), store, out)),
        Command::Compile { file, image } => {
            let (file, image) = (file.as_str(), image.as_str());
            finished(run_compile(alloc, file, image, store, out))
        }
        Command::Run {
            image,
            plan,
            keep,
            messages,
        } => {
            let image = image.as_str();
            finished(run_run(alloc, image, plan, keep, messages, store, out))
        }
        Command::Go {
            file,
            image,
            plan,
            keep,
            messages,
        } => {
            let (file, image) = (file.as_str(), image.as_str());
            finished(run_go(alloc, file, image, plan, keep, messages, store, out))
        }
        Command::Disasm { image } => finished(run_disasm(alloc, image.as_str(), store, out)),
        Command::Assemble { listing, image } => {
            let (listing, image) = (listing.as_str(), image.as_str());
            finished(run_assemble(alloc, listing, image, store, out))
        }
        Command::Gen { number, image } => {
            finished(run_gen(alloc, *number, image.as_str(), store, out))
        }
    }
}

/// Runs a command by its words, over a store of files and a sink for what it prints.
pub fn redn<S: Store, K: Sink>(
    alloc: Global,
    words: &Vec<String>,
    store: &mut S,
    out: &mut K,
) -> Status
    // What the command answers, prints and writes, and which counts rose.
    ensures ends { (c : CommandValue) → IsCommand (map string_bytes words.now.items) c
        → Ends c (S.seen store.old) (S.seen store.new) (K.seen out.old) (K.seen out.new) result }
    ensures spares { (c : CommandValue) → IsCommand (map string_bytes words.now.items) c
        → Spares c (S.seen store.old) (S.seen store.new) }
    ensures calls { (c : CommandValue) → IsCommand (map string_bytes words.now.items) c
        → Calls c (S.seen store.old) (S.seen store.new) result }

    // Other words do nothing.
    ensures no_command { ((c : CommandValue) → ¬ IsCommand (map string_bytes words.now.items) c)
        → IsNoCommand result × Stayed (S.seen store.old) (S.seen store.new) (K.seen out.old) (K.seen out.new) }
    ensures words { result ≡ Words → (c : CommandValue) → ¬ IsCommand (map string_bytes words.now.items) c }

    // Where the store tells what it holds: a reason that holds is told, and where none does the
    // command does its work, unless a call fails or memory is wanting.
    ensures demands { (files : Files) → (S.seen store.old).told ≡ Some files
        → (c : CommandValue) → IsCommand (map string_bytes words.now.items) c
        → (i : Input) → IsInput (Some files) c i → (s : Status) → First (reasons c i) s
        → IsDemanded c (S.seen store.old) (S.seen store.new) s result }
    ensures works { (files : Files) → (S.seen store.old).told ≡ Some files
        → (c : CommandValue) → IsCommand (map string_bytes words.now.items) c
        → (i : Input) → IsInput (Some files) c i → NoneHolds (reasons c i)
        → IfSpoken result (IsFinish c result) }
    ensures completes { (files : Files) → (S.seen store.old).told ≡ Some files
        → (c : CommandValue) → IsCommand (map string_bytes words.now.items) c
        → (i : Input) → IsInput (Some files) c i → NoneHolds (reasons c i)
        → NoneFailed (S.seen store.old) (S.seen store.new) (K.seen out.old) (K.seen out.new)
        → IsFinishOrWant c result }

    // And where also the messages fit, and each line of a schedule is good and possible, all is
    // done, unless a call fails or memory is wanting.
    ensures succeeds { (files : Files) → (S.seen store.old).told ≡ Some files
        → (c : CommandValue) → IsCommand (map string_bytes words.now.items) c
        → (i : Input) → IsInput (Some files) c i → NoneHolds (reasons c i)
        → IsGood c i (S.seen store.new).told
        → NoneFailed (S.seen store.old) (S.seen store.new) (K.seen out.old) (K.seen out.new)
        → DoneOrWant result }
{
    each_text_is_read_once();
    beginnings_are_read();
    match command_of(alloc, words) {
        Ok(command) => obey(alloc, &command, store, out),
        Err(WordsFault::Refused) => Status::Words,
        Err(WordsFault::Memory) => Status::Memory,
    }
}
