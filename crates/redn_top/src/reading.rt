//! What is read before anything is written.

ghost use Rattle.std.specs.Prelude.{◌≡◌, ◌^◌, ◌-◌, ◌<◌, ◌≤◌, ℕ, List, [], ◌∷◌, Some, length, IfOk, IfErr, OnOk};
ghost use Rattle.std.specs.Option.{option_map};
ghost use Rattle.redn_outside.specs.Calls.{Reads, and_calls};
ghost use Rattle.redn_outside.specs.Seen.{KeepsFiles};
ghost use Rattle.redn_command.specs.Words.{plan_view};
ghost use Rattle.redn_kernel.specs.Program.{IsSound};
ghost use Rattle.redn_image.specs.Spelling.{Spells, refused};
ghost use Rattle.redn_image.specs.Answers.{SaysWhy};
ghost use Rattle.redn_image.specs.Rules.{numbers_of};
ghost use Rattle.redn_disasm.specs.Assembly.{Assembles, Made};
ghost use Rattle.redn_disasm.specs.Going.{SaysWhy as MeansNoImage};
ghost use Rattle.redn_disasm.specs.Laws.{OneMeaning};
ghost use Rattle.redn_top.specs.Calls.{GrewBy, ReadsMade, run_reads};
ghost use Rattle.redn_top.specs.Sources.{Means};
ghost use Rattle.redn_top.specs.Reasons.{NoneHolds, image_reasons, listing_reasons, source_reasons};
ghost use Rattle.redn_top.specs.Refusals.{IsHeld, IsPlanHeld, ReadRefused, Refuses, RunReadRefused};

use crate::limits::{MAX_FILE, MAX_SCHEDULE};
use crate::source::read_program;
use crate::status::{ImageFault, Status, TextFault};
use redn_command::Plan;
use redn_disasm::{ListFault, a_text_has_one_meaning, assemble};
use redn_image::{Image, read_image};
use redn_kernel::Program;
use redn_outside::{ReadFault, Store};
use std::alloc::Global;

/// A file of at most `limit` bytes.
pub fn read_file<S: Store>(
    alloc: Global,
    store: &mut S,
    name: &str,
    limit: u64,
) -> Result<Vec<u8>, Status>
    requires { limit < 2 ^ 64 - 1 }
    ensures stays { KeepsFiles (S.seen store.old) (S.seen store.new) }
    ensures held { IfOk result (λ bytes. IsHeld (S.seen store.old).told name.now limit bytes.items) }
    ensures refused { IfErr result
        (ReadRefused (S.seen store.old).told name.now limit (S.seen store.old) (S.seen store.new)) }
    ensures called { OnOk result ((S.seen store.new).calls
        ≡ and_calls (Reads name.now limit ∷ []) (S.seen store.old).calls) }
    ensures made { IfErr result (λ s. GrewBy (ReadsMade (S.seen store.old).told (Reads name.now limit ∷ []) s)
        (S.seen store.old) (S.seen store.new)) }
{
    match store.read(alloc, name, limit) {
        Ok(bytes) => Ok(bytes),
        Err(ReadFault::Failed) => Err(Status::ReadFailed),
        Err(ReadFault::Missing) => Err(Status::Missing),
        Err(ReadFault::Long { seen }) => Err(Status::Long { seen, limit }),
        Err(ReadFault::Memory) => Err(Status::Memory),
    }
}

/// A file of at most `limit` bytes, and the schedule where the plan names one.
pub fn read_run<S: Store>(
    alloc: Global,
    store: &mut S,
    name: &str,
    limit: u64,
    plan: &Plan,
) -> Result<(Vec<u8>, Option<Vec<u8>>), Status>
    requires { limit < 2 ^ 64 - 1 }
    ensures stays { KeepsFiles (S.seen store.old) (S.seen store.new) }
    ensures held { IfOk result (λ files. IsHeld (S.seen store.old).told name.now limit files.0.items) }
    ensures schedule_held { IfOk result (λ files. IsPlanHeld (S.seen store.old).told (plan_view plan.now)
        (option_map (λ v. v.items) files.1)) }
    ensures refused { IfErr result (RunReadRefused (S.seen store.old).told name.now limit (plan_view plan.now)
        (S.seen store.old) (S.seen store.new)) }
    ensures called { OnOk result ((S.seen store.new).calls
        ≡ and_calls (run_reads name.now limit (plan_view plan.now)) (S.seen store.old).calls) }
    ensures made { IfErr result (λ s. GrewBy
        (ReadsMade (S.seen store.old).told (run_reads name.now limit (plan_view plan.now)) s)
        (S.seen store.old) (S.seen store.new)) }
{
    let first = read_file(alloc, store, name, limit)?;
    match plan {
        Plan::Schedule { file } => {
            let second = read_file(alloc, store, file.as_str(), MAX_SCHEDULE)?;
            Ok((first, Some(second)))
        }
        Plan::Fair { .. } | Plan::Shuffle { .. } => Ok((first, None)),
    }
}

/// The program of a source text.
pub fn program_in(alloc: Global, text: &[u8]) -> Result<Program, Status>
    requires { length text.now ≤ MAX_FILE }
    ensures means { IfOk result (Means text.now) }
    ensures sound { IfOk result IsSound }
    ensures accepted { OnOk result (NoneHolds (source_reasons (Some text.now))) }
    ensures refused { IfErr result (Refuses (source_reasons (Some text.now))) }
{
    read_program(alloc, text)
}

/// How it is told that bytes spell no image.
fn refused_image(fault: redn_image::ImageFault) -> Status
    ensures { (bytes : List ℕ) → SaysWhy (refused bytes) fault → Refuses (image_reasons (Some bytes)) result }
{
    let told = match fault {
        redn_image::ImageFault::Magic => ImageFault::Magic,
        redn_image::ImageFault::Version { v } => ImageFault::Version { v },
        redn_image::ImageFault::Short { need } => ImageFault::Short { need },
        redn_image::ImageFault::Trailing { n } => ImageFault::Trailing { n },
        redn_image::ImageFault::Rule { number, index } => ImageFault::Rule { number, index },
        redn_image::ImageFault::Memory => return Status::Memory,
    };
    Status::Image(told)
}

/// The image that bytes spell.
pub fn image_in(alloc: Global, bytes: &[u8]) -> Result<Image, Status>
    ensures spells { IfOk result (λ image. Spells bytes.now image) }
    ensures accepted { OnOk result (NoneHolds (image_reasons (Some bytes.now))) }
    ensures refused { IfErr result (Refuses (image_reasons (Some bytes.now))) }
{
    match read_image(alloc, bytes) {
        Ok(image) => Ok(image),
        Err(fault) => Err(refused_image(fault)),
    }
}

/// How it is told that a listing has no image.
fn refused_listing(fault: ListFault) -> Status
    ensures { OneMeaning → (text : List ℕ) → MeansNoImage text fault → Refuses (listing_reasons (Some text)) result }
{
    match fault {
        ListFault::Line { line } => Status::Text(TextFault::Line { line }),
        ListFault::Rule { number, index } => Status::Image(ImageFault::Rule { number, index }),
        ListFault::Memory => Status::Memory,
    }
}

/// The image of a listing.
pub fn image_of_listing(alloc: Global, text: &[u8]) -> Result<Image, Status>
    ensures means { IfOk result (λ i. Assembles text.now (Made (numbers_of i) i.memory)) }
    ensures accepted { OnOk result (NoneHolds (listing_reasons (Some text.now))) }
    ensures refused { IfErr result (Refuses (listing_reasons (Some text.now))) }
{
    a_text_has_one_meaning();
    match assemble(alloc, text) {
        Ok(image) => Ok(image),
        Err(fault) => Err(refused_listing(fault)),
    }
}
