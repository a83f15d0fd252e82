//! The first state of a program.

ghost use Rattle.std.specs.Prelude.{◌≡◌, ◌*◌, ◌≤◌, length, map, IfOk, IfSome, slice_get};
ghost use Rattle.std.specs.Option.{option_map};
ghost use Rattle.std.specs.List.{All};
ghost use Rattle.redn_kernel.specs.Source.{fresh_chain, fresh_chains, message_words};
ghost use Rattle.redn_words.specs.Arguments.{argument_words as words_in};
ghost use Rattle.redn_source.specs.Starting.{misfit as misfit_of, misfits, FitsArguments, AllFit};
ghost use Rattle.redn_source.specs.RunView.{run_view, IsRun, CanRun};

use crate::run::Run;
use crate::weight::weight;
use redn_kernel::{ChainInit, TableInit};
use redn_words::word_at;
use std::alloc::{AllocError, Global};
use std::collections::VecDeque;

/// Why a program doesn't start.
#[derive(Clone, Copy, Debug, PartialEq, Eq)]
pub enum StartFault {
    /// A chain's message has `got` bytes where its arguments want `want`.
    Message { chain: u16, got: u64, want: u64 },
    /// Want of memory.
    Memory,
}

impl From<AllocError> for StartFault {
    ghost use Rattle.std.specs.Prelude.{◌≡◌};
    ghost use Rattle.redn_source.specs.declared.start.StartFault.TheVariants.{Memory};

    ghost from_gives = { λ _ e. e ≡ Memory };

    fn from(_e: AllocError) -> Self {
        StartFault::Memory
    }
}

/// A chain's message, as a fault where it doesn't fit the arguments.
fn misfit(number: u16, chain: &ChainInit, message: &Option<Vec<u8>>) -> Option<StartFault>
    ensures { result
        ≡ slice_get (misfit_of number chain.now (option_map (λ v. v.items) message.now)) 0 }
{
    let got = message.as_ref()?.len() as u64;
    let want = 8 * chain.args as u64;
    if got == want {
        return None;
    }
    Some(StartFault::Message {
        chain: number,
        got,
        want,
    })
}

/// The first message that doesn't fit, as the fault that it is.
pub fn first_misfit(chains: &[ChainInit], messages: &[Option<Vec<u8>>]) -> Option<StartFault>
    requires each { length messages.now ≡ length chains.now }
    requires few { length chains.now ≤ 65536 }
    ensures { result
        ≡ slice_get (misfits 0 chains.now (map (option_map (λ v. v.items)) messages.now)) 0 }
{
    for (k, chain) in chains.iter().enumerate() {
        let fault = misfit(k as u16, chain, &messages[k]);
        if fault.is_some() {
            return fault;
        }
    }
    None
}

pub fn first_tables(alloc: Global, tables: &[TableInit]) -> Result<Vec<Vec<u8>>, AllocError>
    ensures { IfOk result (λ all. map (λ v. v.items) all.items
        ≡ map (λ t. t.bytes) tables.now) }
{
    let mut all = Vec::with_capacity(alloc, tables.len())?;
    for table in tables {
        all.push(Vec::from_slice(alloc, table.bytes.as_slice())?)?;
    }
    Ok(all)
}

pub fn first_runs<'a>(
    alloc: Global,
    chains: &'a [ChainInit],
    messages: &[Option<Vec<u8>>],
) -> Result<Vec<Run<'a>>, AllocError>
    requires each { length messages.now ≡ length chains.now }
    requires can { All CanRun chains.now }
    requires fits { AllFit chains.now (map (option_map (λ v. v.items)) messages.now) }
    ensures keep { IfOk result (λ runs. All IsRun runs.items) }
    ensures fresh { IfOk result (λ runs. map run_view runs.items
        ≡ fresh_chains chains.now (map (option_map (λ v. v.items)) messages.now)) }
{
    let mut runs = Vec::with_capacity(alloc, chains.len())?;
    for (k, chain) in chains.iter().enumerate() {
        runs.push(first_run(alloc, chain, &messages[k])?)?;
    }
    Ok(runs)
}

/// A chain that has all to do, with room for all that it will ever have to do at once.
fn first_run<'a>(
    alloc: Global,
    chain: &'a ChainInit,
    message: &Option<Vec<u8>>,
) -> Result<Run<'a>, AllocError>
    requires can { CanRun chain.now }
    requires fits { FitsArguments chain.now (option_map (λ v. v.items) message.now) }
    ensures keep { IfOk result IsRun }
    ensures fresh { IfOk result (λ run. run_view run
        ≡ fresh_chain chain.now (option_map (λ v. v.items) message.now)) }
{
    let vars = Vec::from_slice(alloc, chain.vars.as_slice())?;
    let message = words_of_message(alloc, message, chain.args)?;
    // Each block that is entered needs two places, and weighs more than what stands in it.
    let room = chain.args as usize + 2 * weight(chain.body.as_slice()) + 1;
    let mut run = Run {
        vars,
        message,
        tasks: VecDeque::with_capacity(alloc, room)?,
        ended: false,
    };
    run.put_statements(chain.body.as_slice());
    run.put_arguments(chain.args);
    Ok(run)
}

/// The words of so many arguments in a message, if there is one.
fn words_of_message(
    alloc: Global,
    message: &Option<Vec<u8>>,
    args: u16,
) -> Result<Option<Vec<u64>>, AllocError>
    requires { IfSome message.now (λ bytes. 8 * args ≤ length bytes.items) }
    ensures { IfOk result (λ words. option_map (λ v. v.items) words
        ≡ message_words args (option_map (λ v. v.items) message.now)) }
{
    match message {
        Some(bytes) => Ok(Some(argument_words(alloc, bytes, args)?)),
        None => Ok(None),
    }
}

/// The words of so many arguments in these bytes.
fn argument_words(alloc: Global, bytes: &[u8], args: u16) -> Result<Vec<u64>, AllocError>
    requires { 8 * args ≤ length bytes.now }
    ensures { IfOk result (λ words. words.items ≡ words_in bytes.now 0 args) }
{
    let mut words = Vec::with_capacity(alloc, args as usize)?;
    for i in 0..args {
        let Some(word) = word_at(bytes, 8 * i as u64) else {
            unreachable!()
        };
        words.push(word)?;
    }
    Ok(words)
}
