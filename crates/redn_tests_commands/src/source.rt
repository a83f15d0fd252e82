//! The source's own steps, which no command makes.

ghost use Rattle.std.specs.Prelude.{◌≡◌, ◌^◌, ◌<◌, length, IfOk};
ghost use Rattle.redn_kernel.specs.Program.{IsSound};

use crate::echo::ECHO;
use redn_check::check;
use redn_kernel::Program;
use redn_lex::lex;
use redn_parse::parse;
use redn_source::{SourceAnswer, SourceState, StartFault};
use redn_words::{Messages, Obs};
use std::alloc::Global;
use std::test::Fail;

/// The program of a source text.
fn program(alloc: Global, text: &[u8]) -> Result<Program, Fail>
    requires { length text.now < 2 ^ 32 }
    ensures { IfOk result IsSound }
{
    let tokens = lex(alloc, text)?;
    let file = parse(alloc, &tokens)?;
    Ok(check(alloc, &file)?)
}

/// The messages for a program of one chain.
fn one_message(alloc: Global, message: &[u8]) -> Result<Messages, Fail>
    ensures { IfOk result (λ ms. length ms ≡ 1) }
{
    let list = vec![in alloc; Some(Vec::from_slice(alloc, message)?)]?;
    Ok(Messages { list })
}

#[test]
fn a_source_takes_its_argument_and_replies_it(rt: HostRuntime) -> Result<(), Fail> {
    let alloc = rt.alloc();
    let p = program(alloc, ECHO)?;
    assert_eq!(rt; p.chains.as_slice().len(), 1);
    let (chain, got, want) = (0, 1, 8);
    let short = SourceState::start(alloc, &p, &one_message(alloc, &[42])?);
    assert_eq!(rt; short.err(), Some(StartFault::Message { chain, got, want }));
    let messages = one_message(alloc, &42u64.to_be_bytes())?;
    let mut state = SourceState::start(alloc, &p, &messages)?;
    let (var, word) = (0, 42);
    let set = Obs::Set { chain, var, word };
    assert_eq!(rt; state.source_step(chain), SourceAnswer::Event(set));
    let words = [word, 0, 0, 0, 0, 0, 0, 0];
    let reply = Obs::Reply {
        chain,
        count: 1,
        words,
    };
    assert_eq!(rt; state.source_step(chain), SourceAnswer::Event(reply));
    assert_eq!(rt; state.source_step(chain), SourceAnswer::Ended);
    assert_eq!(rt; state.variables(chain), [word].as_slice());
    Ok(())
}
