//! A fair run, counted.

ghost use Rattle.std.specs.Prelude.{◌≡◌, ◌+◌, ◌^◌, ◌<◌, ◌++◌, [], length, IfOk, OnOk, filter};
ghost use Rattle.redn_words.specs.Runs.{shown_then};
ghost use Rattle.redn_sched.specs.MadeSchedules.{fair_from};
ghost use Rattle.redn_summary.specs.Counting.{Counts, is_reply};

use redn_adapter::Adapter;
use redn_sched::Fair;
use redn_trace::each_event_has_a_line;
use redn_words::{Memory, Obs};
use std::alloc::Global;

/// How many steps the run may take. It needs fewer: at most four chains take at most 6,004 source
/// steps each, and a source step takes at most 160 useful actions.
pub const MAX_SUMMARY_STEPS: u64 = 8_000_000;

/// What a run did: how many steps it made, how many events they showed, and the replies among them.
#[derive(Drop)]
pub struct Counted {
    pub steps: u64,
    pub events: u64,
    pub replies: Vec<Obs>,
}

impl Counted {
    /// Counts a step that shows this.
    fn add(&mut self, shown: Obs) -> Result<(), Memory>
        requires steps { self.old.steps < 2 ^ 62 }
        requires events { self.old.events < 2 ^ 62 }
        ensures steps { OnOk result (self.new.steps ≡ self.old.steps + 1) }
        ensures events { OnOk result (self.new.events ≡ self.old.events + length (shown_then shown [])) }
        ensures replies { OnOk result (self.new.replies.items ≡ self.old.replies.items ++ filter is_reply (shown_then shown [])) }
    {
        self.steps += 1;
        match shown {
            Obs::Nothing => {}
            Obs::Reply { .. } => {
                self.events += 1;
                self.replies.push(shown)?;
            }
            _ => self.events += 1,
        }
        Ok(())
    }
}

/// Makes fair steps, until nothing useful is left or so many are made, and counts what they show.
pub fn count_run(
    alloc: Global,
    adapter: &mut Adapter,
    fair: &mut Fair,
    steps: u64,
) -> Result<Counted, Memory>
    requires fits { length fair.old.queues ≡ length adapter.old.state.chains }
    requires few { adapter.old.steps + steps < 2 ^ 62 }
    ensures { IfOk result (Counts adapter.old.state steps (fair_from steps adapter.old.state fair.old)) }
{
    each_event_has_a_line();
    let mut counted = Counted {
        steps: 0,
        events: 0,
        replies: Vec::new(alloc),
    };
    for _ in 0..steps {
        let Some(action) = fair.next_fair(adapter) else {
            return Ok(counted);
        };
        let Some(shown) = adapter.step(action) else {
            unreachable!()
        };
        counted.add(shown)?;
    }
    Ok(counted)
}
