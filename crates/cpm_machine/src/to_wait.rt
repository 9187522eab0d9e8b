//! Grants that stop where the machine begins to wait for a key, over any memory.

ghost use Rattle.std.specs.Prelude.{◌≡◌, ◌≤◌};
ghost use Rattle.cpm_decode.specs.Cache.{IsRightFor};
ghost use Rattle.cpm_machine.specs.Runner.{state_of, IsRunnerSound};
ghost use Rattle.cpm_machine.specs.Step.{after};
ghost use Rattle.cpm_machine.specs.ToWait.{can_work, executed_to_wait};

use crate::steps::{Runner, can_step, run};
use cpm_bdos::waits;
use cpm_geom::Image;
use cpm_memory::Memory;

/// Whether a step can be made, and would wait for no key.
fn can_work<M: Memory>(runner: &Runner, memory: &M) -> bool
    ensures { result ≡ can_work (state_of runner.now (M.contents memory.now)) }
{
    can_step(runner, memory) && !waits(&runner.session, memory)
}

/// Executes the greatest number of steps, at most `steps`, that can be made and of which none waits for a key; says how many.
pub fn grant_to_wait<M: Memory>(
    system: &Image,
    runner: &mut Runner,
    memory: &mut M,
    steps: u64,
) -> u64
    requires sound { IsRunnerSound (state_of runner.old (M.contents memory.old)) }
    requires right { IsRightFor (M.contents memory.old) (M.stamps memory.old) runner.old.cache }
    ensures executed { result ≡ executed_to_wait system.now steps (state_of runner.old (M.contents memory.old)) }
    ensures within { result ≤ steps }
    ensures state { state_of runner.new (M.contents memory.new) ≡ after system.now result (state_of runner.old (M.contents memory.old)) }
    ensures sound { IsRunnerSound (state_of runner.new (M.contents memory.new)) }
    ensures right { IsRightFor (M.contents memory.new) (M.stamps memory.new) runner.new.cache }
    ensures leads { M.Leads memory.old memory.new }
{
    let mut executed = 0;
    while executed < steps && can_work(runner, memory) {
        executed += run(system, runner, memory, steps - executed);
    }
    executed
}
