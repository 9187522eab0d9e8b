//! Grants that stop before the program comes to an address, over any memory.

ghost use Rattle.std.specs.Prelude.{◌≡◌, ◌≤◌};
ghost use Rattle.cpm_decode.specs.Cache.{IsRightFor};
ghost use Rattle.cpm_machine.specs.Runner.{state_of, IsRunnerSound};
ghost use Rattle.cpm_machine.specs.Step.{after};
ghost use Rattle.cpm_machine.specs.Until.{begins_at, can_go_on, executed_until, why_until};

use crate::reply::{End, Granted, Why};
use crate::steps::{Runner, can_step, step_or_wait};
use cpm_bdos::{Mode, Session};
use cpm_geom::Image;
use cpm_memory::Memory;

/// Whether the next step begins in the program at this address.
fn begins_at(session: &Session, pc: u16) -> bool
    ensures { result ≡ begins_at pc session.now }
{
    session.mode == Mode::Program && session.regs.pc == pc
}

/// Whether a grant that executed so many steps makes a further one.
fn can_go_on<M: Memory>(runner: &Runner, memory: &M, pc: u16, executed: u64) -> bool
    ensures { result ≡ can_go_on pc executed (state_of runner.now (M.contents memory.now)) }
{
    can_step(runner, memory) && (executed == 0 || !begins_at(&runner.session, pc))
}

/// Why a grant ended here.
fn why_ended<M: Memory>(runner: &Runner, memory: &M, pc: u16, steps: u64, executed: u64) -> Why
    ensures { result ≡ why_until pc steps executed (state_of runner.now (M.contents memory.now)) }
{
    let _ = memory.touched();
    if executed == steps {
        Why::All
    } else if runner.ended != End::Running {
        Why::Stopped
    } else if executed != 0 && begins_at(&runner.session, pc) {
        Why::Break
    } else {
        Why::Blocked
    }
}

/// Executes the greatest number of steps, at most `steps`, that can be made and of which none but the first begins in the
/// program at `pc`.
pub fn grant_until<M: Memory>(
    system: &Image,
    runner: &mut Runner,
    memory: &mut M,
    steps: u64,
    pc: u16,
) -> Granted
    requires sound { IsRunnerSound (state_of runner.old (M.contents memory.old)) }
    requires right { IsRightFor (M.contents memory.old) (M.stamps memory.old) runner.old.cache }
    ensures executed { result.executed ≡ executed_until system.now pc steps (state_of runner.old (M.contents memory.old)) }
    ensures within { result.executed ≤ steps }
    ensures why { result.why ≡ why_until pc steps result.executed (state_of runner.new (M.contents memory.new)) }
    ensures state { state_of runner.new (M.contents memory.new) ≡ after system.now result.executed (state_of runner.old (M.contents memory.old)) }
    ensures sound { IsRunnerSound (state_of runner.new (M.contents memory.new)) }
    ensures right { IsRightFor (M.contents memory.new) (M.stamps memory.new) runner.new.cache }
    ensures leads { M.Leads memory.old memory.new }
{
    let mut executed = 0;
    while executed < steps && can_go_on(runner, memory, pc, executed) {
        // Of steps that begin at the address only the first may be made.
        let most = if begins_at(&runner.session, pc) {
            1
        } else {
            steps - executed
        };
        executed += step_or_wait(system, runner, memory, most);
    }
    let why = why_ended(runner, memory, pc, steps, executed);
    Granted { executed, why }
}
