//! From what was read of a run to what its sessions are played by.
ghost use Rattle.std.specs.Prelude.{◌≡◌, [], None, IfErr, IfOk, map, option_map};
ghost use Rattle.std.specs.List.{All};
ghost use Rattle.cpm_batch.specs.Inputs.{given};
ghost use Rattle.cpm_slots.specs.Host.{new_host};
ghost use Rattle.cpm_script.specs.Laws.{KeysAreAscii};
ghost use Rattle.cpm_run.specs.Refusing.{IsSettleRefusal, IsTypedPlace};
ghost use Rattle.cpm_run.specs.Run.{AllAccepted, starts_read};
ghost use Rattle.cpm_run.specs.Settled.{IsTypedIfAny, settled_view, streams, typed_view};
ghost use Rattle.cpm_run.specs.Settling.{AreFitInputs, AreSound, AreSettledBy, BeginsAsConfigured};

use crate::error::RunError;
use crate::openings::judge_openings;
use crate::options::RunOptions;
use crate::settle::settle;
use crate::settled::SettledInput;
use crate::typed::type_at;
use crate::watcher::{RunStage, RunWatcher};
use cpm_batch::Input;
use cpm_config::Config;
use cpm_geom::Image;
use cpm_play::{TypedPlay, Typist};
use std::alloc::Global;
use std::io::Write;

/// What is typed at the session that is named, if one is.
fn type_if_any<P: Typist, W: Write, R: Write, T: RunWatcher>(
    alloc: Global,
    config: &Config,
    options: RunOptions<'_>,
    typed: Option<usize>,
    system: &Image,
    inputs: &[Input<'_>],
    typist: &mut P,
    out: &mut W,
    record: &mut R,
    watcher: &mut T,
) -> Result<Option<(usize, TypedPlay)>, RunError>
    requires place { IsTypedPlace config.now options typed }
    requires sessions { map (λ i. i.session) (map given inputs.now) ≡ config.now.sessions.items }
    requires starts { All BeginsAsConfigured (map given inputs.now) }
    requires accepted { AllAccepted (starts_read (map given inputs.now)) (new_host system.now config.now.frames)
        (starts_read (map given inputs.now)) }
    requires ascii { All (λ i. KeysAreAscii i.said) (map given inputs.now) }
    ensures typed { IfOk result (λ t. IsTypedIfAny system.now config.now.sessions.items (option_map (λ n. n.now) options.entry.typed)
        (map given inputs.now)
        (streams (P.typing typist.old) (P.typing typist.new) (W.contents out.old) (W.contents out.new) (R.contents «record».old) (R.contents «record».new))
        (typed_view t)) }
    ensures refusal { IfErr result (IsSettleRefusal config.now options.entry
        (streams (P.typing typist.old) (P.typing typist.new) (W.contents out.old) (W.contents out.new) (R.contents «record».old) (R.contents «record».new))
        system.now (map given inputs.now)) }
{
    let (Some(name), Some(place)) = (options.typed, typed) else {
        return Ok(None);
    };
    watcher.begin(RunStage::Typing);
    let session = &inputs[place];
    let heard = type_at(alloc, config, name, system, session, typist, out, record)?;
    Ok(Some((place, heard)))
}

/// Judges all openings and forks before a session is played; then settles all sessions, that at which one types first.
pub(crate) fn settle_inputs<'a, P: Typist, W: Write, R: Write, T: RunWatcher>(
    alloc: Global,
    config: &Config,
    options: RunOptions<'_>,
    typed: Option<usize>,
    system: &Image,
    inputs: Vec<Input<'a>>,
    typist: &mut P,
    out: &mut W,
    record: &mut R,
    watcher: &mut T,
) -> Result<Vec<SettledInput<'a>>, RunError>
    requires place { IsTypedPlace config.now options typed }
    requires sessions { map (λ i. i.session) (map given inputs.items) ≡ config.now.sessions.items }
    requires starts { All BeginsAsConfigured (map given inputs.items) }
    requires fit { AreFitInputs None [] (map given inputs.items) }
    ensures settled { IfOk result (λ s. AreSettledBy config.now options.entry
        (streams (P.typing typist.old) (P.typing typist.new) (W.contents out.old) (W.contents out.new) (R.contents «record».old) (R.contents «record».new))
        system.now (map given inputs.entry.items) (map settled_view s.items)) }
    ensures sound { IfOk result (λ s. AreSound system.now (map settled_view s.items)) }
    ensures refusal { IfErr result (IsSettleRefusal config.now options.entry
        (streams (P.typing typist.old) (P.typing typist.new) (W.contents out.old) (W.contents out.new) (R.contents «record».old) (R.contents «record».new))
        system.now (map given inputs.entry.items)) }
{
    let sessions = inputs.as_slice();
    judge_openings(config, system, sessions)?;
    let heard = type_if_any(
        alloc, config, options, typed, system, sessions, typist, out, record, watcher,
    )?;
    let settled = settle(alloc, config, options, system, inputs, &heard, watcher)?;
    Ok(settled)
}
