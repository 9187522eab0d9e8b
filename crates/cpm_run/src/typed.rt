//! A session that is typed at, before the others are played.
ghost use Rattle.std.specs.Prelude.{◌<◌, Some, None, IfErr, IfOk};
ghost use Rattle.cpm_batch.specs.Inputs.{IsOpened, start_view};
ghost use Rattle.cpm_config.specs.Rules.{place_of};
ghost use Rattle.cpm_play.specs.Cued.{AreAscii};
ghost use Rattle.cpm_script.specs.Cues.{all_said};
ghost use Rattle.cpm_run.specs.Refusing.{IsPlaceRefusal, IsTypedPlace, IsTypingRefusal};
ghost use Rattle.cpm_run.specs.Settled.{IsTypedBy, streams};
ghost use Rattle.cpm_run.specs.Settling.{IsOpenable};

use crate::alone::machine_of;
use crate::error::RunError;
use crate::options::RunOptions;
use crate::part::last_fork;
use cpm_batch::Input;
use cpm_config::{Config, Origin, place_of};
use cpm_geom::Image;
use cpm_play::{LivePlay, TypedPlay, Typist, play_live};
use cpm_shown::shown;
use std::alloc::Global;
use std::io;
use std::io::Write;

/// The place of the session that is to be typed at, if one is.
pub(crate) fn typed_place(
    config: &Config,
    options: RunOptions<'_>,
) -> Result<Option<usize>, RunError>
    ensures place { IfOk result (IsTypedPlace config.now options.entry) }
    ensures refusal { IfErr result (IsPlaceRefusal config.now options.entry) }
{
    let Some(name) = options.typed else {
        return Ok(None);
    };
    let sessions = config.sessions.as_slice();
    let Some(place) = place_of(sessions, name) else {
        return Err(RunError::NoSession(shown(name)));
    };
    match &sessions[place].origin {
        Origin::Opened { .. } | Origin::Restored { .. } => Ok(Some(place)),
        Origin::Forked { .. } => Err(RunError::NotOpened(shown(name))),
    }
}

/// Plays a session by itself, by its script and then by the keys that are typed, without a limit of steps. A typist that isn't patient may break in on the
/// script. What the session prints is dropped. It gives its keys, each with the count at which it was accepted, how many steps the session then has, and why
/// no more was typed.
pub(crate) fn type_at<P: Typist, W: Write, R: Write>(
    alloc: Global,
    config: &Config,
    name: &str,
    system: &Image,
    session: &Input<'_>,
    typist: &mut P,
    out: &mut W,
    record: &mut R,
) -> Result<TypedPlay, RunError>
    requires opened { IsOpened (start_view session.now.start) }
    requires openable { IsOpenable (start_view session.now.start) }
    requires ascii { AreAscii session.now.cues.items }
    ensures typed { IfOk result (λ t. IsTypedBy system.now config.now.sessions.items name.now (start_view session.now.start) (all_said session.now.cues)
        (streams (P.typing typist.old) (P.typing typist.new) (W.contents out.old) (W.contents out.new) (R.contents «record».old) (R.contents «record».new))
        t.live.keys.items t.live.steps t.end) }
    ensures refusal { IfErr result (IsTypingRefusal system.now (start_view session.now.start) (all_said session.now.cues)
        (streams (P.typing typist.old) (P.typing typist.new) (W.contents out.old) (W.contents out.new)
        (R.contents «record».old) (R.contents «record».new))) }
{
    let mut machine = machine_of(alloc, &session.start)?;
    let play = play_live(
        alloc,
        system,
        &mut machine,
        u64::MAX,
        session.cues.as_slice(),
        typist,
        out,
        &mut io::sink(),
        record,
    )?;
    let last = last_fork(config, name).saturating_sub(session.start.saved_count());
    let LivePlay { keys, steps } = play.live;
    let live = LivePlay {
        keys,
        steps: last.max(steps),
    };
    Ok(TypedPlay {
        live,
        end: play.end,
    })
}
