//! One machine that is played live.

ghost use Rattle.std.specs.Prelude.{◌≡◌, ◌≤◌, ◌<◌, ◌++◌, ◌∷◌, [], false, true, length, IfErr, IfOk, OnErr, OnOk};
ghost use Rattle.std.specs.Io.KnownBytes.{Appends};
ghost use Rattle.cpm_script.specs.Recording.{key_line, recorded};
ghost use Rattle.cpm_machine.specs.Serve.{keyed, look_of, takes_key};
ghost use Rattle.cpm_machine.specs.Step.{after, is_running};
ghost use Rattle.cpm_play.specs.Cued.{AreAscii, IsCutOff, StaysCued, key_count, known_to};
ghost use Rattle.cpm_play.specs.Live.{AreGiven, IsGoing, IsNotGiven, IsUnreadable, IsUnshown};
ghost use Rattle.cpm_play.specs.Output.{GetsOutput, output_state};
ghost use Rattle.cpm_play.specs.Playing.{EndsAs, IsQuiet, alone_by, waits_at, state_left, without_list, without_text};
ghost use Rattle.cpm_play.specs.Sitting.{IsTypedPlay, IsPlayCut, sitting};
ghost use Rattle.cpm_play.specs.Typist.{CanBeHeard, HasAttended, HasHeardNothing, IsHeard, IsHeardPatiently, is_over};
ghost use Rattle.cpm_play.specs.Wanting.{HasWatched, IsWatchedTurn, longest_turn};
ghost use Rattle.cpm_play.specs.declared.typist.KeyNeed.TheVariants.{Wanted};

use crate::cued::{CuedKeys, follow};
use crate::machine::{move_list, move_text};
use crate::typist::{Heard, KeyNeed, TypingEnd, Typist};
use crate::watch::Watch;
use cpm_geom::Image;
use cpm_machine::Machine;
use cpm_script::{Cue, Key, key_line};
use std::alloc::Global;
use std::io;
use std::io::{ErrorKind, Write};
use thiserror::Error;

/// Why a live session was not played to its end.
#[derive(Clone, Copy, Debug, Drop, Error)]
pub enum LiveError {
    /// The typist failed.
    #[error("can't read keys: {0}")]
    Unreadable(io::Error),
    /// The console's text can't be written.
    #[error("can't write the console: {0}")]
    Unwritable(io::Error),
    /// The list device's bytes can't be written.
    #[error("can't write the list device: {0}")]
    Unprinted(io::Error),
    /// A key can't be recorded.
    #[error("can't record keys: {0}")]
    Unrecorded(io::Error),
    /// Memory was refused.
    #[error("out of memory")]
    OutOfMemory,
}

/// A session that was played live: its keys, each with the count of steps at which it came, and how many steps it executed.
#[derive(Drop)]
pub struct LivePlay {
    pub keys: Vec<Key>,
    pub steps: u64,
}

/// Why the play of a session that was typed at ended.
#[derive(Clone, Copy, PartialEq, Eq, Drop)]
pub enum PlayEnd {
    /// It has executed all its steps.
    Steps,
    /// The machine has ended.
    Ended,
    /// No more was typed.
    Typing(TypingEnd),
}

/// A session that was typed at, and why that ended.
#[derive(Drop)]
pub struct TypedPlay {
    pub live: LivePlay,
    pub end: PlayEnd,
}

/// What is heard of a typist.
fn hear<T: Typist>(typist: &mut T, need: KeyNeed, count: u64) -> Result<Heard, LiveError>
    ensures heard { IfOk result (IsHeard count (T.typing typist.old) (T.typing typist.new)) }
    ensures fits { IfOk result (CanBeHeard need) }
    ensures patient { (T.typing typist.old).is_patient ≡ true → IfOk result (IsHeardPatiently need) }
    ensures nature { (T.typing typist.new).is_patient ≡ (T.typing typist.old).is_patient }
    ensures none { OnErr result (HasHeardNothing (T.typing typist.old) (T.typing typist.new)) }
    ensures early { (T.typing typist.old).is_patient ≡ true → OnErr result (need ≡ Wanted) }
    ensures refused { IfErr result IsUnreadable }
{
    typist.hear(need, count).map_err(LiveError::Unreadable)
}

/// The refusal of a typist that was asked again and again and gave nothing.
fn unheard() -> LiveError
    ensures { IsUnreadable result }
{
    LiveError::Unreadable(io::Error::new(ErrorKind::TimedOut, "no key came"))
}

/// Writes the line of a key at once.
fn write_line<S: Write>(record: &mut S, key: Key) -> io::Result<()>
    requires { key.byte < 128 }
    ensures { OnOk result (Appends (S.contents record.old) (S.contents record.new) (key_line key)) }
{
    if let Some(line) = key_line(key) {
        record.write_all(line.as_bytes())?;
        record.flush()?;
    }
    Ok(())
}

impl LivePlay {
    /// Presses a key where the machine stands, and records it before.
    pub(crate) fn give<S: Write>(
        &mut self,
        machine: &mut Machine,
        byte: u8,
        record: &mut S,
    ) -> Result<(), LiveError>
        requires ascii { byte < 128 }
        requires room { takes_key machine.old ≡ true }
        ensures key { OnOk result (self.new.keys.items ≡ self.old.keys.items ++ record { count = self.old.steps; byte = byte } ∷ []) }
        ensures steps { self.new.steps ≡ self.old.steps }
        ensures pressed { OnOk result (machine.new ≡ keyed byte machine.old) }
        ensures record { OnOk result (Appends (S.contents record.old) (S.contents record.new) (key_line (record { count = self.old.steps; byte = byte }))) }
        ensures refused { IfErr result (λ e. IsNotGiven e (S.contents record.old) (S.contents record.new)) }
        ensures waits { OnErr result (machine.new ≡ machine.old) }
    {
        let key = Key {
            count: self.steps,
            byte,
        };
        if self.keys.push(key).is_err() {
            return Err(LiveError::OutOfMemory);
        }
        if let Err(error) = write_line(record, key) {
            return Err(LiveError::Unrecorded(error));
        }
        // There is room for it, so that it is not refused.
        let _ = machine.key(byte);
        Ok(())
    }
}

/// Moves all console bytes to the console, and then all list bytes to the list device.
pub(crate) fn show<W: Write, L: Write>(
    machine: &mut Machine,
    out: &mut W,
    list: &mut L,
) -> Result<(), LiveError>
    ensures state { OnOk result (machine.new ≡ without_list (without_text machine.old)) }
    ensures output { OnOk result (GetsOutput
        (output_state (W.contents out.old) (L.contents list.old)) (output_state (W.contents out.new) (L.contents list.new)) machine.old) }
    ensures refused { IfErr result (IsUnshown machine.old
        (output_state (W.contents out.old) (L.contents list.old)) (output_state (W.contents out.new) (L.contents list.new))) }
{
    if let Err(error) = move_text(machine, out) {
        return Err(LiveError::Unwritable(error));
    }
    move_list(machine, list).map_err(LiveError::Unprinted)
}

/// Executes the steps of a turn, at most so many, and says how many. For a patient typist the calls are watched that ask for a key.
fn turn(
    system: &Image,
    machine: &mut Machine,
    left: u64,
    is_patient: bool,
    watch: &mut Watch,
) -> u64
    requires some { 0 < left }
    requires busy { (look_of machine.old).waiting ≡ false }
    ensures within { result ≤ left }
    ensures few { result ≤ longest_turn }
    ensures state { machine.new ≡ after system.now result machine.old }
    ensures ended { result ≡ 0 → IsQuiet machine.old → is_running machine.old.ended ≡ false }
    ensures watched { HasWatched watch.old watch.new result machine.new }
    ensures counted { is_patient ≡ true → IsWatchedTurn system.now left watch.old watch.new result machine.old machine.new }
{
    let most = watch.most().min(left);
    if is_patient {
        let granted = machine.grant_until(system, most, watch.address());
        watch.see(&machine.look(), granted.why);
        granted.executed
    } else {
        let executed = machine.grant_to_wait(system, most);
        watch.pass();
        executed
    }
}

/// Plays a machine by a script, as far as its keys come or until the typist breaks in. What waits to be taken is shown first. Where the script says nothing,
/// nothing else is done.
fn play_script<T: Typist, W: Write, L: Write, S: Write>(
    alloc: Global,
    system: &Image,
    machine: &mut Machine,
    steps: u64,
    cues: &[Cue],
    typist: &mut T,
    out: &mut W,
    list: &mut L,
    record: &mut S,
) -> Result<LivePlay, LiveError>
    requires ascii { AreAscii cues.now }
    ensures going { IfOk result (λ live. IsGoing system.now steps (key_count cues.entry.now) machine.old machine.new
        (output_state (W.contents out.old) (L.contents list.old)) (output_state (W.contents out.new) (L.contents list.new))
        (S.contents record.old) (S.contents record.new) live.keys.items live.steps) }
    ensures keys { IfOk result (λ live. StaysCued system.now machine.old steps
        (known_to (is_over (T.typing typist.new)) live.steps steps) live.steps 0 cues.entry.now live.keys.items) }
    ensures attended { HasAttended (T.typing typist.old) (T.typing typist.new) }
    ensures none { IfOk result (λ live. cues.entry.now ≡ [] → live.steps ≡ 0) }
    ensures refused { IfErr result (IsCutOff system.now steps 0 cues.entry.now machine.old machine.new
        (output_state (W.contents out.old) (L.contents list.old)) (output_state (W.contents out.new) (L.contents list.new))
        (S.contents record.old) (S.contents record.new)) }
{
    if cues.is_empty() {
        show(machine, out, list)?;
        return Ok(LivePlay {
            keys: Vec::new(alloc),
            steps: 0,
        });
    }
    let cued = CuedKeys {
        cues,
        waits_from: 0,
        stops_idle: false,
    };
    follow(
        alloc, system, machine, steps, cued, out, list, record, typist,
    )
}

/// Plays one machine for at most so many steps, by what a script says and then by the keys that are typed. Its console bytes go to `out` and its list bytes to
/// `list`, as they come. What waits to be taken is shown first. A typist that isn't patient may break in on the script: then it is asked from there on.
///
/// The typist is asked after each turn. Each key is pressed at the count where the machine then stands, and written to `record` as a line of a key script: by
/// these lines the machine shows and does the same again. A machine that waits for a key executes no step before it comes.
///
/// `Unreadable` has the typist's error, `Unwritable`, `Unprinted` and `Unrecorded` those of the writers. `OutOfMemory` comes where memory for a key is refused.
pub fn play_live<T: Typist, W: Write, L: Write, S: Write>(
    alloc: Global,
    system: &Image,
    machine: &mut Machine,
    steps: u64,
    cues: &[Cue],
    typist: &mut T,
    out: &mut W,
    list: &mut L,
    record: &mut S,
) -> Result<TypedPlay, LiveError>
    requires ascii { AreAscii cues.now }
    ensures within { IfOk result (λ play. play.live.steps ≤ steps) }
    ensures keys { IfOk result (λ play. AreGiven (length play.live.keys.items) play.live.steps play.live.keys.items) }
    ensures played { IfOk result (λ play. IsTypedPlay (sitting (T.typing typist.old).is_patient system.now machine.old steps cues.entry.now)
        (T.typing typist.old) (T.typing typist.new) play.live.keys.items play.live.steps play.end) }
    ensures text { IfOk result (λ play. Appends (W.contents out.old) (W.contents out.new)
        (alone_by system.now play.live.keys.items play.live.steps machine.old).session.console.screen) }
    ensures list { IfOk result (λ play. Appends (L.contents list.old) (L.contents list.new)
        (alone_by system.now play.live.keys.items play.live.steps machine.old).session.console.printer) }
    ensures ending { IfOk result (λ play. EndsAs (alone_by system.now play.live.keys.items play.live.steps machine.old) machine.new) }
    ensures state { IfOk result (λ play. machine.new ≡ state_left system.now play.live.keys.items play.live.steps machine.old) }
    ensures record { IfOk result (λ play. Appends (S.contents record.old) (S.contents record.new) (recorded play.live.keys.items)) }
    ensures waits { IfOk result (λ play. (look_of machine.new).waiting ≡ waits_at system.now machine.old play.live.keys.items play.live.steps) }
    ensures refused { IfErr result (IsPlayCut (sitting (T.typing typist.old).is_patient system.now machine.old steps cues.entry.now) machine.new
        (output_state (W.contents out.old) (L.contents list.old)) (output_state (W.contents out.new) (L.contents list.new))
        (S.contents record.old) (S.contents record.new) (T.typing typist.old) (T.typing typist.new)) }
{
    let mut live = play_script(
        alloc, system, machine, steps, cues, typist, out, list, record,
    )?;
    let is_patient = typist.is_patient();
    let mut watch = Watch::new();
    let mut asks = u64::MAX;
    while live.steps < steps {
        let need = watch.need(&machine.look());
        match hear(typist, need, live.steps)? {
            Heard::End(end) => {
                let end = PlayEnd::Typing(end);
                return Ok(TypedPlay { live, end });
            }
            Heard::Key(byte) => {
                live.give(machine, byte, record)?;
                watch.give();
            }
            Heard::Nothing if need.wants_key() => {
                if asks == 0 {
                    return Err(unheard());
                }
                asks -= 1;
            }
            Heard::Nothing => {
                let most = typist.most_steps().min(steps - live.steps);
                let executed = turn(system, machine, most, is_patient, &mut watch);
                if executed == 0 {
                    let end = PlayEnd::Ended;
                    return Ok(TypedPlay { live, end });
                }
                live.steps += executed;
                show(machine, out, list)?;
            }
        }
    }
    let end = PlayEnd::Steps;
    Ok(TypedPlay { live, end })
}
