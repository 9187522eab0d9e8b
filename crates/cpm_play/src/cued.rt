//! One machine that is played by a script that may wait.

ghost use Rattle.std.specs.Prelude.{◌≡◌, ◌-◌, ◌<◌, ◌≤◌, max, ◌++◌, ◌∷◌, [], ◌⊎◌, true, false, IfErr, IfOk, OnErr, OnOk};
ghost use Rattle.std.specs.Io.KnownBytes.{Appends};
ghost use Rattle.cpm_script.specs.Recording.{recorded};
ghost use Rattle.cpm_machine.specs.Serve.{look_of, takes_key};
ghost use Rattle.cpm_machine.specs.Step.{after, is_running};
ghost use Rattle.cpm_play.specs.Cued.{AreAscii, HasEndedCued, HasIdled, HasMissed, HasNoWait, HasPressed, HasExecuted, HasStopped};
ghost use Rattle.cpm_play.specs.Cued.{IsCued, IsCutOff, IsIdleCut, IsPressCut, IsRunCut, StaysCued, key_count, known_to, last_count};
ghost use Rattle.cpm_play.specs.Cued.{looks_back, waits_at};
ghost use Rattle.cpm_play.specs.Live.{AreGiven, IsGoing};
ghost use Rattle.cpm_play.specs.Output.{output_state};
ghost use Rattle.cpm_play.specs.Playing.{EndsAs, HaveRoom, IsQuiet, alone_by, state_left};
ghost use Rattle.cpm_play.specs.Shown.{HasGrown, IsKeptOrFound};
ghost use Rattle.cpm_play.specs.Typist.{HasAttended, is_over};

use crate::attendant::{Attendant, Watched};
use crate::kept::show_kept;
use crate::live::{LiveError, LivePlay};
use crate::machine::{QUANTUM, quantum_of};
use crate::progress::{Watcher, progress_of_one};
use crate::shown::Shown;
use cpm_console::KEYS;
use cpm_geom::Image;
use cpm_machine::{End, Machine};
use cpm_script::{Cue, Key};
use std::alloc::Global;
use std::io;
use std::io::Write;

/// What a machine is played by.
#[derive(Clone, Copy)]
pub struct CuedKeys<'a> {
    /// What a script says whose lines may wait.
    pub cues: &'a [Cue],
    /// Where the machine waits for a key before so many steps, that does not count: a forked session's waits count from its fork on.
    pub waits_from: u64,
    /// Whether it ends where the machine waits, and that counts, and no key of the script will come.
    pub stops_idle: bool,
}

/// Whether a text is looked for before the next key.
fn looks_back(cues: &[Cue]) -> bool
    ensures { result ≡ looks_back cues.now }
{
    let mut rest = cues;
    while let Some((cue, after)) = rest.split_first() {
        let Cue::Wait(text) = cue else {
            return false;
        };
        if !text.as_slice().is_empty() {
            return true;
        }
        rest = after;
    }
    false
}

/// Executes so many steps, or those up to the machine's end, or with `to_wait` to where it waits for a key. Gives on their output, and keeps the text if
/// so asked; says how many. It stops where the attendant breaks in, who is told after each turn how many of `until` steps the machine has made.
fn run<W: Write, L: Write, A: Attendant>(
    system: &Image,
    machine: &mut Machine,
    steps: u64,
    to_wait: bool,
    keeps: bool,
    shown: &mut Shown<'_>,
    out: &mut W,
    list: &mut L,
    until: u64,
    attendant: &mut A,
) -> Result<u64, LiveError>
    requires { IsQuiet machine.old }
    ensures within { IfOk result (λ k. k ≤ steps) }
    ensures run { IfOk result (λ k. HasExecuted system.now k machine.old machine.new
        (output_state (W.contents out.old) (L.contents list.old)) (output_state (W.contents out.new) (L.contents list.new))) }
    ensures stopped { IfOk result (λ k. HasStopped (is_over (A.attending attendant.new)) to_wait system.now steps k machine.old machine.new) }
    ensures kept { IfOk result (λ k. keeps ≡ true → HasGrown shown.old shown.new (after system.now k machine.old).session.console.screen) }
    ensures attended { HasAttended (A.attending attendant.old) (A.attending attendant.new) }
    ensures over { is_over (A.attending attendant.old) ≡ true → IfOk result (λ k. k ≡ 0) }
    ensures refused { IfErr result (IsRunCut to_wait system.now steps machine.old machine.new
        (output_state (W.contents out.old) (L.contents list.old)) (output_state (W.contents out.new) (L.contents list.new))) }
{
    let mut executed = 0;
    while executed < steps {
        if attendant.is_over() {
            return Ok(executed);
        }
        let most = attendant.most_turn().min(steps - executed);
        let granted = if to_wait {
            machine.grant_to_wait(system, QUANTUM.min(most))
        } else {
            machine
                .grant(system, quantum_of(machine).min(most))
                .executed
        };
        if granted == 0 {
            return Ok(executed);
        }
        executed += granted;
        show_kept(machine, keeps, shown, out, list)?;
        attendant.attend(progress_of_one(machine.look().count, until));
    }
    Ok(executed)
}

/// Whether the machine still runs.
fn runs(machine: &Machine) -> bool
    ensures { result ≡ is_running machine.now.ended }
{
    match machine.look().ended {
        End::Running => true,
        _ => false,
    }
}

/// Whether one more key may be pending.
fn takes_key(machine: &Machine) -> bool
    ensures { result ≡ takes_key machine.now }
{
    machine.look().keys < KEYS
}

/// Whether the machine waits for a key and this text was shown.
fn has_met(machine: &Machine, text: &[u8], shown: &Shown<'_>) -> bool
    ensures met { result ≡ true → ((look_of machine.now).waiting ≡ true) × IsKeptOrFound shown.now text.now }
    ensures unmet { result ≡ false → ((look_of machine.now).waiting ≡ false) ⊎ (IsKeptOrFound shown.now text.now → ⊥) }
{
    machine.look().waiting && shown.has(text)
}

impl LivePlay {
    /// Presses a key at its count, if the machine then runs and has room for it, that is within the steps, and the attendant doesn't break in before; says
    /// whether it is so.
    fn press<W: Write, L: Write, S: Write, A: Attendant>(
        &mut self,
        system: &Image,
        machine: &mut Machine,
        key: Key,
        steps: u64,
        shown: &mut Shown<'_>,
        out: &mut W,
        list: &mut L,
        record: &mut S,
        attendant: &mut A,
    ) -> Result<bool, LiveError>
        requires ascii { key.byte < 128 }
        requires later { self.old.steps ≤ key.count }
        requires quiet { IsQuiet machine.old }
        ensures pressed { IfOk result (λ comes. comes ≡ true → HasPressed system.now key (key.count - self.old.steps) machine.old machine.new
            (output_state (W.contents out.old) (L.contents list.old)) (output_state (W.contents out.new) (L.contents list.new))
            (S.contents record.old) (S.contents record.new)) }
        ensures count { IfOk result (λ comes. comes ≡ true → (key.count < steps) × (self.new.steps ≡ key.count)) }
        ensures keys { IfOk result (λ comes. comes ≡ true → self.new.keys.items ≡ self.old.keys.items ++ key ∷ []) }
        ensures missed { IfOk result (λ comes. comes ≡ false → HasMissed (is_over (A.attending attendant.new)) system.now key steps
            self.old.steps self.new.steps machine.old machine.new
            (output_state (W.contents out.old) (L.contents list.old)) (output_state (W.contents out.new) (L.contents list.new))) }
        ensures still { IfOk result (λ comes. comes ≡ false → (self.new.keys.items ≡ self.old.keys.items) × (S.contents record.new ≡ S.contents record.old)) }
        ensures attended { HasAttended (A.attending attendant.old) (A.attending attendant.new) }
        ensures refused { IfErr result (IsPressCut system.now (key.count - self.old.steps) machine.old machine.new
            (output_state (W.contents out.old) (L.contents list.old)) (output_state (W.contents out.new) (L.contents list.new))
            (S.contents record.old) (S.contents record.new)) }
        ensures early { OnErr result (key.count < steps) }
    {
        if key.count >= steps {
            return Ok(false);
        }
        let left = key.count - self.steps;
        self.steps += run(
            system, machine, left, false, false, shown, out, list, steps, attendant,
        )?;
        if self.steps < key.count {
            return Ok(false);
        }
        if !runs(machine) || !takes_key(machine) {
            return Ok(false);
        }
        self.give(machine, key.byte, record)?;
        Ok(true)
    }

    /// Executes steps up to where the machine waits for a key, not before `waits_from`, or has ended, or the attendant breaks in. Gives on their output, and
    /// keeps the text if so asked.
    fn idle<W: Write, L: Write, A: Attendant>(
        &mut self,
        system: &Image,
        machine: &mut Machine,
        steps: u64,
        waits_from: u64,
        keeps: bool,
        shown: &mut Shown<'_>,
        out: &mut W,
        list: &mut L,
        attendant: &mut A,
    ) -> Result<(), LiveError>
        requires quiet { IsQuiet machine.old }
        requires within { self.old.steps ≤ steps }
        ensures idled { OnOk result (HasIdled (is_over (A.attending attendant.new)) system.now steps waits_from self.old.steps self.new.steps
            machine.old machine.new (output_state (W.contents out.old) (L.contents list.old)) (output_state (W.contents out.new) (L.contents list.new))) }
        ensures within { OnOk result (self.new.steps ≤ steps) }
        ensures still { self.new.keys.items ≡ self.old.keys.items }
        ensures kept { OnOk result (keeps ≡ true
            → HasGrown shown.old shown.new (after system.now (self.new.steps - self.old.steps) machine.old).session.console.screen) }
        ensures attended { HasAttended (A.attending attendant.old) (A.attending attendant.new) }
        ensures refused { IfErr result (IsIdleCut system.now steps waits_from self.old.steps
            machine.old machine.new (output_state (W.contents out.old) (L.contents list.old)) (output_state (W.contents out.new) (L.contents list.new))) }
    {
        let pause = waits_from.min(steps).saturating_sub(self.steps);
        self.steps += run(
            system, machine, pause, false, keeps, shown, out, list, steps, attendant,
        )?;
        let left = steps - self.steps;
        self.steps += run(
            system, machine, left, true, keeps, shown, out, list, steps, attendant,
        )?;
        Ok(())
    }
}

/// Plays a machine by a script as far as its keys come, or until the attendant breaks in. What waits to be taken is shown first.
pub(crate) fn follow<W: Write, L: Write, S: Write, A: Attendant>(
    alloc: Global,
    system: &Image,
    machine: &mut Machine,
    steps: u64,
    cued: CuedKeys<'_>,
    out: &mut W,
    list: &mut L,
    record: &mut S,
    attendant: &mut A,
) -> Result<LivePlay, LiveError>
    requires ascii { AreAscii cued.cues.now }
    ensures going { IfOk result (λ live. IsGoing system.now steps (key_count cued.entry.cues.now) machine.old machine.new
        (output_state (W.contents out.old) (L.contents list.old)) (output_state (W.contents out.new) (L.contents list.new))
        (S.contents record.old) (S.contents record.new) live.keys.items live.steps) }
    ensures keys { IfOk result (λ live. StaysCued system.now machine.old steps
        (known_to (is_over (A.attending attendant.new)) live.steps steps) live.steps cued.entry.waits_from cued.entry.cues.now live.keys.items) }
    ensures busy { IfOk result (λ live. is_over (A.attending attendant.new) ≡ false → (is_running machine.new.ended ≡ false)
        ⊎ HasNoWait system.now machine.old live.keys.items (max cued.entry.waits_from (last_count 0 live.keys.items)) live.steps) }
    ensures attended { HasAttended (A.attending attendant.old) (A.attending attendant.new) }
    ensures refused { IfErr result (IsCutOff system.now steps cued.entry.waits_from cued.entry.cues.now machine.old machine.new
        (output_state (W.contents out.old) (L.contents list.old)) (output_state (W.contents out.new) (L.contents list.new))
        (S.contents record.old) (S.contents record.new)) }
{
    let mut live = LivePlay {
        keys: Vec::new(alloc),
        steps: 0,
    };
    let mut shown = Shown::new(alloc, cued.cues);
    show_kept(machine, looks_back(cued.cues), &mut shown, out, list)?;
    let waits_from = cued.waits_from;
    let mut rest = cued.cues;
    while let Some((cue, after)) = rest.split_first() {
        let keeps = looks_back(rest);
        rest = after;
        let (count, byte) = match cue {
            Cue::Key(key) => (live.steps.max(key.count), key.byte),
            Cue::Press(byte) => (live.steps, *byte),
            Cue::Wait(text) => {
                live.idle(
                    system, machine, steps, waits_from, keeps, &mut shown, out, list, attendant,
                )?;
                if attendant.is_over() {
                    return Ok(live);
                }
                if live.steps < steps && has_met(machine, text.as_slice(), &shown) {
                    continue;
                }
                return Ok(live);
            }
        };
        let key = Key { count, byte };
        if !live.press(
            system, machine, key, steps, &mut shown, out, list, record, attendant,
        )? {
            return Ok(live);
        }
        shown.restart(rest);
    }
    Ok(live)
}

/// Plays one machine by a script that may wait, for at most so many steps. Its console bytes go to `out` and its list bytes to `list`, as they come. What waits
/// to be taken is shown first. A key for which there is no room, where 4,096 are pending, is the end of the script, as one that comes past the machine's end.
///
/// Each key is written to `record` as a line of a key script: by that script the machine shows and does the same again. The watcher is told after each turn how
/// far it has come.
pub fn play_cues<W: Write, L: Write, S: Write, T: Watcher>(
    alloc: Global,
    system: &Image,
    machine: &mut Machine,
    steps: u64,
    cued: CuedKeys<'_>,
    out: &mut W,
    list: &mut L,
    record: &mut S,
    watcher: &mut T,
) -> Result<LivePlay, LiveError>
    requires ascii { AreAscii cued.cues.now }
    ensures within { IfOk result (λ live. live.steps ≤ steps) }
    ensures keys { IfOk result (λ live. IsCued system.now machine.old steps cued.entry.waits_from cued.entry.cues.now live.keys.items) }
    ensures room { IfOk result (λ live. HaveRoom system.now machine.old live.keys.items) }
    ensures given { IfOk result (λ live. AreGiven (key_count cued.entry.cues.now) live.steps live.keys.items) }
    ensures text { IfOk result (λ live. Appends (W.contents out.old) (W.contents out.new)
        (alone_by system.now live.keys.items live.steps machine.old).session.console.screen) }
    ensures list { IfOk result (λ live. Appends (L.contents list.old) (L.contents list.new)
        (alone_by system.now live.keys.items live.steps machine.old).session.console.printer) }
    ensures ending { IfOk result (λ live. EndsAs (alone_by system.now live.keys.items live.steps machine.old) machine.new) }
    ensures state { IfOk result (λ live. machine.new ≡ state_left system.now live.keys.items live.steps machine.old) }
    ensures record { IfOk result (λ live. Appends (S.contents record.old) (S.contents record.new) (recorded live.keys.items)) }
    ensures ends { IfOk result (λ live. HasEndedCued system.now machine.old steps cued.entry.waits_from cued.entry.stops_idle
        live.keys.items live.steps machine.new) }
    ensures waits { IfOk result (λ live. (look_of machine.new).waiting ≡ waits_at system.now machine.old live.keys.items live.steps) }
    ensures refused { IfErr result (IsCutOff system.now steps cued.entry.waits_from cued.entry.cues.now machine.old machine.new
        (output_state (W.contents out.old) (L.contents list.old)) (output_state (W.contents out.new) (L.contents list.new))
        (S.contents record.old) (S.contents record.new)) }
{
    let mut watched = Watched { watcher };
    let mut live = follow(
        alloc,
        system,
        machine,
        steps,
        cued,
        out,
        list,
        record,
        &mut watched,
    )?;
    // One that does not stop where it is idle runs on as if waits counted from its end on.
    let waits_from = if cued.stops_idle {
        cued.waits_from
    } else {
        steps
    };
    live.idle(
        system,
        machine,
        steps,
        waits_from,
        false,
        &mut Shown::new(alloc, &[]),
        out,
        list,
        &mut watched,
    )?;
    Ok(live)
}
