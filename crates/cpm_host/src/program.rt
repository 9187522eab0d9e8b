//! The commands `com` and `boot`: a program, or the prompt of CP/M, is played by what its script says, or as it is typed at.
ghost use Rattle.std.specs.Prelude.{◌≡◌, ◌↔◌, ◌⊎◌, ◌<◌, ◌≤◌, ℕ, List, Option, None, IfErr, IfOk, IsErrOf, OnOk, Ok, length, map};
ghost use Rattle.cpm_script.specs.declared.cue.Cue.TheVariants.{Key as Timed};
ghost use Rattle.cpm_play.specs.Cued.{key_count};
ghost use Rattle.cpm_script.specs.Cues.{all_said, cues};
ghost use Rattle.cpm_script.specs.Script.{most_keys};
ghost use Rattle.cpm_machine.specs.Opening.{most_program};
ghost use Rattle.cpm_play.specs.Output.{output_state};
ghost use Rattle.cpm_play.specs.Typist.{TypingState};
ghost use Rattle.cpm_run.specs.Settled.{play_streams};
ghost use Rattle.cpm_host.specs.Program.{AreFit, AreRecorded, IsCueRefusal, IsCutCued, IsFitSource, IsLiveCut, IsPlayedBy, IsPlayedCued, IsPlayedLive};
ghost use Rattle.cpm_host.specs.Program.{HasSaved, IsProgramFit, IsProgramPlayRefusal, IsRecordingRefusal, IsScriptTold, IsUnsaved};
ghost use Rattle.cpm_host.specs.Program.{machine_of, play_of, program_given, program_length, system_disk};

use crate::error::HostError;
use crate::saved::saved_if;
use crate::start::{ProgramStart, machine_of};
use cpm_batch::ReadError;
use cpm_geom::Image;
use cpm_machine::{Closed, Machine};
use cpm_play::{CuedKeys, LivePlay, PlayEnd, Typist, Watcher, play_cues, play_live};
use cpm_run::{Ending, RunError};
use cpm_script::laws::{
    cues_in_order, recordings_give_their_keys_again, recordings_in_order, scripts_are_recordings,
};
use cpm_script::{Cue, Key, ScriptError, read_cues, read_recording};
use cpm_shown::shown;
use std::alloc::{AllocError, Global};
use std::io::Write;

/// The refusal of the script in a file of this name.
fn script_refused(name: &str, error: ScriptError) -> HostError
    ensures { IsScriptTold name.now error result }
{
    match error {
        ScriptError::Line { number, fault } => {
            HostError::RunRefused(RunError::FileRefused(ReadError::Script {
                name: shown(name),
                line: number,
                fault,
            }))
        }
        ScriptError::OutOfMemory => HostError::OutOfMemory,
    }
}

/// What the key script in a file of this name says by its text, whose lines may wait.
///
/// `FileRefused` names its first line with a fault. `OutOfMemory` comes only where memory is refused.
pub fn cues_of(alloc: Global, name: &str, text: &[u8]) -> Result<Vec<Cue>, HostError>
    ensures cues { IfOk result (λ v. cues text.now ≡ Ok (all_said v)) }
    ensures fit { IfOk result (λ v. AreFit v.items) }
    ensures few { IfOk result (λ v. key_count v.items ≤ most_keys) }
    ensures refusal { IfErr result (IsCueRefusal name.now text.now) }
{
    cues_in_order();
    match read_cues(alloc, text) {
        Ok(cues) => Ok(cues),
        Err(error) => Err(script_refused(name, error)),
    }
}

/// Keys as what a script says.
fn timed_cues(alloc: Global, keys: &[Key]) -> Result<Vec<Cue>, AllocError>
    ensures { IfOk result (λ v. v.items ≡ map Timed keys.now) }
{
    keys.iter().map(|key| Cue::Key(*key)).collect(alloc)
}

/// The keys of the recording in a file of this name, by its text, as what a script says. It may have any number of them.
///
/// `FileRefused` names its first line with a fault. `OutOfMemory` comes only where memory is refused.
pub fn recorded_cues_of(alloc: Global, name: &str, text: &[u8]) -> Result<Vec<Cue>, HostError>
    ensures cues { IfOk result (λ v. AreRecorded text.now v.items) }
    ensures fit { IfOk result (λ v. AreFit v.items) }
    ensures refusal { IfErr result (IsRecordingRefusal name.now text.now) }
{
    recordings_in_order();
    match read_recording(alloc, text) {
        Ok(keys) => Ok(timed_cues(alloc, keys.as_slice())?),
        Err(error) => Err(script_refused(name, error)),
    }
}

/// Where the keys of a program come from.
#[derive(Clone, Copy)]
pub enum Source<'a> {
    /// What its script says, whose lines may wait.
    Cues(CuedKeys<'a>),
    /// What a script says, if anything, and then what is typed.
    Typed { cues: &'a [Cue] },
}

/// What a program came to, and by which keys: it is the machine run alone by these for so many steps.
#[derive(Drop)]
pub struct ProgramPlay {
    pub ending: Ending,
    /// The drives A to D as it left them.
    pub drives: [Option<Image>; 4],
    /// The keys that came, each with the count of steps at which it did.
    pub keys: Vec<Key>,
    pub steps: u64,
    /// Whether the machine then waits for a key.
    pub waits: bool,
    /// Why it ended, where keys were typed.
    pub end: Option<PlayEnd>,
    /// The bytes of the machine as it was at the end, where it is saved.
    pub saved: Option<Vec<u8>>,
}

/// What a machine came to that was played so, and its bytes where it is saved.
fn play_of(
    machine: Machine,
    live: LivePlay,
    end: Option<PlayEnd>,
    saved: Option<Vec<u8>>,
) -> ProgramPlay
    ensures { result ≡ play_of machine live end saved }
{
    let ending = Ending::of(&machine);
    let waits = machine.look().waiting;
    let Closed { drives, .. } = machine.finish();
    ProgramPlay {
        ending,
        drives,
        keys: live.keys,
        steps: live.steps,
        waits,
        end,
        saved,
    }
}

/// Plays a machine by a script that may wait, for at most `steps` steps. There may be anything to read. It stands apart, so that its stack does.
#[inline(never)]
fn play_cued<W: Write, L: Write, S: Write, T: Watcher>(
    alloc: Global,
    system: &Image,
    machine: Machine,
    is_saved: bool,
    steps: u64,
    cued: CuedKeys<'_>,
    out: &mut W,
    list: &mut L,
    record: &mut S,
    watcher: &mut T,
) -> Result<ProgramPlay, HostError>
    requires fit { AreFit cued.cues.now }
    ensures played { IfOk result (λ t. (typing : TypingState) → IsPlayedCued system.now machine steps cued.entry t
        (play_streams typing typing (output_state (W.contents out.old) (L.contents list.old)) (output_state (W.contents out.new) (L.contents list.new))
        (S.contents «record».old) (S.contents «record».new))) }
    ensures saved { IfOk result (HasSaved is_saved system.now machine) }
    ensures refusal { IfErr result (λ e. (typing : TypingState) → IsCutCued system.now machine steps cued.entry
        (play_streams typing typing (output_state (W.contents out.old) (L.contents list.old)) (output_state (W.contents out.new) (L.contents list.new))
        (S.contents «record».old) (S.contents «record».new)) e
        ⊎ IsUnsaved is_saved (λ t. IsPlayedCued system.now machine steps cued.entry t
        (play_streams typing typing (output_state (W.contents out.old) (L.contents list.old)) (output_state (W.contents out.new) (L.contents list.new))
        (S.contents «record».old) (S.contents «record».new))) e) }
{
    recordings_give_their_keys_again();
    scripts_are_recordings();
    let mut machine = machine;
    let live = play_cues(
        alloc,
        system,
        &mut machine,
        steps,
        cued,
        out,
        list,
        record,
        watcher,
    )?;
    let saved = saved_if(alloc, is_saved, system, &machine)?;
    Ok(play_of(machine, live, None, saved))
}

/// Plays a machine by a script and then by the keys that are typed, for at most `steps` steps. It stands apart, so that its stack does.
#[inline(never)]
fn play_typed<P: Typist, W: Write, L: Write, S: Write>(
    alloc: Global,
    system: &Image,
    machine: Machine,
    is_saved: bool,
    steps: u64,
    cues: &[Cue],
    typist: &mut P,
    out: &mut W,
    list: &mut L,
    record: &mut S,
) -> Result<ProgramPlay, HostError>
    requires fit { AreFit cues.now }
    ensures played { IfOk result (λ t. IsPlayedLive system.now machine steps cues.entry.now t (play_streams (P.typing typist.old) (P.typing typist.new)
        (output_state (W.contents out.old) (L.contents list.old)) (output_state (W.contents out.new) (L.contents list.new))
        (S.contents «record».old) (S.contents «record».new))) }
    ensures saved { IfOk result (HasSaved is_saved system.now machine) }
    ensures refusal { IfErr result (λ e. IsLiveCut system.now machine steps cues.entry.now (play_streams (P.typing typist.old) (P.typing typist.new)
        (output_state (W.contents out.old) (L.contents list.old)) (output_state (W.contents out.new) (L.contents list.new))
        (S.contents «record».old) (S.contents «record».new)) e
        ⊎ IsUnsaved is_saved (λ t. IsPlayedLive system.now machine steps cues.entry.now t (play_streams (P.typing typist.old) (P.typing typist.new)
        (output_state (W.contents out.old) (L.contents list.old)) (output_state (W.contents out.new) (L.contents list.new))
        (S.contents «record».old) (S.contents «record».new))) e) }
{
    recordings_give_their_keys_again();
    scripts_are_recordings();
    let mut machine = machine;
    let play = play_live(
        alloc,
        system,
        &mut machine,
        steps,
        cues,
        typist,
        out,
        list,
        record,
    )?;
    let saved = saved_if(alloc, is_saved, system, &machine)?;
    Ok(play_of(machine, play.live, Some(play.end), saved))
}

/// Runs a program, or without one the command processor, on a machine of its own for at most `steps` steps. Its keys are what its script says, or that and
/// then what is typed; without typing nobody is asked for a key. A typist that isn't patient may break in on the script. What the machine shows goes to `out`
/// and what it prints to `list` as it comes, and each key to `record` as a line of a key script. Where it goes by a script alone the watcher is told on the
/// way how far it has come. A saved machine goes on in the same way: what waits in it to be shown or printed comes first, and its steps and the counts of its
/// keys begin at 0 where it was saved. At the end it is saved, where that is asked for.
///
/// `ProgramTooLong`, `OpeningRefused` for more than four drives, `SavedElsewhere` for a machine that was saved over another system drive, and `OutOfMemory`
/// for the machine and its system drive come before anybody is heard, or anything written. `OutOfMemory` may also come at the end for the bytes of the machine.
/// `InputUnreadable`, `OutputUnwritable`, `ListUnwritable` and `RecordUnwritable` have the errors of the typist, the console, the list device and the record.
pub fn run_program<P: Typist, W: Write, L: Write, S: Write, T: Watcher>(
    alloc: Global,
    start: ProgramStart,
    steps: u64,
    source: Source<'_>,
    typist: &mut P,
    out: &mut W,
    list: &mut L,
    record: &mut S,
    watcher: &mut T,
) -> Result<ProgramPlay, HostError>
    requires fit { IsFitSource source }
    ensures played { IfOk result (λ t. IsPlayedBy source.entry (system_disk (program_given start)) (machine_of (program_given start)) steps t
        (play_streams (P.typing typist.old) (P.typing typist.new)
        (output_state (W.contents out.old) (L.contents list.old)) (output_state (W.contents out.new) (L.contents list.new))
        (S.contents «record».old) (S.contents «record».new))) }
    ensures saved { IfOk result (HasSaved start.is_saved (system_disk (program_given start)) (machine_of (program_given start))) }
    ensures fits { OnOk result (IsProgramFit (program_given start)) }
    ensures too_long { IsErrOf result (HostError.ProgramTooLong (program_length (program_given start)))
        ↔ (most_program < program_length (program_given start)) }
    ensures refusal { IfErr result (IsProgramPlayRefusal start.is_saved source.entry (program_given start) steps
        (play_streams (P.typing typist.old) (P.typing typist.new)
        (output_state (W.contents out.old) (L.contents list.old)) (output_state (W.contents out.new) (L.contents list.new))
        (S.contents «record».old) (S.contents «record».new))) }
{
    let is_saved = start.is_saved;
    let (machine, system) = machine_of(alloc, start)?;
    match source {
        Source::Cues(cued) => {
            play_cued(
                alloc, &system, machine, is_saved, steps, cued, out, list, record, watcher,
            )
        }
        Source::Typed { cues } => {
            play_typed(
                alloc, &system, machine, is_saved, steps, cues, typist, out, list, record,
            )
        }
    }
}
