//! Reading what the sessions of a configuration need, in their order.
ghost use Rattle.std.specs.Prelude.{◌≡◌, ◌∷◌, ◌++◌, ◌⊎◌, [], IfErr, IfOk, None, OnErr, map};
ghost use Rattle.cpm_config.specs.Rules.{config_view, fork_field_fault, forks_fault, session_view};
ghost use Rattle.cpm_script.specs.Cues.{all_said};
ghost use Rattle.cpm_store.specs.Files.{Finds};
ghost use Rattle.cpm_store.specs.Log.{Gave, Missed, LogLeadsBy};
ghost use Rattle.cpm_batch.specs.Held.{IsImageIn, IsScriptIn};
ghost use Rattle.cpm_batch.specs.Inputs.{AllImages, AllInputs, AreInputs, HasInput, HasSaid, ImageIn, IsMissed, IsNeedRefusal};
ghost use Rattle.cpm_batch.specs.Inputs.{IsOpenedInput, IsReadRefusal, IsSessionRefusal, ScriptIn, given, image_needs, key_needs, needs_of};
ghost use Rattle.cpm_batch.specs.Inputs.{saved_count, start_view};
ghost use Rattle.cpm_batch.specs.Reads.{AreImagesRead, AreInputsRead, AreRead, IsImageRead, IsInputRead, IsOpenedRead};
ghost use Rattle.cpm_batch.specs.Sources.{key_source};
ghost use Rattle.cpm_batch.specs.Reads.{IsSaidRead, IsScriptRead, OnlyRead, StopsAmongNeeds, StopsAmongSessions, StopsReading};

use crate::error::ReadError;
use crate::forked::read_forked;
use crate::recording::read_replay;
use crate::restored::read_restored;
use crate::saved::SavedMachine;
use crate::source::{KeySource, Replay, key_source};
use cpm_config::{Config, Origin, SessionConfig};
use cpm_flags::Cpu;
use cpm_geom::Image;
use cpm_script::{Cue, ScriptError, read_cues};
use cpm_shown::shown;
use cpm_store::{Store, StoreError};
use std::alloc::Global;

/// How a session begins, with what was read for it.
#[derive(Drop)]
pub enum Start {
    /// It is opened with these images of its drives, A first.
    Opened {
        cpu: Cpu,
        quota: u16,
        drives: Vec<Image>,
    },
    /// It is forked from the session at this place, which isn't forked and stands before it, after this
    /// many of the steps that that one executes in the run.
    Forked {
        parent: usize,
        at: u64,
    },
    /// It goes on from this saving.
    Restored(SavedMachine),
}

impl Start {
    /// The count of steps that it was saved at, where it goes on from a saving; its counts in the run begin
    /// there. 0 where it doesn't.
    pub fn saved_count(&self) -> u64
        ensures { result ≡ saved_count (start_view self.now) }
    {
        match self {
            Start::Restored(saved) => saved.count(),
            Start::Opened { .. } | Start::Forked { .. } => 0,
        }
    }
}

/// What was read for a session.
#[derive(Drop)]
pub struct Input<'a> {
    pub session: &'a SessionConfig,
    pub start: Start,
    /// The most steps that it executes in the run: those of its configuration without those that it, or
    /// the session that it is forked from, was saved after.
    pub steps: u64,
    /// What its own script says, or the recording in place of that.
    pub cues: Vec<Cue>,
}

/// The bytes of a file.
pub(crate) fn read_bytes<S: Store>(
    alloc: Global,
    store: &mut S,
    name: &str,
) -> Result<Vec<u8>, ReadError>
    ensures found { IfOk result (λ v. Finds (S.files store.old) name.now v.items) }
    ensures gave { IfOk result (λ v. S.does store.old (Gave name.now v.items) store.new) }
    ensures missed { OnErr result (S.does store.old (Missed name.now) store.new) }
    ensures refusal { IfErr result (λ e. (e ≡ ReadError.OutOfMemory) ⊎ IsMissed name.now e) }
    ensures store { OnlyRead S.does S.files S.failed result store.old store.new }
{
    match store.read(alloc, name) {
        Ok(bytes) => Ok(bytes),
        Err(StoreError::Device) => Err(ReadError::File(shown(name))),
        Err(StoreError::OutOfMemory) => Err(ReadError::OutOfMemory),
    }
}

/// The image in a file.
fn read_image<S: Store>(alloc: Global, store: &mut S, name: &str) -> Result<Image, ReadError>
    ensures image { IfOk result (IsImageIn (S.files store.old) name.now) }
    ensures log { IfOk result (λ d. LogLeadsBy S.does (IsImageRead name.now d) store.old store.new) }
    ensures refusal { IfErr result (IsNeedRefusal (S.files store.old) (ImageIn name.now ∷ [])) }
    ensures refused_log { IfErr result (λ e. LogLeadsBy S.does (StopsAmongNeeds (ImageIn name.now ∷ []) e) store.old store.new) }
    ensures store { OnlyRead S.does S.files S.failed result store.old store.new }
{
    let bytes = read_bytes(alloc, store, name)?;
    match Image::from_bytes(bytes) {
        Ok(image) => Ok(image),
        Err((bytes, _)) => Err(ReadError::Image {
            name: shown(name),
            length: bytes.len(),
        }),
    }
}

/// The images in files, in their order.
fn read_images<S: Store>(
    alloc: Global,
    store: &mut S,
    names: &[String],
) -> Result<Vec<Image>, ReadError>
    ensures images { IfOk result (λ v. AllImages (S.files store.old) names.now v.items) }
    ensures log { IfOk result (λ v. LogLeadsBy S.does (AreImagesRead names.now v.items) store.old store.new) }
    ensures refusal { IfErr result (IsNeedRefusal (S.files store.old) (image_needs names.now)) }
    ensures refused_log { IfErr result (λ e. LogLeadsBy S.does (StopsAmongNeeds (image_needs names.now) e) store.old store.new) }
    ensures store { OnlyRead S.does S.files S.failed result store.old store.new }
{
    let mut images = Vec::new(alloc);
    for name in names {
        images.push(read_image(alloc, store, name.as_str())?)?;
    }
    Ok(images)
}

/// What the script in a file says.
fn read_script<S: Store>(alloc: Global, store: &mut S, name: &str) -> Result<Vec<Cue>, ReadError>
    ensures cues { IfOk result (λ v. IsScriptIn (S.files store.old) name.now (all_said v)) }
    ensures log { IfOk result (λ v. LogLeadsBy S.does (IsScriptRead name.now (all_said v)) store.old store.new) }
    ensures refusal { IfErr result (IsNeedRefusal (S.files store.old) (ScriptIn name.now ∷ [])) }
    ensures refused_log { IfErr result (λ e. LogLeadsBy S.does (StopsAmongNeeds (ScriptIn name.now ∷ []) e) store.old store.new) }
    ensures store { OnlyRead S.does S.files S.failed result store.old store.new }
{
    let text = read_bytes(alloc, store, name)?;
    match read_cues(alloc, text.as_slice()) {
        Ok(cues) => Ok(cues),
        Err(ScriptError::Line { number, fault }) => Err(ReadError::Script {
            name: shown(name),
            line: number,
            fault,
        }),
        Err(ScriptError::OutOfMemory) => Err(ReadError::OutOfMemory),
    }
}

/// What the script of a session says, or the recording in place of it, if it has one.
pub(crate) fn read_cues_of<S: Store>(
    alloc: Global,
    store: &mut S,
    session: &SessionConfig,
    replays: &[Replay<'_>],
) -> Result<Vec<Cue>, ReadError>
    ensures cues { IfOk result (λ v. HasSaid (S.files store.old) (key_source replays.now session.now) (all_said v)) }
    ensures log { IfOk result (λ v. LogLeadsBy S.does (IsSaidRead (key_source replays.now session.now) (all_said v)) store.old store.new) }
    ensures refusal { IfErr result (IsNeedRefusal (S.files store.old) (key_needs (key_source replays.now session.now))) }
    ensures refused_log { let needs = key_needs (key_source replays.now session.now) in
        IfErr result (λ e. LogLeadsBy S.does (StopsAmongNeeds needs e) store.old store.new) }
    ensures store { OnlyRead S.does S.files S.failed result store.old store.new }
{
    match key_source(replays, session) {
        KeySource::Script(name) => read_script(alloc, store, name),
        KeySource::Recording(name) => read_replay(alloc, store, name, 0),
        KeySource::Nothing => Ok(Vec::new(alloc)),
    }
}

/// What a session needs that is opened with the images in these files.
fn read_opened<'a, S: Store>(
    alloc: Global,
    store: &mut S,
    session: &'a SessionConfig,
    replays: &[Replay<'_>],
    cpu: Cpu,
    quota: u16,
    names: &[String],
) -> Result<Input<'a>, ReadError>
    ensures input { IfOk result (λ i. IsOpenedInput (S.files store.old) replays.now cpu quota names.now (given i)) }
    ensures log { IfOk result (λ i. LogLeadsBy S.does (IsOpenedRead replays.now cpu quota names.now (given i)) store.old store.new) }
    ensures session { IfOk result (λ i. i.session.now ≡ session.entry.now) }
    ensures refusal { let keys = key_source replays.now session.entry.now in
        IfErr result (IsNeedRefusal (S.files store.old) (image_needs names.now ++ key_needs keys)) }
    ensures refused_log { let needs = image_needs names.now ++ key_needs (key_source replays.now session.entry.now) in
        IfErr result (λ e. LogLeadsBy S.does (StopsAmongNeeds needs e) store.old store.new) }
    ensures store { OnlyRead S.does S.files S.failed result store.old store.new }
{
    let drives = read_images(alloc, store, names)?;
    let cues = read_cues_of(alloc, store, session, replays)?;
    let start = Start::Opened { cpu, quota, drives };
    Ok(Input {
        session,
        start,
        steps: session.steps,
        cues,
    })
}

/// What a session needs, after what was read for those before it.
fn read_session<'a, S: Store>(
    alloc: Global,
    store: &mut S,
    session: &'a SessionConfig,
    replays: &[Replay<'_>],
    before: &[Input],
) -> Result<Input<'a>, ReadError>
    requires before { AllInputs (S.files store.old) replays.now [] (map given before.now) }
    requires fork { fork_field_fault (map (λ i. session_view i.session) (map given before.now)) (session_view session.now) ≡ None }
    ensures input { IfOk result (λ i. HasInput (S.files store.old) replays.now (map given before.now) (given i)) }
    ensures log { IfOk result (λ i. LogLeadsBy S.does (IsInputRead replays.now (map given before.now) (given i)) store.old store.new) }
    ensures session { IfOk result (λ i. i.session.now ≡ session.entry.now) }
    ensures refusal { IfErr result (IsNeedRefusal (S.files store.old) (needs_of replays.now (map given before.now) session.entry.now)) }
    ensures refused_log { let needs = needs_of replays.now (map given before.now) session.entry.now in
        IfErr result (λ e. LogLeadsBy S.does (StopsAmongNeeds needs e) store.old store.new) }
    ensures store { OnlyRead S.does S.files S.failed result store.old store.new }
{
    match &session.origin {
        Origin::Opened { cpu, quota, drives } => read_opened(
            alloc,
            store,
            session,
            replays,
            *cpu,
            *quota,
            drives.as_slice(),
        ),
        Origin::Forked { parent, at } => read_forked(
            alloc,
            store,
            session,
            replays,
            before,
            parent.as_str(),
            *at,
        ),
        Origin::Restored { saving } => {
            read_restored(alloc, store, session, replays, saving.as_str())
        }
    }
}

/// What sessions need, in their order.
fn read_sessions<'a, S: Store>(
    alloc: Global,
    store: &mut S,
    sessions: &'a [SessionConfig],
    replays: &[Replay<'_>],
) -> Result<Vec<Input<'a>>, ReadError>
    requires forks { forks_fault 1 [] (map session_view sessions.now) ≡ None }
    ensures inputs { IfOk result (λ v. AllInputs (S.files store.old) replays.now [] (map given v.items)) }
    ensures log { IfOk result (λ v. LogLeadsBy S.does (AreInputsRead replays.now [] (map given v.items)) store.old store.new) }
    ensures sessions { IfOk result (λ v. map (λ i. i.session) (map given v.items) ≡ sessions.entry.now) }
    ensures refusal { IfErr result (IsSessionRefusal (S.files store.old) replays.now [] sessions.entry.now) }
    ensures refused_log { IfErr result (λ e. LogLeadsBy S.does (StopsAmongSessions replays.now [] sessions.entry.now e) store.old store.new) }
    ensures store { OnlyRead S.does S.files S.failed result store.old store.new }
{
    let mut inputs = Vec::new(alloc);
    for session in sessions {
        let input = read_session(alloc, store, session, replays, inputs.as_slice())?;
        inputs.push(input)?;
    }
    Ok(inputs)
}

/// What a configuration needs: the system drive's image, then of each session in order the images of its drives and its key
/// script, each checked before the next is read. One that goes on from a saving needs that in place of the images. A
/// forked session has its parent's drives, and needs its key script alone, which is judged as one after the keys that
/// its parent is known to have before the fork: none are known where a line of the parent's script waits. No file is
/// changed. Its forks must break no rule, which `Config::fork_fault` tells.
///
/// The counts of a session that goes on from a saving, and of those that are forked from it, begin at the saving: what it has to execute in the run, and
/// the counts of its keys.
///
/// A session that is named in `replays` is played by the recording in that file, which is read where its script would be; that is not read. A recording may
/// have any number of keys, and they don't count for the script of a session that is forked from it. That of a forked session begins at the fork.
///
/// The first fault is answered: `File` where a file can't be read, `Image`, `Saving` or `Script` where it holds none; `SavedDrives` where a session
/// names another number of files for the images of its drives than its saving, or its parent's, has; `ForkedEarly` where one is forked before the count
/// that its parent was saved at. `OutOfMemory` comes only where memory is refused.
pub fn read_inputs<'a, S: Store>(
    alloc: Global,
    config: &'a Config,
    replays: &[Replay<'_>],
    store: &mut S,
) -> Result<(Image, Vec<Input<'a>>), ReadError>
    requires forks { forks_fault 1 [] (config_view config.now).sessions ≡ None }
    ensures read { IfOk result (λ i. AreInputs (S.files store.old) config.entry.now replays.now i.0 (map given i.1.items)) }
    // The calls were these reads and no others, of whichever store.
    ensures log { IfOk result (λ i. LogLeadsBy S.does (AreRead config.entry.now replays.now i.0 (map given i.1.items)) store.old store.new) }
    ensures refusal { IfErr result (IsReadRefusal (S.files store.old) config.entry.now replays.now) }
    // It was refused at the first fault: no read but those before it and its own, of whichever store.
    ensures refused_log { IfErr result (λ e. LogLeadsBy S.does (StopsReading config.entry.now replays.now e) store.old store.new) }
    ensures store { OnlyRead S.does S.files S.failed result store.old store.new }
{
    let system = read_image(alloc, store, config.system.as_str())?;
    let sessions = read_sessions(alloc, store, config.sessions.as_slice(), replays)?;
    Ok((system, sessions))
}
