//! The command `serve`.
ghost use Rattle.std.specs.Prelude.{◌≡◌, ◌≤◌, IfErr, IfOk, None, OnOk, Option, Some};
ghost use Rattle.cpm_commands.specs.Serve.{HasServed, HasTalkedFrom, IsHostBegun, IsHostUnbegun, IsServiceEnded, frames_asked};
ghost use Rattle.cpm_commands.specs.Serve.{IsUnkeptRefusal, host_error_of_talk, journal_named};
ghost use Rattle.cpm_host.specs.Program.{disk_or_blank};
ghost use Rattle.cpm_command_line.specs.declared.task.ServeTask.{ServeTask};
ghost use Rattle.cpm_host.specs.declared.error.HostError.{HostError};
ghost use Rattle.cpm_host.specs.declared.error.HostError.TheVariants.{OutOfMemory};
ghost use Rattle.cpm_serve.specs.Talk.{HasTalked, HasTalkedPartly};
ghost use Rattle.cpm_slots.specs.Host.{Host as HostSeen, new_host};

use crate::begin::read_system;
use crate::files::CommandFiles;
use cpm_geom::{Format, Image};
use cpm_host::{HostError, ServeTask};
use cpm_serve::{Folder, Server, TalkError, serve_lines};
use cpm_slots::{Host, LEAST_FRAMES, MOST_FRAMES};
use std::alloc::Global;
use std::io::{BufRead, Write};

/// How many frames a host has: as many as there are, unless fewer are asked for.
fn frames_asked(frames: Option<u64>) -> u16
    ensures asked { result ≡ frames_asked frames }
    ensures least { LEAST_FRAMES ≤ result }
    ensures most { result ≤ MOST_FRAMES }
{
    match frames {
        Some(frames) => {
            if frames < LEAST_FRAMES as u64 {
                LEAST_FRAMES
            } else if frames > MOST_FRAMES as u64 {
                MOST_FRAMES
            } else {
                frames as u16
            }
        }
        None => MOST_FRAMES,
    }
}

/// A system drive, or a blank one.
fn system_or_blank(alloc: Global, system: Option<Image>) -> Result<Image, HostError>
    ensures drive { IfOk result (λ image. image ≡ disk_or_blank system) }
    ensures refusal { IfErr result (λ e. e ≡ OutOfMemory) }
{
    match system {
        Some(image) => Ok(image),
        None => Ok(Image::blank(alloc, Format::Ibm3740)?),
    }
}

/// A host of so many frames over this system drive, or over a blank one.
fn host_over(alloc: Global, system: Option<Image>, frames: u16) -> Result<Host, HostError>
    requires least { LEAST_FRAMES ≤ frames }
    requires most { frames ≤ MOST_FRAMES }
    ensures made { IfOk result (λ h. h.host ≡ new_host (disk_or_blank system) frames) }
    ensures refusal { IfErr result (λ e. e ≡ OutOfMemory) }
{
    let system = system_or_blank(alloc, system)?;
    match Host::new(alloc, system, frames) {
        Ok(host) => Ok(host),
        Err(_) => Err(HostError::OutOfMemory),
    }
}

/// A new host over the system drive in a file, if one is named, or over a blank one.
fn begin_host<F: CommandFiles>(
    alloc: Global,
    task: &ServeTask<'_>,
    files: &mut F,
) -> Result<Host, HostError>
    ensures begun { IfOk result (λ h. IsHostBegun F.does task.now files.old files.new h.host) }
    ensures refusal { IfErr result (IsHostUnbegun F.does task.now files.old files.new) }
{
    let system = read_system(alloc, task.system, files)?;
    host_over(alloc, system, frames_asked(task.frames))
}

/// What a talk comes to that ended early; where the journal can't be written, that is known already.
fn ended_early(error: TalkError, unkept: HostError) -> HostError
    ensures { result ≡ host_error_of_talk unkept error }
{
    match error {
        TalkError::Unreadable(reason) => HostError::InputUnreadable(reason),
        TalkError::Unwritable(reason) => HostError::OutputUnwritable(reason),
        TalkError::OutOfMemory => HostError::OutOfMemory,
        TalkError::Unkept => unkept,
    }
}

/// A folder that a host is served over, with the journal that a task asks for, or with none.
pub trait ServedFolder: Folder {
    // From this state to that one by what a task asks of a journal, and from a new host to the one that is served; which is refused so, or isn't.
    ghost begins: { Self → ServeTask → HostSeen → HostSeen → Option HostError → Self → Type 0 };

    /// Begins the journal of a task: a new one; or one that is done again on a new host, and gone on with. Where none is asked for it does nothing.
    fn begin(
        &mut self,
        alloc: Global,
        task: &ServeTask<'_>,
        server: &mut Server,
    ) -> Result<(), HostError>
        ensures begun { OnOk result (begins self.old task.now server.old.host.host server.new.host.host None self.new) }
        ensures refused { IfErr result (λ e. begins self.old task.now server.old.host.host server.new.host.host (Some e) self.new) };

    /// What it comes to that the journal of a task can't be written: the file and the machine's reason are told.
    fn unkept(&self, task: &ServeTask<'_>) -> HostError
        ensures named { IsUnkeptRefusal (journal_named task.now) result };
}

/// Makes a host, or makes one again of a journal, and serves it the lines of an input over a folder of files, with their replies, up to the end of the input.
pub fn serve_requests<F: CommandFiles, D: ServedFolder, I: BufRead, W: Write>(
    alloc: Global,
    task: &ServeTask<'_>,
    files: &mut F,
    folder: &mut D,
    input: &mut I,
    out: &mut W,
) -> Result<(), HostError>
    ensures served { OnOk result (HasServed F.does
        (λ made left. HasTalkedFrom (λ resumed e to. D.begins folder.old task.now made resumed e to)
        (λ from resumed. HasTalked D.does (I.remaining input.old) resumed left from folder.new (W.contents out.old) (W.contents out.new)))
        task.now files.old files.new) }
    ensures refusal { IfErr result (IsServiceEnded F.does
        (λ error made left. HasTalkedFrom (λ resumed e to. D.begins folder.old task.now made resumed e to)
        (λ from resumed. HasTalkedPartly D.does error (I.remaining input.old) resumed left from folder.new (W.contents out.old) (W.contents out.new)))
        (λ made e. ((left : HostSeen) × D.begins folder.old task.now made left (Some e) folder.new) × (out.new ≡ out.old))
        ((folder.new ≡ folder.old) × (out.new ≡ out.old)) task.now files.old files.new) }
{
    let host = begin_host(alloc, task, files)?;
    let mut server = Server { host };
    folder.begin(alloc, task, &mut server)?;
    match serve_lines(&mut server, alloc, folder, input, out) {
        Ok(()) => Ok(()),
        Err(error) => Err(ended_early(error, folder.unkept(task))),
    }
}
