//! What a command line asks for, done.
ghost use Rattle.std.specs.Prelude.{◌≡◌, false, IfErr, IfOk, None, OnOk, Some, option_map};
ghost use Rattle.std.specs.Io.KnownBytes.{Appends};
ghost use Rattle.cpm_command_line.specs.DiskLine.{HasUser};
ghost use Rattle.cpm_command_line.specs.Line.{HasUsers};
ghost use Rattle.cpm_command_line.specs.HelpWords.{text_of_page};
ghost use Rattle.cpm_commands.specs.Drives.{HasToldLeftOut};
ghost use Rattle.cpm_commands.specs.Messages.{HasToldEnd, HasToldIllegal};
ghost use Rattle.cpm_commands.specs.Record.{HasEndedRecord};
ghost use Rattle.cpm_commands.specs.Report.{IsUnprinted};
ghost use Rattle.cpm_commands.specs.Task.{IsDiskTaskDone, IsDiskTaskRefused, IsTaskDone, IsTaskRefused, asks_folder, plays_programs, reads_orders};
ghost use Rattle.cpm_commands.specs.Task.{with_status};
ghost use Rattle.cpm_play.specs.Typist.{nobody};
ghost use Rattle.cpm_run.specs.Settled.{streams};
ghost use Rattle.cpm_commands.specs.Serve.{HasTalkedFrom};
ghost use Rattle.cpm_serve.specs.Talk.{HasTalked, HasTalkedPartly};
ghost use Rattle.cpm_slots.specs.Host.{Host as HostSeen};

use crate::asm::assemble_file;
use crate::check::check_image;
use crate::debug::do_debug_task;
use crate::disk::{PutOptions, list_disk, new_disk, put_files, remove_from_disk, rename_on_disk};
use crate::files::CommandFiles;
use crate::get::{GetOptions, get_files};
use crate::list::list_program;
use crate::messages::Messages;
use crate::play::do_play_task;
use crate::record::KeyRecord;
use crate::report::{LineWriter, print_text};
use crate::run::{SessionsWatcher, run_sessions};
use crate::saved::tell_saved;
use crate::serve::{ServedFolder, serve_requests};
use cpm_checkpoint::Checkpoint;
use cpm_command_line::{Page, page_text};
use cpm_host::{DiskTask, HostError, Task, Typist};
use std::alloc::Global;
use std::io::{BufRead, Write};

/// Prints a page of the help.
fn print_page<W: Write>(page: Page, out: &mut W) -> Result<(), HostError>
    ensures printed { OnOk result (Appends (W.contents out.old) (W.contents out.new) (text_of_page page)) }
    ensures refusal { IfErr result IsUnprinted }
{
    print_text(out, page_text(page))
}

/// Does what a command on disk images asks for.
#[inline(never)]
fn do_disk<F: CommandFiles, W: Write>(
    alloc: Global,
    task: &DiskTask<'_>,
    files: &mut F,
    out: &mut W,
) -> Result<(), HostError>
    requires { HasUser task.now }
    ensures done { OnOk result (IsDiskTaskDone
        (record {
          does = F.does;
          files = F.files;
          sees_to = F.sees_to;
          gives_names = F.gives_names;
          tells_name = F.tells_name;
          tells_folder = F.tells_folder;
          lists = F.lists;
          unlists = F.unlists;
        })
        (record {
          old = files.old;
          new = files.new;
          out = out.old;
          out_now = out.new;
          io = streams nobody nobody (W.contents out.old) (W.contents out.new) None None;
          unread = None;
        }) task.now) }
    ensures refusal { IfErr result (IsDiskTaskRefused
        (record {
          does = F.does;
          files = F.files;
          sees_to = F.sees_to;
          gives_names = F.gives_names;
          tells_name = F.tells_name;
          tells_folder = F.tells_folder;
          lists = F.lists;
          unlists = F.unlists;
        })
        (record {
          old = files.old;
          new = files.new;
          out = out.old;
          out_now = out.new;
          io = streams nobody nobody (W.contents out.old) (W.contents out.new) None None;
          unread = None;
        }) task.now) }
{
    match task {
        DiskTask::New { image, is_large } => new_disk(alloc, image, *is_large, files),
        DiskTask::List { image, user } => list_disk(alloc, image, *user, files, out),
        DiskTask::Put {
            image,
            files: words,
            user,
            is_text,
            is_read_only,
            is_system,
        } => {
            let how = PutOptions {
                is_text: *is_text,
                is_read_only: *is_read_only,
                is_system: *is_system,
            };
            put_files(alloc, image, words, *user, how, files)
        }
        DiskTask::Get {
            image,
            names,
            user,
            is_text,
            to,
            is_forced,
            is_dry,
        } => {
            let how = GetOptions {
                is_text: *is_text,
                to: *to,
                is_forced: *is_forced,
                is_dry: *is_dry,
            };
            get_files(alloc, image, names, *user, how, files, out)
        }
        DiskTask::Remove { image, names, user } => {
            remove_from_disk(alloc, image, names, *user, files)
        }
        DiskTask::Rename {
            image,
            change,
            user,
        } => rename_on_disk(alloc, image, change, *user, files),
    }
}

/// The exit status of a command that runs no program of its own: 0, unless it is refused.
fn plain(done: Result<(), HostError>) -> Result<u8, HostError>
    ensures { result ≡ with_status done }
{
    match done {
        Ok(()) => Ok(0),
        Err(error) => Err(error),
    }
}

/// Does what a command line asks for, over these files and streams, and gives the exit status. Refusals and their order are each command's own. A run goes on
/// from where its sessions stood, where that is given.
pub fn do_task<
    F: CommandFiles,
    I: BufRead,
    P: Typist,
    W: LineWriter,
    R: KeyRecord,
    T: SessionsWatcher + Messages,
    D: ServedFolder,
>(
    alloc: Global,
    task: &Task<'_>,
    stood: Option<&Checkpoint>,
    files: &mut F,
    input: &mut I,
    typist: &mut P,
    out: &mut W,
    record: &mut R,
    watcher: &mut T,
    folder: &mut D,
) -> Result<u8, HostError>
    requires { HasUsers task.now }
    ensures done { IfOk result (IsTaskDone
        (record {
          does = F.does;
          files = F.files;
          sees_to = F.sees_to;
          gives_names = F.gives_names;
          tells_name = F.tells_name;
          tells_folder = F.tells_folder;
          lists = F.lists;
          unlists = F.unlists;
        })
        (record {
          stood = option_map (λ c. c.now) stood.entry;
          ended = HasEndedRecord R.ends R.contents (R.contents «record».new) «record».new;
          told_left_out = λ places. HasToldLeftOut T.tells watcher.old places;
          told_end = λ task unwritten ending waits end dropped. HasToldEnd T.tells T.is_read task unwritten ending waits end dropped watcher.new;
          told_illegal = λ sessions. HasToldIllegal T.tells sessions watcher.new;
          talked = λ serve made left. HasTalkedFrom (λ resumed e to. D.begins folder.old serve made resumed e to)
              (λ from resumed. HasTalked D.does (I.remaining input.old) resumed left from folder.new (W.contents out.old) (W.contents out.new));
          talked_partly = λ serve error made left. HasTalkedFrom (λ resumed e to. D.begins folder.old serve made resumed e to)
              (λ from resumed. HasTalkedPartly D.does error (I.remaining input.old) resumed left from folder.new (W.contents out.old) (W.contents out.new));
          unbegun = λ serve made e. (left : HostSeen) × D.begins folder.old serve made left (Some e) folder.new;
          unasked = folder.new ≡ folder.old;
        })
        (record {
          old = files.old;
          new = files.new;
          out = out.old;
          out_now = out.new;
          io = streams (P.typing typist.old) (P.typing typist.new) (W.contents out.old) (W.contents out.new)
              (R.contents «record».old) (R.contents «record».new);
          unread = I.remaining input.old;
        }) task.now) }
    ensures refusal { IfErr result (IsTaskRefused
        (record {
          does = F.does;
          files = F.files;
          sees_to = F.sees_to;
          gives_names = F.gives_names;
          tells_name = F.tells_name;
          tells_folder = F.tells_folder;
          lists = F.lists;
          unlists = F.unlists;
        })
        (record {
          stood = option_map (λ c. c.now) stood.entry;
          ended = HasEndedRecord R.ends R.contents (R.contents «record».new) «record».new;
          told_left_out = λ places. HasToldLeftOut T.tells watcher.old places;
          told_end = λ task unwritten ending waits end dropped. HasToldEnd T.tells T.is_read task unwritten ending waits end dropped watcher.new;
          told_illegal = λ sessions. HasToldIllegal T.tells sessions watcher.new;
          talked = λ serve made left. HasTalkedFrom (λ resumed e to. D.begins folder.old serve made resumed e to)
              (λ from resumed. HasTalked D.does (I.remaining input.old) resumed left from folder.new (W.contents out.old) (W.contents out.new));
          talked_partly = λ serve error made left. HasTalkedFrom (λ resumed e to. D.begins folder.old serve made resumed e to)
              (λ from resumed. HasTalkedPartly D.does error (I.remaining input.old) resumed left from folder.new (W.contents out.old) (W.contents out.new));
          unbegun = λ serve made e. (left : HostSeen) × D.begins folder.old serve made left (Some e) folder.new;
          unasked = folder.new ≡ folder.old;
        })
        (record {
          old = files.old;
          new = files.new;
          out = out.old;
          out_now = out.new;
          io = streams (P.typing typist.old) (P.typing typist.new) (W.contents out.old) (W.contents out.new)
              (R.contents «record».old) (R.contents «record».new);
          unread = I.remaining input.old;
        }) task.now) }
    // The others leave the typist, the record of what is typed and the messages as they were. Those that take no orders leave standard input as it was, and
    // those that serve no host the folder.
    ensures apart { plays_programs task.now ≡ false → (typist.new ≡ typist.old) × («record».new ≡ «record».old) × (watcher.new ≡ watcher.old) }
    ensures unread { reads_orders task.now ≡ false → input.new ≡ input.old }
    ensures unasked { asks_folder task.now ≡ false → folder.new ≡ folder.old }
{
    match task {
        Task::Com(task) => do_play_task(alloc, task, files, typist, out, record, watcher),
        Task::Boot(task) => do_play_task(alloc, task, files, typist, out, record, watcher),
        Task::Asm {
            source,
            out: image,
            list,
        } => plain(assemble_file(alloc, source, image, *list, files)),
        Task::List { file, cpu } => plain(list_program(alloc, file, *cpu, files, out)),
        Task::Check { image } => plain(check_image(alloc, image, files, out)),
        Task::Run(task) => plain(run_sessions(
            alloc, task, stood, files, typist, out, record, watcher,
        )),
        Task::Debug(task) => plain(do_debug_task(alloc, task, files, input, out)),
        Task::Serve(task) => plain(serve_requests(alloc, task, files, folder, input, out)),
        Task::Saved { file } => plain(tell_saved(alloc, file, files, out)),
        Task::Disk(task) => plain(do_disk(alloc, task, files, out)),
        Task::Help(page) => plain(print_page(*page, out)),
    }
}
