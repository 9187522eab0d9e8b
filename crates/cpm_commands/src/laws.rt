//! Laws of the files that commands name, as contracts.
ghost use Rattle.cpm_commands.specs.Drives.{HasToldLeftOut};
ghost use Rattle.cpm_commands.specs.Laws.{ProgramsFollowPlans, RunsFollowPlans};
ghost use Rattle.cpm_commands.specs.Messages.{HasToldEnd, HasToldIllegal};
ghost use Rattle.cpm_commands.specs.Record.{HasEndedRecord};
ghost use Rattle.std.specs.Prelude.{Option};
ghost use Rattle.cpm_checkpoint.specs.declared.checkpoint.Checkpoint.{Checkpoint};
ghost use Rattle.cpm_command_line.specs.declared.task.PlayTask.{PlayTask};

use crate::files::CommandFiles;
use crate::messages::Messages;
use crate::record::KeyRecord;

/// A run that has read its configuration sees to the files of its plan; then it reads none but its inputs, and writes none but its outputs.
pub fn runs_follow_plans<F: CommandFiles, R: KeyRecord, T: Messages>()
    ensures { (stood : Option Checkpoint) → (typed : R) → (told : T)
        → RunsFollowPlans (record { does = F.does; files = F.files }) F.sees_to F.gives_names F.tells_name stood
        (HasEndedRecord R.ends R.contents (R.contents typed) typed) (λ sessions. HasToldIllegal T.tells sessions told) }
{}

/// The same of a program that has run, by whatever task. Where files of its drives go into folders, it follows a second plan once it was played: it names all
/// that is written.
pub fn programs_follow_plans<F: CommandFiles, R: KeyRecord, T: Messages>()
    ensures { (typed : R) → (untold told : T) → (task : PlayTask) → ProgramsFollowPlans
        (record {
          does = F.does;
          sees_to = F.sees_to;
          tells_folder = F.tells_folder;
          lists = F.lists;
          unlists = F.unlists;
          told_left_out = λ places. HasToldLeftOut T.tells untold places;
        })
        F.gives_names (HasEndedRecord R.ends R.contents (R.contents typed) typed)
        (λ unwritten ending waits end dropped. HasToldEnd T.tells T.is_read task unwritten ending waits end dropped told) }
{}
