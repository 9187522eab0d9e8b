//! ERA, REN and SAVE.

ghost use Rattle.std.specs.Prelude.{◌≡◌, ◌<◌, ◌≤◌, length};
ghost use Rattle.cpm_ccp.specs.FileCommands.{by_code, erased, all_files_asked, is_yes, erased_all, is_name_taken, has_new_name, renamed};
ghost use Rattle.cpm_ccp.specs.FileCommands.{saving, after_save_make, file_made, save_begun, after_save_write, saved, file_closed};
ghost use Rattle.cpm_console.specs.Terminal.{step_output};

use crate::message::Message;
use crate::parts::{NONE, fail, finish, go_to, read_line, say_below, tell};
use cpm_bdos::{CommandPart, Session};
use cpm_directory::{Pattern, find};
use cpm_drives::Disks;
use cpm_geom::Image;
use cpm_memory::layout::PROGRAM;
use cpm_volume::{Fault, Fcb};

/// Ends ERA or REN by the code of its function, or in its fault on a drive.
fn end_by(session: &mut Session, answer: Result<u8, Fault>, drive: u8)
    requires screen { length session.old.console.screen ≤ step_output }
    requires printer { length session.old.console.printer ≤ step_output }
    ensures { session.new ≡ by_code answer drive session.old }
{
    match answer {
        Ok(NONE) => tell(session, Message::NoFile),
        Ok(_) => finish(session),
        Err(fault) => {
            session.fault(fault, drive);
        }
    }
}

/// ERA: erases all files of a name.
#[tactic(auto, unfolding(crate::specs::FileCommands::erased))]
pub(crate) fn erase(session: &mut Session, system: &Image, file: &Fcb)
    requires screen { length session.old.console.screen ≤ step_output }
    requires printer { length session.old.console.printer ≤ step_output }
    ensures { session.new ≡ erased system.now file.now session.old }
{
    let drive = session.disks.drive_named(file.drive);
    let answer = session.disks.erase_files(system, file);
    end_by(session, answer, drive);
}

/// Asks whether all files are to be erased.
pub(crate) fn ask(session: &mut Session, file: &Fcb)
    requires screen { length session.old.console.screen ≤ step_output }
    requires printer { length session.old.console.printer ≤ step_output }
    ensures { session.new ≡ all_files_asked file.now session.old }
{
    session.file = *file;
    say_below(session, Message::EraseAll.text());
    read_line(session, CommandPart::Answer);
}

/// Whether an answer is yes.
fn is_yes(answer: &[u8]) -> bool
    ensures { result ≡ is_yes answer.now }
{
    matches!(answer, [b'Y' | b'y', ..])
}

/// Erases all files, if the answer is yes.
#[tactic(auto, unfolding(crate::specs::FileCommands::erased_all))]
pub(crate) fn erase_all(session: &mut Session, system: &Image)
    requires screen { length session.old.console.screen ≤ step_output }
    requires printer { length session.old.console.printer ≤ step_output }
    ensures { session.new ≡ erased_all system.now session.old }
{
    if is_yes(session.line.characters()) {
        let file = session.file;
        erase(session, system, &file);
    } else {
        finish(session);
    }
}

/// Whether the user has the name, in any entry.
#[tactic(auto, unfolding(crate::specs::FileCommands::is_name_taken))]
fn is_name_taken(disks: &Disks, system: &Image, file: &Fcb) -> bool
    ensures { result ≡ is_name_taken system.now disks.now file.now }
{
    let image = disks.lent_at(system, disks.drive_named(file.drive));
    let pattern = Pattern::Files {
        user: disks.user,
        name: file.extent.name,
        group: None,
    };
    find(&image, &pattern, 0).is_ok()
}

/// Whether a file has the new name, on a drive that is there.
fn has_new_name(disks: &Disks, system: &Image, new: &Fcb) -> bool
    ensures { result ≡ has_new_name system.now disks.now new.now }
{
    disks.is_there(disks.drive_named(new.drive)) && is_name_taken(disks, system, new)
}

/// REN: gives a file a new name, which no other has.
#[tactic(auto, unfolding(crate::specs::FileCommands::renamed))]
pub(crate) fn rename(session: &mut Session, system: &Image, old: &Fcb, new: &Fcb)
    requires screen { length session.old.console.screen ≤ step_output }
    requires printer { length session.old.console.printer ≤ step_output }
    ensures { session.new ≡ renamed system.now old.now new.now session.old }
{
    if has_new_name(&session.disks, system, new) {
        let drive = session.disks.drive_named(new.drive);
        session.disks.use_drive(system, drive);
        tell(session, Message::FileExists);
        return;
    }
    let drive = session.disks.drive_named(old.drive);
    let answer = session.disks.rename_files(system, old, &new.extent.name);
    end_by(session, answer, drive);
}

/// What comes next while so many records are left.
fn saving(next: u16, left: u16) -> CommandPart
    ensures { result ≡ saving next left }
{
    if left == 0 {
        CommandPart::Close
    } else {
        CommandPart::Save { next, left }
    }
}

/// SAVE: erases the files of the name, and makes one.
#[tactic(auto, unfolding(crate::specs::FileCommands::save_begun))]
pub(crate) fn begin_save(session: &mut Session, system: &Image, pages: u8, file: &Fcb)
    requires screen { length session.old.console.screen ≤ step_output }
    requires printer { length session.old.console.printer ≤ step_output }
    ensures { session.new ≡ save_begun system.now pages file.now session.old }
{
    session.file = *file;
    match session.disks.erase_files(system, file) {
        Ok(_) => make(session, system, pages),
        Err(fault) => fail(session, fault),
    }
}

/// Makes the file of SAVE.
#[tactic(auto, unfolding(crate::specs::FileCommands::file_made))]
fn make(session: &mut Session, system: &Image, pages: u8)
    requires screen { length session.old.console.screen ≤ step_output }
    requires printer { length session.old.console.printer ≤ step_output }
    ensures { session.new ≡ file_made system.now pages session.old }
{
    match session.disks.make_file(system, &mut session.file) {
        Ok(NONE) => tell(session, Message::NoSpace),
        Ok(_) => go_to(session, saving(PROGRAM, 2 * u16::from(pages))),
        Err(fault) => fail(session, fault),
    }
}

/// Saves a record of memory, so many being left.
#[tactic(auto, unfolding(crate::specs::FileCommands::saved))]
pub(crate) fn save(session: &mut Session, system: &Image, next: u16, left: u16, record: &[u8; 128])
    requires screen { length session.old.console.screen ≤ step_output }
    requires printer { length session.old.console.printer ≤ step_output }
    ensures { session.new ≡ saved system.now next left record.now session.old }
{
    match session.disks.write_next(system, &mut session.file, record) {
        Ok(0) => go_to(
            session,
            saving(next.wrapping_add(128), left.saturating_sub(1)),
        ),
        Ok(_) => tell(session, Message::NoSpace),
        Err(fault) => fail(session, fault),
    }
}

/// Closes the saved file.
#[tactic(auto, unfolding(crate::specs::FileCommands::file_closed))]
pub(crate) fn close(session: &mut Session, system: &Image)
    requires { length session.old.console.screen ≤ step_output }
    ensures { session.new ≡ file_closed system.now session.old }
{
    match session.disks.close_file(system, &mut session.file) {
        Ok(_) => finish(session),
        Err(fault) => fail(session, fault),
    }
}
