//! TYPE: the records of a file, one a step.

ghost use Rattle.std.specs.Prelude.{◌≡◌, ◌≤◌, length, position};
ghost use Rattle.std.specs.List.{position_or_len};
ghost use Rattle.cpm_ccp.specs.Showing.{show_begun, ends_text, record_text, ends_in, wrote_all, record_shown, next_shown, shows_record, shown_on};
ghost use Rattle.cpm_drives.specs.Files.{next_ahead};
ghost use Rattle.cpm_console.specs.Terminal.{step_output};

use crate::message::Message;
use crate::parts::{NO_RECORD, NONE, fail, finish, go_to, say_below, tell};
use cpm_bdos::{CommandPart, HeldOutput, Session};
use cpm_console::Console;
use cpm_geom::Image;
use cpm_volume::{Answer, Fcb};

/// What ends a text.
const END_OF_TEXT: u8 = 0x1A;

/// TYPE: opens the file, which is shown from a fresh line on.
#[tactic(auto, unfolding(crate::specs::Showing::show_begun))]
pub(crate) fn begin_show(session: &mut Session, system: &Image, file: &Fcb)
    requires screen { length session.old.console.screen ≤ step_output }
    requires printer { length session.old.console.printer ≤ step_output }
    ensures { session.new ≡ show_begun system.now file.now session.old }
{
    session.file = *file;
    match session.disks.open_file(system, &mut session.file) {
        Ok(NONE) => tell(session, Message::NoFile),
        Ok(_) => {
            say_below(session, b"");
            go_to(session, CommandPart::Show);
        }
        Err(fault) => fail(session, fault),
    }
}

/// The characters of a record up to the end of the text.
fn record_text(record: &[u8]) -> &[u8]
    ensures value { result.now ≡ record_text «record».now }
    ensures short { length result.now ≤ length «record».now }
{
    &record[..text_length(record)]
}

fn text_length(record: &[u8]) -> usize
    ensures count { result ≡ position_or_len ends_text «record».now }
    ensures within { result ≤ length «record».now }
{
    first_end(record).unwrap_or(record.len())
}

fn first_end(record: &[u8]) -> Option<usize>
    ensures { result ≡ position ends_text «record».now }
{
    record.iter().position(|c| *c == END_OF_TEXT)
}

/// Whether the text ends in a record.
fn ends_in(record: &[u8]) -> bool
    ensures { result ≡ ends_in «record».now }
{
    record.iter().any(|c| *c == END_OF_TEXT)
}

/// Shows characters, each tab as spaces.
fn write_all(console: &mut Console, text: &[u8])
    requires short { length text.now ≤ 128 }
    requires screen { length console.old.screen ≤ step_output }
    requires printer { length console.old.printer ≤ step_output }
    ensures { console.new ≡ wrote_all console.old text.now }
{
    for character in text {
        console.write(*character);
    }
}

/// Shows a record, with which the command may be done.
fn show_record(session: &mut Session, record: &[u8; 128])
    requires screen { length session.old.console.screen ≤ step_output }
    requires printer { length session.old.console.printer ≤ step_output }
    ensures { session.new ≡ record_shown «record».now session.old }
{
    write_all(&mut session.console, record_text(record));
    if ends_in(record) {
        finish(session);
    } else {
        go_to(session, CommandPart::Show);
    }
}

/// Shows the next record, or ends the command.
#[tactic(auto, unfolding(crate::specs::Showing::next_shown))]
fn show_next(session: &mut Session, system: &Image)
    requires screen { length session.old.console.screen ≤ step_output }
    requires printer { length session.old.console.printer ≤ step_output }
    ensures { session.new ≡ next_shown system.now session.old }
{
    let mut record = NO_RECORD;
    match session
        .disks
        .read_next(system, &mut session.file, &mut record)
    {
        Ok(0) => show_record(session, &record),
        Ok(_) => finish(session),
        Err(fault) => fail(session, fault),
    }
}

/// Whether the next step shows anything.
fn shows_record(session: &Session, system: &Image) -> bool
    ensures { result ≡ shows_record (next_ahead session.now.disks system.now session.now.file) }
{
    match session.disks.peek_next(system, &session.file) {
        Ok(record) => record.first() != Some(&END_OF_TEXT),
        Err(Answer::Fault(_)) => true,
        Err(_) => false,
    }
}

/// Goes on with a file, unless ^S holds what it would show.
#[tactic(auto, unfolding(crate::specs::Showing::shown_on))]
pub(crate) fn show_on(session: &mut Session, system: &Image)
    requires screen { length session.old.console.screen ≤ step_output }
    requires printer { length session.old.console.printer ≤ step_output }
    ensures { session.new ≡ shown_on system.now session.old }
{
    if session.is_stopped() && shows_record(session, system) {
        session.hold(HeldOutput::Command(CommandPart::Show));
        return;
    }
    show_next(session, system);
}
