//! DIR: the files of a drive, one a step.

ghost use Rattle.std.specs.Prelude.{◌≡◌, ◌+◌, ◌<◌, ◌≤◌, MatchOption, length, map};
ghost use Rattle.cpm_geom.specs.Geometry.{dpb_of};
ghost use Rattle.cpm_console.specs.Terminal.{said, most_waiting, step_output};
ghost use Rattle.cpm_directory.specs.Directory.{entries_of};
ghost use Rattle.cpm_ccp.specs.Listing.{is_listed, listed_from, before_file, low_seven, file_text, entries_listed, next_listed};
ghost use Rattle.cpm_ccp.specs.Listing.{has_next, file_shown, listing_ended, drive_used, list_next, shows_file, listed_on};

use crate::message::Message;
use crate::parts::{finish, go_to, tell};
use cpm_bdos::{CommandPart, HeldOutput, Session};
use cpm_console::Console;
use cpm_directory::{Entry, LentImage, is_named};
use cpm_geom::{Dpb, Image};
use cpm_volume::Fault;

/// How many files stand on a line.
const COLUMNS: u8 = 4;

/// Whether DIR lists an entry.
#[tactic(auto, unfolding(crate::specs::Listing::is_listed))]
fn is_listed(dpb: &Dpb, user: u8, pattern: &[u8; 11], entry: &Entry) -> bool
    ensures { result ≡ is_listed dpb.now user pattern.now entry.now }
{
    let extent = &entry.extent;
    let is_system = extent.name[9] >= 0x80;
    is_named(user, pattern, entry) && extent.ex <= dpb.extent_mask && extent.s2 == 0 && !is_system
}

/// The index of the first entry from a place on that DIR lists.
fn listed_from(image: &LentImage<'_>, user: u8, pattern: &[u8; 11], from: u16) -> Option<u16>
    ensures { MatchOption result
        (listed_from (dpb_of image.now.format) user pattern.now (entries_of image.now) from ≡ length (entries_of image.now))
        (λ index. (index ≡ listed_from (dpb_of image.now.format) user pattern.now (entries_of image.now) from) × (index < length (entries_of image.now))) }
{
    let dpb = image.format().dpb();
    for index in from..dpb.last_entry + 1 {
        if is_listed(&dpb, user, pattern, &image.entry(index)) {
            return Some(index);
        }
    }
    None
}

/// The index of the next entry that is listed on the drive of the session's file.
#[tactic(auto, unfolding(crate::specs::Listing::next_listed))]
fn next_listed(session: &Session, system: &Image, from: u16) -> Option<u16>
    ensures { MatchOption result
        (next_listed system.now from session.now ≡ length (entries_listed system.now session.now))
        (λ index. (index ≡ next_listed system.now from session.now) × (index < length (entries_listed system.now session.now))) }
{
    let drive = session.disks.drive_named(session.file.drive);
    let image = session.disks.lent_at(system, drive);
    listed_from(&image, session.disks.user, &session.file.extent.name, from)
}

/// Shows characters with their high bits off.
#[tactic(auto, using(crate::proofs::Texts::texts))]
fn say_low_seven(console: &mut Console, text: &[u8])
    requires screen { length console.old.screen + length text.now ≤ most_waiting }
    requires printer { length console.old.printer + length text.now ≤ most_waiting }
    ensures { console.new ≡ said console.old (map low_seven text.now) }
{
    for character in text {
        console.say(*character % 128);
    }
}

/// Shows what stands in front of a file.
fn say_before(console: &mut Console, column: u8, drive: u8)
    requires screen { length console.old.screen ≤ step_output }
    requires printer { length console.old.printer ≤ step_output }
    ensures { console.new ≡ said console.old (before_file column drive) }
{
    if column == 0 {
        console.say_all(&[b'\r', b'\n', b'A' + drive % 16, b':', b' ']);
    } else {
        console.say_all(b" : ");
    }
}

/// Shows a file.
#[tactic(auto, unfolding(crate::specs::Listing::file_text), using(crate::proofs::Texts::texts))]
fn say_file(console: &mut Console, column: u8, drive: u8, name: &[u8; 11])
    requires screen { length console.old.screen ≤ step_output }
    requires printer { length console.old.printer ≤ step_output }
    ensures { console.new ≡ said console.old (file_text column drive name.now) }
{
    say_before(console, column, drive);
    say_low_seven(console, &name[..8]);
    console.say(b' ');
    say_low_seven(console, &name[8..11]);
}

/// Shows the file of an entry; the next entry is looked at then.
fn show_file(session: &mut Session, index: u16, column: u8, name: &[u8; 11])
    requires index { index < 65535 }
    requires screen { length session.old.console.screen ≤ step_output }
    requires printer { length session.old.console.printer ≤ step_output }
    ensures { session.new ≡ file_shown index column name.now session.old }
{
    let drive = session.disks.drive_named(session.file.drive);
    say_file(&mut session.console, column, drive, name);
    let part = CommandPart::Directory {
        next: index + 1,
        column: (column % COLUMNS + 1) % COLUMNS,
    };
    go_to(session, part);
}

/// Ends a listing, of which it may be the first part.
fn end_listing(session: &mut Session, is_first: bool)
    requires screen { length session.old.console.screen ≤ step_output }
    requires printer { length session.old.console.printer ≤ step_output }
    ensures { session.new ≡ listing_ended is_first session.old }
{
    if is_first {
        tell(session, Message::NoFile);
    } else {
        finish(session);
    }
}

/// Lists one file from an entry on, or ends the listing.
#[tactic(auto, unfolding(crate::specs::Listing::list_next, crate::specs::Listing::has_next))]
pub(crate) fn list(session: &mut Session, system: &Image, from: u16, column: u8, is_first: bool)
    requires screen { length session.old.console.screen ≤ step_output }
    requires printer { length session.old.console.printer ≤ step_output }
    ensures { session.new ≡ list_next system.now from column is_first session.old }
{
    let drive = session.disks.drive_named(session.file.drive);
    if !session.disks.is_there(drive) {
        session.fault(Fault::Select, drive);
        return;
    }
    match next_listed(session, system, from) {
        Some(index) => {
            let image = session.disks.lent_at(system, drive);
            let name = image.entry(index).extent.name;
            session.disks.use_drive(system, drive);
            show_file(session, index, column, &name);
        }
        None => {
            session.disks.use_drive(system, drive);
            end_listing(session, is_first);
        }
    }
}

/// Whether a part of a listing shows anything.
#[tactic(auto, unfolding(crate::specs::Listing::shows_file, crate::specs::Listing::has_next))]
fn shows_file(session: &Session, system: &Image, from: u16) -> bool
    ensures { result ≡ shows_file system.now from session.now }
{
    let drive = session.disks.drive_named(session.file.drive);
    !session.disks.is_there(drive) || next_listed(session, system, from).is_some()
}

/// Goes on with a listing, unless ^S holds what it would show.
#[tactic(auto, unfolding(crate::specs::Listing::listed_on))]
pub(crate) fn list_on(session: &mut Session, system: &Image, from: u16, column: u8)
    requires screen { length session.old.console.screen ≤ step_output }
    requires printer { length session.old.console.printer ≤ step_output }
    ensures { session.new ≡ listed_on system.now from column session.old }
{
    if session.is_stopped() && shows_file(session, system, from) {
        let part = CommandPart::Directory { next: from, column };
        session.hold(HeldOutput::Command(part));
        return;
    }
    list(session, system, from, column, false);
}
