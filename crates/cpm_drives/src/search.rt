//! SEARCH FOR FIRST and SEARCH FOR NEXT.

ghost use Rattle.std.specs.Prelude.{◌≡◌, Ok};
ghost use Rattle.cpm_volume.specs.declared.fcb.Fcb.{Fcb};
ghost use Rattle.cpm_drives.specs.Calls.{file_call};
ghost use Rattle.cpm_drives.specs.Search.{group_sought, pattern_of, search_of, search_on, search_first, search_next};

use crate::codes::NONE;
use crate::disks::Disks;
use cpm_directory::Pattern;
use cpm_drive::directory_code;
use cpm_geom::{Dpb, Image};
use cpm_volume::{Fault, Fcb};

/// The place of a search, which goes on from there.
#[derive(Clone, Copy, Debug, PartialEq, Eq)]
pub struct Search {
    /// The drive, 0 for A.
    pub drive: u8,
    /// Whether it is for every entry, those not in use and of all users too.
    pub is_every: bool,
    pub name: [u8; 11],
    /// The extent's EX, `?` for all extents.
    pub ex: u8,
    /// The index of the entry that is looked at next.
    pub next: u16,
}

impl Disks {
    /// SEARCH FOR FIRST: the first directory entry that a file control block's name and extent match, or with `?` as its
    /// drive every entry of the current drive. Its directory record goes to the buffer, and its place in that is the
    /// code; FFh where there is none. The fault is that there is no such drive.
    pub fn search_first(
        &mut self,
        system: &Image,
        fcb: &Fcb,
        buffer: &mut [u8; 128],
    ) -> Result<u8, Fault>
        ensures { file_call result self.new fcb.now buffer.new ≡ search_first self.old system.now fcb.now buffer.old }
    {
        let sought = self.search_of(fcb);
        if !self.is_there(sought.drive) {
            return Err(Fault::Select);
        }
        Ok(self.search_on(system, &sought, buffer))
    }

    /// SEARCH FOR NEXT: goes on after the entry that was found last, for the user who is current now. FFh where there
    /// is no search.
    pub fn search_next(&mut self, system: &Image, buffer: &mut [u8; 128]) -> u8
        ensures { (fcb : Fcb) → file_call (Ok result) self.new fcb buffer.new ≡ search_next self.old system.now fcb buffer.old }
    {
        match self.sought {
            Some(sought) => self.search_on(system, &sought, buffer),
            None => NONE,
        }
    }

    /// The search that a file control block begins.
    #[tactic(auto, unfolding(crate::specs::Search::search_of))]
    fn search_of(&self, fcb: &Fcb) -> Search
        ensures { result ≡ search_of self.now fcb.now }
    {
        let is_every = fcb.drive == b'?';
        Search {
            drive: if is_every {
                self.current
            } else {
                self.drive_named(fcb.drive)
            },
            is_every,
            name: fcb.extent.name,
            ex: fcb.extent.ex,
            next: 0,
        }
    }

    /// Goes on with a search.
    fn search_on(&mut self, system: &Image, sought: &Search, buffer: &mut [u8; 128]) -> u8
        ensures { (fcb : Fcb) → file_call (Ok result) self.new fcb buffer.new ≡ search_on sought.now self.old system.now fcb buffer.old }
    {
        self.use_drive(system, sought.drive);
        let image = self.lent_at(system, sought.drive);
        let dpb = image.format().dpb();
        let pattern = sought.pattern(&dpb, self.user);
        match cpm_drive::search(&image, &pattern, sought.next, buffer) {
            Some(index) => {
                self.sought = Some(sought.from(index + 1));
                directory_code(index)
            }
            None => {
                self.sought = Some(sought.from(dpb.last_entry + 1));
                NONE
            }
        }
    }
}

impl Search {
    /// What it looks for.
    #[tactic(auto, unfolding(crate::specs::Search::pattern_of))]
    fn pattern(&self, dpb: &Dpb, user: u8) -> Pattern
        ensures { result ≡ pattern_of dpb.now self.now user }
    {
        if self.is_every {
            Pattern::Every
        } else {
            Pattern::Files {
                user,
                name: self.name,
                group: group_sought(dpb, self.ex),
            }
        }
    }

    /// The search from another entry on.
    fn from(&self, next: u16) -> Search
        ensures { result ≡ record self.now { next = next } }
    {
        Search { next, ..*self }
    }
}

/// The group of an EX, or any for a `?`.
#[tactic(auto, unfolding(cpm_volume::specs::Files::group_of))]
fn group_sought(dpb: &Dpb, ex: u8) -> Option<u16>
    ensures { result ≡ group_sought dpb.now ex }
{
    if ex == b'?' {
        return None;
    }
    Some(u16::from(ex % 32) / (u16::from(dpb.extent_mask) + 1))
}
