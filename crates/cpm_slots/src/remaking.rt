//! What a host is made again of: the numbers of its slots.

ghost use Rattle.std.specs.Prelude.{◌≡◌, false, nat_le, option_map, true};
ghost use Rattle.cpm_machine.specs.SystemDigest.{system_digest};
ghost use Rattle.cpm_slots.specs.Remaking.{id_at_place, numbered_from};

use crate::event::SlotId;
use crate::host::Host;
use cpm_machine::SystemDigest;

impl Host {
    /// Gives the next opening this number, and says whether it did. It is refused where that was given, since a number never comes again. Nothing is
    /// changed then.
    pub fn number_from(&mut self, next: u64) -> bool
        ensures told { result ≡ nat_le self.old.host.openings next }
        ensures numbered { result ≡ true → self.new.host ≡ numbered_from next self.old.host }
        ensures unchanged { result ≡ false → self.new ≡ self.old }
    {
        if next < self.openings {
            return false;
        }
        self.openings = next;
        true
    }

    /// How many openings were made: the number of the next one.
    pub fn openings(&self) -> u64
        ensures { result ≡ self.now.host.openings }
    {
        self.openings
    }

    /// How many frames the host has.
    pub fn frames(&self) -> u16
        ensures { result ≡ self.now.host.frames }
    {
        self.frames
    }

    /// The digest of the system drive, by SHA-256.
    pub fn system_digest(&mut self) -> SystemDigest
        ensures digest { result ≡ system_digest self.old.host.system }
        ensures unchanged { self.new ≡ self.old }
    {
        self.system.digest()
    }

    /// The number of the open slot at a place, in the order of the openings.
    pub fn id_at(&self, place: usize) -> Option<SlotId>
        ensures { option_map (λ id. id.0) result ≡ id_at_place place self.now.host.slots }
    {
        match self.slots.get(place) {
            Some(slot) => Some(SlotId(slot.id)),
            None => None,
        }
    }
}
