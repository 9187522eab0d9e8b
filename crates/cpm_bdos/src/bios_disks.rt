//! The calls of the BIOS on disks, which have a drive, a track, a sector and a buffer of their own.

ghost use Rattle.std.specs.Prelude.{◌≡◌};
ghost use Rattle.cpm_memory.specs.Room.{HasRoom};
ghost use Rattle.cpm_bdos.specs.StepResult.{did};
ghost use Rattle.cpm_bdos.specs.BiosDisks.{returned_hl, home, select_drive, set_track, set_sector, set_sector_buffer, read_sector, write_sector, translate};

use crate::disks::header_of;
use crate::registers::{pair_bc, pair_de, put_hl};
use crate::session::{Session, Went};
use crate::transfer::{get_record, store_record};
use cpm_geom::Image;
use cpm_memory::Memory;

/// What READ and WRITE give where the sector is there, and where it isn't.
const DONE: u8 = 0;

const NO_SECTOR: u8 = 1;

impl Session {
    /// Returns with a word in HL.
    fn return_word<M: Memory>(&mut self, memory: &M, value: u16) -> Went
        ensures { did self.new (M.contents memory.now) result ≡ returned_hl self.old (M.contents memory.now) value }
    {
        put_hl(&mut self.regs, value);
        self.return_from_call(memory)
    }

    /// Goes to track 0.
    pub(crate) fn home<M: Memory>(&mut self, memory: &M) -> Went
        ensures { did self.new (M.contents memory.now) result ≡ home self.old (M.contents memory.now) }
    {
        self.place.track = 0;
        self.return_from_call(memory)
    }

    /// Selects the drive in C, if it is there, and gives the address of its parameter header.
    #[tactic(auto, unfolding(crate::specs::BiosDisks::select_drive))]
    pub(crate) fn select_drive<M: Memory>(&mut self, memory: &M, system: &Image) -> Went
        ensures { did self.new (M.contents memory.now) result ≡ select_drive system.now self.old (M.contents memory.now) }
    {
        let drive = self.regs.c;
        if !self.disks.is_there(drive) {
            return self.return_word(memory, 0);
        }
        let format = self.disks.image_at(system, drive).format();
        self.place.drive = drive;
        self.return_word(memory, header_of(format, drive))
    }

    /// Sets the track to BC.
    pub(crate) fn set_track<M: Memory>(&mut self, memory: &M) -> Went
        ensures { did self.new (M.contents memory.now) result ≡ set_track self.old (M.contents memory.now) }
    {
        self.place.track = pair_bc(&self.regs);
        self.return_from_call(memory)
    }

    /// Sets the sector to BC.
    pub(crate) fn set_sector<M: Memory>(&mut self, memory: &M) -> Went
        ensures { did self.new (M.contents memory.now) result ≡ set_sector self.old (M.contents memory.now) }
    {
        self.place.sector = pair_bc(&self.regs);
        self.return_from_call(memory)
    }

    /// Sets the buffer of a sector to BC.
    pub(crate) fn set_sector_buffer<M: Memory>(&mut self, memory: &M) -> Went
        ensures { did self.new (M.contents memory.now) result ≡ set_sector_buffer self.old (M.contents memory.now) }
    {
        self.place.buffer = pair_bc(&self.regs);
        self.return_from_call(memory)
    }

    /// Reads the sector into its buffer.
    #[tactic(auto, unfolding(crate::specs::BiosDisks::read_sector))]
    pub(crate) fn read_sector<M: Memory>(&mut self, memory: &mut M, system: &Image) -> Went
        requires { HasRoom (M.contents memory.old) }
        ensures step { did self.new (M.contents memory.new) result ≡ read_sector system.now self.old (M.contents memory.old) }
        ensures leads { M.Leads memory.old memory.new }
    {
        let place = self.place;
        let mut bytes = [0; 128];
        if !self
            .disks
            .read_sector(system, place.drive, place.track, place.sector, &mut bytes)
        {
            return self.return_byte(memory, NO_SECTOR);
        }
        store_record(memory, place.buffer, &bytes);
        self.return_byte(memory, DONE)
    }

    /// Writes the sector from its buffer.
    #[tactic(auto, unfolding(crate::specs::BiosDisks::write_sector))]
    pub(crate) fn write_sector<M: Memory>(&mut self, memory: &M) -> Went
        ensures { did self.new (M.contents memory.now) result ≡ write_sector self.old (M.contents memory.now) }
    {
        let place = self.place;
        let bytes = get_record(memory, place.buffer);
        if !self
            .disks
            .write_sector(place.drive, place.track, place.sector, &bytes)
        {
            return self.return_byte(memory, NO_SECTOR);
        }
        self.return_byte(memory, DONE)
    }

    /// Gives the sector in BC by the table at DE, or BC itself where there is none.
    #[tactic(auto, unfolding(crate::specs::BiosDisks::translate))]
    pub(crate) fn translate<M: Memory>(&mut self, memory: &M) -> Went
        ensures { did self.new (M.contents memory.now) result ≡ translate self.old (M.contents memory.now) }
    {
        let table = pair_de(&self.regs);
        let sector = pair_bc(&self.regs);
        if table == 0 {
            return self.return_word(memory, sector);
        }
        let byte = memory.get(table.wrapping_add(sector));
        self.return_word(memory, u16::from(byte))
    }
}
