//! The calls on files of the system drive, which is lent, protected and logged in.

ghost use Rattle.std.specs.Prelude.{◌≡◌, ℕ, List, Ok, true};
ghost use Rattle.cpm_drive.specs.Reads.{lent_drive};
ghost use Rattle.cpm_drives.specs.Calls.{on_drive};
ghost use Rattle.cpm_drives.specs.Files.{close_file_on, read_next_on, read_random_on};

use crate::codes::{PAST_ANY_DISK, code_of, code_or_fault, random_number};
use cpm_drive::{Marks, close_file_lent, read_next_protected, read_random_protected};
use cpm_geom::Image;
use cpm_volume::{Fault, Fcb};

pub(crate) fn close_file(image: &Image, marks: &Marks, user: u8, fcb: &mut Fcb) -> Result<u8, Fault>
    requires { marks.now.is_protected ≡ true }
    ensures { (buffer : List ℕ) → on_drive result (lent_drive image.now marks.now) fcb.new buffer
        ≡ close_file_on user fcb.old buffer (lent_drive image.now marks.now) }
{
    code_or_fault(close_file_lent(image, user, fcb))
}

pub(crate) fn read_next(
    image: &Image,
    marks: &Marks,
    user: u8,
    fcb: &mut Fcb,
    buffer: &mut [u8; 128],
) -> Result<u8, Fault>
    requires { marks.now.is_protected ≡ true }
    ensures { on_drive result (lent_drive image.now marks.now) fcb.new buffer.new ≡ read_next_on user fcb.old buffer.old (lent_drive image.now marks.now) }
{
    code_of(read_next_protected(image, marks, user, fcb, buffer))
}

pub(crate) fn read_random(
    image: &Image,
    marks: &Marks,
    user: u8,
    fcb: &mut Fcb,
    buffer: &mut [u8; 128],
) -> Result<u8, Fault>
    requires { marks.now.is_protected ≡ true }
    ensures { on_drive result (lent_drive image.now marks.now) fcb.new buffer.new ≡ read_random_on user fcb.old buffer.old (lent_drive image.now marks.now) }
{
    if fcb.random_record[2] != 0 {
        return Ok(PAST_ANY_DISK);
    }
    code_of(read_random_protected(image, marks, user, random_number(fcb), fcb, buffer))
}
