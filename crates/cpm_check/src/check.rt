//! The command `check`.
ghost use Rattle.std.specs.Prelude.{IfErr, IfOk, OnOk};
ghost use Rattle.std.specs.Io.KnownBytes.{Appends};
ghost use Rattle.cpm_check.specs.Check.{IsCheckRefusal, IsSoundImage, ok_line};

use crate::error::CheckError;
use cpm_batch::ReadError;
use cpm_directory::well_formed;
use cpm_disk_commands::damage_of;
use cpm_geom::Image;
use cpm_shown::shown;
use std::io;
use std::io::Write;

/// Writes that an image is in order.
fn write_ok<W: Write>(out: &mut W) -> io::Result<()>
    ensures { OnOk result (Appends (W.contents out.old) (W.contents out.new) ok_line) }
{
    out.write_all(b"ok\n")?;
    out.flush()?;
    Ok(())
}

/// Says whether these bytes, of the file of this name, are an image whose directory agrees with itself, and writes `ok` and a line end
/// where they are.
///
/// `FileRefused` has the number of bytes that no image has. `ImageDamaged` has the first fault of the directory, with the files that it is
/// about. With both nothing was written. `OutputUnwritable` has the error of the writer, who may have got the beginning.
pub fn run_check<W: Write>(name: &str, bytes: Vec<u8>, out: &mut W) -> Result<(), CheckError>
    ensures order { IfOk result (λ _. IsSoundImage bytes.items) }
    ensures text { OnOk result (Appends (W.contents out.old) (W.contents out.new) ok_line) }
    ensures refusal { IfErr result (λ e. IsCheckRefusal name.now bytes.items e out.old out.new) }
{
    let image = match Image::from_bytes(bytes) {
        Ok(image) => image,
        Err((bytes, _)) => {
            return Err(CheckError::FileRefused(ReadError::Image {
                name: shown(name),
                length: bytes.len(),
            }));
        }
    };
    if let Err(fault) = well_formed(&image) {
        return Err(CheckError::ImageDamaged {
            name: shown(name),
            damage: damage_of(&image, fault),
        });
    }
    match write_ok(out) {
        Ok(()) => Ok(()),
        Err(reason) => Err(CheckError::OutputUnwritable(reason)),
    }
}
