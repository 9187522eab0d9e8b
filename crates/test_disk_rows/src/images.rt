//! Rows of disk images: their formats, and their bytes.

use cpm_geom::{Dpb, Image};
use std::alloc::{AllocError, Global};
use test_images::Images;
use test_language::{RowAnswer, RowFault, RowLine, Scene, Word, bytes_of};

/// Images.
#[derive(Drop)]
pub struct ImageLines {
    images: Images,
}

impl Scene for ImageLines {
    fn new(alloc: Global) -> Result<Self, AllocError> {
        Ok(ImageLines {
            images: Images::new(alloc),
        })
    }

    fn is_alone(_verb: &str) -> bool {
        false
    }

    fn takes_text(_verb: &str) -> bool {
        false
    }

    fn act(&mut self, alloc: Global, line: &RowLine<'_>) -> Result<RowAnswer, RowFault> {
        match line.verb() {
            "from-bytes" => self.from_bytes(alloc, line.arguments()),
            "bytes" => self.bytes(alloc, line.arguments()),
            "format" => self.format(alloc, line.arguments()),
            "parameters" => self.parameters(alloc, line.arguments()),
            _ => self.images.act(alloc, line),
        }
    }
}

impl ImageLines {
    /// `from-bytes NAME BYTES`: the image of these bytes; its format.
    fn from_bytes(&mut self, alloc: Global, arguments: &[Word<'_>]) -> Result<RowAnswer, RowFault> {
        let [name, bytes @ ..] = arguments else {
            return Err(RowFault::Words);
        };
        match Image::from_bytes(bytes_of(alloc, bytes)?) {
            Ok(image) => {
                let format = image.format();
                self.images.put(alloc, name.text, image)?;
                RowAnswer::name(alloc, format)
            }
            Err((_, error)) => RowAnswer::refused(alloc, error),
        }
    }

    /// `bytes NAME`: all bytes of an image.
    fn bytes(&self, alloc: Global, arguments: &[Word<'_>]) -> Result<RowAnswer, RowFault> {
        let [name] = arguments else {
            return Err(RowFault::Words);
        };
        let image = self.images.copy(alloc, name.text)?;
        Ok(RowAnswer::Bytes(image.into_bytes()))
    }

    /// `format NAME`.
    fn format(&self, alloc: Global, arguments: &[Word<'_>]) -> Result<RowAnswer, RowFault> {
        let [name] = arguments else {
            return Err(RowFault::Words);
        };
        let image = self.images.copy(alloc, name.text)?;
        RowAnswer::name(alloc, image.format())
    }

    /// `parameters NAME`: the disk parameter block.
    fn parameters(&self, alloc: Global, arguments: &[Word<'_>]) -> Result<RowAnswer, RowFault> {
        let [name] = arguments else {
            return Err(RowFault::Words);
        };
        let dpb = self.images.copy(alloc, name.text)?.format().dpb();
        let mut text = String::new(alloc);
        write_parameters(&mut text, &dpb)?;
        Ok(RowAnswer::Words(text))
    }
}

/// Adds the fields of a disk parameter block, each after its name in the manual.
fn write_parameters(text: &mut String, dpb: &Dpb) -> Result<(), AllocError> {
    let before = [
        ("SPT", dpb.sectors_per_track),
        (" BSH", u16::from(dpb.block_shift)),
        (" BLM", u16::from(dpb.block_mask)),
        (" EXM", u16::from(dpb.extent_mask)),
        (" DSM", dpb.last_block),
        (" DRM", dpb.last_entry),
    ];
    let after = [(" CKS", dpb.checksum_size), (" OFF", dpb.track_offset)];
    write_fields(text, before.as_slice())?;
    write!(text, " AL {:04X}", dpb.directory_bits)?;
    write_fields(text, after.as_slice())
}

fn write_fields(text: &mut String, fields: &[(&str, u16)]) -> Result<(), AllocError> {
    for (name, value) in fields {
        write!(text, "{name} {value}")?;
    }
    Ok(())
}
