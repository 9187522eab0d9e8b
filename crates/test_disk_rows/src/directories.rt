//! Rows of directories: entries, reserved blocks, and the names of command lines.

use crate::fcb::FcbBytes;
use crate::one_drive::pattern;
use crate::runs::{WordCounts, yes_or_no};
use crate::words::{filled, is_of_images, name, number, small, write_name};
use cpm_directory::{
    DirectoryError, Entry, Fcb, LentImage, Pattern, Reserved, block_at, entry, find, first_free,
    login, parse_fcb, put_entry, well_formed,
};
use cpm_geom::{Dpb, Format, Image};
use std::alloc::{AllocError, Global};
use test_images::Images;
use test_language::{RowAnswer, RowFault, RowLine, Scene, Word};

/// Images, reserved blocks, and a file control block.
#[derive(Drop)]
pub struct Directories {
    images: Images,
    reserved: Reserved,
    fcb: FcbBytes,
}

impl Scene for Directories {
    fn new(alloc: Global) -> Result<Self, AllocError> {
        Ok(Directories {
            images: Images::new(alloc),
            reserved: Reserved::none(Format::Ibm3740),
            fcb: FcbBytes::new(),
        })
    }

    fn is_alone(_verb: &str) -> bool {
        false
    }

    fn takes_text(verb: &str) -> bool {
        matches!(verb, "parse")
    }

    fn act(&mut self, alloc: Global, line: &RowLine<'_>) -> Result<RowAnswer, RowFault> {
        let arguments = line.arguments();
        match line.verb() {
            "put-entry" => self.put_entry(alloc, arguments),
            "look" => self.look(alloc, arguments),
            "find" => self.find(alloc, arguments),
            "fcb" => self.fcb.whole(alloc, arguments),
            "field" => self.fcb.field(alloc, arguments),
            "parse" => parse(alloc, line.given(alloc, arguments)?.as_slice()),
            verb if is_of_images(verb) => self.images.act(alloc, line),
            verb => self.act_words(alloc, verb, arguments),
        }
    }
}

impl Directories {
    /// `put-entry NAME N BYTES`: directory entry N becomes what these bytes say, and else zeros.
    fn put_entry(&mut self, alloc: Global, arguments: &[Word<'_>]) -> Result<RowAnswer, RowFault> {
        let [image, index, bytes @ ..] = arguments else {
            return Err(RowFault::Words);
        };
        let index = number(*index)?;
        let bytes = filled(alloc, bytes)?;
        let changed = self.with_entry(alloc, image.text, index, &bytes)?;
        self.images.put(alloc, image.text, changed)?;
        Ok(RowAnswer::Done)
    }

    /// A copy of an image, where a directory entry is what these bytes say.
    fn with_entry(
        &self,
        alloc: Global,
        image: &str,
        index: u16,
        bytes: &[u8; 32],
    ) -> Result<Image, RowFault> {
        let mut changed = self.images.copy(alloc, image)?;
        put_bytes(&mut changed, index, bytes)?;
        Ok(changed)
    }

    /// `look NAME N`: what directory entry N says.
    fn look(&self, alloc: Global, arguments: &[Word<'_>]) -> Result<RowAnswer, RowFault> {
        let [image, index] = arguments else {
            return Err(RowFault::Words);
        };
        let entry = self.entry_at(alloc, image.text, number(*index)?)?;
        shown(alloc, &entry)
    }

    /// A directory entry of an image.
    fn entry_at(&self, alloc: Global, image: &str, index: u16) -> Result<Entry, RowFault> {
        let image = self.images.copy(alloc, image)?;
        entry_of(&image, index)
    }

    /// `find IMAGE USER NAME FROM GROUP`: the first entry of the name, from an entry on, of a group of extents if it is given.
    fn find(&self, alloc: Global, arguments: &[Word<'_>]) -> Result<RowAnswer, RowFault> {
        let [image, user, word, from, group @ ..] = arguments else {
            return Err(RowFault::Words);
        };
        let from = number(*from)?;
        let pattern = pattern_in(alloc, small(*user)?, *word, group)?;
        self.find_on(alloc, image.text, &pattern, from)
    }

    fn find_on(
        &self,
        alloc: Global,
        image: &str,
        pattern: &Pattern,
        from: u16,
    ) -> Result<RowAnswer, RowFault> {
        let image = self.images.copy(alloc, image)?;
        place(alloc, find(&LentImage::new(&image), pattern, from))
    }

    /// Does a line of one word after its first, or of two.
    fn act_words(
        &mut self,
        alloc: Global,
        verb: &str,
        arguments: &[Word<'_>],
    ) -> Result<RowAnswer, RowFault> {
        match arguments {
            [word] => self.act_one(alloc, verb, *word),
            [first, last] if verb == "take-all" => {
                self.take_blocks(alloc, number(*first)?, number(*last)?)
            }
            _ => Err(RowFault::Unknown),
        }
    }

    /// Does a line of one word after its first.
    fn act_one(
        &mut self,
        alloc: Global,
        verb: &str,
        word: Word<'_>,
    ) -> Result<RowAnswer, RowFault> {
        match verb {
            "is-reserved" | "reserved-to" | "take" | "give-back" => {
                self.act_block(alloc, verb, number(word)?)
            }
            "reserve-none" | "block" | "fcb-again" => {
                self.act_format(alloc, verb, format_of(word)?)
            }
            _ => {
                let image = self.images.copy(alloc, word.text)?;
                self.act_image(alloc, verb, &image)
            }
        }
    }

    /// Does a line about the reserved blocks: `is-reserved N`, `reserved-to N`, `take LAST` or `give-back N`.
    fn act_block(&mut self, alloc: Global, verb: &str, block: u16) -> Result<RowAnswer, RowFault> {
        match verb {
            "is-reserved" => RowAnswer::truth(alloc, self.reserved.contains(block)),
            "reserved-to" => self.reserved_to(alloc, block),
            "take" => place(alloc, self.reserved.take_lowest(block)),
            _ => {
                self.reserved.free(block);
                Ok(RowAnswer::Done)
            }
        }
    }

    /// Does a line about a format: `reserve-none FORMAT`, `block FORMAT` or `fcb-again FORMAT`.
    fn act_format(
        &mut self,
        alloc: Global,
        verb: &str,
        format: Format,
    ) -> Result<RowAnswer, RowFault> {
        match verb {
            "block" => self.block(alloc, &format.dpb()),
            "fcb-again" => self.fcb_again(alloc, &format.dpb()),
            _ => {
                self.reserved = Reserved::none(format);
                Ok(RowAnswer::Done)
            }
        }
    }

    /// Does a line about the directory of an image.
    fn act_image(
        &mut self,
        alloc: Global,
        verb: &str,
        image: &Image,
    ) -> Result<RowAnswer, RowFault> {
        match verb {
            "check" => checked(alloc, image),
            "free-entry" => place(alloc, first_free(&LentImage::new(image))),
            "log-in" => {
                self.reserved = login(&LentImage::new(image));
                Ok(RowAnswer::Done)
            }
            "users" => users(alloc, image),
            _ => Err(RowFault::Unknown),
        }
    }

    /// `reserved-to N`: which of the blocks 0 to N are reserved.
    fn reserved_to(&self, alloc: Global, last: u16) -> Result<RowAnswer, RowFault> {
        let mut found = WordCounts::new(alloc);
        for block in 0..=last {
            found.add(alloc, yes_or_no(self.reserved.contains(block)))?;
        }
        found.into_answer()
    }

    /// `block FORMAT`: the block of the file control block.
    fn block(&self, alloc: Global, dpb: &Dpb) -> Result<RowAnswer, RowFault> {
        let fcb = Fcb::from_bytes(dpb, &self.fcb.bytes);
        place(alloc, block_at(dpb, &fcb))
    }

    /// `fcb-again FORMAT`: the bytes of the file control block, decoded and encoded.
    fn fcb_again(&self, alloc: Global, dpb: &Dpb) -> Result<RowAnswer, RowFault> {
        let fcb = Fcb::from_bytes(dpb, &self.fcb.bytes);
        RowAnswer::bytes(alloc, &fcb.to_bytes(dpb))
    }

    /// `take-all FIRST LAST`: the lowest free blocks are taken from FIRST to LAST; whether they come in order.
    fn take_blocks(&mut self, alloc: Global, first: u16, last: u16) -> Result<RowAnswer, RowFault> {
        for block in first..=last {
            match self.reserved.take_lowest(last) {
                Ok(taken) if taken == block => {}
                other => return place(alloc, other),
            }
        }
        RowAnswer::words(alloc, "in order")
    }
}

/// A directory entry, if there is one of that number.
fn entry_of(image: &Image, index: u16) -> Result<Entry, RowFault> {
    if index > image.format().dpb().last_entry {
        return Err(RowFault::Unready);
    }
    Ok(entry(image, index))
}

/// Makes a directory entry what these bytes say, if there is one of that number.
fn put_bytes(image: &mut Image, index: u16, bytes: &[u8; 32]) -> Result<(), RowFault> {
    let dpb = image.format().dpb();
    if index > dpb.last_entry {
        return Err(RowFault::Unready);
    }
    put_entry(image, index, &Entry::from_bytes(&dpb, bytes));
    Ok(())
}

/// The entries of a user with a name, of a group of extents if one is given, or `every` entry.
fn pattern_in(
    alloc: Global,
    user: u8,
    word: Word<'_>,
    group: &[Word<'_>],
) -> Result<Pattern, RowFault> {
    match group {
        [] => pattern(alloc, user, word),
        [group] => Ok(Pattern::Files {
            user,
            name: name(alloc, word)?,
            group: Some(number(*group)?),
        }),
        _ => Err(RowFault::Words),
    }
}

/// `check NAME`: whether the directory is sound, or its fault.
fn checked(alloc: Global, image: &Image) -> Result<RowAnswer, RowFault> {
    match well_formed(image) {
        Ok(()) => RowAnswer::words(alloc, "sound"),
        Err(fault) => RowAnswer::refused(alloc, fault),
    }
}

/// `users NAME`: the user of each entry.
fn users(alloc: Global, image: &Image) -> Result<RowAnswer, RowFault> {
    let mut users = WordCounts::new(alloc);
    for index in 0..=image.format().dpb().last_entry {
        users.add_byte(alloc, entry(image, index).user)?;
    }
    users.into_answer()
}

/// What an entry says.
fn shown(alloc: Global, entry: &Entry) -> Result<RowAnswer, RowFault> {
    let mut text = String::new(alloc);
    write_entry(&mut text, entry)?;
    Ok(RowAnswer::Words(text))
}

/// Adds what an entry says: its user, its name, the bytes after that, and the blocks.
fn write_entry(text: &mut String, entry: &Entry) -> Result<(), AllocError> {
    let extent = &entry.extent;
    let bytes = [
        ("EX", extent.ex),
        ("S1", extent.s1),
        ("S2", extent.s2),
        ("RC", extent.record_count),
    ];
    write!(text, "user {:02X} ", entry.user)?;
    write_name(text, &extent.name)?;
    write_bytes(text, bytes.as_slice())?;
    write_blocks(text, &extent.blocks)
}

/// Adds bytes, each after its name.
fn write_bytes(text: &mut String, bytes: &[(&str, u8)]) -> Result<(), AllocError> {
    for (name, byte) in bytes {
        write!(text, " {name} {byte:02X}")?;
    }
    Ok(())
}

fn write_blocks(text: &mut String, blocks: &[u16]) -> Result<(), AllocError> {
    text.push_str(" blocks")?;
    for block in blocks {
        write!(text, " {block}")?;
    }
    Ok(())
}

/// The place that a call found, or why it found none.
fn place(alloc: Global, found: Result<u16, DirectoryError>) -> Result<RowAnswer, RowFault> {
    match found {
        Ok(number) => RowAnswer::words(alloc, number),
        Err(error) => RowAnswer::refused(alloc, error),
    }
}

/// `Ibm3740` or `Large`.
fn format_of(word: Word<'_>) -> Result<Format, RowFault> {
    match word.text {
        "Ibm3740" => Ok(Format::Ibm3740),
        "Large" => Ok(Format::Large),
        _ => Err(RowFault::Words),
    }
}

/// `parse TEXT`: the drive and the name that a text begins with, and the rest of the text.
fn parse(alloc: Global, text: &[u8]) -> Result<RowAnswer, RowFault> {
    let (fcb, rest) = parse_fcb(text);
    let mut bytes = Vec::new(alloc);
    bytes.push(fcb.drive)?;
    bytes.extend_from_slice(&fcb.extent.name)?;
    bytes.extend_from_slice(rest)?;
    Ok(RowAnswer::Bytes(bytes))
}
