//! What the commands on disk images do with files.

use crate::files::{lines_of, named, refused_with, shown_files, shown_status, user_of};
use crate::names::{act_on_names, characters, only, shown_text, text_of};
use crate::not_done::NotDone;
use cpm_disk_commands::{
    DiskCommandError, HostFile, check_new, disk_of_files, file_name, get_file, host_name, image_of,
    list_files, matching_files, new_image, put_file, remove_file, rename_file, text_of_name,
};
use cpm_geom::{Format, Image};
use cpm_image_files::{DiskFile, DiskListing, FileName, FileRefusal};
use std::alloc::{AllocError, Global};
use test_images::Images;
use test_language::{RowAnswer, RowFault, RowLine, Scene, Word};

/// The lines that make an image or change one.
const CHANGES: [&str; 7] = [
    "new", "image-of", "put", "put-text", "remove", "rename", "disk-of",
];

/// The images, what the names of files are told with, the files before another one, those of a list and of a folder, and the
/// status of the last refusal.
#[derive(Drop)]
pub struct DiskCommands {
    images: Images,
    user: u8,
    is_read_only: bool,
    is_system: bool,
    before: Vec<FileName>,
    listed: Vec<DiskFile>,
    pub(crate) host_files: Vec<HostFile>,
    status: Option<u8>,
}

impl Scene for DiskCommands {
    fn new(alloc: Global) -> Result<DiskCommands, AllocError> {
        Ok(DiskCommands {
            images: Images::new(alloc),
            user: 0,
            is_read_only: false,
            is_system: false,
            before: Vec::new(alloc),
            listed: Vec::new(alloc),
            host_files: Vec::new(alloc),
            status: None,
        })
    }

    fn is_alone(verb: &str) -> bool {
        matches!(verb, "status")
    }

    fn takes_text(verb: &str) -> bool {
        matches!(verb, "image-of" | "put" | "put-text")
    }

    fn act(&mut self, alloc: Global, line: &RowLine<'_>) -> Result<RowAnswer, RowFault> {
        match self.act_once(alloc, line) {
            Ok(answer) => Ok(answer),
            Err(NotDone::Fault(fault)) => Err(fault),
            Err(NotDone::Refused(error)) => {
                let code = error.code();
                self.status = Some(code.status());
                refused_with(alloc, code, error)
            }
        }
    }
}

impl DiskCommands {
    /// Does a line.
    fn act_once(&mut self, alloc: Global, line: &RowLine<'_>) -> Result<RowAnswer, NotDone> {
        let arguments = line.arguments();
        match line.verb() {
            verb if CHANGES.contains(&verb) => self.change(alloc, line),
            "get" => self.get(alloc, arguments, false),
            "get-text" => self.get(alloc, arguments, true),
            "list" => self.list(alloc, arguments),
            "matching" => self.matching(alloc, arguments),
            "host-name" => self.host_name(alloc, arguments),
            "spelled" => self.spelled(alloc, arguments),
            "before" => self.add_before(alloc, arguments),
            "check" => self.check(alloc, arguments),
            "host-files" => self.add_host_files(alloc, arguments),
            "tell" => self.tell(alloc, arguments),
            _ => Ok(self.act_plainly(alloc, line)?),
        }
    }

    /// Does a line that no command refuses.
    fn act_plainly(&mut self, alloc: Global, line: &RowLine<'_>) -> Result<RowAnswer, RowFault> {
        let arguments = line.arguments();
        match line.verb() {
            "image" | "entry" | "record" | "sector" => self.images.act(alloc, line),
            "user" => self.set_user(arguments),
            "attributes" => self.set_attributes(arguments),
            "status" => shown_status(alloc, self.status),
            "listed" => self.add_listed(alloc, arguments),
            "write-list" => self.write_listed(alloc, arguments),
            _ => act_on_names(alloc, line),
        }
    }

    /// `user N`: the names of the lines after it are of this user.
    fn set_user(&mut self, arguments: &[Word<'_>]) -> Result<RowAnswer, RowFault> {
        let user = only(arguments)?.text.parse::<u8>();
        self.user = user.map_err(|_| RowFault::Number)?;
        Ok(RowAnswer::Done)
    }

    /// `attributes [read-only] [system]`: the files of the lines after it have these attributes.
    fn set_attributes(&mut self, arguments: &[Word<'_>]) -> Result<RowAnswer, RowFault> {
        self.is_read_only = false;
        self.is_system = false;
        for word in arguments {
            match word.text {
                "read-only" => self.is_read_only = true,
                "system" => self.is_system = true,
                _ => return Err(RowFault::Words),
            }
        }
        Ok(RowAnswer::Done)
    }

    /// Does a line that makes an image or changes one: `new IMAGE [large]`, `image-of IMAGE BYTES`, `put IMAGE NAME BYTES`,
    /// `put-text IMAGE NAME TEXT`, `remove IMAGE NAME`, `rename IMAGE OLD NEW` or `disk-of IMAGE FOLDER`.
    fn change(&mut self, alloc: Global, line: &RowLine<'_>) -> Result<RowAnswer, NotDone> {
        let [image, rest @ ..] = line.arguments() else {
            return Err(NotDone::Fault(RowFault::Words));
        };
        let changed = self.changed(alloc, line, image.text, rest)?;
        self.images.put(alloc, image.text, changed)?;
        Ok(RowAnswer::Done)
    }

    /// The image that such a line makes.
    fn changed(
        &self,
        alloc: Global,
        line: &RowLine<'_>,
        image: &str,
        rest: &[Word<'_>],
    ) -> Result<Image, NotDone> {
        match line.verb() {
            "new" => Ok(new_image(alloc, is_large(rest)?)?),
            "image-of" => Ok(image_of(image, line.given(alloc, rest)?)?),
            "put" => self.put(alloc, line, image, rest, false),
            "put-text" => self.put(alloc, line, image, rest, true),
            "remove" => self.remove(alloc, image, only(rest)?),
            "rename" => self.rename(alloc, image, rest),
            _ => {
                let files = self.host_files.as_slice();
                Ok(disk_of_files(alloc, only(rest)?.text, files)?)
            }
        }
    }

    /// The image with a file.
    fn put(
        &self,
        alloc: Global,
        line: &RowLine<'_>,
        image: &str,
        rest: &[Word<'_>],
        is_text: bool,
    ) -> Result<Image, NotDone> {
        let [name, bytes @ ..] = rest else {
            return Err(NotDone::Fault(RowFault::Words));
        };
        let before = self.images.get(image)?;
        let file = self.file(alloc, *name)?;
        let bytes = line.given(alloc, bytes)?;
        Ok(put_file(alloc, before, image, &file, is_text, bytes.as_slice())?)
    }

    /// The image without a file.
    fn remove(&self, alloc: Global, image: &str, name: Word<'_>) -> Result<Image, NotDone> {
        let before = self.images.get(image)?;
        let file = self.file(alloc, name)?;
        Ok(remove_file(alloc, before, image, &file)?)
    }

    /// The image with a file under another name.
    fn rename(&self, alloc: Global, image: &str, rest: &[Word<'_>]) -> Result<Image, NotDone> {
        let [old, new] = rest else {
            return Err(NotDone::Fault(RowFault::Words));
        };
        let before = self.images.get(image)?;
        let (old, new) = (self.file(alloc, *old)?, self.file(alloc, *new)?);
        if old.user() != new.user() {
            return Err(NotDone::Fault(RowFault::Unready));
        }
        Ok(rename_file(alloc, before, image, &old, &new)?)
    }

    /// The file of the user that a text names, with the attributes.
    pub(crate) fn file(&self, alloc: Global, name: Word<'_>) -> Result<FileName, NotDone> {
        if self.user >= 16 {
            return Err(NotDone::Fault(RowFault::Unready));
        }
        let text = text_of(alloc, name)?;
        Ok(file_name(text.as_str(), self.user, self.is_read_only, self.is_system)?)
    }

    /// `get IMAGE NAME`, `get-text IMAGE NAME`: the bytes of a file.
    fn get(
        &self,
        alloc: Global,
        arguments: &[Word<'_>],
        is_text: bool,
    ) -> Result<RowAnswer, NotDone> {
        let [image, name] = arguments else {
            return Err(NotDone::Fault(RowFault::Words));
        };
        let file = self.file(alloc, *name)?;
        let from = self.images.get(image.text)?;
        Ok(RowAnswer::Bytes(get_file(alloc, from, image.text, &file, is_text)?))
    }

    /// `list IMAGE [USER]`: the lines of its files, or of those of a user.
    fn list(&self, alloc: Global, arguments: &[Word<'_>]) -> Result<RowAnswer, NotDone> {
        let [image, user @ ..] = arguments else {
            return Err(NotDone::Fault(RowFault::Words));
        };
        let user = user_of(user)?;
        let from = self.images.get(image.text)?;
        let listing = list_files(alloc, from, image.text)?;
        Ok(lines_of(alloc, from.format(), &listing, user)?)
    }

    /// `matching IMAGE PATTERN`: the files of the user that a pattern names.
    fn matching(&self, alloc: Global, arguments: &[Word<'_>]) -> Result<RowAnswer, NotDone> {
        let [image, pattern] = arguments else {
            return Err(NotDone::Fault(RowFault::Words));
        };
        let files = self.matches(alloc, image.text, pattern.text)?;
        Ok(shown_files(alloc, files.as_slice())?)
    }

    /// The files of the user that a pattern names.
    fn matches(&self, alloc: Global, image: &str, pattern: &str) -> Result<Vec<FileName>, NotDone> {
        let user = self.user;
        if user >= 16 {
            return Err(NotDone::Fault(RowFault::Unready));
        }
        let listing = list_files(alloc, self.images.get(image)?, image)?;
        let files = listing.files.as_slice();
        Ok(matching_files(alloc, files, image, user, pattern)?)
    }

    /// `host-name IMAGE NAME`: the name on the host of a file of an image.
    fn host_name(&self, alloc: Global, arguments: &[Word<'_>]) -> Result<RowAnswer, NotDone> {
        let [image, name] = arguments else {
            return Err(NotDone::Fault(RowFault::Words));
        };
        let file = self.file(alloc, *name)?;
        Ok(RowAnswer::words(alloc, host_name(image.text, &file)?)?)
    }

    /// `spelled NAME`: the name on the host of the file that a text names, with the attributes.
    fn spelled(&self, alloc: Global, arguments: &[Word<'_>]) -> Result<RowAnswer, NotDone> {
        let file = self.file(alloc, only(arguments)?)?;
        Ok(shown_text(alloc, text_of_name(file.name()))?)
    }

    /// `before NAME`: one more file before those that are checked.
    fn add_before(&mut self, alloc: Global, arguments: &[Word<'_>]) -> Result<RowAnswer, NotDone> {
        let file = self.file(alloc, only(arguments)?)?;
        self.before.push(file)?;
        Ok(RowAnswer::Done)
    }

    /// `check NAME WORD`: `new` where a file, which a word of the command line names, is none of those before it.
    fn check(&self, alloc: Global, arguments: &[Word<'_>]) -> Result<RowAnswer, NotDone> {
        let [name, word] = arguments else {
            return Err(NotDone::Fault(RowFault::Words));
        };
        let file = self.file(alloc, *name)?;
        check_new(self.before.as_slice(), &file, word.text)?;
        Ok(RowAnswer::words(alloc, "new")?)
    }

    /// `listed RECORDS NAME`: a list has a file of the user, of so many records, with the eleven characters of this name.
    fn add_listed(&mut self, alloc: Global, arguments: &[Word<'_>]) -> Result<RowAnswer, RowFault> {
        let [records, name @ ..] = arguments else {
            return Err(RowFault::Words);
        };
        self.listed.push(DiskFile {
            user: self.user,
            name: characters(alloc, name)?,
            records: records.text.parse::<u32>().map_err(|_| RowFault::Number)?,
        })?;
        Ok(RowAnswer::Done)
    }

    /// `write-list FREE`: the lines of this list of a small disk, where so many blocks are free.
    fn write_listed(&self, alloc: Global, arguments: &[Word<'_>]) -> Result<RowAnswer, RowFault> {
        let free = only(arguments)?;
        let listing = DiskListing {
            files: Vec::from_slice(alloc, self.listed.as_slice())?,
            free_blocks: free.text.parse::<u16>().map_err(|_| RowFault::Number)?,
        };
        lines_of(alloc, Format::Ibm3740, &listing, None)
    }

    /// `tell IMAGE NAME REASON`: what is said where something isn't done with a file for this reason.
    fn tell(&self, alloc: Global, arguments: &[Word<'_>]) -> Result<RowAnswer, NotDone> {
        let [image, name, reason] = arguments else {
            return Err(NotDone::Fault(RowFault::Words));
        };
        let reason = reason_of(reason.text)?;
        let file = self.file(alloc, *name)?;
        Err(NotDone::Refused(DiskCommandError::Refused {
            image: cpm_shown::shown(image.text),
            file: named(&file),
            reason,
        }))
    }
}

/// Whether a new disk is large, as words after its name say.
fn is_large(words: &[Word<'_>]) -> Result<bool, RowFault> {
    match words {
        [] => Ok(false),
        [size] if size.text == "large" => Ok(true),
        _ => Err(RowFault::Words),
    }
}

/// The reason that a word names.
fn reason_of(word: &str) -> Result<FileRefusal, RowFault> {
    match word {
        "ReadOnly" => Ok(FileRefusal::ReadOnly),
        "DirectoryFull" => Ok(FileRefusal::DirectoryFull),
        "DiskFull" => Ok(FileRefusal::DiskFull),
        "NoFile" => Ok(FileRefusal::NoFile),
        "Exists" => Ok(FileRefusal::Exists),
        _ => Err(RowFault::Words),
    }
}
