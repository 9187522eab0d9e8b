//! What is written after the sessions of a configuration were run, in their order.
ghost use Rattle.std.specs.Prelude.{◌≡◌, ◌<◌, ◌++◌, ℕ, None, IfOk, OnOk, map, option_map, slice_get, slice_index_or, string_bytes};
ghost use Rattle.cpm_batch.specs.Outputs.{files_of, files_of_all, image_outputs, left_by, named_bytes, named_image, named_images, named_saving};
ghost use Rattle.cpm_store.specs.Writes.{named_output};

use cpm_config::SessionConfig;
use cpm_geom::Image;
use cpm_store::Output;
use std::alloc::{AllocError, Global};

/// A session, and what it left.
#[derive(Drop)]
pub struct SessionFiles<'a> {
    pub session: &'a SessionConfig,
    /// The bytes of its console.
    pub console: Vec<u8>,
    /// The bytes of its list device.
    pub list: Vec<u8>,
    /// Its drives A to D, as far as it had them.
    pub drives: [Option<Image>; 4],
    /// The bytes of its saving, where it is saved.
    pub saved: Option<Vec<u8>>,
}

/// Adds bytes, where a file is named for them.
fn add_named<'a>(
    outputs: &mut Vec<Output<'a>>,
    name: Option<&'a str>,
    bytes: Vec<u8>,
) -> Result<(), AllocError>
    ensures { OnOk result (map named_output outputs.new.items
        ≡ map named_output outputs.old.items ++ named_bytes (option_map (λ n. n.now) name.entry) bytes.items) }
{
    if let Some(name) = name {
        outputs.push(Output { name, bytes })?;
    }
    Ok(())
}

/// Adds the image of a drive, where there is one and a file is named for it.
fn add_image<'a>(
    outputs: &mut Vec<Output<'a>>,
    name: Option<&'a str>,
    drive: Option<Image>,
) -> Result<(), AllocError>
    ensures { OnOk result (map named_output outputs.new.items
        ≡ map named_output outputs.old.items ++ named_image (option_map (λ n. n.now) name.entry) drive) }
{
    match drive {
        Some(image) => add_named(outputs, name, image.into_bytes()),
        None => Ok(()),
    }
}

/// The name at a place, if there is one.
fn name_at<'a>(names: &'a [String], place: usize) -> Option<&'a str>
    ensures { option_map (λ n. n.now) result ≡ option_map string_bytes (slice_get names.entry.now place) }
{
    match names.get(place) {
        Some(name) => Some(name.as_str()),
        None => None,
    }
}

/// Takes the drive at a place, if there is one.
fn take_drive(drives: &mut [Option<Image>; 4], place: usize) -> Option<Image>
    requires { place < 4 }
    ensures drive { result ≡ slice_index_or drives.old place None }
    ensures rest { (other : ℕ) → place < other → slice_index_or drives.new other None ≡ slice_index_or drives.old other None }
{
    drives[place].take()
}

/// Adds the images of drives, as far as files are named for them.
fn add_images<'a>(
    outputs: &mut Vec<Output<'a>>,
    names: &'a [String],
    mut drives: [Option<Image>; 4],
) -> Result<(), AllocError>
    ensures { OnOk result (map named_output outputs.new.items
        ≡ map named_output outputs.old.items ++ image_outputs names.entry.now drives) }
{
    add_image(outputs, name_at(names, 0), take_drive(&mut drives, 0))?;
    add_image(outputs, name_at(names, 1), take_drive(&mut drives, 1))?;
    add_image(outputs, name_at(names, 2), take_drive(&mut drives, 2))?;
    add_image(outputs, name_at(names, 3), take_drive(&mut drives, 3))?;
    Ok(())
}

/// Adds a saving, where there is one and a file is named for it.
fn add_saving<'a>(
    outputs: &mut Vec<Output<'a>>,
    name: Option<&'a str>,
    saved: Option<Vec<u8>>,
) -> Result<(), AllocError>
    ensures { OnOk result (map named_output outputs.new.items
        ≡ map named_output outputs.old.items
        ++ named_saving (option_map (λ n. n.now) name.entry) (option_map (λ v. v.items) saved)) }
{
    match saved {
        Some(bytes) => add_named(outputs, name, bytes),
        None => Ok(()),
    }
}

/// Adds the images of drives, where files are named for them.
fn add_named_images<'a>(
    outputs: &mut Vec<Output<'a>>,
    names: &'a Option<Vec<String>>,
    drives: [Option<Image>; 4],
) -> Result<(), AllocError>
    ensures { OnOk result (map named_output outputs.new.items
        ≡ map named_output outputs.old.items ++ named_images names.entry.now drives) }
{
    match names {
        Some(names) => add_images(outputs, names.as_slice(), drives),
        None => Ok(()),
    }
}

/// Adds the files of a session.
fn add_files<'a>(outputs: &mut Vec<Output<'a>>, files: SessionFiles<'a>) -> Result<(), AllocError>
    ensures { OnOk result (map named_output outputs.new.items
        ≡ map named_output outputs.old.items ++ files_of (left_by files.entry)) }
{
    let SessionFiles {
        session,
        console,
        list,
        drives,
        saved,
    } = files;
    add_named(outputs, Some(session.console.as_str()), console)?;
    add_named(outputs, session.list.as_deref(), list)?;
    add_named_images(outputs, &session.out, drives)?;
    add_saving(outputs, session.save.as_deref(), saved)
}

/// What is written after sessions were run: of each in order its console's text, its list device's where a file is named for it, and the images of its
/// drives and its saving where they are named.
pub fn outputs_of<'a>(
    alloc: Global,
    sessions: Vec<SessionFiles<'a>>,
) -> Result<Vec<Output<'a>>, AllocError>
    ensures { IfOk result (λ outputs. map named_output outputs.items ≡ files_of_all (map left_by sessions.entry.items)) }
{
    let mut outputs = Vec::new(alloc);
    let mut rest = sessions.into_iter();
    while let Some(files) = rest.next() {
        add_files(&mut outputs, files)?;
    }
    Ok(outputs)
}
