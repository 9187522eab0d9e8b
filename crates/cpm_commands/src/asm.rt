//! The command `asm`.
ghost use Rattle.std.specs.Prelude.{◌≡◌, IfErr, IfOk, OnOk, map, option_map};
ghost use Rattle.cpm_commands.specs.Asm.{HasAssembled, IsAsmRefused, IsProgramOf, IsSourceRefused, asm_outputs, plan_of_asm};
ghost use Rattle.cpm_commands.specs.Plan.{plan_view};
ghost use Rattle.cpm_store.specs.Writes.{named_output};

use crate::files::{CommandFiles, read_file, write_named};
use crate::plan::{FilePlan, FileRole, OutputNaming, add_file, add_if_any};
use cpm_host::{HostError, ProgramListing, run_asm, run_asm_listed};
use cpm_store::Output;
use std::alloc::{AllocError, Global};

/// The files that `asm` names.
fn plan_of<'a>(
    alloc: Global,
    source: &'a str,
    out: &'a str,
    list: Option<&'a str>,
) -> Result<FilePlan<'a>, AllocError>
    ensures { IfOk result (λ p. plan_view p ≡ plan_of_asm source.now out.now (option_map (λ n. n.now) list.entry)) }
{
    let mut inputs = Vec::new(alloc);
    add_file(&mut inputs, source, FileRole::Plain)?;
    let mut outputs = Vec::new(alloc);
    add_file(&mut outputs, out, FileRole::Plain)?;
    add_if_any(&mut outputs, list, FileRole::Plain)?;
    Ok(FilePlan {
        inputs,
        outputs,
        naming: OutputNaming::Replaces,
    })
}

/// The program of a source, and its listing if it is asked for.
fn program_of(alloc: Global, source: &[u8], is_listed: bool) -> Result<ProgramListing, HostError>
    ensures program { IfOk result (λ p. IsProgramOf is_listed source.now p.image.items p.listing.items) }
    ensures refusal { IfErr result (IsSourceRefused source.now) }
{
    if is_listed {
        return run_asm_listed(alloc, source);
    }
    Ok(ProgramListing {
        image: run_asm(alloc, source)?,
        listing: Vec::new(alloc),
    })
}

/// What is written of a program: it, and its listing if a file is named for it.
fn outputs_of<'a>(
    alloc: Global,
    out: &'a str,
    list: Option<&'a str>,
    program: ProgramListing,
) -> Result<Vec<Output<'a>>, AllocError>
    ensures { IfOk result (λ v. map named_output v.items
        ≡ asm_outputs out.now (option_map (λ n. n.now) list.entry) program.image.items program.listing.items) }
{
    let ProgramListing { image, listing } = program;
    let mut outputs = Vec::new(alloc);
    outputs.push(Output {
        name: out,
        bytes: image,
    })?;
    if let Some(list) = list {
        outputs.push(Output {
            name: list,
            bytes: listing,
        })?;
    }
    Ok(outputs)
}

/// Assembles the source in a file to another, and lists it in a third if one is named.
pub fn assemble_file<F: CommandFiles>(
    alloc: Global,
    source: &str,
    out: &str,
    list: Option<&str>,
    files: &mut F,
) -> Result<(), HostError>
    ensures assembled { OnOk result (HasAssembled F.does F.sees_to F.gives_names source.now out.now (option_map (λ n. n.now) list.entry) files.old files.new) }
    ensures refusal { IfErr result (IsAsmRefused F.does F.sees_to F.gives_names source.now out.now (option_map (λ n. n.now) list.entry) files.old files.new) }
{
    let plan = plan_of(alloc, source, out, list)?;
    files.see_to(&plan)?;
    let text = read_file(alloc, files, source)?;
    let program = program_of(alloc, text.as_slice(), list.is_some())?;
    let outputs = outputs_of(alloc, out, list, program)?;
    write_named(outputs.as_slice(), files)
}
