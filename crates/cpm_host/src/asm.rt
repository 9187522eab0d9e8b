//! The command `asm`.
ghost use Rattle.std.specs.Prelude.{◌≡◌, ◌⊎◌, ◌∷◌, [], ℕ, Err, IfErr, IfOk, List, MatchOption, Ok, slice_index_or};
ghost use Rattle.cpm_asm.specs.Assembled.{AssemblesTo};
ghost use Rattle.cpm_asm.specs.Passes.{both_passes};
ghost use Rattle.cpm_asm.specs.Placing.{places};
ghost use Rattle.cpm_asm.specs.declared.error.AsmErrorKind.TheVariants as kinds;
ghost use Rattle.cpm_host.specs.Asm.{IsAsmRefusal, listed_source_line, lines_in};
ghost use Rattle.cpm_host.specs.AsmListing.{source_listing};

use crate::asm_listing::source_listing;
use crate::error::HostError;
use cpm_asm::{AsmError, AsmErrorKind, assemble, assemble_placed};
use cpm_shown::shown_line;
use memchr::memchr;
use std::alloc::Global;

/// What follows the first line of a text, where something ends it.
fn behind_line(text: &[u8]) -> Option<&[u8]>
    ensures { MatchOption result (lines_in text.now ≡ text.now ∷ [])
        (λ rest. (line : List ℕ) × (lines_in text.now ≡ line ∷ lines_in rest.now)) }
{
    let end = memchr(b'\n', text)?;
    Some(text.split_at(end + 1).1)
}

/// The first line of a text.
fn first_line(text: &[u8]) -> &[u8]
    ensures { result.now ≡ slice_index_or (lines_in text.now) 0 [] }
{
    match memchr(b'\n', text) {
        Some(end) => &text[..end],
        None => text,
    }
}

/// The line of a text with this number, from 1 on; nothing where there is none.
fn line_at(text: &[u8], number: u64) -> &[u8]
    ensures { result.now ≡ listed_source_line text.now number }
{
    let mut rest = text;
    for _before in 1..number {
        match behind_line(rest) {
            Some(behind) => rest = behind,
            None => return &[],
        }
    }
    first_line(rest)
}

/// The refusal of a source, with what stands in the line of its fault.
fn refusal_of(source: &[u8], error: AsmError) -> HostError
    requires { (error.kind ≡ kinds.OutOfMemory) ⊎ (both_passes source.now ≡ Err error) }
    ensures { IsAsmRefusal source.now result }
{
    if error.kind == AsmErrorKind::OutOfMemory {
        HostError::OutOfMemory
    } else {
        HostError::SourceRefused {
            line: error.line,
            kind: error.kind,
            found: shown_line(line_at(source, error.line)),
        }
    }
}

/// Assembles a source in 8080 assembly language, which gives the bytes of a program from 0100h on.
///
/// `SourceRefused` has the line of the first statement with a fault, what is wrong there, and what stands in that line.
/// `OutOfMemory` comes only where memory is refused.
pub fn run_asm(alloc: Global, source: &[u8]) -> Result<Vec<u8>, HostError>
    ensures exact { IfOk result (λ image. both_passes source.now ≡ Ok image.items) }
    ensures assembled { IfOk result (λ image. AssemblesTo source.now image.items) }
    ensures refusal { IfErr result (IsAsmRefusal source.now) }
{
    match assemble(alloc, source) {
        Ok(image) => Ok(image),
        Err(error) => Err(refusal_of(source, error)),
    }
}

/// A program, and the listing of its source.
#[derive(Drop)]
pub struct ProgramListing {
    /// The bytes of the program from 0100h on.
    pub image: Vec<u8>,
    /// Each line of the source up to its end (1Ah), and a newline.
    ///
    /// 24 columns stand before the line: a space, the address of its first byte in four digits, a space, and its first eight
    /// bytes in two digits each; a label alone, ORG and EQU have an address and no bytes, and the columns of other lines are
    /// blank. Further bytes follow in rows of eight with the address of the first of them. Several statements of a line give
    /// their bytes one after another.
    pub listing: Vec<u8>,
}

/// Assembles a source as `run_asm` does, and lists it.
///
/// It is refused as by `run_asm`.
pub fn run_asm_listed(alloc: Global, source: &[u8]) -> Result<ProgramListing, HostError>
    ensures exact { IfOk result (λ l. both_passes source.now ≡ Ok l.image.items) }
    ensures assembled { IfOk result (λ l. AssemblesTo source.now l.image.items) }
    ensures listing { IfOk result (λ l. l.listing.items ≡ source_listing source.now l.image.items (places source.now)) }
    ensures refusal { IfErr result (IsAsmRefusal source.now) }
{
    match assemble_placed(alloc, source) {
        Ok(program) => {
            let listing = source_listing(alloc, source, &program)?;
            Ok(ProgramListing {
                image: program.image,
                listing,
            })
        }
        Err(error) => Err(refusal_of(source, error)),
    }
}
