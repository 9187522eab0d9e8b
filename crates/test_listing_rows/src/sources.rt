//! Sources in assembly language: their images, where their statements stand, and their parts.

use crate::filled;
use cpm_asm::{AsmError, Placement, assemble, assemble_placed};
use cpm_asm_expression::{
    CheckedValue, LONGEST_NAME, Names, keyword_of, letters_of, name_of, value_of,
};
use cpm_flags::Cpu;
use cpm_listing::{instruction_length, list_line};
use std::alloc::{AllocError, Global};
use std::collections::BTreeMap;
use test_language::{RowAnswer, RowFault, RowLine, Scene, Word, address, bytes_of};

/// Where the statement begins in a line of a listing.
const STATEMENT: usize = 14;

/// The source, and the address and the names that an expression is read with.
#[derive(Drop)]
pub struct Sources {
    source: Vec<u8>,
    address: u16,
    names: Names,
}

impl Scene for Sources {
    fn new(alloc: Global) -> Result<Sources, AllocError> {
        Ok(Sources {
            source: Vec::new(alloc),
            address: 0x0100,
            names: BTreeMap::new(alloc),
        })
    }

    fn is_alone(verb: &str) -> bool {
        matches!(verb, "places")
    }

    fn takes_text(verb: &str) -> bool {
        matches!(verb, "source")
    }

    fn act(&mut self, alloc: Global, line: &RowLine<'_>) -> Result<RowAnswer, RowFault> {
        match line.verb() {
            "source" => self.take_source(alloc, line),
            "listing" => self.take_listing(alloc, line.arguments()),
            "assemble" => self.image(alloc, line.arguments()),
            "places" => self.places(alloc, line.arguments()),
            "at" => self.at(line.arguments()),
            "name" => self.name(line.arguments()),
            "value" => self.value(alloc, line.arguments()),
            "keyword" => keyword(alloc, line.arguments()),
            "letters" => letters(alloc, line.arguments()),
            _ => Err(RowFault::Unknown),
        }
    }
}

impl Sources {
    /// `source TEXT`: what is assembled.
    fn take_source(&mut self, alloc: Global, line: &RowLine<'_>) -> Result<RowAnswer, RowFault> {
        self.source = line.given(alloc, line.arguments())?;
        Ok(RowAnswer::Done)
    }

    /// `listing BYTES`: what is assembled are the statements of the lines that list these bytes.
    fn take_listing(
        &mut self,
        alloc: Global,
        arguments: &[Word<'_>],
    ) -> Result<RowAnswer, RowFault> {
        let bytes = bytes_of(alloc, arguments)?;
        self.source = Vec::new(alloc);
        add_statements(&mut self.source, self.address, bytes.as_slice())?;
        Ok(RowAnswer::Done)
    }

    /// `assemble`: the image of the source. `assemble TEXT`: of this one.
    fn image(&mut self, alloc: Global, arguments: &[Word<'_>]) -> Result<RowAnswer, RowFault> {
        if !arguments.is_empty() {
            self.source = bytes_of(alloc, arguments)?;
        }
        match assemble(alloc, self.source.as_slice()) {
            Ok(image) => Ok(RowAnswer::Bytes(image)),
            Err(error) => refused(alloc, error),
        }
    }

    /// `places`: a line for each statement that has a place.
    fn places(&self, alloc: Global, arguments: &[Word<'_>]) -> Result<RowAnswer, RowFault> {
        if !arguments.is_empty() {
            return Err(RowFault::Words);
        }
        match assemble_placed(alloc, self.source.as_slice()) {
            Ok(assembly) => shown_places(alloc, assembly.places.as_slice()),
            Err(error) => refused(alloc, error),
        }
    }

    /// `at ADDRESS`: the statement of an expression stands there.
    fn at(&mut self, arguments: &[Word<'_>]) -> Result<RowAnswer, RowFault> {
        let [place] = arguments else {
            return Err(RowFault::Words);
        };
        self.address = address(*place)?;
        Ok(RowAnswer::Done)
    }

    /// `name NAME NUMBER`: the name stands for the number in expressions.
    fn name(&mut self, arguments: &[Word<'_>]) -> Result<RowAnswer, RowFault> {
        let [name, number] = arguments else {
            return Err(RowFault::Words);
        };
        let letters = name.text.as_bytes();
        if letters.len() > LONGEST_NAME {
            return Err(RowFault::Unready);
        }
        let number = number.text.parse::<u16>().map_err(|_| RowFault::Number)?;
        self.names.insert(name_of(letters), number)?;
        Ok(RowAnswer::Done)
    }

    /// `value TEXT`: the value of an expression, and what is wrong with it; `none` where the text is no expression.
    fn value(&self, alloc: Global, arguments: &[Word<'_>]) -> Result<RowAnswer, RowFault> {
        let text = bytes_of(alloc, arguments)?;
        let here = usize::from(self.address);
        match value_of(alloc, &self.names, here, text.as_slice())? {
            Some(value) => shown_value(alloc, value),
            None => RowAnswer::words(alloc, "none"),
        }
    }
}

/// Adds the statements of the lines that list bytes.
fn add_statements(source: &mut Vec<u8>, address: u16, bytes: &[u8]) -> Result<(), AllocError> {
    let mut rest = bytes;
    for _ in 0..bytes.len() {
        if rest.is_empty() {
            break;
        }
        add_statement(source, address, filled::<3>(rest))?;
        let length = instruction_length(Cpu::I8080, filled::<4>(rest));
        rest = rest.get(length..).unwrap_or(&[]);
    }
    Ok(())
}

/// Adds the statement of the line that lists the instruction of these bytes.
fn add_statement(source: &mut Vec<u8>, address: u16, bytes: [u8; 3]) -> Result<(), AllocError> {
    let line = list_line(address, bytes);
    let statement = line.as_str().get(STATEMENT..).unwrap_or("");
    source.extend_from_slice(statement.as_bytes())?;
    source.push(b'\n')?;
    Ok(())
}

/// A value with what is wrong with it.
fn shown_value(alloc: Global, value: CheckedValue) -> Result<RowAnswer, RowFault> {
    let unknown = if value.is_unknown { " unknown" } else { "" };
    let outside = if value.is_outside { " outside" } else { "" };
    Ok(RowAnswer::Words(format!(in alloc; "{}{unknown}{outside}", value.number)?))
}

/// A refusal by its line and its kind.
fn refused(alloc: Global, error: AsmError) -> Result<RowAnswer, RowFault> {
    let AsmError { line, kind } = error;
    Ok(RowAnswer::Refused(format!(in alloc; "line {line}: {kind:?}")?))
}

/// Places, each on a line: `line 2: 0103 1`. `none` where there are none.
fn shown_places(alloc: Global, places: &[Placement]) -> Result<RowAnswer, RowFault> {
    let mut text = String::new(alloc);
    for placed in places {
        add_place(alloc, &mut text, *placed)?;
    }
    if text.is_empty() {
        text.push_str("none")?;
    }
    Ok(RowAnswer::Words(text))
}

/// Adds the line of a place.
fn add_place(alloc: Global, out: &mut String, placed: Placement) -> Result<(), AllocError> {
    if !out.is_empty() {
        out.push('\n')?;
    }
    let Placement {
        line,
        address,
        length,
    } = placed;
    out.push_str(format!(in alloc; "line {line}: {address:04X} {length}")?.as_str())
}

/// `keyword WORD`: what a word in capital letters means, or `none`.
fn keyword(alloc: Global, arguments: &[Word<'_>]) -> Result<RowAnswer, RowFault> {
    let [word] = arguments else {
        return Err(RowFault::Words);
    };
    match keyword_of(word.text.as_bytes()) {
        Some(keyword) => RowAnswer::name(alloc, keyword),
        None => RowAnswer::words(alloc, "none"),
    }
}

/// `letters WORD`: its letters, or `none` where they are more than 16.
fn letters(alloc: Global, arguments: &[Word<'_>]) -> Result<RowAnswer, RowFault> {
    let [word] = arguments else {
        return Err(RowFault::Words);
    };
    match letters_of(word.text.as_bytes()) {
        Some(letters) => RowAnswer::bytes(alloc, letters.as_slice()),
        None => RowAnswer::words(alloc, "none"),
    }
}
