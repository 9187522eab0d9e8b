//! Where the bytes of statements stand.
ghost use Rattle.std.specs.Prelude.{◌≡◌, ◌++◌, OnOk};
ghost use Rattle.cpm_asm.specs.Placing.{has_place, placement_of, takes_place};
ghost use Rattle.cpm_asm.specs.Statements.{seen_statement, seen_work};

use crate::statement::{Statement, Work};
use std::alloc::AllocError;

/// Where the bytes of a statement stand: the number of its line from 1 on, the address of its first byte, and how many there
/// are. A label alone, ORG and EQU have none, and stand at the address that is reached before them.
#[derive(Clone, Copy, Debug, PartialEq, Eq, Drop)]
pub struct Placement {
    pub line: u64,
    pub address: usize,
    pub length: usize,
}

/// A program: its image, and where its statements stand in it.
#[derive(Debug, Drop)]
pub struct Assembly {
    /// The bytes from 0100h to the last one.
    pub image: Vec<u8>,
    /// In the order of the statements.
    pub places: Vec<Placement>,
}

/// ORG, EQU, DS, DB, DW and instructions have places.
fn takes_place(work: &Work) -> bool
    ensures { result ≡ takes_place (seen_work work.now) }
{
    !matches!(
        *work,
        Work::Wrong
            | Work::Nothing
            | Work::End
            | Work::If(_)
            | Work::EndIf
            | Work::Nest
            | Work::Unnest
    )
}

/// So has each label.
fn has_place(statement: &Statement) -> bool
    ensures { result ≡ has_place (seen_statement statement.now) }
{
    statement.label.is_some() || takes_place(&statement.work)
}

/// Adds the place of a statement that has one.
pub(crate) fn add_place(
    places: &mut Vec<Placement>,
    placed: Placement,
    statement: &Statement,
) -> Result<(), AllocError>
    ensures { OnOk result (places.new.items ≡ places.old.items ++ placement_of placed (seen_statement statement.now)) }
{
    if has_place(statement) {
        places.push(placed)?;
    }
    Ok(())
}
