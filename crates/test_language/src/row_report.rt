//! What is told of the rows of a file.

use crate::fault::RowFault;
use crate::line::{Expectation, RowLine};
use crate::runner::Tally;
use std::alloc::{AllocError, Global};

/// What is told of the rows of a file that are not as they should be, and how many there are.
#[derive(Drop)]
pub struct RowReport<'a> {
    alloc: Global,
    file: &'a str,
    pub tally: Tally,
    pub told: String,
}

impl<'a> RowReport<'a> {
    /// Nothing, before the first row.
    pub fn new(alloc: Global, file: &'a str) -> RowReport<'a> {
        RowReport {
            alloc,
            file,
            tally: Tally::default(),
            told: String::new(alloc),
        }
    }

    /// Counts a row with so many expectations.
    pub fn count_row(&mut self, expectations: u64) {
        self.tally.rows = self.tally.rows.saturating_add(1);
        self.tally.expectations = self.tally.expectations.saturating_add(expectations);
    }

    /// Counts a row that is not as it should be.
    pub fn count_failed(&mut self) {
        self.tally.failed = self.tally.failed.saturating_add(1);
    }

    /// Counts a line of the file, or a row of this name, that is not as it should be, and tells what is wrong.
    pub fn fail(&mut self, number: usize, name: &str, what: &str) -> Result<(), AllocError> {
        self.count_failed();
        self.begin(number)?;
        self.add_line(name, what)
    }

    /// The same of a row that doesn't name its fault.
    pub fn fail_unnamed(
        &mut self,
        number: usize,
        name: &str,
        fault: RowFault,
    ) -> Result<(), AllocError> {
        self.count_failed();
        self.begin(number)?;
        self.told.push_str(name)?;
        self.add_line(": the row doesn't name its fault: fails = ", fault.name())
    }

    /// Tells of a line of a row that didn't answer what it must.
    pub fn tell_line(
        &mut self,
        name: &str,
        line: &RowLine<'_>,
        came: &str,
    ) -> Result<(), AllocError> {
        self.begin(line.number)?;
        self.add_line(name, "")?;
        self.add_line("    came:   ", came)?;
        match line.wanted {
            Expectation::Nothing => Ok(()),
            Expectation::Words(wanted) => self.add_line("    wanted: ", wanted),
            Expectation::Text => self.add_line("    wanted: ", line.text.as_str()),
        }
    }

    /// Begins to tell of a line of the file.
    fn begin(&mut self, number: usize) -> Result<(), AllocError> {
        self.told.push_str(self.file)?;
        self.told
            .push_str(format!(in self.alloc; ":{number}: ")?.as_str())
    }

    /// Adds the two parts of a line, and its end.
    fn add_line(&mut self, first: &str, second: &str) -> Result<(), AllocError> {
        self.told.push_str(first)?;
        self.told.push_str(second)?;
        self.told.push('\n')
    }
}
