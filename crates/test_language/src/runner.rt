//! Runs the rows of a file.

use crate::line::RowLine;
use crate::row::{Course, Row};
use crate::row_report::RowReport;
use crate::scene::Scene;
use std::alloc::{AllocError, Global};

/// How many rows there were, how many of them are not as they should be, and how many expectations they had.
#[derive(Clone, Copy, Default)]
pub struct Tally {
    pub rows: u64,
    pub failed: u64,
    pub expectations: u64,
}

/// The rows of a file, line by line.
#[derive(Drop)]
struct RowRunner<'a, S: Scene> {
    alloc: Global,
    /// Whether each row is wrong, and must fail.
    are_wrong: bool,
    row: Option<Row<'a, S>>,
    /// The line whose text is being read.
    line: Option<RowLine<'a>>,
    report: RowReport<'a>,
}

impl<'a, S: Scene> RowRunner<'a, S> {
    /// Before the first row.
    fn new(alloc: Global, file: &'a str, are_wrong: bool) -> RowRunner<'a, S> {
        RowRunner {
            alloc,
            are_wrong,
            row: None,
            line: None,
            report: RowReport::new(alloc, file),
        }
    }

    /// Runs the rows of a file, and adds to a text what is told of them.
    fn run(&mut self, text: &'a str, told: &mut String) -> Result<Tally, AllocError> {
        self.take_lines(text)?;
        self.end()?;
        told.push_str(self.report.told.as_str())?;
        Ok(self.report.tally)
    }

    /// Takes the lines of a file, of which the first line was read.
    fn take_lines(&mut self, text: &'a str) -> Result<(), AllocError> {
        let mut lines = text.lines();
        let _ = lines.next();
        let mut number = 1_usize;
        for line in lines {
            number = number.saturating_add(1);
            self.take(number, line)?;
        }
        Ok(())
    }

    /// Takes a line of the file.
    fn take(&mut self, number: usize, text: &'a str) -> Result<(), AllocError> {
        match &mut self.line {
            Some(_) if text == ">>" => self.end_text(),
            Some(line) => line.add_text(text),
            None => self.take_line(number, text),
        }
    }

    /// Does the line whose text has been read.
    fn end_text(&mut self) -> Result<(), AllocError> {
        match self.line.take() {
            Some(line) => self.act(&line),
            None => Ok(()),
        }
    }

    /// Takes a line that is no part of a text.
    fn take_line(&mut self, number: usize, text: &'a str) -> Result<(), AllocError> {
        if text.is_empty() || text.starts_with('#') {
            Ok(())
        } else if text.starts_with("  ") {
            self.begin_line(number, text)
        } else if text.starts_with(' ') || text.starts_with('\t') {
            let told = "a line of a row begins with two spaces, and the name of one with none";
            self.report.fail(number, "", told)
        } else {
            self.begin_row(number, text)
        }
    }

    /// Does a line of the row, once its text has been read.
    fn begin_line(&mut self, number: usize, text: &'a str) -> Result<(), AllocError> {
        let line = RowLine::of(self.alloc, number, text);
        if !line.has_text {
            return self.act(&line);
        }
        self.line = Some(line);
        Ok(())
    }

    /// Begins a row.
    fn begin_row(&mut self, number: usize, name: &'a str) -> Result<(), AllocError> {
        self.end_row()?;
        self.row = Some(Row::begin(self.alloc, number, name)?);
        Ok(())
    }

    /// Does a line of the row, unless the row has failed.
    fn act(&mut self, line: &RowLine<'_>) -> Result<(), AllocError> {
        match &mut self.row {
            Some(row) if self.are_wrong => row.act_wrong(self.alloc, line),
            Some(row) => row.act_right(self.alloc, line, &mut self.report),
            None => self
                .report
                .fail(line.number, "", "this line stands before the first row"),
        }
    }

    /// Ends the row, if there is one.
    fn end_row(&mut self) -> Result<(), AllocError> {
        let Some(row) = self.row.take() else {
            return Ok(());
        };
        self.report.count_row(row.expectations);
        if self.are_wrong {
            self.end_wrong(&row)
        } else {
            self.end_right(&row)
        }
    }

    /// Ends a row that must be right.
    fn end_right(&mut self, row: &Row<'a, S>) -> Result<(), AllocError> {
        match row.course {
            Course::Right if row.expectations > 0 => Ok(()),
            Course::Right => self
                .report
                .fail(row.number, row.name, ": the row expects nothing"),
            // (its line was told of)
            _ => {
                self.report.count_failed();
                Ok(())
            }
        }
    }

    /// Ends a row that must fail at its last line, by what came, or by the fault that it names.
    fn end_wrong(&mut self, row: &Row<'a, S>) -> Result<(), AllocError> {
        match (row.course, row.fault()) {
            (Course::Other | Course::Named, _) => Ok(()),
            (_, Some(fault)) => self.report.fail_unnamed(row.number, row.name, fault),
            (_, None) => {
                let what = ": the row is wrong, and doesn't fail at its last line";
                self.report.fail(row.number, row.name, what)
            }
        }
    }

    /// Ends the file.
    fn end(&mut self) -> Result<(), AllocError> {
        if let Some(line) = &self.line {
            self.report
                .fail(line.number, "", "the text behind this line has no end")?;
        }
        self.end_row()
    }
}

/// Runs the rows of a file, of which the first line was read, and adds to a text what is told of those that are not as they should
/// be. With `are_wrong` each row must fail.
pub fn run_rows<'a, S: Scene>(
    alloc: Global,
    file: &'a str,
    text: &'a str,
    are_wrong: bool,
    told: &mut String,
) -> Result<Tally, AllocError> {
    let mut runner: RowRunner<'a, S> = RowRunner::new(alloc, file, are_wrong);
    runner.run(text, told)
}
