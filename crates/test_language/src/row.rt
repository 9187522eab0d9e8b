//! A row while its lines are done.

use crate::answer::RowAnswer;
use crate::fault::RowFault;
use crate::line::{Expectation, RowLine};
use crate::row_report::RowReport;
use crate::scene::Scene;
use std::alloc::{AllocError, Global};

/// What has come of a row so far.
#[derive(Clone, Copy)]
pub enum Course {
    /// Each line answered what it must.
    Right,
    /// The last line answered something else.
    Other,
    /// The row has this fault.
    Fault(RowFault),
    /// It has a fault, and the last line names it.
    Named,
    /// A line stands behind the one that failed.
    GoesOn,
}

/// The row that is being done.
#[derive(Drop)]
pub struct Row<'a, S: Scene> {
    /// Its place in the file, counted from 1.
    pub number: usize,
    pub name: &'a str,
    scene: S,
    /// How many of the lines that were done say what must come.
    pub expectations: u64,
    pub course: Course,
    /// What came of the line that failed, in words.
    came: String,
}

impl<'a, S: Scene> Row<'a, S> {
    /// A row before its first line.
    pub fn begin(alloc: Global, number: usize, name: &'a str) -> Result<Row<'a, S>, AllocError> {
        Ok(Row {
            number,
            name,
            scene: S::new(alloc)?,
            expectations: 0,
            course: Course::Right,
            came: String::new(alloc),
        })
    }

    /// Does a line, unless the row has failed.
    fn act(&mut self, alloc: Global, line: &RowLine<'_>) -> Result<(), AllocError> {
        if !matches!(self.course, Course::Right) {
            self.course = Course::GoesOn;
            return Ok(());
        }
        if !matches!(line.wanted, Expectation::Nothing) {
            self.expectations = self.expectations.saturating_add(1);
        }
        self.course = done(alloc, &mut self.scene, line, &mut self.came)?;
        Ok(())
    }

    /// Does a line of a row that must be right, and tells what came where it is something else.
    pub fn act_right(
        &mut self,
        alloc: Global,
        line: &RowLine<'_>,
        report: &mut RowReport<'_>,
    ) -> Result<(), AllocError> {
        self.act(alloc, line)?;
        match self.course {
            Course::Other | Course::Fault(_) => {
                report.tell_line(self.name, line, self.came.as_str())
            }
            _ => Ok(()),
        }
    }

    /// Does a line of a row that must be wrong, or takes the one that names its fault.
    pub fn act_wrong(&mut self, alloc: Global, line: &RowLine<'_>) -> Result<(), AllocError> {
        if line.verb() == "fails" {
            self.take_fault(line);
            return Ok(());
        }
        self.act(alloc, line)
    }

    /// Its fault, where nothing was compared that is wrong.
    pub fn fault(&self) -> Option<RowFault> {
        match self.course {
            Course::Fault(fault) => Some(fault),
            Course::Right if self.expectations == 0 => Some(RowFault::NoExpectation),
            _ => None,
        }
    }

    /// Takes the line that names its fault.
    fn take_fault(&mut self, line: &RowLine<'_>) {
        self.course = match (self.fault(), line.wanted) {
            (None, _) => Course::GoesOn,
            (Some(fault), Expectation::Words(wanted)) if wanted == fault.name() => Course::Named,
            (Some(fault), _) => Course::Fault(fault),
        };
    }
}

/// Does a line, as often as it says. The course of the row after it.
fn done<S: Scene>(
    alloc: Global,
    scene: &mut S,
    line: &RowLine<'_>,
    came: &mut String,
) -> Result<Course, AllocError> {
    if let Some(fault) = line.fault_in::<S>() {
        return failed(fault, came);
    }
    for _ in 0..line.times() {
        let course = done_once(alloc, scene, line, came)?;
        if !matches!(course, Course::Right) {
            return Ok(course);
        }
    }
    Ok(Course::Right)
}

/// Does a line once.
fn done_once<S: Scene>(
    alloc: Global,
    scene: &mut S,
    line: &RowLine<'_>,
    came: &mut String,
) -> Result<Course, AllocError> {
    match scene.act(alloc, line) {
        Ok(answer) => compared(alloc, line, &answer, came),
        Err(fault) => failed(fault, came),
    }
}

/// The course of a row after an answer.
fn compared(
    alloc: Global,
    line: &RowLine<'_>,
    answer: &RowAnswer,
    came: &mut String,
) -> Result<Course, AllocError> {
    match answer.is(alloc, line) {
        Ok(true) => Ok(Course::Right),
        Ok(false) => {
            answer.write(alloc, came)?;
            Ok(Course::Other)
        }
        Err(fault) => {
            answer.write(alloc, came)?;
            came.push_str(", and ")?;
            failed(fault, came)
        }
    }
}

/// The course of a row that has a fault.
fn failed(fault: RowFault, came: &mut String) -> Result<Course, AllocError> {
    came.push_str(fault.text())?;
    Ok(Course::Fault(fault))
}
