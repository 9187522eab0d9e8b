//! The commands that write texts: the assembler, the lister, the check, the debugger, and what a saved machine is.

use crate::given::bytes_given;
use crate::programs::Programs;
use cpm_host::{
    HostError, debug_start, run_asm, run_asm_listed, run_check, run_debug, run_list, run_saved,
};
use std::alloc::Global;
use test_language::{RowAnswer, RowFault, RowLine};

impl Programs {
    /// Does a line that runs such a command.
    pub(crate) fn write(
        &mut self,
        alloc: Global,
        line: &RowLine<'_>,
    ) -> Result<RowAnswer, RowFault> {
        self.out.bytes.clear();
        match line.verb() {
            "asm" => self.asm(alloc),
            "asm-listed" => self.asm_listed(alloc),
            "list" => self.list(alloc),
            "check" => self.check(alloc, line),
            "saved" => self.saved(alloc),
            _ => self.debug(alloc, line),
        }
    }

    /// `asm`: assembles the source. The program's bytes.
    fn asm(&mut self, alloc: Global) -> Result<RowAnswer, RowFault> {
        match run_asm(alloc, self.source.as_slice()) {
            Ok(image) => {
                self.program = image;
                self.assembled(alloc)
            }
            Err(error) => self.refuse(alloc, error),
        }
    }

    /// `asm-listed`: the same, and `listing` is the listing of the source.
    fn asm_listed(&mut self, alloc: Global) -> Result<RowAnswer, RowFault> {
        match run_asm_listed(alloc, self.source.as_slice()) {
            Ok(listed) => {
                self.program = listed.image;
                self.listing = listed.listing;
                self.assembled(alloc)
            }
            Err(error) => self.refuse(alloc, error),
        }
    }

    /// The program's bytes.
    fn assembled(&mut self, alloc: Global) -> Result<RowAnswer, RowFault> {
        self.status = 0;
        RowAnswer::bytes(alloc, self.program.as_slice())
    }

    /// What the command wrote, if it wasn't refused.
    fn wrote(
        &mut self,
        alloc: Global,
        outcome: Result<(), HostError>,
    ) -> Result<RowAnswer, RowFault> {
        match outcome {
            Ok(()) => {
                self.status = 0;
                RowAnswer::bytes(alloc, self.out.bytes.as_slice())
            }
            Err(error) => self.refuse(alloc, error),
        }
    }

    /// `list`: the program's instructions.
    fn list(&mut self, alloc: Global) -> Result<RowAnswer, RowFault> {
        let outcome = run_list(self.cpu, self.program.as_slice(), &mut self.out);
        self.wrote(alloc, outcome)
    }

    /// `check BYTES`, or `check image NAME`: checks an image in the file `d.img`.
    fn check(&mut self, alloc: Global, line: &RowLine<'_>) -> Result<RowAnswer, RowFault> {
        let bytes = bytes_given(alloc, &self.images, line, line.arguments())?;
        match run_check("d.img", bytes, &mut self.out) {
            Ok(()) => self.wrote(alloc, Ok(())),
            Err(error) => {
                let code = error.code();
                self.status = code.status();
                Ok(RowAnswer::Refused(format!(in alloc; "{code} {error}")?))
            }
        }
    }

    /// `saved`: what the saved machine is that goes on.
    fn saved(&mut self, alloc: Global) -> Result<RowAnswer, RowFault> {
        let Some(saved) = self.saved_if_any(alloc)? else {
            return Err(RowFault::Absent);
        };
        let outcome = run_saved(alloc, Box::into_inner(saved), &mut self.out);
        self.wrote(alloc, outcome)
    }

    /// `debug BYTES`: what the debugger answers to these orders, with the program and its listing, or with the saved machine that goes on. Without bytes: to
    /// those given by `orders`.
    fn debug(&mut self, alloc: Global, line: &RowLine<'_>) -> Result<RowAnswer, RowFault> {
        let arguments = line.arguments();
        if !arguments.is_empty() {
            self.orders = line.given(alloc, arguments)?;
        }
        if self.saving.is_some() {
            return self.debug_saved(alloc);
        }
        let program = Vec::from_slice(alloc, self.program.as_slice())?;
        let mut input = self.orders.as_slice();
        let listing = self.listing.as_slice();
        match run_debug(alloc, self.cpu, program, listing, &mut input, &mut self.out) {
            Ok(()) => self.wrote(alloc, Ok(())),
            Err(error) => {
                let answer = RowAnswer::refused_text(alloc, &error);
                self.status = HostError::from(error).code().status();
                answer
            }
        }
    }

    /// What it answers with the saved machine that goes on.
    fn debug_saved(&mut self, alloc: Global) -> Result<RowAnswer, RowFault> {
        let start = self.start(alloc)?;
        let mut input = self.orders.as_slice();
        let listing = self.listing.as_slice();
        let outcome = debug_start(alloc, start, listing, &mut input, &mut self.out);
        self.wrote(alloc, outcome)
    }
}
