//! The rows of programs and of the debugger.

use crate::given::{count_of, cpu_of};
use crate::recorder::Recorder;
use cpm_flags::Cpu;
use cpm_geom::Image;
use cpm_host::{HostError, ProgramPlay, Tail};
use std::alloc::{AllocError, Global};
use test_images::Images;
use test_language::{RowAnswer, RowFault, RowLine, Scene};

/// How many steps a program has where no line says it.
const STEPS: u64 = 1_000_000;

/// What a command is given, and the result of the last one.
#[derive(Drop)]
pub struct Programs {
    pub(crate) images: Images,
    pub(crate) cpu: Cpu,
    pub(crate) program: Vec<u8>,
    /// Whether a machine begins at the prompt, and not the program.
    pub(crate) at_prompt: bool,
    pub(crate) source: Vec<u8>,
    pub(crate) listing: Vec<u8>,
    pub(crate) orders: Vec<u8>,
    pub(crate) keys: Vec<u8>,
    pub(crate) tail: Option<Tail>,
    pub(crate) drives: Vec<Image>,
    pub(crate) system: Option<Image>,
    pub(crate) steps: u64,
    /// Whether a machine is saved at its end.
    pub(crate) is_saved: bool,
    /// The bytes of a saved machine that goes on, in place of a program, a processor and drives.
    pub(crate) saving: Option<Vec<u8>>,
    /// What the last command wrote.
    pub(crate) out: Recorder,
    /// The record of the keys.
    pub(crate) record: Vec<u8>,
    pub(crate) played: Option<ProgramPlay>,
    /// The exit status of the last command.
    pub(crate) status: u8,
}

impl Scene for Programs {
    fn new(alloc: Global) -> Result<Programs, AllocError> {
        Ok(Programs {
            images: Images::new(alloc),
            cpu: Cpu::I8080,
            program: Vec::new(alloc),
            at_prompt: false,
            source: Vec::new(alloc),
            listing: Vec::new(alloc),
            orders: Vec::new(alloc),
            keys: Vec::new(alloc),
            tail: None,
            drives: Vec::new(alloc),
            system: None,
            steps: STEPS,
            is_saved: false,
            saving: None,
            out: Recorder::new(alloc),
            record: Vec::new(alloc),
            played: None,
            status: 0,
        })
    }

    fn is_alone(verb: &str) -> bool {
        matches!(
            verb,
            "asm"
                | "asm-listed"
                | "list"
                | "status"
                | "illegal"
                | "at-pc"
                | "ended"
                | "early"
                | "replay"
                | "waits"
                | "live-end"
                | "prompt"
                | "save"
                | "saved"
                | "go-on"
        )
    }

    fn takes_text(verb: &str) -> bool {
        matches!(
            verb,
            "program" | "source" | "listing" | "orders" | "keys" | "type" | "check" | "debug"
        )
    }

    fn act(&mut self, alloc: Global, line: &RowLine<'_>) -> Result<RowAnswer, RowFault> {
        match line.verb() {
            "cpu"
            | "program"
            | "prompt"
            | "save"
            | "source"
            | "listing"
            | "orders"
            | "keys"
            | "tail"
            | "drives"
            | "system"
            | "steps"
            | "room"
            | "chunk" => self.give(alloc, line),
            "shown"
            | "status"
            | "ended"
            | "illegal"
            | "at-pc"
            | "pressed"
            | "waits"
            | "early"
            | "live-end" => self.look(alloc, line),
            "left" => self.left(alloc, line.arguments()),
            "asm" | "asm-listed" | "list" | "check" | "debug" | "saved" => self.write(alloc, line),
            "com" | "type" | "replay" | "go-on" => self.play(alloc, line),
            _ => self.images.act(alloc, line),
        }
    }
}

impl Programs {
    /// Does a line that gives something to the commands.
    fn give(&mut self, alloc: Global, line: &RowLine<'_>) -> Result<RowAnswer, RowFault> {
        let arguments = line.arguments();
        match line.verb() {
            "cpu" => self.cpu = cpu_of(arguments)?,
            "program" => self.program = line.given(alloc, arguments)?,
            "prompt" => self.at_prompt = true,
            "save" => self.is_saved = true,
            "source" => self.source = line.given(alloc, arguments)?,
            "listing" => return self.listing(alloc, line),
            "orders" => self.orders = line.given(alloc, arguments)?,
            "keys" => self.keys = line.given(alloc, arguments)?,
            "tail" => return self.tail(alloc, arguments),
            "drives" => self.drives = self.images.copies(alloc, arguments)?,
            "system" => self.system = Some(self.system_image(alloc, arguments)?),
            "steps" => return self.steps(alloc, arguments),
            "room" => self.out.fails_at = Some(count_of(arguments)?),
            _ => self.out.most = count_of(arguments)?,
        }
        Ok(RowAnswer::Done)
    }

    /// Keeps the status of a refusal, and answers its code and its text.
    pub(crate) fn refuse(
        &mut self,
        alloc: Global,
        error: HostError,
    ) -> Result<RowAnswer, RowFault> {
        let code = error.code();
        self.status = code.status();
        Ok(RowAnswer::Refused(format!(in alloc; "{code} {error}")?))
    }
}
