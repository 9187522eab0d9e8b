//! A host that is served lines.
ghost use Rattle.std.specs.Prelude.{◌≡◌, IfErr, IfOk, None, Ok, string_bytes};
ghost use Rattle.serde_json.specs.View.{view};
ghost use Rattle.serde_json.specs.Written.{compact_text};
ghost use Rattle.cpm_protocol.specs.Replies.{reply_json};
ghost use Rattle.cpm_serve.specs.Lines.{CutEventsLead, IsLineCut, IsLineServed, KeptEventsLead};
ghost use Rattle.cpm_serve.specs.Parts.{IsTextServed, IsValueCut, IsValueServed, unread_answer};

use crate::folder::{Folder, ServeError};
use crate::many::{made, serve_value, serve_values, tag_shown};
use cpm_protocol::{LineError, LineRequest, WireLine, WireRefusal, WireReply, many_value};
use cpm_slots::Host;
use serde_json::Value;
use std::alloc::{AllocError, Global};

/// The most bytes of a line, without the one that ends it: 1 MiB.
pub const MOST_LINE: usize = 1_048_576;

/// A host behind its wire.
#[derive(Drop)]
pub struct Server {
    pub host: Host,
}

/// Does what a line asks, and gives the value of its reply.
fn serve_line<F: Folder>(
    host: &mut Host,
    alloc: Global,
    folder: &mut F,
    line: &WireLine,
) -> Result<Value, ServeError>
    ensures served { IfOk result (λ reply. IsValueServed (KeptEventsLead F.does host.old.host folder.old folder.new) (view line.now.value)
        host.old.host host.new.host (view reply)) }
    ensures cut { IfErr result (λ e. IsValueCut (CutEventsLead e F.does host.old.host folder.old folder.new) (view line.now.value)
        host.old.host host.new.host) }
{
    let tag = tag_shown(&line.value);
    match line.request() {
        Ok(LineRequest::One(_)) => serve_value(host, alloc, folder, &line.value),
        Ok(LineRequest::Many(values)) => {
            let replies = serve_values(host, alloc, folder, values)?;
            made(many_value(alloc, tag, replies))
        }
        Err(fault) => made(WireReply::Wrong(fault).value(alloc, tag)),
    }
}

/// A text that was made, or the end of the line for want of memory.
fn text_made(outcome: Result<String, AllocError>) -> Result<String, ServeError>
    ensures made { IfOk result (λ text. outcome ≡ Ok text) }
    ensures lacked { IfErr result (λ e. e ≡ ServeError.OutOfMemory) }
{
    match outcome {
        Ok(text) => Ok(text),
        Err(AllocError) => Err(ServeError::OutOfMemory),
    }
}

/// The same, and gives the text of its reply.
fn serve_text<F: Folder>(
    host: &mut Host,
    alloc: Global,
    folder: &mut F,
    line: &WireLine,
) -> Result<String, ServeError>
    ensures served { IfOk result (λ text. IsTextServed (KeptEventsLead F.does host.old.host folder.old folder.new) (view line.now.value)
        host.old.host host.new.host (string_bytes text)) }
    ensures cut { IfErr result (λ e. IsValueCut (CutEventsLead e F.does host.old.host folder.old folder.new) (view line.now.value)
        host.old.host host.new.host) }
{
    let reply = serve_line(host, alloc, folder, line)?;
    text_made(reply.to_string(alloc))
}

/// The text of the reply to a line of which no value was read.
fn unread_text(alloc: Global, error: LineError) -> Result<String, AllocError>
    ensures { IfOk result (λ text. string_bytes text ≡ compact_text (reply_json None (unread_answer error))) }
{
    match error {
        LineError::NoJson { at } => WireReply::NoJson { at: at as u64 }.text(alloc, None),
        LineError::OutOfMemory => WireReply::Refused(WireRefusal::OutOfMemory).text(alloc, None),
    }
}

impl Server {
    /// Does what a line asks of the host and of a folder of files, and gives the text of its reply. A line that is no request changes nothing, and asks the
    /// folder nothing. There may be no memory for the reply, or no way to keep a change: then the first requests of the line are done, perhaps all.
    pub fn serve<F: Folder>(
        &mut self,
        alloc: Global,
        folder: &mut F,
        line: &[u8],
    ) -> Result<String, ServeError>
        ensures served { IfOk result (λ text. IsLineServed (KeptEventsLead F.does self.old.host.host folder.old folder.new) line.now
            self.old.host.host self.new.host.host (string_bytes text)) }
        ensures cut { IfErr result (λ e. IsLineCut (CutEventsLead e F.does self.old.host.host folder.old folder.new) line.now
            self.old.host.host self.new.host.host) }
    {
        if line.len() > MOST_LINE {
            return text_made(WireReply::TooLong.text(alloc, None));
        }
        match WireLine::read(alloc, line) {
            Ok(line) => serve_text(&mut self.host, alloc, folder, &line),
            Err(error) => text_made(unread_text(alloc, error)),
        }
    }
}
