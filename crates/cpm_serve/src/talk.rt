//! Lines that are read, and replies that are written.
ghost use Rattle.std.specs.Prelude.{◌≡◌, ◌<◌, ◌≤◌, ◌++◌, ◌∷◌, [], IfErr, IfNone, IfOk, IfSome, OnErr, OnOk, length, take};
ghost use Rattle.std.specs.Io.BufRead.{strip_last, take_through};
ghost use Rattle.std.specs.Io.KnownBytes.{Appends};
ghost use Rattle.cpm_serve.specs.Talk.{HasTalked, HasTalkedPartly, IsLineRead, IsReadOn, has_newline, talk_error};
ghost use Rattle.cpm_serve.specs.Written.{AppendsFirst};

use crate::append::{write_bytes, write_flushed};
use crate::folder::{Folder, ServeError};
use crate::server::{MOST_LINE, Server};
use std::alloc::Global;
use std::io;
use std::io::{BufRead, ErrorKind, Write};
use thiserror::Error;

/// How many bytes are kept of a line, with the newline that ends it: two more than one may have, so that what is cut is too long.
const MOST_KEPT: usize = MOST_LINE + 2;

/// Why lines are no longer served.
#[derive(Clone, Copy, Debug, Drop, Error)]
pub enum TalkError {
    /// The next line can't be read.
    #[error("can't read requests: {0}")]
    Unreadable(io::Error),
    /// A reply can't be written.
    #[error("can't write replies: {0}")]
    Unwritable(io::Error),
    /// There is no memory for a reply.
    #[error("out of memory")]
    OutOfMemory,
    /// What a line changed can't be kept.
    #[error("the journal can't be written")]
    Unkept,
}

/// A line without the newline that ends it.
fn without_newline(line: &[u8]) -> &[u8]
    ensures { result.now ≡ strip_last 0x0A line.now }
{
    match line.split_last() {
        Some((b'\n', front)) => front,
        _ => line,
    }
}

/// The length up to and including the first newline, or the whole length; and whether there is one.
fn length_through(bytes: &[u8]) -> (usize, bool)
    ensures within { result.0 ≤ length bytes.now }
    ensures through { take result.0 bytes.now ≡ take_through 0x0A bytes.now }
    ensures found { result.1 ≡ has_newline bytes.now }
{
    for (index, byte) in bytes.iter().enumerate() {
        if *byte == b'\n' {
            return (index + 1, true);
        }
    }
    (bytes.len(), false)
}

/// Reads on in a line, of which no more than the most is kept. Says whether it ended: at its newline, or at the end of the input.
fn read_on<R: BufRead>(input: &mut R, line: &mut Vec<u8>) -> io::Result<bool>
    ensures { IfOk result (IsReadOn (R.remaining input.old) (R.remaining input.new) line.old.items line.new.items) }
{
    let available = match input.fill_buf() {
        Ok(available) => available,
        Err(error) => {
            return if error.kind() == ErrorKind::Interrupted {
                Ok(false)
            } else {
                Err(error)
            };
        }
    };
    let (end, found) = length_through(available);
    let room = MOST_KEPT.saturating_sub(line.len());
    line.extend_from_slice(&available[..end.min(room)])?;
    input.consume(end);
    Ok(end == 0 || found)
}

/// The next line, with the newline that ends it. Of one that is too long only the first bytes are kept.
fn next_line<R: BufRead>(alloc: Global, input: &mut R) -> io::Result<Option<Vec<u8>>>
    ensures { IfOk result (IsLineRead (R.remaining input.old) (R.remaining input.new)) }
{
    let mut line = Vec::new(alloc);
    for _turn in 0..u64::MAX {
        if read_on(input, &mut line)? {
            return Ok(some_line(line));
        }
    }
    Err(io::Error::from(ErrorKind::Other))
}

/// A line, if it has a byte.
fn some_line(line: Vec<u8>) -> Option<Vec<u8>>
    ensures none { IfNone result (line.items ≡ []) }
    ensures some { IfSome result (λ l. (l ≡ line) × (0 < length line.items)) }
{
    if line.is_empty() { None } else { Some(line) }
}

/// Writes a reply and the newline that ends it, and flushes them. Where that fails it has written a beginning of them, which may be nothing or all.
fn write_reply<W: Write>(out: &mut W, reply: &str) -> io::Result<()>
    ensures whole { OnOk result (Appends (W.contents out.old) (W.contents out.new) (reply.now ++ 0x0A ∷ [])) }
    ensures begun { OnErr result (AppendsFirst (W.contents out.old) (W.contents out.new) (reply.now ++ 0x0A ∷ [])) }
{
    write_bytes(out, reply.as_bytes())?;
    write_flushed(out, b"\n")
}

/// What becomes of a talk where a line is not served to its end.
fn unserved(error: ServeError) -> TalkError
    ensures { result ≡ talk_error error }
{
    match error {
        ServeError::OutOfMemory => TalkError::OutOfMemory,
        ServeError::Unkept => TalkError::Unkept,
    }
}

/// Serves the lines that it reads, each before it reads the next, keeps what they change, and writes their replies, a line each, up to the end of the
/// input. A line that is no request changes nothing. Of one that is too long no more is kept than tells that, and the rest is passed over.
pub fn serve_lines<F: Folder, R: BufRead, W: Write>(
    server: &mut Server,
    alloc: Global,
    folder: &mut F,
    input: &mut R,
    out: &mut W,
) -> Result<(), TalkError>
    ensures talked { OnOk result (HasTalked F.does (R.remaining input.old) server.old.host.host server.new.host.host folder.old folder.new
        (W.contents out.old) (W.contents out.new)) }
    ensures partly { IfErr result (λ e. HasTalkedPartly F.does e (R.remaining input.old) server.old.host.host server.new.host.host folder.old folder.new
        (W.contents out.old) (W.contents out.new)) }
{
    for _line in 0..u64::MAX {
        let line = match next_line(alloc, input) {
            Ok(Some(line)) => line,
            Ok(None) => return Ok(()),
            Err(error) => return Err(TalkError::Unreadable(error)),
        };
        let reply = match server.serve(alloc, folder, without_newline(&line)) {
            Ok(reply) => reply,
            Err(error) => return Err(unserved(error)),
        };
        if let Err(error) = write_reply(out, reply.as_str()) {
            return Err(TalkError::Unwritable(error));
        }
    }
    Ok(())
}
