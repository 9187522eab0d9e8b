//! Reading a file whole.
ghost use Rattle.std.specs.Prelude.{◌≡◌, ◌≤◌, IfOk, IfSome, vec_len};

use std::alloc::Global;
use std::io;
use std::io::{ErrorKind, Read};

/// The most bytes that a file may have.
pub const MOST_FILE: u64 = 16_777_216;

/// All that a reader has left, of which it reads at most one byte more than a file may have.
///
/// It fails where a read fails, where there are more than 16,777,216 bytes (`FileTooLarge`), and
/// where memory is refused (`OutOfMemory`).
pub fn read_whole<R: Read>(alloc: Global, reader: &mut R) -> io::Result<Vec<u8>>
    ensures bytes { IfOk result (λ v. IfSome (R.remaining reader.old) (λ xs. v.items ≡ xs)) }
    ensures small { IfOk result (λ v. vec_len v ≤ MOST_FILE) }
{
    let mut bytes = Vec::new(alloc);
    let count = reader.take(MOST_FILE + 1).read_to_end(&mut bytes)?;
    if count as u64 > MOST_FILE {
        return Err(io::Error::new(ErrorKind::FileTooLarge, "it has more than 16777216 bytes"));
    }
    Ok(bytes)
}
