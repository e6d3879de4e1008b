//! An input that is read as a whole.
ghost use Rattle.std.specs.Prelude.{◌≡◌, ◌<◌, false, length, IfOk};
ghost use Rattle.std.specs.Io.KnownBytes.{Consumes, IsAtEnd};

use crate::failure::Failure;
use script_io::ByteIn;
use std::alloc::Global;

/// How many bytes are read at once, at most.
const PIECE: usize = 4096;

/// The bytes of an input to its end; of one that has `most` bytes or more, at least so many from its beginning.
pub fn read_whole<R: ByteIn>(alloc: Global, reader: &mut R, most: usize) -> Result<Vec<u8>, Failure>
    requires { R.has_failed reader.old ≡ false }
    ensures consumed { IfOk result (λ bytes. Consumes (R.to_come reader.old) (R.to_come reader.new) bytes.items) }
    ensures end { IfOk result (λ bytes. length bytes.items < most → IsAtEnd (R.to_come reader.new)) }
{
    let mut bytes = Vec::new(alloc);
    let mut piece = [0u8; PIECE];
    while bytes.len() < most {
        let Ok(count) = reader.read(&mut piece) else {
            return Err(Failure::Read);
        };
        if count == 0 {
            return Ok(bytes);
        }
        bytes.extend_from_slice(&piece[..count])?;
    }
    Ok(bytes)
}
