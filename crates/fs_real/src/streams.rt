// Places in an open file, and reads of many bytes by as many calls of the operating system as it takes.
ghost use Rattle.std.specs.Prelude.{◌≡◌, ◌≤◌, ◌<◌, length, take, IfOk};
ghost use Rattle.std.specs.Io.KnownBytes.{Consumes, IsAtEnd};
ghost use Rattle.std.specs.Io.Seek.{MovesTo};

use crate::error::named;
use fs_model::FsError;
use std::io::{ErrorKind, Read, Seek, SeekFrom};

// Goes to a place, in bytes from the start.
pub(crate) fn go_to<F: Seek>(file: &mut F, place: u64) -> Result<(), FsError>
    ensures { MovesTo (F.stream_position file.old) (F.stream_position file.new) place result }
{
    file.seek(SeekFrom::Start(place)).map_err(named)?;
    Ok(())
}

// Reads until the slice is full or a read takes no byte, which is the end of the file, and says how many it read.
// A read that a signal interrupted is made again.
pub(crate) fn read_up_to<F: Read>(file: &mut F, into: &mut [u8]) -> Result<usize, FsError>
    ensures count { IfOk result (λ count. count ≤ length into.old) }
    ensures bytes { IfOk result (λ count. Consumes (F.remaining file.old) (F.remaining file.new) (take count into.new)) }
    ensures end { IfOk result (λ count. count < length into.old → IsAtEnd (F.remaining file.new)) }
{
    let mut filled = 0;
    for _ in 0..u64::MAX {
        if filled >= into.len() {
            return Ok(filled);
        }
        match file.read(&mut into[filled..]) {
            Ok(0) => return Ok(filled),
            Ok(count) => filled += count,
            Err(error) => {
                if error.kind() != ErrorKind::Interrupted {
                    return Err(named(error));
                }
            }
        }
    }
    Err(FsError::Failed)
}
