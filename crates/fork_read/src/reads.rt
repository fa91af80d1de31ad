// One piece, and one size.
ghost use Rattle.std.specs.Prelude.{◌≡◌, ◌*◌, ◌≤◌, ◌<◌, true, None, length, take, IfOk, option_map};
ghost use Rattle.fs_model.specs.Calls.{ReadsAt, refusal};
ghost use Rattle.fs_model.specs.Reading.{file_bytes};
ghost use Rattle.fs_model.specs.WellFormed.{WellFormed};
ghost use Rattle.fs_model.specs.Trail.{DecidedBy, error_of};
ghost use Rattle.fs_model.specs.Observed.{Observed, OnlyReads};
ghost use Rattle.cluster_meaning.specs.Blocks.{blocks_in};
ghost use Rattle.fork_read.specs.Extents.{file_blocks, piece_blocks, found_as, size_of, sized};

use fs_model::{Fs, FsError, Kind, Path, Stat};
use heap_page::PAGE_SIZE;

// What a call found: nothing where it was refused.
fn found_as<T>(answer: Result<T, FsError>) -> Result<Option<T>, FsError>
    ensures { result ≡ found_as answer }
{
    match answer {
        Ok(value) => Ok(Some(value)),
        Err(FsError::OutOfMemory) => Err(FsError::OutOfMemory),
        Err(FsError::Failed) => Err(FsError::Failed),
        Err(_) => Ok(None),
    }
}

// The size of a file. What is no file has none.
fn size_of(stat: Option<Stat>) -> Option<u64>
    ensures { result ≡ size_of stat }
{
    match stat {
        Some(stat) if stat.kind == Kind::File => Some(stat.size),
        _ => None,
    }
}

// The size of what was found.
fn sized(found: Result<Option<Stat>, FsError>) -> Result<Option<u64>, FsError>
    ensures { result ≡ sized found }
{
    match found {
        Ok(stat) => Ok(size_of(stat)),
        Err(error) => Err(error),
    }
}

/// How many blocks a piece has at most: together 1 MiB.
pub const PIECE_BLOCKS: u32 = 128;

/// Reads a piece of a segment file into a buffer of `PIECE_BLOCKS` blocks, from the file's block `n` on, and gives how many
/// bytes were read. The whole blocks among them are those of the file from `n` on, as many as a piece has at most. Refuses as
/// `read_at` does, and never where the file has block `n`.
pub fn read_piece<F: Fs>(fs: &mut F, at: &Path, n: u32, into: &mut [u8]) -> Result<usize, FsError>
    requires { length into.old ≡ PIECE_BLOCKS * PAGE_SIZE }
    ensures reads { OnlyReads (record { told = F.told fs.old; firm = F.firm fs.old; depth = F.depth fs.old; trail = F.trail fs.old; counts = F.counts fs.old })
        (record { told = F.told fs.new; firm = F.firm fs.new; depth = F.depth fs.new; trail = F.trail fs.new; counts = F.counts fs.new }) (error_of result) }
    ensures decided { F.told fs.old ≡ true → DecidedBy (refusal (F.trail fs.old).present (ReadsAt at.now)) result }
    ensures unrefused { F.told fs.old ≡ true → WellFormed (F.trail fs.old).present → n < length (file_blocks (F.trail fs.old).present at.now) → DecidedBy None result }
    ensures count { IfOk result (λ count. count ≤ length into.new) }
    ensures blocks { F.told fs.old ≡ true → IfOk result (λ count. blocks_in (take count into.new) ≡ piece_blocks (F.trail fs.old).present at.now n) }
{
    fs.read_at(at, n as u64 * PAGE_SIZE as u64, &mut *into)
}

/// The size of the file at a path, in bytes. What is no file counts as missing, so no refusal is answered.
pub fn file_size<F: Fs>(fs: &mut F, at: &Path) -> Result<Option<u64>, FsError>
    ensures reads { OnlyReads (record { told = F.told fs.old; firm = F.firm fs.old; depth = F.depth fs.old; trail = F.trail fs.old; counts = F.counts fs.old })
        (record { told = F.told fs.new; firm = F.firm fs.new; depth = F.depth fs.new; trail = F.trail fs.new; counts = F.counts fs.new }) (error_of result) }
    ensures unrefused { DecidedBy None result }
    ensures size { F.told fs.old ≡ true → WellFormed (F.trail fs.old).present
        → IfOk result (λ size. size ≡ option_map length (file_bytes (F.trail fs.old).present at.now)) }
{
    let answer = fs.stat(at);
    let found = found_as(answer);
    sized(found)
}
