// Copying a file, a piece at a time.
ghost use Rattle.std.specs.Prelude.{◌≡◌, ◌≢◌, ◌≤◌, ◌<◌, ◌+◌, ◌-◌, ◌^◌, ℕ, List, true, None, Some, length, IfOk};
ghost use Rattle.fs_model.specs.State.{FsState};
ghost use Rattle.fs_model.specs.Calls.{ReadsAt, Creates, refusal, or_else};
ghost use Rattle.fs_model.specs.Reading.{file_bytes};
ghost use Rattle.fs_model.specs.Trail.{Goes, Unchanged, DecidedBy, HasCause, OthersStay, error_of};
ghost use Rattle.fs_model.specs.Observed.{OnlyReads};
ghost use Rattle.fs_tools.specs.Made.{MakesFile};
ghost use Rattle.fs_tools.specs.Copied.{IsPiece, Copying, CopiesFile, Copies};

use fs_model::{Fs, FsError, Path};

// Reads the next piece of a file of this size into the buffer, and says how many bytes it has. The piece behind the last has none.
fn read_piece<F: Fs>(
    fs: &mut F,
    from: &Path,
    done: u64,
    size: u64,
    buffer: &mut [u8],
) -> Result<usize, FsError>
    requires within { done ≤ size }
    requires short { size ≤ 2 ^ 63 - 1 }
    ensures reads { OnlyReads (record { told = F.told fs.old; firm = F.firm fs.old; depth = F.depth fs.old; trail = F.trail fs.old; counts = F.counts fs.old })
        (record { told = F.told fs.new; firm = F.firm fs.new; depth = F.depth fs.new; trail = F.trail fs.new; counts = F.counts fs.new }) (error_of result) }
    ensures decided { F.told fs.old ≡ true → DecidedBy (refusal (F.trail fs.old).present (ReadsAt from.now)) result }
    ensures inside { IfOk result (λ count. count ≤ length buffer.old) }
    ensures within { IfOk result (λ count. done + count ≤ size) }
    ensures piece { F.told fs.old ≡ true → IfOk result (λ count. (bytes : List ℕ) → file_bytes (F.trail fs.old).present from.now ≡ Some bytes → size ≡ length bytes → IsPiece bytes done count buffer.new) }
    ensures others { OthersStay (F.counts fs.old) (F.counts fs.new) (error_of result) }
{
    let room = (size - done).min(buffer.len() as u64) as usize;
    fs.read_at(from, done, &mut buffer[..room])
}

// The size of a file, and how many bytes its first piece has, which stands in the buffer.
fn read_first<F: Fs>(fs: &mut F, from: &Path, buffer: &mut [u8]) -> Result<(u64, usize), FsError>
    ensures reads { OnlyReads (record { told = F.told fs.old; firm = F.firm fs.old; depth = F.depth fs.old; trail = F.trail fs.old; counts = F.counts fs.old })
        (record { told = F.told fs.new; firm = F.firm fs.new; depth = F.depth fs.new; trail = F.trail fs.new; counts = F.counts fs.new }) (error_of result) }
    ensures decided { F.told fs.old ≡ true → DecidedBy (refusal (F.trail fs.old).present (ReadsAt from.now)) result }
    ensures short { IfOk result (λ first. first.0 ≤ 2 ^ 63 - 1) }
    ensures inside { IfOk result (λ first. first.1 ≤ length buffer.old) }
    ensures within { IfOk result (λ first. first.1 ≤ first.0) }
    ensures piece { F.told fs.old ≡ true → IfOk result (λ first. (bytes : List ℕ) × (file_bytes (F.trail fs.old).present from.now ≡ Some bytes) × (first.0 ≡ length bytes) × IsPiece bytes 0 first.1 buffer.new) }
    ensures others { OthersStay (F.counts fs.old) (F.counts fs.new) (error_of result) }
{
    let size = fs.stat(from)?.size;
    let count = read_piece(fs, from, 0, size, buffer)?;
    Ok((size, count))
}

// Writes the piece that stands in the buffer behind what is done, and reads the next one.
fn next_piece<F: Fs>(
    fs: &mut F,
    from: &Path,
    to: &Path,
    done: u64,
    size: u64,
    count: usize,
    buffer: &mut [u8],
) -> Result<usize, FsError>
    requires within { done + count ≤ size }
    requires short { size ≤ 2 ^ 63 - 1 }
    requires inside { count ≤ length buffer.old }
    requires some { 0 < count }
    ensures told { F.told fs.new ≡ F.told fs.old }
    ensures firm { F.firm fs.new ≡ F.firm fs.old }
    ensures inside { IfOk result (λ next. next ≤ length buffer.old) }
    ensures within { IfOk result (λ next. done + count + next ≤ size) }
    ensures calls { F.told fs.old ≡ true → (start : FsState) → (bytes : List ℕ) → Copying start from.now to.now bytes done count buffer.old (F.trail fs.old).present → Goes (Copies from.now to.now start) (F.trail fs.old) (F.trail fs.new) }
    ensures free { F.told fs.old ≡ true → (start : FsState) → (bytes : List ℕ) → Copying start from.now to.now bytes done count buffer.old (F.trail fs.old).present → DecidedBy None result }
    ensures copied { F.told fs.old ≡ true → (start : FsState) → (bytes : List ℕ) → Copying start from.now to.now bytes done count buffer.old (F.trail fs.old).present → size ≡ length bytes
        → IfOk result (λ next. Copying start from.now to.now bytes (done + count) next buffer.new (F.trail fs.new).present) }
    ensures cause { HasCause (F.firm fs.old) (F.counts fs.old) (F.counts fs.new) (error_of result) }
    ensures others { OthersStay (F.counts fs.old) (F.counts fs.new) (error_of result) }
{
    fs.write_at(to, done, &buffer[..count])?;
    read_piece(fs, from, done + count as u64, size, buffer)
}

// Writes all pieces of a file of this size, of which the first stands in the buffer, and says how many bytes they have.
fn write_pieces<F: Fs>(
    fs: &mut F,
    from: &Path,
    to: &Path,
    size: u64,
    first: usize,
    buffer: &mut [u8],
) -> Result<u64, FsError>
    requires room { 0 < length buffer.old }
    requires within { first ≤ size }
    requires short { size ≤ 2 ^ 63 - 1 }
    requires inside { first ≤ length buffer.old }
    ensures told { F.told fs.new ≡ F.told fs.old }
    ensures firm { F.firm fs.new ≡ F.firm fs.old }
    ensures calls { F.told fs.old ≡ true → (start : FsState) → (bytes : List ℕ) → Copying start from.now to.now bytes 0 first buffer.old (F.trail fs.old).present → size ≡ length bytes → Goes (Copies from.now to.now start) (F.trail fs.old) (F.trail fs.new) }
    ensures free { F.told fs.old ≡ true → (start : FsState) → (bytes : List ℕ) → Copying start from.now to.now bytes 0 first buffer.old (F.trail fs.old).present → size ≡ length bytes → DecidedBy None result }
    ensures copied { F.told fs.old ≡ true → (start : FsState) → (bytes : List ℕ) → Copying start from.now to.now bytes 0 first buffer.old (F.trail fs.old).present → size ≡ length bytes
        → IfOk result (λ number. (number ≡ length bytes) × MakesFile start to.now bytes (F.trail fs.new).present) }
    ensures cause { HasCause (F.firm fs.old) (F.counts fs.old) (F.counts fs.new) (error_of result) }
    ensures others { OthersStay (F.counts fs.old) (F.counts fs.new) (error_of result) }
{
    let mut done = 0;
    let mut count = first;
    while count > 0 {
        let next = next_piece(fs, from, to, done, size, count, buffer)?;
        done += count as u64;
        count = next;
    }
    Ok(done)
}

/// Makes a file with the bytes of another, in a new inode, and gives their number. It works in the buffer and takes no
/// memory, and reads at most the size that `stat` gives. After an error the new file may stand, with any bytes.
/// Refuses as `read_at` does at the first path, then as `create` does at the second, and then nothing was changed.
pub fn copy_file<F: Fs>(
    fs: &mut F,
    from: &Path,
    to: &Path,
    buffer: &mut [u8],
) -> Result<u64, FsError>
    requires { 0 < length buffer.old }
    ensures told { F.told fs.new ≡ F.told fs.old }
    ensures firm { F.firm fs.new ≡ F.firm fs.old }
    ensures calls { F.told fs.old ≡ true → Goes (Copies from.now to.now (F.trail fs.old).present) (F.trail fs.old) (F.trail fs.new) }
    ensures decided { F.told fs.old ≡ true → DecidedBy (or_else (refusal (F.trail fs.old).present (ReadsAt from.now)) (refusal (F.trail fs.old).present (Creates to.now))) result }
    ensures refused { F.told fs.old ≡ true → or_else (refusal (F.trail fs.old).present (ReadsAt from.now)) (refusal (F.trail fs.old).present (Creates to.now)) ≢ None → Unchanged (F.trail fs.old) (F.trail fs.new) }
    ensures copied { F.told fs.old ≡ true → IfOk result (λ number. CopiesFile (F.trail fs.old).present from.now to.now number (F.trail fs.new).present) }
    ensures cause { HasCause (F.firm fs.old) (F.counts fs.old) (F.counts fs.new) (error_of result) }
    ensures others { OthersStay (F.counts fs.old) (F.counts fs.new) (error_of result) }
{
    let (size, first) = read_first(fs, from, buffer)?;
    fs.create(to)?;
    write_pieces(fs, from, to, size, first, buffer)
}
