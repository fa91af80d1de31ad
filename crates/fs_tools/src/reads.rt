// Reading a whole file.
ghost use Rattle.std.specs.Prelude.{◌≡◌, ◌≤◌, ◌⊎◌, ◌+◌, ◌-◌, ◌^◌, true, length, Some, IfOk};
ghost use Rattle.fs_model.specs.Calls.{ReadsAt, refusal};
ghost use Rattle.fs_model.specs.Reading.{file_bytes};
ghost use Rattle.fs_model.specs.Trail.{DecidedBy, OthersStay, error_of, unless_lack};
ghost use Rattle.fs_model.specs.Observed.{OnlyReads};
ghost use Rattle.fs_tools.specs.Filled.{Filled, AllFilled};

use fs_model::{Fs, FsError, Path};
use std::alloc::Global;

// One read into the slice, behind what is filled.
fn read_more<F: Fs>(fs: &mut F, at: &Path, into: &mut [u8], filled: usize) -> Result<usize, FsError>
    requires within { filled ≤ length into.old }
    requires short { length into.old ≤ 2 ^ 63 - 1 }
    ensures reads { OnlyReads (record { told = F.told fs.old; firm = F.firm fs.old; depth = F.depth fs.old; trail = F.trail fs.old; counts = F.counts fs.old })
        (record { told = F.told fs.new; firm = F.firm fs.new; depth = F.depth fs.new; trail = F.trail fs.new; counts = F.counts fs.new }) (error_of result) }
    ensures decided { F.told fs.old ≡ true → DecidedBy (refusal (F.trail fs.old).present (ReadsAt at.now)) result }
    ensures count { IfOk result (λ count. filled + count ≤ length into.old) }
    ensures filled { F.told fs.old ≡ true → Filled (F.trail fs.old).present at.now filled into.old → IfOk result (λ count. Filled (F.trail fs.old).present at.now (filled + count) into.new) }
    ensures end { F.told fs.old ≡ true → IfOk result (λ count. count ≡ 0 → (filled ≡ length into.old) ⊎ AllFilled (F.trail fs.old).present at.now filled) }
    ensures others { OthersStay (F.counts fs.old) (F.counts fs.new) (error_of result) }
{
    fs.read_at(at, filled as u64, &mut into[filled..])
}

// Fills the slice with the file's first bytes, until it is full or the file ends, and says how many there are.
fn fill<F: Fs>(fs: &mut F, at: &Path, into: &mut [u8]) -> Result<usize, FsError>
    requires { length into.old ≤ 2 ^ 63 - 1 }
    ensures reads { OnlyReads (record { told = F.told fs.old; firm = F.firm fs.old; depth = F.depth fs.old; trail = F.trail fs.old; counts = F.counts fs.old })
        (record { told = F.told fs.new; firm = F.firm fs.new; depth = F.depth fs.new; trail = F.trail fs.new; counts = F.counts fs.new }) (error_of result) }
    ensures decided { F.told fs.old ≡ true → DecidedBy (refusal (F.trail fs.old).present (ReadsAt at.now)) result }
    ensures count { IfOk result (λ count. count ≤ length into.old) }
    ensures filled { F.told fs.old ≡ true → IfOk result (λ count. Filled (F.trail fs.old).present at.now count into.new) }
    ensures end { F.told fs.old ≡ true → IfOk result (λ count. (count ≡ length into.old) ⊎ AllFilled (F.trail fs.old).present at.now count) }
    ensures others { OthersStay (F.counts fs.old) (F.counts fs.new) (error_of result) }
{
    let mut filled = 0;
    loop {
        let count = read_more(fs, at, into, filled)?;
        filled += count;
        if count == 0 || filled == into.len() {
            return Ok(filled);
        }
    }
}

/// The file's bytes. It reads at most the size that `stat` gives, and a read of no byte ends it. No state is changed.
/// Refuses as `read_at` does.
pub fn read_all<F: Fs>(alloc: Global, fs: &mut F, at: &Path) -> Result<Vec<u8>, FsError>
    ensures reads { OnlyReads (record { told = F.told fs.old; firm = F.firm fs.old; depth = F.depth fs.old; trail = F.trail fs.old; counts = F.counts fs.old })
        (record { told = F.told fs.new; firm = F.firm fs.new; depth = F.depth fs.new; trail = F.trail fs.new; counts = F.counts fs.new }) (unless_lack (error_of result)) }
    ensures decided { F.told fs.old ≡ true → DecidedBy (refusal (F.trail fs.old).present (ReadsAt at.now)) result }
    ensures bytes { F.told fs.old ≡ true → IfOk result (λ bytes. file_bytes (F.trail fs.old).present at.now ≡ Some bytes.items) }
    ensures others { OthersStay (F.counts fs.old) (F.counts fs.new) (error_of result) }
{
    let size = fs.stat(at)?.size as usize;
    let mut bytes = vec![in alloc; 0u8; size]?;
    let count = fill(fs, at, &mut bytes)?;
    bytes.truncate(count);
    Ok(bytes)
}
