// Making a file.
ghost use Rattle.std.specs.Prelude.{◌≡◌, ◌≢◌, ◌≤◌, ◌-◌, ◌^◌, true, None, length, OnOk};
ghost use Rattle.fs_model.specs.Calls.{Creates, refusal};
ghost use Rattle.fs_model.specs.Trail.{Goes, Unchanged, DecidedBy, HasCause, OthersStay, error_of};
ghost use Rattle.fs_tools.specs.Made.{Makes, MakesFile};

use fs_model::{Fs, FsError, Path};

/// Makes a file with these bytes, in a new inode. After an error it may stand, with any bytes.
/// Refuses as `create` does, and then nothing was changed.
pub fn make_file<F: Fs>(fs: &mut F, at: &Path, bytes: &[u8]) -> Result<(), FsError>
    ensures told { F.told fs.new ≡ F.told fs.old }
    ensures firm { F.firm fs.new ≡ F.firm fs.old }
    ensures calls { F.told fs.old ≡ true → Goes (Makes at.now (F.trail fs.old).present) (F.trail fs.old) (F.trail fs.new) }
    ensures decided { F.told fs.old ≡ true → DecidedBy (refusal (F.trail fs.old).present (Creates at.now)) result }
    ensures refused { F.told fs.old ≡ true → refusal (F.trail fs.old).present (Creates at.now) ≢ None → Unchanged (F.trail fs.old) (F.trail fs.new) }
    ensures made { F.told fs.old ≡ true → OnOk result (MakesFile (F.trail fs.old).present at.now bytes.now (F.trail fs.new).present) }
    ensures cause { HasCause (F.firm fs.old) (F.counts fs.old) (F.counts fs.new) (error_of result) }
    ensures others { OthersStay (F.counts fs.old) (F.counts fs.new) (error_of result) }
{
    fs.create(at)?;
    fs.write_at(at, 0, bytes)
}
