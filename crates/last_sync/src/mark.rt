// The mark.
ghost use Rattle.std.specs.Prelude.{◌≡◌, true, None, OnOk};
ghost use Rattle.fs_model.specs.Names.{parent};
ghost use Rattle.fs_model.specs.Calls.{Creates, refusal};
ghost use Rattle.fs_model.specs.Crash.{Settled};
ghost use Rattle.fs_model.specs.WellFormed.{WellFormed};
ghost use Rattle.fs_model.specs.Trail.{Goes, DecidedBy, HasCause, OthersStay, error_of};
ghost use Rattle.crash_safety.specs.Marked.{Marks};
ghost use Rattle.last_sync.specs.Finished.{IsFileAt};

use fs_model::{Fs, FsError, Path};

// Makes the mark, and puts it and its directory on the disk.
pub(crate) fn put_mark<F: Fs>(fs: &mut F, mark: &Path, dir: &Path) -> Result<(), FsError>
    requires { dir.now ≡ parent mark.now }
    ensures told { F.told fs.new ≡ F.told fs.old }
    ensures firm { F.firm fs.new ≡ F.firm fs.old }
    ensures well_formed { F.told fs.old ≡ true → WellFormed (F.trail fs.old).present }
    ensures calls { F.told fs.old ≡ true → Goes (Marks mark.now) (F.trail fs.old) (F.trail fs.new) }
    ensures settled { F.told fs.old ≡ true → Settled (F.trail fs.old).present → OnOk result (Settled (F.trail fs.new).present) }
    ensures stands { F.told fs.old ≡ true → OnOk result (IsFileAt (F.trail fs.new).present mark.now) }
    ensures unrefused { F.told fs.old ≡ true → refusal (F.trail fs.old).present (Creates mark.now) ≡ None → DecidedBy None result }
    ensures cause { HasCause (F.firm fs.old) (F.counts fs.old) (F.counts fs.new) (error_of result) }
    ensures others { OthersStay (F.counts fs.old) (F.counts fs.new) (error_of result) }
{
    // A file system that tells its states is in a well-formed one; this asks for that.
    let _ = fs.moment();
    fs.create(mark)?;
    fs.sync_file(mark)?;
    fs.sync_dir(dir)
}
