// Whether two names are of one file.
ghost use Rattle.std.specs.Prelude.{◌≡◌, true, IfOk};
ghost use Rattle.fs_model.specs.Calls.{Stats, refusal, or_else};
ghost use Rattle.fs_model.specs.Trail.{DecidedBy, OthersStay, error_of};
ghost use Rattle.fs_model.specs.Observed.{OnlyReads};
ghost use Rattle.fs_tools.specs.Identities.{ComparesIdentities};

use fs_model::{Fs, FsError, Path};

/// Whether both paths have one identity, so that two names of files are names of one file. No state is changed.
/// Refuses as `stat` does at the first path, then at the second.
pub fn same_inode<F: Fs>(fs: &mut F, a: &Path, b: &Path) -> Result<bool, FsError>
    ensures reads { OnlyReads (record { told = F.told fs.old; firm = F.firm fs.old; depth = F.depth fs.old; trail = F.trail fs.old; counts = F.counts fs.old })
        (record { told = F.told fs.new; firm = F.firm fs.new; depth = F.depth fs.new; trail = F.trail fs.new; counts = F.counts fs.new }) (error_of result) }
    ensures decided { F.told fs.old ≡ true → DecidedBy (or_else (refusal (F.trail fs.old).present (Stats a.now)) (refusal (F.trail fs.old).present (Stats b.now))) result }
    ensures same { F.told fs.old ≡ true → IfOk result (ComparesIdentities (F.trail fs.old).present a.now b.now) }
    ensures others { OthersStay (F.counts fs.old) (F.counts fs.new) (error_of result) }
{
    let first = fs.stat(a)?;
    let second = fs.stat(b)?;
    Ok(first.identity == second.identity)
}
