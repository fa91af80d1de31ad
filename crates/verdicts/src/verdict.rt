// The verdict on two clusters.
ghost use Rattle.std.specs.Prelude.{◌≡◌, ◌++◌, ◌∷◌, [], true, is_some, IfOk};
ghost use Rattle.std.specs.FinMap.{get};
ghost use Rattle.fs_model.specs.Trail.{error_of, unless_lack};
ghost use Rattle.fs_model.specs.WellFormed.{WellFormed};
ghost use Rattle.fs_model.specs.Observed.{OnlyReads};
ghost use Rattle.tree_checks.specs.Looks.{IsNoRefusal};
ghost use Rattle.crash_safety.specs.Places.{control_at};
ghost use Rattle.shared_inodes.specs.SharedInodes.{IsSharedNumber};
ghost use Rattle.verdicts.specs.Verdicts.{StandsNot, IsVerdict, done_at, whole_verdict, disabled_verdict};

use fs_model::{Fs, FsError, Path};
use shared_inodes::shared_files;
use std::alloc::Global;
use tree_checks::{has_disabled_control, kind_at};

/// What is left of two clusters after an upgrade or a part of one, and so which of them can be used.
#[derive(Clone, Copy, Debug, PartialEq, Eq)]
pub enum Verdict {
    /// The mark `pg_profile/done` stands in the new cluster.
    Finished,
    /// The old cluster's control file stands, and the clusters share no file: the old cluster is as it was.
    Untouched,
    /// The old cluster's control file has its name of a disabled cluster, `pg_control.old`, and no file is shared: once it
    /// has its name again the old cluster can be used.
    Disabled,
    /// The same, with so many paths of the new cluster that share their file with the old one: the new cluster must not have
    /// been started.
    Linked(u64),
    /// The old cluster's control file stands beside so many paths of the new cluster that share their file with it.
    Unsafe(u64),
    /// The old cluster has no control file under either name.
    NoControl,
}

// Whether anything stands at a name in a directory below a root.
fn stands<F: Fs>(fs: &mut F, root: &Path, dir: &str, name: &str) -> Result<bool, FsError>
    ensures reads { OnlyReads (record { told = F.told fs.old; firm = F.firm fs.old; depth = F.depth fs.old; trail = F.trail fs.old; counts = F.counts fs.old })
        (record { told = F.told fs.new; firm = F.firm fs.new; depth = F.depth fs.new; trail = F.trail fs.new; counts = F.counts fs.new }) (unless_lack (error_of result)) }
    ensures never_refused { IsNoRefusal result }
    ensures shows { F.told fs.old ≡ true → WellFormed (F.trail fs.old).present → IfOk result (λ found. found ≡ is_some (get (F.trail fs.old).present.names (root.now ++ dir.now ∷ name.now ∷ []))) }
{
    let Ok(at) = root.join(&[dir, name]) else {
        return Err(FsError::OutOfMemory);
    };
    match kind_at(fs, &at) {
        Ok(kind) => Ok(kind.is_some()),
        Err(error) => Err(error),
    }
}

// The number of the new cluster's paths that share their file with the old one.
fn shared_count<F: Fs>(alloc: Global, fs: &mut F, old: &Path, new: &Path) -> Result<u64, FsError>
    ensures reads { OnlyReads (record { told = F.told fs.old; firm = F.firm fs.old; depth = F.depth fs.old; trail = F.trail fs.old; counts = F.counts fs.old })
        (record { told = F.told fs.new; firm = F.firm fs.new; depth = F.depth fs.new; trail = F.trail fs.new; counts = F.counts fs.new }) (unless_lack (error_of result)) }
    ensures never_refused { F.told fs.old ≡ true → IsNoRefusal result }
    ensures counts { F.told fs.old ≡ true → IfOk result (IsSharedNumber (F.trail fs.old).present old.now new.now) }
{
    match shared_files(alloc, fs, old, new) {
        Ok(shared) => Ok(shared.count),
        Err(error) => Err(error),
    }
}

// The verdict where the old cluster's control file stands.
fn whole(count: u64) -> Verdict
    ensures { result ≡ whole_verdict count }
{
    if count == 0 {
        Verdict::Untouched
    } else {
        Verdict::Unsafe(count)
    }
}

// The verdict where it has its name of a disabled cluster.
fn disabled(count: u64) -> Verdict
    ensures { result ≡ disabled_verdict count }
{
    if count == 0 {
        Verdict::Disabled
    } else {
        Verdict::Linked(count)
    }
}

// The verdict where the old cluster's control file doesn't stand.
fn verdict_without<F: Fs>(
    alloc: Global,
    fs: &mut F,
    old: &Path,
    new: &Path,
) -> Result<Verdict, FsError>
    ensures reads { OnlyReads (record { told = F.told fs.old; firm = F.firm fs.old; depth = F.depth fs.old; trail = F.trail fs.old; counts = F.counts fs.old })
        (record { told = F.told fs.new; firm = F.firm fs.new; depth = F.depth fs.new; trail = F.trail fs.new; counts = F.counts fs.new }) (unless_lack (error_of result)) }
    ensures never_refused { F.told fs.old ≡ true → IsNoRefusal result }
    ensures exact { F.told fs.old ≡ true → WellFormed (F.trail fs.old).present → StandsNot (F.trail fs.old).present (done_at new.now)
        → StandsNot (F.trail fs.old).present (control_at old.now) → IfOk result (IsVerdict (F.trail fs.old).present old.now new.now) }
{
    match has_disabled_control(fs, old) {
        Ok(true) => match shared_count(alloc, fs, old, new) {
            Ok(count) => Ok(disabled(count)),
            Err(error) => Err(error),
        },
        Ok(false) => Ok(Verdict::NoControl),
        Err(error) => Err(error),
    }
}

// The verdict where no mark says that the upgrade is finished.
fn unfinished<F: Fs>(alloc: Global, fs: &mut F, old: &Path, new: &Path) -> Result<Verdict, FsError>
    ensures reads { OnlyReads (record { told = F.told fs.old; firm = F.firm fs.old; depth = F.depth fs.old; trail = F.trail fs.old; counts = F.counts fs.old })
        (record { told = F.told fs.new; firm = F.firm fs.new; depth = F.depth fs.new; trail = F.trail fs.new; counts = F.counts fs.new }) (unless_lack (error_of result)) }
    ensures never_refused { F.told fs.old ≡ true → IsNoRefusal result }
    ensures exact { F.told fs.old ≡ true → WellFormed (F.trail fs.old).present → StandsNot (F.trail fs.old).present (done_at new.now) → IfOk result (IsVerdict (F.trail fs.old).present old.now new.now) }
{
    match stands(fs, old, "global", "pg_control") {
        Ok(true) => match shared_count(alloc, fs, old, new) {
            Ok(count) => Ok(whole(count)),
            Err(error) => Err(error),
        },
        Ok(false) => verdict_without(alloc, fs, old, new),
        Err(error) => Err(error),
    }
}

/// The verdict on the old cluster at one root and the new one at another: `Finished` where the mark stands, whatever else
/// does; else by the old cluster's control file and by the number of shared files. Names that don't stand are no error. No
/// state is changed.
pub fn verdict_of<F: Fs>(
    alloc: Global,
    fs: &mut F,
    old: &Path,
    new: &Path,
) -> Result<Verdict, FsError>
    ensures reads { OnlyReads (record { told = F.told fs.old; firm = F.firm fs.old; depth = F.depth fs.old; trail = F.trail fs.old; counts = F.counts fs.old })
        (record { told = F.told fs.new; firm = F.firm fs.new; depth = F.depth fs.new; trail = F.trail fs.new; counts = F.counts fs.new }) (unless_lack (error_of result)) }
    ensures never_refused { F.told fs.old ≡ true → IsNoRefusal result }
    ensures exact { F.told fs.old ≡ true → IfOk result (IsVerdict (F.trail fs.old).present old.now new.now) }
{
    let _ = fs.moment();
    match stands(fs, new, "pg_profile", "done") {
        Ok(true) => Ok(Verdict::Finished),
        Ok(false) => unfinished(alloc, fs, old, new),
        Err(error) => Err(error),
    }
}
