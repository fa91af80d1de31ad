// The conditions on the directories and files of both clusters.
ghost use Rattle.std.specs.Prelude.{◌≡◌, ◌∷◌, [], true, false, Ok, Result, IfOk};
ghost use Rattle.fs_model.specs.Trail.{error_of, unless_lack};
ghost use Rattle.fs_model.specs.Observed.{OnlyReads};
ghost use Rattle.control_file.specs.declared.modes.Mode.TheVariants.{Link};
ghost use Rattle.tree_checks.specs.Findings.{IsFirstOf};
ghost use Rattle.tree_checks.specs.Looks.{IsNoRefusal};
ghost use Rattle.tree_checks.specs.MissingDirs.{IsMissingDir};
ghost use Rattle.file_checks.specs.RelationFiles.{IsMissingFile};
ghost use Rattle.control_file.specs.declared.job.Job.{Job};
ghost use Rattle.catalog.specs.Cluster.{Cluster};
ghost use Rattle.control_checks.specs.Places.{root_of};
ghost use Rattle.dump_grammar.specs.declared.error.TextError.{TextError};
ghost use Rattle.compat_checks.specs.Order.{PreparedIs, NewUsedIs, TablespaceDirIs, MissingFileIs, SharedInodeIs, DeviceDiffersIs, ControlOldExistsIs};
ghost use Rattle.upgrade_checks.specs.Findings.{Readings};
ghost use Rattle.upgrade_checks.specs.Parts.{prepared_part, tree_part, link_part};
ghost use Rattle.upgrade_checks.specs.Answers.{Tested};

use crate::stop::{PathCondition, Stop, judged, judged_path};
use catalog::Catalog;
use compat_checks::Refusal;
use control_file::{Job, Mode, Side};
use fs_model::{Fs, FsError, Path};
use std::alloc::Global;
use tree_checks::{has_disabled_control, has_prepared, missing_dir, used_path};

// ---- prepared transactions

fn test_prepared<F: Fs>(alloc: Global, fs: &mut F, side: Side, root: &Path) -> Result<(), Stop>
    ensures tested { (job : Job) (readings : Readings) → root.now ≡ root_of job side → Tested false job readings (PreparedIs side ∷ []) (record { told = F.told fs.old; firm = F.firm fs.old; depth = F.depth fs.old; trail = F.trail fs.old; counts = F.counts fs.old })
        (record { told = F.told fs.new; firm = F.firm fs.new; depth = F.depth fs.new; trail = F.trail fs.new; counts = F.counts fs.new }) result }
{
    let answer = has_prepared(alloc, fs, root);
    judged(side, Refusal::Prepared(side), answer)
}

/// Whether neither cluster has prepared transactions.
pub(crate) fn test_both_prepared<F: Fs>(alloc: Global, fs: &mut F, job: &Job) -> Result<(), Stop>
    ensures tested { (readings : Readings) → Tested false job.now readings prepared_part (record { told = F.told fs.old; firm = F.firm fs.old; depth = F.depth fs.old; trail = F.trail fs.old; counts = F.counts fs.old })
        (record { told = F.told fs.new; firm = F.firm fs.new; depth = F.depth fs.new; trail = F.trail fs.new; counts = F.counts fs.new }) result }
{
    test_prepared(alloc, fs, Side::Old, &job.old)?;
    test_prepared(alloc, fs, Side::New, &job.new)
}

// ---- directories and files

fn test_used<F: Fs>(alloc: Global, fs: &mut F, job: &Job) -> Result<(), Stop>
    ensures tested { (readings : Readings) → Tested false job.now readings (NewUsedIs ∷ []) (record { told = F.told fs.old; firm = F.firm fs.old; depth = F.depth fs.old; trail = F.trail fs.old; counts = F.counts fs.old })
        (record { told = F.told fs.new; firm = F.firm fs.new; depth = F.depth fs.new; trail = F.trail fs.new; counts = F.counts fs.new }) result }
{
    let answer = used_path(alloc, fs, &job.new);
    judged_path(Side::New, PathCondition::NewUsed, answer)
}

fn test_tablespaces<F: Fs>(alloc: Global, fs: &mut F, job: &Job, old: &Catalog) -> Result<(), Stop>
    ensures tested { (new : Result Cluster TextError) → Tested false job.now (record { old = Ok old.now; new = new }) (TablespaceDirIs ∷ []) (record { told = F.told fs.old; firm = F.firm fs.old; depth = F.depth fs.old; trail = F.trail fs.old; counts = F.counts fs.old })
        (record { told = F.told fs.new; firm = F.firm fs.new; depth = F.depth fs.new; trail = F.trail fs.new; counts = F.counts fs.new }) result }
{
    let answer = file_checks::tablespace_dir(alloc, fs, &job.old, &job.new, old);
    judged_path(Side::Old, PathCondition::TablespaceDir, answer)
}

// The first path that is missing: a directory that both clusters need, or a file of a relation.
fn missing_path<F: Fs>(
    alloc: Global,
    fs: &mut F,
    job: &Job,
    old: &Catalog,
) -> Result<Option<Path>, FsError>
    ensures reads { OnlyReads (record { told = F.told fs.old; firm = F.firm fs.old; depth = F.depth fs.old; trail = F.trail fs.old; counts = F.counts fs.old })
        (record { told = F.told fs.new; firm = F.firm fs.new; depth = F.depth fs.new; trail = F.trail fs.new; counts = F.counts fs.new }) (unless_lack (error_of result)) }
    ensures never_refused { IsNoRefusal result }
    ensures finds { F.told fs.old ≡ true → IfOk result (IsFirstOf (IsMissingDir (F.trail fs.old).present.names job.now.old job.now.new) (IsMissingFile (F.trail fs.old).present job.now.old old.now)) }
{
    match missing_dir(alloc, fs, &job.old, &job.new) {
        Ok(None) => file_checks::missing_file(alloc, fs, &job.old, old),
        Ok(Some(path)) => Ok(Some(path)),
        Err(error) => Err(error),
    }
}

fn test_missing<F: Fs>(alloc: Global, fs: &mut F, job: &Job, old: &Catalog) -> Result<(), Stop>
    ensures tested { (new : Result Cluster TextError) → Tested false job.now (record { old = Ok old.now; new = new }) (MissingFileIs ∷ []) (record { told = F.told fs.old; firm = F.firm fs.old; depth = F.depth fs.old; trail = F.trail fs.old; counts = F.counts fs.old })
        (record { told = F.told fs.new; firm = F.firm fs.new; depth = F.depth fs.new; trail = F.trail fs.new; counts = F.counts fs.new }) result }
{
    let answer = missing_path(alloc, fs, job, old);
    judged_path(Side::Old, PathCondition::MissingFile, answer)
}

fn test_shared<F: Fs>(alloc: Global, fs: &mut F, job: &Job) -> Result<(), Stop>
    ensures tested { (readings : Readings) → Tested false job.now readings (SharedInodeIs ∷ []) (record { told = F.told fs.old; firm = F.firm fs.old; depth = F.depth fs.old; trail = F.trail fs.old; counts = F.counts fs.old })
        (record { told = F.told fs.new; firm = F.firm fs.new; depth = F.depth fs.new; trail = F.trail fs.new; counts = F.counts fs.new }) result }
{
    let answer = shared_inodes::shared_inode(alloc, fs, &job.old, &job.new);
    judged_path(Side::Old, PathCondition::SharedInode, answer)
}

/// The conditions on directories and files that each upgrade has.
pub(crate) fn test_trees<F: Fs>(
    alloc: Global,
    fs: &mut F,
    job: &Job,
    old: &Catalog,
) -> Result<(), Stop>
    ensures tested { (new : Result Cluster TextError) → Tested false job.now (record { old = Ok old.now; new = new }) tree_part (record { told = F.told fs.old; firm = F.firm fs.old; depth = F.depth fs.old; trail = F.trail fs.old; counts = F.counts fs.old })
        (record { told = F.told fs.new; firm = F.firm fs.new; depth = F.depth fs.new; trail = F.trail fs.new; counts = F.counts fs.new }) result }
{
    test_used(alloc, fs, job)?;
    test_tablespaces(alloc, fs, job, old)?;
    test_missing(alloc, fs, job, old)?;
    test_shared(alloc, fs, job)
}

// ---- those for links alone

fn test_devices<F: Fs>(alloc: Global, fs: &mut F, job: &Job, old: &Catalog) -> Result<(), Stop>
    ensures tested { (new : Result Cluster TextError) → job.now.mode ≡ Link → Tested false job.now (record { old = Ok old.now; new = new }) (DeviceDiffersIs ∷ []) (record { told = F.told fs.old; firm = F.firm fs.old; depth = F.depth fs.old; trail = F.trail fs.old; counts = F.counts fs.old })
        (record { told = F.told fs.new; firm = F.firm fs.new; depth = F.depth fs.new; trail = F.trail fs.new; counts = F.counts fs.new }) result }
{
    let answer = file_checks::device_differs(alloc, fs, &job.old, &job.new, old);
    judged_path(Side::Old, PathCondition::DeviceDiffers, answer)
}

fn test_old_control<F: Fs>(fs: &mut F, job: &Job) -> Result<(), Stop>
    ensures tested { (readings : Readings) → job.now.mode ≡ Link → Tested false job.now readings (ControlOldExistsIs ∷ []) (record { told = F.told fs.old; firm = F.firm fs.old; depth = F.depth fs.old; trail = F.trail fs.old; counts = F.counts fs.old })
        (record { told = F.told fs.new; firm = F.firm fs.new; depth = F.depth fs.new; trail = F.trail fs.new; counts = F.counts fs.new }) result }
{
    let answer = has_disabled_control(fs, &job.old);
    judged(Side::Old, Refusal::ControlOldExists, answer)
}

/// The conditions on an upgrade by links; one by copies has none of them.
pub(crate) fn test_links<F: Fs>(
    alloc: Global,
    fs: &mut F,
    job: &Job,
    old: &Catalog,
) -> Result<(), Stop>
    ensures tested { (new : Result Cluster TextError) → Tested false job.now (record { old = Ok old.now; new = new }) link_part (record { told = F.told fs.old; firm = F.firm fs.old; depth = F.depth fs.old; trail = F.trail fs.old; counts = F.counts fs.old })
        (record { told = F.told fs.new; firm = F.firm fs.new; depth = F.depth fs.new; trail = F.trail fs.new; counts = F.counts fs.new }) result }
{
    match job.mode {
        Mode::Copy => Ok(()),
        Mode::Link => {
            test_devices(alloc, fs, job, old)?;
            test_old_control(fs, job)
        }
    }
}
