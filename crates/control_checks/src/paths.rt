// The paths that are looked at in a cluster.
ghost use Rattle.std.specs.Prelude.{◌≡◌, ◌++◌, true, map, IfOk};
ghost use Rattle.std.specs.List.{list_all};
ghost use Rattle.fs_model.specs.Names.{is_name};
ghost use Rattle.control_checks.specs.Places.{release_of, version_path, pid_path, control_path, disabled_path};

use control_file::{Release, Side};
use fs_model::{Path, PathError};
use std::alloc::AllocError;

/// The release that a side must have.
pub(crate) fn release_of(side: Side) -> Release
    ensures { result ≡ release_of side }
{
    match side {
        Side::Old => Release::V15,
        Side::New => Release::V16,
    }
}

// The path with these names more.
fn below(root: &Path, names: &[&str]) -> Result<Path, AllocError>
    requires { list_all is_name (map (λ name. name.now) names.now) ≡ true }
    ensures { IfOk result (λ path. path ≡ root.now ++ map (λ name. name.now) names.now) }
{
    match root.join(names) {
        Ok(path) => Ok(path),
        Err(PathError::OutOfMemory) => Err(AllocError),
        Err(PathError::Bad) => unreachable!(),
    }
}

/// The file that says the release.
pub(crate) fn version_path(root: &Path) -> Result<Path, AllocError>
    ensures { IfOk result (λ path. path ≡ version_path root.now) }
{
    below(root, &["PG_VERSION"])
}

/// The file that a running server has.
pub(crate) fn pid_path(root: &Path) -> Result<Path, AllocError>
    ensures { IfOk result (λ path. path ≡ pid_path root.now) }
{
    below(root, &["postmaster.pid"])
}

/// The control file.
pub(crate) fn control_path(root: &Path) -> Result<Path, AllocError>
    ensures { IfOk result (λ path. path ≡ control_path root.now) }
{
    below(root, &["global", "pg_control"])
}

/// The control file of a cluster that was disabled.
pub(crate) fn disabled_path(root: &Path) -> Result<Path, AllocError>
    ensures { IfOk result (λ path. path ≡ disabled_path root.now) }
{
    below(root, &["global", "pg_control.old"])
}
