// The leave to give files of the old cluster second names.
ghost use Rattle.std.specs.Prelude.{◌≡◌, ◌≢◌, Err, IfOk};
ghost use Rattle.fs_model.specs.Names.{parent};
ghost use Rattle.crash_safety.specs.Places.{control_at, disabled_at};

use fs_model::{Path, PathError};
use std::alloc::Global;
use std::marker::Model;

/// The paths of the old cluster's control file.
#[derive(Drop)]
pub struct ControlPaths {
    pub control: Path,
    /// Its name in a cluster that is disabled.
    pub renamed: Path,
    /// The directory that both stand in.
    pub dir: Path,
    pub ghost together: { dir ≡ parent control },
}

/// The paths of the control file of the cluster at a root, `global/pg_control` and `global/pg_control.old`. `Bad` never
/// comes.
pub fn paths(_alloc: Global, old: &Path) -> Result<ControlPaths, PathError>
    ensures control { IfOk result (λ paths. paths.control ≡ control_at old.now) }
    ensures renamed { IfOk result (λ paths. paths.renamed ≡ disabled_at old.now) }
    ensures dir { IfOk result (λ paths. paths.dir ≡ parent (control_at old.now)) }
    ensures never_bad { result ≢ Err PathError.Bad }
{
    let control = old.join(&["global", "pg_control"])?;
    let renamed = old.join(&["global", "pg_control.old"])?;
    let dir = control.parent()?;
    Ok(ControlPaths {
        control,
        renamed,
        dir,
    })
}

/// That the old cluster is disabled: contracts see the path that its control file had. `disable` alone makes one.
#[derive(Drop)]
pub struct LinkPermit {
    paths: ControlPaths,
}

impl Model for LinkPermit {
    ghost use Rattle.std.specs.Prelude.{List, ℕ};

    ghost Value = { List (List ℕ) };

    ghost view = { λ a. a.paths.control };
}

impl LinkPermit {
    // Takes what the rename was made with.
    pub(crate) fn over(paths: ControlPaths) -> LinkPermit
        ensures { result ≡ paths.control }
    {
        LinkPermit { paths }
    }
}
