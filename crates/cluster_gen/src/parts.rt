// The directories and files of the pair, in a list.
ghost use Rattle.std.specs.Prelude.{◌≡◌, ◌++◌, ◌∷◌, [], None, Some, IfOk, OnOk, map};
ghost use Rattle.cluster_gen.specs.Parts.{part_below};

use fs_model::{Bytes, Path};
use std::alloc::AllocError;

/// A directory, or a file with its bytes.
#[derive(Drop)]
pub(crate) struct Part {
    pub(crate) path: Path,
    /// None where it is a directory.
    pub(crate) bytes: Option<Bytes>,
}

// The names are ones of files, so that the one error is want of memory.
fn below(root: &Path, names: &[&str]) -> Result<Path, AllocError>
    ensures { IfOk result (λ path. path ≡ root.now ++ map (λ name. name.now) names.now) }
{
    match root.join(names) {
        Ok(path) => Ok(path),
        Err(_) => Err(AllocError),
    }
}

/// Adds a directory, or a file with these bytes.
pub(crate) fn put_part(
    parts: &mut Vec<Part>,
    root: &Path,
    names: &[&str],
    bytes: Option<Bytes>,
) -> Result<(), AllocError>
    ensures { OnOk result (parts.new.items ≡ parts.old.items ++ part_below root.now (map (λ name. name.now) names.now) bytes ∷ []) }
{
    let path = below(root, names)?;
    parts.push(Part { path, bytes })?;
    Ok(())
}
