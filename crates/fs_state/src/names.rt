// Changes of names, put into a map of names.
ghost use Rattle.std.specs.Prelude.{◌≡◌, not, IfOk, OnOk};
ghost use Rattle.std.specs.List.{filter};
ghost use Rattle.fs_model.specs.Effects.{changed, all_changed, is_in};

use fs_maps::PathMap;
use fs_model::{NameChange, Node, Path};
use std::alloc::{AllocError, Global};

/// Puts one change into the names. After an error it is not said what they are.
pub(crate) fn change_names(names: &mut PathMap<Node>, change: &NameChange) -> Result<(), AllocError>
    ensures { OnOk result (names.new ≡ changed names.old change.now) }
{
    for (at, node) in change.items() {
        match node {
            Some(node) => names.insert(at.clone()?, node.clone()?)?,
            None => names.remove(at),
        }
    }
    Ok(())
}

/// Puts the directory's changes into the names, and gives the others back.
pub(crate) fn keep_names(
    alloc: Global,
    names: &mut PathMap<Node>,
    pending: Vec<NameChange>,
    dir: &Path,
) -> Result<Vec<NameChange>, AllocError>
    ensures kept { OnOk result (names.new ≡ all_changed names.old (filter (is_in dir.now) pending.items)) }
    ensures others { IfOk result (λ others. others.items ≡ filter (λ change. not (is_in dir.now change)) pending.items) }
{
    let mut others = Vec::new(alloc);
    for change in pending {
        if change.is_in(dir) {
            change_names(names, &change)?;
        } else {
            others.push(change)?;
        }
    }
    Ok(others)
}
