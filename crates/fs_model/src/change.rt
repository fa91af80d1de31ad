// A change of names, which is on the disk whole or not at all.
ghost use Rattle.std.specs.Prelude.{◌≡◌};
ghost use Rattle.fs_model.specs.Effects.{is_in};

use crate::{Node, Path};
use std::alloc::AllocError;
use std::marker::Model;

/// The names that one call changed, all in one directory: each with what stands there since, or nothing.
#[derive(Drop)]
pub struct NameChange {
    items: Vec<(Path, Option<Node>)>,
}

impl Model for NameChange {
    ghost use Rattle.std.specs.Prelude.{List, ℕ, Option};
    ghost use Rattle.fs_model.specs.declared.node.Node.{Node};

    ghost Value = { List (List (List ℕ) × Option Node) };

    ghost view = { λ a. a.items.items };
}

impl NameChange {
    /// Takes no memory.
    pub fn new(items: Vec<(Path, Option<Node>)>) -> NameChange
        ensures { result ≡ items.items }
    {
        NameChange { items }
    }

    /// Lends the pairs.
    pub fn items(&self) -> &[(Path, Option<Node>)]
        ensures { result.now ≡ self.now }
    {
        &self.items
    }

    /// Whether it is a change of names in this directory.
    pub fn is_in(&self, dir: &Path) -> bool
        ensures { result ≡ is_in dir.now self.now }
    {
        match self.items.first() {
            Some((at, _)) => at.is_in(dir),
            None => false,
        }
    }
}

impl Clone for NameChange {
    ghost is_clone = { λ a b. b ≡ a };

    fn clone(&self) -> Result<NameChange, AllocError> {
        Ok(NameChange {
            items: self.items.clone()?,
        })
    }
}
