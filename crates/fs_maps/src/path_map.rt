// A finite map by path.
ghost use Rattle.std.specs.Prelude.{◌≡◌, ◌++◌, OnOk, IfOk, is_some, option_to_list};
ghost use Rattle.std.specs.Option.{option_copied};
ghost use Rattle.std.specs.List.{list_any, filter_map};
ghost use Rattle.std.specs.FinMap as map;
ghost use Rattle.fs_model.specs.Calls.{child_name};

use fs_model::{Name, Path};
use std::alloc::{AllocError, Global};
use std::collections::BTreeMap;
use std::marker::Model;

/// Values by path, in ascending order of the paths.
#[derive(Drop)]
pub struct PathMap<V: Drop> {
    entries: BTreeMap<Path, V>,
}

impl<V: Drop> Model for PathMap<V> {
    ghost use Rattle.std.specs.Coded.{coded_ℕ, coded_list};
    ghost use Rattle.std.specs.FinMap as map;
    ghost use Rattle.fs_model.specs.Names.{path_cmp};

    ghost Value = { map.FinMap path_cmp V };

    ghost coded = { map.code (coded_list (coded_list coded_ℕ)) V.code };

    ghost view = { λ a. map.from_entries a.entries.entries };
}

// Adds the last name of a path that stands in the directory.
fn add_child(names: &mut Vec<Name>, path: &Path, dir: &Path) -> Result<(), AllocError>
    ensures { OnOk result (names.new.items ≡ names.old.items ++ option_to_list (child_name dir.now path.now)) }
{
    if path.is_in(dir)
        && let Some(name) = path.names().last()
    {
        names.push(name.clone()?)?;
    }
    Ok(())
}

// Whether a path has a last name and stands in the directory.
fn is_child(path: &Path, dir: &Path) -> bool
    ensures { result ≡ is_some (child_name dir.now path.now) }
{
    path.is_in(dir) && !path.names().is_empty()
}

impl<V: Drop> PathMap<V> {
    /// Takes no memory.
    pub fn new(alloc: Global) -> Self
        ensures { result ≡ map.empty }
    {
        Self {
            entries: BTreeMap::new(alloc),
        }
    }

    /// Lends the value at a path.
    pub fn get(&self, at: &Path) -> Option<&V>
        ensures { option_copied result ≡ map.get self.now at.now }
    {
        self.entries.get(at)
    }

    /// Puts a value at a path. After an error it is not said what the map has.
    pub fn insert(&mut self, at: Path, value: V) -> Result<(), AllocError>
        ensures { OnOk result (self.new ≡ map.insert self.old at value) }
    {
        self.entries.insert(at, value)?;
        Ok(())
    }

    /// Takes away what the map has at a path.
    pub fn remove(&mut self, at: &Path)
        ensures { self.new ≡ map.remove self.old at.now }
    {
        self.entries.remove(at);
    }

    /// The paths, in ascending order.
    pub fn paths(&self, alloc: Global) -> Result<Vec<Path>, AllocError>
        ensures { IfOk result (λ paths. paths.items ≡ map.keys self.now) }
    {
        let mut paths = Vec::new(alloc);
        for path in self.entries.keys() {
            paths.push(path.clone()?)?;
        }
        Ok(paths)
    }

    /// The last names of the paths that stand in a directory, in ascending order. Looks at no path that isn't under the
    /// directory, but for one.
    pub fn children(&self, alloc: Global, dir: &Path) -> Result<Vec<Name>, AllocError>
        ensures { IfOk result (λ names. names.items ≡ filter_map (child_name dir.now) (map.keys self.now)) }
    {
        let mut names = Vec::new(alloc);
        for (path, _) in self.entries.range(dir..) {
            if !path.is_under(dir) {
                return Ok(names);
            }
            add_child(&mut names, path, dir)?;
        }
        Ok(names)
    }

    /// Whether a path stands in a directory. Looks at no path that isn't under the directory, but for one, and at two paths
    /// where each path's directory is in the map too.
    pub fn has_child(&self, dir: &Path) -> bool
        ensures { result ≡ list_any (λ path. is_some (child_name dir.now path)) (map.keys self.now) }
    {
        for (path, _) in self.entries.range(dir..) {
            if is_child(path, dir) {
                return true;
            }
            if !path.is_under(dir) {
                return false;
            }
        }
        false
    }
}

impl<V: Clone + Drop> PathMap<V> {
    /// An equal map, where the clone of a value is an equal value.
    pub fn copy(&self) -> Result<Self, AllocError>
        requires { (v w : _) → V.is_clone v w → w ≡ v }
        ensures { IfOk result (λ copy. copy ≡ self.now) }
    {
        Ok(Self {
            entries: self.entries.clone()?,
        })
    }
}
