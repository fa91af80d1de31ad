// Paths, which a contract sees as the names from the root.
ghost use Rattle.std.specs.Prelude.{◌≡◌, ◌≢◌, ◌↔◌, ◌++◌, ◌∷◌, [], true, false, IsTrue, Some, None, Err, MatchOption, length, map, ◌<◌, IfOk, OnOk, IsErrOf, string_bytes};
ghost use Rattle.std.specs.List.{list_all};
ghost use Rattle.std.specs.Ordering.{nat_cmp, as_partial_cmp, eq_by_cmp};
ghost use Rattle.std.specs.Cmp.Lexicographic.{slice_cmp};
ghost use Rattle.std.specs.Cmp.Rules.{comparing};
ghost use Rattle.std.specs.Cmp.{partial_order_from_own_ties};
ghost use Rattle.std.proofs.Common.{rules};
ghost use Rattle.fs_model.specs.Names.{IsUnder, is_under, parent, same_path, is_name};
ghost use Rattle.fs_model.specs.PathText.{path_in, parts, filled, text_of, begins_with_slash};

use crate::{Name, PathError};
use std::alloc::{AllocError, Global};
use std::cmp::Ordering;
use std::marker::Model;

/// A path: a list of names from the root. It is absolute, and has no `.` and no `..`.
#[derive(Drop)]
pub struct Path {
    names: Vec<Name>,
}

impl Model for Path {
    ghost use Rattle.std.specs.Prelude.{List, ℕ};

    ghost Value = { List (List ℕ) };

    ghost view = { λ a. a.names.items };
}

// Adds the part of a text between two slashes. An empty part is no name.
fn add_part(alloc: Global, names: &mut Vec<Name>, part: &str) -> Result<(), PathError>
    ensures ok { OnOk result ((names.new.items ≡ names.old.items ++ filled (part.now ∷ [])) × (list_all is_name (filled (part.now ∷ [])) ≡ true)) }
    ensures bad { IsErrOf result PathError.Bad → list_all is_name (filled (part.now ∷ [])) ≡ false }
{
    if !part.is_empty() {
        names.push(Name::new(alloc, part)?)?;
    }
    Ok(())
}

// What stands before the first slash, and what stands behind it.
fn cut(text: &str) -> Option<(&str, &str)>
    ensures { MatchOption result (parts text.now ≡ filled (text.now ∷ [])) (λ cut. (parts text.now ≡ filled (cut.0.now ∷ []) ++ parts cut.1.now) × (length cut.1.now < length text.now)) }
{
    text.split_once('/')
}

// The names between the slashes of a text.
fn names_between(alloc: Global, text: &str) -> Result<Vec<Name>, PathError>
    ensures ok { IfOk result (λ names. (names.items ≡ parts text.now) × (list_all is_name (parts text.now) ≡ true)) }
    ensures bad { IsErrOf result PathError.Bad → list_all is_name (parts text.now) ≡ false }
{
    let mut names = Vec::new(alloc);
    let mut rest = text;
    while let Some((part, after)) = cut(rest) {
        add_part(alloc, &mut names, part)?;
        rest = after;
    }
    add_part(alloc, &mut names, rest)?;
    Ok(names)
}

impl Path {
    /// The root: no name at all.
    pub fn root(alloc: Global) -> Path
        ensures { result ≡ [] }
    {
        Path {
            names: Vec::new(alloc),
        }
    }

    /// Reads a text that begins with `/` and has names with one or more `/` between them, and perhaps one or more behind the last.
    /// `/` alone is the root. `Bad` comes exactly where the text has no such reading.
    pub fn parse(alloc: Global, text: &str) -> Result<Path, PathError>
        ensures read { IfOk result (λ path. path_in text.now ≡ Some path) }
        ensures bad { IsErrOf result PathError.Bad → path_in text.now ≡ None }
        ensures memory { IsErrOf result PathError.OutOfMemory → begins_with_slash text.now ≡ true }
    {
        let Some(rest) = text.strip_prefix('/') else {
            return Err(PathError::Bad);
        };
        Ok(Path {
            names: names_between(alloc, rest)?,
        })
    }

    /// Lends the names from the root.
    pub fn names(&self) -> &[Name]
        ensures { result.now ≡ self.now }
    {
        &self.names
    }

    /// The path with one name more. `Bad` never comes.
    pub fn child(&self, name: &Name) -> Result<Path, PathError>
        ensures path { IfOk result (λ path. path ≡ self.now ++ name.now ∷ []) }
        ensures never_bad { result ≢ Err PathError.Bad }
    {
        let mut names = self.names.clone()?;
        names.push(name.clone()?)?;
        Ok(Path { names })
    }

    // Adds a name, in place. What the path is after an error is left open.
    fn add(&mut self, text: &str) -> Result<(), PathError>
        ensures ok { OnOk result ((self.new ≡ self.old ++ text.now ∷ []) × (is_name text.now ≡ true)) }
        ensures bad { IsErrOf result PathError.Bad → is_name text.now ≡ false }
    {
        let name = Name::new(*self.names.allocator(), text)?;
        self.names.push(name)?;
        Ok(())
    }

    /// The path with these names more. `Bad` comes exactly where one of the texts is not one of a name.
    pub fn join(&self, names: &[&str]) -> Result<Path, PathError>
        ensures path { IfOk result (λ path. path ≡ self.now ++ map (λ name. name.now) names.now) }
        ensures valid { OnOk result (list_all is_name (map (λ name. name.now) names.now) ≡ true) }
        ensures bad { IsErrOf result PathError.Bad → list_all is_name (map (λ name. name.now) names.now) ≡ false }
    {
        let mut path = self.clone()?;
        for name in names {
            path.add(name)?;
        }
        Ok(path)
    }

    /// An equal path. `Bad` never comes.
    pub fn copy(&self) -> Result<Path, PathError>
        ensures path { IfOk result (λ path. path ≡ self.now) }
        ensures never_bad { result ≢ Err PathError.Bad }
    {
        Ok(self.clone()?)
    }

    /// The directory that it stands in: all names but the last. The root's is the root.
    pub fn parent(&self) -> Result<Path, AllocError>
        ensures { IfOk result (λ path. path ≡ parent self.now) }
    {
        let above = self.names.len().saturating_sub(1);
        let mut names = Vec::new(*self.names.allocator());
        for name in &self.names[..above] {
            names.push(name.clone()?)?;
        }
        Ok(Path { names })
    }

    /// Whether `top` is it or a directory on its way. Takes no memory.
    pub fn is_under(&self, top: &Path) -> bool
        ensures exact { IsTrue result ↔ IsUnder top.now self.now }
        ensures test { result ≡ is_under top.now self.now }
    {
        let len = top.names.len().min(self.names.len());
        self.names[..len].cmp(top.names.as_slice()).is_eq()
    }

    /// Whether it stands in this directory. The root stands in the root.
    pub fn is_in(&self, dir: &Path) -> bool
        ensures { result ≡ same_path (parent self.now) dir.now }
    {
        let above = self.names.len().saturating_sub(1);
        self.names[..above].cmp(dir.names.as_slice()).is_eq()
    }

    /// Its text: `/` and its names with `/` between them, as `parse` reads it.
    pub fn text(&self) -> Result<String, AllocError>
        ensures { IfOk result (λ text. string_bytes text ≡ text_of self.now) }
    {
        let mut text = String::new(*self.names.allocator());
        for name in &self.names {
            text.push('/')?;
            text.push_str(name.text())?;
        }
        if self.names.is_empty() {
            text.push('/')?;
        }
        Ok(text)
    }
}

impl Clone for Path {
    ghost is_clone = { λ a b. b ≡ a };

    fn clone(&self) -> Result<Path, AllocError> {
        Ok(Path {
            names: self.names.clone()?,
        })
    }
}

impl PartialEq for Path {
    ghost eq = { eq_by_cmp (slice_cmp (slice_cmp nat_cmp)) };

    ghost laws = { Prim.search (comparing, rules) };

    fn eq(&self, other: &Path) -> bool {
        self.cmp(other) == Ordering::Equal
    }
}

impl Eq for Path {
    ghost laws = { Prim.search (comparing, rules) };
}

impl Ord for Path {
    ghost cmp = { slice_cmp (slice_cmp nat_cmp) };

    ghost total = { Prim.search (comparing, rules) };

    ghost matches_partial_cmp = { Prim.search (comparing, rules) };

    ghost matches_eq = { Prim.search (comparing, rules) };

    fn cmp(&self, other: &Path) -> Ordering {
        self.names.cmp(&other.names)
    }
}

impl PartialOrd for Path {
    ghost partial_cmp = { as_partial_cmp (slice_cmp (slice_cmp nat_cmp)) };

    ghost laws = { partial_order_from_own_ties (Prim.search (comparing, rules)) (Prim.search (comparing, rules)) };

    fn partial_cmp(&self, other: &Path) -> Option<Ordering> {
        Some(self.cmp(other))
    }
}
