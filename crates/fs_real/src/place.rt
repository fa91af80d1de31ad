// Where a path leads.
ghost use Rattle.std.specs.Prelude.{◌≡◌, ◌++◌, ◌∷◌, [], ◌↔◌, IsTrue, IfOk, OnOk, string_bytes};
ghost use Rattle.fs_model.specs.Names.{Path as Names, parent, same_path, slash};
ghost use Rattle.fs_model.specs.PathText.{joined, text_of};
ghost use Rattle.fs_model.specs.Calls.{crosses, is_root};

use fs_model::{FsError, Name, Path};
use std::alloc::{AllocError, Global};

/// A path whose way was tested: each proper prefix is a directory.
#[derive(Drop)]
pub struct Place {
    // nothing for the root
    text: String,
    /// The device of the directory that it stands in, where that was asked for.
    pub(crate) device: Option<u64>,
}

// The length of a path's text in bytes.
fn text_len(path: &Path) -> usize {
    let mut len: usize = 0;
    for name in path.names() {
        len = len.saturating_add(name.text().len()).saturating_add(1);
    }
    len
}

impl Place {
    // The root, with room for the way to a path, so that no later step of the way takes memory.
    pub(crate) fn root(alloc: Global, path: &Path) -> Result<Place, AllocError>
        ensures { IfOk result (λ place. string_bytes place.text ≡ []) }
    {
        Ok(Place {
            text: String::with_capacity(alloc, text_len(path))?,
            device: None,
        })
    }

    pub(crate) fn is_root(&self) -> bool
        ensures { IsTrue result ↔ (string_bytes self.now.text ≡ []) }
    {
        self.text.is_empty()
    }

    // Goes on to a name.
    pub(crate) fn enter(&mut self, name: &Name) -> Result<(), AllocError>
        ensures { OnOk result (string_bytes self.new.text ≡ string_bytes self.old.text ++ slash ∷ name.now) }
    {
        self.text.push('/')?;
        self.text.push_str(name.text())
    }

    pub(crate) fn text(&self) -> &str
        ensures { (path : Names) → string_bytes self.now.text ≡ joined path → result.now ≡ text_of path }
    {
        if self.is_root() {
            "/"
        } else {
            self.text.as_str()
        }
    }

    // Its text as a value: nothing for the root.
    pub(crate) fn into_text(self) -> String
        ensures { string_bytes result ≡ string_bytes self.text }
    {
        self.text
    }

    // Nothing can be made where the root is.
    pub(crate) fn not_root(self) -> Result<Place, FsError>
        ensures { IfOk result (λ place. place ≡ self) }
    {
        if self.is_root() {
            return Err(FsError::Exists);
        }
        Ok(self)
    }
}

// The names of the directory that a path stands in.
fn above(path: &Path) -> &[Name]
    ensures { result.now ≡ parent path.now }
{
    let names = path.names();
    &names[..names.len().saturating_sub(1)]
}

fn is_root(path: &Path) -> bool
    ensures { result ≡ is_root path.now }
{
    path.names().is_empty()
}

fn share_directory(from: &Path, to: &Path) -> bool
    ensures { result ≡ same_path (parent from.now) (parent to.now) }
{
    above(from).cmp(above(to)).is_eq()
}

// Whether they are no two names of one directory. The root is a name of none.
pub(crate) fn crosses(from: &Path, to: &Path) -> bool
    ensures { result ≡ crosses from.now to.now }
{
    is_root(from) || is_root(to) || !share_directory(from, to)
}
