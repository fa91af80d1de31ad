// A name in a directory, which a contract sees as its bytes.
ghost use Rattle.std.specs.Prelude.{◌≡◌, ◌||◌, true, false, IfOk, IsErrOf, codes, bytes_eq};
ghost use Rattle.std.specs.List.{list_all};
ghost use Rattle.std.proofs.Common.{rules};
ghost use Rattle.std.specs.Ordering.{nat_cmp, as_partial_cmp, eq_by_cmp};
ghost use Rattle.std.specs.Cmp.Lexicographic.{slice_cmp};
ghost use Rattle.std.specs.Cmp.Rules.{comparing};
ghost use Rattle.std.specs.Cmp.{partial_order_from_own_ties};
ghost use Rattle.fs_model.specs.Names.{is_name, is_name_byte};
ghost use Rattle.fs_model.specs.NameTexts.{bytes_of};

use crate::PathError;
use arrayvec::ArrayString;
use std::alloc::{AllocError, Global};
use std::cmp::Ordering;
use std::marker::Model;

// The text of a name. One of at most 16 bytes, which is nearly every name of a cluster, lies in the value itself.
#[derive(Drop)]
enum NameText {
    Short(ArrayString<16>),
    Long(String),
}

// The text in place where it is short enough, otherwise on the heap.
fn name_text(alloc: Global, text: &str) -> Result<NameText, AllocError>
    ensures { IfOk result (λ t. bytes_of t ≡ text.now) }
{
    match ArrayString::from(text) {
        Ok(short) => Ok(NameText::Short(short)),
        Err(_) => Ok(NameText::Long(String::from_str(alloc, text)?)),
    }
}

/// A name in a directory: UTF-8 text of 1 to 255 bytes without `/` and without a zero byte that is neither `.` nor `..`.
#[derive(Drop)]
pub struct Name {
    text: NameText,
}

impl Model for Name {
    ghost use Rattle.std.specs.Prelude.{◌≡◌, true, List, ℕ};
    ghost use Rattle.fs_model.specs.Names.{is_name};
    ghost use Rattle.fs_model.specs.NameTexts.{bytes_of};

    ghost Value = { List ℕ };

    ghost view = { λ a. bytes_of a.text };

    ghost invariant = { λ a. is_name (bytes_of a.text) ≡ true };
}

// Whether each byte is one that a name may have.
fn has_name_bytes(text: &str) -> bool
    ensures { result ≡ list_all is_name_byte text.now }
{
    text.as_bytes().iter().all(|b| *b != b'/' && *b != 0)
}

// Whether the text is `.` or `..`, the names that every directory has for itself and its parent.
fn is_dots(text: &str) -> bool
    ensures { result ≡ (bytes_eq text.now (codes ".") || bytes_eq text.now (codes "..")) }
{
    text == "." || text == ".."
}

// Whether the text is one of a name.
fn is_valid(text: &str) -> bool
    ensures { result ≡ is_name text.now }
{
    let long_enough = !text.is_empty();
    let short_enough = text.len() <= 255;
    let plain = has_name_bytes(text);
    let dots = is_dots(text);
    long_enough && short_enough && plain && !dots
}

impl Name {
    /// The name of that text. `Bad` comes exactly where the text is not one of a name.
    pub fn new(alloc: Global, text: &str) -> Result<Name, PathError>
        ensures named { IfOk result (λ name. name ≡ text.now) }
        ensures valid { IfOk result (λ name. is_name text.now ≡ true) }
        ensures bad { IsErrOf result PathError.Bad → is_name text.now ≡ false }
        ensures memory { IsErrOf result PathError.OutOfMemory → is_name text.now ≡ true }
    {
        if !is_valid(text) {
            return Err(PathError::Bad);
        }
        Ok(Name {
            text: name_text(alloc, text)?,
        })
    }

    /// Lends the text.
    pub fn text(&self) -> &str
        ensures same { result.now ≡ self.now }
        ensures valid { is_name self.now ≡ true }
    {
        match &self.text {
            NameText::Short(short) => short.as_str(),
            NameText::Long(long) => long.as_str(),
        }
    }
}

impl Clone for Name {
    ghost is_clone = { λ a b. b ≡ a };

    fn clone(&self) -> Result<Name, AllocError> {
        let text = match &self.text {
            NameText::Short(short) => NameText::Short(*short),
            NameText::Long(long) => NameText::Long(long.clone()?),
        };
        Ok(Name { text })
    }
}

impl PartialEq for Name {
    ghost eq = { eq_by_cmp (slice_cmp nat_cmp) };

    ghost laws = { Prim.search (comparing, rules) };

    fn eq(&self, other: &Name) -> bool {
        self.cmp(other) == Ordering::Equal
    }
}

impl Eq for Name {
    ghost laws = { Prim.search (comparing, rules) };
}

impl Ord for Name {
    ghost cmp = { slice_cmp nat_cmp };

    ghost total = { Prim.search (comparing, rules) };

    ghost matches_partial_cmp = { Prim.search (comparing, rules) };

    ghost matches_eq = { Prim.search (comparing, rules) };

    fn cmp(&self, other: &Name) -> Ordering {
        self.text().as_bytes().cmp(other.text().as_bytes())
    }
}

impl PartialOrd for Name {
    ghost partial_cmp = { as_partial_cmp (slice_cmp nat_cmp) };

    ghost laws = { partial_order_from_own_ties (Prim.search (comparing, rules)) (Prim.search (comparing, rules)) };

    fn partial_cmp(&self, other: &Name) -> Option<Ordering> {
        Some(self.cmp(other))
    }
}
