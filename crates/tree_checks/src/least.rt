// The least of some paths.
ghost use Rattle.std.specs.Prelude.{◌≡◌};
ghost use Rattle.tree_checks.specs.Findings.{lesser};

use fs_model::Path;

/// The lesser of two paths, where there are two.
pub fn lesser(one: Option<Path>, two: Option<Path>) -> Option<Path>
    ensures { result ≡ lesser one two }
{
    match (one, two) {
        (None, two) => two,
        (Some(first), None) => Some(first),
        (Some(first), Some(second)) => {
            if second.cmp(&first).is_lt() {
                Some(second)
            } else {
                Some(first)
            }
        }
    }
}
