ghost use Rattle.std.specs.Prelude.{◌≡◌, ◌↔◌, List, Some};
ghost use Rattle.std.specs.List.{find};
ghost use Rattle.catalog_checks.specs.Columns.{PlacedColumn, is_refused};
ghost use Rattle.catalog_checks.specs.First.{IsFirst};
ghost use Rattle.catalog_checks.specs.declared.columns.TypeTest.{TypeTest};

/// A law, with nothing to run: what `find` gives is the first in the list that passes, which is before it in none.
pub fn first_is_first()
    ensures { (test : TypeTest) (columns : List PlacedColumn) (column : PlacedColumn) → (find (is_refused test) columns ≡ Some column) ↔ IsFirst (is_refused test) columns column }
{}
