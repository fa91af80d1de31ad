// What the files say to their readers. Nothing is computed: each contract is a fact about definitions.
ghost use Rattle.std.specs.Prelude.{◌≡◌, ◌∷◌, [], map, replicate, codes, Ok, None};
ghost use Rattle.std.specs.List.{range_with_len};
ghost use Rattle.control_file.specs.ControlRecord.{control_in};
ghost use Rattle.control_file.specs.declared.releases.Release.TheVariants.{V15, V16};
ghost use Rattle.catalog.specs.Shapes.{base_shape};
ghost use Rattle.catalog.specs.declared.types.BaseType.TheVariants.{Int4, Text};
ghost use Rattle.heap_page.specs.Page.{page_error, items_of};
ghost use Rattle.heap_tuple.specs.Column.{field_at};
ghost use Rattle.heap_tuple.specs.Field.{bytes};
ghost use Rattle.heap_tuple.specs.Header.{header_of};
ghost use Rattle.cluster_gen.specs.Control.{control_file, old_counters, new_counters, meant};
ghost use Rattle.cluster_gen.specs.Numbers.{four_bytes};
ghost use Rattle.cluster_gen.specs.Page.{page, lines, tuple_of, header_meant, live_rows};

/// The control files are read as the fields that are meant.
pub fn control_files_are_read()
    ensures old { control_in (control_file V15 old_counters) V15 ≡ Ok (meant V15 old_counters) }
    ensures new { control_in (control_file V16 new_counters) V16 ≡ Ok (meant V16 new_counters) }
{}

/// The pages of 1 to 6 rows are pages, and have the rows' tuples as their lines.
pub fn pages_are_read()
    ensures pages { map (λ count. page_error (page count)) (range_with_len 1 6) ≡ replicate 6 None }
    ensures lines { map (λ count. items_of (page count)) (range_with_len 1 6) ≡ map lines (range_with_len 1 6) }
{}

/// The tuples of the lines 1 to 6 have the header that is meant, the line's number in the column `id`, and `a` in the
/// column `note`.
pub fn rows_are_read()
    ensures headers { map (λ line. header_of (tuple_of line)) (range_with_len 1 6) ≡ map (λ line. Ok (header_meant line)) (range_with_len 1 6) }
    ensures ids { map (λ line. field_at (tuple_of line) (base_shape Int4 ∷ base_shape Text ∷ []) 0) (range_with_len 1 6) ≡ map (λ line. Ok (bytes (four_bytes line))) (range_with_len 1 6) }
    ensures notes { map (λ line. field_at (tuple_of line) (base_shape Int4 ∷ base_shape Text ∷ []) 1) (range_with_len 1 6) ≡ replicate 6 (Ok (bytes (codes "a"))) }
{}

/// Of 3 tables 3 rows aren't deleted, of 7 tables 16, and of 200 tables 453.
pub fn live_rows_are_counted()
    ensures three { live_rows 3 ≡ 3 }
    ensures seven { live_rows 7 ≡ 16 }
    ensures most { live_rows 200 ≡ 453 }
{}
