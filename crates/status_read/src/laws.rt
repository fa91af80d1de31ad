ghost use Rattle.std.specs.Prelude.{◌≡◌, ◌<◌, ◌^◌, ℕ, List, Some};
ghost use Rattle.cluster_meaning.specs.Status.{segment_name};
ghost use Rattle.status_read.specs.Segments.{segment_number};

/// A law of the definition `segment_number`: each segment's name is read as its number, and no other name is read as that.
pub fn segment_names_law()
    ensures own { (n : ℕ) → n < 2 ^ 32 → segment_number (segment_name n) ≡ Some n }
    ensures bounded { (n : ℕ) (name : List ℕ) → segment_number name ≡ Some n → n < 2 ^ 32 }
    ensures other { (n : ℕ) (name : List ℕ) → segment_number name ≡ Some n → segment_name n ≡ name }
{}
