// The object at a place.
ghost use Rattle.std.specs.Prelude.{◌≡◌};
ghost use Rattle.std.specs.Option.{option_copied};
ghost use Rattle.object_places.specs.Finds.{object_at};

/// The object at the place that a look-up gave, if it gave one and the list is so long.
pub fn object_at<T>(objects: &[T], place: Option<usize>) -> Option<&T>
    ensures { option_copied result ≡ object_at objects.now place }
{
    match place {
        Some(place) => objects.get(place),
        None => None,
    }
}
