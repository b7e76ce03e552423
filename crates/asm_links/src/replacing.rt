//! An item in the place of another one.

ghost use Rattle.std.specs.Prelude.{◌≡◌, slice_set};

/// Puts an item in the place of the one of a number, if there is one.
pub(crate) fn put_at<T: Copy + Drop>(items: &mut Vec<T>, place: usize, item: T)
    ensures { items.new.items ≡ slice_set items.old.items place item }
{
    if let Some(old) = items.get_mut(place) {
        *old = item;
    }
}
