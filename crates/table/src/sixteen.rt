ghost use Rattle.std.specs.Prelude.{◌≤◌, length, take, drop, All};
ghost use Rattle.std.specs.List.{AllZip};

use std::array;

/// A value made of each item, in an array of sixteen, and the default past the last item.
pub(crate) fn sixteen_of<A: Copy, T: From<A> + Default>(items: &[A]) -> [T; 16]
    requires { length items.now ≤ 16 }
    ensures made { AllZip T.from_gives items.now (take (length items.now) result) }
    ensures spare { All T.is_default (drop (length items.now) result) }
{
    // A match, since the check does not cover `map` where what it passes makes a type that no argument names.
    array::from_fn(|place| match items.get(place) {
        Some(item) => T::from(*item),
        None => T::default(),
    })
}
