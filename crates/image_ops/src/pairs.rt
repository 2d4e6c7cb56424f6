//! Images compared place by place with a closure.

ghost use Rattle.std.specs.Prelude.{◌≡◌, length, MatchBool};
ghost use Rattle.image_model.specs.Layout.{Fits};
ghost use Rattle.image_shape.specs.Shape.{shaped};
ghost use Rattle.image_ops.specs.Pairs.{TakesPairs, AllPairsAnswer, SomePairDiffers, TakesPlaces, AllPlacesAnswer, SomePlaceDiffers};

use image_rows::row;
use image_shape::Shape;

// Whether `f` is true of the elements of two lists, pair by pair, up to the first of which it
// isn't.
fn agree<T, U, F: Fn(&T, &U) -> bool>(first: &[T], second: &[U], f: &F) -> bool
    requires as_many { length first.now ≡ length second.now }
    requires callable { TakesPairs (F.pre f.now) first.now second.now }
    ensures { MatchBool result (AllPairsAnswer (F.post f.now) first.now second.now)
        (SomePairDiffers (F.post f.now) first.now second.now) }
{
    for k in 0..first.len() {
        let left = &first[k];
        let right = &second[k];
        if !f(left, right) {
            return false;
        }
    }
    true
}

/// Whether two images have the same size and `f` is true of their pixels at every place. `f` is
/// called row by row and from left to right, up to the first place where it isn't true. Both images
/// fit.
pub fn agree_at_places<T, U, F: Fn(&T, &U) -> bool>(
    first: &[T],
    first_shape: Shape,
    second: &[U],
    second_shape: Shape,
    f: &F,
) -> bool
    requires first_fits { Fits (shaped first.now first_shape) }
    requires second_fits { Fits (shaped second.now second_shape) }
    requires callable { TakesPlaces (F.pre f.now) (shaped first.now first_shape)
        (shaped second.now second_shape) }
    ensures { MatchBool result (AllPlacesAnswer (F.post f.now) (shaped first.now first_shape)
        (shaped second.now second_shape)) (SomePlaceDiffers (F.post f.now)
        (shaped first.now first_shape) (shaped second.now second_shape)) }
{
    if first_shape.width() != second_shape.width()
        || first_shape.height() != second_shape.height()
    {
        return false;
    }
    for y in 0..first_shape.row_count() {
        if !agree(row(first, first_shape, y), row(second, second_shape, y), f) {
            return false;
        }
    }
    true
}
