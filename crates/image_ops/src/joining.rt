//! Rows that touch, as one row.

ghost use Rattle.std.specs.Prelude.{◌≡◌};
ghost use Rattle.image_shape.specs.Shape.{shape_width, shape_height};
ghost use Rattle.image_ops.specs.Joined.{AreFewestRows};

use image_shape::Shape;

/// The shapes in which the rows of two images of one size are gone through. Where the rows of both
/// touch, all of them are one row: so there is one call, and not one for each row. An image alone
/// is given twice.
pub(crate) fn fewest_rows(first: Shape, second: Shape) -> (Shape, Shape)
    requires same_width { shape_width first ≡ shape_width second }
    requires same_height { shape_height first ≡ shape_height second }
    ensures { AreFewestRows first second result.0 result.1 }
{
    let width = first.width();
    if width == first.stride() && width == second.stride() {
        let count = first.pixel_count();
        if let Some(joined) = Shape::checked(count, 1, count) {
            return (joined, joined);
        }
    }
    // With the size of the first the compiler knows that rows of both are equally long.
    (first, Shape::new(width, first.height(), second.stride()))
}
