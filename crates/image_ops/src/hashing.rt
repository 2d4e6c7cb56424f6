//! What an image feeds to a hasher: its size and its pixels, and never stride or padding.

ghost use Rattle.std.specs.Prelude.{◌≡◌, ◌++◌};
ghost use Rattle.std.specs.List.{fold};
ghost use Rattle.std.specs.Hash.{u32};
ghost use Rattle.image_model.specs.Alike.{fed_by};
ghost use Rattle.image_shape.specs.Shape.{shape_height, shape_width, shaped};
ghost use Rattle.image_ops.specs.Hashing.{fed_by_rows};

use image_rows::row;
use image_shape::Shape;
use std::hash::{Hash, Hasher};

// Feeds the width and the height.
fn hash_size<H: Hasher>(shape: Shape, state: &mut H)
    ensures { state.new ≡ fold H.write state.old (u32 (shape_width shape) ++ u32 (shape_height shape)) }
{
    state.write_u32(shape.width() as u32);
    state.write_u32(shape.height() as u32);
}

/// Feeds the width and the height and then, where the cells fit the shape, each row.
pub fn hash_pixels<T: Hash, H: Hasher>(cells: &[T], shape: Shape, state: &mut H)
    ensures { state.new ≡ fold H.write state.old (fed_by T.hash_input (shaped cells.now shape)) }
{
    hash_size(shape, state);
    if !shape.fits(cells.len()) {
        return;
    }
    for y in 0..shape.row_count() {
        T::hash_slice(row(cells, shape, y), state);
    }
}

/// Feeds the width and the height and then, where the cells fit the shape, the bytes of each row by
/// one write.
pub fn hash_rows<H: Hasher>(cells: &[u8], shape: Shape, state: &mut H)
    ensures { state.new ≡ fold H.write state.old (fed_by_rows (shaped cells.now shape)) }
{
    hash_size(shape, state);
    if !shape.fits(cells.len()) {
        return;
    }
    for y in 0..shape.row_count() {
        state.write(row(cells, shape, y));
    }
}
