//! Equality: it depends on sizes and pixels, and never on stride or padding.

ghost use Rattle.std.specs.Prelude.{◌≡◌, ◌*◌, ◌<◌, ◌≤◌, length, IsTrue, IsFalse};
ghost use Rattle.std.specs.Cmp.Lexicographic.{pointwise};
ghost use Rattle.image_model.specs.Layout.{Fits};
ghost use Rattle.image_model.specs.Rows.{rows as rows_of};
ghost use Rattle.image_model.specs.Alike.{is_alike};
ghost use Rattle.image_shape.specs.Shape.{shape_width, shaped};
ghost use Rattle.image_writes.specs.Written.{HaveSameSize};

use crate::joining::fewest_rows;
use crate::short::{block_of_row, have_equal_blocks, have_equal_ends, part_to_compare};
use image_rows::row;
use image_shape::Shape;

// Whether the rows of two images of one size are equal, one by one: by blocks of `N` cells, or rows of
// `N` to `2 * N` cells by their two ends. Where `N` is 0, any rows.
fn have_equal_rows<T: PartialEq, const N: usize, const BY_BLOCKS: bool>(
    first: &[T],
    first_shape: Shape,
    second: &[T],
    second_shape: Shape,
) -> bool
    requires some { IsTrue BY_BLOCKS → 0 < N }
    requires enough { N ≤ shape_width first_shape }
    requires few { IsFalse BY_BLOCKS → 0 < N → shape_width first_shape ≤ 2 * N }
    requires sizes { HaveSameSize first.now first_shape second.now second_shape }
    ensures { result ≡ pointwise (pointwise T.eq) (rows_of (shaped first.now first_shape))
        (rows_of (shaped second.now second_shape)) }
{
    for y in 0..first_shape.row_count() {
        let line = row(first, first_shape, y);
        let other = row(second, second_shape, y);
        if !are_equal_lines::<T, N, BY_BLOCKS>(line, other) {
            return false;
        }
    }
    true
}

// Whether two rows are equal.
#[inline(always)]
fn are_equal_lines<T: PartialEq, const N: usize, const BY_BLOCKS: bool>(
    line: &[T],
    other: &[T],
) -> bool
    requires as_many { length line.now ≡ length other.now }
    requires some { IsTrue BY_BLOCKS → 0 < N }
    requires enough { N ≤ length line.now }
    requires few { IsFalse BY_BLOCKS → 0 < N → length line.now ≤ 2 * N }
    ensures { result ≡ pointwise T.eq line.now other.now }
{
    if BY_BLOCKS {
        have_equal_blocks::<T, N>(line, other)
    } else if N > 0 {
        have_equal_ends::<T, N>(line, other)
    } else {
        line == other
    }
}

// The same by the rows' width, which is looked at once: short rows by their ends, and others by blocks.
// Cells of more than 16 bytes may hold pointers, and then what they point to: they are compared in turn,
// up to the first that differs.
fn are_equal_by_width<T: PartialEq>(
    first: &[T],
    first_shape: Shape,
    second: &[T],
    second_shape: Shape,
) -> bool
    requires sizes { HaveSameSize first.now first_shape second.now second_shape }
    ensures { result ≡ pointwise (pointwise T.eq) (rows_of (shaped first.now first_shape))
        (rows_of (shaped second.now second_shape)) }
{
    let width = first_shape.width();
    match part_to_compare(first, width) {
        32 => have_equal_rows::<T, 32, false>(first, first_shape, second, second_shape),
        16 => have_equal_rows::<T, 16, false>(first, first_shape, second, second_shape),
        8 => have_equal_rows::<T, 8, false>(first, first_shape, second, second_shape),
        4 => have_equal_rows::<T, 4, false>(first, first_shape, second, second_shape),
        _ => match block_of_row(first, width) {
            256 => have_equal_rows::<T, 256, true>(first, first_shape, second, second_shape),
            128 => have_equal_rows::<T, 128, true>(first, first_shape, second, second_shape),
            64 => have_equal_rows::<T, 64, true>(first, first_shape, second, second_shape),
            32 => have_equal_rows::<T, 32, true>(first, first_shape, second, second_shape),
            16 => have_equal_rows::<T, 16, true>(first, first_shape, second, second_shape),
            8 => have_equal_rows::<T, 8, true>(first, first_shape, second, second_shape),
            4 => have_equal_rows::<T, 4, true>(first, first_shape, second, second_shape),
            3 => have_equal_rows::<T, 3, true>(first, first_shape, second, second_shape),
            2 => have_equal_rows::<T, 2, true>(first, first_shape, second, second_shape),
            1 => have_equal_rows::<T, 1, true>(first, first_shape, second, second_shape),
            _ => have_equal_rows::<T, 0, false>(first, first_shape, second, second_shape),
        },
    }
}

/// Whether two images that fit are equal: they have the same size and equal pixels.
pub fn are_equal_fitting<T: PartialEq>(
    first: &[T],
    first_shape: Shape,
    second: &[T],
    second_shape: Shape,
) -> bool
    requires first_fits { Fits (shaped first.now first_shape) }
    requires second_fits { Fits (shaped second.now second_shape) }
    ensures { result
        ≡ is_alike T.eq (shaped first.now first_shape) (shaped second.now second_shape) }
{
    if first_shape.width() != second_shape.width()
        || first_shape.height() != second_shape.height()
    {
        return false;
    }
    let (one, other) = fewest_rows(first_shape, second_shape);
    are_equal_by_width(first, one, second, other)
}

/// Whether two images are equal: they have the same size, and either both fit and their rows are
/// equal, or neither fits.
pub fn are_equal<T: PartialEq>(
    first: &[T],
    first_shape: Shape,
    second: &[T],
    second_shape: Shape,
) -> bool
    ensures { result
        ≡ is_alike T.eq (shaped first.now first_shape) (shaped second.now second_shape) }
{
    if first_shape.fits(first.len()) {
        return second_shape.fits(second.len())
            && are_equal_fitting(first, first_shape, second, second_shape);
    }
    !second_shape.fits(second.len())
        && first_shape.width() == second_shape.width()
        && first_shape.height() == second_shape.height()
}
