//! Blocks of 16 by 16 pixels whose columns become rows, in the registers of vectors.

ghost use Rattle.std.specs.Prelude.{◌≡◌, ◌<◌, length};
ghost use Rattle.image_model.specs.Turns.{transposed};
ghost use Rattle.image_shape.specs.Shape.{shape_width, shape_height, shape_stride, shaped_grid};
ghost use Rattle.image_turns.specs.Blocks.{across_place, block_grid, line_read, read_over, shuffled_place};
ghost use Rattle.image_writes.specs.Gathered.{AreGathered};
ghost use Rattle.image_writes.specs.Written.{Becomes, HaveSameSize};

use image_shape::Shape;
use image_writes::{read_part, write_part};

// The shape of a block of 256 cells.
pub(crate) fn block_shape() -> Shape
    ensures width { shape_width result ≡ 16 }
    ensures height { shape_height result ≡ 16 }
    ensures stride { shape_stride result ≡ 16 }
{
    Shape::new(16, 16, 16)
}

// A cell of the first half of the source, then one of the second, and so on. The compiler makes
// vector code of it.
fn shuffle<T: Copy>(cells: &mut [T], source: &[T])
    requires many { length cells.old ≡ 256 }
    requires source_many { length source.now ≡ 256 }
    ensures as_many { length cells.new ≡ length cells.old }
    ensures taken { AreGathered shuffled_place source.now cells.new }
{
    for k in 0..128 {
        cells[2 * k] = source[k];
        cells[2 * k + 1] = source[k + 128];
    }
}

// The block is transposed by four shuffles. A cell's number has eight bits, four for its row and four
// for its column, and each shuffle rotates them by one.
pub(crate) fn transpose_block<T: Copy>(block: &mut [T])
    requires many { length block.old ≡ 256 }
    ensures as_many { length block.new ≡ length block.old }
    ensures grid { block_grid block.new ≡ transposed (block_grid block.old) }
{
    let mut other = [block[0]; 256];
    shuffle(other.as_mut_slice(), block);
    shuffle(block, other.as_slice());
    shuffle(other.as_mut_slice(), block);
    shuffle(block, other.as_slice());
}

// Which row of `height` rows is read for row `y`.
fn line_read(back: bool, height: usize, y: usize) -> usize
    requires there { y < height }
    ensures { result ≡ line_read back height y }
{
    if back { height - 1 - y } else { y }
}

// The cells of a row become those of another one. There are `W` of them, or any number where `W` is 0.
// Known ones go by registers, without a test whether the rows overlap.
#[inline(always)]
fn copy_row<T: Copy, const W: usize>(cells: &mut [T], source: &[T])
    requires as_many { length source.now ≡ length cells.old }
    requires known { 0 < W → length cells.old ≡ W }
    ensures as_many { length cells.new ≡ length cells.old }
    ensures after { cells.new ≡ source.now }
{
    if W > 0 {
        let row = read_part::<T, W>(source);
        write_part::<T, W>(cells, row);
    } else {
        cells.copy_from_slice(source);
    }
}

// Every pixel of `shape` in `cells` becomes the pixel of the source at its place, or, where `back`
// says so, at its place in the source upside down. The padding stays. A row has `W` pixels, or any
// number where `W` is 0. It is inlined, so that the compiler knows that a block has 16 rows.
#[inline(always)]
pub(crate) fn read_rows<T: Copy, const W: usize>(
    cells: &mut [T],
    shape: Shape,
    source: &[T],
    source_shape: Shape,
    back: bool,
)
    requires sizes { HaveSameSize cells.old shape source.now source_shape }
    requires known { 0 < W → shape_width shape ≡ W }
    ensures { Becomes shape cells.old cells.new
        (read_over back (shaped_grid source.now source_shape)) }
{
    for y in 0..shape.row_count() {
        let row = shape.row(cells.len(), y);
        let line = line_read(back, source_shape.height(), y);
        let from = source_shape.row(source.len(), line);
        copy_row::<T, W>(&mut cells[row.range()], &source[from.range()]);
    }
}
