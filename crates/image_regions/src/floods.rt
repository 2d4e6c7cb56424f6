//! A flood fill: a place and everything connected with it get a value.

ghost use Rattle.std.specs.Prelude.{◌≡◌, ◌≢◌, ◌<◌, ◌≤◌, ◌+◌, ◌*◌, ◌/◌, ◌%◌, ◌∷◌, ◌++◌, [], ℕ, IfOk, IfErr, List, Some, length};
ghost use Rattle.image_model.specs.Grid.{Grid};
ghost use Rattle.imgref.specs.Words.{AllFilled, AreFilled, Fits, Flooding, SameOutside, TellsApart, beside, grid_of, height_of, shape_height, shape_width, shaped, vec_grid, vec_layout, width_of};
ghost use Rattle.image_regions.specs.Pending.{CanFill, FillsPlaces, cell_grid, to_look_at};

use crate::pixels::{at, get, put};
use imgref::{ImgVec, Shape};
use std::alloc::{AllocError, Global};

// What a fill does: in cells of this shape, places that show the seed get the value.
#[derive(Clone, Copy)]
struct Fill<T> {
    shape: Shape,
    seed: T,
    value: T,
}

// A place that shows the seed gets the value, and is pending from then on: the places beside it have
// to be looked at. So a place is pending at most once. Returns how many places are. Where another
// process changes the pixels meanwhile, a place may be pending again and again: the test of the work
// buffer is for that.
#[tactic(auto, using(image_model::proofs::Laws::reads, image_model::proofs::Laws::writes))]
fn fill_one<T: Copy + PartialEq>(
    fill: &Fill<T>,
    cells: &mut [T],
    room: &mut [usize],
    count: usize,
    place: (usize, usize),
) -> usize
    requires ready { CanFill fill.now T.eq cells.old count room.old }
    ensures goes_on { (g : Grid T) (left top : ℕ) (rest : List (ℕ × ℕ))
        → g.pixel left top ≡ Some fill.now.seed
        → Flooding g left top fill.now.value (cell_grid fill.now cells.old)
        (to_look_at fill.now count room.old ++ rest ++ (place.0, place.1) ∷ [])
        → Flooding g left top fill.now.value (cell_grid fill.now cells.new)
        (to_look_at fill.now result room.new ++ rest) }
    ensures fills { FillsPlaces fill.now T.eq cells.old count room.old cells.new result room.new }
{
    let (x, y) = place;
    let Some(pixel) = get(cells, fill.shape, x, y) else {
        return count;
    };
    if pixel != fill.seed {
        return count;
    }
    put(cells, fill.shape, x, y, fill.value);
    // (after the write, or the compiler tests it for places of other pixels too)
    if count >= room.len() {
        return count;
    }
    // (both sizes are below 2^32, so the number fits)
    let _rows = fill.shape.height();
    room[count] = y * fill.shape.width() + x;
    count + 1
}

// The places beside a pending one are looked at, which is taken off before.
fn fill_around<T: Copy + PartialEq>(
    fill: &Fill<T>,
    cells: &mut [T],
    room: &mut [usize],
    count: usize,
    number: usize,
) -> usize
    requires ready { CanFill fill.now T.eq cells.old count room.old }
    requires inside { number < shape_width fill.now.shape * shape_height fill.now.shape }
    ensures goes_on { (g : Grid T) (left top : ℕ) → g.pixel left top ≡ Some fill.now.seed
        → Flooding g left top fill.now.value (cell_grid fill.now cells.old)
        (to_look_at fill.now count room.old
        ++ beside (number % shape_width fill.now.shape) (number / shape_width fill.now.shape))
        → Flooding g left top fill.now.value (cell_grid fill.now cells.new)
        (to_look_at fill.now result room.new) }
    ensures fills { FillsPlaces fill.now T.eq cells.old count room.old cells.new result room.new }
{
    let width = fill.shape.width();
    let height = fill.shape.height();
    let (x, y) = (number % width, number / width);
    // (known to the compiler from here on, this saves two tests)
    if y >= height {
        return count;
    }
    let above = (x, y.saturating_sub(1));
    let before = (x.saturating_sub(1), y);
    let count = fill_one(fill, cells, room, count, above);
    let count = fill_one(fill, cells, room, count, before);
    let count = fill_one(fill, cells, room, count, (x, y + 1));
    fill_one(fill, cells, room, count, (x + 1, y))
}

// Gives the value to a place that shows the seed, and to each place that is connected with it.
fn fill_from<T: Copy + PartialEq>(
    fill: &Fill<T>,
    cells: &mut [T],
    room: &mut [usize],
    place: (usize, usize),
)
    requires fits { Fits (shaped cells.old fill.now.shape) }
    requires tells { TellsApart T.eq }
    requires other { fill.now.seed ≢ fill.now.value }
    requires shows { (cell_grid fill.now cells.old).pixel place.0 place.1 ≡ Some fill.now.seed }
    requires room { shape_width fill.now.shape * shape_height fill.now.shape ≤ length room.old }
    ensures filled { AreFilled place.0 place.1 fill.now.value (cell_grid fill.now cells.old)
        (cell_grid fill.now cells.new) }
    ensures all { AllFilled place.0 place.1 fill.now.value (cell_grid fill.now cells.old)
        (cell_grid fill.now cells.new) }
    ensures outside { SameOutside (shaped cells.old fill.now.shape)
        (shaped cells.new fill.now.shape) }
{
    let mut count = fill_one(fill, cells, room, 0, place);
    while count > 0 {
        count -= 1;
        let number = room[count];
        count = fill_around(fill, cells, room, count, number);
    }
}

/// Gives `value` to column `x` of row `y`, and to each place that is connected with it. A path
/// leads there over sides, and over places that show the same pixel. The image is cells in a shape,
/// and the padding stays. The work buffer `room` has a number for each place. What it has then is lost.
///
/// # Requires
///
/// The cells fit (`Shape::fits`), `x` is below the width and `y` below the height. The buffer has as
/// many numbers as there are places: compare its length. Two pixels are equal by `==` only if they
/// are the same: compare the fields of a struct, and no floats.
pub fn flood_fill_in<T: Copy + PartialEq>(
    cells: &mut [T],
    shape: Shape,
    room: &mut [usize],
    x: usize,
    y: usize,
    value: T,
)
    requires fits { Fits (shaped cells.old shape) }
    requires column { x < shape_width shape }
    requires row { y < shape_height shape }
    requires tells { TellsApart T.eq }
    requires room { shape_width shape * shape_height shape ≤ length room.old }
    ensures filled { AreFilled x y value (grid_of (shaped cells.old shape))
        (grid_of (shaped cells.new shape)) }
    ensures all { AllFilled x y value (grid_of (shaped cells.old shape))
        (grid_of (shaped cells.new shape)) }
    ensures outside { SameOutside (shaped cells.old shape) (shaped cells.new shape) }
{
    let seed = at(cells, shape, x, y);
    if seed == value {
        return;
    }
    fill_from(&Fill { shape, seed, value }, cells, room, (x, y));
}

/// Gives `value` to column `x` of row `y`, and to each place that is connected with it, as
/// `flood_fill_in` does. The work buffer is allocated.
///
/// # Requires
///
/// The image fits (`is_valid`), `x` is below `width()` and `y` below `height()`. Two pixels are
/// equal by `==` only if they are the same: compare the fields of a struct, and no floats.
///
/// # Errors
///
/// Out of memory. No pixel has changed then (`unchanged`).
pub fn flood_fill<T: Copy + PartialEq>(
    alloc: Global,
    image: &mut ImgVec<T>,
    x: usize,
    y: usize,
    value: T,
) -> Result<(), AllocError>
    requires fits { Fits (vec_layout image.old) }
    requires column { x < width_of image.old }
    requires row { y < height_of image.old }
    requires tells { TellsApart T.eq }
    ensures filled { AreFilled x y value (vec_grid image.old) (vec_grid image.new) }
    ensures all { IfOk result (λ _. AllFilled x y value (vec_grid image.old) (vec_grid image.new)) }
    ensures unchanged { IfErr result (λ _. vec_grid image.new ≡ vec_grid image.old) }
    ensures outside { SameOutside (vec_layout image.old) (vec_layout image.new) }
    ensures fits { Fits (vec_layout image.new) }
{
    let shape = image.shape();
    let mut room = vec![in alloc; 0usize; shape.pixel_count()]?;
    let cells = image.buf_mut().as_mut_slice();
    flood_fill_in(cells, shape, room.as_mut_slice(), x, y, value);
    Ok(())
}
