//! Fills of rows: by their number, and through an iterator that ends early.

ghost use Rattle.std.specs.Prelude.{◌≡◌, ◌-◌, ◌<◌, length, replicate};
ghost use Rattle.image_model.specs.Layout.{Fits, SameOutside};
ghost use Rattle.image_model.specs.Grid.{patch, uniform};
ghost use Rattle.imgref.specs.Image.{width_of, height_of, grid_by, layout_by, OnlyCellsChange, with_all};
ghost use Rattle.imgref_examples.specs.Rows.{with_last_row};

use imgref::{AsMutSlice, End, Img};

// Every cell becomes `value`. The slice's own `fill` asks for a `clone` that cannot fail.
#[tactic(auto, using(std::proofs::lemmas::List::take_more_set, std::proofs::lemmas::List::replicate_more, std::proofs::lemmas::List::take_all))]
fn fill_row<T: Copy>(row: &mut [T], value: T)
    ensures { row.new ≡ replicate (length row.old) value }
{
    for i in 0..row.len() {
        row[i] = value;
    }
}

/// Every pixel of row `y` becomes `value`, and every other cell stays. The image must fit
/// (`is_valid`).
#[tactic(auto, using(image_model::proofs::OneRow::one_row_of_one))]
pub fn fill_row_at<'a, C: AsMutSlice>(image: &'a mut Img<C>, y: usize, value: C::Item)
where
    C::Item: Copy + 'a,
    requires fits { Fits (layout_by C.cells image.old) }
    requires row { y < height_of image.old }
    ensures grid { grid_by C.cells image.new
        ≡ patch (grid_by C.cells image.old) 0 y (uniform (width_of image.old) 1 value) }
    ensures outside { SameOutside (layout_by C.cells image.old) (layout_by C.cells image.new) }
{
    let _width = image.width();
    fill_row(image.row_mut(y), value);
}

// The last row becomes `value`, and every other cell stays.
fn cover_last<'a, C: AsMutSlice>(image: &'a mut Img<C>, value: C::Item)
where
    C::Item: Copy + 'a,
    requires fits { Fits (layout_by C.cells image.old) }
    ensures { image.new ≡ with_all C.cells C.with_cells image.old
        (with_last_row (layout_by C.cells image.old) value) }
{
    let mut rows = image.rows_mut();
    if let Some(row) = rows.step(End::Last) {
        fill_row(row, value);
    }
}

/// Every pixel of the last row becomes `value`, through an iterator that is dropped after one row;
/// every other cell stays. An image of height or width 0 stays as it is. The image must fit
/// (`is_valid`).
pub fn fill_last_row<'a, C: AsMutSlice>(image: &'a mut Img<C>, value: C::Item)
where
    C::Item: Copy + 'a,
    requires fits { Fits (layout_by C.cells image.old) }
    ensures grid { grid_by C.cells image.new ≡ patch (grid_by C.cells image.old) 0
        (height_of image.old - 1) (uniform (width_of image.old) 1 value) }
    ensures outside { SameOutside (layout_by C.cells image.old) (layout_by C.cells image.new) }
    ensures container { OnlyCellsChange C.cells C.with_cells image.old image.new }
{
    let _width = image.width();
    cover_last(image, value);
}
