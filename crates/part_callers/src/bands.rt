//! A band that is written through `step` of `BandsMut`.

ghost use Rattle.std.specs.Prelude.{◌≡◌, ◌<◌, min};
ghost use Rattle.std.specs.Borrow.{sem, follows, Array};
ghost use Rattle.image_model.specs.Layout.{Fits, SameOutside};
ghost use Rattle.image_model.specs.Grid.{patch, uniform};
ghost use Rattle.imgref.specs.Image.{buf_of, width_of, height_of, stride_of, grid_by, layout_by, with_all};
ghost use Rattle.imgref.specs.contracts.img.Img.{the_row};
ghost use Rattle.image_tiles.specs.Bands.{bands, bands_left, cells_left, spacing_left, band_spacing, bands_name};
ghost use Rattle.part_callers.specs.Bands.{HasFirstBand};

use crate::fills::fill;
use image_tiles::BandsMut;
use imgref::{AsMutSlice, Img};

// The bands of an image.
fn bands_of<'a, C: AsMutSlice>(image: &'a mut Img<C>, band_height: usize) -> BandsMut<'a, C::Item>
    requires fits { Fits (layout_by C.cells image.old) }
    requires band_height { 0 < band_height }
    ensures* lent { sem 𝓛 (follows (the_row C.row) (Array C.Item.row 0) image.entry.ghost_name
        (bands_name result) (with_all C.cells C.with_cells image.old)) }
    ensures cells { cells_left result ≡ C.cells (buf_of image.old) }
    ensures spacing { spacing_left result ≡ band_spacing (width_of image.old) (height_of image.old)
        (stride_of image.old) band_height }
    ensures bands { bands_left result ≡ bands (layout_by C.cells image.old) band_height }
{
    BandsMut::new(image.as_mut(), band_height)
}

// Every pixel of the first band becomes `value`, if there is a band.
fn cover_band<'a, C: AsMutSlice>(image: &'a mut Img<C>, band_height: usize, value: C::Item)
where
    C::Item: Copy + 'a,
    requires fits { Fits (layout_by C.cells image.old) }
    requires band_height { 0 < band_height }
    ensures { HasFirstBand (layout_by C.cells image.old) band_height value
        (layout_by C.cells image.new) }
{
    let mut bands = bands_of(image, band_height);
    if let Some(band) = bands.step() {
        let (cells, shape) = band.into_parts();
        fill(cells, shape, value);
    }
}

/// Every pixel of the first band becomes `value`, through an iterator that is dropped after one
/// band; every other cell stays. An image of height or width 0 stays as it is.
///
/// # Requires
///
/// The image fits (`is_valid`), and `band_height` is positive.
pub fn fill_first_band<'a, C: AsMutSlice>(image: &'a mut Img<C>, band_height: usize, value: C::Item)
where
    C::Item: Copy + 'a,
    requires fits { Fits (layout_by C.cells image.old) }
    requires band_height { 0 < band_height }
    ensures grid { grid_by C.cells image.new ≡ patch (grid_by C.cells image.old) 0 0
        (uniform (width_of image.old) (min band_height (height_of image.old)) value) }
    ensures outside { SameOutside (layout_by C.cells image.old) (layout_by C.cells image.new) }
{
    cover_band(image, band_height, value);
}
