//! An image in another size, by nearest neighbours.

ghost use Rattle.std.specs.Prelude.{◌≡◌, ◌<◌, ◌*◌, ◌/◌, ◌^◌};
ghost use Rattle.imgref.specs.Words.{Fits, SameBorrow, SameOutside, height_of, mapped_places, mut_grid, mut_layout, ref_grid, ref_layout, scaled, shown, width_of};

use imgref::{ImgRef, ImgRefMut};

// The pixel at a place, or 0.
pub(crate) fn at(image: ImgRef<'_, u8>, x: usize, y: usize) -> u8
    requires { Fits (ref_layout image) }
    ensures { result ≡ shown (ref_grid image.entry) x y }
{
    image.get(x, y).unwrap_or(0)
}

// The place of `from` that is as far in as `k` is of `to`.
fn scaled_place(k: usize, from: usize, to: usize) -> usize
    requires below { k < to }
    requires some { 0 < from }
    requires from_bound { from < 2 ^ 32 }
    requires to_bound { to < 2 ^ 32 }
    ensures value { result ≡ scaled k from to }
    ensures inside { result < from }
{
    k * from / to
}

/// Fills `target` with `source`, scaled to its size: each place shows the nearest pixel to the left
/// and above.
pub fn resize_nearest(source: ImgRef<'_, u8>, target: &mut ImgRefMut<'_, u8>)
    requires source_fits { Fits (ref_layout source) }
    requires target_fits { Fits (mut_layout target.old) }
    requires columns { 0 < width_of source }
    requires rows { 0 < height_of source }
    ensures grid { mut_grid target.new ≡ mapped_places (λ x y _. shown (ref_grid source.entry)
        (scaled x (width_of source.entry) (width_of target.old))
        (scaled y (height_of source.entry) (height_of target.old))) (mut_grid target.old) }
    ensures outside { SameOutside (mut_layout target.old) (mut_layout target.new) }
    ensures same_borrow { SameBorrow target.old target.new }
{
    let (columns, rows) = (source.width(), source.height());
    let (width, height) = (target.width(), target.height());
    target.map_places(|x, y, _| at(
        source,
        scaled_place(x, columns, width),
        scaled_place(y, rows, height),
    ));
}
