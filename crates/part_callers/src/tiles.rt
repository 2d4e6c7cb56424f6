//! A tile that is written through `next_tile`.

ghost use Rattle.std.specs.Prelude.{◌≡◌, ◌<◌, ◌∷◌, length};
ghost use Rattle.std.specs.Borrow.{sem, follows, Array};
ghost use Rattle.image_model.specs.Layout.{Fits, SameOutside};
ghost use Rattle.image_model.specs.Grid.{patch, uniform};
ghost use Rattle.imgref.specs.Shape.{shaped};
ghost use Rattle.imgref.specs.Image.{grid_by, layout_by};
ghost use Rattle.image_tiles.specs.Tiling.{tile_now};
ghost use Rattle.image_tiles.specs.Lending.{image_of, tiling_of, after_tile, tiles_left};
ghost use Rattle.image_tiles.specs.contracts.tiles.TileCursor.{the_row};
ghost use Rattle.part_callers.specs.Tiles.{IsTile};

use crate::fills::fill;
use image_tiles::TileCursor;
use imgref::{AsMutSlice, Shape};

// The next tile, as its cells and its shape.
fn tile_parts<C: AsMutSlice>(tiles: &mut TileCursor<C>) -> (&mut [C::Item], Shape)
    requires more { 0 < length (tiles_left C.cells tiles.old) }
    ensures* hands_on { sem 𝓛 (follows (the_row C.row) (Array C.Item.row 0) tiles.entry.ghost_name
        result.0.ghost_name (after_tile C.cells C.with_cells C.padded_windows tiles.old)) }
    ensures tile { IsTile C.cells C.with_cells C.padded_windows tiles.old
        (shaped result.0.now result.1) }
{
    match tiles.next_tile() {
        Some(tile) => tile.into_parts(),
        None => (&mut [], Shape::new(0, 0, 1)),
    }
}

/// Every pixel of the next tile becomes `value`, through `next_tile`; every other cell of the image
/// stays. The tiles after it are left.
///
/// # Requires
///
/// A tile is left: `remaining()` isn't 0.
pub fn fill_next_tile<'a, C: AsMutSlice>(tiles: &'a mut TileCursor<C>, value: C::Item)
where
    C::Item: Copy + 'a,
    requires more { 0 < length (tiles_left C.cells tiles.old) }
    ensures grid { grid_by C.cells (image_of tiles.new)
        ≡ patch (grid_by C.cells (image_of tiles.old))
        (tile_now (tiling_of tiles.old)).left (tile_now (tiling_of tiles.old)).top
        (uniform (tile_now (tiling_of tiles.old)).width
        (tile_now (tiling_of tiles.old)).height value) }
    ensures outside { SameOutside (layout_by C.cells (image_of tiles.old))
        (layout_by C.cells (image_of tiles.new)) }
    ensures fits { Fits (layout_by C.cells (image_of tiles.new)) }
    ensures rest { tiles_left C.cells tiles.old
        ≡ tile_now (tiling_of tiles.old) ∷ tiles_left C.cells tiles.new }
{
    let (cells, shape) = tile_parts(tiles);
    fill(cells, shape, value);
}
