//! Where the tiles of a size begin, and how many there are.

ghost use Rattle.std.specs.Prelude.{◌≡◌, ◌*◌, ◌≤◌, ◌<◌};
ghost use Rattle.image_model.specs.Tiles.{tile, tile_count};
ghost use Rattle.image_shape.specs.Window.{as_window};

use crate::window::Window;

/// How many tiles begin below a length, in pixels.
///
/// # Requires
///
/// The tile's length is positive: compare the numbers.
pub fn tiles_along(len: usize, tile: usize) -> usize
    requires { 0 < tile }
    ensures value { result ≡ tile_count tile len }
    ensures few { result ≤ len }
{
    if len == 0 { 0 } else { (len - 1) / tile + 1 }
}

/// The tile in tile column `column` of tile row `row` of a size. Its corner is a multiple of the
/// tile size, and it is cut at the right and the lower edge.
///
/// # Requires
///
/// Both tile sizes are positive, and the tile's corner is inside: compare the numbers.
pub fn tile_at(
    width: usize,
    height: usize,
    tile_width: usize,
    tile_height: usize,
    column: usize,
    row: usize,
) -> Window
    requires tile_width { 0 < tile_width }
    requires tile_height { 0 < tile_height }
    requires column_inside { column * tile_width < width }
    requires row_inside { row * tile_height < height }
    ensures value { as_window result ≡ tile width height tile_width tile_height column row }
    ensures some_width { 0 < result.width }
    ensures some_height { 0 < result.height }
{
    let left = column * tile_width;
    let top = row * tile_height;
    Window::new(
        left,
        top,
        tile_width.min(width - left),
        tile_height.min(height - top),
    )
}
