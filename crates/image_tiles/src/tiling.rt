//! The tiles of a size, as numbers only.

ghost use Rattle.std.specs.Prelude.{◌≡◌, ◌*◌, ◌≤◌, ◌<◌, ◌^◌, ◌∷◌, [], All, IsTrue, not, length, IfSome, None};
ghost use Rattle.image_model.specs.Tiles.{tiles, tile_count, EachPlaceInOne};
ghost use Rattle.image_model.specs.Windows.{IsInside};
ghost use Rattle.imgref.specs.Window.{as_window};

use image_shape::{tile_at, tiles_along};
use imgref::Window;
use std::iter::FusedIterator;

/// The windows that cover a size, in pixels, row by row and from left to right. Their corners are
/// the multiples of the tile size, and they are cut at the right and the lower edge.
#[derive(Drop)]
pub struct Tiling {
    width: usize,
    height: usize,
    tile_width: usize,
    tile_height: usize,
    // How many tiles are side by side, and how many tile rows there are.
    tile_columns: usize,
    tile_rows: usize,
    // Where the next tile is: counted in tiles, so that no sum of corners can overflow.
    tile_column: usize,
    tile_row: usize,
    ghost wide: { 0 < tile_width },
    ghost high: { 0 < tile_height },
    ghost tile_columns_are: { tile_columns ≡ tile_count tile_width width },
    ghost tile_rows_are: { tile_rows ≡ tile_count tile_height height },
    ghost few_tile_columns: { tile_columns ≤ width },
    ghost few_tile_rows: { tile_rows ≤ height },
}

impl Tiling {
    ghost use Rattle.image_tiles.specs.Tiling.{windows_left, stepped, tile_now, has_tile, tiling_width, tiling_height};

    /// The tiles of `tile_width` by `tile_height` pixels of a size. All four numbers may be any
    /// `usize`. A size with no place has no tile.
    ///
    /// # Requires
    ///
    /// Both tile sizes are positive: compare the numbers.
    #[tactic(auto, using(crate::proofs::Tilings::all_left, image_model::proofs::Tiles::tiles_cover, image_model::proofs::Tiles::tiles_inside), unfolding(crate::specs::Tiling::windows_left))]
    pub fn new(width: usize, height: usize, tile_width: usize, tile_height: usize) -> Tiling
        requires tile_width { 0 < tile_width }
        requires tile_height { 0 < tile_height }
        ensures windows { windows_left result ≡ tiles width height tile_width tile_height }
        ensures inside { All (IsInside width height) (windows_left result) }
        ensures each_once { EachPlaceInOne width height (windows_left result) }
        ensures width { tiling_width result ≡ width }
        ensures height { tiling_height result ≡ height }
    {
        Tiling {
            width,
            height,
            tile_width,
            tile_height,
            tile_columns: tiles_along(width, tile_width),
            tile_rows: tiles_along(height, tile_height),
            tile_column: 0,
            tile_row: 0,
        }
    }

    // How many tiles of an image are left: its sizes are below 2 ^ 32, so the number fits.
    #[tactic(auto, using(crate::proofs::Tilings::countable, crate::proofs::Tilings::some_left))]
    pub(crate) fn number_left(&self) -> usize
        requires width_bound { tiling_width self.now < 2 ^ 32 }
        requires height_bound { tiling_height self.now < 2 ^ 32 }
        ensures value { result ≡ length (windows_left self.now) }
        ensures some { 0 < result → IsTrue (has_tile self.now) }
    {
        match self.count_left() {
            Some(left) => left,
            None => usize::MAX,
        }
    }

    // Whether a tile is left.
    #[tactic(auto, unfolding(crate::specs::Tiling::windows_left))]
    pub(crate) fn has_more(&self) -> bool
        ensures value { result ≡ has_tile self.now }
        ensures none { IsTrue (not result) → windows_left self.now ≡ [] }
    {
        self.tile_column < self.tile_columns && self.tile_row < self.tile_rows
    }

    // The next window.
    #[tactic(auto, using(crate::proofs::Tilings::begins))]
    fn window_now(&self) -> Window
        requires more { IsTrue (has_tile self.now) }
        ensures value { as_window result ≡ tile_now self.now }
        ensures some_width { 0 < result.width }
        ensures some_height { 0 < result.height }
    {
        tile_at(
            self.width,
            self.height,
            self.tile_width,
            self.tile_height,
            self.tile_column,
            self.tile_row,
        )
    }

    // Goes on to the next window.
    fn advance(&mut self)
        requires more { IsTrue (has_tile self.old) }
        ensures { self.new ≡ stepped self.old }
    {
        if self.tile_column + 1 < self.tile_columns {
            self.tile_column += 1;
        } else {
            self.tile_column = 0;
            self.tile_row += 1;
        }
    }

    // The next window, which is taken.
    #[tactic(auto, using(crate::proofs::Tilings::goes_on))]
    pub(crate) fn next_window(&mut self) -> Window
        requires more { IsTrue (has_tile self.old) }
        ensures value { as_window result ≡ tile_now self.old }
        ensures steps { self.new ≡ stepped self.old }
        ensures gives { windows_left self.old ≡ as_window result ∷ windows_left self.new }
        ensures inside { IsInside (tiling_width self.old)
            (tiling_height self.old) (as_window result) }
        ensures some_width { 0 < result.width }
        ensures some_height { 0 < result.height }
    {
        let window = self.window_now();
        self.advance();
        window
    }

    // How many tiles are left, where the number fits.
    #[tactic(auto, unfolding(crate::specs::Tiling::windows_left))]
    pub(crate) fn count_left(&self) -> Option<usize>
        ensures some { IfSome result (λ n. n ≡ length (windows_left self.now)) }
        ensures none { result ≡ None → 2 ^ 64 ≤ length (windows_left self.now) }
    {
        if !self.has_more() {
            return Some(0);
        }
        let below = self.tile_rows - self.tile_row - 1;
        match below.checked_mul(self.tile_columns) {
            Some(others) => others.checked_add(self.tile_columns - self.tile_column),
            None => None,
        }
    }
}

impl Iterator for Tiling {
    type Item = Window;

    ghost use Rattle.std.specs.Prelude.{◌≡◌, ◌-◌, ◌≤◌, ◌<◌, ◌^◌, length, Some, None, IfSome};
    ghost use Rattle.std.specs.Iterator.{YieldsFirstBy, item_count, UpTo};
    ghost use Rattle.std.specs.Iterator.SizeHint.{IsWithinCount};
    ghost use Rattle.image_tiles.specs.Tiling.{windows_left};

    ghost next_gives = { YieldsFirstBy as_window windows_left };

    ghost remaining = { item_count windows_left };

    fn next(&mut self) -> Option<Window> {
        if self.has_more() {
            Some(self.next_window())
        } else {
            None
        }
    }

    fn size_hint(&self) -> (usize, Option<usize>)
        ensures lower { IsWithinCount result.0 (item_count windows_left self.now) }
        ensures upper { IfSome result.1 (UpTo (item_count windows_left self.now)) }
        ensures exact { length (windows_left self.now) < 2 ^ 64
            → (result.0 ≡ length (windows_left self.now))
            × (result.1 ≡ Some (length (windows_left self.now))) }
        ensures past { 2 ^ 64 ≤ length (windows_left self.now)
            → (result.0 ≡ 2 ^ 64 - 1) × (result.1 ≡ None) }
    {
        match self.count_left() {
            Some(left) => (left, Some(left)),
            None => (usize::MAX, None),
        }
    }
}

impl FusedIterator for Tiling {}
