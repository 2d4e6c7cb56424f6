//! The windows of tiles by their numbers.

use super::fixtures::GREATEST;
use image_tiles::Tiling;

// Left, top, width and height.
type Numbers = [usize; 4];

const HALF: usize = GREATEST / 2 + 1;

// The place of a window that isn't there.
const NONE: Numbers = [0, 0, 0, 0];

// Whether the next window is this one, and how many are left before it.
fn gives(tiles: &mut Tiling, left: usize, due: Numbers) -> bool {
    if tiles.size_hint() != (left, Some(left)) {
        return false;
    }
    match tiles.next() {
        Some(it) => [it.left, it.top, it.width, it.height] == due,
        None => false,
    }
}

// Whether the tiles of a size are these windows and no more, as `next` and `size_hint` tell.
fn has_tiles(sizes: Numbers, windows: &[Numbers]) -> bool {
    let [width, height, tile_width, tile_height] = sizes;
    if tile_width == 0 || tile_height == 0 {
        return false;
    }
    let mut tiles = Tiling::new(width, height, tile_width, tile_height);
    let mut left = windows.len();
    for due in windows.iter() {
        if !gives(&mut tiles, left, *due) {
            return false;
        }
        left = left.saturating_sub(1);
    }
    tiles.size_hint() == (0, Some(0)) && tiles.next().is_none() && tiles.next().is_none()
}

// The sizes of an image and of its tiles, how many tiles there are, and their windows.
const ROWS: [(Numbers, usize, [Numbers; 4]); 14] = [
    // Tiles are cut at the right and the lower edge.
    (
        [3, 3, 2, 2],
        4,
        [[0, 0, 2, 2], [2, 0, 1, 2], [0, 2, 2, 1], [2, 2, 1, 1]],
    ),
    // A size with no place has no tile.
    ([0, 3, 2, 2], 0, [NONE, NONE, NONE, NONE]),
    ([3, 0, 2, 2], 0, [NONE, NONE, NONE, NONE]),
    ([0, 0, 1, 1], 0, [NONE, NONE, NONE, NONE]),
    ([0, GREATEST, 1, 1], 0, [NONE, NONE, NONE, NONE]),
    // Tiles of one pixel, of the whole size, and of more.
    ([2, 1, 1, 1], 2, [[0, 0, 1, 1], [1, 0, 1, 1], NONE, NONE]),
    ([3, 2, 3, 2], 1, [[0, 0, 3, 2], NONE, NONE, NONE]),
    ([3, 2, 4, 3], 1, [[0, 0, 3, 2], NONE, NONE, NONE]),
    ([5, 1, 5, 9], 1, [[0, 0, 5, 1], NONE, NONE, NONE]),
    // Sizes may go up to the end.
    (
        [3, 2, GREATEST, GREATEST],
        1,
        [[0, 0, 3, 2], NONE, NONE, NONE],
    ),
    (
        [3, 2, GREATEST, 1],
        2,
        [[0, 0, 3, 1], [0, 1, 3, 1], NONE, NONE],
    ),
    (
        [GREATEST, GREATEST, HALF, HALF],
        4,
        [
            [0, 0, HALF, HALF],
            [HALF, 0, HALF - 1, HALF],
            [0, HALF, HALF, HALF - 1],
            [HALF, HALF, HALF - 1, HALF - 1],
        ],
    ),
    (
        [GREATEST, 1, GREATEST, GREATEST],
        1,
        [[0, 0, GREATEST, 1], NONE, NONE, NONE],
    ),
    (
        [GREATEST, GREATEST, GREATEST, GREATEST],
        1,
        [[0, 0, GREATEST, GREATEST], NONE, NONE, NONE],
    ),
];

#[test]
fn each_size_has_its_tiles(rt: HostRuntime) {
    for (number, (sizes, count, windows)) in ROWS.iter().enumerate() {
        let is_well = match windows.get(..*count) {
            Some(windows) => has_tiles(*sizes, windows),
            None => false,
        };
        assert!(rt; is_well, "row {number}");
    }
}

#[test]
fn there_may_be_more_tiles_than_a_number_tells(rt: HostRuntime) {
    let mut tiles = Tiling::new(GREATEST, GREATEST, 1, 1);
    assert!(rt; tiles.size_hint() == (GREATEST, None));
    let (first, second) = (tiles.next(), tiles.next());
    let lefts = (first.map(|it| it.left), second.map(|it| it.left));
    assert!(rt; lefts == (Some(0), Some(1)) && tiles.size_hint() == (GREATEST, None));
}
