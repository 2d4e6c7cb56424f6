//! Every small window in every small window, for reading and for writing.

use imgref::{ImgRef, ImgRefMut};
use imgref_fixtures::{PADDED, are_cleared, are_filled, numbered};
use imgref_replay::{Window, into_window_at, window_at};

// Each cell has its number plus 1.
const CELLS: [u8; 13] = [1, 2, 3, 4, 5, 6, 7, 8, 9, 10, 11, 12, 13];

fn is_in(window: Window, width: usize, height: usize) -> bool {
    window.left.saturating_add(window.width) <= width
        && window.top.saturating_add(window.height) <= height
}

// The number of a cell by column and line.
fn number_of(x: usize, y: usize, stride: usize) -> usize {
    y.saturating_mul(stride).saturating_add(x)
}

// The first cell of a window, and its whole strides where so many cells are there, else the cells
// to its last pixel: none, where it has no pixel.
fn stretch_in(room: usize, stride: usize, window: Window) -> (usize, usize) {
    if window.width == 0 || window.height == 0 {
        return (0, 0);
    }
    let first = number_of(window.left, window.top, stride);
    let whole = window.height.saturating_mul(stride);
    if first.saturating_add(whole) <= room {
        return (first, whole);
    }
    let last = number_of(window.width, window.height.saturating_sub(1), stride);
    (first, last)
}

// The same of a window in a window.
fn nested_stretch(room: usize, stride: usize, outer: Window, inner: Window) -> (usize, usize) {
    let (first, room) = stretch_in(room, stride, outer);
    let (next, count) = stretch_in(room, stride, inner);
    (first.saturating_add(next), count)
}

// A window in a window of a 3 by 2 image as one of the image, or else the first one outside.
fn summed(outer: Window, inner: Window) -> Result<Window, usize> {
    if !is_in(outer, 3, 2) {
        return Err(0);
    }
    if !is_in(inner, outer.width, outer.height) {
        return Err(1);
    }
    Ok(Window {
        left: outer.left.saturating_add(inner.left),
        top: outer.top.saturating_add(inner.top),
        ..inner
    })
}

// Whether an image has the pixels of this window by their places, and none beside them.
fn has_pixels(found: ImgRef<'_, u8>, window: Window) -> bool {
    if !found.is_valid() {
        return false;
    }
    for y in 0..window.height.saturating_add(1) {
        for x in 0..window.width.saturating_add(1) {
            let column = window.left.saturating_add(x);
            let line = window.top.saturating_add(y);
            let pixel = if x < window.width && y < window.height {
                CELLS.get(number_of(column, line, found.stride())).copied()
            } else {
                None
            };
            if found.get(x, y) != pixel {
                return false;
            }
        }
    }
    true
}

// Whether what a path leads to has the size and the pixels of this window, and these cells.
fn shows(found: ImgRef<'_, u8>, window: Window, stretch: (usize, usize)) -> bool {
    let (first, count) = stretch;
    let cells = CELLS.get(first..first.saturating_add(count));
    found.width() == window.width
        && found.height() == window.height
        && cells == Some(*found.buf())
        && has_pixels(found, window)
}

// Whether a path leads to this window, or else this one is its first window outside.
fn leads(
    image: ImgRef<'_, u8>,
    path: &[Window],
    due: Result<Window, usize>,
    stretch: (usize, usize),
) -> bool {
    if !image.is_valid() {
        return false;
    }
    match window_at(image, path) {
        Ok(found) => match due {
            Ok(window) => found.stride() == image.stride() && shows(found, window, stretch),
            Err(_) => false,
        },
        Err(index) => due.err() == Some(index),
    }
}

#[test]
fn each_window_in_a_window_is_read(rt: HostRuntime) {
    let image = ImgRef::new_stride(PADDED.as_slice(), 3, 2, 4);
    let mut pairs = 0u32;
    for number in 0..65536usize {
        let (outer, inner) = (numbered(number / 256), numbered(number % 256));
        let due = summed(outer, inner);
        let stretch = nested_stretch(9, 4, outer, inner);
        assert!(rt;
            leads(image, &[outer, inner], due, stretch),
            "pair {number}"
        );
        if due.is_ok() {
            pairs = pairs.saturating_add(1);
        }
    }
    assert!(rt; pairs == 525);
}

// Whether each window of an image of so many cells is seen, where it fits, and else is outside.
fn shows_windows(count: usize, size: [usize; 3]) -> bool {
    let [width, height, stride] = size;
    if stride < 1 || width > stride || width > 3 || height > 3 {
        return false;
    }
    let Some(cells) = CELLS.get(..count) else {
        return false;
    };
    let image = ImgRef::new_stride(cells, width, height, stride);
    let last = number_of(width, height.saturating_sub(1), stride);
    let least = if width == 0 || height == 0 { 0 } else { last };
    if count < least {
        return !image.is_valid();
    }
    for number in 0..256usize {
        let window = numbered(number);
        let due = if is_in(window, width, height) {
            Ok(window)
        } else {
            Err(0)
        };
        if !leads(image, &[window], due, stretch_in(count, stride, window)) {
            return false;
        }
    }
    true
}

// The buffers go up to one cell after whole strides.
#[test]
fn each_window_of_every_small_image_is_read(rt: HostRuntime) {
    for number in 0..64usize {
        let size = [number % 4, number / 4 % 4, number / 16 + 1];
        for count in 0..14usize {
            if size[0] <= size[2] && count <= number_of(1, size[1], size[2]) {
                assert!(rt; shows_windows(count, size), "{count} cells, shape {number}");
            }
        }
    }
}

// The cells of PADDED once the pixels of what a path leads to are 0, or all its cells.
fn written(path: &[Window], is_whole: bool) -> [u8; 9] {
    let mut cells = PADDED;
    let image = ImgRefMut::new_stride(cells.as_mut_slice(), 3, 2, 4);
    if image.is_valid() {
        if let Ok(mut found) = into_window_at(image, path) {
            if is_whole {
                found.into_buf().fill(0);
            } else {
                found.fill(0);
            }
        }
    }
    cells
}

// Whether a path leads to this window for writing too, or else this one is its first window outside.
fn lends(path: &[Window], due: Result<Window, usize>, stretch: (usize, usize)) -> bool {
    let mut cells = PADDED;
    let image = ImgRefMut::new_stride(cells.as_mut_slice(), 3, 2, 4);
    if !image.is_valid() {
        return false;
    }
    match into_window_at(image, path) {
        Ok(found) => match due {
            Ok(window) => shows(found.as_ref(), window, stretch),
            Err(_) => false,
        },
        Err(index) => due.err() == Some(index),
    }
}

#[test]
fn each_window_in_a_window_is_written(rt: HostRuntime) {
    for number in 0..65536usize {
        let path = [numbered(number / 256), numbered(number % 256)];
        let due = summed(path[0], path[1]);
        let stretch = nested_stretch(9, 4, path[0], path[1]);
        assert!(rt; lends(&path, due, stretch), "pair {number}");
        let (filled, cleared) = (written(&path, false), written(&path, true));
        let is_well = match due {
            Ok(window) => {
                are_filled(&filled, window) && are_cleared(&cleared, stretch.0, stretch.1)
            }
            Err(_) => filled == PADDED && cleared == PADDED,
        };
        assert!(rt; is_well, "pair {number}");
    }
}
