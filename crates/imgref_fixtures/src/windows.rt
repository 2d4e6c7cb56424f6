//! The windows of small images, and the nine cells after one window is written.

use crate::PADDED;
use imgref::Window;

// Each of the 256 windows with numbers from 0 to 3.
pub fn numbered(number: usize) -> Window {
    Window::new(number % 4, number / 4 % 4, number / 16 % 4, number / 64 % 4)
}

// Left, top, width and height, as the calls of an image take them.
pub fn numbers_of(window: Window) -> (usize, usize, usize, usize) {
    (window.left, window.top, window.width, window.height)
}

// The place in a window of a cell of its image, by the cell's number, where it is a pixel there.
pub fn place_in(window: Window, stride: usize, at: usize) -> Option<(usize, usize)> {
    let x = (at % stride.max(1)).checked_sub(window.left)?;
    let y = (at / stride.max(1)).checked_sub(window.top)?;
    if x < window.width && y < window.height {
        Some((x, y))
    } else {
        None
    }
}

// Whether these cells are those of `PADDED`, except 0 in a window.
pub fn are_filled(cells: &[u8], window: Window) -> bool {
    for (at, cell) in cells.iter().enumerate() {
        let due = match place_in(window, 4, at) {
            Some(_) => Some(&0),
            None => PADDED.get(at),
        };
        if Some(cell) != due {
            return false;
        }
    }
    cells.len() == 9
}

// Whether these cells are those of `PADDED`, except 0 in so many from the first of these on.
pub fn are_cleared(cells: &[u8], first: usize, count: usize) -> bool {
    for (at, cell) in cells.iter().enumerate() {
        let is_written = at >= first && at.saturating_sub(first) < count;
        let due = if is_written { Some(&0) } else { PADDED.get(at) };
        if Some(cell) != due {
            return false;
        }
    }
    cells.len() == 9
}
