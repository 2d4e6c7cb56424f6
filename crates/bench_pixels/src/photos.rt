//! Images of pixels of three cells next to one another, of random bytes.

use crate::digest::Digest;
use crate::numbers::Numbers;
use crate::request::{Fault, Size};
use image_shape::{Shape, Window};
use std::alloc::Global;

/// How many cells a pixel has.
pub(crate) const CHANNELS: usize = 3;

/// An image: its cells, their shape, and how many pixels a row has.
#[derive(Drop)]
pub(crate) struct Photo {
    pub(crate) cells: Vec<u8>,
    pub(crate) shape: Shape,
    pub(crate) columns: usize,
}

// How many cells get random bytes of their own. Those after them are copies, so that making input
// takes little of the time.
const SCATTERED: usize = 16384;

fn scatter(cells: &mut [u8], numbers: &mut Numbers) {
    let len = cells.len();
    let mut done = SCATTERED.min(len);
    for cell in &mut cells[..done] {
        *cell = (numbers.next() & 255) as u8;
    }
    for _ in 0..64 {
        if done < 2 || done >= len {
            break;
        }
        let (front, back) = cells.split_at_mut(done);
        let count = (done - 1).min(len - done);
        back[..count].copy_from_slice(&front[1..1 + count]);
        done += count;
    }
}

impl Photo {
    /// An image of so many columns and rows of random pixels. Each row ends with `padding` cells.
    pub(crate) fn new(
        alloc: Global,
        numbers: &mut Numbers,
        columns: usize,
        rows: usize,
        padding: usize,
    ) -> Result<Photo, Fault> {
        let width = columns.saturating_mul(CHANNELS);
        let stride = width.saturating_add(padding);
        let Some(shape) = Shape::checked(width, rows, stride) else {
            return Err(Fault::Input);
        };
        let mut cells = vec![in alloc; 0u8; stride.saturating_mul(rows)]?;
        scatter(cells.as_mut_slice(), numbers);
        Ok(Photo {
            cells,
            shape,
            columns,
        })
    }

    /// The window of all of it but so many pixels on each side, in cells.
    pub(crate) fn inner(&self, border: usize) -> Window {
        let columns = self.columns.saturating_sub(border.saturating_mul(2));
        let rows = self.shape.height().saturating_sub(border.saturating_mul(2));
        let left = border.saturating_mul(CHANNELS);
        Window::new(left, border, columns.saturating_mul(CHANNELS), rows)
    }

    /// Adds the cells to a digest, padding included.
    pub(crate) fn add_to(&self, digest: &mut Digest) {
        digest.add_bytes(&self.cells);
    }
}

/// The sizes of images, as columns, rows and padding, and how often each goes through a job.
pub(crate) fn sizes(size: Size) -> [(usize, usize, usize, usize); 4] {
    match size {
        Size::Full => [
            (16, 16, 0, 16384),
            (250, 120, 5, 128),
            (1024, 1024, 0, 4),
            (2000, 1500, 96, 2),
        ],
        Size::Small => [
            (16, 16, 0, 2),
            (25, 12, 5, 2),
            (40, 40, 0, 1),
            (65, 3, 7, 1),
        ],
    }
}
