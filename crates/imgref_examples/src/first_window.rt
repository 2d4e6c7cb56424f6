//! What to read first: an image over cells, a write through a window of it, and a read.

use imgref::Img;

/// Writes 7 through a window of an image of these cells, and reads the pixel back through the image.
pub fn write_through_window(cells: &mut [u8; 9]) -> Option<u8> {
    let mut image = Img::new_stride(cells.as_mut_slice(), 3, 2, 4); // 3 by 2 pixels, stride 4
    let mut window = image.sub_image_mut(1, 0, 2, 2); // columns 1 and 2: a view, not a copy
    window.put(0, 1, 7); // column 0 of row 1 of the window
    let image = Img::new_stride(cells.as_slice(), 3, 2, 4); // the same cells, for reading
    image.get(1, 1) // column 1 of row 1 of the image
}
