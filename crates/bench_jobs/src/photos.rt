//! Images of random pixels, padding included.

ghost use Rattle.std.specs.Prelude.{◌≡◌, IfOk, ◌<◌, ◌≤◌, ◌^◌, ◌*◌};
ghost use Rattle.image_model.specs.Layout.{Fits};
ghost use Rattle.imgref.specs.Image.{width_of, height_of, stride_of, vec_layout};

use crate::digest::Digest;
use crate::numbers::Numbers;
use crate::request::Fault;
use imgref::ImgVec;
use std::alloc::Global;

/// A pixel that the jobs use.
pub(crate) trait Pixel: Copy + Eq {
    /// Any pixel.
    fn any() -> Self;

    /// A pixel of the low bits of a number.
    fn of(number: u64) -> Self;

    /// The pixel as a number.
    fn number(self) -> u64;

    /// Adds pixels to a digest.
    fn add(cells: &[Self], digest: &mut Digest);
}

impl Pixel for u8 {
    fn any() -> u8 {
        0
    }

    fn of(number: u64) -> u8 {
        (number & 255) as u8
    }

    fn number(self) -> u64 {
        u64::from(self)
    }

    fn add(cells: &[u8], digest: &mut Digest) {
        digest.add_bytes(cells);
    }
}

impl Pixel for u32 {
    fn any() -> u32 {
        0
    }

    fn of(number: u64) -> u32 {
        (number & 0xffffffff) as u32
    }

    fn number(self) -> u64 {
        u64::from(self)
    }

    fn add(cells: &[u32], digest: &mut Digest) {
        digest.add_words(cells);
    }
}

impl Pixel for [u8; 3] {
    fn any() -> [u8; 3] {
        [0; 3]
    }

    fn of(number: u64) -> [u8; 3] {
        let [red, green, blue, _, _, _, _, _] = number.to_le_bytes();
        [red, green, blue]
    }

    fn number(self) -> u64 {
        let [red, green, blue] = self;
        u64::from_le_bytes([red, green, blue, 0, 0, 0, 0, 0])
    }

    fn add(cells: &[[u8; 3]], digest: &mut Digest) {
        for cell in cells {
            digest.add(cell.number());
        }
    }
}

// How many cells get random pixels of their own.
const SCATTERED: usize = 16384;

/// Writes random pixels. The first cells get their own. Those after them are copies of cells before,
/// one cell further, so that making input takes little of the time.
pub(crate) fn scatter<T: Pixel>(cells: &mut [T], numbers: &mut Numbers) {
    let len = cells.len();
    let mut done = SCATTERED.min(len);
    for cell in &mut cells[..done] {
        *cell = T::of(numbers.next());
    }
    for _ in 0..64 {
        if done < 2 || done >= len {
            break;
        }
        let (front, back) = cells.split_at_mut(done);
        let count = (done - 1).min(len - done);
        back[..count].copy_from_slice(&front[1..1 + count]);
        done += count;
    }
}

/// An image of this size whose cells are random. Its last row ends with whole padding.
pub(crate) fn photo<T: Pixel>(
    alloc: Global,
    numbers: &mut Numbers,
    width: usize,
    height: usize,
    stride: usize,
) -> Result<ImgVec<T>, Fault>
    ensures fits { IfOk result (λ image. Fits (vec_layout image)) }
    ensures width { IfOk result (λ image. width_of image ≡ width) }
    ensures height { IfOk result (λ image. height_of image ≡ height) }
{
    let most = 65536;
    if stride == 0 || width > stride || stride > most || height > 16 * most {
        return Err(Fault::Input);
    }
    let mut cells = vec![in alloc; T::any(); stride * height]?;
    scatter(&mut cells, numbers);
    let image = ImgVec::new_stride(cells, width, height, stride);
    if !image.is_valid() {
        return Err(Fault::Input);
    }
    Ok(image)
}

/// Adds the cells of an image to a digest, padding included.
pub(crate) fn add_image<T: Pixel>(digest: &mut Digest, image: &ImgVec<T>) {
    T::add(image.buf(), digest);
}
