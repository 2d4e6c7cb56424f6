//! What the benchmark calls for pixels of one byte. The file for pixels of four bytes is a copy of
//! this one, which `make exports` writes.

ghost use Rattle.std.specs.Prelude.{◌<◌, ◌^◌};
ghost use Rattle.bench_exports.specs.Cells.{IsImage};

use crate::{reading, writing};
use imgref::{Img, ImgRefMut, ImgVec, Shape, Turn};
use std::alloc::Global;

/// The sum of the pixels, row by row.
#[unsafe(no_mangle)]
pub extern "C" fn bench_u8_rows(cells: &[u8], width: usize, height: usize, stride: usize) -> u64
    requires image { IsImage cells.now width height stride }
{
    reading::rows(&Img::new_stride(cells, width, height, stride))
}

/// The sum of the pixels, by one loop over all of them.
#[unsafe(no_mangle)]
pub extern "C" fn bench_u8_pixels(cells: &[u8], width: usize, height: usize, stride: usize) -> u64
    requires image { IsImage cells.now width height stride }
{
    reading::pixels(&Img::new_stride(cells, width, height, stride))
}

/// The sum of the pixels by their places.
#[unsafe(no_mangle)]
pub extern "C" fn bench_u8_get(cells: &[u8], width: usize, height: usize, stride: usize) -> u64
    requires image { IsImage cells.now width height stride }
{
    reading::get(
        &Img::new_stride(cells, width, height, stride),
        width,
        height,
    )
}

/// The sum of the pixels by their places, which are tested once.
#[unsafe(no_mangle)]
pub extern "C" fn bench_u8_index(cells: &[u8], width: usize, height: usize, stride: usize) -> u64
    requires image { IsImage cells.now width height stride }
{
    reading::index(
        &Img::new_stride(cells, width, height, stride),
        width,
        height,
    )
}

/// The sum of a window of a window.
#[unsafe(no_mangle)]
pub extern "C" fn bench_u8_nested(cells: &[u8], width: usize, height: usize, stride: usize) -> u64
    requires image { IsImage cells.now width height stride }
{
    reading::nested(&Img::new_stride(cells, width, height, stride))
}

/// The hash of the image.
#[unsafe(no_mangle)]
pub extern "C" fn bench_u8_hash(cells: &[u8], width: usize, height: usize, stride: usize) -> u64
    requires image { IsImage cells.now width height stride }
{
    reading::hash(&Img::new_stride(cells, width, height, stride))
}

/// The number of cells of the joined rows, whose memory is freed at once.
#[unsafe(no_mangle)]
pub extern "C" fn bench_u8_to_contiguous_buf(
    alloc: Global,
    cells: &[u8],
    width: usize,
    height: usize,
    stride: usize,
) -> usize
    requires image { IsImage cells.now width height stride }
{
    reading::to_contiguous_buf(alloc, &Img::new_stride(cells, width, height, stride))
}

/// Every pixel becomes 7, by one loop over all of them.
#[unsafe(no_mangle)]
pub extern "C" fn bench_u8_pixels_mut(cells: &mut [u8], width: usize, height: usize, stride: usize)
    requires image { IsImage cells.old width height stride }
{
    writing::pixels_mut(cells, Shape::new(width, height, stride), 7);
}

/// Every pixel becomes 7, tile by tile.
#[unsafe(no_mangle)]
pub extern "C" fn bench_u8_tiles(cells: &mut [u8], width: usize, height: usize, stride: usize)
    requires image { IsImage cells.old width height stride }
{
    writing::tiles(cells, Shape::new(width, height, stride), 7);
}

/// Every pixel becomes 7, band by band.
#[unsafe(no_mangle)]
pub extern "C" fn bench_u8_bands(cells: &mut [u8], width: usize, height: usize, stride: usize)
    requires image { IsImage cells.old width height stride }
{
    writing::bands(cells, Shape::new(width, height, stride), 7);
}

/// Every bit of every pixel is inverted.
#[unsafe(no_mangle)]
pub extern "C" fn bench_u8_map_pixels(cells: &mut [u8], width: usize, height: usize, stride: usize)
    requires image { IsImage cells.old width height stride }
{
    let mut image: ImgRefMut<'_, u8> = Img::new_stride(cells, width, height, stride);
    image.map_pixels(|pixel: u8| !pixel);
}

/// Rows `y` and `z` are exchanged.
#[unsafe(no_mangle)]
pub extern "C" fn bench_u8_swap_rows(
    cells: &mut [u8],
    width: usize,
    height: usize,
    stride: usize,
    y: usize,
    z: usize,
)
    requires image { IsImage cells.old width height stride }
    requires first { y < height }
    requires second { z < height }
{
    let mut image: ImgRefMut<'_, u8> = Img::new_stride(cells, width, height, stride);
    image.swap_rows(y, z);
}

/// Every pixel becomes the exclusive or of it, its column and its row.
#[unsafe(no_mangle)]
pub extern "C" fn bench_u8_map_places(cells: &mut [u8], width: usize, height: usize, stride: usize)
    requires image { IsImage cells.old width height stride }
{
    let mut image: ImgRefMut<'_, u8> = Img::new_stride(cells, width, height, stride);
    image.map_places(|x: usize, y: usize, pixel: u8| pixel ^ ((x ^ y) % 256) as u8);
}

/// Every pixel becomes the greater one of it and the source's pixel at its place.
#[unsafe(no_mangle)]
pub extern "C" fn bench_u8_zip_pixels(
    cells: &mut [u8],
    width: usize,
    height: usize,
    stride: usize,
    source: &[u8],
    source_stride: usize,
)
    requires image { IsImage cells.old width height stride }
    requires source { IsImage source.now width height source_stride }
{
    let mut image: ImgRefMut<'_, u8> = Img::new_stride(cells, width, height, stride);
    image.zip_pixels(
        Img::new_stride(source, width, height, source_stride),
        |p: u8, q: u8| if p < q { q } else { p },
    );
}

/// The number of pixels of an image that is made from its places, whose memory is freed at once.
#[unsafe(no_mangle)]
pub extern "C" fn bench_u8_from_places(alloc: Global, width: usize, height: usize) -> usize
    requires width_bound { width < 2 ^ 32 }
    requires height_bound { height < 2 ^ 32 }
{
    match ImgVec::from_places(
        alloc,
        width,
        height,
        |x: usize, y: usize| ((x ^ y) % 256) as u8,
    ) {
        Ok(image) => image.into_buf().len(),
        Err(_) => 0,
    }
}

/// The image upside down.
#[unsafe(no_mangle)]
pub extern "C" fn bench_u8_flip_rows(cells: &mut [u8], width: usize, height: usize, stride: usize)
    requires image { IsImage cells.old width height stride }
{
    let mut image: ImgRefMut<'_, u8> = Img::new_stride(cells, width, height, stride);
    image.flip_rows();
}

/// The image mirrored.
#[unsafe(no_mangle)]
pub extern "C" fn bench_u8_flip_columns(
    cells: &mut [u8],
    width: usize,
    height: usize,
    stride: usize,
)
    requires image { IsImage cells.old width height stride }
{
    let mut image: ImgRefMut<'_, u8> = Img::new_stride(cells, width, height, stride);
    image.flip_columns();
}

/// The first and the last column are exchanged.
#[unsafe(no_mangle)]
pub extern "C" fn bench_u8_swap_columns(
    cells: &mut [u8],
    width: usize,
    height: usize,
    stride: usize,
)
    requires image { IsImage cells.old width height stride }
    requires some { 0 < width }
{
    let mut image: ImgRefMut<'_, u8> = Img::new_stride(cells, width, height, stride);
    image.swap_columns(0, width - 1);
}

/// The source transposed, a square.
#[unsafe(no_mangle)]
pub extern "C" fn bench_u8_transpose_into(
    cells: &mut [u8],
    side: usize,
    stride: usize,
    source: &[u8],
    source_stride: usize,
)
    requires image { IsImage cells.old side side stride }
    requires source { IsImage source.now side side source_stride }
{
    let mut image: ImgRefMut<'_, u8> = Img::new_stride(cells, side, side, stride);
    Img::new_stride(source, side, side, source_stride).transpose_into(&mut image);
}

/// The source turned by a quarter, a square.
#[unsafe(no_mangle)]
pub extern "C" fn bench_u8_turn_into(
    cells: &mut [u8],
    side: usize,
    stride: usize,
    source: &[u8],
    source_stride: usize,
)
    requires image { IsImage cells.old side side stride }
    requires source { IsImage source.now side side source_stride }
{
    let mut image: ImgRefMut<'_, u8> = Img::new_stride(cells, side, side, stride);
    Img::new_stride(source, side, side, source_stride).turn_into(&mut image, Turn::Right);
}

/// The source turned by a half, a square.
#[unsafe(no_mangle)]
pub extern "C" fn bench_u8_half_turn(
    cells: &mut [u8],
    side: usize,
    stride: usize,
    source: &[u8],
    source_stride: usize,
)
    requires image { IsImage cells.old side side stride }
    requires source { IsImage source.now side side source_stride }
{
    let mut image: ImgRefMut<'_, u8> = Img::new_stride(cells, side, side, stride);
    Img::new_stride(source, side, side, source_stride).turn_into(&mut image, Turn::Half);
}

/// The image transposed in place, a square.
#[unsafe(no_mangle)]
pub extern "C" fn bench_u8_transpose(cells: &mut [u8], side: usize, stride: usize)
    requires image { IsImage cells.old side side stride }
{
    let mut image: ImgRefMut<'_, u8> = Img::new_stride(cells, side, side, stride);
    image.transpose();
}

/// The image turned by a quarter in place, a square.
#[unsafe(no_mangle)]
pub extern "C" fn bench_u8_turn(cells: &mut [u8], side: usize, stride: usize)
    requires image { IsImage cells.old side side stride }
{
    let mut image: ImgRefMut<'_, u8> = Img::new_stride(cells, side, side, stride);
    image.turn(Turn::Right);
}
