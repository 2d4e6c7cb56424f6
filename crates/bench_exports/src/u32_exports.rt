//! Made from `u8_exports.rt` by `make exports`: the same exports, for cells of type `u32`.

ghost use Rattle.std.specs.Prelude.{◌<◌, ◌^◌};
ghost use Rattle.bench_exports.specs.Cells.{IsImage};

use crate::{reading, writing};
use imgref::{Img, ImgRefMut, ImgVec, Shape, Turn};
use std::alloc::Global;

/// The sum of the pixels, row by row.
#[unsafe(no_mangle)]
pub extern "C" fn bench_u32_rows(cells: &[u32], width: usize, height: usize, stride: usize) -> u64
    requires image { IsImage cells.now width height stride }
{
    reading::rows(&Img::new_stride(cells, width, height, stride))
}

/// The sum of the pixels, by one loop over all of them.
#[unsafe(no_mangle)]
pub extern "C" fn bench_u32_pixels(cells: &[u32], width: usize, height: usize, stride: usize) -> u64
    requires image { IsImage cells.now width height stride }
{
    reading::pixels(&Img::new_stride(cells, width, height, stride))
}

/// The sum of the pixels by their places.
#[unsafe(no_mangle)]
pub extern "C" fn bench_u32_get(cells: &[u32], width: usize, height: usize, stride: usize) -> u64
    requires image { IsImage cells.now width height stride }
{
    reading::get(
        &Img::new_stride(cells, width, height, stride),
        width,
        height,
    )
}

/// The sum of the pixels by their places, which are tested once.
#[unsafe(no_mangle)]
pub extern "C" fn bench_u32_index(cells: &[u32], width: usize, height: usize, stride: usize) -> u64
    requires image { IsImage cells.now width height stride }
{
    reading::index(
        &Img::new_stride(cells, width, height, stride),
        width,
        height,
    )
}

/// The sum of a window of a window.
#[unsafe(no_mangle)]
pub extern "C" fn bench_u32_nested(cells: &[u32], width: usize, height: usize, stride: usize) -> u64
    requires image { IsImage cells.now width height stride }
{
    reading::nested(&Img::new_stride(cells, width, height, stride))
}

/// The hash of the image.
#[unsafe(no_mangle)]
pub extern "C" fn bench_u32_hash(cells: &[u32], width: usize, height: usize, stride: usize) -> u64
    requires image { IsImage cells.now width height stride }
{
    reading::hash(&Img::new_stride(cells, width, height, stride))
}

/// The number of cells of the joined rows, whose memory is freed at once.
#[unsafe(no_mangle)]
pub extern "C" fn bench_u32_to_contiguous_buf(
    alloc: Global,
    cells: &[u32],
    width: usize,
    height: usize,
    stride: usize,
) -> usize
    requires image { IsImage cells.now width height stride }
{
    reading::to_contiguous_buf(alloc, &Img::new_stride(cells, width, height, stride))
}

/// Every pixel becomes 7, by one loop over all of them.
#[unsafe(no_mangle)]
pub extern "C" fn bench_u32_pixels_mut(
    cells: &mut [u32],
    width: usize,
    height: usize,
    stride: usize,
)
    requires image { IsImage cells.old width height stride }
{
    writing::pixels_mut(cells, Shape::new(width, height, stride), 7);
}

/// Every pixel becomes 7, tile by tile.
#[unsafe(no_mangle)]
pub extern "C" fn bench_u32_tiles(cells: &mut [u32], width: usize, height: usize, stride: usize)
    requires image { IsImage cells.old width height stride }
{
    writing::tiles(cells, Shape::new(width, height, stride), 7);
}

/// Every pixel becomes 7, band by band.
#[unsafe(no_mangle)]
pub extern "C" fn bench_u32_bands(cells: &mut [u32], width: usize, height: usize, stride: usize)
    requires image { IsImage cells.old width height stride }
{
    writing::bands(cells, Shape::new(width, height, stride), 7);
}

/// Every bit of every pixel is inverted.
#[unsafe(no_mangle)]
pub extern "C" fn bench_u32_map_pixels(
    cells: &mut [u32],
    width: usize,
    height: usize,
    stride: usize,
)
    requires image { IsImage cells.old width height stride }
{
    let mut image: ImgRefMut<'_, u32> = Img::new_stride(cells, width, height, stride);
    image.map_pixels(|pixel: u32| !pixel);
}

/// Rows `y` and `z` are exchanged.
#[unsafe(no_mangle)]
pub extern "C" fn bench_u32_swap_rows(
    cells: &mut [u32],
    width: usize,
    height: usize,
    stride: usize,
    y: usize,
    z: usize,
)
    requires image { IsImage cells.old width height stride }
    requires first { y < height }
    requires second { z < height }
{
    let mut image: ImgRefMut<'_, u32> = Img::new_stride(cells, width, height, stride);
    image.swap_rows(y, z);
}

/// Every pixel becomes the exclusive or of it, its column and its row.
#[unsafe(no_mangle)]
pub extern "C" fn bench_u32_map_places(
    cells: &mut [u32],
    width: usize,
    height: usize,
    stride: usize,
)
    requires image { IsImage cells.old width height stride }
{
    let mut image: ImgRefMut<'_, u32> = Img::new_stride(cells, width, height, stride);
    image.map_places(|x: usize, y: usize, pixel: u32| pixel ^ ((x ^ y) % 256) as u32);
}

/// Every pixel becomes the greater one of it and the source's pixel at its place.
#[unsafe(no_mangle)]
pub extern "C" fn bench_u32_zip_pixels(
    cells: &mut [u32],
    width: usize,
    height: usize,
    stride: usize,
    source: &[u32],
    source_stride: usize,
)
    requires image { IsImage cells.old width height stride }
    requires source { IsImage source.now width height source_stride }
{
    let mut image: ImgRefMut<'_, u32> = Img::new_stride(cells, width, height, stride);
    image.zip_pixels(
        Img::new_stride(source, width, height, source_stride),
        |p: u32, q: u32| if p < q { q } else { p },
    );
}

/// The number of pixels of an image that is made from its places, whose memory is freed at once.
#[unsafe(no_mangle)]
pub extern "C" fn bench_u32_from_places(alloc: Global, width: usize, height: usize) -> usize
    requires width_bound { width < 2 ^ 32 }
    requires height_bound { height < 2 ^ 32 }
{
    match ImgVec::from_places(
        alloc,
        width,
        height,
        |x: usize, y: usize| ((x ^ y) % 256) as u32,
    ) {
        Ok(image) => image.into_buf().len(),
        Err(_) => 0,
    }
}

/// The image upside down.
#[unsafe(no_mangle)]
pub extern "C" fn bench_u32_flip_rows(cells: &mut [u32], width: usize, height: usize, stride: usize)
    requires image { IsImage cells.old width height stride }
{
    let mut image: ImgRefMut<'_, u32> = Img::new_stride(cells, width, height, stride);
    image.flip_rows();
}

/// The image mirrored.
#[unsafe(no_mangle)]
pub extern "C" fn bench_u32_flip_columns(
    cells: &mut [u32],
    width: usize,
    height: usize,
    stride: usize,
)
    requires image { IsImage cells.old width height stride }
{
    let mut image: ImgRefMut<'_, u32> = Img::new_stride(cells, width, height, stride);
    image.flip_columns();
}

/// The first and the last column are exchanged.
#[unsafe(no_mangle)]
pub extern "C" fn bench_u32_swap_columns(
    cells: &mut [u32],
    width: usize,
    height: usize,
    stride: usize,
)
    requires image { IsImage cells.old width height stride }
    requires some { 0 < width }
{
    let mut image: ImgRefMut<'_, u32> = Img::new_stride(cells, width, height, stride);
    image.swap_columns(0, width - 1);
}

/// The source transposed, a square.
#[unsafe(no_mangle)]
pub extern "C" fn bench_u32_transpose_into(
    cells: &mut [u32],
    side: usize,
    stride: usize,
    source: &[u32],
    source_stride: usize,
)
    requires image { IsImage cells.old side side stride }
    requires source { IsImage source.now side side source_stride }
{
    let mut image: ImgRefMut<'_, u32> = Img::new_stride(cells, side, side, stride);
    Img::new_stride(source, side, side, source_stride).transpose_into(&mut image);
}

/// The source turned by a quarter, a square.
#[unsafe(no_mangle)]
pub extern "C" fn bench_u32_turn_into(
    cells: &mut [u32],
    side: usize,
    stride: usize,
    source: &[u32],
    source_stride: usize,
)
    requires image { IsImage cells.old side side stride }
    requires source { IsImage source.now side side source_stride }
{
    let mut image: ImgRefMut<'_, u32> = Img::new_stride(cells, side, side, stride);
    Img::new_stride(source, side, side, source_stride).turn_into(&mut image, Turn::Right);
}

/// The source turned by a half, a square.
#[unsafe(no_mangle)]
pub extern "C" fn bench_u32_half_turn(
    cells: &mut [u32],
    side: usize,
    stride: usize,
    source: &[u32],
    source_stride: usize,
)
    requires image { IsImage cells.old side side stride }
    requires source { IsImage source.now side side source_stride }
{
    let mut image: ImgRefMut<'_, u32> = Img::new_stride(cells, side, side, stride);
    Img::new_stride(source, side, side, source_stride).turn_into(&mut image, Turn::Half);
}

/// The image transposed in place, a square.
#[unsafe(no_mangle)]
pub extern "C" fn bench_u32_transpose(cells: &mut [u32], side: usize, stride: usize)
    requires image { IsImage cells.old side side stride }
{
    let mut image: ImgRefMut<'_, u32> = Img::new_stride(cells, side, side, stride);
    image.transpose();
}

/// The image turned by a quarter in place, a square.
#[unsafe(no_mangle)]
pub extern "C" fn bench_u32_turn(cells: &mut [u32], side: usize, stride: usize)
    requires image { IsImage cells.old side side stride }
{
    let mut image: ImgRefMut<'_, u32> = Img::new_stride(cells, side, side, stride);
    image.turn(Turn::Right);
}
