//! Buffers without padding: joined in place, borrowed, or gathered.

use super::fixtures::is_joined;
use imgref::{Img, ImgRef, ImgVec};
use imgref_fixtures::{PADDED, cells_of, has_size, padded};
use std::alloc::{AllocError, Global};
use std::borrow::CowSlice;
use std::process::Abort;
use std::test::Fail;

// Two by two with one cell of padding after each row, and two after them.
const SMALL: [u8; 8] = [1, 2, 3, 4, 5, 6, 7, 8];

// Each number's lowest byte.
fn counted(alloc: Global, count: usize) -> Result<Vec<u8>, AllocError> {
    let mut cells = Vec::with_capacity(alloc, count)?;
    for number in 0..count {
        cells.push((number % 256) as u8)?;
    }
    Ok(cells)
}

// Width and height.
type Size = (usize, usize);

// Whether the rows of an image are joined in place to these cells, of which it has no others then.
fn is_compacted<T: Copy + Eq>(image: &mut ImgVec<T>, size: Size, stride: usize, due: &[T]) -> bool {
    if !image.is_valid() {
        return false;
    }
    let (joined, width, height) = image.as_contiguous_buf();
    let is_joined = joined == due && (width, height) == size;
    is_joined && image.stride() == stride && image.buf().len() == due.len()
}

// Whether the buffer of an image is joined to these cells, where it is taken out.
fn is_handed_out<T: Copy + Eq + Drop>(image: ImgVec<T>, size: Size, due: &[T]) -> bool {
    if !image.is_valid() {
        return false;
    }
    let (joined, width, height) = image.into_contiguous_buf();
    joined.as_slice() == due && (width, height) == size
}

#[test]
fn a_second_compaction_changes_nothing(rt: HostRuntime) -> Result<(), Fail> {
    let cells = [1u8, 2, 0, 3, 4, 0, 5, 6].to_vec(rt.alloc())?;
    let mut image: ImgVec<u8> = Img::new_stride(cells, 2, 3, 3);
    for _turn in 0..2 {
        assert!(rt; is_compacted(&mut image, (2, 3), 2, &[1, 2, 3, 4, 5, 6]));
    }
    Ok(())
}

// Two lines of no column over two cells.
fn no_column(alloc: Global, stride: usize) -> Result<ImgVec<u8>, AllocError> {
    Ok(Img::new_stride([9u8, 9].to_vec(alloc)?, 0, 2, stride.max(1)))
}

#[test]
fn no_column_leaves_no_cell(rt: HostRuntime) -> Result<(), Fail> {
    for stride in [1, usize::MAX] {
        assert!(rt; is_compacted(&mut no_column(rt.alloc(), stride)?, (0, 2), 1, &[]));
        assert!(rt; is_handed_out(no_column(rt.alloc(), stride)?, (0, 2), &[]));
    }
    Ok(())
}

#[test]
fn pixels_of_no_size_are_compacted(rt: HostRuntime) -> Result<(), Fail> {
    let mut image: ImgVec<()> = Img::new_stride([(); 5].to_vec(rt.alloc())?, 2, 2, 3);
    assert!(rt; is_compacted(&mut image, (2, 2), 2, &[(); 4]));
    Ok(())
}

// Whether the rows of an image are joined to these cells, in its own buffer or in a new one.
fn is_gathered(
    alloc: Global,
    image: ImgRef<'_, u8>,
    is_lent: bool,
    due: &[u8],
) -> Result<bool, AllocError> {
    if !image.is_valid() {
        return Ok(false);
    }
    let size = (image.width(), image.height());
    let (joined, width, height) = image.to_contiguous_buf(alloc)?;
    let has_cells = matches!(&joined, CowSlice::Borrowed(_)) == is_lent && joined.as_ref() == due;
    Ok(has_cells && (width, height) == size)
}

#[test]
fn rows_that_touch_are_lent(rt: HostRuntime) -> Result<(), Fail> {
    let image: ImgVec<u8> = Img::new([1u8, 2, 3, 4, 5, 6].to_vec(rt.alloc())?, 2, 2);
    assert!(rt; is_gathered(rt.alloc(), image.as_ref(), true, &[1, 2, 3, 4])?);
    Ok(())
}

#[test]
fn rows_apart_are_gathered(rt: HostRuntime) -> Result<(), Fail> {
    let image: ImgVec<u8> = Img::new_stride(SMALL.to_vec(rt.alloc())?, 2, 2, 3);
    assert!(rt; is_gathered(rt.alloc(), image.as_ref(), false, &[1, 2, 4, 5])?);
    assert!(rt; is_handed_out(image, (2, 2), &[1, 2, 4, 5]));
    Ok(())
}

// A growth may be refused here: the image is as it was in either case.
#[test]
fn the_image_stays_where_memory_is_wanting(rt: HostRuntime) -> Result<(), Fail> {
    let image = padded(rt.alloc())?;
    let seen: ImgRef<'_, u8> = image.as_ref();
    assert!(rt; !matches!(is_joined(rt.alloc(), seen, &[1, 2, 3, 5, 6, 7]), Ok(false)));
    assert!(rt; *seen.buf() == PADDED.as_slice() && has_size(&seen, [3, 2, 4]));
    Ok(())
}

// Whether an image has so many rows and pixels, and its first row is this one.
fn has_rows(image: &ImgVec<u8>, count: usize, pixels: usize, first: &[u8]) -> bool {
    if !image.is_valid() || image.height() == 0 {
        return false;
    }
    image.row(0) == first && image.rows().count() == count && image.pixels().count() == pixels
}

#[test]
fn readme(rt: HostRuntime) -> Result<(), Fail> {
    let image: ImgVec<u8> = Img::new(cells_of(rt.alloc(), 1000, 0)?, 50, 20);
    let origin = (0u32, 0u32);
    assert!(rt; image.is_valid() && image[origin] == 0);
    let row = cells_of(rt.alloc(), 50, 0)?;
    assert!(rt; has_rows(&image, 20, 1000, row.as_slice()));
    assert!(rt; image.has_window(5, 5, 15, 15));
    let window = image.sub_image(5, 5, 15, 15);
    assert!(rt; window.width() == 15 && window.height() == 15);
    let due = cells_of(rt.alloc(), 225, 0)?;
    assert!(rt; is_gathered(rt.alloc(), window, false, due.as_slice())?);
    Ok(())
}

// The joined rows of a counted image are its pixels.
fn check_joined(
    rt: &impl Abort,
    alloc: Global,
    width: usize,
    height: usize,
    stride: usize,
) -> Result<(), AllocError> {
    if width < 1 || width > stride || width > 4294967295 || height > 4294967295 {
        return Ok(());
    }
    let cells = counted(alloc, 10000)?;
    let image = Img::new_stride(cells, width, height, stride).map_buf(|buf| buf);
    assert!(rt; image.is_valid());
    let pixels: Vec<u8> = image.pixels().collect(alloc)?;
    assert!(rt; is_handed_out(image, (width, height), pixels.as_slice()));
    Ok(())
}

#[test]
fn into_contiguous_buf(rt: HostRuntime) -> Result<(), Fail> {
    for height in [1, 2, 3, 38, 39, 40, 41] {
        for width in [1, 2, 3, 120, 121] {
            for stride in [width, 121, 122, 166, 242, 243] {
                check_joined(&rt, rt.alloc(), width, height, stride)?;
            }
        }
    }
    Ok(())
}

#[test]
fn a_copy_and_the_buffer_are_joined_alike(rt: HostRuntime) -> Result<(), Fail> {
    let image: ImgVec<u8> = Img::new(counted(rt.alloc(), 55 * 33)?, 55, 33);
    assert!(rt; image.is_valid());
    let pixels: Vec<u8> = image.pixels().collect(rt.alloc())?;
    let (lent, _, _) = image.as_ref().to_contiguous_buf(rt.alloc())?;
    assert!(rt; lent.as_ref() == pixels.as_slice());
    drop(lent);
    let (joined, _, _) = image.into_contiguous_buf();
    assert!(rt; pixels.as_slice() == joined.as_slice());
    Ok(())
}
