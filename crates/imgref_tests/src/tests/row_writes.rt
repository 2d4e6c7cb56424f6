//! Rows one after the other, for writing.

ghost use Rattle.std.specs.Prelude.{◌≡◌, ◌<◌};
ghost use Rattle.image_model.specs.Layout.{Fits};
ghost use Rattle.image_model.specs.Rows.{row_count};
ghost use Rattle.imgref.specs.Image.{width_of, height_of, mut_layout, vec_layout};

use imgref::{AsMutSlice, Img, ImgRefMut, ImgVec};
use imgref_examples::fill_last_row;
use imgref_fixtures::{PADDED, cells_of, is_over, padded, padded_mut, square};
use std::process::Abort;
use std::test::Fail;

fn count_for_writing(image: &mut ImgVec<u8>) -> usize
    requires { Fits (vec_layout image.old) }
    ensures { result ≡ row_count (width_of image.old) (height_of image.old) }
{
    image.rows_mut().rev().count()
}

// The same for writing.
fn clear_last_column(image: &mut ImgVec<u8>)
    requires fits { Fits (vec_layout image.old) }
    requires some { 0 < width_of image.old }
{
    for row in image.rows_mut() {
        let last = row.len() - 1;
        row[last] = 0;
    }
}

// The rows for writing, counted in each direction.
fn count_written(image: &mut ImgRefMut<'_, u8>, direction: u32) -> usize
    requires { Fits (mut_layout image.old) }
{
    match direction {
        0 => image.rows_mut().count(),
        1 => image.rows_mut().rev().count(),
        _ => image.rows_mut().fuse().rev().count(),
    }
}

#[test]
fn a_written_row_stands_alone(rt: HostRuntime) -> Result<(), Fail> {
    let left = [1u8, 2, 3, 4, 0, 0, 0, 8, 9];
    let mut owned = padded(rt.alloc())?;
    let mut cells = PADDED;
    clear_last_row(&rt, &mut owned);
    clear_last_row(&rt, &mut padded_mut(&mut cells));
    assert!(rt; owned.buf().as_slice() == left.as_slice() && cells == left);
    Ok(())
}

fn clear_last_row<C: AsMutSlice<Item = u8>>(rt: &impl Abort, image: &mut Img<C>) {
    assert!(rt; image.is_valid());
    if let Some(row) = image.rows_mut().next_back() {
        row.fill(0);
    }
}

#[test]
fn the_last_row_is_filled(rt: HostRuntime) -> Result<(), Fail> {
    let mut owned = padded(rt.alloc())?;
    assert!(rt; owned.is_valid());
    fill_last_row(&mut owned, 0);
    assert!(rt; owned.buf().as_slice() == [1u8, 2, 3, 4, 0, 0, 0, 8, 9].as_slice());
    // Neither an image without columns nor one without lines has a row.
    for (width, height) in [(0usize, 2usize), (3, 0)] {
        let mut cells = PADDED;
        let mut lent: ImgRefMut<'_, u8> = Img::new_stride(cells.as_mut_slice(), width, height, 4);
        assert!(rt; lent.is_valid());
        fill_last_row(&mut lent, 0);
        assert!(rt; cells == PADDED, "{width} by {height}");
    }
    Ok(())
}

#[test]
fn rows_of_pixels_without_size(rt: HostRuntime) -> Result<(), Fail> {
    let mut cells = [(), (), (), (), ()];
    let mut image: ImgRefMut<'_, ()> = Img::new_stride(cells.as_mut_slice(), 2, 2, 3);
    assert!(rt; image.is_valid());
    let mut rows = image.rows_mut();
    assert!(rt; rows.next_back().map(|row| row.len()) == Some(2));
    assert!(rt; rows.size_hint() == (1, Some(1)));
    assert!(rt; rows.next().map(|row| row.len()) == Some(2));
    assert!(rt; is_over(&mut rows) && is_over(&mut rows));
    Ok(())
}

#[test]
fn a_window_has_its_own_rows_for_writing(rt: HostRuntime) -> Result<(), Fail> {
    for direction in 0..3u32 {
        assert!(rt; lends_row(&mut padded(rt.alloc())?, direction));
        let mut cells = PADDED;
        assert!(rt; lends_row(&mut padded_mut(&mut cells), direction));
        assert!(rt; is_cut_to_row(direction));
    }
    Ok(())
}

// Whether a window of an image lends its one row, counted in this direction.
fn lends_row<C: AsMutSlice<Item = u8>>(image: &mut Img<C>, direction: u32) -> bool {
    if !image.is_valid() || !image.has_window(1, 1, 2, 1) {
        return false;
    }
    let mut window = image.sub_image_mut(1, 1, 2, 1);
    window.rows().next() == Some([6u8, 7].as_slice()) && count_written(&mut window, direction) == 1
}

// The same where the image is cut down to it.
fn is_cut_to_row(direction: u32) -> bool {
    let mut cells = PADDED;
    let image = padded_mut(&mut cells);
    if !image.is_valid() || !image.has_window(1, 1, 2, 1) {
        return false;
    }
    let mut window = image.into_sub_image_mut(1, 1, 2, 1);
    count_written(&mut window, direction) == 1
}

#[test]
fn a_loop_writes_the_last_column(rt: HostRuntime) -> Result<(), Fail> {
    let mut image = square(rt.alloc())?;
    assert!(rt; image.is_valid() && image.width() == 3);
    clear_last_column(&mut image);
    assert!(rt; image.buf().as_slice() == [1u8, 2, 0, 0, 4, 5, 0, 0, 7, 8, 0].as_slice());
    Ok(())
}

#[test]
fn rows_far_apart_are_counted(rt: HostRuntime) -> Result<(), Fail> {
    let mut image: ImgVec<u8> = Img::new_stride(cells_of(rt.alloc(), 10000, 0)?, 10, 15, 100);
    assert!(rt; image.is_valid());
    assert!(rt; count_for_writing(&mut image) == 15);
    Ok(())
}
