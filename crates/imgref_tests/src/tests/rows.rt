//! Rows one after the other, for reading.

ghost use Rattle.std.specs.Prelude.{◌≡◌, ◌<◌, ◌↔◌, IsTrue, All, length, slice_index};
ghost use Rattle.image_model.specs.Layout.{Fits};
ghost use Rattle.image_model.specs.Rows.{row_count};
ghost use Rattle.imgref.specs.Rows.{refs_left};
ghost use Rattle.imgref.specs.Image.{width_of, height_of, ref_layout};

use imgref::{AsMutSlice, Img, ImgRef, ImgRefMut, ImgVec, RowsIter};
use imgref_fixtures::{SQUARE, cells_of, is_over, len_of, padded, small_image};
use std::test::Fail;

// What a caller learns from a chain over the rows.
fn count_rows(image: ImgRef<'_, u8>) -> usize
    requires { Fits (ref_layout image) }
    ensures { result ≡ row_count (width_of image.entry) (height_of image.entry) }
{
    image.rows().count()
}

fn count_from_the_end(image: ImgRef<'_, u8>) -> usize
    requires { Fits (ref_layout image) }
    ensures { result ≡ row_count (width_of image.entry) (height_of image.entry) }
{
    image.rows().rev().count()
}

fn count_fused(image: ImgRef<'_, u8>) -> usize
    requires { Fits (ref_layout image) }
    ensures { result ≡ row_count (width_of image.entry) (height_of image.entry) }
{
    image.rows().fuse().count()
}

fn all_start_at(rows: RowsIter<'_, u8>, value: u8) -> bool
    ensures { IsTrue result
        ↔ All (λ row. (0 < length row) × (slice_index row 0 ≡ value)) (refs_left rows.entry) }
{
    let mut rows = rows;
    rows.all(|row| row.len() > 0 && row[0] == value)
}

// And from a loop: each row is as long as the image is wide.
fn sum_of_last_column(image: ImgRef<'_, u8>) -> u64
    requires fits { Fits (ref_layout image) }
    requires some { 0 < width_of image }
{
    let mut sum = 0u64;
    for row in image.rows() {
        sum = sum.wrapping_add(row[row.len() - 1] as u64);
    }
    sum
}

fn last_of<I: DoubleEndedIterator>(rows: &mut I) -> Option<I::Item>
    requires { I.can_next_back rows.old }
{
    rows.next_back()
}

// Whether `next`, `next_back`, `next` and `next` give the rows of the square, one fewer left each
// time.
fn gives_the_square(rows: RowsIter<'_, u8>) -> bool {
    let mut rows = rows;
    let all = rows.len();
    let first = rows.next();
    let two = rows.len();
    let second = rows.next_back();
    let one = rows.len();
    let third = rows.next();
    let none = rows.len();
    let fourth = rows.next();
    first == Some([1u8, 2, 3].as_slice())
        && second == Some([7u8, 8, 9].as_slice())
        && third == Some([4u8, 5, 6].as_slice())
        && fourth.is_none()
        && [all, two, one, none] == [3, 2, 1, 0]
}

#[test]
fn rows_come_from_both_ends(rt: HostRuntime) -> Result<(), Fail> {
    let mut cells = SQUARE;
    let owned: ImgVec<u8> = Img::new_stride(SQUARE.to_vec(rt.alloc())?, 3, 3, 4);
    let lent: ImgRefMut<'_, u8> = Img::new_stride(cells.as_mut_slice(), 3, 3, 4);
    let view = Img::new_stride(SQUARE.as_slice(), 3, 3, 4);
    assert!(rt; owned.is_valid() && lent.is_valid() && view.is_valid());
    assert!(rt; gives_the_square(owned.rows()));
    assert!(rt; gives_the_square(lent.rows()));
    assert!(rt; gives_the_square(view.rows()));
    let mut rows = view.rows();
    assert!(rt; last_of(&mut rows) == Some([7u8, 8, 9].as_slice()) && len_of(&rows) == 2);
    Ok(())
}

#[test]
fn an_image_without_columns_has_no_row_and_no_pixel(rt: HostRuntime) -> Result<(), Fail> {
    let mut cells = [9u8, 9];
    let view = Img::new_stride(cells.as_slice(), 0, 2, 1);
    assert!(rt; view.is_valid());
    assert!(rt; view.height() == 2 && count_rows(view) == 0 && is_over(&mut view.rows()));
    assert!(rt; is_over(&mut view.pixels()) && is_over(&mut view.pixels_ref()));
    let empty: ImgRef<'_, u8> = Img::new_stride(&[], 0, 3, 1);
    assert!(rt; empty.is_valid() && empty.height() == 3 && count_rows(empty) == 0);
    let mut lent: ImgRefMut<'_, u8> = Img::new_stride(cells.as_mut_slice(), 0, 2, 1);
    assert!(rt; lends_nothing(&mut lent));
    Ok(())
}

// Whether an image lends no row and no pixel.
fn lends_nothing(lent: &mut ImgRefMut<'_, u8>) -> bool {
    lent.is_valid()
        && is_over(&mut lent.rows())
        && is_over(&mut lent.rows_mut())
        && lent.is_valid()
        && is_over(&mut lent.pixels_mut())
}

#[test]
fn an_image_without_lines_has_no_row(rt: HostRuntime) -> Result<(), Fail> {
    let mut cells = [0u8];
    let view = Img::new_stride(cells.as_slice(), 1, 0, 1);
    assert!(rt; view.is_valid() && view.has_window(1, 0, 0, 0) && count_rows(view) == 0);
    assert!(rt; view.sub_image(1, 0, 0, 0).rows().count() == 0);
    let mut lent: ImgRefMut<'_, u8> = Img::new_stride(cells.as_mut_slice(), 1, 0, 1);
    assert!(rt; lent.is_valid() && lent.rows_mut().count() == 0);
    assert!(rt; lent.is_valid() && lent.has_window(0, 0, 1, 0));
    let mut window = lent.sub_image_mut(0, 0, 1, 0);
    assert!(rt; window.rows().count() == 0 && window.rows_mut().count() == 0);
    Ok(())
}

// Whether there are so many rows, counted in each direction.
fn has_rows<C: AsMutSlice<Item = u8>>(image: &Img<C>, count: usize) -> bool {
    image.is_valid()
        && image.rows().count() == count
        && image.rows().rev().count() == count
        && image.rows().fuse().rev().count() == count
}

#[test]
fn rows_far_apart(rt: HostRuntime) -> Result<(), Fail> {
    let image: ImgVec<u8> = Img::new_stride(cells_of(rt.alloc(), 10000, 0)?, 10, 15, 100);
    assert!(rt; image.is_valid() && has_rows(&image, 15));
    assert!(rt; count_from_the_end(image.as_ref()) == 15 && count_fused(image.as_ref()) == 15);
    Ok(())
}

#[test]
fn a_window_has_its_own_rows(rt: HostRuntime) -> Result<(), Fail> {
    let owned = padded(rt.alloc())?;
    assert!(rt; owned.is_valid() && owned.has_window(1, 1, 2, 1));
    let window = owned.sub_image(1, 1, 2, 1);
    assert!(rt; window.rows().next() == Some([6u8, 7].as_slice()));
    assert!(rt; window.rows().count() == 1 && window.rows().rev().count() == 1);
    assert!(rt; window.rows().fuse().rev().count() == 1);
    Ok(())
}

#[test]
fn every_small_size_has_its_rows(rt: HostRuntime) -> Result<(), Fail> {
    for number in 0..315 {
        let image = small_image(rt.alloc(), number)?;
        assert!(rt; image.is_valid() && image.height() > 0);
        assert!(rt; gives_rows(image.rows(), image.width(), image.height() - 1));
    }
    Ok(())
}

// Whether the next row is so long, and so many are left then.
fn gives_rows(rows: RowsIter<'_, u8>, width: usize, left: usize) -> bool {
    let mut rows = rows;
    rows.next().map(|row| row.len()) == Some(width)
        && rows.size_hint() == (left, Some(left))
        && rows.count() == left
}

#[test]
fn one_row_at_the_greatest_stride(rt: HostRuntime) -> Result<(), Fail> {
    let mut cells = [5u8];
    let view: ImgRef<'_, u8> = Img::new_stride(cells.as_slice(), 1, 1, usize::MAX);
    assert!(rt; view.is_valid() && view.rows().next() == Some([5u8].as_slice()));
    assert!(rt; count_rows(view) == 1);
    let mut image: ImgRefMut<'_, u8> = Img::new_stride(cells.as_mut_slice(), 1, 1, usize::MAX);
    assert!(rt; image.is_valid());
    if let Some(row) = image.rows_mut().next_back() {
        row.fill(7);
    }
    assert!(rt; cells == [7u8]);
    Ok(())
}

#[test]
fn loops_and_tests_over_rows(rt: HostRuntime) -> Result<(), Fail> {
    let view = Img::new_stride(SQUARE.as_slice(), 3, 3, 4);
    assert!(rt; view.is_valid());
    assert!(rt; sum_of_last_column(view) == 18 && !all_start_at(view.rows(), 1));
    let line = Img::new(SQUARE.as_slice(), 11, 1);
    assert!(rt; line.is_valid() && all_start_at(line.rows(), 1));
    Ok(())
}
