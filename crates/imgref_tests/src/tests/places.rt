//! Pixels by column and row.

ghost use Rattle.std.specs.Prelude.{◌≡◌, ◌<◌, ◌+◌, slice_set, All, IfSome};
ghost use Rattle.image_model.specs.Layout.{layout, cell_of, pixel};
ghost use Rattle.imgref.specs.Image.{vec_layout, mut_layout};
ghost use Rattle.imgref.specs.Index.{HasCell};

use imgref::{Img, ImgRefMut, ImgVec};
use std::ops::{Index, IndexMut};
use std::test::Fail;

// Each of these calls one bound alone, as a caller that knows no type does.
fn cell<At, I: Index<At, Output = u8>>(image: &I, at: At) -> u8
    requires { I.can_index image.now at }
{
    image[at]
}

fn put<At, I: IndexMut<At> + Index<At, Output = u8>>(image: &mut I, at: At, value: u8)
    requires { I.Index.can_index image.old at }
{
    image[at] = value;
}

// What a caller learns of its writes: one cell, or those of one row, and all else as before.
fn set_owned<T: Copy>(image: &mut ImgVec<T>, x: usize, y: usize, value: T)
    requires { HasCell (vec_layout image.old) x y }
    ensures { let old = vec_layout image.old in vec_layout image.new
        ≡ layout (slice_set old.cells (cell_of old x y) value) old.width old.height old.stride }
{
    image[(x, y)] = value;
}

fn set_lent<T: Copy>(image: &mut ImgRefMut<'_, T>, x: u32, y: u32, value: T)
    requires { HasCell (mut_layout image.old) x y }
    ensures { let old = mut_layout image.old in mut_layout image.new
        ≡ layout (slice_set old.cells (cell_of old x y) value) old.width old.height old.stride }
{
    image[(x, y)] = value;
}

// A cell that is read and written in one: what it holds at first is known.
fn add_one(image: &mut ImgVec<u32>, x: usize, y: usize)
    requires has_cell { HasCell (vec_layout image.old) x y }
    requires room { All (λ cell. cell < 100) (vec_layout image.old).cells }
    ensures { let old = vec_layout image.old in
        IfSome (pixel old x y) (λ cell. vec_layout image.new ≡ layout
        (slice_set old.cells (cell_of old x y) (cell + 1)) old.width old.height old.stride) }
{
    image[(x, y)] += 1;
}

#[test]
fn a_place_names_a_cell(rt: HostRuntime) -> Result<(), Fail> {
    let mut cells = [1u8, 2, 3, 4, 5, 6, 7, 8];
    let image: ImgVec<u8> = Img::new_stride(cells.to_vec(rt.alloc())?, 2, 2, 3);
    assert!(rt; image[(0u32, 0u32)] == 1 && image[(1usize, 2usize)] == 8);
    let lent = Img::new_stride(cells.as_slice(), 2, 2, 3);
    assert!(rt; lent[(2u32, 0u32)] == 3 && lent[(1usize, 0usize)] == 2);
    assert!(rt; lent[(0usize, 1usize)] == 4);
    let written: ImgRefMut<'_, u8> = Img::new_stride(cells.as_mut_slice(), 2, 2, 3);
    assert!(rt; written[(2u32, 0u32)] == 3 && written[(1usize, 2usize)] == 8);
    Ok(())
}

#[test]
fn a_stride_past_u32_is_no_matter(rt: HostRuntime) -> Result<(), Fail> {
    let cells = [1u8, 2, 3];
    let image = Img::new_stride(cells.as_slice(), 1, 1, 4294967296);
    assert!(rt; image[(0u32, 0u32)] == 1 && image[(2u32, 0u32)] == 3);
    Ok(())
}

const CELLS: [u8; 8] = [1, 2, 3, 4, 5, 6, 7, 8];

#[test]
fn a_write_at_a_place_changes_one_cell(rt: HostRuntime) -> Result<(), Fail> {
    let mut owned: ImgVec<u8> = Img::new_stride(CELLS.to_vec(rt.alloc())?, 2, 2, 3);
    set_owned(&mut owned, 1, 1, 50);
    owned[(2u32, 0u32)] = 30;
    assert!(rt; owned.into_buf().as_slice() == [1u8, 2, 30, 4, 50, 6, 7, 8].as_slice());
    Ok(())
}

#[test]
fn a_write_at_a_place_of_lent_cells_changes_one(rt: HostRuntime) {
    let mut cells = CELLS;
    let mut lent = Img::new_stride(cells.as_mut_slice(), 2, 2, 3);
    lent[(0usize, 1usize)] = 40;
    set_lent(&mut lent, 1, 2, 80);
    assert!(rt; cells.as_slice() == [1u8, 2, 3, 40, 5, 6, 7, 80].as_slice());
}

#[test]
fn owners_are_indexed_through_the_bound(rt: HostRuntime) -> Result<(), Fail> {
    let mut owned: ImgVec<u8> = Img::new_stride(CELLS.to_vec(rt.alloc())?, 2, 2, 3);
    assert!(rt; cell(&owned, (0usize, 1usize)) == 4 && cell(&owned, (1u32, 0u32)) == 2);
    put(&mut owned, (0usize, 1usize), 40);
    assert!(rt; owned.into_buf().as_slice() == [1u8, 2, 3, 40, 5, 6, 7, 8].as_slice());
    let mut owned: ImgVec<u8> = Img::new_stride(CELLS.to_vec(rt.alloc())?, 2, 2, 3);
    put(&mut owned, (1u32, 0u32), 20);
    assert!(rt; owned.into_buf().as_slice() == [1u8, 20, 3, 4, 5, 6, 7, 8].as_slice());
    Ok(())
}

#[test]
fn each_kind_is_indexed_through_the_bound(rt: HostRuntime) -> Result<(), Fail> {
    let mut cells = CELLS;
    let lent = Img::new_stride(cells.as_slice(), 2, 2, 3);
    assert!(rt; cell(&lent, (0usize, 1usize)) == 4 && cell(&lent, (1u32, 0u32)) == 2);
    let mut written = Img::new_stride(cells.as_mut_slice(), 2, 2, 3);
    assert!(rt; cell(&written, (0usize, 1usize)) == 4 && cell(&written, (1u32, 0u32)) == 2);
    put(&mut written, (0usize, 1usize), 41);
    let mut written = Img::new_stride(cells.as_mut_slice(), 2, 2, 3);
    put(&mut written, (1u32, 0u32), 21);
    assert!(rt; cells.as_slice() == [1u8, 21, 3, 41, 5, 6, 7, 8].as_slice());
    Ok(())
}

#[test]
fn pixels_of_no_size_have_places(rt: HostRuntime) -> Result<(), Fail> {
    let mut cells = [(); 5];
    let lent = Img::new_stride(cells.as_slice(), 2, 2, 3);
    assert!(rt; lent.is_valid() && lent.row(1).len() == 2 && lent[(1usize, 1usize)] == ());
    let mut written = Img::new_stride(cells.as_mut_slice(), 2, 2, 3);
    written[(1u32, 1u32)] = ();
    assert!(rt; written.is_valid() && written.row_mut(0).len() == 2);
    assert!(rt; !Img::new_stride(cells.as_slice(), 2, 3, 3).is_valid());
    Ok(())
}
