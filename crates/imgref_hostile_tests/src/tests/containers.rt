//! Containers through their traits, and the slice that an image was made of.

ghost use Rattle.std.specs.Prelude.{◌≡◌, ◌<◌, length, slice_set};
ghost use Rattle.image_model.specs.Layout.{Fits};
ghost use Rattle.image_model.specs.Windows.{IsInside, window};
ghost use Rattle.imgref.specs.Image.{width_of, height_of, layout_by, buf_of};

use imgref::{AsMutSlice, AsSlice, Img, ImgVec, Window};
use imgref_fixtures::PADDED;
use std::test::Fail;

// Each of these calls one bound alone, as a caller that knows no type does.
fn cells_of<C: AsSlice>(container: &C) -> &[C::Item] {
    container.as_slice()
}

fn cell_of<C: AsMutSlice>(container: &mut C, at: usize) -> &mut C::Item
    requires { at < length (C.cells container.old) }
{
    container.cell_mut(at)
}

fn window_len<C: AsMutSlice>(
    image: &mut Img<C>,
    left: usize,
    top: usize,
    width: usize,
    height: usize,
) -> usize
    requires fits { Fits (layout_by C.cells image.old) }
    requires inside { IsInside (width_of image.old) (height_of image.old)
        (window left top width height) }
{
    let (cells, _) = image.window_parts_mut(Window::new(left, top, width, height));
    cells.len()
}

// An image in between, of which the lender learns every write.
#[tactic(auto, unfolding(imgref::specs::Index::with_row))]
fn set_first_two<T: Copy>(cells: &mut [T], value: T)
    requires { 1 < length cells.old }
    ensures { cells.new ≡ slice_set (slice_set cells.old 0 value) 1 value }
{
    let mut image = Img::new_stride(cells, 1, 1, 1);
    image.row_mut(0)[0] = value;
    image[(0usize, 1usize)] = value;
}

// The slice that an image was made of, taken out of it: the same borrow.
fn there_and_back<T>(cells: &mut [T]) -> &mut [T]
    ensures same_loan { result.ghost_name ≡ cells.entry.ghost_name }
    ensures value { result.now ≡ cells.old }
{
    let (cells, _) = Img::new_stride(cells, 1, 1, 1).into_parts();
    cells
}

fn set_first<T: Copy>(cells: &mut [T], value: T)
    requires { 0 < length cells.old }
    ensures { cells.new ≡ slice_set cells.old 0 value }
{
    let back = there_and_back(cells);
    back[0] = value;
}

#[test]
fn each_container_is_used_through_its_bound(rt: HostRuntime) -> Result<(), Fail> {
    let mut cells = PADDED;
    let mut owned = PADDED.to_vec(rt.alloc())?;
    assert!(rt; cells_of(&owned) == PADDED.as_slice());
    assert!(rt; cells_of(&PADDED.as_slice()) == PADDED.as_slice());
    assert!(rt; cells_of(&cells.as_mut_slice()) == PADDED.as_slice());
    assert!(rt; owned.len() == 9);
    *cell_of(&mut owned, 3) = 0;
    *cell_of(&mut cells.as_mut_slice(), 3) = 0;
    assert!(rt; owned.as_slice() == [1u8, 2, 3, 0, 5, 6, 7, 8, 9].as_slice());
    assert!(rt; cells.as_slice() == [1u8, 2, 3, 0, 5, 6, 7, 8, 9].as_slice());
    let mut owner: ImgVec<u8> = Img::new_stride(owned, 3, 2, 4);
    assert!(rt; owner.is_valid());
    assert!(rt; owner.has_window(0, 0, 1, 2));
    assert!(rt; window_len(&mut owner, 0, 0, 1, 2) == 5);
    let mut lent = Img::new_stride(cells.as_mut_slice(), 3, 2, 4);
    assert!(rt; lent.is_valid());
    assert!(rt; lent.has_window(0, 0, 1, 2));
    assert!(rt; window_len(&mut lent, 0, 0, 1, 2) == 8);
    Ok(())
}

#[test]
fn a_lender_learns_what_was_written(rt: HostRuntime) -> Result<(), Fail> {
    let mut cells = [1u8, 2, 3];
    set_first_two(&mut cells, 7);
    assert!(rt; cells == [7u8, 7, 3]);
    set_first(&mut cells, 9);
    assert!(rt; cells == [9u8, 7, 3]);
    Ok(())
}
