//! Windows for writing.

use imgref::{AsMutSlice, AsSlice, Img, ImgRefMut, ImgVec, Window};
use imgref_fixtures::{has_size, numbers_of, padded};
use std::process::Abort;
use std::test::Fail;

// Writes the cell at a place, where it is there.
fn set<C: AsMutSlice<Item = u8>>(image: &mut Img<C>, x: usize, y: usize, value: u8) -> bool {
    let cells = image.buf().as_slice().len();
    let stride = image.stride();
    if x >= stride || y > cells / stride || y * stride + x >= cells {
        return false;
    }
    image[(x, y)] = value;
    true
}

// A window of the first column has these cells, and a write after its pixel is in the image.
fn check_column<C: AsMutSlice<Item = u8>>(rt: &impl Abort, image: &mut Img<C>, cells: &[u8]) {
    assert!(rt; image.is_valid() && image.has_window(0, 0, 1, 2));
    let mut window = image.sub_image_mut(0, 0, 1, 2);
    assert!(rt; &**window.buf() == cells);
    assert!(rt; set(&mut window, 1, 0, 9));
}

#[test]
fn a_window_of_an_owner_for_writing_ends_at_its_last_pixel(rt: HostRuntime) -> Result<(), Fail> {
    let mut owner = padded(rt.alloc())?;
    assert!(rt; owner.is_valid() && owner.has_window(0, 1, 3, 1));
    assert!(rt; &**owner.sub_image_mut(0, 1, 3, 1).buf() == [5u8, 6, 7].as_slice());
    check_column(&rt, &mut owner, &[1, 2, 3, 4, 5]);
    assert!(rt; owner.into_buf().as_slice() == [1u8, 9, 3, 4, 5, 6, 7, 8, 9].as_slice());
    Ok(())
}

#[test]
fn a_window_of_a_lent_image_for_writing_has_whole_strides(rt: HostRuntime) -> Result<(), Fail> {
    let mut owner = padded(rt.alloc())?;
    check_column(&rt, &mut owner.as_mut(), &[1, 2, 3, 4, 5, 6, 7, 8]);
    assert!(rt; owner.into_buf().as_slice() == [1u8, 9, 3, 4, 5, 6, 7, 8, 9].as_slice());
    Ok(())
}

fn cut<'a>(rt: &impl Abort, image: ImgRefMut<'a, u8>, window: Window) -> ImgRefMut<'a, u8> {
    let (left, top, width, height) = numbers_of(window);
    assert!(rt; image.is_valid() && image.has_window(left, top, width, height));
    image.into_sub_image_mut(left, top, width, height)
}

#[test]
fn an_image_is_cut_down_to_a_window(rt: HostRuntime) -> Result<(), Fail> {
    let mut owner = padded(rt.alloc())?;
    let window = cut(&rt, owner.as_mut(), Window::new(1, 0, 2, 2));
    assert!(rt; has_size(&window, [2, 2, 4]));
    assert!(rt; &**window.buf() == [2u8, 3, 4, 5, 6, 7, 8, 9].as_slice());
    let mut nested = cut(&rt, window, Window::new(1, 1, 1, 1));
    assert!(rt; &**nested.buf() == [7u8].as_slice() && set(&mut nested, 0, 0, 0));
    assert!(rt; owner.into_buf().as_slice() == [1u8, 2, 3, 4, 5, 6, 0, 8, 9].as_slice());
    Ok(())
}

#[test]
fn a_window_for_writing_is_indexed_from_its_corner(rt: HostRuntime) -> Result<(), Fail> {
    let mut owner: ImgVec<u8> = Img::new_stride(
        [1u8, 2, 3, 4, 5, 6, 7, 8].to_vec(rt.alloc())?,
        2,
        2,
        3,
    );
    assert!(rt; owner.is_valid() && owner.has_window(1, 1, 1, 1));
    let window = owner.sub_image_mut(1, 1, 1, 1);
    assert!(rt; window[(0usize, 0usize)] == 5 && &**window.buf() == [5u8].as_slice());
    Ok(())
}

#[test]
fn the_whole_image_is_written_through(rt: HostRuntime) -> Result<(), Fail> {
    let mut owner = padded(rt.alloc())?;
    let mut lent = owner.as_mut();
    assert!(rt; has_size(&lent, [3, 2, 4]) && set(&mut lent.as_mut(), 0, 0, 9));
    assert!(rt; &**lent.buf() == [9u8, 2, 3, 4, 5, 6, 7, 8, 9].as_slice());
    assert!(rt; owner.into_buf().as_slice() == [9u8, 2, 3, 4, 5, 6, 7, 8, 9].as_slice());
    Ok(())
}

// Writes through the parts of a window, and returns whether they are those of nine cells.
fn writes_in_parts(owner: &mut ImgVec<u8>) -> bool {
    if !owner.is_valid() || !owner.has_window(1, 0, 2, 1) {
        return false;
    }
    let (cells, shape) = owner.window_parts_mut(Window::new(1, 0, 2, 1));
    let has_cells = &*cells == [2u8, 3].as_slice();
    let mut window: ImgRefMut<'_, u8> = Img::from_parts(cells, shape);
    has_cells && has_size(&window, [2, 1, 4]) && set(&mut window, 1, 0, 9)
}

#[test]
fn the_parts_of_a_window_make_it(rt: HostRuntime) -> Result<(), Fail> {
    let mut owner = padded(rt.alloc())?;
    assert!(rt; writes_in_parts(&mut owner));
    let mut lent = owner.as_mut();
    assert!(rt; lent.is_valid() && lent.has_window(1, 0, 2, 1));
    assert!(rt; &*lent.window_parts_mut(Window::new(1, 0, 2, 1)).0 == [2u8, 9, 4, 5].as_slice());
    Ok(())
}
