//! One value at a place, in a row and in a window, and the pixel of a place that may be outside.

use imgref::{Img, ImgRefMut, ImgVec};
use imgref_fixtures::{PADDED, padded};
use std::test::Fail;

#[test]
fn a_place_outside_has_no_pixel(rt: HostRuntime) -> Result<(), Fail> {
    let mut cells = PADDED;
    let owner = padded(rt.alloc())?;
    let view = Img::new_stride(PADDED.as_slice(), 3, 2, 4);
    let lent: ImgRefMut<'_, u8> = Img::new_stride(cells.as_mut_slice(), 3, 2, 4);
    assert!(rt; owner.is_valid() && view.is_valid() && lent.is_valid());
    let places = [
        (0, 0, Some(1)),
        (2, 1, Some(7)),
        (3, 0, None),
        (0, 2, None),
        (usize::MAX, usize::MAX, None),
    ];
    for (x, y, pixel) in places {
        assert!(rt;
            owner.get(x, y) == pixel && view.get(x, y) == pixel && lent.get(x, y) == pixel,
            "({x}, {y})"
        );
    }
    Ok(())
}

#[test]
fn one_value_is_written_where_it_is_told(rt: HostRuntime) -> Result<(), Fail> {
    let mut owner: ImgVec<u8> = Img::new_stride(PADDED.to_vec(rt.alloc())?, 3, 2, 4);
    assert!(rt; owner.is_valid());
    owner.put(2, 0, 30);
    owner.fill_row(1, 50);
    owner.fill_window(0, 0, 1, 2, 0);
    assert!(rt; owner.into_buf().as_slice() == [0u8, 2, 30, 4, 0, 50, 50, 8, 9].as_slice());
    Ok(())
}

#[test]
fn one_value_is_written_in_lent_cells(rt: HostRuntime) {
    let mut cells = PADDED;
    let mut lent: ImgRefMut<'_, u8> = Img::new_stride(cells.as_mut_slice(), 3, 2, 4);
    assert!(rt; lent.is_valid());
    lent.fill_window(1, 0, 2, 2, 0);
    lent.fill_window(3, 2, 0, 0, 9);
    lent.put(0, 1, 70);
    assert!(rt; cells == [1u8, 0, 0, 4, 70, 0, 0, 8, 9]);
}
