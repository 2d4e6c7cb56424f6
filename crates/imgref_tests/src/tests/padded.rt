//! The whole buffer by strides, padding included.

use imgref::{AsMutSlice, AsSlice, Img, ImgExt, ImgExtMut, ImgRef};
use imgref_fixtures::{PADDED, has_size, padded, padded_mut};
use std::test::Fail;

// Whether these are the pieces of an image's cells, and no more.
fn gives<C: AsSlice<Item = u8>>(image: &Img<C>, due: &[&[u8]]) -> bool {
    let mut pieces = image.rows_padded();
    for piece in due.iter() {
        if pieces.next() != Some(*piece) {
            return false;
        }
    }
    pieces.next() == None
}

// Sets the first cell of each piece to 0.
fn clear_firsts<C: AsMutSlice<Item = u8>>(image: &mut Img<C>) {
    for piece in image.rows_padded_mut() {
        if let Some(first) = piece.first_mut() {
            *first = 0;
        }
    }
}

#[test]
fn the_buffer_is_cut_into_strides(rt: HostRuntime) -> Result<(), Fail> {
    let image = padded(rt.alloc())?;
    assert!(rt; image.width_padded() == 4 && image.height_padded() == 2);
    let due: [&[u8]; 3] = [&[1, 2, 3, 4], &[5, 6, 7, 8], &[9]];
    assert!(rt; gives(&image, &due));
    let seen = ImgExt::as_ref(&image);
    assert!(rt; *seen.buf() == PADDED.as_slice() && has_size(&seen, [3, 2, 4]));
    Ok(())
}

#[test]
fn the_first_cell_of_each_piece_is_written(rt: HostRuntime) -> Result<(), Fail> {
    let mut image = padded(rt.alloc())?;
    clear_firsts(&mut image);
    assert!(rt; image.buf().as_slice() == [0u8, 2, 3, 4, 0, 6, 7, 8, 0].as_slice());
    assert!(rt; has_size(&image, [3, 2, 4]));
    let mut cells = PADDED;
    let mut lent = padded_mut(&mut cells);
    clear_firsts(&mut lent);
    assert!(rt; has_size(&lent, [3, 2, 4]));
    assert!(rt; cells == [0u8, 2, 3, 4, 0, 6, 7, 8, 0]);
    Ok(())
}

#[test]
fn a_write_through_a_second_loan_is_seen(rt: HostRuntime) -> Result<(), Fail> {
    let mut image = padded(rt.alloc())?;
    let mut lent = image.as_mut();
    let origin = (0usize, 0usize);
    let mut again = ImgExtMut::as_mut(&mut lent);
    assert!(rt; again.stride() == 4 && again.buf().len() == 9);
    again[origin] = 9;
    assert!(rt; lent.stride() == 4 && lent.buf().len() == 9 && lent[origin] == 9);
    assert!(rt; image.buf().as_slice() == [9u8, 2, 3, 4, 5, 6, 7, 8, 9].as_slice());
    Ok(())
}

#[test]
fn strides_and_cells_of_every_kind_are_cut(rt: HostRuntime) -> Result<(), Fail> {
    let short: ImgRef<'_, u8> = Img::new_stride(PADDED.as_slice(), 3, 4, usize::MAX);
    assert!(rt; !short.is_valid());
    assert!(rt; short.width_padded() == usize::MAX && short.height_padded() == 0);
    let due: [&[u8]; 1] = [&PADDED];
    assert!(rt; gives(&short, &due));
    Ok(())
}

#[test]
fn cells_of_no_size_and_no_cells_are_cut(rt: HostRuntime) {
    let units = [(); 5];
    let flat = Img::new_stride(units.as_slice(), 2, 2, 3);
    assert!(rt;
        flat.width_padded() == 3 && flat.height_padded() == 1 && flat.rows_padded().count() == 2
    );
    let none: [u8; 0] = [];
    let empty = Img::new_stride(none.as_slice(), 0, 2, 1);
    assert!(rt; empty.height_padded() == 0 && empty.rows_padded().count() == 0);
}
