//! Calls that allocate no memory, what is left when memory runs out, and buffers that keep their
//! memory.

use super::fixtures::is_joined;
use imgref::{Img, ImgRef, ImgVec};
use imgref_fixtures::{PADDED, SQUARE, has_size, padded};
use std::alloc::{AllocError, Global};
use std::borrow::CowSlice;
use std::test::Fail;

// Two by two with one cell of padding after each row, and two after them.
const SMALL: [u8; 8] = [1, 2, 3, 4, 5, 6, 7, 8];

// Whether the rows of an image are joined to these and all its cells copied, or memory was refused;
// and the image is as it was.
fn stays(alloc: Global, image: ImgRef<'_, u8>, cells: &[u8], joined: &[u8]) -> bool {
    let (shape, seen) = (image.shape(), image);
    let is_joined = !matches!(is_joined(alloc, image, joined), Ok(false));
    let is_copied = match image.to_owned(alloc) {
        Ok(copy) => copy.buf().as_slice() == cells && copy.shape() == shape,
        Err(AllocError) => true,
    };
    is_joined && is_copied && *seen.buf() == cells && seen.shape() == shape
}

// These images lie on the stack: a growth that is refused falls in the calls.
#[test]
fn an_image_stays_where_a_copy_is_refused(rt: HostRuntime) {
    let first = Img::new_stride(PADDED.as_slice(), 3, 2, 4);
    let second = Img::new_stride(SQUARE.as_slice(), 3, 3, 4);
    let third = Img::new_stride(SMALL.as_slice(), 2, 2, 3);
    assert!(rt; stays(rt.alloc(), first, &PADDED, &[1, 2, 3, 5, 6, 7]));
    assert!(rt; stays(rt.alloc(), second, &SQUARE, &[1, 2, 3, 4, 5, 6, 7, 8, 9]));
    assert!(rt; stays(rt.alloc(), third, &SMALL, &[1, 2, 4, 5]));
}

// Each copy allocates once: `.ci/checks/built/refused_growths.py` counts that.
#[test]
fn a_copy_takes_its_room_at_once(rt: HostRuntime) -> Result<(), Fail> {
    let image = Img::new_stride(PADDED.as_slice(), 3, 2, 4);
    assert!(rt; image.is_valid());
    let copy = image.to_owned(rt.alloc())?;
    assert!(rt; copy.buf().as_slice() == PADDED.as_slice());
    let (joined, _, _) = image.to_contiguous_buf(rt.alloc())?;
    assert!(rt; joined.as_ref() == [1u8, 2, 3, 5, 6, 7].as_slice());
    Ok(())
}

// Whether an image of lent cells becomes an owner of these.
fn is_made_owned(alloc: Global, image: ImgRef<'_, u8>, due: &[u8]) -> bool {
    let lent: Img<CowSlice<'_, u8>> = image.into();
    if !lent.is_valid() {
        return false;
    }
    match lent.into_owned(alloc) {
        Ok(found) => found.buf().as_slice() == due,
        Err(_) => false,
    }
}

// Whether an image of no cell is copied whole.
fn is_copied(alloc: Global, image: ImgRef<'_, u8>) -> bool {
    let lent: Img<CowSlice<'_, u8>> = image.into();
    match (image.to_owned(alloc), lent.into_vec(alloc)) {
        (Ok(first), Ok(second)) => first.buf().len() == 0 && second.buf().len() == 0,
        _ => false,
    }
}

// These calls allocate nothing: a result that is out of memory is an error here.
#[test]
fn what_needs_no_memory_takes_none(rt: HostRuntime) {
    let four: ImgRef<'_, u8> = Img::new(&SMALL[..4], 2, 2);
    assert!(rt; matches!(is_joined(rt.alloc(), four, &[1, 2, 3, 4]), Ok(true)));
    let narrow: ImgRef<'_, u8> = Img::new_stride(&SMALL[..2], 0, 2, 1);
    let low: ImgRef<'_, u8> = Img::new_stride(&SMALL[..3], 3, 0, 4);
    assert!(rt; matches!(is_joined(rt.alloc(), narrow, &[]), Ok(true)));
    assert!(rt; matches!(is_joined(rt.alloc(), low, &[]), Ok(true)));
    assert!(rt; is_made_owned(rt.alloc(), narrow, &[]) && is_made_owned(rt.alloc(), low, &[]));
}

#[test]
fn what_has_no_cell_is_copied_without_memory(rt: HostRuntime) {
    let empty: ImgRef<'_, u8> = Img::new_stride(&SMALL[..0], 2, 0, 3);
    let owner: ImgVec<u8> = Img::new_stride(Vec::new(rt.alloc()), 2, 0, 3);
    let is_cloned = match owner.clone(rt.alloc()) {
        Ok(copy) => copy.buf().len() == 0 && copy.stride() == 3,
        Err(AllocError) => false,
    };
    assert!(rt; is_copied(rt.alloc(), empty) && is_cloned);
}

// Whether an image is there, with all cells of the nine.
fn is_whole(image: Option<ImgVec<u8>>) -> bool {
    match image {
        Some(image) => image.buf().as_slice() == PADDED.as_slice() && image.stride() == 4,
        None => false,
    }
}

// Cells that are owned stay, with no growth.
#[test]
fn owned_cells_are_handed_on(rt: HostRuntime) -> Result<(), Fail> {
    let (first, second) = (padded(rt.alloc())?, padded(rt.alloc())?);
    let first: Img<CowSlice<'static, u8>> = first.into();
    let second: Img<CowSlice<'static, u8>> = second.into();
    let (owned, whole) = (first.into_owned(rt.alloc()), second.into_vec(rt.alloc()));
    assert!(rt; is_whole(owned.ok()) && is_whole(whole.ok()));
    Ok(())
}

fn small(alloc: Global) -> Result<ImgVec<u8>, AllocError> {
    let mut cells = Vec::with_capacity(alloc, 100)?;
    for cell in SMALL {
        cells.push(cell)?;
    }
    Ok(Img::new_stride(cells, 2, 2, 3))
}

// Whether this is the small image.
fn is_small(image: &ImgVec<u8>) -> bool {
    image.buf().as_slice() == SMALL.as_slice() && has_size(image, [2, 2, 3])
}

#[test]
fn a_small_image_is_copied_by_each_kind(rt: HostRuntime) -> Result<(), Fail> {
    let mut image = small(rt.alloc())?;
    assert!(rt; is_small(&image.to_owned(rt.alloc())?) && is_small(&image.clone(rt.alloc())?));
    assert!(rt; is_small(&image.as_ref().to_owned(rt.alloc())?));
    assert!(rt; is_small(&image.as_mut().to_owned(rt.alloc())?) && is_small(&image));
    Ok(())
}

// A buffer that is joined in place is the same one: its room stays.
#[test]
fn a_joined_buffer_keeps_its_room(rt: HostRuntime) -> Result<(), Fail> {
    let (mut first, second) = (small(rt.alloc())?, small(rt.alloc())?);
    let (room, second_room) = (first.buf().capacity(), second.buf().capacity());
    assert!(rt; room >= 100 && first.is_valid() && second.is_valid());
    let joined = first.as_contiguous_buf().0.len();
    assert!(rt; joined == 4 && first.buf().capacity() == room);
    let (cells, _, _) = second.into_contiguous_buf();
    assert!(rt; cells.as_slice() == [1u8, 2, 4, 5].as_slice() && cells.capacity() == second_room);
    Ok(())
}
