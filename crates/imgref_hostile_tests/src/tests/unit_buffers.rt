//! Zero-sized pixels: buffers that are joined, copied, compared or exchanged.

use super::fixtures::{UNITS, units};
use imgref::{Img, ImgRef, ImgRefMut, ImgVec};
use imgref_fixtures::has_size;
use std::alloc::{AllocError, Global};
use std::borrow::CowSlice;
use std::collections::HashSet;
use std::test::Fail;

#[test]
fn rows_of_owners_are_joined(rt: HostRuntime) -> Result<(), Fail> {
    let mut owner = units(rt.alloc())?;
    assert!(rt; owner.is_valid());
    let (joined, width, height) = owner.as_ref().to_contiguous_buf(rt.alloc())?;
    assert!(rt; joined.as_ref().len() == 6 && width == 3 && height == 2);
    drop(joined);
    owner.buf_mut().push(())?;
    assert!(rt; is_joined_twice(owner));
    Ok(())
}

// Whether the rows of an owner are joined in place, and then again as the buffer is taken out.
fn is_joined_twice(owner: ImgVec<()>) -> bool {
    let mut owner = owner;
    if !owner.is_valid() {
        return false;
    }
    let (joined, width, height) = owner.as_contiguous_buf();
    joined.len() == 6
        && (width, height) == (3, 2)
        && has_size(&owner, [3, 2, 3])
        && owner.buf().len() == 6
        && owner.is_valid()
        && owner.into_contiguous_buf().0.len() == 6
}

// Whether an image has so many cells at this stride.
fn has_cells(image: &ImgVec<()>, count: usize, stride: usize) -> bool {
    image.buf().len() == count && image.stride() == stride
}

#[test]
fn copies_have_each_cell(rt: HostRuntime) -> Result<(), Fail> {
    let mut cells = UNITS;
    let owner = units(rt.alloc())?;
    assert!(rt; has_cells(&owner.to_owned(rt.alloc())?, 9, 4));
    assert!(rt; has_cells(&owner.clone(rt.alloc())?, 9, 4));
    assert!(rt; has_cells(&owner.as_ref().to_owned(rt.alloc())?, 9, 4));
    let lent = ImgRefMut::new_stride(cells.as_mut_slice(), 3, 2, 4);
    assert!(rt; has_cells(&lent.to_owned(rt.alloc())?, 9, 4));
    Ok(())
}

#[test]
fn lent_cells_become_owned(rt: HostRuntime) -> Result<(), Fail> {
    let shared: Img<CowSlice<'_, ()>> = ImgRef::new_stride(UNITS.as_slice(), 3, 2, 4).into();
    assert!(rt; shared.is_valid());
    let Ok(joined) = shared.into_owned(rt.alloc()) else {
        return Err(AllocError.into());
    };
    assert!(rt; has_cells(&joined, 6, 3));
    Ok(())
}

// The same cells with their padding, in a buffer of their own.
fn whole(alloc: Global, shared: Img<CowSlice<'_, ()>>) -> Result<ImgVec<()>, AllocError> {
    match shared.into_vec(alloc) {
        Ok(owner) => Ok(owner),
        Err(_) => Err(AllocError),
    }
}

#[test]
fn cells_become_owned_with_padding(rt: HostRuntime) -> Result<(), Fail> {
    let lent = whole(
        rt.alloc(),
        ImgRef::new_stride(UNITS.as_slice(), 3, 2, 4).into(),
    )?;
    assert!(rt; has_cells(&lent, 9, 4));
    let owned = whole(rt.alloc(), lent.into())?;
    assert!(rt; has_cells(&owned, 9, 4));
    Ok(())
}

#[test]
fn sizes_alone_tell_images_apart(rt: HostRuntime) -> Result<(), Fail> {
    let mut cells = UNITS;
    let owner = units(rt.alloc())?;
    let packed = ImgRef::new(UNITS.as_slice(), 3, 2);
    let turned = ImgRef::new(UNITS.as_slice(), 2, 3);
    assert!(rt;
        owner.same_pixels(packed)
            && !owner.same_pixels(turned)
            && owner.as_ref() == packed
            && packed != turned
            && owner == owner
            && ImgRefMut::new(cells.as_mut_slice(), 3, 2).same_pixels(packed)
    );
    Ok(())
}

#[test]
fn no_closure_is_asked_where_sizes_differ(rt: HostRuntime) {
    let packed = ImgRef::new(UNITS.as_slice(), 3, 2);
    let turned = ImgRef::new(UNITS.as_slice(), 2, 3);
    assert!(rt; packed.is_valid() && turned.is_valid());
    assert!(rt;
        packed.same_pixels_by(packed, |_, _| true)
            && !packed.same_pixels_by(packed, |_, _| false)
            && !packed.same_pixels_by(turned, |_, _| true)
    );
}

#[test]
fn images_of_one_size_are_one_key(rt: HostRuntime) -> Result<(), Fail> {
    let packed = ImgRef::new(UNITS.as_slice(), 3, 2);
    let turned = ImgRef::new(UNITS.as_slice(), 2, 3);
    let mut set = HashSet::new(rt.alloc());
    assert!(rt;
        set.insert(packed)?
            && !set.insert(ImgRef::new_stride(UNITS.as_slice(), 3, 2, 4))?
            && set.insert(turned)?
    );
    Ok(())
}

#[test]
fn buffers_are_exchanged(rt: HostRuntime) -> Result<(), Fail> {
    let owner = units(rt.alloc())?;
    assert!(rt; owner.iter().count() == 9);
    let other = owner.new_buf(UNITS.as_slice());
    assert!(rt; other.buf().len() == 9 && other.stride() == 4);
    let same = owner.map_buf(|buf| buf);
    let failed: Result<ImgVec<()>, u8> = same.try_map_buf(|_buf| Err(7u8));
    assert!(rt; matches!(failed, Err(7)) && units(rt.alloc())?.into_iter().count() == 9);
    Ok(())
}
