//! Buffers that end before the last pixel, copied and passed on.

use super::short_buffers::{first_cells, owned_cells};
use imgref::{Img, ImgExtMut, ImgRef, ImgRefMut, ImgVec};
use imgref_fixtures::has_size;
use std::alloc::{AllocError, Global};
use std::borrow::CowSlice;
use std::test::Fail;

// Whether the image has these first cells, at its size.
fn is_same(found: ImgRef<'_, u8>, count: usize, stride: usize) -> bool {
    has_size(&found, [3, 2, stride]) && *found.buf() == *first_cells(count, stride).buf()
}

#[test]
fn short_buffers_are_copied_whole(rt: HostRuntime) -> Result<(), Fail> {
    for stride in [3, 4, usize::MAX] {
        for count in 0..10usize {
            let view = first_cells(count, stride);
            let mut owner = view.to_owned(rt.alloc())?;
            assert!(rt;
                is_same(owner.as_ref(), count, stride),
                "{count} at {stride}"
            );
            let (copy, clone) = (owner.to_owned(rt.alloc())?, owner.clone(rt.alloc())?);
            assert!(rt;
                is_same(copy.as_ref(), count, stride) && is_same(clone.as_ref(), count, stride)
            );
            let written = owner.as_mut().to_owned(rt.alloc())?;
            assert!(rt;
                is_same(written.as_ref(), count, stride),
                "{count} at {stride}"
            );
        }
    }
    Ok(())
}

#[test]
fn lent_short_buffers_become_owned(rt: HostRuntime) -> Result<(), Fail> {
    for stride in [3, 4, usize::MAX] {
        for count in 0..10usize {
            let lent: Img<CowSlice<'_, u8>> = first_cells(count, stride).into();
            let Ok(whole) = lent.into_vec(rt.alloc()) else {
                return Err(AllocError.into());
            };
            assert!(rt;
                is_same(whole.as_ref(), count, stride),
                "{count} at {stride}"
            );
        }
    }
    Ok(())
}

// Whether cells that are owned stay. Neither call asks a fit of them, or takes memory for them.
fn stays(alloc: Global, image: ImgVec<u8>, count: usize, stride: usize) -> bool {
    let owned: Img<CowSlice<'static, u8>> = image.into();
    match owned.into_owned(alloc) {
        Ok(image) => is_same(image.as_ref(), count, stride)
            && stays_whole(alloc, image, count, stride),
        Err(_) => false,
    }
}

fn stays_whole(alloc: Global, image: ImgVec<u8>, count: usize, stride: usize) -> bool {
    let owned: Img<CowSlice<'static, u8>> = image.into();
    match owned.into_vec(alloc) {
        Ok(image) => is_same(image.as_ref(), count, stride),
        Err(_) => false,
    }
}

#[test]
fn owned_short_buffers_are_handed_on(rt: HostRuntime) -> Result<(), Fail> {
    for stride in [3, 4, usize::MAX] {
        for count in 0..10usize {
            let image = owned_cells(rt.alloc(), count, stride)?;
            assert!(rt;
                stays(rt.alloc(), image, count, stride),
                "{count} at {stride}"
            );
        }
    }
    Ok(())
}

// Whether an image of so many cells gives them all, as an owner and as a lent one.
fn gives_all(owner: &mut ImgVec<u8>, count: usize) -> bool {
    owner.iter().count() == count
        && owner.as_mut().iter().count() == count
        && ImgExtMut::as_mut(owner).buf().len() == count
}

#[test]
fn short_buffers_change_hands(rt: HostRuntime) -> Result<(), Fail> {
    for count in 0..10usize {
        let view = first_cells(count, usize::MAX);
        assert!(rt; view.iter().count() == count && view.into_iter().count() == count);
        let mut owner = owned_cells(rt.alloc(), count, usize::MAX)?;
        assert!(rt; gives_all(&mut owner, count) && is_same(owner.as_ref(), count, usize::MAX));
        let owner = owner.map_buf(|buf| buf);
        assert!(rt; is_same(owner.as_ref(), count, usize::MAX));
        let failed: Result<ImgVec<u8>, u8> = owner.try_map_buf(|_buf| Err(7u8));
        assert!(rt; matches!(failed, Err(7)));
    }
    Ok(())
}

// Whether an image that doesn't fit gives so many cells once it is put together again.
fn is_put_together(owner: ImgVec<u8>, count: usize) -> bool {
    let (buf, shape) = owner.into_parts();
    !shape.fits(buf.len()) && Img::from_parts(buf, shape).into_iter().count() == count
}

#[test]
fn a_cell_more_makes_no_image_fit(rt: HostRuntime) -> Result<(), Fail> {
    for count in 0..10usize {
        let mut owner = owned_cells(rt.alloc(), count, usize::MAX)?;
        owner.buf_mut().push(0)?;
        let more = count.saturating_add(1);
        assert!(rt; owner.buf().len() == more && !owner.is_valid());
        assert!(rt; is_put_together(owner, more), "{count}");
    }
    Ok(())
}

#[test]
fn another_buffer_of_as_many_cells_is_taken(rt: HostRuntime) -> Result<(), Fail> {
    let mut cells = [1u16, 2, 3];
    let view = first_cells(3, 4);
    assert!(rt; view.buf().len() == 3);
    let other: ImgRefMut<'_, u16> = view.new_buf(cells.as_mut_slice());
    assert!(rt; other.buf().len() == 3 && has_size(&other, [3, 2, 4]) && !other.is_valid());
    Ok(())
}
