//! Images with another buffer, and their whole buffers cell by cell.

ghost use Rattle.std.specs.Prelude.{◌≡◌, length, IfOk};

use imgref::{Img, ImgRef, ImgRefMut, ImgVec};
use imgref_fixtures::{PADDED, cells_of, has_size, padded};
use std::test::Fail;

// Each cell plus 1, in the same buffer.
fn add_one(mut cells: Vec<u8>) -> Result<Vec<u8>, u8>
    ensures { IfOk result (λ new. length new.items ≡ length cells.items) }
{
    for cell in cells.iter_mut() {
        *cell = cell.wrapping_add(1);
    }
    Ok(cells)
}

#[test]
fn a_callback_may_fail(rt: HostRuntime) -> Result<(), Fail> {
    let image: ImgVec<u8> = Img::new([1u8, 2].to_vec(rt.alloc())?, 2, 1);
    let failed: Result<ImgVec<u8>, u8> = image.try_map_buf(|_buf| Err(7u8));
    assert!(rt; matches!(failed, Err(7)));
    Ok(())
}

#[test]
fn a_callback_changes_the_cells(rt: HostRuntime) -> Result<(), Fail> {
    let image: ImgVec<u8> = Img::new([1u8, 2].to_vec(rt.alloc())?, 2, 1);
    let is_well = match image.try_map_buf(add_one) {
        Ok(image) => image.buf().as_slice() == [2u8, 3].as_slice() && has_size(&image, [2, 1, 2]),
        Err(_) => false,
    };
    assert!(rt; is_well);
    Ok(())
}

#[test]
fn with_vec(rt: HostRuntime) -> Result<(), Fail> {
    let old: ImgVec<u8> = Img::new_stride(cells_of(rt.alloc(), 20, 0)?, 10, 2, 10);
    let mut cells: Vec<u16> = Vec::new(rt.alloc());
    cells.resize(20, 6)?;
    assert!(rt; old.buf().len() == 20 && cells.len() == 20);
    let new = old.new_buf(cells);
    assert!(rt; has_size(&new, [10, 2, 10]));
    assert!(rt; new.buf().as_slice() == [6u16; 20].as_slice());
    Ok(())
}

#[test]
fn with_slice(rt: HostRuntime) -> Result<(), Fail> {
    let cells = cells_of(rt.alloc(), 20, 0)?;
    let lent: ImgRef<'_, u8> = Img::new_stride(cells.as_slice(), 10, 2, 10);
    assert!(rt; lent.iter().count() == 20 && lent.into_iter().count() == 20);
    Ok(())
}

// How many zeros there are, and no other cell, where a loop goes over lent ones.
fn zeros_seen(cells: &[u8]) -> Option<u32> {
    let mut seen = 0u32;
    for cell in cells {
        if *cell != 0 {
            return None;
        }
        seen = seen.saturating_add(1);
    }
    Some(seen)
}

// The same where it goes over an owner.
fn zeros_taken(owner: ImgVec<u8>) -> Option<u32> {
    let mut taken = 0u32;
    for cell in owner {
        if cell != 0 {
            return None;
        }
        taken = taken.saturating_add(1);
    }
    Some(taken)
}

#[test]
fn an_owner_gives_each_cell(rt: HostRuntime) -> Result<(), Fail> {
    let owner: ImgVec<u8> = Img::new_stride(cells_of(rt.alloc(), 20, 0)?, 10, 2, 10);
    assert!(rt; owner.iter().count() == 20 && owner.is_valid() && owner.rows().count() == 2);
    assert!(rt; zeros_seen(*owner.as_ref().buf()) == Some(20));
    assert!(rt; zeros_taken(owner) == Some(20));
    Ok(())
}

#[test]
fn an_image_that_does_not_fit_gives_each_cell(rt: HostRuntime) -> Result<(), Fail> {
    let short = Img::new_stride(PADDED.as_slice(), 3, 3, usize::MAX);
    assert!(rt; !short.is_valid());
    let found: Vec<u8> = short.iter().copied().collect(rt.alloc())?;
    assert!(rt; found.as_slice() == PADDED.as_slice());
    Ok(())
}

#[test]
fn a_lent_image_and_an_owner_give_each_cell(rt: HostRuntime) -> Result<(), Fail> {
    let mut cells = PADDED;
    let lent: ImgRefMut<'_, u8> = Img::new_stride(cells.as_mut_slice(), 3, 3, usize::MAX);
    let found: Vec<u8> = lent.iter().copied().collect(rt.alloc())?;
    assert!(rt; found.as_slice() == PADDED.as_slice());
    let found: Vec<u8> = padded(rt.alloc())?.into_iter().collect(rt.alloc())?;
    assert!(rt; found.as_slice() == PADDED.as_slice());
    Ok(())
}
