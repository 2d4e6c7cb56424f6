//! Counts by a closure, beside chains over the pixels.

use imgref::Img;
use std::alloc::{AllocError, Global};
use std::test::Fail;

// Cells that look like noise.
fn noise(alloc: Global, count: usize) -> Result<Vec<u8>, AllocError> {
    let mut cells = Vec::new(alloc);
    let mut state = 7u32;
    for _ in 0..count {
        state = state.wrapping_mul(1_664_525).wrapping_add(1_013_904_223);
        cells.push((state >> 24) as u8)?;
    }
    Ok(cells)
}

// Whether both counts are equal in an image of four rows of bytes, and in one of larger pixels.
fn counts_agree(cells: &[u8], large: &[[u8; 5]], width: usize, padding: usize) -> bool {
    if width > 1000 || padding > 1000 {
        return false;
    }
    let stride = (width + padding).max(1);
    let bytes = Img::new_stride(cells, width, 4, stride);
    let others = Img::new_stride(large, width, 4, stride);
    bytes.is_valid()
        && others.is_valid()
        && bytes.count_where(|p| *p > 99) == bytes.pixels().filter(|p| *p > 99).count()
        && others.count_where(|p| p[4] > 99) == others.pixels().filter(|p| p[4] > 99).count()
}

#[test]
fn counts_agree_with_chains_in_each_layout(rt: HostRuntime) -> Result<(), Fail> {
    let cells = noise(rt.alloc(), 4000)?;
    let mut large = Vec::new(rt.alloc());
    for cell in cells.iter() {
        large.push([0, 255, 0, 255, *cell])?;
    }
    for width in [0, 1, 7, 8, 9, 223, 224, 225, 448, 500] {
        for padding in [0, 1, 33] {
            assert!(rt; counts_agree(&cells, &large, width, padding));
        }
    }
    Ok(())
}

#[test]
fn each_kind_of_image_counts_its_pixels(rt: HostRuntime) -> Result<(), Fail> {
    let cells = [1u8, 9, 3, 9, 9, 6, 9, 8, 9];
    let mut others = cells;
    let owned = Img::new_stride(cells.to_vec(rt.alloc())?, 3, 2, 4);
    let lent = Img::new_stride(others.as_mut_slice(), 3, 2, 4);
    let read = Img::new_stride(cells.as_slice(), 3, 2, 4);
    assert!(rt; owned.count_where(|p| *p == 9) == 3 && lent.count_where(|p| *p == 9) == 3);
    assert!(rt; read.count_where(|p| *p == 9) == 3);
    Ok(())
}
