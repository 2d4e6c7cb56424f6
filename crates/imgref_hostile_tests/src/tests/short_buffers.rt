//! Buffers that end before the last pixel: calls without the condition that the image fits work on
//! them, and are safe.

use imgref::{AsMutSlice, AsSlice, Img, ImgExt, ImgExtMut, ImgRef, ImgVec};
use imgref_fixtures::{PADDED, hash_of, hash_of_rows};
use std::alloc::{AllocError, Global};
use std::process::Abort;
use std::test::Fail;

// Three by two over the first cells of the nine.
pub fn first_cells(count: usize, stride: usize) -> ImgRef<'static, u8> {
    let mut cells = PADDED.as_slice();
    if count < 9 {
        cells = &cells[..count];
    }
    Img::new_stride(cells, 3, 2, stride.max(3))
}

pub fn owned_cells(alloc: Global, count: usize, stride: usize) -> Result<ImgVec<u8>, AllocError> {
    first_cells(count, stride).to_owned(alloc)
}

// Images of equal numbers are equal: 0 stands for all that don't fit, and else the stride tells
// which pixels it has.
fn meaning_of(count: usize, stride: usize) -> usize {
    match (count, stride) {
        (6..=9, 3) => 3,
        (7..=9, 4) => 4,
        (8..=9, 5) => 5,
        (9, 6) => 6,
        _ => 0,
    }
}

// Whether two images are equal where they should be, and have one hash there.
fn compares(first: ImgRef<'_, u8>, second: ImgRef<'_, u8>, is_same: bool) -> bool {
    (first == second) == is_same
        && first.same_pixels(second) == is_same
        && (!is_same || hash_of(&first) == hash_of(&second))
}

#[test]
fn short_buffers_are_equal_to_one_another_alone(rt: HostRuntime) -> Result<(), Fail> {
    for stride in [3, 4, 5, 6, 7, usize::MAX] {
        for count in 0..10usize {
            let first = first_cells(count, stride);
            let meaning = meaning_of(count, stride);
            assert!(rt; first.is_valid() == (meaning > 0), "{count} at {stride}");
            for other_stride in [3, 4, 5, 6, 7, usize::MAX] {
                for other_count in 0..10usize {
                    let second = first_cells(other_count, other_stride);
                    let is_same = meaning == meaning_of(other_count, other_stride);
                    assert!(rt; compares(first, second, is_same), "{count} {stride}");
                }
            }
        }
    }
    Ok(())
}

// Both images as owners.
fn compares_owners(owner: &ImgVec<u8>, other: &ImgVec<u8>, is_same: bool) -> bool {
    (owner == other) == is_same
        && owner.same_pixels(other.as_ref()) == is_same
        && owner.as_ref().same_pixels(other.as_ref()) == is_same
        && (!is_same || has_one_hash(owner, other))
}

fn has_one_hash(owner: &ImgVec<u8>, other: &ImgVec<u8>) -> bool {
    let hash = hash_of(owner);
    hash == hash_of(other)
        && hash == hash_of(&other.as_ref())
        && hash_of_rows(owner) == hash_of_rows(&other.as_ref())
}

// Both images as lent cells.
fn compares_lent(owner: &mut ImgVec<u8>, other: &mut ImgVec<u8>, is_same: bool) -> bool {
    owner.as_mut().same_pixels(other.as_ref()) == is_same
        && (owner.as_mut() == other.as_mut()) == is_same
        && (!is_same || hash_of(&owner.as_mut()) == hash_of(&other.as_mut()))
}

// Both images as owners and as lent cells.
fn check_kinds(rt: &impl Abort, owner: ImgVec<u8>, other: ImgVec<u8>, is_same: bool) {
    let mut owner = owner;
    let mut other = other;
    assert!(rt; compares_owners(&owner, &other, is_same));
    assert!(rt; compares_lent(&mut owner, &mut other, is_same));
}

#[test]
fn each_kind_of_short_buffer_is_compared(rt: HostRuntime) -> Result<(), Fail> {
    for (count, stride) in [
        (0, 3),
        (5, 3),
        (6, 3),
        (9, 3),
        (6, 4),
        (7, 4),
        (1, usize::MAX),
    ] {
        for (other_count, other_stride) in [
            (0, 4),
            (5, 3),
            (7, 3),
            (6, 4),
            (8, 4),
            (9, usize::MAX),
        ] {
            let is_same = meaning_of(count, stride) == meaning_of(other_count, other_stride);
            check_kinds(
                &rt,
                owned_cells(rt.alloc(), count, stride)?,
                owned_cells(rt.alloc(), other_count, other_stride)?,
                is_same,
            );
        }
    }
    Ok(())
}

// A cell by column and line, where it is there.
fn cell_at(image: ImgRef<'_, u8>, x: usize, y: usize) -> Option<u8> {
    let cells = image.buf().len();
    let stride = image.stride();
    if x >= stride || y > cells / stride || y * stride + x >= cells {
        return None;
    }
    Some(image[(x, y)])
}

fn set_cell<C: AsMutSlice<Item = u8>>(image: &mut Img<C>, x: usize, y: usize) -> bool {
    let cells = image.buf().as_slice().len();
    let stride = image.stride();
    if x >= stride || y > cells / stride || y * stride + x >= cells {
        return false;
    }
    image[(x, y)] = 0;
    true
}

#[test]
fn each_cell_that_is_there_has_a_place(rt: HostRuntime) -> Result<(), Fail> {
    for count in 0..10usize {
        let view = first_cells(count, 4);
        for y in 0..4usize {
            for x in 0..5usize {
                let expected = cell_due(count, x, y);
                assert!(rt; cell_at(view, x, y) == expected, "({x}, {y}) of {count}");
            }
        }
    }
    Ok(())
}

// The cell that is due by column and line, of so many at stride 4.
fn cell_due(count: usize, x: usize, y: usize) -> Option<u8> {
    let at = y.saturating_mul(4).saturating_add(x);
    if x < 4 && at < count {
        PADDED.get(at).copied()
    } else {
        None
    }
}

#[test]
fn cells_at_the_greatest_stride_are_in_one_line(rt: HostRuntime) {
    let far = first_cells(9, usize::MAX);
    assert!(rt;
        cell_at(far, 8, 0) == Some(9) && cell_at(far, 9, 0) == None && cell_at(far, 0, 1) == None
    );
}

// Whether the cell of one place is 0 where it is there, and no other has changed.
fn is_set(cells: &[u8], count: usize, at: Option<usize>) -> bool {
    for (number, cell) in cells.iter().enumerate() {
        let expected = if at == Some(number) {
            Some(&0)
        } else {
            PADDED.get(number)
        };
        if Some(cell) != expected {
            return false;
        }
    }
    cells.len() == count
}

// Whether a write sets that cell alone, in an owner and in a lent image of so many cells.
fn sets(alloc: Global, count: usize, x: usize, y: usize) -> Result<bool, AllocError> {
    let at = y.saturating_mul(4).saturating_add(x);
    let set = if at < count { Some(at) } else { None };
    let mut owner = owned_cells(alloc, count, 4)?;
    let mut other = owned_cells(alloc, count, 4)?;
    let is_found = set_cell(&mut owner, x, y) == set.is_some()
        && set_cell(&mut other.as_mut(), x, y) == set.is_some();
    Ok(
        is_found
            && is_set(owner.buf().as_slice(), count, set)
            && is_set(other.buf().as_slice(), count, set),
    )
}

#[test]
fn a_write_by_place_changes_that_cell_alone(rt: HostRuntime) -> Result<(), Fail> {
    for count in 0..10usize {
        for y in 0..3usize {
            for x in 0..4usize {
                assert!(rt; sets(rt.alloc(), count, x, y)?, "({x}, {y}) of {count}");
            }
        }
    }
    Ok(())
}

// Whether the buffer is cut into this stride: so many whole ones, and so many pieces.
fn is_cut<C: AsSlice<Item = u8>>(
    image: &Img<C>,
    stride: usize,
    whole: usize,
    pieces: usize,
) -> bool {
    image.width_padded() == stride
        && image.height_padded() == whole
        && image.rows_padded().count() == pieces
}

// Whether the pieces are the first so many cells.
fn are_first_cells(view: ImgRef<'_, u8>, count: usize) -> bool {
    let mut at = 0usize;
    for piece in view.rows_padded() {
        for cell in piece {
            if Some(cell) != PADDED.get(at) {
                return false;
            }
            at = at.saturating_add(1);
        }
    }
    at == count
}

// Sets the cells of each piece to 0, and returns how many cells are 0.
fn cleared(owner: &mut ImgVec<u8>) -> usize {
    let mut lent = owner.as_mut();
    for piece in lent.rows_padded_mut() {
        piece.fill(0);
    }
    owner
        .buf()
        .as_slice()
        .iter()
        .filter(|cell| **cell == 0)
        .count()
}

#[test]
fn short_buffers_are_cut_into_strides(rt: HostRuntime) -> Result<(), Fail> {
    // Cells, stride, whole strides, and pieces.
    for (count, stride, whole, pieces) in [
        (0, 4, 0, 0),
        (1, 4, 0, 1),
        (4, 4, 1, 1),
        (6, 4, 1, 2),
        (8, 4, 2, 2),
        (9, 4, 2, 3),
        (5, 3, 1, 2),
        (9, 3, 3, 3),
        (9, 9, 1, 1),
        (9, usize::MAX, 0, 1),
        (0, usize::MAX, 0, 0),
    ] {
        let view = first_cells(count, stride);
        assert!(rt; is_cut(&view, stride, whole, pieces) && are_first_cells(view, count));
        let mut owner = owned_cells(rt.alloc(), count, stride)?;
        assert!(rt;
            is_cut(&owner, stride, whole, pieces)
                && is_cut(&ImgExt::as_ref(&owner), stride, whole, pieces)
                && are_first_cells(ImgExt::as_ref(&owner), count)
                && is_cut(&owner.as_mut(), stride, whole, pieces)
                && owner.rows_padded_mut().count() == pieces
        );
        assert!(rt; cleared(&mut owner) == count, "{count} at {stride}");
    }
    Ok(())
}
