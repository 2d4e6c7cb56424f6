//! Copies of images, and images whose cells are borrowed or owned.

ghost use Rattle.std.specs.Prelude.{◌≡◌, ◌≢◌};

use imgref::{Img, ImgRef, ImgVec};
use imgref_fixtures::{PADDED, has_size, padded};
use std::alloc::AllocError;
use std::borrow::CowSlice;
use std::test::Fail;

// A pixel whose clone refuses the value 5.
#[derive(Drop, PartialEq, Debug)]
struct Fussy {
    value: u8,
}

impl Clone for Fussy {
    ghost is_clone = { λ x y. y ≡ x };

    ghost is_infallible = { λ x. x.value ≢ 5 };

    fn clone(&self) -> Result<Self, AllocError> {
        if self.value == 5 {
            Err(AllocError)
        } else {
            Ok(Fussy { value: self.value })
        }
    }
}

fn pixel(value: u8) -> Fussy {
    Fussy { value }
}

// Three by two with one cell of padding after the first row: all values from 1 to 7.
fn all_fussy() -> [Fussy; 7] {
    [
        pixel(1),
        pixel(2),
        pixel(3),
        pixel(4),
        pixel(5),
        pixel(6),
        pixel(7),
    ]
}

// The same with the value 5 in the padding.
fn fussy_padding() -> [Fussy; 7] {
    [
        pixel(1),
        pixel(2),
        pixel(3),
        pixel(5),
        pixel(4),
        pixel(6),
        pixel(7),
    ]
}

// The rows of the image with that padding.
fn fussy_rows() -> [Fussy; 6] {
    [pixel(1), pixel(2), pixel(3), pixel(4), pixel(6), pixel(7)]
}

// Whether this is the image of nine cells, padding included.
fn is_padded(image: &ImgVec<u8>) -> bool {
    image.buf().as_slice() == PADDED.as_slice() && has_size(image, [3, 2, 4])
}

fn is_padded_ref(image: ImgRef<'_, u8>) -> bool {
    *image.buf() == PADDED.as_slice() && has_size(&image, [3, 2, 4])
}

#[test]
fn each_kind_is_copied_whole(rt: HostRuntime) -> Result<(), Fail> {
    let mut image = padded(rt.alloc())?;
    assert!(rt; is_padded(&image.to_owned(rt.alloc())?));
    assert!(rt; is_padded(&image.clone(rt.alloc())?));
    assert!(rt; is_padded(&image.as_ref().to_owned(rt.alloc())?));
    assert!(rt; is_padded(&image.as_mut().to_owned(rt.alloc())?));
    Ok(())
}

#[test]
fn a_small_image_is_copied_whole(rt: HostRuntime) -> Result<(), Fail> {
    let small = Img::new_stride([1u8, 2, 3, 4, 5, 6, 7, 8].as_slice(), 2, 2, 3);
    let copy = small.to_owned(rt.alloc())?;
    assert!(rt; copy.buf().as_slice() == [1u8, 2, 3, 4, 5, 6, 7, 8].as_slice());
    assert!(rt; has_size(&copy, [2, 2, 3]));
    Ok(())
}

#[test]
fn an_image_that_does_not_fit_is_copied(rt: HostRuntime) -> Result<(), Fail> {
    let short = Img::new_stride([7u8].as_slice(), 2, 2, usize::MAX);
    assert!(rt; !short.is_valid());
    let copy = short.to_owned(rt.alloc())?;
    assert!(rt; copy.buf().as_slice() == [7u8].as_slice());
    assert!(rt; has_size(&copy, [2, 2, usize::MAX]));
    Ok(())
}

#[test]
fn lent_cells_become_owned(rt: HostRuntime) -> Result<(), Fail> {
    let lent: Img<CowSlice<'_, u8>> = Img::new_stride(PADDED.as_slice(), 3, 2, 4).into();
    assert!(rt; lent.is_valid());
    let Ok(joined) = lent.into_owned(rt.alloc()) else {
        return Err(AllocError.into());
    };
    assert!(rt; joined.buf().as_slice() == [1u8, 2, 3, 5, 6, 7].as_slice());
    assert!(rt; has_size(&joined, [3, 2, 3]));
    Ok(())
}

#[test]
fn lent_cells_become_owned_with_padding(rt: HostRuntime) -> Result<(), Fail> {
    let lent: Img<CowSlice<'_, u8>> = Img::new_stride(PADDED.as_slice(), 3, 2, 4).into();
    let Ok(whole) = lent.into_vec(rt.alloc()) else {
        return Err(AllocError.into());
    };
    assert!(rt; is_padded(&whole));
    Ok(())
}

// Whether this is a copy of the image of nine cells, or memory was refused.
fn is_copy_or_nothing(copy: Option<ImgVec<u8>>) -> bool {
    match copy {
        Some(copy) => is_padded(&copy),
        None => true,
    }
}

#[test]
fn owned_cells_stay(rt: HostRuntime) -> Result<(), Fail> {
    let owned: Img<CowSlice<'static, u8>> = padded(rt.alloc())?.into();
    assert!(rt; is_copy_or_nothing(owned.into_owned(rt.alloc()).ok()));
    let owned: Img<CowSlice<'static, u8>> = padded(rt.alloc())?.into();
    assert!(rt; is_copy_or_nothing(owned.into_vec(rt.alloc()).ok()));
    Ok(())
}

// A growth may be refused in each call here: the image is as it was in either case.
#[test]
fn the_image_stays_where_memory_is_wanting(rt: HostRuntime) -> Result<(), Fail> {
    let mut image = padded(rt.alloc())?;
    assert!(rt; is_copy_or_nothing(image.to_owned(rt.alloc()).ok()) && is_padded(&image));
    assert!(rt; is_copy_or_nothing(image.clone(rt.alloc()).ok()) && is_padded(&image));
    let copy = image.as_mut().to_owned(rt.alloc()).ok();
    assert!(rt; is_copy_or_nothing(copy) && is_padded(&image));
    Ok(())
}

// Whether the cells that are handed back are still lent, and those of the image.
fn is_back(back: &Img<CowSlice<'_, u8>>) -> bool {
    let is_lent = matches!(back.buf(), CowSlice::Borrowed(_));
    is_lent && is_padded_ref(Img::from_parts(back.buf().as_ref(), back.shape()))
}

#[test]
fn a_lent_image_stays_where_memory_is_wanting(rt: HostRuntime) -> Result<(), Fail> {
    let image = padded(rt.alloc())?;
    let lent: Img<CowSlice<'_, u8>> = image.as_ref().into();
    let is_well = match lent.into_vec(rt.alloc()) {
        Ok(whole) => is_padded(&whole),
        Err(back) => is_back(&back),
    };
    assert!(rt; is_well);
    Ok(())
}

#[test]
fn a_lent_image_stays_where_its_rows_find_no_memory(rt: HostRuntime) -> Result<(), Fail> {
    let image = padded(rt.alloc())?;
    let lent: Img<CowSlice<'_, u8>> = image.as_ref().into();
    assert!(rt; lent.is_valid());
    let is_well = match lent.into_owned(rt.alloc()) {
        Ok(joined) => joined.buf().as_slice() == [1u8, 2, 3, 5, 6, 7].as_slice(),
        Err(back) => is_back(&back),
    };
    assert!(rt; is_well);
    Ok(())
}

#[test]
fn a_clone_that_refuses_is_told(rt: HostRuntime) -> Result<(), Fail> {
    let cells = all_fussy();
    let mut kept = all_fussy();
    let image = Img::new_stride(cells.as_slice(), 3, 2, 4);
    assert!(rt; image.is_valid());
    assert!(rt;
        image.to_owned(rt.alloc()).is_err() && image.to_contiguous_buf(rt.alloc()).is_err()
    );
    let lent = Img::new_stride(kept.as_mut_slice(), 3, 2, 4);
    assert!(rt; lent.to_owned(rt.alloc()).is_err());
    Ok(())
}

#[test]
fn a_clone_that_refuses_hands_the_cells_back(rt: HostRuntime) -> Result<(), Fail> {
    let (cells, kept) = (all_fussy(), all_fussy());
    let lent: Img<CowSlice<'_, Fussy>> = Img::new_stride(cells.as_slice(), 3, 2, 4).into();
    assert!(rt; lent.is_valid());
    let Err(back) = lent.into_owned(rt.alloc()) else {
        return Err(AllocError.into());
    };
    assert!(rt; has_size(&back, [3, 2, 4]));
    let Err(back) = back.into_vec(rt.alloc()) else {
        return Err(AllocError.into());
    };
    assert!(rt; has_size(&back, [3, 2, 4]) && back.buf().as_ref() == kept.as_slice());
    Ok(())
}

#[test]
fn an_owner_whose_clone_refuses_stays(rt: HostRuntime) -> Result<(), Fail> {
    let kept = all_fussy();
    let owner: ImgVec<Fussy> = Img::new_stride(Vec::from_array(rt.alloc(), all_fussy())?, 3, 2, 4);
    assert!(rt; owner.to_owned(rt.alloc()).is_err() && owner.clone(rt.alloc()).is_err());
    assert!(rt; owner.buf().as_slice() == kept.as_slice());
    Ok(())
}

// What lies in the padding alone is cloned by a copy of the whole buffer, and by no other.
#[test]
fn padding_is_not_cloned_with_the_rows(rt: HostRuntime) -> Result<(), Fail> {
    let cells = fussy_padding();
    let image = Img::new_stride(cells.as_slice(), 3, 2, 4);
    assert!(rt; image.is_valid());
    assert!(rt; image.to_owned(rt.alloc()).is_err());
    let (joined, _, _) = image.to_contiguous_buf(rt.alloc())?;
    assert!(rt; joined.as_ref() == fussy_rows().as_slice());
    Ok(())
}
