//! One row by its number.

ghost use Rattle.std.specs.Prelude.{◌≡◌, ◌*◌, ◌<◌, ◌++◌, length, take, drop};
ghost use Rattle.image_model.specs.Layout.{Fits, layout};
ghost use Rattle.imgref.specs.Image.{width_of, height_of, layout_by, vec_layout};

use imgref::{AsSlice, Img, ImgRefMut, ImgVec};
use imgref_examples::fill_row_at;
use imgref_fixtures::{PADDED, padded};
use std::test::Fail;

fn row_of<C: AsSlice>(image: &Img<C>, y: usize) -> &[C::Item]
    requires row { y < height_of image.now }
    requires fits { Fits (layout_by C.cells image.now) }
{
    image.row(y)
}

#[tactic(auto, unfolding(imgref::specs::Index::with_row))]
fn set_row<T: Copy>(image: &mut ImgVec<T>, y: usize, values: &[T])
    requires row { y < height_of image.old }
    requires some { 0 < width_of image.old }
    requires fits { Fits (vec_layout image.old) }
    requires long { length values.now ≡ width_of image.old }
    ensures { let old = vec_layout image.old in vec_layout image.new ≡ layout (take (y * old.stride)
        old.cells ++ (values.now ++ drop (length values.now) (drop (y * old.stride) old.cells)))
        old.width old.height old.stride }
{
    image.row_mut(y).copy_from_slice(values);
}

// Whether the two rows have their pixels.
fn has_both_rows<C: AsSlice<Item = u8>>(image: &Img<C>) -> bool {
    if !image.is_valid() || image.height() != 2 {
        return false;
    }
    image.row(0) == [1u8, 2].as_slice() && row_of(image, 1) == [4u8, 5].as_slice()
}

#[test]
fn a_row_has_the_pixels_of_a_line(rt: HostRuntime) -> Result<(), Fail> {
    let mut cells = [1u8, 2, 3, 4, 5, 6, 7, 8];
    let owned: ImgVec<u8> = Img::new_stride(cells.to_vec(rt.alloc())?, 2, 2, 3);
    assert!(rt; has_both_rows(&owned));
    assert!(rt; has_both_rows(&Img::new_stride(cells.as_slice(), 2, 2, 3)));
    assert!(rt; has_both_rows(&Img::new_stride(cells.as_mut_slice(), 2, 2, 3)));
    Ok(())
}

#[test]
fn a_row_of_width_zero_is_empty(rt: HostRuntime) -> Result<(), Fail> {
    let mut cells = [9u8, 9];
    for stride in [1, usize::MAX] {
        if stride < 1 {
            continue;
        }
        let mut owned: ImgVec<u8> = Img::new_stride(cells.to_vec(rt.alloc())?, 0, 2, stride);
        assert!(rt; owned.row(1).len() == 0 && owned.row_mut(1).len() == 0);
        let lent = Img::new_stride(cells.as_slice(), 0, 4294967295, stride);
        assert!(rt; lent.row(4294967294).len() == 0);
        let mut written = Img::new_stride(cells.as_mut_slice(), 0, 2, stride);
        assert!(rt; written.row(1).len() == 0 && written.row_mut(1).len() == 0);
    }
    Ok(())
}

#[test]
fn a_write_in_a_row_changes_its_cells(rt: HostRuntime) -> Result<(), Fail> {
    let mut cells = [1u8, 2, 3, 4, 5, 6, 7, 8];
    let mut owned: ImgVec<u8> = Img::new_stride(cells.to_vec(rt.alloc())?, 2, 2, 3);
    assert!(rt; owned.is_valid());
    let row = owned.row_mut(1);
    assert!(rt; &*row == [4u8, 5].as_slice());
    row.fill(0);
    assert!(rt; owned.into_buf().as_slice() == [1u8, 2, 3, 0, 0, 6, 7, 8].as_slice());
    let mut lent = Img::new_stride(cells.as_mut_slice(), 2, 2, 3);
    assert!(rt; lent.is_valid());
    lent.row_mut(0).fill(9);
    assert!(rt; cells.as_slice() == [9u8, 9, 3, 4, 5, 6, 7, 8].as_slice());
    Ok(())
}

#[test]
fn a_row_is_filled(rt: HostRuntime) -> Result<(), Fail> {
    let mut owned = padded(rt.alloc())?;
    assert!(rt; owned.height() == 2);
    fill_row_at(&mut owned, 0, 0);
    assert!(rt; owned.buf().as_slice() == [0u8, 0, 0, 4, 5, 6, 7, 8, 9].as_slice());
    let mut cells = PADDED;
    let mut lent: ImgRefMut<'_, u8> = Img::new_stride(cells.as_mut_slice(), 0, 2, 4);
    assert!(rt; lent.is_valid());
    fill_row_at(&mut lent, 1, 0);
    assert!(rt; cells == PADDED);
    Ok(())
}
