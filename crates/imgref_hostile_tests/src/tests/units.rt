//! Zero-sized pixels: calls of each kind that read, write, or lend a part.

ghost use Rattle.std.specs.Prelude.{◌≡◌};
ghost use Rattle.image_model.specs.Layout.{Fits};
ghost use Rattle.imgref.specs.Image.{width_of, height_of, mut_layout};

use super::fixtures::{UNITS, units};
use imgref::{
    AsMutSlice, AsSlice, Img, ImgExt, ImgExtMut, ImgRef, ImgRefMut, Shape, Stretch, Window,
    fill_pixels,
};
use imgref_fixtures::has_size;
use std::test::Fail;

fn lent(cells: &mut [(); 9]) -> ImgRefMut<'_, ()>
    ensures width { width_of result ≡ 3 }
    ensures height { height_of result ≡ 2 }
    ensures fits { Fits (mut_layout result) }
{
    Img::new_stride(cells.as_mut_slice(), 3, 2, 4)
}

#[test]
fn views_are_read_by_place(rt: HostRuntime) {
    let view = ImgRef::new_stride(UNITS.as_slice(), 3, 2, 4);
    assert!(rt;
        view.is_valid()
            && view.get(2, 1) == Some(())
            && view.get(3, 0) == None
            && view.get(0, 2) == None
    );
    assert!(rt; view[(3usize, 1usize)] == () && view[(0u32, 2u32)] == ());
}

#[test]
fn views_have_windows(rt: HostRuntime) {
    let view = ImgRef::new_stride(UNITS.as_slice(), 3, 2, 4);
    assert!(rt; view.is_valid() && view.has_window(1, 1, 2, 1) && !view.has_window(1, 1, 3, 1));
    let window = view.sub_image(1, 1, 2, 1);
    assert!(rt; window.buf().len() == 4 && has_size(&window, [2, 1, 4]));
}

#[test]
fn views_are_read_one_by_one(rt: HostRuntime) {
    let view = ImgRef::new_stride(UNITS.as_slice(), 3, 2, 4);
    assert!(rt;
        view.is_valid()
            && view.row(1).len() == 3
            && view.rows().count() == 2
            && view.rows().rev().count() == 2
            && view.pixels().count() == 6
            && view.pixels_ref().count() == 6
    );
    assert!(rt; view.iter().count() == 9 && view.into_iter().count() == 9);
}

#[test]
fn views_are_cut_into_strides(rt: HostRuntime) {
    let view = ImgRef::new_stride(UNITS.as_slice(), 3, 2, 4);
    assert!(rt;
        view.width_padded() == 4
            && view.height_padded() == 2
            && view.rows_padded().count() == 3
            && ImgExt::as_ref(&view).buf().as_slice().len() == 9
    );
    let (cells, shape) = view.into_parts();
    assert!(rt; cells.len() == 9 && shape.fits(7) && !shape.fits(6));
}

#[test]
fn lent_pixels_are_written(rt: HostRuntime) {
    let mut cells = UNITS;
    let mut lent = ImgRefMut::new_stride(cells.as_mut_slice(), 3, 2, 4);
    assert!(rt; lent.is_valid());
    lent.put(2, 1, ());
    lent.fill_row(1, ());
    lent.fill(());
    lent[(3usize, 1usize)] = ();
    lent[(0u32, 2u32)] = ();
    assert!(rt; is_as_before(&lent));
    fill_pixels(cells.as_mut_slice(), Shape::new(3, 2, 4), ());
    assert!(rt; cells == UNITS);
}

#[test]
fn lent_pixels_are_moved(rt: HostRuntime) {
    let mut cells = UNITS;
    let mut lent = ImgRefMut::new_stride(cells.as_mut_slice(), 3, 2, 4);
    assert!(rt; lent.is_valid() && lent.has_window(1, 1, 2, 1));
    lent.fill_window(1, 1, 2, 1, ());
    lent.move_window(1, 1, 0, 0, 2, 1);
    lent.swap_rows(0, 1);
    lent.map_pixels(|unit| unit);
    assert!(rt; is_as_before(&lent));
}

// Whether a lent image has its six pixels.
fn is_as_before(lent: &ImgRefMut<'_, ()>) -> bool {
    lent.is_valid()
        && lent.get(2, 1) == Some(())
        && lent.get(3, 1) == None
        && lent.same_pixels(ImgRef::new_stride(UNITS.as_slice(), 3, 2, 4))
}

#[test]
fn lent_rows_and_pixels_are_lent_on(rt: HostRuntime) {
    let mut cells = UNITS;
    let mut lent = lent(&mut cells);
    assert!(rt; lent.row_mut(1).len() == 3 && lent.is_valid() && lent.rows_mut().count() == 2);
    assert!(rt;
        lent.is_valid()
            && lent.pixels_mut().count() == 6
            && lent.rows_padded_mut().count() == 3
            && ImgExtMut::as_mut(&mut lent).buf().len() == 9
    );
}

#[test]
fn windows_of_lent_cells_are_lent_on(rt: HostRuntime) {
    let mut cells = UNITS;
    let mut lent = lent(&mut cells);
    assert!(rt;
        lent.has_window(1, 1, 2, 1)
            && lent.sub_image_mut(1, 1, 2, 1).buf().len() == 4
            && lent.is_valid()
            && lent.has_window(1, 1, 2, 1)
            && lent.window_parts_mut(Window::new(1, 1, 2, 1)).0.len() == 4
    );
    assert!(rt; lent.is_valid() && lent.has_window(1, 1, 2, 1));
    let cut = lent.into_sub_image_mut(1, 1, 2, 1);
    assert!(rt; has_size(&cut, [2, 1, 4]) && cut.into_buf().len() == 4);
}

#[test]
fn no_cell_of_lent_ones_makes_an_image(rt: HostRuntime) {
    let mut cells = UNITS;
    let nothing = Stretch { start: 9, len: 0 };
    let part = ImgRefMut::from_stretch(cells.as_mut_slice(), nothing, Shape::new(0, 2, 4));
    assert!(rt; part.is_valid() && part.buf().is_empty());
}

#[test]
fn windows_of_owners_are_lent(rt: HostRuntime) -> Result<(), Fail> {
    let mut owner = units(rt.alloc())?;
    assert!(rt;
        owner.is_valid()
            && owner.has_window(1, 1, 2, 1)
            && owner.window_parts_mut(Window::new(1, 1, 2, 1)).0.len() == 2
            && owner.is_valid()
            && owner.has_window(1, 1, 2, 1)
            && owner.sub_image_mut(1, 1, 2, 1).buf().len() == 2
            && owner.is_valid()
    );
    Ok(())
}

#[test]
fn owners_get_other_images(rt: HostRuntime) -> Result<(), Fail> {
    let mut owner = units(rt.alloc())?;
    assert!(rt; owner.is_valid());
    let source = ImgRef::new(UNITS.as_slice(), 3, 2);
    assert!(rt;
        source.is_valid()
            && owner.has_window(0, 0, 3, 2)
            && owner.width() == 3
            && owner.height() == 2
    );
    owner.copy_from(source);
    assert!(rt; owner.is_valid() && owner.has_window(0, 0, 3, 2));
    owner.copy_window(0, 0, source);
    assert!(rt; owner.is_valid());
    Ok(())
}

#[test]
fn cells_of_a_container_are_lent(rt: HostRuntime) -> Result<(), Fail> {
    let mut cells = UNITS.to_vec(rt.alloc())?;
    assert!(rt; cells.len() == 9 && cells.stretch_mut(2, 7).len() == 7 && cells.len() == 9);
    *cells.cell_mut(8) = ();
    Ok(())
}
