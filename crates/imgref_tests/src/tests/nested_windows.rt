//! Writes through a window of a window.

use imgref::{Shape, Window};
use imgref_examples::{NestedPlace, put_in_cells, put_nested};
use imgref_fixtures::{PADDED, padded, padded_mut};
use std::test::Fail;

// It is the place (2, 1) of the image, cell 6.
const PLACE: NestedPlace = NestedPlace {
    first: Window {
        left: 1,
        top: 0,
        width: 2,
        height: 2,
    },
    second: Window {
        left: 1,
        top: 0,
        width: 1,
        height: 2,
    },
    x: 0,
    y: 1,
};

const AFTER: [u8; 9] = [1, 2, 3, 4, 5, 6, 0, 8, 9];

#[test]
fn a_write_lands_at_the_summed_place(rt: HostRuntime) -> Result<(), Fail> {
    let mut owner = padded(rt.alloc())?;
    assert!(rt; owner.is_valid() && owner.shape().has_window(PLACE.first));
    put_nested(&mut owner, PLACE, 0);
    assert!(rt; owner.into_buf().as_slice() == AFTER.as_slice());
    Ok(())
}

#[test]
fn a_write_in_lent_cells_lands_at_the_summed_place(rt: HostRuntime) {
    let mut cells = PADDED;
    let mut lent = padded_mut(&mut cells);
    assert!(rt; lent.is_valid() && lent.shape().has_window(PLACE.first));
    put_nested(&mut lent, PLACE, 0);
    assert!(rt; cells.as_slice() == AFTER.as_slice());
    let mut cells = PADDED;
    put_in_cells(&mut cells, Shape::new(3, 2, 4), PLACE, 0);
    assert!(rt; cells.as_slice() == AFTER.as_slice());
}
