//! One list of commands over two lists of images with the same pixels.

ghost use Rattle.std.specs.Prelude.{IfSome};
ghost use Rattle.image_model.specs.Layout.{Fits};
ghost use Rattle.image_model.specs.Grid.{Agree};
ghost use Rattle.imgref.specs.Image.{vec_grid, vec_layout};

use super::fixtures::{ALL, Line, commands, has, image};
use imgref::ImgVec;
use imgref_fixtures::PADDED;
use imgref_replay::{Refusal, Reply, two_layouts};
use std::alloc::{AllocError, Global};
use std::process::Abort;
use std::test::Fail;

const LEFT: [usize; 4] = [0, 0, 2, 2];

// Two images with the same pixels, whatever their strides; else nothing.
#[tactic(auto, using(image_model::proofs::Alike::alike_agree))]
fn pair<T: Eq + Drop>(one: ImgVec<T>, other: ImgVec<T>) -> Option<(ImgVec<T>, ImgVec<T>)>
    requires one_fits { Fits (vec_layout one) }
    requires other_fits { Fits (vec_layout other) }
    ensures fit { IfSome result
        (λ images. Fits (vec_layout images.0) × Fits (vec_layout images.1)) }
    ensures agree { IfSome result (λ images. Agree T.eq (vec_grid images.0) (vec_grid images.1)) }
{
    if one.same_pixels(other.as_ref()) {
        Some((one, other))
    } else {
        None
    }
}

fn all_commands() -> [Line<u8>; 12] {
    [
        Line::Same(0, LEFT, 1, ALL),
        Line::Fill(1, [1, 0, 1, 2], 6),
        Line::Put(0, ALL, 0, 1, 6),
        Line::Compact(0),
        Line::Count(0, ALL, 6),
        Line::Same(0, LEFT, 1, ALL),
        Line::Blit(1, ALL, 0, LEFT),
        Line::Same(0, LEFT, 1, ALL),
        Line::Blit(0, LEFT, 0, [1, 0, 2, 2]),
        Line::Get(1, ALL, 1, 1),
        Line::Count(2, ALL, 0),
        Line::Get(2, ALL, 0, 0),
    ]
}

// Whether the two lists agree.
fn three_images(rt: &impl Abort, alloc: Global) -> Result<bool, AllocError> {
    let commands = commands(alloc, &all_commands())?;
    assert!(rt; commands.len() == 12);
    let first = pair(
        image(rt, alloc, &PADDED, [3, 2, 4])?,
        image(rt, alloc, &[1, 2, 3, 5, 6, 7], [3, 2, 3])?,
    );
    let second = pair(
        image(rt, alloc, &[1, 2, 5, 6], [2, 2, 2])?,
        image(rt, alloc, &[1, 2, 9, 9, 5, 6], [2, 2, 4])?,
    );
    let third = pair(
        image(rt, alloc, &[9], [0, 2, 5])?,
        image(rt, alloc, &[], [0, 2, 1])?,
    );
    let (Some(first), Some(second), Some(third)) = (first, second, third) else {
        return Ok(false);
    };
    let mut a = [first.0, second.0, third.0];
    let mut b = [first.1, second.1, third.1];
    let mut replies_a = [Reply::Done; 12];
    let mut replies_b = [Reply::Truth(true); 12];
    two_layouts(&mut a, &mut b, &commands, &mut replies_a, &mut replies_b);
    let due = [
        Reply::Truth(true),
        Reply::Done,
        Reply::Done,
        Reply::Done,
        Reply::Counted(2),
        Reply::Truth(false),
        Reply::Done,
        Reply::Truth(true),
        Reply::Done,
        Reply::Pixel(6),
        Reply::Counted(0),
        Reply::Refused(Refusal::PlaceOutside),
    ];
    assert!(rt; replies_a.as_slice() == due.as_slice() && replies_b.as_slice() == due.as_slice());
    assert!(rt; has(&a[0], 3, &[1, 1, 6, 5, 5, 6]) && has(&b[0], 3, &[1, 1, 6, 5, 5, 6]));
    assert!(rt; has(&a[1], 2, &[1, 6, 5, 6]) && has(&b[1], 4, &[1, 6, 9, 9, 5, 6]));
    assert!(rt; has(&a[2], 5, &[9]) && has(&b[2], 1, &[]));
    Ok(true)
}

// Whether the two images agree.
fn one_image(rt: &impl Abort, alloc: Global) -> Result<bool, AllocError> {
    let lines = [
        Line::Put(0, [1, 1, 2, 1], 0, 0, 9u8),
        Line::Count(0, ALL, 9),
        Line::Get(0, ALL, 1, 1),
    ];
    let commands = commands(alloc, &lines)?;
    assert!(rt; commands.len() == 3);
    let padded = image(rt, alloc, &PADDED, [3, 2, 4])?;
    let packed = image(rt, alloc, &[1, 2, 3, 5, 6, 7], [3, 2, 3])?;
    let Some((padded, packed)) = pair(padded, packed) else {
        return Ok(false);
    };
    let mut a = [padded];
    let mut b = [packed];
    let mut replies_a = [Reply::Done; 3];
    let mut replies_b = [Reply::Truth(true); 3];
    two_layouts(&mut a, &mut b, &commands, &mut replies_a, &mut replies_b);
    let due = [Reply::Done, Reply::Counted(1), Reply::Pixel(9)];
    assert!(rt; replies_a.as_slice() == due.as_slice() && replies_b.as_slice() == due.as_slice());
    assert!(rt; has(&a[0], 4, &[1, 2, 3, 4, 5, 9, 7, 8, 9]));
    assert!(rt; has(&b[0], 3, &[1, 2, 3, 5, 9, 7]));
    Ok(true)
}

#[test]
fn lists_of_images_in_two_layouts(rt: HostRuntime) -> Result<(), Fail> {
    assert!(rt; one_image(&rt, rt.alloc())? && three_images(&rt, rt.alloc())?);
    Ok(())
}

#[test]
fn two_empty_lists_refuse_alike(rt: HostRuntime) -> Result<(), Fail> {
    let lines: [Line<u8>; 2] = [Line::Get(0, ALL, 0, 0), Line::Compact(0)];
    let commands = commands(rt.alloc(), &lines)?;
    assert!(rt; commands.len() == 2);
    let mut a: [ImgVec<u8>; 0] = [];
    let mut b: [ImgVec<u8>; 0] = [];
    let mut replies_a = [Reply::Done; 2];
    let mut replies_b = [Reply::Truth(true); 2];
    two_layouts(&mut a, &mut b, &commands, &mut replies_a, &mut replies_b);
    let due = [Reply::Refused(Refusal::NoImage); 2];
    assert!(rt; replies_a.as_slice() == due.as_slice() && replies_b.as_slice() == due.as_slice());
    Ok(())
}
