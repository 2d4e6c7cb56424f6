//! Commands as values: on pixels of other kinds, over lists of images, and out of memory. The
//! worked scripts are in the folder cases/.

ghost use Rattle.std.specs.Prelude.{IfOk};
ghost use Rattle.imgref_replay.specs.Lists.{AllFit};

use super::fixtures::{ALL, Line, commands, has, image, window};
use imgref::ImgVec;
use imgref_fixtures::PADDED;
use imgref_replay::{Command, Place, Refusal, Reply, replay, replay_into};
use std::alloc::{AllocError, Global};
use std::process::Abort;
use std::test::Fail;

#[derive(Clone, Copy, PartialEq, Eq)]
struct Rgb {
    red: u8,
    green: u8,
    blue: u8,
}

const SKY: Rgb = Rgb {
    red: 90,
    green: 160,
    blue: 250,
};

const SAND: Rgb = Rgb {
    red: 220,
    green: 200,
    blue: 150,
};

const LEFT: [usize; 4] = [0, 0, 1, 2];

const RIGHT: [usize; 4] = [1, 0, 1, 2];

const TOP: [usize; 4] = [0, 0, 2, 1];

// Each command on images of two pixels.
fn every_command<T: Copy>(one: T, other: T) -> [Line<T>; 16] {
    [
        Line::Put(0, ALL, 1, 1, other),
        Line::Get(0, ALL, 1, 1),
        Line::Get(0, ALL, 0, 1),
        Line::Get(0, ALL, 2, 1),
        Line::Count(0, ALL, one),
        Line::Fill(0, TOP, other),
        Line::Count(0, ALL, other),
        Line::Fill(1, RIGHT, other),
        Line::Count(1, RIGHT, other),
        Line::Same(0, LEFT, 0, RIGHT),
        Line::Same(0, ALL, 0, RIGHT),
        Line::Blit(0, LEFT, 0, RIGHT),
        Line::Blit(0, ALL, 2, ALL),
        Line::Mosaic(0, ALL, 0, 2),
        Line::Mosaic(0, ALL, 1, 2),
        Line::Compact(3),
    ]
}

// The replies to them. Where both pixels are equal, all four are found, and two columns are the same.
fn due<T: Copy + Eq>(one: T, other: T) -> [Reply<T>; 16] {
    let is_same = one == other;
    let found = if is_same { 4 } else { 3 };
    [
        Reply::Done,
        Reply::Pixel(other),
        Reply::Pixel(one),
        Reply::Refused(Refusal::PlaceOutside),
        Reply::Counted(found),
        Reply::Done,
        Reply::Counted(found),
        Reply::Done,
        Reply::Counted(2),
        Reply::Truth(is_same),
        Reply::Truth(false),
        Reply::Done,
        Reply::Done,
        Reply::Refused(Refusal::NoTile),
        Reply::Done,
        Reply::Done,
    ]
}

#[test]
fn pixels_may_have_fields(rt: HostRuntime) -> Result<(), Fail> {
    let commands = commands(rt.alloc(), &every_command(SKY, SAND))?;
    let mut images = [
        image(&rt, rt.alloc(), &[SKY; 5], [2, 2, 3])?,
        image(&rt, rt.alloc(), &[SKY; 5], [2, 2, 3])?,
        image(&rt, rt.alloc(), &[SKY; 4], [2, 2, 2])?,
        image(&rt, rt.alloc(), &[SKY, SAND, SAND, SAND, SKY], [2, 2, 3])?,
    ];
    let replies = replay(rt.alloc(), &mut images, &commands)?;
    assert!(rt; replies.as_slice() == due(SKY, SAND).as_slice());
    assert!(rt; has(&images[0], 3, &[SAND, SAND, SKY, SAND, SAND]));
    assert!(rt; has(&images[1], 3, &[SKY, SAND, SKY, SKY, SAND]));
    assert!(rt; has(&images[2], 2, &[SAND, SAND, SKY, SKY]));
    assert!(rt; has(&images[3], 2, &[SKY, SAND, SAND, SKY]));
    Ok(())
}

#[test]
fn pixels_may_have_no_size(rt: HostRuntime) -> Result<(), Fail> {
    let commands = commands(rt.alloc(), &every_command((), ()))?;
    let mut images = [
        image(&rt, rt.alloc(), &[(); 5], [2, 2, 3])?,
        image(&rt, rt.alloc(), &[(); 5], [2, 2, 3])?,
        image(&rt, rt.alloc(), &[(); 4], [2, 2, 2])?,
        image(&rt, rt.alloc(), &[(); 5], [2, 2, 3])?,
    ];
    let replies = replay(rt.alloc(), &mut images, &commands)?;
    assert!(rt; replies.as_slice() == due((), ()).as_slice());
    assert!(rt; has(&images[0], 3, &[(); 5]));
    assert!(rt; has(&images[1], 3, &[(); 5]));
    assert!(rt; has(&images[2], 2, &[(); 4]));
    assert!(rt; has(&images[3], 2, &[(); 4]));
    Ok(())
}

#[test]
fn no_image_and_no_command_have_no_reply(rt: HostRuntime) -> Result<(), Fail> {
    let mut none: [ImgVec<u8>; 0] = [];
    assert_eq!(rt; replay(rt.alloc(), &mut none, &[])?.len(), 0);
    Ok(())
}

#[test]
fn replies_are_written_over_what_was_there(rt: HostRuntime) -> Result<(), Fail> {
    let lines = [Line::Put(1, ALL, 0, 0, 9u8), Line::Get(0, ALL, 0, 0)];
    let commands = commands(rt.alloc(), &lines)?;
    assert!(rt; commands.len() == 2);
    let mut images = [
        image(&rt, rt.alloc(), &[1, 2], [2, 1, 2])?,
        image(&rt, rt.alloc(), &[3, 4], [1, 2, 1])?,
    ];
    let mut replies = [Reply::Truth(true); 2];
    replay_into(&mut images, &commands, &mut replies);
    assert!(rt; replies.as_slice() == [Reply::Done, Reply::Pixel(1)].as_slice());
    assert!(rt; has(&images[0], 2, &[1, 2]));
    assert!(rt; has(&images[1], 1, &[9, 4]));
    Ok(())
}

// Commands in nested windows and in others, and the image that they are for.
fn prepared(
    rt: &impl Abort,
    alloc: Global,
) -> Result<(Vec<Command<u8>>, [ImgVec<u8>; 1]), AllocError>
    ensures { IfOk result (λ made. AllFit made.1) }
{
    let lines = [
        Line::Put(0, [1, 1, 2, 1], 0, 0, 9u8),
        Line::Count(0, ALL, 9),
        Line::Get(0, ALL, 1, 1),
    ];
    let mut all = commands(alloc, &lines)?;
    let path = [window([1, 0, 2, 2]), window([1, 0, 1, 2])].to_vec(alloc)?;
    let spot = Place { image: 0, path };
    all.push(Command::Get { spot, x: 0, y: 1 })?;
    Ok((all, [image(rt, alloc, &PADDED, [3, 2, 4])?]))
}

// Where memory is refused in `replay`, no image has changed. It takes one growth: this test takes one more than the next,
// as `.ci/checks/built/refused_growths.py` counts.
#[test]
fn refused_memory_changes_nothing(rt: HostRuntime) -> Result<(), Fail> {
    let (commands, mut images) = prepared(&rt, rt.alloc())?;
    let answer = replay(rt.alloc(), &mut images, &commands);
    if answer.is_err() {
        assert!(rt; has(&images[0], 4, &PADDED));
    }
    let due = [
        Reply::Done,
        Reply::Counted(1),
        Reply::Pixel(9),
        Reply::Pixel(7),
    ];
    assert!(rt; answer?.as_slice() == due.as_slice());
    Ok(())
}

#[test]
fn what_replay_is_given(rt: HostRuntime) -> Result<(), Fail> {
    let (commands, images) = prepared(&rt, rt.alloc())?;
    assert!(rt; commands.len() == 4 && has(&images[0], 4, &PADDED));
    Ok(())
}
