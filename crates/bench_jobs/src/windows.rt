//! Commands over large windows, as values.

use crate::digest::Digest;
use crate::numbers::Numbers;
use crate::photos::{Pixel, add_image, photo};
use crate::request::{Fault, Size};
use imgref::{ImgVec, Window};
use imgref_replay::{Command, Place, Reply, replay_into};
use std::alloc::Global;

// A place whose path is one window inside the image of this size.
fn spot(
    alloc: Global,
    numbers: &mut Numbers,
    image: usize,
    outer: (usize, usize),
    inner: (usize, usize),
) -> Result<Place, Fault> {
    let left = numbers.below(outer.0.saturating_sub(inner.0).saturating_add(1).max(1));
    let top = numbers.below(outer.1.saturating_sub(inner.1).saturating_add(1).max(1));
    let mut path = Vec::new(alloc);
    path.push(Window::new(left, top, inner.0, inner.1))?;
    Ok(Place { image, path })
}

// A place that is one column or one row further than another.
fn beside(alloc: Global, spot: &Place, across: usize, down: usize) -> Result<Place, Fault> {
    let mut path = Vec::new(alloc);
    for window in &spot.path {
        path.push(Window::new(
            window.left.wrapping_add(across),
            window.top.wrapping_add(down),
            window.width,
            window.height,
        ))?;
    }
    Ok(Place {
        image: spot.image,
        path,
    })
}

// A copy of a window over the one that is so many columns and rows further.
fn scroll<T: Pixel>(
    alloc: Global,
    numbers: &mut Numbers,
    outer: (usize, usize),
    across: usize,
    down: usize,
) -> Result<Command<T>, Fault> {
    let inner = (outer.0 - outer.0 / 16, outer.1 - outer.1 / 16);
    let source = spot(
        alloc,
        numbers,
        0,
        (outer.0 - outer.0 / 32, outer.1 - outer.1 / 32),
        inner,
    )?;
    let target = beside(alloc, &source, across, down)?;
    Ok(Command::Blit { source, target })
}

// The command of this number in a round.
fn command<T: Pixel>(
    alloc: Global,
    numbers: &mut Numbers,
    number: usize,
    outer: (usize, usize),
) -> Result<Command<T>, Fault> {
    let large = (outer.0 - outer.0 / 8, outer.1 - outer.1 / 8);
    let half = (outer.0 / 2, outer.1 / 2);
    Ok(match number {
        0 | 5 | 9 => Command::Count {
            spot: spot(alloc, numbers, number % 2, outer, large)?,
            value: T::of(numbers.next()),
        },
        1 => Command::Blit {
            source: spot(alloc, numbers, 0, outer, large)?,
            target: spot(alloc, numbers, 1, outer, large)?,
        },
        2 => scroll(alloc, numbers, outer, 0, 1)?,
        3 => scroll(alloc, numbers, outer, 1, 0)?,
        4 | 7 | 10 => Command::Mosaic {
            spot: spot(alloc, numbers, number % 2, outer, half)?,
            tile_width: 2 + numbers.below(15),
            tile_height: 2 + numbers.below(15),
        },
        6 => Command::Fill {
            spot: spot(alloc, numbers, 1, outer, half)?,
            value: T::of(numbers.next()),
        },
        8 => Command::Mosaic {
            spot: spot(alloc, numbers, 1, outer, half)?,
            tile_width: 2,
            tile_height: 2,
        },
        // The second of these is a copy of the first, so all of it is compared.
        _ => {
            let place = spot(alloc, numbers, 1, outer, large)?;
            let same = beside(alloc, &place, 0, 0)?;
            Command::Same {
                first: place,
                second: same,
            }
        }
    })
}

// So many rounds of commands over two images of one size, and at last their compaction.
fn commands<T: Pixel>(
    alloc: Global,
    numbers: &mut Numbers,
    outer: (usize, usize),
    rounds: usize,
) -> Result<Vec<Command<T>>, Fault> {
    let mut commands = Vec::new(alloc);
    for _ in 0..rounds {
        for number in 0..12 {
            commands.push(command(alloc, numbers, number, outer)?)?;
        }
    }
    for image in 0..2 {
        commands.push(Command::Compact { image })?;
    }
    Ok(commands)
}

fn add_reply<T: Pixel>(digest: &mut Digest, reply: Reply<T>) {
    match reply {
        Reply::Pixel(pixel) => digest.add(pixel.number()),
        Reply::Counted(count) => digest.add(count as u64),
        Reply::Truth(true) => digest.add(3),
        Reply::Truth(false) => digest.add(5),
        Reply::Done => digest.add(7),
        Reply::Refused(_) => digest.add(9),
    }
}

// Runs so many rounds over two images of this size.
fn replay_over<T: Pixel>(
    alloc: Global,
    numbers: &mut Numbers,
    digest: &mut Digest,
    outer: (usize, usize),
    stride: usize,
    rounds: usize,
) -> Result<(), Fault> {
    let mut images: Vec<ImgVec<T>> = Vec::new(alloc);
    images.push(photo(alloc, numbers, outer.0, outer.1, stride)?)?;
    images.push(photo(alloc, numbers, outer.0, outer.1, stride)?)?;
    let commands = commands(alloc, numbers, outer, rounds)?;
    let mut replies = Vec::new(alloc);
    replies.resize_with(commands.len(), || Reply::Done)?;
    replay_into(&mut images, &commands, &mut replies);
    for reply in &replies {
        add_reply(digest, *reply);
    }
    for image in &images {
        add_image(digest, image);
    }
    Ok(())
}

/// Runs commands over windows of images of 1 to 12 megapixels, of bytes and of words of four bytes.
pub(crate) fn run(
    alloc: Global,
    size: Size,
    numbers: &mut Numbers,
    digest: &mut Digest,
) -> Result<(), Fault> {
    let small = (64, 48);
    if size == Size::Small {
        replay_over::<u8>(alloc, numbers, digest, small, 70, 2)?;
        return replay_over::<u32>(alloc, numbers, digest, small, 64, 1);
    }
    replay_over::<u8>(alloc, numbers, digest, (4000, 3000), 4096, 36)?;
    replay_over::<u8>(alloc, numbers, digest, (1280, 800), 1300, 130)?;
    replay_over::<u32>(alloc, numbers, digest, (1920, 1080), 1920, 36)
}
