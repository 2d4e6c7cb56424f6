//! Lists of commands, run over images from the first to the last.

ghost use Rattle.std.specs.Prelude.{◌≡◌, IfOk, OnErr, length};
ghost use Rattle.imgref.specs.Lists.{AllFit, layouts_of, grids_of};
ghost use Rattle.imgref_replay.specs.Run.{IsRun};
ghost use Rattle.imgref_replay.specs.Layouts.{GridsAgree, RepliesAgree};

use crate::step::replay_next;
use image_commands::{Command, Reply};
use imgref::ImgVec;
use std::alloc::{AllocError, Global};

/// Runs the commands from the first to the last, and writes the reply to each into `replies`. It
/// allocates no memory.
///
/// Replies and new pixels are what the commands mean on grids (`replies_to`, `after_all`), for all
/// strides and paddings. A command with a fault is refused: the reply names its first fault, and
/// nothing changes. Each image fits again. It keeps its stride, length and padding until it is
/// compacted, and is exactly its joined rows from then on (`IsRun`).
///
/// # Requires
///
/// Every image fits (`is_valid`), and `replies` is as long as `commands`.
pub fn replay_into<T: Copy + Eq>(
    images: &mut [ImgVec<T>],
    commands: &[Command<T>],
    replies: &mut [Reply<T>],
)
    requires all_fit { AllFit images.old }
    requires as_many { length replies.old ≡ length commands.now }
    ensures { IsRun T.eq commands.now (layouts_of images.old) (layouts_of images.new) replies.new }
{
    for (i, command) in commands.iter().enumerate() {
        replies[i] = replay_next(images, command);
    }
}

/// Runs the commands as `replay_into` does, and returns the replies, one for each command and in
/// order.
///
/// # Requires
///
/// Every image fits (`is_valid`).
///
/// # Errors
///
/// Out of memory. The memory for all replies is allocated before the first command, so no image has
/// changed.
pub fn replay<T: Copy + Eq>(
    alloc: Global,
    images: &mut [ImgVec<T>],
    commands: &[Command<T>],
) -> Result<Vec<Reply<T>>, AllocError>
    requires { AllFit images.old }
    ensures run { IfOk result (λ replies.
        IsRun T.eq commands.now (layouts_of images.old) (layouts_of images.new) replies.items) }
    ensures unchanged { OnErr result (images.new ≡ images.old) }
{
    let mut replies = Vec::new(alloc);
    replies.resize_with(commands.len(), || Reply::Done)?;
    replay_into(images, commands, &mut replies);
    Ok(replies)
}

/// Runs the same commands, as `replay_into` does, over two lists of images with the same sizes and
/// pixels, for all strides and paddings. Afterwards the replies are the same and the images have
/// the same pixels, by the pixel's `==`. It allocates no memory.
///
/// # Requires
///
/// Every image fits (`is_valid`), and images with the same number agree (`same_pixels`). Both lists
/// of replies are as long as `commands`.
pub fn two_layouts<T: Copy + Eq>(
    a: &mut [ImgVec<T>],
    b: &mut [ImgVec<T>],
    commands: &[Command<T>],
    replies_a: &mut [Reply<T>],
    replies_b: &mut [Reply<T>],
)
    requires all_fit_a { AllFit a.old }
    requires all_fit_b { AllFit b.old }
    requires agree { GridsAgree T.eq (grids_of a.old) (grids_of b.old) }
    requires as_many_a { length replies_a.old ≡ length commands.now }
    requires as_many_b { length replies_b.old ≡ length commands.now }
    ensures run_a { IsRun T.eq commands.now (layouts_of a.old) (layouts_of a.new) replies_a.new }
    ensures run_b { IsRun T.eq commands.now (layouts_of b.old) (layouts_of b.new) replies_b.new }
    ensures replies_agree { RepliesAgree T.eq replies_a.new replies_b.new }
    ensures grids_agree { GridsAgree T.eq (grids_of a.new) (grids_of b.new) }
{
    replay_into(a, commands, replies_a);
    replay_into(b, commands, replies_b);
}
