//! Edits that come too late: one before them may show what they hide.

ghost use Rattle.std.specs.Prelude.{◌≡◌, ◌↔◌, ◌++◌, [], true, IfOk};
ghost use Rattle.frame_edits.specs.Order.{covers_first, ends_after, may_meet};
ghost use Rattle.frame_requests.specs.Late.{hides, hiding_from, is_early, is_late, late_pairs, left_after, pairs_among, spoils};

use frame_edits::{Edit, Paint};
use frame_texts::Range;
use image_commands::Change;
use std::alloc::{AllocError, Global};

/// What an edit hides that comes too late.
#[derive(Clone, Copy, PartialEq, Eq)]
pub enum Hiding {
    /// All of its rectangle: a cover or a fill.
    Fills,
    /// All but a pixel of each tile: a mosaic.
    Mosaics,
    /// All but the mean of each tile: means.
    Means,
}

// An edit, and its number from 0.
#[derive(Clone, Copy)]
struct Numbered {
    number: usize,
    edit: Edit,
}

// Whether a time is before the end of a range of times.
fn ends_after(time: u64, end: Option<u64>) -> bool
    ensures { result ≡ ends_after time end }
{
    match end {
        Some(end) => time < end,
        None => true,
    }
}

// Whether two ranges may have a frame in common. Times and numbers may.
fn may_meet(one: Range, other: Range) -> bool
    ensures { result ≡ may_meet one other }
{
    match one {
        Range::Frames { first, end } => match other {
            Range::Frames {
                first: start,
                end: stop,
            } => first < stop && start < end,
            Range::Times { .. } => true,
        },
        Range::Times { from, to } => match other {
            Range::Frames { .. } => true,
            Range::Times {
                from: start,
                to: stop,
            } => ends_after(from, stop) && ends_after(start, to),
        },
    }
}

// Whether a change comes too early for some that hide pixels.
fn is_early(hiding: Hiding, change: Change<Paint>) -> bool
    ensures { result ≡ is_early hiding change }
{
    match change {
        Change::Move { .. } => true,
        Change::Mean { .. } => hiding != Hiding::Means,
        Change::Blur { .. } => hiding != Hiding::Means,
        Change::Mosaic { .. } => hiding == Hiding::Fills,
        Change::Fill { .. } | Change::Flip(_) => false,
    }
}

// Whether a change hides pixels so.
fn hides(hiding: Hiding, change: Change<Paint>) -> bool
    ensures { result ≡ hides hiding change }
{
    match change {
        Change::Fill { .. } => hiding == Hiding::Fills,
        Change::Mosaic { .. } => hiding == Hiding::Mosaics,
        Change::Mean { .. } => hiding == Hiding::Means,
        Change::Blur { .. } | Change::Move { .. } | Change::Flip(_) => false,
    }
}

// Whether a change hides pixels so, of which one before it may show something.
#[tactic(auto, unfolding(crate::specs::Late::spoils))]
fn spoils(hiding: Hiding, before: Change<Paint>, change: Change<Paint>) -> bool
    ensures { result ≡ spoils hiding before change }
{
    is_early(hiding, before) && hides(hiding, change)
}

// Whether an edit is late after another.
#[tactic(auto, unfolding(crate::specs::Late::is_late))]
fn is_late(hiding: Hiding, before: Edit, edit: Edit) -> bool
    ensures { result ≡ is_late hiding before edit }
{
    spoils(hiding, before.change, edit.change) && may_meet(before.range, edit.range)
}

// The edits that hide pixels so, with their numbers. These are the later ones of all pairs.
#[tactic(auto, using(crate::proofs::LatePairs::one_kept, crate::proofs::LatePairs::one_left))]
fn hiding_edits(alloc: Global, hiding: Hiding, steps: &[Edit]) -> Result<Vec<Numbered>, AllocError>
    ensures { IfOk result (λ found. found.items ≡ hiding_from hiding 0 steps.now) }
{
    let mut found = Vec::new(alloc);
    for number in 0..steps.len() {
        let edit = steps[number];
        if hides(hiding, edit.change) {
            found.push(Numbered { number, edit })?;
        }
    }
    Ok(found)
}

// Those of the later edits that are left after this one.
fn left_after<'a>(hiding: Hiding, edit: Edit, later: &'a [Numbered]) -> &'a [Numbered]
    ensures { result.now ≡ left_after hiding edit later.now }
{
    if !hides(hiding, edit.change) {
        return later;
    }
    match later {
        [_, others @ ..] => others,
        [] => later,
    }
}

// Adds the pairs of an edit and those after it.
#[tactic(auto, using(crate::proofs::LatePairs::pair_added, crate::proofs::LatePairs::no_pair))]
fn add_early(
    pairs: &mut Vec<(usize, usize)>,
    hiding: Hiding,
    before: Numbered,
    others: &[Numbered],
) -> Result<(), AllocError>
    ensures { IfOk result (λ _. pairs.new.items
        ≡ pairs.old.items ++ pairs_among hiding before.number before.edit others.now) }
{
    for at in 0..others.len() {
        if is_late(hiding, before.edit, others[at].edit) {
            pairs.push((before.number, others[at].number))?;
        }
    }
    Ok(())
}

// The same. Where the edit isn't one that comes too early, the others needn't be looked at.
fn add_pairs(
    pairs: &mut Vec<(usize, usize)>,
    hiding: Hiding,
    before: Numbered,
    others: &[Numbered],
) -> Result<(), AllocError>
    ensures { IfOk result (λ _. pairs.new.items
        ≡ pairs.old.items ++ pairs_among hiding before.number before.edit others.now) }
{
    if !is_early(hiding, before.edit.change) {
        return Ok(());
    }
    add_early(pairs, hiding, before, others)
}

/// The pairs of an edit that may show pixels and a later one that hides some in the same frame, by
/// their numbers from 0. With `Fills` the first is a move, a mosaic, means or a blur, and the second
/// a cover or a fill. With `Mosaics` the second is a mosaic after a move, means or a blur, and with
/// `Means` means after a move. What comes between them doesn't count, and neither does where they are.
///
/// # Errors
///
/// Out of memory.
pub fn late_pairs(
    alloc: Global,
    hiding: Hiding,
    steps: &[Edit],
) -> Result<Vec<(usize, usize)>, AllocError>
    // Each such pair, in the order of the first and then of the second edit, and no other.
    ensures named { IfOk result (λ pairs. pairs.items ≡ late_pairs hiding steps.now) }

    // There is none exactly where the covers and fills of each frame come first.
    ensures none { hiding ≡ Hiding.Fills
        → IfOk result (λ pairs. (pairs.items ≡ []) ↔ (covers_first steps.now ≡ true)) }
{
    let later = hiding_edits(alloc, hiding, steps)?;
    let mut rest: &[Numbered] = &later;
    let mut pairs = Vec::new(alloc);
    for number in 0..steps.len() {
        let edit = steps[number];
        rest = left_after(hiding, edit, rest);
        add_pairs(&mut pairs, hiding, Numbered { number, edit }, rest)?;
    }
    Ok(pairs)
}
