//! Blocks of steps, and the frames that each names, so that a frame passes over the blocks of others.

ghost use Rattle.std.specs.Prelude.{◌≡◌, ◌<◌, length, IfOk, IsTrue};
ghost use Rattle.image_model.specs.Grid.{grid_of};
ghost use Rattle.image_shape.specs.Shape.{shaped};
ghost use Rattle.image_writes.specs.Written.{Becomes};
ghost use Rattle.image_planes.specs.Changes.{stepped};
ghost use Rattle.image_planes.specs.Scratch.{AreFor};
ghost use Rattle.image_planes.specs.Spans.{has, has_all, are_spans_by, are_spans, are_groups};

use crate::change::{Step, Value};
use crate::steps::do_steps;
use image_shape::Shape;
use std::alloc::{AllocError, Global};

/// The number of steps of a block. Only the last block may have fewer.
pub(crate) const BLOCK: usize = 64;

/// The number of steps of a group of blocks. Only the last group may have fewer.
pub(crate) const GROUP: usize = 4096;

// The number of blocks of a group.
const BLOCKS: usize = 64;

/// The frames that all steps of a block name are among these, by their numbers from 0.
#[derive(Clone, Copy)]
pub(crate) struct Span {
    /// The first frame.
    pub(crate) first: u64,
    /// The first frame after them.
    pub(crate) end: u64,
}

impl Span {
    // Whether it has the frame of this number.
    fn has(self, number: u64) -> bool
        ensures { result ≡ has self number }
    {
        self.first <= number && number < self.end
    }
}

fn span_of(block: &[Step<Value>]) -> Span
    ensures { IsTrue (has_all result block.now) }
{
    let mut span = Span {
        first: u64::MAX,
        end: 0,
    };
    for step in block {
        span.first = span.first.min(step.first);
        span.end = span.end.max(step.end);
    }
    span
}

/// The spans of the blocks of so many steps, one after the other.
pub(crate) fn spans_of(
    alloc: Global,
    steps: &[Step<Value>],
    many: usize,
) -> Result<Vec<Span>, AllocError>
    requires { 0 < many }
    ensures { IfOk result (λ spans. IsTrue (are_spans_by many spans.items steps.now)) }
{
    let mut spans = Vec::new(alloc);
    let mut left = steps;
    while !left.is_empty() {
        let (block, others) = left.split_at(left.len().min(many));
        spans.push(span_of(block))?;
        left = others;
    }
    Ok(spans)
}

/// Applies the steps for the frame of this number to the image that the bytes make in this shape,
/// block by block. A group without this frame is passed over at once. A pixel has `size` bytes; the
/// padding stays. What the copy and the sums had is lost.
#[tactic(auto, using(crate::proofs::Blocks::inside_parts, crate::proofs::Blocks::room_parts))]
pub(crate) fn do_blocks(
    cells: &mut [u8],
    shape: Shape,
    size: usize,
    steps: &[Step<Value>],
    spans: &[Span],
    groups: &[Span],
    number: u64,
    copy: &mut [u8],
    sums: &mut [u32],
)
    requires steps { AreFor cells.old shape size (length copy.old) (length sums.old) steps.now }
    requires spans { IsTrue (are_spans spans.now steps.now) }
    requires groups { IsTrue (are_groups groups.now steps.now) }
    ensures { Becomes shape cells.old cells.new
        (stepped size number steps.now (grid_of (shaped cells.old shape))) }
{
    let mut left = steps;
    let mut block = 0;
    while !left.is_empty() {
        if block % BLOCKS == 0 && !groups[block / BLOCKS].has(number) {
            let (_, others) = left.split_at(left.len().min(GROUP));
            left = others;
            block += BLOCKS;
        } else {
            let (part, others) = left.split_at(left.len().min(BLOCK));
            if spans[block].has(number) {
                do_steps(cells, shape, size, part, number, copy, sums);
            }
            left = others;
            block += 1;
        }
    }
}
