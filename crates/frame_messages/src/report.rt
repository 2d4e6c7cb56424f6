//! The rectangles as they were drawn, and the frames in which there is no box.

ghost use Rattle.std.specs.Prelude.{◌≡◌, ◌<◌, ◌+◌, ◌-◌, ℕ, List, reverse, min, nat_lt, if◌then◌else◌, IfOk, IfSome, OnOk};
ghost use Rattle.std.specs.Io.KnownBytes.{Appends};
ghost use Rattle.std.specs.List.{flat_map};
ghost use Rattle.std.specs.List.Sorted.{IsNonDecreasingBy};
ghost use Rattle.frame_messages.specs.Placed.{FlipsPixels, FramesPixels};
ghost use Rattle.frame_messages.specs.Report.{AreDrawn, IsReport, TakesBegun, first_in, is_boxed, is_cover, is_drawn, is_flip, line_text, moved_by, placed, report_text, span_if, spans_from};
ghost use Rattle.frame_requests.specs.Seen.{AreUpTo, Sees, rate_seen, shape_at};
ghost use Rattle.std.specs.Option.{is_some};
ghost use Rattle.frame_messages.specs.Bare.{AreCounted, AreInOrder, bare_count, bare_count_text, bare_start, bare_text, box_span, is_bare, stretch_text};

use crate::placed::{flipped, framed};
use frame_edits::{Edit, Edits, Framing, Paint, Scope};
use frame_requests::{Seen, Shape};
use frame_texts::{Range, Rate};
use image_commands::{Change, Window};
use std::alloc::{AllocError, Global};
use std::io;
use std::io::Write;

// What an edit does in which frames.
#[derive(Clone, Copy)]
struct Span {
    // The number of the edit.
    at: usize,
    first: u64,
    end: u64,
    edit: Edit,
}

// Whether an edit is a box of a list.
fn is_box(edit: &Edit) -> bool
    ensures { result ≡ is_boxed edit.now.scope }
{
    match edit.scope {
        Scope::Exact => false,
        Scope::Boxed { .. } => true,
    }
}

// Whether a change is a cover.
fn is_cover(change: Change<Paint>) -> bool
    ensures { result ≡ is_cover change }
{
    matches!(
        change,
        Change::Fill {
            value: Paint::Around { .. },
            ..
        }
    )
}

// Whether an edit is a box of a list, or a cover.
fn is_drawn(edit: &Edit) -> bool
    ensures { result ≡ is_drawn edit.now }
{
    is_box(edit) || is_cover(edit.change)
}

// Whether an edit is a flip or a half turn.
fn is_flip(edit: &Edit) -> bool
    ensures { result ≡ is_flip edit.now }
{
    matches!(edit.change, Change::Flip(_))
}

// The frames of an edit, where it is such and has some.
fn span_if(is: bool, at: usize, edit: &Edit, rate: Option<Rate>) -> Option<Span>
    ensures { result ≡ span_if is rate at edit.now }
{
    if !is {
        return None;
    }
    let (first, end) = edit.range.frames(rate)?;
    Some(Span {
        at,
        first,
        end,
        edit: *edit,
    })
}

// The boxes and the covers, in their order.
#[tactic(auto, using(crate::proofs::Spans::span_kept, crate::proofs::Spans::span_passed, crate::proofs::Spans::spans_done))]
fn drawn_spans(alloc: Global, steps: &[Edit], rate: Option<Rate>) -> Result<Vec<Span>, AllocError>
    ensures { IfOk result (λ spans. spans.items ≡ spans_from is_drawn rate 0 steps.now) }
{
    let mut spans = Vec::new(alloc);
    for at in 0..steps.len() {
        if let Some(span) = span_if(is_drawn(&steps[at]), at, &steps[at], rate) {
            spans.push(span)?;
        }
    }
    Ok(spans)
}

// The boxes and the covers, in the order of their first frames.
fn spans_of(alloc: Global, steps: &[Edit], rate: Option<Rate>) -> Result<Vec<Span>, AllocError>
    ensures { IfOk result (λ spans. AreDrawn steps.now rate spans.items) }
{
    let mut spans = drawn_spans(alloc, steps, rate)?;
    spans.sort_by_key(|span| span.first)?;
    Ok(spans)
}

// The flips and half turns, in their order.
#[tactic(auto, using(crate::proofs::Spans::span_kept, crate::proofs::Spans::span_passed, crate::proofs::Spans::spans_done))]
fn flips_of(alloc: Global, steps: &[Edit], rate: Option<Rate>) -> Result<Vec<Span>, AllocError>
    ensures { IfOk result (λ spans. spans.items ≡ spans_from is_flip rate 0 steps.now) }
{
    let mut spans = Vec::new(alloc);
    for at in 0..steps.len() {
        if let Some(span) = span_if(is_flip(&steps[at]), at, &steps[at], rate) {
            spans.push(span)?;
        }
    }
    Ok(spans)
}

// Where a rectangle is once a frame of this size is changed.
fn moved_by(window: Window, change: Change<Paint>, size: (usize, usize)) -> Window
    ensures { result ≡ moved_by change size window }
{
    match change {
        Change::Flip(axes) => flipped(window, axes, size),
        _ => window,
    }
}

impl Span {
    ghost use Rattle.frame_messages.specs.Report.{comes_after};

    // Whether the edit comes after the one of this number, and is for the frame.
    fn comes_after(&self, at: usize, frame: u64) -> bool
        ensures { result ≡ comes_after at frame self.now }
    {
        at < self.at && self.first <= frame && frame < self.end
    }
}

// What moves the rectangles of a frame: flips, and the change of its size.
#[derive(Clone, Copy)]
struct Later<'a> {
    flips: &'a [Span],
    framing: Option<Framing>,
}

impl Later<'_> {
    ghost use Rattle.frame_messages.specs.Report.{moved, placed};
    ghost use Rattle.frame_requests.specs.Uncovered.{size_in};

    // A rectangle of the edit of this number, once the frame is flipped after it.
    #[tactic(auto, using(crate::proofs::Spans::flip_moved, crate::proofs::Spans::flip_passed, crate::proofs::Spans::flips_done))]
    fn moved(self, at: usize, window: Window, size: (usize, usize), frame: u64) -> Window
        ensures { result ≡ moved self.entry.flips.now size frame at window }
    {
        let mut now = window;
        for flip in self.flips {
            if flip.comes_after(at, frame) {
                now = moved_by(now, flip.edit.change, size);
            }
        }
        now
    }

    // Where the output has the rectangle that an edit draws in a frame.
    fn place(self, span: &Span, shape: Shape, frame: u64) -> Window
        ensures { result ≡ placed self.entry.flips.now self.entry.framing shape frame span.now }
    {
        let size = shape.size();
        let window = self.moved(span.at, shape.window(span.edit), size, frame);
        framed(window, self.framing, size)
    }
}

// Adds those of these spans that begin up to a frame, and returns the others.
#[tactic(auto, using(crate::proofs::BegunSpans::begun_none, crate::proofs::BegunSpans::begun_more, crate::proofs::BegunSpans::begun_end, crate::proofs::BegunSpans::begun_later))]
fn take_begun<'a>(
    spans: &'a [Span],
    frame: u64,
    now: &mut Vec<Span>,
) -> Result<&'a [Span], AllocError>
    ensures { IfOk result (λ rest. TakesBegun frame spans.now rest.now now.old.items now.new.items) }
{
    let mut rest = spans;
    while let [span, others @ ..] = rest {
        if span.first > frame {
            return Ok(rest);
        }
        now.push(*span)?;
        rest = others;
    }
    Ok(rest)
}

// The line of a rectangle in a frame. Frames count from 1.
fn write_line<W: Write>(alloc: Global, frame: u64, window: Window, writer: &mut W) -> io::Result<()>
    requires { frame < u64.MAX }
    ensures { OnOk result (Appends (W.contents writer.old) (W.contents writer.new)
        (line_text frame window)) }
{
    if window.width == 0 || window.height == 0 {
        return Ok(());
    }
    let line = format!(in alloc;
        "{},{},{},{},{}\n",
        frame + 1,
        window.left,
        window.top,
        window.width,
        window.height
    )?;
    writer.write_all(line.as_bytes())
}

// Writes a line for each rectangle in a frame.
#[tactic(auto, using(crate::proofs::Written::lines_none, crate::proofs::Written::lines_more, crate::proofs::Written::lines_done))]
fn write_frame<W: Write>(
    alloc: Global,
    now: &[Span],
    later: Later<'_>,
    shape: Shape,
    frame: u64,
    writer: &mut W,
) -> io::Result<()>
    requires { frame < u64.MAX }
    ensures { OnOk result (Appends (W.contents writer.old) (W.contents writer.new)
        (flat_map (λ s. line_text frame (placed later.entry.flips.now later.entry.framing shape frame s))
        now.now)) }
{
    for span in now {
        write_line(alloc, frame, later.place(span, shape, frame), writer)?;
    }
    Ok(())
}

// The shape of the frame of this number, by those that were kept.
fn shape_in(shapes: &[(u64, Shape)], frame: u64) -> Option<Shape>
    ensures { (most : ℕ) → AreUpTo most (reverse shapes.now)
        → result ≡ shape_at (reverse shapes.now) frame }
{
    let count = shapes.partition_point(|shape| shape.0 <= frame);
    if count == 0 {
        return None;
    }
    Some(shapes[count - 1].1)
}

// Writes the lines of so many frames.
fn write_frames<W: Write>(
    alloc: Global,
    spans: &[Span],
    later: Later<'_>,
    shapes: &[(u64, Shape)],
    count: u64,
    writer: &mut W,
) -> io::Result<()>
    requires { IsNonDecreasingBy first_in spans.now }
    ensures { OnOk result ((most : ℕ) → AreUpTo most (reverse shapes.now)
        → Appends (W.contents writer.old) (W.contents writer.new)
        (report_text later.entry.flips.now later.entry.framing spans.now (reverse shapes.now)
        count)) }
{
    let mut rest = spans;
    let mut now = Vec::new(alloc);
    for frame in 0..count {
        rest = take_begun(rest, frame, &mut now)?;
        now.retain(|span| frame < span.end);
        if let Some(shape) = shape_in(shapes, frame) {
            write_frame(alloc, &now, later, shape, frame, writer)?;
        }
    }
    Ok(())
}

/// Writes where the output has the boxes and covers of so many frames, after flips and the crop. Each
/// has a line `frame,left,top,width,height`. Frames count from 1.
#[tactic(auto, using(crate::proofs::PlacedPixels::flips_pixels, crate::proofs::PlacedPixels::frames_pixels))]
pub fn write_report<W: Write>(
    alloc: Global,
    seen: &Seen,
    count: u64,
    edits: &Edits,
    writer: &mut W,
) -> io::Result<()>
    ensures report { OnOk result ((shapes : List (ℕ × Shape))
        → Sees edits.now.steps.items shapes seen.now
        → (text : List ℕ) × IsReport edits.now.steps.items edits.now.framing (rate_seen seen.now)
        shapes count text × Appends (W.contents writer.old) (W.contents writer.new) text) }

    // Such a rectangle has exactly the pixels of the output that come from what the edit draws.
    ensures flips { FlipsPixels }
    ensures framing { FramesPixels }
{
    let Some(shapes) = seen.shapes() else {
        return Err(io::Error::from(io::ErrorKind::OutOfMemory));
    };
    let spans = spans_of(alloc, &edits.steps, seen.rate())?;
    let flips = flips_of(alloc, &edits.steps, seen.rate())?;
    let later = Later {
        flips: &flips,
        framing: edits.framing,
    };
    write_frames(alloc, &spans, later, shapes, count, writer)
}

/// How many frames have no box of a list, and the first of the longest stretches of them.
#[derive(Clone, Copy, PartialEq, Eq)]
pub struct Bare {
    pub frames: u64,
    pub first: u64,
    pub end: u64,
}

impl Bare {
    // Adds a stretch, which is after those before. It may have no frame.
    fn add(&mut self, first: u64, end: u64)
        ensures frames { self.new.frames
            ≡ min (self.old.frames + (end - first)) 18446744073709551615 }
        ensures first { self.new.first
            ≡ if nat_lt (self.old.end - self.old.first) (end - first) then first else self.old.first }
        ensures end { self.new.end
            ≡ if nat_lt (self.old.end - self.old.first) (end - first) then end else self.old.end }
    {
        let len = end.saturating_sub(first);
        self.frames = self.frames.saturating_add(len);
        if len > self.end.saturating_sub(self.first) {
            self.first = first;
            self.end = end;
        }
    }
}

// The frames of a box of a list, where an edit is one and has a frame.
fn box_span(edit: &Edit) -> Option<(u64, u64)>
    ensures span { result ≡ box_span edit.now }
    ensures some { IfSome result (λ span. span.0 < span.1) }
{
    match (edit.scope, edit.range) {
        (Scope::Boxed { .. }, Range::Frames { first, end }) if first < end => Some((first, end)),
        _ => None,
    }
}

// The frames without a box, of so many. Boxes are in the order of their first frames.
fn bare_of(steps: &[Edit], count: u64) -> Bare
    ensures { AreInOrder steps.now → AreCounted (is_bare steps.now) count result }
{
    let mut bare = Bare {
        frames: 0,
        first: 0,
        end: 0,
    };
    let mut reached: u64 = 0;
    for edit in steps {
        if let Some((first, end)) = box_span(edit) {
            bare.add(reached, first.min(count));
            reached = reached.max(end);
        }
    }
    bare.add(reached, count);
    bare
}

/// The same, where there is such a frame.
pub(crate) fn find_bare(steps: &[Edit], count: u64) -> Option<Bare>
    ensures some { AreInOrder steps.now
        → is_some result ≡ nat_lt 0 (bare_count (is_bare steps.now) count) }
    ensures counted { AreInOrder steps.now → IfSome result (AreCounted (is_bare steps.now) count) }
{
    let bare = bare_of(steps, count);
    if bare.frames == 0 {
        return None;
    }
    Some(bare)
}

// Begins what is printed of frames without a box.
fn begin_bare<W: Write>(is_fault: bool, writer: &mut W) -> io::Result<()>
    ensures { OnOk result (Appends (W.contents writer.old) (W.contents writer.new)
        (bare_start is_fault)) }
{
    if is_fault {
        writer.write_all(b"fault box\n")
    } else {
        writer.write_all(b"note: ")
    }
}

// How many there are, of so many.
fn say_bare_count<W: Write>(bare: Bare, count: u64, writer: &mut W) -> io::Result<()>
    ensures { OnOk result (Appends (W.contents writer.old) (W.contents writer.new)
        (bare_count_text count bare)) }
{
    write!(writer, "{} of {}", bare.frames, count)
}

// The longest stretch of them. Frames count from 1.
fn say_stretch<W: Write>(bare: Bare, writer: &mut W) -> io::Result<()>
    ensures { OnOk result (Appends (W.contents writer.old) (W.contents writer.new)
        (stretch_text bare)) }
{
    let first = bare.first.saturating_add(1);
    write!(writer, "the longest stretch is {} to {}\n", first, bare.end)
}

/// Prints how many frames of so many have no box, and which stretch of them is the longest.
pub(crate) fn say_bare<W: Write>(
    bare: Bare,
    count: u64,
    is_fault: bool,
    writer: &mut W,
) -> io::Result<()>
    ensures { OnOk result (Appends (W.contents writer.old) (W.contents writer.new)
        (bare_text is_fault count bare)) }
{
    begin_bare(is_fault, writer)?;
    say_bare_count(bare, count, writer)?;
    writer.write_all(b" frames have no box, ")?;
    say_stretch(bare, writer)
}
