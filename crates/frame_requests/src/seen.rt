//! What was found of the input of a run.

ghost use Rattle.std.specs.Prelude.{◌≡◌, ◌≢◌, ◌≤◌, ◌<◌, ℕ, None, Some, IfSome, List, [], ◌∷◌, reverse, true, false};
ghost use Rattle.std.specs.List.{slice_get};
ghost use Rattle.std.specs.Option.{option_map};

use frame_edits::{
    Edit, picture_covers_nothing, picture_window, video_covers_nothing, video_window,
};
use frame_texts::{Format, Picture, Rate};
use image_commands::Window;
use std::alloc::Global;

/// What a line or a header tells of frames.
#[derive(Clone, Copy, PartialEq, Eq)]
pub enum Shape {
    /// The line of a video, and the rate that it names.
    Video(Format, Option<Rate>),
    /// The header of a picture.
    Picture(Picture),
}

// Whether frames of two videos have the same planes and samples.
fn has_same_samples(a: Format, b: Format) -> bool
    ensures chroma { result ≡ true → a.chroma ≡ b.chroma }
    ensures pixel { result ≡ true → a.pixel ≡ b.pixel }
{
    a.chroma == b.chroma && a.pixel == b.pixel
}

// Whether the lines of two videos name the same frames.
fn is_same_format(a: Format, b: Format) -> bool
    ensures { result ≡ true → a ≡ b }
{
    let same_size = a.width == b.width && a.height == b.height;
    let same_rows = a.interlaced == b.interlaced && a.square == b.square;
    same_size && same_rows && has_same_samples(a, b)
}

fn is_same_rate(a: Option<Rate>, b: Option<Rate>) -> bool
    ensures { result ≡ true → a ≡ b }
{
    match (a, b) {
        (Some(a), Some(b)) => a.frames == b.frames && a.seconds == b.seconds,
        (None, None) => true,
        _ => false,
    }
}

/// Whether two pictures have the same size and kind.
pub fn is_same_picture(a: Picture, b: Picture) -> bool
    ensures same { result ≡ true → a ≡ b }
    ensures other { result ≡ false → a ≢ b }
{
    a.width == b.width && a.height == b.height && a.kind == b.kind && a.greatest == b.greatest
}

impl Shape {
    ghost use Rattle.frame_requests.specs.Uncovered.{KeepsMarginIn, drawn_in, is_empty_in, rate_in, size_in};

    // Whether an edit is a cover or a box that has no pixel of such a frame.
    fn is_left_by(self, edit: Edit) -> bool
        ensures { result ≡ is_empty_in self edit }
    {
        match self {
            Shape::Video(format, _) => video_covers_nothing(format, edit),
            Shape::Picture(picture) => picture_covers_nothing(picture, edit),
        }
    }

    // Whether frames of the other shape are as these.
    fn is_same(self, other: Shape) -> bool
        ensures { result ≡ true → self ≡ other }
    {
        match (self, other) {
            (Shape::Video(a, rate), Shape::Video(b, other)) => {
                is_same_format(a, b) && is_same_rate(rate, other)
            }
            (Shape::Picture(a), Shape::Picture(b)) => is_same_picture(a, b),
            _ => false,
        }
    }

    /// The width and the height of such frames.
    pub fn size(self) -> (usize, usize)
        ensures { result ≡ size_in self }
    {
        match self {
            Shape::Video(format, _) => (format.width, format.height),
            Shape::Picture(picture) => (picture.width, picture.height),
        }
    }

    /// The rectangle that an edit changes in such a frame.
    pub fn window(self, edit: Edit) -> Window
        ensures drawn { result ≡ drawn_in self edit }
        ensures margin { KeepsMarginIn self edit result }
    {
        match self {
            Shape::Video(format, _) => video_window(format, edit),
            Shape::Picture(picture) => picture_window(picture, edit),
        }
    }

    /// The rate of a video, where its line names one.
    pub fn rate(self) -> Option<Rate>
        ensures { result ≡ rate_in self }
    {
        match self {
            Shape::Video(_, rate) => rate,
            Shape::Picture(_) => None,
        }
    }
}

/// Frames of one shape, one after the other: the number of the first, and of the first after them.
#[derive(Clone, Copy, PartialEq, Eq)]
pub struct Stretch {
    pub shape: Shape,
    pub first: u64,
    pub end: u64,
}

impl Stretch {
    ghost use Rattle.frame_requests.specs.Uncovered.{IsUncovered};
    ghost use Rattle.frame_requests.specs.Seen.{FirstFound};

    /// The first frame of these that the edit names, where it is a cover and covers nothing in it.
    pub fn uncovered(self, edit: &Edit) -> Option<u64>
        ensures found { IfSome result (IsUncovered self edit.now) }
        ensures first { IfSome result (λ n. (m : ℕ) → IsUncovered self edit.now m → n ≤ m) }
        ensures none { result ≡ None → (n : ℕ) → IsUncovered self edit.now n → ⊥ }
    {
        if !self.shape.is_left_by(*edit) {
            return None;
        }
        let (first, end) = edit.range.frames(self.shape.rate())?;
        let number = first.max(self.first);
        if number < end && number < self.end {
            Some(number)
        } else {
            None
        }
    }

    // The same with the size of the frame.
    fn found(self, edit: &Edit) -> Option<Uncovered>
        ensures { FirstFound self edit.now result }
    {
        let frame = self.uncovered(edit)?;
        let (width, height) = self.shape.size();
        Some(Uncovered {
            frame,
            width,
            height,
        })
    }
}

/// The first frame in which a cover covers nothing, and the size of that frame.
#[derive(Clone, Copy)]
pub struct Uncovered {
    pub frame: u64,
    pub width: usize,
    pub height: usize,
}

// In which frames edits cover nothing.
#[derive(Drop)]
enum Known {
    // The first of them by the number of the edit, where one was found.
    All(Vec<Option<Uncovered>>),
    // The number of the edit and the frame that were found first: there was no memory for others.
    One(usize, Uncovered),
}

impl Known {
    // These name the type itself.
    ghost use Rattle.frame_requests.specs.Seen.{HasItsShape, HasPlace, Keeps, Knows, known_of};
    ghost use Rattle.frame_requests.specs.declared.seen.Shape.{Shape};

    // The first such frame of the edit of this number, where it is known whether there is one.
    fn of(&self, number: usize) -> Option<Option<Uncovered>>
        ensures { result ≡ known_of self.now number }
    {
        match self {
            Known::All(places) => match places.get(number) {
                Some(place) => Some(*place),
                None => Some(None),
            },
            Known::One(at, found) => (*at == number).then_some(Some(*found)),
        }
    }

    // Makes room for the edit of this number, of so many. Returns false where there is no memory.
    fn make_room(&mut self, number: usize, len: usize) -> bool
        requires { number < len }
        ensures same { result ≡ true → (n : ℕ) → known_of self.new n ≡ known_of self.old n }
        ensures room { result ≡ true → HasPlace self.new number }
        ensures none { result ≡ false → known_of self.old number ≡ Some None }
    {
        match self {
            Known::All(places) => number < places.len() || places.resize(len, None).is_ok(),
            Known::One(..) => true,
        }
    }

    // Keeps that the edit of this number, of so many, covers nothing in a frame, where no frame before
    // it is known.
    fn keep(&mut self, number: usize, len: usize, found: Uncovered)
        requires { number < len }
        ensures { Keeps number found self.old self.new }
    {
        if !self.make_room(number, len) {
            *self = Known::One(number, found);
            return;
        }
        if let Known::All(places) = self {
            if let Some(place) = places.get_mut(number) {
                if place.is_none() {
                    *place = Some(found);
                }
            }
        }
    }

    // Keeps which edits cover nothing in these frames, which come after those that are known.
    fn end(&mut self, stretch: Stretch, steps: &[Edit])
        ensures { (shapes : List (ℕ × Shape)) → HasItsShape shapes stretch
            → stretch.first ≤ stretch.end
            → Knows self.old steps.now shapes (λ at. stretch.first)
            → Knows self.new steps.now shapes (λ at. stretch.end) }
    {
        for at in 0..steps.len() {
            if let Some(found) = stretch.found(&steps[at]) {
                self.keep(at, steps.len(), found);
            }
        }
    }
}

/// What was read last, for messages, and in which frames edits cover nothing.
#[derive(Drop)]
pub struct Seen {
    shape: Option<Shape>,
    // The number of the first frame after which all have this shape.
    first: u64,
    // The number of the frame or the picture whose line or header was read last.
    last: u64,
    // What is known of the frames before those of the last shape.
    known: Known,
    // The shapes, each with the number of its first frame. Not where there was no memory for one.
    shapes: Option<Vec<(u64, Shape)>>,
}

impl Seen {
    // These name the type itself.
    ghost use Rattle.frame_edits.specs.declared.words.Edit.{Edit};
    ghost use Rattle.frame_requests.specs.declared.seen.Shape.{Shape};
    ghost use Rattle.frame_requests.specs.Seen.{HasLastShape, IsFirstUncovered, IsOtherTold, KeepsShape, Knows, NoneUncovered, SameButKnown, SameButShapes, Sees, is_told, kept_shapes, last_seen, rate_seen, shape_at, shape_seen, stretch_of};

    /// No line and no header.
    pub fn nothing(alloc: Global) -> Seen
        ensures shape { shape_seen result ≡ None }
        ensures last { last_seen result ≡ 0 }
        ensures kept { kept_shapes result ≡ None }
        ensures sees { (steps : List Edit) → Sees steps [] result }
    {
        Seen {
            shape: None,
            first: 0,
            last: 0,
            known: Known::All(Vec::new(alloc)),
            shapes: None,
        }
    }

    /// The same, and each shape is kept for a report.
    pub fn for_report(alloc: Global) -> Seen
        ensures shape { shape_seen result ≡ None }
        ensures last { last_seen result ≡ 0 }
        ensures kept { kept_shapes result ≡ Some [] }
        ensures sees { (steps : List Edit) → Sees steps [] result }
    {
        Seen {
            shapes: Some(Vec::new(alloc)),
            ..Seen::nothing(alloc)
        }
    }

    /// The shapes, each with the number of its first frame, where all were kept.
    pub fn shapes(&self) -> Option<&[(u64, Shape)]>
        ensures shapes { option_map (λ shapes. shapes.now) result ≡ kept_shapes self.now }

        // By these each frame has the shape that was seen of it.
        ensures kept { (steps : List Edit) (shapes : List (ℕ × Shape)) → Sees steps shapes self.now
            → IfSome result (λ kept. (n : ℕ)
            → shape_at (reverse kept.now) n ≡ shape_at shapes n) }
    {
        match &self.shapes {
            Some(shapes) => Some(shapes),
            None => None,
        }
    }

    // The frames of the last shape, of so many frames.
    fn stretch(&self, count: u64) -> Option<Stretch>
        ensures { result ≡ stretch_of self.now count }
    {
        Some(Stretch {
            shape: self.shape?,
            first: self.first,
            end: count,
        })
    }

    // Keeps a shape for a report.
    fn keep_shape(&mut self, number: u64, shape: Shape)
        ensures others { SameButShapes self.old self.new }
        ensures kept { KeepsShape (number, shape) (kept_shapes self.old) (kept_shapes self.new) }
    {
        let is_kept = match &mut self.shapes {
            Some(shapes) => shapes.push((number, shape)).is_ok(),
            None => true,
        };
        if !is_kept {
            self.shapes = None;
        }
    }

    /// The line or the header that was read last.
    pub fn shape(&self) -> Option<Shape>
        ensures { result ≡ shape_seen self.now }
    {
        self.shape
    }

    /// The number of the picture whose header was read last. Of a video it is 0.
    pub fn last(&self) -> u64
        ensures { result ≡ last_seen self.now }
    {
        self.last
    }

    /// The rate of a video, where its line names one.
    pub fn rate(&self) -> Option<Rate>
        ensures { result ≡ rate_seen self.now }
    {
        self.shape?.rate()
    }

    // The frames of the last shape end before this one: keeps which edits cover nothing in them.
    fn end_stretch(&mut self, end: u64, steps: &[Edit])
        ensures others { SameButKnown self.old self.new }
        ensures known { (shapes : List (ℕ × Shape)) → HasLastShape shapes self.old
            → self.old.first ≤ end
            → Knows self.old.known steps.now shapes (λ at. self.old.first)
            → Knows self.new.known steps.now shapes (λ at. end) }
    {
        let Some(stretch) = self.stretch(end) else {
            return;
        };
        self.known.end(stretch, steps);
    }

    /// The line of a video was read, or the header of the picture of this number.
    pub fn see(&mut self, number: u64, shape: Shape, steps: &[Edit])
        ensures shape { shape_seen self.new ≡ Some shape }
        ensures last { last_seen self.new ≡ number }

        // One shape more was seen.
        ensures sees { (shapes : List (ℕ × Shape)) → Sees steps.now shapes self.old
            → last_seen self.old ≤ number
            → Sees steps.now ((number, shape) ∷ shapes) self.new }
    {
        self.last = number;
        if let Some(before) = self.shape {
            if before.is_same(shape) {
                return;
            }
        }
        self.end_stretch(number, steps);
        self.keep_shape(number, shape);
        self.first = number;
        self.shape = Some(shape);
    }

    /// Where so many frames were read: the first of them in which the edit of this number is a cover
    /// that covers nothing. Where there was no memory to keep it for each edit, it is told of the edit
    /// that was found first.
    pub fn uncovered(&self, number: usize, edit: &Edit, count: u64) -> Option<Uncovered>
        ensures found { (steps : List Edit) (shapes : List (ℕ × Shape)) → Sees steps shapes self.now
            → slice_get steps number ≡ Some edit.now → last_seen self.now ≤ count
            → IfSome result (IsFirstUncovered shapes edit.now count) }
        ensures none { (steps : List Edit) (shapes : List (ℕ × Shape)) → Sees steps shapes self.now
            → slice_get steps number ≡ Some edit.now → result ≡ None → is_told self.now number ≡ true
            → NoneUncovered shapes edit.now count }
        ensures other { (steps : List Edit) (shapes : List (ℕ × Shape)) → Sees steps shapes self.now
            → last_seen self.now ≤ count → is_told self.now number ≡ false
            → IsOtherTold self.now steps shapes count }
    {
        match self.known.of(number)? {
            Some(uncovered) => Some(uncovered),
            None => self.stretch(count)?.found(edit),
        }
    }
}
