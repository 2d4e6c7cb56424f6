//! Labels of connected components.

ghost use Rattle.std.specs.Prelude.{◌≡◌, ◌≢◌, ◌<◌, ◌≤◌, ◌+◌, ◌*◌, ℕ, List, Some, true, false, IfOk, IsOk, length};
ghost use Rattle.image_model.specs.Regions.{HasRegion, IsLabelStep, Labelled};
ghost use Rattle.image_model.specs.Compaction.{least_stride};
ghost use Rattle.imgref.specs.Words.{AreRegions, Fits, IsConnected, SameOutside, TellsApart, grid_of, height_of, ref_grid, ref_layout, shape_height, shape_width, shaped, stride_of, vec_grid, vec_layout, width_of};
ghost use Rattle.image_regions.specs.Runs.{AddsRuns, CanBeLabelled, CanSpread, EndsAt, FillsRun, HasLabels, IsSpreading, ShowsAlong, SpreadsOn, label_grid, no_run, open_places};
ghost use Rattle.image_regions.specs.declared.labels.Run.{Run};

use crate::pixels::{at, put};
use imgref::{ImgRef, ImgVec, Shape, fill_pixels};
use std::alloc::{AllocError, Global};

/// The connected components of an image: the label of each place, and how many components there are.
#[derive(Drop)]
pub struct Regions {
    /// The labels, from 1 to `count`.
    pub labels: ImgVec<u64>,
    /// The number of components.
    pub count: u64,
}

// The image in which a component is searched for, and the shape of the labels. Its places show the
// seed, and get the label.
#[derive(Clone, Copy)]
struct Search<'a, T> {
    image: ImgRef<'a, T>,
    shape: Shape,
    seed: T,
    label: u64,
}

// The places of row `y` from one column up to another one.
#[derive(Clone, Copy)]
struct Run {
    y: usize,
    from: usize,
    to: usize,
}

// Whether a place has no label and shows the seed.
#[inline(always)]
#[tactic(auto, using(image_model::proofs::Laws::reads))]
fn is_open<T: Copy + PartialEq>(search: &Search<'_, T>, labels: &[u64], x: usize, y: usize) -> bool
    requires labels { HasLabels search.now labels.now }
    requires column { x < shape_width search.now.shape }
    requires row { y < shape_height search.now.shape }
    ensures { (open_places search.now T.eq labels.now).pixel x y ≡ Some result }
{
    if at(labels, search.shape, x, y) != 0 {
        return false;
    }
    search.image[(x, y)] == search.seed
}

// The first column of the run of an open place: the places from there on are open.
fn run_start<T: Copy + PartialEq>(
    search: &Search<'_, T>,
    labels: &[u64],
    x: usize,
    y: usize,
) -> usize
    requires labels { HasLabels search.now labels.now }
    requires column { x < shape_width search.now.shape }
    requires row { y < shape_height search.now.shape }
    ensures before { result ≤ x }
    ensures run { ShowsAlong (open_places search.now T.eq labels.now) true y result x }
    ensures starts { (u : ℕ) → u + 1 ≡ result
        → (open_places search.now T.eq labels.now).pixel u y ≢ Some true }
{
    let mut start = x;
    while start > 0 {
        if !is_open(search, labels, start - 1, y) {
            return start;
        }
        start -= 1;
    }
    start
}

// The first column from some place on for which a test fails, or the width.
#[inline(always)]
fn end_of<F: Fn(usize) -> bool>(shape: Shape, x: usize, passes: F) -> usize
    requires column { x ≤ shape_width shape }
    requires callable { (u : ℕ) → u < shape_width shape → F.pre passes u }
    ensures after { x ≤ result }
    ensures within { result ≤ shape_width shape }
    ensures along { (u : ℕ) → x ≤ u → u < result → F.post passes u true }
    ensures ends { result < shape_width shape → F.post passes result false }
{
    for column in x..shape.width() {
        if !passes(column) {
            return column;
        }
    }
    shape.width()
}

// The first column from some place on whose place isn't open, or the width.
fn run_end<T: Copy + PartialEq>(search: &Search<'_, T>, labels: &[u64], x: usize, y: usize) -> usize
    requires labels { HasLabels search.now labels.now }
    requires column { x ≤ shape_width search.now.shape }
    requires row { y < shape_height search.now.shape }
    ensures within { result ≤ shape_width search.now.shape }
    ensures run { EndsAt (open_places search.now T.eq labels.now) true y x result }
{
    end_of(search.shape, x, |column| is_open(search, labels, column, y))
}

// The first column from some place on whose place hasn't the label, or the width.
fn label_end(labels: &[u64], shape: Shape, label: u64, x: usize, y: usize) -> usize
    requires labels_fit { Fits (shaped labels.now shape) }
    requires column { x < shape_width shape }
    requires row { y < shape_height shape }
    ensures within { result ≤ shape_width shape }
    ensures run { EndsAt (grid_of (shaped labels.now shape)) label y x result }
{
    end_of(shape, x, |column| at(labels, shape, column, y) == label)
}

// Gives the label to the places of a run.
#[tactic(auto, using(image_model::proofs::Laws::writes))]
fn fill_run(labels: &mut [u64], shape: Shape, label: u64, run: Run)
    requires labels_fit { Fits (shaped labels.old shape) }
    requires order { run.from ≤ run.to }
    requires within { run.to ≤ shape_width shape }
    requires row { run.y < shape_height shape }
    ensures fills { FillsRun label run.y run.from run.to (grid_of (shaped labels.old shape))
        (grid_of (shaped labels.new shape)) }
    ensures outside { SameOutside (shaped labels.old shape) (shaped labels.new shape) }
    ensures fits { Fits (shaped labels.new shape) }
{
    for column in run.from..run.to {
        put(labels, shape, column, run.y, label);
    }
}

// Gives the label to the run of an open place, which is pending from then on: the places above and
// below have to be looked at. Returns the column after the run. The pixel of the place isn't read
// again: another process may have changed it, and then a run of no place would be pending.
fn label_run<T: Copy + PartialEq>(
    search: &Search<'_, T>,
    labels: &mut [u64],
    room: &mut [usize],
    count: usize,
    x: usize,
    y: usize,
) -> usize
    requires ready { CanSpread search.now labels.old count room.old }
    requires column { x < shape_width search.now.shape }
    requires row { y < shape_height search.now.shape }
    requires clear { (open_places search.now T.eq labels.old).pixel x y ≡ Some true }
    ensures goes_on { (begun : List ℕ) (left top : ℕ) (looked : Run)
        → IsConnected (open_places search.now T.eq begun) left top x y
        → IsSpreading search.now T.eq left top begun labels.old count room.old looked
        → IsSpreading search.now T.eq left top begun labels.new (count + 1) room.new looked }
    ensures step { AddsRuns search.now labels.old count room.old labels.new (count + 1) room.new }
    ensures run { ShowsAlong (label_grid search.now labels.new) search.now.label y x result }
    ensures after { x < result }
    ensures within { result ≤ shape_width search.now.shape }
{
    // (both sizes are below 2^32, so no number overflows)
    let (_columns, _rows) = (search.shape.width(), search.shape.height());
    let from = run_start(search, labels, x, y);
    let to = run_end(search, labels, x + 1, y);
    fill_run(labels, search.shape, search.label, Run { y, from, to });
    room[count] = y * search.shape.width() + from;
    to
}

// Looks at the places of a run: the run of each open one gets the label. Returns how many runs are
// pending. At least one place gets the label for each, whatever another process does to the pixels:
// so the labels bound the work buffer.
fn look_along<T: Copy + PartialEq>(
    search: &Search<'_, T>,
    labels: &mut [u64],
    room: &mut [usize],
    count: usize,
    run: Run,
) -> usize
    requires ready { CanSpread search.now labels.old count room.old }
    requires within { run.to ≤ shape_width search.now.shape }
    ensures goes_on { SpreadsOn search.now T.eq run labels.old count room.old labels.new result
        room.new }
    ensures looked { (u : ℕ) → run.from ≤ u → u < run.to
        → (open_places search.now T.eq labels.new).pixel u run.y ≢ Some true }
    ensures step { AddsRuns search.now labels.old count room.old labels.new result room.new }
{
    let mut count = count;
    if run.y >= search.shape.height() {
        return count;
    }
    let mut x = run.from;
    while x < run.to {
        if is_open(search, labels, x, run.y) {
            x = label_run(search, labels, room, count, x, run.y);
            count += 1;
        } else {
            x += 1;
        }
    }
    count
}

// Takes the last pending run, and looks at the places above and below it. Returns how many runs are
// pending then.
fn spread_run<T: Copy + PartialEq>(
    search: &Search<'_, T>,
    labels: &mut [u64],
    room: &mut [usize],
    count: usize,
) -> usize
    requires ready { CanSpread search.now labels.old (count + 1) room.old }
    ensures goes_on { (begun : List ℕ) (left top : ℕ)
        → IsSpreading search.now T.eq left top begun labels.old (count + 1) room.old no_run
        → IsSpreading search.now T.eq left top begun labels.new result room.new no_run }
    ensures step { AddsRuns search.now labels.old count room.old labels.new result room.new }
{
    let number = room[count];
    let width = search.shape.width();
    let _height = search.shape.height();
    let (from, y) = (number % width, number / width);
    let to = label_end(labels, search.shape, search.label, from, y);
    let above = y.saturating_sub(1);
    let count = look_along(search, labels, room, count, Run { y: above, from, to });
    look_along(search, labels, room, count, Run { y: y + 1, from, to })
}

// Gives a label to the component of an open place, where no place has this label.
fn label_region<T: Copy + PartialEq>(
    search: &Search<'_, T>,
    labels: &mut [u64],
    room: &mut [usize],
    x: usize,
    y: usize,
)
    requires labels { HasLabels search.now labels.old }
    requires some { 0 < search.now.label }
    requires fresh { (u v : ℕ)
        → (label_grid search.now labels.old).pixel u v ≢ Some search.now.label }
    requires room { shape_width search.now.shape * shape_height search.now.shape
        ≤ length room.old }
    requires clear { (open_places search.now T.eq labels.old).pixel x y ≡ Some true }
    ensures region { HasRegion (λ p. T.eq p search.now.seed) (ref_grid search.now.image) x y
        search.now.label (label_grid search.now labels.old) (label_grid search.now labels.new) }
    ensures room { length room.new ≡ length room.old }
    ensures outside { SameOutside (shaped labels.old search.now.shape)
        (shaped labels.new search.now.shape) }
    ensures fits { Fits (shaped labels.new search.now.shape) }
{
    label_run(search, labels, room, 0, x, y);
    let mut count = 1;
    while count > 0 {
        count = spread_run(search, labels, room, count - 1);
    }
}

// Looks at a place: where it has no label, its component gets the next one.
#[tactic(auto, using(image_model::proofs::Laws::reads))]
fn label_place<T: Copy + PartialEq>(
    image: ImgRef<'_, T>,
    labels: &mut [u64],
    shape: Shape,
    room: &mut [usize],
    regions: u64,
    place: (usize, usize),
) -> u64
    requires labels { CanBeLabelled (ref_layout image) (shaped labels.old shape) }
    requires room { shape_width shape * shape_height shape ≤ length room.old }
    requires column { place.0 < width_of image }
    requires row { place.1 < height_of image }
    requires more { regions + 1 < 18446744073709551616 }
    requires tells { TellsApart T.eq }
    requires labelled { Labelled (ref_grid image) (grid_of (shaped labels.old shape)) regions }
    ensures step { IsLabelStep (ref_grid image.entry) place.0 place.1
        (grid_of (shaped labels.old shape)) regions (grid_of (shaped labels.new shape)) result }
    ensures least { regions ≤ result }
    ensures most { result ≤ regions + 1 }
    ensures room { length room.new ≡ length room.old }
    ensures outside { SameOutside (shaped labels.old shape) (shaped labels.new shape) }
    ensures fits { Fits (shaped labels.new shape) }
{
    let (x, y) = place;
    if at(labels, shape, x, y) != 0 {
        return regions;
    }
    let search = Search {
        image,
        shape,
        seed: image[(x, y)],
        label: regions + 1,
    };
    label_region(&search, labels, room, x, y);
    regions + 1
}

// Gives each component a label, where no place has one. Returns how many components there are.
#[tactic(auto, using(image_model::proofs::Regions::labelling))]
fn label_all<T: Copy + PartialEq>(
    image: ImgRef<'_, T>,
    labels: &mut [u64],
    shape: Shape,
    room: &mut [usize],
) -> u64
    requires labels { CanBeLabelled (ref_layout image) (shaped labels.old shape) }
    requires room { shape_width shape * shape_height shape ≤ length room.old }
    requires tells { TellsApart T.eq }
    requires zeros { (u v n : ℕ)
        → (grid_of (shaped labels.old shape)).pixel u v ≡ Some n → n ≡ 0 }
    ensures regions { AreRegions (ref_grid image.entry) (grid_of (shaped labels.new shape)) result }
    ensures outside { SameOutside (shaped labels.old shape) (shaped labels.new shape) }
    ensures fits { Fits (shaped labels.new shape) }
{
    let mut regions = 0u64;
    for y in 0..image.height() {
        for x in 0..image.width() {
            regions = label_place(image, labels, shape, room, regions, (x, y));
        }
    }
    regions
}

/// The connected components of an image, in cells of the caller's. Each place gets a label, and two
/// places have the same label exactly if they are connected. A path then leads from one to the
/// other over sides (4-connected), and over places that show the same pixel. The labels are 1, 2
/// and so on up to the number of components, which is returned. Which one has which label isn't
/// promised. No pixel value is background. The work buffer `room` has a number for each place: what
/// it has then means nothing.
///
/// # Requires
///
/// The image fits (`is_valid`), and so do the labels (`Shape::fits`). The sizes are equal, and the
/// buffer has as many numbers as there are places: compare its length. Two pixels are equal by `==`
/// only if they are the same: compare the fields of a struct, and no floats.
pub fn components_into<T: Copy + PartialEq>(
    image: ImgRef<'_, T>,
    labels: &mut [u64],
    shape: Shape,
    room: &mut [usize],
) -> u64
    requires fits { Fits (ref_layout image) }
    requires labels_fit { Fits (shaped labels.old shape) }
    requires width { shape_width shape ≡ width_of image }
    requires height { shape_height shape ≡ height_of image }
    requires room { shape_width shape * shape_height shape ≤ length room.old }
    requires tells { TellsApart T.eq }
    ensures regions { AreRegions (ref_grid image.entry) (grid_of (shaped labels.new shape)) result }
    ensures outside { SameOutside (shaped labels.old shape) (shaped labels.new shape) }
{
    fill_pixels(labels, shape, 0);
    label_all(image, labels, shape, room)
}

/// The components of an image, as `components_into` labels them. The labels and the work buffer are
/// allocated. The labels have no padding: their stride is the width, or 1 for width 0.
///
/// # Requires
///
/// The image fits: `is_valid`. Two pixels are equal by `==` only if they are the same: compare the
/// fields of a struct, and no floats.
///
/// # Errors
///
/// Out of memory. This never happens where there is no pixel.
pub fn components<T: Copy + PartialEq>(
    alloc: Global,
    image: ImgRef<'_, T>,
) -> Result<Regions, AllocError>
    requires fits { Fits (ref_layout image) }
    requires tells { TellsApart T.eq }
    ensures regions { IfOk result
        (λ r. AreRegions (ref_grid image.entry) (vec_grid r.labels) r.count) }
    ensures stride { IfOk result
        (λ r. stride_of r.labels ≡ least_stride (width_of image.entry)) }
    ensures fits { IfOk result (λ r. Fits (vec_layout r.labels)) }
    ensures succeeds { width_of image.entry * height_of image.entry ≡ 0 → IsOk result }
{
    let mut room = Vec::new(alloc);
    room.resize(image.shape().pixel_count(), 0usize)?;
    let labels = ImgVec::from_places(alloc, image.width(), image.height(), |_x, _y| 0u64)?;
    let (mut cells, shape) = labels.into_parts();
    let count = label_all(image, cells.as_mut_slice(), shape, room.as_mut_slice());
    let labels = ImgVec::from_parts(cells, shape);
    Ok(Regions { labels, count })
}
