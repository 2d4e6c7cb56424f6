//! One command: it runs over images, or is refused for its first fault.

ghost use Rattle.std.specs.Prelude.{◌≡◌, ◌<◌, ◌+◌, ◌^◌, ◌∷◌, ◌++◌, [], List, IfOk, OnOk, length, count_by};
ghost use Rattle.std.specs.Result.{result_err};
ghost use Rattle.image_model.specs.Layout.{Layout, Fits};
ghost use Rattle.image_model.specs.Rows.{grid_pixels};
ghost use Rattle.imgref.specs.Image.{ref_grid, ref_layout};
ghost use Rattle.imgref.specs.Window.{as_window};
ghost use Rattle.imgref.specs.Lists.{AllFit, layouts_of, grids_of};
ghost use Rattle.image_commands.specs.Commands.{sizes_of, window_named, view_named, window_faults, place_faults, pair_faults, IsPlaceNamed};
ghost use Rattle.imgref_replay.specs.Step.{IsInsideOf, first_fault, IsStep};
ghost use Rattle.imgref_replay.specs.Run.{IsRun};

use crate::copy::copy_between;
use crate::path::path_window;
use image_commands::{Command, Place, Refusal, Reply};
use imgref::{ImgRef, ImgVec, Window};

/// What a command replies, or its first fault.
type Answer<T> = Result<Reply<T>, Refusal>;

/// The window that a place names in its image, or the first fault of the place.
fn locate<T>(images: &[ImgVec<T>], spot: &Place) -> Result<Window, Refusal>
    ensures fault { result_err result
        ≡ first_fault (window_faults spot.now (sizes_of (grids_of images.now))) }
    ensures image { OnOk result (spot.now.image < length images.now) }
    ensures window { IfOk result
        (λ w. as_window w ≡ window_named spot.now (sizes_of (grids_of images.now))) }
    ensures inside { IfOk result (λ w. IsInsideOf images.now spot.now.image (as_window w)) }
    ensures small { IfOk result (λ w. (w.left + w.width < 2 ^ 64) × (w.top + w.height < 2 ^ 64)) }
{
    let Some(image) = images.get(spot.image) else {
        return Err(Refusal::NoImage);
    };
    match path_window(image.width(), image.height(), &spot.path) {
        Ok(window) => Ok(window),
        Err(_) => Err(Refusal::WindowOutside),
    }
}

/// The windows that two places name in their images, or the first fault of these places. Both image
/// numbers are tested before the first path.
// Inlined: two windows that are returned go by memory, and the caller waits for them there.
#[inline(always)]
fn locate_both<T>(
    images: &[ImgVec<T>],
    first: &Place,
    second: &Place,
) -> Result<(Window, Window), Refusal>
    ensures fault { result_err result
        ≡ first_fault (pair_faults first.now second.now (sizes_of (grids_of images.now))) }
    ensures first_image { OnOk result (first.now.image < length images.now) }
    ensures second_image { OnOk result (second.now.image < length images.now) }
    ensures first_window { IfOk result
        (λ w. as_window w.0 ≡ window_named first.now (sizes_of (grids_of images.now))) }
    ensures second_window { IfOk result
        (λ w. as_window w.1 ≡ window_named second.now (sizes_of (grids_of images.now))) }
    ensures first_inside { IfOk result
        (λ w. IsInsideOf images.now first.now.image (as_window w.0)) }
    ensures second_inside { IfOk result
        (λ w. IsInsideOf images.now second.now.image (as_window w.1)) }
{
    if first.image >= images.len() || second.image >= images.len() {
        return Err(Refusal::NoImage);
    }
    Ok((locate(images, first)?, locate(images, second)?))
}

/// The view through a window of the image that a place names.
fn show<'i, T>(images: &'i [ImgVec<T>], spot: &Place, window: Window) -> ImgRef<'i, T>
    requires fit { AllFit images.now }
    requires image { spot.now.image < length images.now }
    requires named { as_window window ≡ window_named spot.now (sizes_of (grids_of images.now)) }
    requires inside { IsInsideOf images.now spot.now.image (as_window window) }
    ensures view { ref_grid result ≡ view_named spot.now (grids_of images.now) }
    ensures fits { Fits (ref_layout result) }
{
    images[spot.image].window(window)
}

/// The view through the window that a place names.
fn view<'i, T>(images: &'i [ImgVec<T>], spot: &Place) -> Result<ImgRef<'i, T>, Refusal>
    requires { AllFit images.now }
    ensures fault { result_err result
        ≡ first_fault (window_faults spot.now (sizes_of (grids_of images.now))) }
    ensures view { IfOk result (λ seen. ref_grid seen ≡ view_named spot.now (grids_of images.now)) }
    ensures fits { IfOk result (λ seen. Fits (ref_layout seen)) }
{
    let window = locate(images, spot)?;
    Ok(show(images, spot, window))
}

/// The column and the row of a pixel, counted in its image, or the first fault. The pixel is at
/// column `x` of row `y` of a window.
fn locate_pixel<T>(
    images: &[ImgVec<T>],
    spot: &Place,
    x: usize,
    y: usize,
) -> Result<(usize, usize), Refusal>
    ensures fault { result_err result
        ≡ first_fault (place_faults spot.now x y (sizes_of (grids_of images.now))) }
    ensures image { OnOk result (spot.now.image < length images.now) }
    ensures place { IfOk result
        (λ place. IsPlaceNamed spot.now x y (grids_of images.now) place.0 place.1) }
{
    let window = locate(images, spot)?;
    if x < window.width && y < window.height {
        Ok(window.place(x, y))
    } else {
        Err(Refusal::PlaceOutside)
    }
}

/// The pixel at a place of a window.
fn get<T: Copy + Eq>(images: &[ImgVec<T>], spot: &Place, x: usize, y: usize) -> Answer<T>
    requires { AllFit images.now }
    ensures { IsStep T.eq (Command.Get spot.now x y) (layouts_of images.now)
        (layouts_of images.now) result }
{
    let place = locate_pixel(images, spot, x, y)?;
    Ok(Reply::Pixel(images[spot.image][place]))
}

/// Writes the pixel at a place of a window.
fn put<T: Copy + Eq>(
    images: &mut [ImgVec<T>],
    spot: &Place,
    x: usize,
    y: usize,
    value: T,
) -> Answer<T>
    requires { AllFit images.old }
    ensures { IsStep T.eq (Command.Put spot.now x y value) (layouts_of images.old)
        (layouts_of images.new) result }
{
    let (column, row) = locate_pixel(images, spot, x, y)?;
    images[spot.image].put(column, row, value);
    Ok(Reply::Done)
}

/// Writes the value at every place of a window.
fn fill<T: Copy + Eq>(images: &mut [ImgVec<T>], spot: &Place, value: T) -> Answer<T>
    requires { AllFit images.old }
    ensures { IsStep T.eq (Command.Fill spot.now value) (layouts_of images.old)
        (layouts_of images.new) result }
{
    let window = locate(images, spot)?;
    images[spot.image].fill_inside(window, value);
    Ok(Reply::Done)
}

/// The number of pixels of an image that are equal to the value.
fn count_equal<T: Copy + Eq>(image: ImgRef<'_, T>, value: T) -> usize
    requires { Fits (ref_layout image) }
    ensures { result ≡ count_by (λ pixel. T.eq pixel value) (grid_pixels (ref_grid image.entry)) }
{
    image.count_where(|pixel| *pixel == value)
}

/// The number of pixels of a window that are equal to the value.
fn count<T: Copy + Eq>(images: &[ImgVec<T>], spot: &Place, value: T) -> Answer<T>
    requires { AllFit images.now }
    ensures { IsStep T.eq (Command.Count spot.now value) (layouts_of images.now)
        (layouts_of images.now) result }
{
    Ok(Reply::Counted(count_equal(view(images, spot)?, value)))
}

/// Whether two windows have the same size, and equal pixels at every place.
fn same<T: Copy + Eq>(images: &[ImgVec<T>], first: &Place, second: &Place) -> Answer<T>
    requires { AllFit images.now }
    ensures { IsStep T.eq (Command.Same first.now second.now) (layouts_of images.now)
        (layouts_of images.now) result }
{
    let windows = locate_both(images, first, second)?;
    let one = show(images, first, windows.0);
    let two = show(images, second, windows.1);
    Ok(Reply::Truth(one.same_pixels(two)))
}

/// Writes the old pixels of one window over those of another of its size.
fn blit<T: Copy + Eq>(images: &mut [ImgVec<T>], source: &Place, target: &Place) -> Answer<T>
    requires { AllFit images.old }
    ensures { IsStep T.eq (Command.Blit source.now target.now) (layouts_of images.old)
        (layouts_of images.new) result }
{
    let (from, to) = locate_both(images, source, target)?;
    if from.width != to.width || from.height != to.height {
        return Err(Refusal::SizesDiffer);
    }
    copy_between(images, target.image, to, source.image, from);
    Ok(Reply::Done)
}

/// Writes, at every place of a window, the old pixel at the corner of the place's tile.
fn mosaic<T: Copy + Eq>(
    images: &mut [ImgVec<T>],
    spot: &Place,
    tile_width: usize,
    tile_height: usize,
) -> Answer<T>
    requires { AllFit images.old }
    ensures { IsStep T.eq (Command.Mosaic spot.now tile_width tile_height) (layouts_of images.old)
        (layouts_of images.new) result }
{
    let window = locate(images, spot)?;
    if tile_width == 0 || tile_height == 0 {
        return Err(Refusal::NoTile);
    }
    images[spot.image].mosaic_inside(window, tile_width, tile_height);
    Ok(Reply::Done)
}

/// Leaves only the rows of an image in its buffer, at the least stride.
fn compact<T: Copy + Eq>(images: &mut [ImgVec<T>], image: usize) -> Answer<T>
    requires { AllFit images.old }
    ensures { IsStep T.eq (Command.Compact image) (layouts_of images.old)
        (layouts_of images.new) result }
{
    if image >= images.len() {
        return Err(Refusal::NoImage);
    }
    images[image].as_contiguous_buf();
    Ok(Reply::Done)
}

/// Runs one command, or returns its first fault and changes nothing.
fn accept<T: Copy + Eq>(images: &mut [ImgVec<T>], command: &Command<T>) -> Answer<T>
    requires { AllFit images.old }
    ensures { IsStep T.eq command.now (layouts_of images.old) (layouts_of images.new) result }
{
    match command {
        Command::Get { spot, x, y } => get(images, spot, *x, *y),
        Command::Put { spot, x, y, value } => put(images, spot, *x, *y, *value),
        Command::Fill { spot, value } => fill(images, spot, *value),
        Command::Count { spot, value } => count(images, spot, *value),
        Command::Same { first, second } => same(images, first, second),
        Command::Blit { source, target } => blit(images, source, target),
        Command::Mosaic {
            spot,
            tile_width,
            tile_height,
        } => mosaic(images, spot, *tile_width, *tile_height),
        Command::Compact { image } => compact(images, *image),
    }
}

/// Runs one command and returns its reply. With a fault the reply names the first, and nothing
/// changes. It allocates no memory.
///
/// This is the run of the one command, as for `replay_into`. After a run of other commands it is the
/// run of these and the new one.
///
/// # Requires
///
/// Every image fits (`is_valid`).
pub fn replay_next<T: Copy + Eq>(images: &mut [ImgVec<T>], command: &Command<T>) -> Reply<T>
    requires { AllFit images.old }
    ensures run { IsRun T.eq (command.now ∷ []) (layouts_of images.old)
        (layouts_of images.new) (result ∷ []) }
    ensures more { (before : List (Command T)) (olds : List (Layout T)) (replies : List (Reply T))
        → IsRun T.eq before olds (layouts_of images.old) replies
        → IsRun T.eq (before ++ command.now ∷ []) olds (layouts_of images.new)
        (replies ++ result ∷ []) }
{
    match accept(images, command) {
        Ok(reply) => reply,
        Err(refusal) => Reply::Refused(refusal),
    }
}
