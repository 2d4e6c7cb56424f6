//! Copies of one window over another, in a list of images.

ghost use Rattle.std.specs.Prelude.{◌≡◌, ◌<◌, length};
ghost use Rattle.image_model.specs.Layout.{Fits, SameOutside};
ghost use Rattle.image_model.specs.Grid.{patch};
ghost use Rattle.image_model.specs.Windows.{IsInside, window_view};
ghost use Rattle.imgref.specs.Image.{vec_grid, vec_layout, width_of, height_of};
ghost use Rattle.imgref.specs.Window.{as_window};
ghost use Rattle.imgref.specs.Lists.{AllFit, layouts_of, grids_of};
ghost use Rattle.image_commands.specs.Commands.{grid_at};
ghost use Rattle.imgref_replay.specs.Step.{IsInsideOf, MayCopy, ShowsCopy};

use imgref::{ImgVec, Window};

/// Copies a window of one image over a window of its size in another image.
fn copy_over<T: Copy>(image: &mut ImgVec<T>, to: Window, source: &ImgVec<T>, from: Window)
    requires { MayCopy (vec_layout image.old) (as_window to)
        (vec_layout source.now) (as_window from) }
    ensures grid { vec_grid image.new ≡ patch (vec_grid image.old) to.left to.top
        (window_view (vec_grid source.now) (as_window from)) }
    ensures outside { SameOutside (vec_layout image.old) (vec_layout image.new) }
    ensures fits { Fits (vec_layout image.new) }
{
    let seen = source.window(from);
    image.copy_window(to.left, to.top, seen);
}

/// Copies a window of an image of a list over a window of its size in the same or another image.
/// For two images the list is split, so that one is read and the other written.
pub(crate) fn copy_between<T: Copy>(
    images: &mut [ImgVec<T>],
    target: usize,
    to: Window,
    source: usize,
    from: Window,
)
    requires fit { AllFit images.old }
    requires target { target < length images.old }
    requires source { source < length images.old }
    requires target_inside { IsInsideOf images.old target (as_window to) }
    requires source_inside { IsInsideOf images.old source (as_window from) }
    requires same_width { from.width ≡ to.width }
    requires same_height { from.height ≡ to.height }
    ensures { ShowsCopy target to.left to.top (window_view (grid_at (grids_of images.old) source)
        (as_window from)) (layouts_of images.old) (layouts_of images.new) }
{
    if source == target {
        images[target].move_inside(from, to.left, to.top);
    } else if source < target {
        let (front, back) = images.split_at_mut(target);
        copy_over(&mut back[0], to, &front[source], from);
    } else {
        let (front, back) = images.split_at_mut(source);
        copy_over(&mut front[target], to, &back[0], from);
    }
}
