//! The changes of each frame of a video, or of a picture.

ghost use Rattle.std.specs.Prelude.{◌≡◌, ◌≤◌, ◌⊎◌, ◌^◌, true, false, Some, None, IfOk, IfErr, IsOk, length, map, take};
ghost use Rattle.image_planes.specs.Changes.{as_usize, jobs_len};
ghost use Rattle.image_planes.specs.Planes.{job_of};
ghost use Rattle.image_planes.specs.Scratch.{scratch_len, room_len, HasRoom, KeepsRoom};
ghost use Rattle.frame_texts.specs.Format.{format_of};
ghost use Rattle.frame_formats.specs.Plan.{Tells};
ghost use Rattle.frame_edits.specs.Covers.{one_pixel, video_unit};
ghost use Rattle.frame_formats.specs.Steps.{step_in, StartsWell};
ghost use Rattle.frame_formats.specs.Suits.{suit_picture, suit_video};
ghost use Rattle.frame_edits.specs.Edits.{edits};
ghost use Rattle.frame_texts.specs.Rates.{rate_of};
ghost use Rattle.frame_formats.specs.Recipe.{recipe, video_recipe, picture_recipe, new_len, resized_len, resizings_of};

use crate::framing::resize_of;
use crate::layers::{picture_layers, picture_pixel, planes_of, targets_of, video_layers};
use crate::settling::settle_all;
use crate::suits::{unsuited_in_picture, unsuited_in_video};
use frame_edits::{Edit, Framing, unit_of_picture, unit_of_video};
use frame_texts::{Format, Picture, ended_line, picture_head, read_rate, resized_line};
use image_planes::{
    Plane, Scratch, Target, change_planes, planes_len, resize_planes, scratch_len, targets_len,
};
use std::alloc::{AllocError, AllocFailed, Global};

/// Why there is no plan.
#[derive(Clone, Copy, Debug, PartialEq, Eq)]
pub enum PlanFault {
    /// The edit reaches outside a plane, or doesn't fall on whole chroma samples. Or it has a
    /// colour where there is one brightness, or a value that the samples lack. Or it is for times,
    /// and there is no rate, or no frame is in them.
    Outside,
    /// No memory was found for the plan, or a frame has 2^64 bytes or more.
    Memory,
}

impl From<AllocError> for PlanFault {
    ghost use Rattle.frame_formats.specs.declared.plans.PlanFault.TheVariants.{Memory};

    ghost from_gives = { λ _ e. e ≡ Memory };

    fn from(_e: AllocError) -> PlanFault {
        PlanFault::Memory
    }
}

impl<T: Drop> From<AllocFailed<T>> for PlanFault {
    ghost use Rattle.frame_formats.specs.declared.plans.PlanFault.TheVariants.{Memory};

    ghost from_gives = { λ _ e. e ≡ Memory };

    fn from(_e: AllocFailed<T>) -> PlanFault {
        PlanFault::Memory
    }
}

/// The changes of each frame of a video, or of a picture, and what is written before it.
#[derive(Drop)]
pub struct Plan {
    head: Vec<u8>,
    planes: Vec<Plane>,
    targets: Option<Vec<Target>>,
    source_len: usize,
    len: usize,
    ghost source: { source_len ≡ jobs_len (map job_of planes.items) },
    ghost target: { len ≡ new_len (map job_of planes.items) (resizings_of targets) },
    ghost covers: { resized_len (resizings_of targets) ≤ source_len },
}

// Whether no edit of a video is bad.
#[tactic(auto, using(crate::proofs::BadEdits::decided))]
fn suits_video(line: &[u8], format: Format, steps: &[Edit], framing: Option<Framing>) -> bool
    ensures { result ≡ suit_video (edits steps.now framing) line.now format }
{
    unsuited_in_video(format, read_rate(line), steps, framing).is_none()
}

// The same of a picture.
#[tactic(auto, using(crate::proofs::BadEdits::decided))]
fn suits_picture(picture: Picture, steps: &[Edit], framing: Option<Framing>) -> bool
    ensures { result ≡ suit_picture (edits steps.now framing) picture }
{
    unsuited_in_picture(picture, steps, framing).is_none()
}

impl Plan {
    // These name the type itself.
    ghost use Rattle.frame_formats.specs.Planned.{recipe_of, plan_room, plan_other_room};

    // A plan with the sizes of its frames.
    fn new(
        head: Vec<u8>,
        planes: Vec<Plane>,
        targets: Option<Vec<Target>>,
    ) -> Result<Plan, PlanFault>
        requires covers { resized_len (resizings_of targets) ≤ jobs_len (map job_of planes.items) }
        ensures plan { IfOk result (λ plan. recipe_of plan
            ≡ recipe head.items (map job_of planes.items) (resizings_of targets)) }
        ensures fault { IfErr result (λ fault. fault ≡ PlanFault.Memory) }
        ensures cause { IfErr result (λ _.
            (2 ^ 64 ≤ jobs_len (map job_of planes.items))
            ⊎ (2 ^ 64 ≤ new_len (map job_of planes.items) (resizings_of targets))) }
    {
        let source_len = planes_len(&planes).ok_or(PlanFault::Memory)?;
        let len = match &targets {
            None => source_len,
            Some(targets) => targets_len(targets).ok_or(PlanFault::Memory)?,
        };
        Ok(Plan {
            head,
            planes,
            targets,
            source_len,
            len,
        })
    }

    /// The plan for a video with this line, which names this format.
    ///
    /// # Errors
    ///
    /// `Outside` where the edits aren't valid for such a video, or no row would be left. A bad edit is
    /// told so whatever memory there is.
    #[tactic(auto, using(crate::proofs::SuitingEdits::unsuited_video))]
    pub fn for_video(
        alloc: Global,
        line: &[u8],
        format: Format,
        steps: &[Edit],
        framing: Option<Framing>,
    ) -> Result<Plan, PlanFault>
        requires { format_of line.now ≡ Some format }
        ensures plan { IfOk result
            (λ plan. video_recipe (edits steps.now framing) line.now ≡ Some (recipe_of plan)) }
        ensures fault { IfErr result
            (Tells (video_recipe (edits steps.now framing) line.now ≡ None)) }
        ensures memory { IfErr result (λ e. e ≡ PlanFault.Memory → StartsWell
            (step_in (video_unit format) (rate_of line.now) format.width format.height) steps.now) }
        ensures good { IfErr result (λ e. e ≡ PlanFault.Memory
            → suit_video (edits steps.now framing) line.now format ≡ true) }
    {
        match Plan::of_video(alloc, line, format, steps, framing) {
            Ok(plan) => Ok(plan),
            Err(PlanFault::Outside) => Err(PlanFault::Outside),
            Err(PlanFault::Memory) => {
                // Without room each edit is looked at by itself.
                if suits_video(line, format, steps, framing) {
                    Err(PlanFault::Memory)
                } else {
                    Err(PlanFault::Outside)
                }
            }
        }
    }

    // The same, where what is first told is first met.
    #[tactic(auto, using(crate::proofs::Sizes::same_sizes, crate::proofs::StepsEach::starts_made, crate::proofs::StepsEach::starts_first))]
    fn of_video(
        alloc: Global,
        line: &[u8],
        format: Format,
        steps: &[Edit],
        framing: Option<Framing>,
    ) -> Result<Plan, PlanFault>
        requires { format_of line.now ≡ Some format }
        ensures plan { IfOk result
            (λ plan. video_recipe (edits steps.now framing) line.now ≡ Some (recipe_of plan)) }
        ensures fault { IfErr result
            (Tells (video_recipe (edits steps.now framing) line.now ≡ None)) }
        ensures memory { IfErr result (λ e. e ≡ PlanFault.Memory → StartsWell
            (step_in (video_unit format) (rate_of line.now) format.width format.height) steps.now) }
    {
        let (pixel, width, height) = (format.pixel, format.width, format.height);
        let layers = video_layers(format.chroma);
        let unit = unit_of_video(format);
        let settled = settle_all(alloc, unit, read_rate(line), width, height, steps)?;
        let planes = planes_of(alloc, pixel, layers, width, height, &settled)?;
        let Some(framing) = framing else {
            return Plan::new(ended_line(alloc, line)?, planes, None);
        };
        let resize = resize_of(format.is_upright(), pixel, width, height, framing).ok_or(
            PlanFault::Outside,
        )?;
        if resize.height() < 1 {
            return Err(PlanFault::Outside);
        }
        let targets = targets_of(alloc, pixel, layers, width, height, resize)?;
        let head = resized_line(alloc, line, resize.width(), resize.height())?;
        Plan::new(head, planes, Some(targets))
    }

    /// The plan for a picture.
    ///
    /// # Errors
    ///
    /// `Outside` where the edits aren't valid for such a picture, or no row would be left. A bad edit
    /// is told so whatever memory there is.
    #[tactic(auto, using(crate::proofs::SuitingEdits::unsuited_picture))]
    pub fn for_picture(
        alloc: Global,
        picture: Picture,
        steps: &[Edit],
        framing: Option<Framing>,
    ) -> Result<Plan, PlanFault>
        ensures plan { IfOk result
            (λ plan. picture_recipe (edits steps.now framing) picture ≡ Some (recipe_of plan)) }
        ensures fault { IfErr result
            (Tells (picture_recipe (edits steps.now framing) picture ≡ None)) }
        ensures memory { IfErr result (λ e. e ≡ PlanFault.Memory → StartsWell
            (step_in one_pixel None picture.width picture.height) steps.now) }
        ensures good { IfErr result (λ e. e ≡ PlanFault.Memory
            → suit_picture (edits steps.now framing) picture ≡ true) }
    {
        match Plan::of_picture(alloc, picture, steps, framing) {
            Ok(plan) => Ok(plan),
            Err(PlanFault::Outside) => Err(PlanFault::Outside),
            Err(PlanFault::Memory) => {
                // Without room each edit is looked at by itself.
                if suits_picture(picture, steps, framing) {
                    Err(PlanFault::Memory)
                } else {
                    Err(PlanFault::Outside)
                }
            }
        }
    }

    // The same, where what is first told is first met.
    #[tactic(auto, using(crate::proofs::Sizes::same_sizes, crate::proofs::StepsEach::starts_made, crate::proofs::StepsEach::starts_first))]
    fn of_picture(
        alloc: Global,
        picture: Picture,
        steps: &[Edit],
        framing: Option<Framing>,
    ) -> Result<Plan, PlanFault>
        ensures plan { IfOk result
            (λ plan. picture_recipe (edits steps.now framing) picture ≡ Some (recipe_of plan)) }
        ensures fault { IfErr result
            (Tells (picture_recipe (edits steps.now framing) picture ≡ None)) }
        ensures memory { IfErr result (λ e. e ≡ PlanFault.Memory → StartsWell
            (step_in one_pixel None picture.width picture.height) steps.now) }
    {
        let (pixel, width, height) = (picture_pixel(picture), picture.width, picture.height);
        let layers = picture_layers();
        let unit = unit_of_picture();
        let settled = settle_all(alloc, unit, None, width, height, steps)?;
        let planes = planes_of(alloc, pixel, layers, width, height, &settled)?;
        let Some(framing) = framing else {
            return Plan::new(picture_head(alloc, picture)?, planes, None);
        };
        let resize = resize_of(true, pixel, width, height, framing).ok_or(PlanFault::Outside)?;
        if resize.height() == 0 {
            return Err(PlanFault::Outside);
        }
        let targets = targets_of(alloc, pixel, layers, width, height, resize)?;
        let resized = Picture {
            width: resize.width(),
            height: resize.height(),
            kind: picture.kind,
            greatest: picture.greatest,
        };
        Plan::new(picture_head(alloc, resized)?, planes, Some(targets))
    }

    /// What is written before the first frame: a line with its line feed, or the header of a picture.
    pub fn head(&self) -> &[u8]
        ensures { result.now ≡ (recipe_of self.now).head }
    {
        &self.head
    }

    /// The number of bytes of a frame, which its buffer needs.
    pub fn room(&self) -> usize
        ensures room { result ≡ plan_room self.now }
        ensures size { result ≡ (recipe_of self.now).size }
    {
        self.source_len
    }

    /// The number of bytes that the other buffer needs: those of a frame in its other size.
    pub fn other_room(&self) -> usize
        ensures room { result ≡ plan_other_room self.now }
        ensures size { result ≡ (recipe_of self.now).other_size }
    {
        match self.targets {
            Some(_) => self.len,
            None => 0,
        }
    }

    /// The number of bytes that its blurs need besides the buffers. It is 0 where there is no blur,
    /// and `None` exactly where it is 2^64 or more.
    pub fn scratch_len(&self) -> Option<usize>
        ensures { result ≡ as_usize (scratch_len (recipe_of self.now).jobs) }
    {
        scratch_len(&self.planes)
    }

    /// Exactly the work buffers for its blurs. Without a blur it takes no memory.
    pub fn scratch(&self, alloc: Global) -> Result<Scratch, AllocError>
        ensures room { IfOk result (HasRoom (recipe_of self.now).jobs) }
        ensures bytes { IfOk result (λ s. room_len s ≡ scratch_len (recipe_of self.now).jobs) }
        ensures succeeds { scratch_len (recipe_of self.now).jobs ≡ 0 → IsOk result }
    {
        Scratch::new(alloc, &self.planes)
    }

    /// Edits the frame of this number, which is at the front of the first buffer, and returns what
    /// it becomes. That is in the other buffer where its size changes. Blurs use work buffers.
    pub fn edit<'a>(
        &self,
        number: u64,
        cells: &'a mut [u8],
        other: &'a mut [u8],
        scratch: &mut Scratch,
    ) -> &'a [u8]
        requires room { plan_room self.now ≤ length cells.old }
        requires other_room { plan_other_room self.now ≤ length other.old }
        requires scratch { HasRoom (recipe_of self.now).jobs scratch.old }
        ensures frame { result.now
            ≡ (recipe_of self.now).frame number (take (recipe_of self.now).size cells.old) }
        ensures scratch { KeepsRoom scratch.old scratch.new }
    {
        let (frame, _) = cells.split_at_mut(self.source_len);
        change_planes(number, frame, &self.planes, scratch);
        match &self.targets {
            None => frame,
            Some(targets) => {
                let (target, _) = other.split_at_mut(self.len);
                resize_planes(frame, target, targets);
                target
            }
        }
    }
}
