//! The mirror image of a joined list, without a sweep.
ghost use Rattle.std.specs.Prelude.{◌≡◌, ◌≤◌, ◌∷◌, ◌++◌, length, map, reverse, take, drop, All, List, IfOk, OnOk};
ghost use Rattle.half_grid.specs.Trapezoids.{Trapezoid};
ghost use Rattle.tone_mirror.specs.Mirrors.{mirrored_trapezoid, HasImageWithinReach};
ghost use Rattle.deck_plan.specs.Lists.{IsJoinedSomewhere};
ghost use Rattle.deck_plan.specs.Images.{AreImages, HasTop};

use geo_stream::NoMemory;
use half_grid::Trap;
use std::alloc::Global;
use tone_mirror::mirrored;

/// The upright line `X = m`.
#[derive(Clone, Copy)]
pub(crate) struct Axis {
    pub(crate) m: i64,
}

// How many at the beginning of the list have the top of this one.
fn with_top_of(first: &Trap, traps: &[Trap]) -> usize
    ensures within { result ≤ length traps.now }
    ensures same { All (HasTop first.now.y1) (take result traps.now) }
    ensures next { (z : Trapezoid) (zs : List Trapezoid) → drop result traps.now ≡ z ∷ zs → HasTop first.now.y1 z → ⊥ }
{
    let mut count = 0;
    while count < traps.len() {
        if traps[count].y1() != first.y1() {
            return count;
        }
        count += 1;
    }
    count
}

// Puts the images of the trapezoids at the end, that of the last one first.
fn put_images(images: &mut Vec<Trap>, traps: &[Trap], axis: Axis) -> Result<(), NoMemory>
    requires { All (HasImageWithinReach axis.m) traps.now }
    ensures { OnOk result (images.new.items ≡ images.old.items ++ reverse (map (mirrored_trapezoid axis.m) traps.now)) }
{
    let mut number = traps.len();
    while 0 < number {
        number -= 1;
        images.push(mirrored(&traps[number], axis.m))?;
    }
    Ok(())
}

/// The images at the line of the trapezoids of a joined list, in the order of joined lists: those with one top stand the
/// other way round.
pub(crate) fn images_in_order(
    alloc: Global,
    traps: &[Trap],
    axis: Axis,
) -> Result<Vec<Trap>, NoMemory>
    requires joined { IsJoinedSomewhere traps.now }
    requires within { All (HasImageWithinReach axis.m) traps.now }
    ensures { IfOk result (λ images. AreImages axis.m traps.now images.items) }
{
    let mut images = Vec::with_capacity(alloc, traps.len())?;
    let mut left = traps;
    while let Some((first, later)) = left.split_first() {
        let (group, above) = left.split_at(1 + with_top_of(first, later));
        put_images(&mut images, group, axis)?;
        left = above;
    }
    Ok(images)
}
