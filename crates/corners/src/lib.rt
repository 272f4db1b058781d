// One more point: its gain, and its joint contribution with each of the points, by its upper corners with them.
#![tactic(auto)]

ghost use Rattle.std.specs.Prelude.{◌≡◌, length};
ghost use Rattle.slices.specs.Spread.{Sparse};
ghost use Rattle.hypervolume.specs.Counts.{gain, joints};
ghost use Rattle.corners.specs.Updating.{Updating};

use hypervolume::Point;

mod limits;

// What one more point gains, and how many of the points have a joint contribution with it that need not be 0.
#[derive(Clone, Copy)]
pub struct Updated {
    pub gain: u64,
    pub moved: usize,
}

// The gain of u over the points, and its joint contribution with each: the first counts, for the points at the first
// places. A trial shares with u just what its upper corner with u dominates; of the edge product of u the gain is what
// no corner dominates. Most corners lie beyond a limit, where two others dominate all that they do: these change no
// count and have none, so only the rest is swept. Where two points are at most u on all axes, u changes no count at all.
// What the caller lends may hold anything. (Four slices, and no struct of them: so says the contract of `update`, and the caller
// has them where it likes.)
pub fn update(
    points: &[[u32; 3]],
    u: Point,
    reference: Point,
    corners: &mut [[u32; 3]],
    places: &mut [u16],
    line: &mut [u64],
    counts: &mut [u64],
) -> Updated
    requires { Updating points.now u.at reference.at corners.old places.old line.old counts.old }
    ensures gain { result.gain ≡ gain reference.at points.now u.at }
    ensures joints { Sparse (length points.now) (joints reference.at points.now u.at) places.new counts.new result.moved }
{
    let limit = limits::limits(points, u);
    if limits::covered(u, limit) {
        return Updated { gain: 0, moved: 0 };
    }
    let moved = limits::collect(points, u, limit, corners, places);
    let covered = sweep::sweep(&corners[..moved], reference, line, counts);
    Updated {
        gain: u.edges(reference) - covered,
        moved,
    }
}
