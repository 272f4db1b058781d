// Counted amounts of the records that the words hold: one call of the sweep each. (A point's zeros are written out in the
// local arrays: so the compiler clears an array at once, and not point by point.)
ghost use Rattle.std.specs.Prelude.{◌≡◌, ◌≤◌, length};
ghost use Rattle.hypervolume.specs.Sorted.{Small};
ghost use Rattle.words.specs.Layout.{read, word};
ghost use Rattle.words.specs.Format.{archive_rows};
ghost use Rattle.calls.specs.Calls.{held_points};
ghost use Rattle.ask.specs.RecordCounts.{CountedAll, Room, CountedJoints};

use corners::{Updated, update};
use hypervolume::Point;
use records::load_points;
use sweep::sweep;
use words::reference_of;

// The total of all records, whose points these are, and in `out` the contribution of each.
pub fn count_all(w: &[u64], points: &[[u32; 3]], out: &mut [u64]) -> u64
    requires { (archive_rows w.now 0 ≡ 0) × (points.now ≡ held_points (read w.now)) × (512 ≤ length out.old) }
    ensures { CountedAll w.now out.old out.new result }
{
    let mut line = [0u64; 512];
    sweep(points, reference_of(w), &mut line, out)
}

// The gain of p over the records but the one at place `skip` (over all where skip is the count), and its joint count
// with each of them: `counts` has those at `places`, all others are 0. Counted in lent arrays, for those who count again and
// again; of the others it does not matter what they hold. (Each by itself: a struct of the five would be put together anew at each
// call, as the caller keeps two of them.)
pub fn count_joints_in(
    w: &[u64],
    skip: usize,
    p: Point,
    points: &mut [[u32; 3]],
    corners: &mut [[u32; 3]],
    places: &mut [u16],
    line: &mut [u64],
    counts: &mut [u64],
) -> Updated
    requires { (archive_rows w.now 0 ≡ 0) × (skip ≤ word w.now 0) × Small p.at × Room points.old corners.old places.old line.old counts.old }
    ensures { CountedJoints w.now skip p.at places.new counts.new result }
{
    let m = load_points(w, skip, points);
    update(
        &points[..m],
        p,
        reference_of(w),
        corners,
        places,
        line,
        counts,
    )
}

// The same in arrays of its own.
pub fn count_joints(
    w: &[u64],
    skip: usize,
    p: Point,
    places: &mut [u16],
    counts: &mut [u64],
) -> Updated
    requires { (archive_rows w.now 0 ≡ 0) × (skip ≤ word w.now 0) × (512 ≤ length places.old) × (512 ≤ length counts.old) × Small p.at }
    ensures { CountedJoints w.now skip p.at places.new counts.new result }
{
    let mut points = [[0u32, 0, 0]; 512];
    let mut corners = [[0u32, 0, 0]; 512];
    let mut line = [0u64; 512];
    count_joints_in(
        w,
        skip,
        p,
        &mut points,
        &mut corners,
        places,
        &mut line,
        counts,
    )
}
