// The drop of the least contributor, on the archive's columns: it is ranked and noted, its gap is closed, and of the other
// contributions only those are written that move.
ghost use Rattle.std.specs.Prelude.{◌≡◌, ◌+◌, ◌-◌, ◌≤◌, ◌<◌, length, take};
ghost use Rattle.slices.specs.Put.{put};
ghost use Rattle.slices.specs.Amounts.{moved};
ghost use Rattle.hypervolume.specs.Counts.{gain, joints};
ghost use Rattle.corners.specs.Updating.{Scratch};
ghost use Rattle.words.specs.Archive.{Archive};
ghost use Rattle.calls.specs.Calls.{dropped, note};
ghost use Rattle.reduction.specs.Columns.{LeastNoted, GapClosed, Recounting, InColumns, Droppable, DropReady};

use crate::columns::{close, least};
use corners::update;
use hypervolume::{Point, point_at};
use records::raise_values;
use slices::copy;

// Notes number and contribution of the least contributor of the first n places, by a tie rule, at `at`. Answers its place.
fn note_least(
    numbers: &[u64],
    kept: &[u64],
    n: usize,
    rule: u64,
    log: &mut [u64],
    at: usize,
) -> usize
    requires { (0 < n) × (n ≤ length numbers.now) × (n ≤ length kept.now) × (at + 2 ≤ length log.old) }
    ensures place { result < n }
    ensures least { LeastNoted rule (take n numbers.now) (take n kept.now) result log.old at log.new }
{
    let k = least(&numbers[..n], &kept[..n], rule);
    let note = [numbers[k], kept[k]];
    copy(&note, log, at);
    k
}

// Closes the gap at place k among the first n places of the columns.
fn close_gap(numbers: &mut [u64], points: &mut [[u32; 3]], kept: &mut [u64], n: usize, k: usize)
    requires { (k < n) × (n ≤ length numbers.old) × (n ≤ length points.old) × (n ≤ length kept.old) }
    ensures { GapClosed n k numbers.old points.old kept.old numbers.new points.new kept.new }
{
    close(numbers, k, n);
    close(points, k, n);
    close(kept, k, n);
}

// Raises the contributions of the first m points by their joint counts with u, which is gone. Answers what it gained over
// them.
fn recount(
    points: &[[u32; 3]],
    kept: &mut [u64],
    m: usize,
    u: Point,
    reference: Point,
    corners: &mut [[u32; 3]],
    places: &mut [u16],
    line: &mut [u64],
    counts: &mut [u64],
) -> u64
    requires { Recounting points.now kept.old m u.at reference.at × Scratch m corners.old places.old line.old counts.old }
    ensures gained { result ≡ gain reference.at (take m points.now) u.at }
    ensures raised { take m kept.new ≡ moved (λ v s. v + s) (take m kept.old) (joints reference.at (take m points.now) u.at) }
{
    let change = update(&points[..m], u, reference, corners, places, line, counts);
    let some = change.moved;
    raise_values(&mut kept[..m], &places[..some], &counts[..some]);
    change.gain
}

// One drop from the first n places of the columns, by a tie rule, noted at `at`. Answers the new total.
// The slices to count in are no struct: `update`, for which they are lent, takes them one by one, so it would be taken apart again.
pub fn drop_least(
    numbers: &mut [u64],
    points: &mut [[u32; 3]],
    kept: &mut [u64],
    n: usize,
    total: u64,
    reference: Point,
    rule: u64,
    corners: &mut [[u32; 3]],
    places: &mut [u16],
    line: &mut [u64],
    counts: &mut [u64],
    log: &mut [u64],
    at: usize,
) -> u64
    requires { DropReady reference.at n total numbers.old points.old kept.old × (0 < n) × Scratch n corners.old places.old line.old counts.old × (at + 2 ≤ length log.old) }
    ensures { (a : Archive) → InColumns a reference.at n total numbers.old points.old kept.old → Droppable a → InColumns (dropped rule a) reference.at (n - 1) result numbers.new points.new kept.new × (log.new ≡ put log.old at (note rule a)) }
{
    let k = note_least(numbers, kept, n, rule, log, at);
    let u = point_at(points, k);
    close_gap(numbers, points, kept, n, k);
    let m = n - 1;
    let loss = recount(points, kept, m, u, reference, corners, places, line, counts);
    total - loss
}
