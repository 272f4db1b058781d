// Loaded from the words: one field of consecutive records, and their points.
ghost use Rattle.std.specs.Prelude.{◌≡◌, ◌+◌, ◌*◌, ◌≤◌, ◌<◌, length, drop};
ghost use Rattle.slices.specs.Put.{put};
ghost use Rattle.words.specs.Layout.{word, records};
ghost use Rattle.words.specs.Format.{archive_rows};
ghost use Rattle.words.specs.Places.{rows_before};
ghost use Rattle.records.specs.Columns.{fifths, column, leave_out, rekept};
ghost use Rattle.records.specs.Loaded.{PointsGathered, PointsLoaded};

use hypervolume::put_point;
use words::record_at;

// A field of each of the n records.
pub fn load(w: &[u64], n: usize, field: usize, to: &mut [u64])
    requires { (8 + 5 * n ≤ length w.now) × (field < 5) × (n ≤ length to.old) }
    ensures { to.new ≡ put to.old 0 (column field (rows_before w.now n)) }
{
    for i in 0..n {
        to[i] = w[8 + field + 5 * i];
    }
}

// Copies the points of n records, from place `first` on, to `at` and behind it.
fn gather_points(w: &[u64], first: usize, n: usize, to: &mut [[u32; 3]], at: usize)
    requires { (archive_rows w.now 0 ≡ 0) × (first + n ≤ word w.now 0) × (at + n ≤ length to.old) }
    ensures { PointsGathered w.now first n at to.old to.new }
{
    for i in 0..n {
        let record = record_at(w, first + i);
        put_point(to, at + i, record.point);
    }
}

// The points of the records but the one at place `skip`; of all where skip is the count. Answers how many.
pub fn load_points(w: &[u64], skip: usize, to: &mut [[u32; 3]]) -> usize
    requires { (archive_rows w.now 0 ≡ 0) × (skip ≤ word w.now 0) × (512 ≤ length to.old) }
    ensures { PointsLoaded w.now skip result to.old to.new }
{
    let n = w[0] as usize;
    gather_points(w, 0, skip, to, 0);
    if skip < n {
        gather_points(w, skip + 1, n - 1 - skip, to, skip);
        return n - 1;
    }
    n
}
