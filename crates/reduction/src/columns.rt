// The columns of an archive, numbers, points and contributions: the least contributor found in them, the gap of a record that
// leaves closed, and the records written from them.
ghost use Rattle.std.specs.Prelude.{◌≡◌, List, ◌+◌, ◌-◌, ◌*◌, ◌≤◌, ◌<◌, length, take};
ghost use Rattle.slices.specs.Put.{put};
ghost use Rattle.words.specs.Archive.{Row};
ghost use Rattle.words.specs.Layout.{records};
ghost use Rattle.reduction.specs.Columns.{closed, LeastAt, RowsInColumns};

use hypervolume::point_at;
use records::{goes_first, put_record};
use words::Record;

// The place of the least contributor by a tie rule. Most records contribute more than the least so far, and are passed by one
// test. (As a `for` it is not unrolled, and a reduction of a set with many ties takes a fifth longer.)
fn least_in(numbers: &[u64], kept: &[u64], rule: u64) -> usize
    requires { (length kept.now ≡ length numbers.now) × (0 < length numbers.now) }
    ensures { (result < length numbers.now) × LeastAt rule numbers.now kept.now result }
{
    let mut place = 0;
    let mut number = numbers[0];
    let mut least = kept[0];
    let mut i = 1;
    while i < numbers.len() {
        let next = kept[i];
        if least < next {
            i += 1;
        } else if goes_first(rule, numbers[i], next, number, least) {
            place = i;
            number = numbers[i];
            least = next;
            i += 1;
        } else {
            i += 1;
        }
    }
    place
}

// The same. The rule is settled here, outside the loop: each of the two is compiled for its own.
pub fn least(numbers: &[u64], kept: &[u64], rule: u64) -> usize
    requires { (length kept.now ≡ length numbers.now) × (0 < length numbers.now) }
    ensures { (result < length numbers.now) × LeastAt rule numbers.now kept.now result }
{
    if rule == 0 {
        return least_in(numbers, kept, 0);
    }
    least_in(numbers, kept, rule)
}

// Closes the gap at place k among the first n of these.
pub fn close<T: Copy>(l: &mut [T], k: usize, n: usize)
    requires { (k < n) × (n ≤ length l.old) }
    ensures { take (n - 1) l.new ≡ closed k (take n l.old) }
{
    for i in k + 1..n {
        l[i - 1] = l[i];
    }
}

// Writes n records from their columns.
pub fn put_records(w: &mut [u64], n: usize, numbers: &[u64], points: &[[u32; 3]], kept: &[u64])
    requires { (8 + 5 * n ≤ length w.old) × (n ≤ length numbers.now) × (n ≤ length points.now) × (n ≤ length kept.now) }
    ensures { (rows : List Row) → RowsInColumns rows n numbers.now points.now kept.now → w.new ≡ put w.old 8 (records rows) }
{
    for i in 0..n {
        let record = Record {
            number: numbers[i],
            point: point_at(points, i),
            kept: kept[i],
        };
        put_record(w, 8 + 5 * i, record);
    }
}
