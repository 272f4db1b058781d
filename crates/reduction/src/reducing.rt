// Reduce: rows 18, 11, 12 and 13, then drops of the least contributor of each moment. One audit; the columns are loaded once,
// each drop is one update of them, the words are written once, and the front is counted once, of those that are left.
ghost use Rattle.std.specs.Prelude.{◌≡◌, ◌++◌, ◌-◌, ◌*◌, ◌≤◌, length};
ghost use Rattle.slices.specs.Put.{put};
ghost use Rattle.refusals.specs.Table.{outcome};
ghost use Rattle.words.specs.Archive.{Archive};
ghost use Rattle.words.specs.Layout.{word, layout, read, behind};
ghost use Rattle.words.specs.Format.{archive_rows};
ghost use Rattle.calls.specs.Calls.{reduce_rows, after_drops, notes};
ghost use Rattle.calls.specs.Counted.{IsCounted};
ghost use Rattle.calls.specs.Lent.{reduce, MeetsOutcome};
ghost use Rattle.calls.specs.Outcomes.{answer_of};
ghost use Rattle.reduction.specs.Columns.{InColumns, Droppable, DropReady, Storing, Stores};

use crate::columns::put_records;
use crate::dropping::drop_least;
use ask::audited;
use front::front;
use hypervolume::Point;
use records::{load, load_points, rule_allowed};
use refusals::Refusal;
use slices::clear;
use words::{reference_of, refusal};

// Rows 18 and 11 to 13.
fn reduce_rows(w: &[u64], k: u64, rule: u64, log: usize) -> Result<(), Refusal>
    requires { archive_rows w.now 0 ≡ 0 }
    ensures { outcome result ≡ reduce_rows (read w.now) k rule log }
{
    if !rule_allowed(rule) {
        return Err(Refusal::BadRule);
    }
    if w[0] < k {
        return Err(Refusal::AboveCount);
    }
    let drops = (w[0] - k) as usize;
    if log < 2 * drops {
        return Err(Refusal::LogShort);
    }
    if !audited(w) {
        return Err(Refusal::Miscount);
    }
    Ok(())
}

// So many drops by a tie rule from the first n places of the columns, noted one behind the other. Answers the new total. What
// the counting writes in is cleared once for all of them.
fn drop_all(
    numbers: &mut [u64],
    points: &mut [[u32; 3]],
    kept: &mut [u64],
    n: usize,
    total: u64,
    reference: Point,
    rule: u64,
    drops: usize,
    log: &mut [u64],
) -> u64
    requires { DropReady reference.at n total numbers.old points.old kept.old × (n ≤ 512) × (drops ≤ n) × (2 * drops ≤ length log.old) }
    ensures { (a : Archive) → InColumns a reference.at n total numbers.old points.old kept.old → Droppable a → InColumns (after_drops rule drops a) reference.at (n - drops) result numbers.new points.new kept.new × (log.new ≡ put log.old 0 (notes rule drops a)) }
{
    let mut corners = [[0u32, 0, 0]; 512];
    let mut places = [0u16; 512];
    let mut line = [0u64; 512];
    let mut counts = [0u64; 512];
    let mut left = total;
    for i in 0..drops {
        left = drop_least(
            numbers,
            points,
            kept,
            n - i,
            left,
            reference,
            rule,
            &mut corners,
            &mut places,
            &mut line,
            &mut counts,
            log,
            2 * i,
        );
    }
    left
}

// The first m records from their columns, zeros behind them up to the n of before, and the header's count, total and front.
fn store(
    w: &mut [u64],
    n: usize,
    m: usize,
    total: u64,
    front: u64,
    numbers: &[u64],
    points: &[[u32; 3]],
    kept: &[u64],
)
    requires { Storing w.old n m numbers.now points.now kept.now }
    ensures { (a : Archive) → Stores w.old a m total front numbers.now points.now kept.now → w.new ≡ layout a ++ behind w.old }
{
    put_records(w, m, numbers, points, kept);
    clear(w, 8 + 5 * m, 5 * (n - m));
    w[0] = m as u64;
    w[5] = total;
    w[6] = front;
}

// So many drops: the columns are loaded and written back once.
fn reduce_by(w: &mut [u64], rule: u64, drops: usize, log: &mut [u64])
    requires { (archive_rows w.old 0 ≡ 0) × IsCounted (read w.old) × (drops ≤ word w.old 0) × (2 * drops ≤ length log.old) }
    ensures { (w.new ≡ layout (after_drops rule drops (read w.old)) ++ behind w.old) × (log.new ≡ put log.old 0 (notes rule drops (read w.old))) }
{
    let n = w[0] as usize;
    let total = w[5];
    let reference = reference_of(w);
    let mut numbers = [0u64; 512];
    let mut points = [[0u32, 0, 0]; 512];
    let mut kept = [0u64; 512];
    load(w, n, 0, &mut numbers);
    load_points(w, n, &mut points);
    load(w, n, 4, &mut kept);
    let left = drop_all(
        &mut numbers,
        &mut points,
        &mut kept,
        n,
        total,
        reference,
        rule,
        drops,
        log,
    );
    let m = n - drops;
    let size = front(&points[..m]);
    store(w, n, m, left, size, &numbers, &points, &kept);
}

// Reduce (k, tie rule, log). Answers the count of drops.
pub fn reduce(w: &mut [u64], k: u64, rule: u64, log: &mut [u64]) -> Result<u64, Refusal>
    ensures { MeetsOutcome (reduce w.old k rule log.old) (answer_of result) w.new log.new }
{
    refusal(w)?;
    reduce_rows(w, k, rule, log.len())?;
    let drops = w[0] - k;
    reduce_by(w, rule, drops as usize, log);
    Ok(drops)
}
