// Insert: rows 5 to 8 and 13, then the record in its place, every contribution moved by the counted amount, and the front
// counted anew. `enter` is what insertions one after the other share: rows 1 to 3 are judged before the first of them, and the
// front is counted after the last.
ghost use Rattle.std.specs.Prelude.{◌≡◌, ℕ};
ghost use Rattle.slices.specs.Choices.{pick};
ghost use Rattle.refusals.specs.Table.{outcome};
ghost use Rattle.hypervolume.specs.Sorted.{Small};
ghost use Rattle.words.specs.Layout.{read};
ghost use Rattle.words.specs.Format.{guard, archive_rows};
ghost use Rattle.words.specs.Places.{as_row, as_trial};
ghost use Rattle.calls.specs.Calls.{admission_rows, insert_overruns};
ghost use Rattle.calls.specs.Lent.{insert, trial_of};
ghost use Rattle.ask.specs.RecordCounts.{Room};
ghost use Rattle.insertion.specs.Inserting.{InsertJudged, InsertReady, entered, Enters};

use ask::count_joints_in;
use hypervolume::Point;
use records::{Moved, enough, enter_at, lower_at, rank, renew};
use refusals::Refusal;
use words::{
    Record, Row, box_of, coordinates_allowed, find, number_allowed, reference_of, refusal,
};

// Rows 5 to 8.
fn admission(w: &[u64], row: Row) -> Result<(), Refusal>
    requires { archive_rows w.now 0 ≡ 0 }
    ensures { outcome result ≡ admission_rows (read w.now) (as_row row).trial 0 }
{
    if !number_allowed(row.number) {
        return Err(Refusal::BadNumber);
    }
    if !coordinates_allowed(row) {
        return Err(Refusal::BadCoordinate);
    }
    if find(w, row.number).is_some() {
        return Err(Refusal::NumberHeld);
    }
    if w[0] == w[1] {
        return Err(Refusal::Full);
    }
    Ok(())
}

// The gain of the new trial, and its joint counts with the records at the places that have one; or row 13, where total or
// contributions, moved by these, do not stay from 0 to the box.
fn judge(
    w: &[u64],
    p: Point,
    points: &mut [[u32; 3]],
    corners: &mut [[u32; 3]],
    places: &mut [u16],
    line: &mut [u64],
    counts: &mut [u64],
) -> Result<Moved, Refusal>
    requires { (archive_rows w.now 0 ≡ 0) × Small p.at × Room points.old corners.old places.old line.old counts.old }
    ensures { (number : ℕ) → InsertJudged w.now (as_trial number p.at) places.new counts.new result }
{
    let n = w[0] as usize;
    let counted = count_joints_in(w, n, p, points, corners, places, line, counts);
    let m = counted.moved;
    if box_of(reference_of(w)) < w[5] + counted.gain {
        return Err(Refusal::Miscount);
    }
    if !enough(w, n, &places[..m], &counts[..m]) {
        return Err(Refusal::Miscount);
    }
    Ok(Moved {
        amount: counted.gain,
        places: m,
    })
}

// Writes the others' contributions, the new record, the count and the total. The front stays as it was.
fn store(w: &mut [u64], number: u64, p: Point, gain: u64, places: &[u16], counts: &[u64])
    requires { InsertReady w.old (as_trial number p.at) gain places.now counts.now }
    ensures { w.new ≡ entered w.old (as_trial number p.at) }
{
    let n = w[0] as usize;
    let new = Record {
        number,
        point: p,
        kept: gain,
    };
    let total = w[5] + gain;
    let k = rank(w, n, new);
    lower_at(w, n, places, counts);
    enter_at(w, n, k, new);
    w[0] = (n + 1) as u64;
    w[5] = total;
}

// Row 13, or the trial put in.
fn put_in(
    w: &mut [u64],
    number: u64,
    p: Point,
    points: &mut [[u32; 3]],
    corners: &mut [[u32; 3]],
    places: &mut [u16],
    line: &mut [u64],
    counts: &mut [u64],
) -> Result<(), Refusal>
    requires { (archive_rows w.old 0 ≡ 0) × (admission_rows (read w.old) (as_trial number p.at) 0 ≡ 0) × Room points.old corners.old places.old line.old counts.old }
    ensures answer { outcome result ≡ guard (insert_overruns (read w.old) (as_trial number p.at)) 13 0 }
    ensures words { w.new ≡ pick (insert_overruns (read w.old) (as_trial number p.at)) w.old (entered w.old (as_trial number p.at)) }
{
    let moved = judge(w, p, points, corners, places, line, counts)?;
    let m = moved.places;
    store(w, number, p, moved.amount, &places[..m], &counts[..m]);
    Ok(())
}

// Rows 5 to 8 and 13, or the trial entered, with the front as it was. What it leaves passes rows 1 to 3 again. The other
// slices are lent to count in: a row of insertions clears them once.
// They are no struct of arrays: `enter` takes slices of any length that is enough, and may ask no more of its callers.
pub fn enter(
    w: &mut [u64],
    row: Row,
    points: &mut [[u32; 3]],
    corners: &mut [[u32; 3]],
    places: &mut [u16],
    line: &mut [u64],
    counts: &mut [u64],
) -> Result<(), Refusal>
    requires { (archive_rows w.old 0 ≡ 0) × Room points.old corners.old places.old line.old counts.old }
    ensures { Enters w.old (as_row row).trial (outcome result) w.new }
{
    admission(w, row)?;
    let p = Point::new(row.x, row.y, row.z);
    put_in(w, row.number, p, points, corners, places, line, counts)
}

// The same in arrays of its own, which are gone when the front is counted.
fn enter_alone(w: &mut [u64], row: Row) -> Result<(), Refusal>
    requires { archive_rows w.old 0 ≡ 0 }
    ensures { Enters w.old (as_row row).trial (outcome result) w.new }
{
    let mut points = [[0u32, 0, 0]; 512];
    let mut corners = [[0u32, 0, 0]; 512];
    let mut places = [0u16; 512];
    let mut line = [0u64; 512];
    let mut counts = [0u64; 512];
    enter(
        w,
        row,
        &mut points,
        &mut corners,
        &mut places,
        &mut line,
        &mut counts,
    )
}

// Insert (number, point).
pub fn insert(w: &mut [u64], number: u64, x: u64, y: u64, z: u64) -> Result<(), Refusal>
    ensures { (outcome result ≡ (insert w.old (trial_of number x y z)).refusal) × (w.new ≡ (insert w.old (trial_of number x y z)).words) }
{
    refusal(w)?;
    let row = Row {
        number,
        x,
        y,
        z,
        kept: 0,
    };
    enter_alone(w, row)?;
    renew(w);
    Ok(())
}
