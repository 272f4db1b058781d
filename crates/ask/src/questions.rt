// The calls that only read: least, joint, gain, share, audit. Behind each stands an inner function for words that
// rows 1 to 3 let pass.
ghost use Rattle.std.specs.Prelude.{◌≡◌, ◌<◌};
ghost use Rattle.words.specs.Layout.{word, read};
ghost use Rattle.words.specs.Format.{archive_rows};
ghost use Rattle.words.specs.Places.{as_row, row_at};
ghost use Rattle.calls.specs.Calls.{held_points, audited, joint_of};
ghost use Rattle.records.specs.Columns.{place_but};
ghost use Rattle.calls.specs.Lent.{least, share, joint, gain_answer, audit, trial_of};
ghost use Rattle.calls.specs.Outcomes.{answer_of, verdict_of, least_answer_of};

use crate::counts::{count_all, count_joints};
use calls::Least;
use front::front;
use hypervolume::Point;
use records::{amount_at, least_place, load_points, rule_allowed, some_differs};
use refusals::Refusal;
use rounding::millionths;
use words::{Row, box_of, coordinates_allowed, find, record_at, reference_of, refusal};

// Row 18 where the tie rule is neither of the two, row 14 where no trial is held.
fn least_in(w: &[u64], rule: u64) -> Result<Least, Refusal>
    requires { archive_rows w.now 0 ≡ 0 }
    ensures { least_answer_of result ≡ least w.now rule }
{
    if !rule_allowed(rule) {
        return Err(Refusal::BadRule);
    }
    let n = w[0] as usize;
    if n == 0 {
        return Err(Refusal::NoneHeld);
    }
    let least = record_at(w, least_place(w, n, rule));
    Ok(Least {
        number: least.number,
        contribution: least.kept,
    })
}

// Least (tie rule): number and kept contribution of the least contributor.
pub fn least(w: &[u64], rule: u64) -> Result<Least, Refusal>
    ensures { least_answer_of result ≡ least w.now rule }
{
    refusal(w)?;
    least_in(w, rule)
}

// The place of the record at k among the others of the one at i: one lower where it comes behind it.
fn place_among(i: usize, k: usize) -> usize
    requires { i ≡ k → ⊥ }
    ensures { place_but i result ≡ k }
{
    if i < k { k - 1 } else { k }
}

// The joint contribution of the trials at two places.
fn joint_at(w: &[u64], i: usize, k: usize) -> u64
    requires { (archive_rows w.now 0 ≡ 0) × (i < word w.now 0) × (k < word w.now 0) × (i ≡ k → ⊥) }
    ensures { result ≡ joint_of (read w.now) (row_at w.now i).trial.number (row_at w.now k).trial.number }
{
    let mut places = [0u16; 512];
    let mut counts = [0u64; 512];
    let counted = count_joints(w, i, record_at(w, i).point, &mut places, &mut counts);
    let m = counted.moved;
    amount_at(&places[..m], &counts[..m], place_among(i, k))
}

// Rows 9 and 10.
fn joint_in(w: &[u64], first: u64, second: u64) -> Result<u64, Refusal>
    requires { archive_rows w.now 0 ≡ 0 }
    ensures { answer_of result ≡ joint w.now first second }
{
    let i = find(w, first).ok_or(Refusal::NotHeld)?;
    let k = find(w, second).ok_or(Refusal::NotHeld)?;
    if first == second {
        return Err(Refusal::SameNumber);
    }
    Ok(joint_at(w, i, k))
}

// Joint (two numbers): cells that both trials dominate and no third does.
pub fn joint(w: &[u64], first: u64, second: u64) -> Result<u64, Refusal>
    ensures { answer_of result ≡ joint w.now first second }
{
    refusal(w)?;
    joint_in(w, first, second)
}

// Row 6 where the point is not allowed.
fn gain_in(w: &[u64], row: Row) -> Result<u64, Refusal>
    requires { archive_rows w.now 0 ≡ 0 }
    ensures { answer_of result ≡ gain_answer w.now (as_row row).trial }
{
    if !coordinates_allowed(row) {
        return Err(Refusal::BadCoordinate);
    }
    let mut places = [0u16; 512];
    let mut counts = [0u64; 512];
    let n = w[0] as usize;
    let p = Point::new(row.x, row.y, row.z);
    let counted = count_joints(w, n, p, &mut places, &mut counts);
    Ok(counted.gain)
}

// Gain (point): cells that it dominates and no trial does.
pub fn gain(w: &[u64], x: u64, y: u64, z: u64) -> Result<u64, Refusal>
    ensures { answer_of result ≡ gain_answer w.now (trial_of 0 x y z) }
{
    refusal(w)?;
    gain_in(
        w,
        Row {
            number: 0,
            x,
            y,
            z,
            kept: 0,
        },
    )
}

fn share_in(w: &[u64]) -> Result<u64, Refusal>
    requires { archive_rows w.now 0 ≡ 0 }
    ensures { answer_of result ≡ share w.now }
{
    Ok(millionths(w[5], box_of(reference_of(w))))
}

// Share: the kept total in millionths of the box, rounded to the nearest and at a tie to the even number.
pub fn share(w: &[u64]) -> Result<u64, Refusal>
    ensures { answer_of result ≡ share w.now }
{
    refusal(w)?;
    share_in(w)
}

// Whether the total, the front and all contributions equal their counts; these are the points of all records.
fn counts_agree(w: &[u64], points: &[[u32; 3]]) -> bool
    requires { (archive_rows w.now 0 ≡ 0) × (points.now ≡ held_points (read w.now)) }
    ensures { result ≡ audited (read w.now) }
{
    let mut counts = [0u64; 512];
    let total = count_all(w, points, &mut counts);
    if w[5] != total {
        return false;
    }
    if w[6] != front(points) {
        return false;
    }
    !some_differs(w, &counts[..points.len()])
}

// The audit's answer, for words that rows 1 to 3 let pass.
pub fn audited(w: &[u64]) -> bool
    requires { archive_rows w.now 0 ≡ 0 }
    ensures { result ≡ audited (read w.now) }
{
    let mut points = [[0u32, 0, 0]; 512];
    let m = load_points(w, w[0] as usize, &mut points);
    counts_agree(w, &points[..m])
}

// Audit: whether the counts agree.
pub fn audit(w: &[u64]) -> Result<bool, Refusal>
    ensures { verdict_of result ≡ audit w.now }
{
    refusal(w)?;
    Ok(audited(w))
}
