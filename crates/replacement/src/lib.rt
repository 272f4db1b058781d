// What replacing a held trial by a new point would change: what each of the two points gains over the other trials, and the
// difference. The archive is not touched.
#![tactic(auto)]

ghost use Rattle.std.specs.Prelude.{◌≡◌, ◌≤◌, ◌<◌, ℤ};
ghost use Rattle.hypervolume.specs.Sorted.{Small};
ghost use Rattle.words.specs.Archive.{point};
ghost use Rattle.words.specs.Layout.{word};
ghost use Rattle.words.specs.Format.{archive_rows};
ghost use Rattle.words.specs.Places.{as_row, row_at};
ghost use Rattle.calls.specs.Lent.{trial_of};
ghost use Rattle.calls.specs.Outcomes.{effect_answer_of};
ghost use Rattle.calls.specs.Replacement.{difference, replace_effect};
ghost use Rattle.replacement.specs.Others.{gain_but};

use ask::count_joints;
use hypervolume::Point;
use refusals::Refusal;
use words::{Row, coordinates_allowed, find, record_at, refusal};

// The difference of two counts.
fn difference(a: u64, b: u64) -> i64
    requires { (a ≤ 1152921504606846976) × (b ≤ 1152921504606846976) }
    ensures { result ≡ difference a b }
{
    a as i64 - b as i64
}

// What a point gains over the records but the one at place i.
fn gain_but(w: &[u64], i: usize, p: Point) -> u64
    requires { (archive_rows w.now 0 ≡ 0) × (i < word w.now 0) × Small p.at }
    ensures { result ≡ gain_but w.now i p.at }
{
    let mut places = [0u16; 512];
    let mut counts = [0u64; 512];
    let counted = count_joints(w, i, p, &mut places, &mut counts);
    counted.gain
}

// What a point would change in place of the one at i.
fn change_at(w: &[u64], i: usize, p: Point) -> i64
    requires { (archive_rows w.now 0 ≡ 0) × (i < word w.now 0) × Small p.at }
    ensures { result ≡ difference (gain_but w.now i p.at) (gain_but w.now i (point (row_at w.now i).trial)) }
{
    let after = gain_but(w, i, p);
    let own = record_at(w, i);
    let before = gain_but(w, i, own.point);
    difference(after, before)
}

// Rows 9 and 6.
fn replace_in(w: &[u64], number: u64, row: Row) -> Result<i64, Refusal>
    requires { archive_rows w.now 0 ≡ 0 }
    ensures { effect_answer_of result ≡ replace_effect w.now number (as_row row).trial }
{
    let i = find(w, number).ok_or(Refusal::NotHeld)?;
    if !coordinates_allowed(row) {
        return Err(Refusal::BadCoordinate);
    }
    let p = Point::new(row.x, row.y, row.z);
    Ok(change_at(w, i, p))
}

// Replace-effect (number, point): the total afterwards less the total before.
pub fn replace_effect(w: &[u64], number: u64, x: u64, y: u64, z: u64) -> Result<i64, Refusal>
    ensures { effect_answer_of result ≡ replace_effect w.now number (trial_of 0 x y z) }
{
    refusal(w)?;
    replace_in(
        w,
        number,
        Row {
            number: 0,
            x,
            y,
            z,
            kept: 0,
        },
    )
}
