// A fourth score: total and contributions of points on four axes, with the rows that turn the call down.
#![tactic(auto)]

ghost use Rattle.std.specs.Prelude.{◌≡◌, ◌∷◌, []};
ghost use Rattle.refusals.specs.Table.{outcome};
ghost use Rattle.words.specs.Format.{within, each};
ghost use Rattle.four.specs.Count4.{count4_rows, count4, counted4};

use hypervolume::Point;
use refusals::Refusal;
use words::each_within;

// Row 6. It ends at the first number that is too large: of many numbers, a refusal need not read on.
fn coordinates_allowed(coords: &[u64]) -> bool
    ensures { result ≡ each (within 0 32768) coords.now }
{
    for n in coords {
        if 32768 < *n {
            return false;
        }
    }
    true
}

// Rows 4, 17, 20, 6 and 16, in this order.
fn refusal(reference: &[u64], coords: &[u64], room: usize) -> Result<(), Refusal>
    ensures { outcome result ≡ count4_rows reference.now coords.now room }
{
    if !each_within(1, 32768, reference) {
        return Err(Refusal::BadStart);
    }
    if coords.len() % 4 != 0 {
        return Err(Refusal::BadLength);
    }
    if 512 < coords.len() / 4 {
        return Err(Refusal::TooManyPoints);
    }
    if !coordinates_allowed(coords) {
        return Err(Refusal::BadCoordinate);
    }
    if room < coords.len() / 4 + 1 {
        return Err(Refusal::OutputShort);
    }
    Ok(())
}

// Count4 (reference, coordinates, output).
pub fn count4(
    rx: u64,
    ry: u64,
    rz: u64,
    rw: u64,
    coords: &[u64],
    out: &mut [u64],
) -> Result<(), Refusal>
    ensures { (outcome result ≡ count4 (rx ∷ ry ∷ rz ∷ rw ∷ []) coords.now out.old) × (out.new ≡ counted4 (rx ∷ ry ∷ rz ∷ rw ∷ []) coords.now out.old) }
{
    refusal(&[rx, ry, rz, rw], coords, out.len())?;
    sweep4::count(coords, Point::new(rx, ry, rz), rw as u32, out);
    Ok(())
}
