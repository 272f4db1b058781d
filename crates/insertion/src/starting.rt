// Start: an empty archive in lent words.
ghost use Rattle.std.specs.Prelude.{◌≡◌};
ghost use Rattle.refusals.specs.Table.{outcome};
ghost use Rattle.words.specs.Places.{as_shape};
ghost use Rattle.calls.specs.Lent.{start, start_rows, shape_of};

use refusals::Refusal;
use slices::clear;
use words::{Shape, put_header, shape_allowed};

// Rows 4 and 1, for a slice of `room` words.
pub fn start_row(s: Shape, room: usize) -> Result<(), Refusal>
    ensures { outcome result ≡ start_rows room (as_shape s) }
{
    if !shape_allowed(s) {
        return Err(Refusal::BadStart);
    }
    if room < 8 + 5 * s.capacity as usize {
        return Err(Refusal::SliceShort);
    }
    Ok(())
}

// Start (reference, capacity): refused by row 4 or 1, or done.
pub fn start(w: &mut [u64], rx: u64, ry: u64, rz: u64, capacity: u64) -> Result<(), Refusal>
    ensures { (outcome result ≡ (start w.old (shape_of capacity rx ry rz)).refusal) × (w.new ≡ (start w.old (shape_of capacity rx ry rz)).words) }
{
    let s = Shape {
        capacity,
        rx,
        ry,
        rz,
    };
    start_row(s, w.len())?;
    clear(w, 0, 8 + 5 * capacity as usize);
    put_header(w, 0, s, 0, 0);
    Ok(())
}
