// Rearrange: rows 22, 13 and 1 behind those of the archive, and the archive rearranged, written into the second slice. Contributions,
// total and front are carried over; the one count is the audit's.
ghost use Rattle.std.specs.Prelude.{◌≡◌, ◌++◌, ◌+◌, ◌*◌, ◌≤◌, ◌<◌, length, drop};
ghost use Rattle.slices.specs.Put.{put};
ghost use Rattle.refusals.specs.Table.{outcome};
ghost use Rattle.words.specs.Layout.{word, record_words, records, extent, layout, read};
ghost use Rattle.words.specs.Format.{archive_rows};
ghost use Rattle.words.specs.Places.{as_shape, row_at};
ghost use Rattle.axes.specs.Rearranging.{rearranged_row, rearranged_shape, rearranged_archive, rearrange_rows, rearrange};
ghost use Rattle.axes.specs.Arranging.{rows_by, Named};

use crate::arranging::arrange;
use crate::orders::rearranged;
use ask::audited;
use records::put_record;
use refusals::Refusal;
use slices::clear;
use words::{Record, Shape, put_header, record_at, reference_of, refusal};

// Writes the record at a place, rearranged, as record i of the second slice.
fn put_row(w: &[u64], order: usize, place: usize, second: &mut [u64], i: usize)
    requires { (archive_rows w.now 0 ≡ 0) × (order < 6) × (place < word w.now 0) × (i < word w.now 0) × (8 + 5 * word w.now 0 ≤ length second.old) }
    ensures { second.new ≡ put second.old (8 + 5 * i) (record_words (rearranged_row order (row_at w.now place))) }
{
    let new = Record {
        number: w[8 + 5 * place],
        point: rearranged(record_at(w, place).point, order),
        kept: w[12 + 5 * place],
    };
    put_record(second, 8 + 5 * i, new);
}

// Writes the records that the keys name, rearranged, one behind the other.
fn put_records(w: &[u64], order: usize, keys: &[u32], second: &mut [u64])
    requires { (archive_rows w.now 0 ≡ 0) × (order < 6) × Named w.now keys.now × (8 + 5 * word w.now 0 ≤ length second.old) }
    ensures { second.new ≡ put second.old 8 (records (rows_by w.now order keys.now)) }
{
    for (i, key) in keys.iter().enumerate() {
        put_row(w, order, (*key % 512) as usize, second, i);
    }
}

// The shape rearranged.
fn shape_in(w: &[u64], order: usize) -> Shape
    requires { (archive_rows w.now 0 ≡ 0) × (order < 6) }
    ensures { as_shape result ≡ rearranged_shape order (read w.now).shape }
{
    let reference = rearranged(reference_of(w), order).at;
    Shape {
        capacity: w[1],
        rx: reference[0] as u64,
        ry: reference[1] as u64,
        rz: reference[2] as u64,
    }
}

// Writes the archive rearranged, by two slices with a key for each record.
fn write_by(w: &[u64], order: usize, keys: &mut [u32], out: &mut [u32], second: &mut [u64])
    requires { (archive_rows w.now 0 ≡ 0) × (order < 6) × (length keys.old ≡ word w.now 0) × (length out.old ≡ word w.now 0) × (extent (word w.now 1) ≤ length second.old) }
    ensures { second.new ≡ layout (rearranged_archive order (read w.now)) ++ drop (extent (word w.now 1)) second.old }
{
    let n = w[0] as usize;
    let capacity = w[1] as usize;
    arrange(w, order, keys, out);
    put_records(w, order, out, second);
    clear(second, 8 + 5 * n, 5 * (capacity - n));
    put_header(second, w[0], shape_in(w, order), w[5], w[6]);
}

// Writes the archive rearranged at the front of the second slice.
pub fn write(w: &[u64], order: usize, second: &mut [u64])
    requires { (archive_rows w.now 0 ≡ 0) × (order < 6) × (extent (word w.now 1) ≤ length second.old) }
    ensures { second.new ≡ layout (rearranged_archive order (read w.now)) ++ drop (extent (word w.now 1)) second.old }
{
    let n = w[0] as usize;
    let mut keys = [0u32; 512];
    let mut out = [0u32; 512];
    write_by(w, order, &mut keys[..n], &mut out[..n], second);
}

// The rows of the call.
fn rearrange_rows(w: &[u64], order: u64, room: usize) -> Result<(), Refusal>
    ensures { outcome result ≡ rearrange_rows w.now order room }
{
    refusal(w)?;
    if 5 < order {
        return Err(Refusal::BadOrder);
    }
    if !audited(w) {
        return Err(Refusal::Miscount);
    }
    if room < 8 + 5 * w[1] as usize {
        return Err(Refusal::SliceShort);
    }
    Ok(())
}

// Rearrange (order, second slice).
pub fn rearrange(w: &[u64], order: u64, second: &mut [u64]) -> Result<(), Refusal>
    ensures { (outcome result ≡ (rearrange w.now order second.old).refusal) × (w.now ≡ (rearrange w.now order second.old).words) × (second.new ≡ (rearrange w.now order second.old).log) }
{
    rearrange_rows(w, order, second.len())?;
    write(w, order as usize, second);
    Ok(())
}
