// Remove: rows 9 and 13, then the record struck out, every other contribution moved by the counted amount, and the front
// counted anew.
ghost use Rattle.std.specs.Prelude.{◌≡◌, ◌++◌, ◌≤◌, ◌<◌, length};
ghost use Rattle.slices.specs.Choices.{pick};
ghost use Rattle.refusals.specs.Table.{outcome};
ghost use Rattle.words.specs.Layout.{word, layout, read, behind};
ghost use Rattle.words.specs.Format.{guard, archive_rows};
ghost use Rattle.calls.specs.Calls.{remove_overruns, removed};
ghost use Rattle.calls.specs.Lent.{remove};
ghost use Rattle.records.specs.Fronts.{unfronted};
ghost use Rattle.removal.specs.Removing.{number_at, RemoveJudged, RemoveReady};

use ask::count_joints;
use records::{Moved, raise_at, renew, strike, within};
use refusals::Refusal;
use words::{box_of, find, record_at, reference_of, refusal};

// The loss of the trial at place k, and its joint counts with the others, said by the places of those that need not be 0; or row
// 13, where the total or a contribution, moved by these, does not stay from 0 to the box.
fn raised(w: &[u64], k: usize, places: &mut [u16], counts: &mut [u64]) -> Result<Moved, Refusal>
    requires { (archive_rows w.now 0 ≡ 0) × (k < word w.now 0) × (512 ≤ length places.old) × (512 ≤ length counts.old) }
    ensures { RemoveJudged w.now k places.new counts.new result }
{
    let n = w[0] as usize;
    let counted = count_joints(w, k, record_at(w, k).point, places, counts);
    let m = counted.moved;
    if w[5] < counted.gain {
        return Err(Refusal::Miscount);
    }
    if !within(w, n, k, &places[..m], &counts[..m], box_of(reference_of(w))) {
        return Err(Refusal::Miscount);
    }
    Ok(Moved {
        amount: counted.gain,
        places: m,
    })
}

// Strikes out the record at place k, raises the others' contributions at these places, and writes the header, with no front
// yet.
fn store(w: &mut [u64], k: usize, loss: u64, places: &[u16], counts: &[u64])
    requires { RemoveReady w.old k loss places.now counts.now }
    ensures { w.new ≡ layout (unfronted (removed (read w.old) (number_at w.old k))) ++ behind w.old }
{
    let n = w[0] as usize;
    let m = n - 1;
    let total = w[5] - loss;
    strike(w, n, k);
    raise_at(w, m, places, counts);
    w[0] = m as u64;
    w[5] = total;
    w[6] = 0;
}

// Row 13, or the removal of the record at place k.
fn take_out(w: &mut [u64], k: usize) -> Result<(), Refusal>
    requires { (archive_rows w.old 0 ≡ 0) × (k < word w.old 0) }
    ensures answer { outcome result ≡ guard (remove_overruns (read w.old) (number_at w.old k)) 13 0 }
    ensures words { w.new ≡ pick (remove_overruns (read w.old) (number_at w.old k)) w.old (layout (removed (read w.old) (number_at w.old k)) ++ behind w.old) }
{
    let mut places = [0u16; 512];
    let mut counts = [0u64; 512];
    let moved = raised(w, k, &mut places, &mut counts)?;
    let m = moved.places;
    store(w, k, moved.amount, &places[..m], &counts[..m]);
    renew(w);
    Ok(())
}

// Remove (number).
pub fn remove(w: &mut [u64], number: u64) -> Result<(), Refusal>
    ensures { (outcome result ≡ (remove w.old number).refusal) × (w.new ≡ (remove w.old number).words) }
{
    refusal(w)?;
    let Some(k) = find(w, number) else {
        return Err(Refusal::NotHeld);
    };
    take_out(w, k)
}
