// Contributions in the words: compared with their counts, judged by row 13, and moved by counted amounts at the places of those
// that are not 0.
ghost use Rattle.std.specs.Prelude.{◌≡◌, false, not, ℕ, ◌+◌, ◌-◌, ◌*◌, ◌≤◌, ◌<◌, ltb, eqb, length, get_or};
ghost use Rattle.slices.specs.Put.{put};
ghost use Rattle.slices.specs.Amounts.{some_pair, moved, Each, Placed, amounts_at};
ghost use Rattle.words.specs.Layout.{records};
ghost use Rattle.words.specs.Places.{rows_before};
ghost use Rattle.records.specs.Columns.{column, leave_out, place_but, rekept};
ghost use Rattle.records.specs.AtPlaces.{AtEach, NonePasses, StepsBy};

// Whether a contribution of the first records differs from its count. (Every record has its count here, so there are no places.)
pub fn some_differs(w: &[u64], counts: &[u64]) -> bool
    requires { 8 + 5 * length counts.now ≤ length w.now }
    ensures { result ≡ some_pair (λ v m. not (eqb v m)) (column 4 (rows_before w.now (length counts.now))) counts.now }
{
    for (i, count) in counts.iter().enumerate() {
        if w[12 + 5 * i] != *count {
            return true;
        }
    }
    false
}

// Whether no place passes a test with its count.
fn none_passes<F: Fn(usize, u64) -> bool>(places: &[u16], counts: &[u64], test: F) -> bool
    requires many { length counts.now ≡ length places.now }
    requires asked { AtEach (F.pre test) places.now counts.now }
    ensures { NonePasses (F.post test) places.now counts.now result }
{
    for (place, count) in places.iter().zip(counts) {
        if test(*place as usize, *count) {
            return false;
        }
    }
    true
}

// Whether no contribution of n records is below its count, of the counts at these places.
pub fn enough(w: &[u64], n: usize, places: &[u16], counts: &[u64]) -> bool
    requires { (8 + 5 * n ≤ length w.now) × Placed n places.now counts.now }
    ensures { result ≡ not (some_pair (λ v m. ltb v m) (column 4 (rows_before w.now n)) (amounts_at n places.now counts.now)) }
{
    none_passes(places, counts, |p, count| w[12 + 5 * p] < count)
}

// The place among all records of the one at place p of the records but the one at `skip`.
fn place_but(skip: usize, p: usize) -> usize
    requires { p < 65536 }
    ensures { (result ≡ place_but skip p) × (result ≤ 65536) }
{
    if p < skip { p } else { p + 1 }
}

// Whether no contribution of the n records but the one at `skip` exceeds the limit with its count, of the counts at these
// places among these records. None exceeds it without.
pub fn within(w: &[u64], n: usize, skip: usize, places: &[u16], counts: &[u64], limit: u64) -> bool
    requires n_in_bounds { (8 + 5 * n ≤ length w.now) × (skip < n) × Placed (n - 1) places.now counts.now × (limit ≤ 1152921504606846976) }
    requires each { Each (column 4 (leave_out skip (rows_before w.now n))) limit × Each counts.now limit }
    ensures { result ≡ not (some_pair (λ v m. ltb limit (v + m)) (column 4 (leave_out skip (rows_before w.now n))) (amounts_at (n - 1) places.now counts.now)) }
{
    none_passes(
        places,
        counts,
        |p, count|
            requires { (p < 65536) × (12 + 5 * place_but skip p < length w.now) × (get_or w.now (12 + 5 * place_but skip p) 0 + count < 18446744073709551616) }
            ensures { result ≡ ltb limit (get_or w.entry.now (12 + 5 * place_but skip p) 0 + count) }
        { limit < w[12 + 5 * place_but(skip, p)] + count },
    )
}

// Moves the contributions of n records at these places by their counts, each by the step. (By the index: what the amounts are so
// far is said of the first k places, and a `zip` has no k.)
fn move_at<F: Fn(u64, u64) -> u64>(w: &mut [u64], n: usize, places: &[u16], counts: &[u64], step: F)
    requires n_in_bounds { (8 + 5 * n ≤ length w.old) × Placed n places.now counts.now }
    requires asked { AtEach (λ p m. F.pre step (get_or (column 4 (rows_before w.old n)) p 0) m) places.now counts.now }
    requires moves { (op : ℕ → ℕ → ℕ) × StepsBy (F.post step) op (column 4 (rows_before w.old n)) places.now counts.now }
    ensures { (op : ℕ → ℕ → ℕ) → StepsBy (F.post step) op (column 4 (rows_before w.old n)) places.now counts.now → w.new ≡ put w.old 8 (records (rekept (rows_before w.old n) (moved op (column 4 (rows_before w.old n)) (amounts_at n places.now counts.now)))) }
{
    for (k, place) in places.iter().enumerate() {
        let at = 12 + 5 * *place as usize;
        w[at] = step(w[at], counts[k]);
    }
}

// Lowers the contributions of n records at these places by their counts, none of which is too high.
pub fn lower_at(w: &mut [u64], n: usize, places: &[u16], counts: &[u64])
    requires n_in_bounds { (8 + 5 * n ≤ length w.old) × Placed n places.now counts.now }
    requires counts_value { some_pair (λ v m. ltb v m) (column 4 (rows_before w.old n)) (amounts_at n places.now counts.now) ≡ false }
    ensures { w.new ≡ put w.old 8 (records (rekept (rows_before w.old n) (moved (λ v m. v - m) (column 4 (rows_before w.old n)) (amounts_at n places.now counts.now)))) }
{
    move_at(w, n, places, counts, |v, m| v - m);
}

// Raises the contributions of n records at these places by their counts.
pub fn raise_at(w: &mut [u64], n: usize, places: &[u16], counts: &[u64])
    requires n_in_bounds { (8 + 5 * n ≤ length w.old) × Placed n places.now counts.now }
    requires each { Each (column 4 (rows_before w.old n)) 1152921504606846976 × Each counts.now 1152921504606846976 }
    ensures { w.new ≡ put w.old 8 (records (rekept (rows_before w.old n) (moved (λ v m. v + m) (column 4 (rows_before w.old n)) (amounts_at n places.now counts.now)))) }
{
    move_at(w, n, places, counts, |v, m| v + m);
}

// Raises the values at these places by their counts. (They stand side by side, so `move_at`, for one word of five, does not fit.)
pub fn raise_values(values: &mut [u64], places: &[u16], counts: &[u64])
    requires placed { Placed (length values.old) places.now counts.now }
    requires each { Each values.old 1152921504606846976 × Each counts.now 1152921504606846976 }
    ensures { values.new ≡ moved (λ v m. v + m) values.old (amounts_at (length values.old) places.now counts.now) }
{
    for (k, place) in places.iter().enumerate() {
        values[*place as usize] += counts[k];
    }
}

// The amount at a place, of those that these places and counts say.
pub fn amount_at(places: &[u16], counts: &[u64], place: usize) -> u64
    requires { length counts.now ≡ length places.now }
    ensures { (n : ℕ) → Placed n places.now counts.now → result ≡ get_or (amounts_at n places.now counts.now) place 0 }
{
    for (k, p) in places.iter().enumerate() {
        if *p as usize == place {
            return counts[k];
        }
    }
    0
}

// What an update came to: the new or removed trial's counted amount, and how many places have an amount of their own.
#[derive(Clone, Copy)]
pub struct Moved {
    pub amount: u64,
    pub places: usize,
}
