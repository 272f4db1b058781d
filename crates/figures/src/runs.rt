// Runs, their archives one behind the other: kept totals, references, and the call.
ghost use Rattle.std.specs.Prelude.{◌≡◌, ◌≤◌, length, Ok};
ghost use Rattle.words.specs.Layout.{read};
ghost use Rattle.fleet.specs.Fleet.{archives, fleet_rows};
ghost use Rattle.fleet.specs.Starts.{Starts};
ghost use Rattle.figures.specs.Figures.{totals, ascending, same_reference, of_one_reference, reference_rows, figures_answer, figures};
ghost use Rattle.figures.specs.Runs.{Runs};
ghost use Rattle.figures.specs.Outcome.{figures_of};

use crate::answer::Figures;
use crate::numbers::{sort, sum};
use fleet::{all_audited, check};
use refusals::Refusal;
use rounding::millionths;
use words::{box_of, reference_of, within};

// Reads the kept totals.
fn load_totals(w: &[u64], starts: &[usize], out: &mut [u64])
    requires { Starts w.now starts.now × (length out.old ≡ length starts.now) }
    ensures { out.new ≡ totals (archives (length starts.now) w.now) }
{
    for i in 0..starts.len() {
        out[i] = w[starts[i] + 5];
    }
}

// Whether two archives have one reference.
fn same_reference(a: &[u64], b: &[u64]) -> bool
    requires { (8 ≤ length a.now) × (8 ≤ length b.now) }
    ensures { result ≡ same_reference (read a.now) (read b.now) }
{
    a[2..5] == b[2..5]
}

// Whether every reference is that of the first.
fn of_one_reference(w: &[u64], starts: &[usize]) -> bool
    requires { Starts w.now starts.now }
    ensures { result ≡ of_one_reference (archives (length starts.now) w.now) }
{
    for i in 1..starts.len() {
        if !same_reference(w, &w[starts[i]..]) {
            return false;
        }
    }
    true
}

// The figures of runs that no row turns down: from their totals, as they come and in ascending order.
fn answer_of(w: &[u64], starts: &[usize], numbers: &[u64], sorted: &[u64]) -> Figures
    requires { Runs w.now starts.now × (numbers.now ≡ totals (archives (length starts.now) w.now)) × (sorted.now ≡ ascending numbers.now) }
    ensures { figures_of (Ok result) ≡ figures_answer 0 (archives (length starts.now) w.now) }
{
    let n = starts.len();
    let least = sorted[0];
    let greatest = sorted[n - 1];
    let median = sorted[(n - 1) / 2];
    Figures {
        sum: sum(numbers),
        least,
        greatest,
        median,
        share: millionths(median, box_of(reference_of(w))),
        audits: all_audited(w, starts),
    }
}

// The same, by two slices with a word for each.
fn answer_by(w: &[u64], starts: &[usize], numbers: &mut [u64], sorted: &mut [u64]) -> Figures
    requires { Runs w.now starts.now × (length numbers.old ≡ length starts.now) × (length sorted.old ≡ length starts.now) }
    ensures { figures_of (Ok result) ≡ figures_answer 0 (archives (length starts.now) w.now) }
{
    load_totals(w, starts, numbers);
    sort(numbers, sorted);
    answer_of(w, starts, numbers, sorted)
}

// Row 23 where references differ, of archives that pass and begin at these places.
fn figures_from(w: &[u64], starts: &[usize]) -> Result<Figures, Refusal>
    requires { Starts w.now starts.now × (1 ≤ length starts.now) × (length starts.now ≤ 15) }
    ensures { figures_of result ≡ figures_answer (reference_rows (archives (length starts.now) w.now)) (archives (length starts.now) w.now) }
{
    if !of_one_reference(w, starts) {
        return Err(Refusal::BadRuns);
    }
    let n = starts.len();
    let mut numbers = [0u64; 15];
    let mut sorted = [0u64; 15];
    Ok(answer_by(w, starts, &mut numbers[..n], &mut sorted[..n]))
}

// Rows 1 to 3 of as many archives as `starts` has places, and the rows behind them.
fn figures_in(w: &[u64], starts: &mut [usize]) -> Result<Figures, Refusal>
    requires { (1 ≤ length starts.old) × (length starts.old ≤ 15) }
    ensures { figures_of result ≡ figures_answer (fleet_rows (length starts.old) w.now (reference_rows (archives (length starts.old) w.now))) (archives (length starts.old) w.now) }
{
    check(w, starts)?;
    figures_from(w, starts)
}

// Figures (number of archives).
pub fn figures(w: &[u64], number: u64) -> Result<Figures, Refusal>
    ensures { figures_of result ≡ figures w.now number }
{
    if !within(1, 15, number) {
        return Err(Refusal::BadRuns);
    }
    let mut starts = [0usize; 15];
    figures_in(w, &mut starts[..number as usize])
}
