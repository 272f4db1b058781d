// A whole grid of trials in one call: each entered in turn, up to the first that is turned down. Rows 1 to 3 are judged once
// before, and the front is counted once after.
#![tactic(auto)]

ghost use Rattle.std.specs.Prelude.{◌≡◌, ◌+◌, ◌*◌, ◌≤◌, length, drop, Ok};
ghost use Rattle.words.specs.Format.{archive_rows};
ghost use Rattle.words.specs.Places.{as_row};
ghost use Rattle.calls.specs.Grid.{grid_trial, grid_trials, insert_grid};
ghost use Rattle.calls.specs.Outcomes.{grid_answer_of};
ghost use Rattle.grid.specs.Filling.{Fills};

use calls::Filled;
use insertion::enter;
use records::renew;
use refusals::Refusal;
use words::{Row, refusal};

// The trial at place i of the grid.
fn trial_at(grid: &[u64], i: usize) -> Row
    requires { 4 * i + 4 ≤ length grid.now }
    ensures { (as_row result).trial ≡ grid_trial (drop (4 * i) grid.now) }
{
    let at = 4 * i;
    let number = grid[at];
    let x = grid[at + 1];
    let y = grid[at + 2];
    let z = grid[at + 3];
    Row {
        number,
        x,
        y,
        z,
        kept: 0,
    }
}

// Enters the trials in turn, up to the first that rows 5 to 8 or 13 turn down. The front stays as it was.
fn fill(w: &mut [u64], grid: &[u64]) -> Filled
    requires { archive_rows w.old 0 ≡ 0 }
    ensures { Fills w.old (grid_trials grid.now) (grid_answer_of (Ok result)) w.new }
{
    let mut points = [[0u32, 0, 0]; 512];
    let mut corners = [[0u32, 0, 0]; 512];
    let mut places = [0u16; 512];
    let mut line = [0u64; 512];
    let mut counts = [0u64; 512];
    let n = grid.len() / 4;
    for i in 0..n {
        let entered = enter(
            w,
            trial_at(grid, i),
            &mut points,
            &mut corners,
            &mut places,
            &mut line,
            &mut counts,
        );
        if let Err(stop) = entered {
            return Filled {
                inserted: i as u64,
                stop: Some(stop),
            };
        }
    }
    Filled {
        inserted: n as u64,
        stop: None,
    }
}

// Insert-grid (grid): how many went in, and the refusal that stopped it.
pub fn insert_grid(w: &mut [u64], grid: &[u64]) -> Result<Filled, Refusal>
    ensures { (grid_answer_of result ≡ (insert_grid w.old grid.now).answer) × (w.new ≡ (insert_grid w.old grid.now).words) }
{
    if grid.len() % 4 != 0 {
        return Err(Refusal::BadLength);
    }
    refusal(w)?;
    let filled = fill(w, grid);
    if filled.inserted == 0 {
        return Ok(filled);
    }
    renew(w);
    Ok(filled)
}
