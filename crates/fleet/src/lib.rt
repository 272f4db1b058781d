// Archives one behind the other in a slice: rows 1 to 3 of each, where each begins, and whether every audit says yes.
#![tactic(auto)]

ghost use Rattle.std.specs.Prelude.{◌≡◌, length};
ghost use Rattle.refusals.specs.Table.{outcome};
ghost use Rattle.calls.specs.Calls.{audited};
ghost use Rattle.fleet.specs.Fleet.{archives, fleet_rows, every};
ghost use Rattle.fleet.specs.Starts.{Starts};

use ask::audited;
use refusals::Refusal;
use words::refusal;

// Rows 1 to 3 of as many archives as `starts` has places, in turn. Where none turns one down, `starts` then tells where each archive
// begins.
pub fn check(w: &[u64], starts: &mut [usize]) -> Result<(), Refusal>
    ensures value { outcome result ≡ fleet_rows (length starts.old) w.now 0 }
    ensures starts { outcome result ≡ 0 → Starts w.now starts.new }
{
    let mut at: usize = 0;
    for start in starts.iter_mut() {
        refusal(&w[at..])?;
        *start = at;
        at = at + 8 + 5 * w[at + 1] as usize;
    }
    Ok(())
}

// Whether every audit says yes.
pub fn all_audited(w: &[u64], starts: &[usize]) -> bool
    requires { Starts w.now starts.now }
    ensures { result ≡ every audited (archives (length starts.now) w.now) }
{
    for start in starts {
        if !audited(&w[*start..]) {
            return false;
        }
    }
    true
}
