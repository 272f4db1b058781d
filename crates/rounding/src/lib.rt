// Division rounded to the nearest: a part in millionths of a whole.
#![tactic(auto)]

ghost use Rattle.std.specs.Prelude.{◌≡◌, ◌*◌, ◌≤◌, ◌<◌};
ghost use Rattle.rounding.specs.Nearest.{nearest, rounded};

// The quotient of a division by whole, or the number behind it, as the rest says: the nearest, at a tie the even one.
fn rounded(quotient: u64, rest: u64, whole: u64) -> u64
    requires { (quotient ≤ 1000000) × (rest < whole) × (whole ≤ 1152921504606846976) }
    ensures { result ≡ rounded quotient rest whole }
{
    if 2 * rest < whole {
        return quotient;
    }
    if whole < 2 * rest {
        return quotient + 1;
    }
    if quotient % 2 == 0 {
        return quotient;
    }
    quotient + 1
}

// total × 1,000,000 ÷ whole, rounded to the nearest and at a tie to the even number. The product need not fit a word,
// so the quotient is made digit by digit; the rest behind the last one tells how to round.
pub fn millionths(total: u64, whole: u64) -> u64
    requires { (1 ≤ whole) × (total ≤ whole) × (whole ≤ 1152921504606846976) }
    ensures { result ≡ nearest (total * 1000000) whole }
{
    let mut quotient = total / whole;
    let mut rest = total % whole;
    for _ in 0..6usize {
        quotient = quotient * 10 + rest * 10 / whole;
        rest = rest * 10 % whole;
    }
    rounded(quotient, rest, whole)
}
