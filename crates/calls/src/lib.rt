// What the calls on an archive answer. What each call is stands in specs/; the code that does it is in the crates above. A call
// answers a `Result`; C, which has none, gets a struct that is made from it.
#![tactic(auto)]

ghost use Rattle.std.specs.Prelude.{◌≡◌};
ghost use Rattle.calls.specs.Outcomes.{answer_of, verdict_of, least_answer_of, grid_answer_of, effect_answer_of, number_or};

use refusals::Refusal;

// An answer of one number for C: the refusal (0 when done), and the value (0 in a refusal).
#[repr(C)]
#[derive(Clone, Copy)]
pub struct Answer {
    pub refusal: u64,
    pub value: u64,
}

impl From<Result<u64, Refusal>> for Answer {
    ghost from_gives = { λ found answer. answer ≡ answer_of found };

    fn from(found: Result<u64, Refusal>) -> Answer {
        match found {
            Ok(value) => Answer { refusal: 0, value },
            Err(refusal) => Answer {
                refusal: refusal.number(),
                value: 0,
            },
        }
    }
}

// 1 for yes.
impl From<Result<bool, Refusal>> for Answer {
    ghost from_gives = { λ found answer. answer ≡ verdict_of found };

    fn from(found: Result<bool, Refusal>) -> Answer {
        match found {
            Ok(yes) => Answer {
                refusal: 0,
                value: if yes { 1 } else { 0 },
            },
            Err(refusal) => Answer {
                refusal: refusal.number(),
                value: 0,
            },
        }
    }
}

// The least contributor: its number and its kept contribution.
#[derive(Clone, Copy)]
pub struct Least {
    pub number: u64,
    pub contribution: u64,
}

// The answer of least for C.
#[repr(C)]
#[derive(Clone, Copy)]
pub struct LeastAnswer {
    pub refusal: u64,
    pub number: u64,
    pub contribution: u64,
}

impl From<Result<Least, Refusal>> for LeastAnswer {
    ghost from_gives = { λ found answer. answer ≡ least_answer_of found };

    fn from(found: Result<Least, Refusal>) -> LeastAnswer {
        match found {
            Ok(least) => LeastAnswer {
                refusal: 0,
                number: least.number,
                contribution: least.contribution,
            },
            Err(refusal) => LeastAnswer {
                refusal: refusal.number(),
                number: 0,
                contribution: 0,
            },
        }
    }
}

// What a grid of trials came to: how many went in, and what stopped it.
#[derive(Clone, Copy)]
pub struct Filled {
    pub inserted: u64,
    pub stop: Option<Refusal>,
}

// The answer of a grid of trials for C: the refusal (0 when done), how many went in, and the refusal number that stopped it, or 0.
// Zeros in a refusal.
#[repr(C)]
#[derive(Clone, Copy)]
pub struct GridAnswer {
    pub refusal: u64,
    pub inserted: u64,
    pub stop: u64,
}

// The number of the refusal, if there is one, or 0.
fn number_or(stop: Option<Refusal>) -> u64
    ensures { result ≡ number_or stop }
{
    match stop {
        None => 0,
        Some(refusal) => refusal.number(),
    }
}

impl From<Result<Filled, Refusal>> for GridAnswer {
    ghost from_gives = { λ found answer. answer ≡ grid_answer_of found };

    fn from(found: Result<Filled, Refusal>) -> GridAnswer {
        match found {
            Ok(filled) => GridAnswer {
                refusal: 0,
                inserted: filled.inserted,
                stop: number_or(filled.stop),
            },
            Err(refusal) => GridAnswer {
                refusal: refusal.number(),
                inserted: 0,
                stop: 0,
            },
        }
    }
}

// The answer for C of what a replacement would change: the refusal (0 when done), and the difference (0 in a refusal).
#[repr(C)]
#[derive(Clone, Copy)]
pub struct Change {
    pub refusal: u64,
    pub difference: i64,
}

impl From<Result<i64, Refusal>> for Change {
    ghost from_gives = { λ found change. change ≡ effect_answer_of found };

    fn from(found: Result<i64, Refusal>) -> Change {
        match found {
            Ok(difference) => Change {
                refusal: 0,
                difference,
            },
            Err(refusal) => Change {
                refusal: refusal.number(),
                difference: 0,
            },
        }
    }
}
