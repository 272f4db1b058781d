// Cards, their loading and checking.
#![tactic(auto)]

ghost use Rattle.std.specs.Prelude.{◌≡◌};
ghost use Rattle.card.specs.Outcomes.{loaded_of};

use refusals::Refusal;

// A card refused: by which row of the table, and at which line, from 1.
#[derive(Clone, Copy, Debug, PartialEq, Eq)]
pub struct CardError {
    pub refusal: Refusal,
    pub line: u64,
}

// What loading a card answers for C: the refusal (0 when accepted), the card line refused, and the count of trials loaded.
#[repr(C)]
#[derive(Clone, Copy)]
pub struct Loaded {
    pub refusal: u64,
    pub line: u64,
    pub count: u64,
}

impl From<Result<u64, CardError>> for Loaded {
    ghost from_gives = { λ found loaded. loaded ≡ loaded_of found };

    fn from(found: Result<u64, CardError>) -> Loaded {
        match found {
            Ok(count) => Loaded {
                refusal: 0,
                line: 0,
                count,
            },
            Err(error) => Loaded {
                refusal: error.refusal.number(),
                line: error.line,
                count: 0,
            },
        }
    }
}

mod lines;
mod loading;
mod verdict;

pub use lines::{Reader, read_line};
pub use loading::{check, load, long_enough, packed, read_card};
