// What the call answers.
ghost use Rattle.std.specs.Prelude.{◌≡◌};
ghost use Rattle.figures.specs.Outcome.{figures_of};

use refusals::Refusal;

// The figures of the totals, the median's share in millionths, and whether every audit says yes.
#[derive(Clone, Copy)]
pub struct Figures {
    pub sum: u64,
    pub least: u64,
    pub greatest: u64,
    pub median: u64,
    pub share: u64,
    pub audits: bool,
}

// The answer for C: the refusal (0 when done), the figures, and 1 where every audit says yes. Zeros in a refusal.
#[repr(C)]
#[derive(Clone, Copy)]
pub struct FiguresAnswer {
    pub refusal: u64,
    pub sum: u64,
    pub least: u64,
    pub greatest: u64,
    pub median: u64,
    pub share: u64,
    pub audits: u64,
}

impl From<Result<Figures, Refusal>> for FiguresAnswer {
    ghost from_gives = { λ found answer. answer ≡ figures_of found };

    fn from(found: Result<Figures, Refusal>) -> FiguresAnswer {
        match found {
            Ok(figures) => FiguresAnswer {
                refusal: 0,
                sum: figures.sum,
                least: figures.least,
                greatest: figures.greatest,
                median: figures.median,
                share: figures.share,
                audits: if figures.audits { 1 } else { 0 },
            },
            Err(refusal) => FiguresAnswer {
                refusal: refusal.number(),
                sum: 0,
                least: 0,
                greatest: 0,
                median: 0,
                share: 0,
                audits: 0,
            },
        }
    }
}
