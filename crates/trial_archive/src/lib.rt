// The C boundary: one exported function per call, each with the contract of the call itself. What the call answers as a Result
// becomes a number or a struct here, since C takes no enum. `include/trial_archive.h` documents the functions for C.
#![tactic(auto)]

ghost use Rattle.std.specs.Prelude.{◌∷◌, [], ◌≡◌};
ghost use Rattle.axes.specs.Rearranging.{rearrange};
ghost use Rattle.calls.specs.Lent.{start, insert, remove, least, reduce, joint, gain_answer, share, audit, trial_of, shape_of, MeetsOutcome};
ghost use Rattle.calls.specs.Grid.{insert_grid};
ghost use Rattle.calls.specs.Replacement.{replace_effect};
ghost use Rattle.card.specs.Card.{load};
ghost use Rattle.card.specs.Check.{check};
ghost use Rattle.figures.specs.Figures.{figures};
ghost use Rattle.four.specs.Count4.{count4, counted4};
ghost use Rattle.reports.specs.Report.{report, reported};
ghost use Rattle.volume.specs.Volume.{volume, answer_of};
ghost use Rattle.writing.specs.Written.{write, written};

use calls::{Answer, Change, GridAnswer, LeastAnswer};
use card::Loaded;
use figures::FiguresAnswer;
use volume::{Corner, VolumeAnswer};

#[unsafe(no_mangle)]
pub extern "C" fn ta_start(words: &mut [u64], rx: u64, ry: u64, rz: u64, capacity: u64) -> u64
    ensures { (result ≡ (start words.old (shape_of capacity rx ry rz)).refusal) × (words.new ≡ (start words.old (shape_of capacity rx ry rz)).words) }
{
    refusals::number(insertion::start(words, rx, ry, rz, capacity))
}

#[unsafe(no_mangle)]
pub extern "C" fn ta_insert(words: &mut [u64], number: u64, x: u64, y: u64, z: u64) -> u64
    ensures { (result ≡ (insert words.old (trial_of number x y z)).refusal) × (words.new ≡ (insert words.old (trial_of number x y z)).words) }
{
    refusals::number(insertion::insert(words, number, x, y, z))
}

#[unsafe(no_mangle)]
pub extern "C" fn ta_insert_grid(words: &mut [u64], grid: &[u64]) -> GridAnswer
    ensures { (result ≡ (insert_grid words.old grid.now).answer) × (words.new ≡ (insert_grid words.old grid.now).words) }
{
    GridAnswer::from(grid::insert_grid(words, grid))
}

#[unsafe(no_mangle)]
pub extern "C" fn ta_remove(words: &mut [u64], number: u64) -> u64
    ensures { (result ≡ (remove words.old number).refusal) × (words.new ≡ (remove words.old number).words) }
{
    refusals::number(removal::remove(words, number))
}

#[unsafe(no_mangle)]
pub extern "C" fn ta_least(words: &[u64], rule: u64) -> LeastAnswer
    ensures { result ≡ least words.now rule }
{
    LeastAnswer::from(ask::least(words, rule))
}

#[unsafe(no_mangle)]
pub extern "C" fn ta_reduce(words: &mut [u64], k: u64, rule: u64, log: &mut [u64]) -> Answer
    ensures { MeetsOutcome (reduce words.old k rule log.old) result words.new log.new }
{
    Answer::from(reduction::reduce(words, k, rule, log))
}

#[unsafe(no_mangle)]
pub extern "C" fn ta_joint(words: &[u64], first: u64, second: u64) -> Answer
    ensures { result ≡ joint words.now first second }
{
    Answer::from(ask::joint(words, first, second))
}

#[unsafe(no_mangle)]
pub extern "C" fn ta_gain(words: &[u64], x: u64, y: u64, z: u64) -> Answer
    ensures { result ≡ gain_answer words.now (trial_of 0 x y z) }
{
    Answer::from(ask::gain(words, x, y, z))
}

#[unsafe(no_mangle)]
pub extern "C" fn ta_replace_effect(words: &[u64], number: u64, x: u64, y: u64, z: u64) -> Change
    ensures { result ≡ replace_effect words.now number (trial_of 0 x y z) }
{
    Change::from(replacement::replace_effect(words, number, x, y, z))
}

#[unsafe(no_mangle)]
pub extern "C" fn ta_share(words: &[u64]) -> Answer
    ensures { result ≡ share words.now }
{
    Answer::from(ask::share(words))
}

#[unsafe(no_mangle)]
pub extern "C" fn ta_audit(words: &[u64]) -> Answer
    ensures { result ≡ audit words.now }
{
    Answer::from(ask::audit(words))
}

#[unsafe(no_mangle)]
pub extern "C" fn ta_card_check(card: &[u8]) -> u64
    ensures { result ≡ check card.now }
{
    card::packed(card::check(card))
}

#[unsafe(no_mangle)]
pub extern "C" fn ta_card_load(words: &mut [u64], card: &[u8]) -> Loaded
    ensures { (result ≡ (load words.old card.now).answer) × (words.new ≡ (load words.old card.now).words) }
{
    Loaded::from(card::load(words, card))
}

#[unsafe(no_mangle)]
pub extern "C" fn ta_report(words: &[u64], out: &mut [u8]) -> Answer
    ensures { (result ≡ report words.now out.old) × (out.new ≡ reported words.now out.old) }
{
    Answer::from(reports::report(words, out))
}

#[unsafe(no_mangle)]
pub extern "C" fn ta_card_write(words: &[u64], out: &mut [u8]) -> Answer
    ensures { (result ≡ write words.now out.old) × (out.new ≡ written words.now out.old) }
{
    Answer::from(writing::write(words, out))
}

#[unsafe(no_mangle)]
pub extern "C" fn ta_volume(reference: Corner, points: &[f64]) -> VolumeAnswer
    ensures { result ≡ answer_of (volume reference points.now) }
{
    volume::volume_answer(reference, points)
}

#[unsafe(no_mangle)]
pub extern "C" fn ta_count4(
    rx: u64,
    ry: u64,
    rz: u64,
    rw: u64,
    coords: &[u64],
    out: &mut [u64],
) -> u64
    ensures { (result ≡ count4 (rx ∷ ry ∷ rz ∷ rw ∷ []) coords.now out.old) × (out.new ≡ counted4 (rx ∷ ry ∷ rz ∷ rw ∷ []) coords.now out.old) }
{
    refusals::number(four::count4(rx, ry, rz, rw, coords, out))
}

#[unsafe(no_mangle)]
pub extern "C" fn ta_rearrange(words: &[u64], order: u64, second: &mut [u64]) -> u64
    ensures { (result ≡ (rearrange words.now order second.old).refusal) × (words.now ≡ (rearrange words.now order second.old).words) × (second.new ≡ (rearrange words.now order second.old).log) }
{
    refusals::number(axes::rearrange(words, order, second))
}

#[unsafe(no_mangle)]
pub extern "C" fn ta_figures(words: &[u64], number: u64) -> FiguresAnswer
    ensures { result ≡ figures words.now number }
{
    FiguresAnswer::from(figures::figures(words, number))
}
