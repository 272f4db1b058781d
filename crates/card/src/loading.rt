// Loading a card: it is judged first, so that a refused card leaves the lent slice as it was.
ghost use Rattle.std.specs.Prelude.{◌≡◌, ◌≤◌, length, IfErr};
ghost use Rattle.refusals.specs.Table.{outcome};
ghost use Rattle.text.specs.Lines.{numbers_of};
ghost use Rattle.words.specs.Format.{archive_rows};
ghost use Rattle.ask.specs.RecordCounts.{Room};
ghost use Rattle.card.specs.Card.{first_line, lines, load, ReadInto};
ghost use Rattle.card.specs.Check.{packed, check};
ghost use Rattle.card.specs.Verdict.{answer_of, judge};
ghost use Rattle.card.specs.Reading.{EntersLine};
ghost use Rattle.card.specs.Outcomes.{loaded_of};

use crate::CardError;
use crate::lines::Reader;
use crate::verdict::{at_line, judge};
use insertion::{enter, start};
use records::renew;
use refusals::Refusal;
use text::Line;
use words::Row;

// Line 1: the start of the archive. Refused by row 15, 4 or 1.
fn first_line(w: &mut [u64], l: Option<Line>) -> Result<(), Refusal>
    ensures { (outcome result ≡ (first_line w.old (numbers_of l)).refusal) × (w.new ≡ (first_line w.old (numbers_of l)).words) }
{
    let l = l.ok_or(Refusal::CardForm)?;
    start(w, l.second, l.third, l.fourth, l.first)
}

// A further line: its trial entered, with the front as it was. Refused by row 15, or 5 to 8. The slices lent to count in are five,
// since insertion::enter takes them so.
fn further_line(
    w: &mut [u64],
    l: Option<Line>,
    points: &mut [[u32; 3]],
    corners: &mut [[u32; 3]],
    places: &mut [u16],
    column: &mut [u64],
    counts: &mut [u64],
) -> Result<(), Refusal>
    requires { (archive_rows w.old 0 ≡ 0) × Room points.old corners.old places.old column.old counts.old }
    ensures { EntersLine w.old (numbers_of l) (outcome result) w.new }
{
    let l = l.ok_or(Refusal::CardForm)?;
    let row = Row {
        number: l.first,
        x: l.second,
        y: l.third,
        z: l.fourth,
        kept: 0,
    };
    enter(w, row, points, corners, places, column, counts)
}

// Loads the card into these words, line by line, and stops at the first line refused. The front is counted behind the last. Answers
// the count of trials.
pub fn read_card(w: &mut [u64], card: &[u8]) -> Result<u64, CardError>
    ensures { ReadInto (load w.old card.now) (loaded_of result) w.new }
{
    let mut reader = Reader::new(card, 1);
    let first = reader.next().ok_or(CardError {
        refusal: Refusal::CardForm,
        line: 1,
    })?;
    at_line(first_line(w, first), 1)?;
    let mut points = [[0u32, 0, 0]; 512];
    let mut corners = [[0u32, 0, 0]; 512];
    let mut places = [0u16; 512];
    let mut column = [0u64; 512];
    let mut counts = [0u64; 512];
    while let Some(l) = reader.next() {
        let entered = further_line(
            w,
            l,
            &mut points,
            &mut corners,
            &mut places,
            &mut column,
            &mut counts,
        );
        at_line(entered, (reader.line - 1) as u64)?;
    }
    renew(w);
    Ok((reader.line - 2) as u64)
}

// Words that are enough for every capacity.
pub fn long_enough() -> [u64; 2568]
    ensures { 2568 ≡ length result }
{
    [0; 2568]
}

// Loads the card: the count of trials, or a refusal and its line. Words of the lent slice are written only once the
// whole card is accepted.
pub fn load(w: &mut [u64], card: &[u8]) -> Result<u64, CardError>
    ensures { (loaded_of result ≡ (load w.old card.now).answer) × (w.new ≡ (load w.old card.now).words) }
{
    judge(card, w.len())?;
    read_card(w, card)
}

// Checks the card: the count of trials, or a refusal and its line, which is one of the first 514.
#[tactic(auto, unfolding(crate::specs::Check::packed), using(crate::proofs::loading::Judged::checked, crate::proofs::loading::Judged::line_few))]
pub fn check(card: &[u8]) -> Result<u64, CardError>
    ensures answer { packed (loaded_of result) ≡ check card.now }
    ensures count { loaded_of result ≡ answer_of (judge 2568 (lines card.now)) }
    ensures line { IfErr result (λ error. error.line ≤ 514) }
{
    judge(card, 2568)
}

// The check's answer as one number: 0 where the card is accepted, else the refusal × 65,536 + the card line.
pub fn packed(checked: Result<u64, CardError>) -> u64
    requires { IfErr checked (λ error. error.line ≤ 514) }
    ensures { result ≡ packed (loaded_of checked) }
{
    match checked {
        Ok(_) => 0,
        Err(error) => error.refusal.number() * 65536 + error.line,
    }
}
