// The verdict on a card: its lines judged in turn, without counting and without words to load them into.
ghost use Rattle.std.specs.Prelude.{◌≡◌, false, ◌≤◌, length, drop, unwrap_or, Some};
ghost use Rattle.refusals.specs.Table.{outcome};
ghost use Rattle.text.specs.Lines.{numbers_of};
ghost use Rattle.words.specs.Places.{as_shape};
ghost use Rattle.calls.specs.Calls.{empty};
ghost use Rattle.card.specs.Card.{lines, due};
ghost use Rattle.card.specs.Verdict.{answer_of, judge_further, judge};
ghost use Rattle.card.specs.Further.{number_due, taken, further_rows};
ghost use Rattle.card.specs.Outcomes.{loaded_of, at_line};

use crate::CardError;
use crate::lines::read_line;
use insertion::start_row;
use refusals::Refusal;
use text::Line;
use words::{Row, Shape, coordinates_allowed, mark, number_allowed};

// What a line came to, in its card.
pub fn at_line(done: Result<(), Refusal>, line: u64) -> Result<(), CardError>
    ensures { result ≡ at_line done line }
{
    done.map_err(|refusal| CardError { refusal, line })
}

// The trial number on a further line.
fn number_at(card: &[u8], line: usize) -> Option<u64>
    ensures { unwrap_or result 0 ≡ number_due (due card.now line) }
{
    let l = read_line(card, line)??;
    Some(l.first)
}

// Whether one of the first `count` further lines has the number, which is no 0: a line that is not of the form has none.
fn search(card: &[u8], count: usize, number: u64) -> bool
    requires { (count ≤ length card.now) × (1 ≤ number) }
    ensures { result ≡ taken card.now count number }
{
    for i in (0..count).rev() {
        if number_at(card, i + 2) == Some(number) {
            return true;
        }
    }
    false
}

// The same, where `met` says whether the number's bit was set by one of them: only then are they read for it.
fn held(card: &[u8], count: usize, number: u64, met: bool) -> bool
    requires { (count ≤ length card.now) × (1 ≤ number) × (met ≡ false → taken card.now count number ≡ false) }
    ensures { result ≡ taken card.now count number }
{
    if !met {
        return false;
    }
    search(card, count, number)
}

// A further line of the form, behind `count` others: rows 5 to 8.
fn further_row(card: &[u8], capacity: u64, count: usize, l: Line, met: bool) -> Result<(), Refusal>
    requires { (count ≤ length card.now) × (met ≡ false → taken card.now count l.first ≡ false) }
    ensures { outcome result ≡ further_rows capacity count (taken card.now count l.first) (numbers_of (Some l)) }
{
    let row = Row {
        number: l.first,
        x: l.second,
        y: l.third,
        z: l.fourth,
        kept: 0,
    };
    if !number_allowed(l.first) {
        return Err(Refusal::BadNumber);
    }
    if !coordinates_allowed(row) {
        return Err(Refusal::BadCoordinate);
    }
    let known = held(card, count, l.first, met);
    if known {
        return Err(Refusal::NumberHeld);
    }
    if count as u64 == capacity {
        return Err(Refusal::Full);
    }
    Ok(())
}

// The further lines. The table has the numbers of those passed.
fn judge_further(card: &[u8], s: Shape) -> Result<u64, CardError>
    ensures { loaded_of result ≡ answer_of (judge_further (empty (as_shape s)) (lines (drop 33 card.now))) }
{
    let mut table = [0u64; 1024];
    // Counted by hand: a line is judged by how many stand before it, and their number is the answer; a Reader's line is 2 or 3 more.
    let mut count: usize = 0;
    while let Some(l) = read_line(card, count + 2) {
        let line = count as u64 + 2;
        let l = l.ok_or(CardError {
            refusal: Refusal::CardForm,
            line,
        })?;
        let met = mark(&mut table, l.first);
        at_line(further_row(card, s.capacity, count, l, met), line)?;
        count += 1;
    }
    Ok(count as u64)
}

// Judges the card for a slice of `room` words: the count of trials, or a refusal and its line.
pub fn judge(card: &[u8], room: usize) -> Result<u64, CardError>
    ensures { loaded_of result ≡ answer_of (judge room (lines card.now)) }
{
    let malformed = CardError {
        refusal: Refusal::CardForm,
        line: 1,
    };
    let l = read_line(card, 1).flatten().ok_or(malformed)?;
    let s = Shape {
        capacity: l.first,
        rx: l.second,
        ry: l.third,
        rz: l.fourth,
    };
    at_line(start_row(s, room), 1)?;
    judge_further(card, s)
}
