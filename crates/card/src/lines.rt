// The lines of a card, read in turn.
ghost use Rattle.std.specs.Prelude.{◌≡◌, ◌+◌, MatchOption};
ghost use Rattle.card.specs.Card.{due, due_of};

use text::Line;

// A reading in progress: the lent card together with the line next due, counted from 1.
#[derive(Clone, Copy)]
pub struct Reader<'a> {
    pub card: &'a [u8],
    pub line: usize,
}

// The work: the line of this number; none behind the last line. A line itself is none where it is not of the form. Bytes after the
// last line's end are a further line.
fn line_due(card: &[u8], line: usize) -> Option<Option<Line>>
    ensures { due_of result ≡ due card.now line }
{
    let i = line.checked_sub(1)?;
    if i < (card.len() + 32) / 33 {
        return Some(text::line_at(card, 33 * i));
    }
    None
}

impl<'a> Reader<'a> {
    pub fn new(card: &'a [u8], line: usize) -> Reader<'a>
        ensures { (result.card ≡ card.entry) × (result.line ≡ line) }
    {
        Reader { card, line }
    }

    // The line next due. The reading goes on to the line behind it; behind the last line it stays where it is.
    pub fn next(&mut self) -> Option<Option<Line>>
        ensures due { due_of result ≡ due self.old.card.now self.old.line }
        ensures card { self.new.card ≡ self.old.card }
        ensures line { MatchOption result (self.new.line ≡ self.old.line) (λ _. self.new.line ≡ self.old.line + 1) }
    {
        let l = line_due(self.card, self.line)?;
        self.line += 1;
        Some(l)
    }
}

// The line next due in a reading of this card, for callers that hold the card and the line apart.
pub fn read_line(card: &[u8], line: usize) -> Option<Option<Line>>
    ensures { due_of result ≡ due card.now line }
{
    Reader::new(card, line).next()
}
