// Loads and checks cards of every kind, good and refused, and writes reports, by a script on standard input; prints how
// many of each kind came out as they should.
#![tactic(auto)]

ghost use Rattle.std.specs.Prelude.{◌≤◌, ◌<◌, length};

use calls::Answer;
use card::{CardError, Loaded};
use testing::{at, behind, first, one, part, print};

// The answer as C has it: the refusal, the line refused and the count.
fn same_answer(a: Loaded, row: [u64; 7]) -> bool {
    [a.refusal, a.line, a.count].as_slice() == &row[1..4]
}

// Whether the check says the same of the card; where few words are lent it says nothing of them.
fn same_check(text: &[u8], row: [u64; 7]) -> bool {
    let packed = card::packed(card::check(text));
    row[0] < 2568 || [packed / 65536, packed % 65536].as_slice() == &row[1..3]
}

fn load(words: &mut [u64], n: usize, text: &[u8]) -> Result<u64, CardError>
    requires { n ≤ length words.old }
{
    card::load(&mut words[0..n], text)
}

// Where the first five words of a line stand that is due: words 1 to 5, then the records.
fn place_of(line: usize) -> usize {
    if line == 0 { 1 } else { 5 * (line % 1024) + 3 }
}

// Whether the words are those of so many lines, five to a line.
fn same_words(words: &[u64], due: &[u8], lines: usize) -> bool {
    let mut from: usize = 0;
    for i in 0..lines {
        if due.len() <= from {
            return false;
        }
        if part(words, place_of(i), 5) != &testing::numbers(due, from)[0..5] {
            return false;
        }
        from = testing::next_line(due, from);
    }
    true
}

// The front that is due: the sixth number of the first line.
fn front_due(due: &[u8]) -> u64 {
    testing::numbers(due, 0)[5]
}

// Whether the words are those of an archive with this count of trials: the lines due, or the largest card.
fn holds(words: &[u64], due: &[u8], count: u64) -> bool {
    if count == 512 {
        return scattered(words);
    }
    let n = (count % 512) as usize;
    at(words, 6) == front_due(due)
        && at(words, 7) == 0
        && same_words(words, due, n + 1)
        && testing::filled(words, 5 * n + 8, 0)
}

// Whether reader and check judge the card so, only its archive is written, and an accepted card's is the one due.
fn judged(text: &[u8], due: &[u8], row: [u64; 7]) -> bool {
    let mut words = [7u64; 2568];
    let n = (row[0] % 2569) as usize;
    let a = Loaded::from(load(&mut words, n, text));
    same_answer(a, row)
        && at(&words, 0) == row[6]
        && testing::filled(&words, row[5] as usize, 7)
        && same_check(text, row)
        && (row[1] != 0 || holds(first(&words, row[5] as usize), due, row[3]))
}

fn report(words: &[u64], out: &mut [u8], n: usize) -> Answer
    requires { n ≤ length out.old }
{
    Answer::from(reports::report(words, &mut out[0..n]))
}

fn says(a: Answer, row: [u64; 7]) -> bool {
    a.refusal == row[4] && a.value == row[5]
}

// Whether the report of the card at `from`, with a word of its archive changed, comes out as it should.
fn reported(text: &[u8], from: usize, row: [u64; 7]) -> bool {
    let mut words = [7u64; 2568];
    let mut out = [b'.'; 300];
    let _ = card::load(&mut words, part(text, from, 165));
    testing::put(&mut words, row[1] as usize, row[2]);
    let a = report(
        first(&words, row[0] as usize),
        &mut out,
        (row[3] % 301) as usize,
    );
    let n = row[6] as usize;
    says(a, row) && part(&out, 0, n) == part(text, from % 65536 + 165, n)
}

// What the largest card has in its fields: capacity and reference, then trials scattered over the box.
fn value(k: u64) -> u64 {
    let n = k / 4 % 1024;
    if k == 0 {
        return 512;
    }
    if k < 4 {
        return 1048576;
    }
    match k % 4 {
        0 => n,
        1 => n * 7919 % 1048577,
        2 => n * 104729 % 1048577,
        _ => n * 1299709 % 1048577,
    }
}

// Whether the record at k is of the largest card, and the next one, if any, is above it in z.
fn scattered_at(words: &[u64], k: usize) -> bool {
    let from = k % 8192;
    let n = at(words, from) % 1024 * 4;
    part(words, from, 4) == [value(n), value(n + 1), value(n + 2), value(n + 3)].as_slice()
        && (2568 <= from + 5 || at(words, from + 3) < at(words, from + 8))
}

// Whether the records are the trials of the largest card, in their order.
fn scattered(words: &[u64]) -> bool {
    (0..512usize).all(|i| scattered_at(words, 5 * i + 8))
}

// Writes the largest card, of 512 trials, and a trial more; the bytes are line ends.
fn scatter(bytes: &mut [u8])
    requires { 16962 ≤ length bytes.old }
{
    for k in 0..2056usize {
        text::put_number(bytes, 33 * (k / 4) + 8 * (k % 4), 8, value(k as u64));
    }
}

// The kinds of line.
#[derive(Clone, Copy, PartialEq, Eq)]
enum Kind {
    Form,
    Shape,
    Trial,
    Slice,
    Report,
    Largest,
}

// By the first letter of its name; none for the lines of cards, comments and empty lines.
fn kind_of(name: u8) -> Option<Kind> {
    match name {
        b'f' => Some(Kind::Form),
        b's' => Some(Kind::Shape),
        b't' => Some(Kind::Trial),
        b'l' => Some(Kind::Slice),
        b'r' => Some(Kind::Report),
        b'b' => Some(Kind::Largest),
        _ => None,
    }
}

// Whether a line of this kind comes out as it should; what it is about begins at `from`.
fn comes_out(text: &[u8], big: &[u8], kind: Kind, row: [u64; 7], from: usize) -> bool {
    let n = row[4] as usize;
    match kind {
        Kind::Form | Kind::Shape | Kind::Trial | Kind::Slice => judged(
            part(text, from, n),
            behind(text, from % 65536 + n % 65536),
            row,
        ),
        Kind::Report => reported(text, from, row),
        Kind::Largest => judged(part(big, 0, n), b"", row),
    }
}

// How many lines of this kind come out as they should.
fn count(text: &[u8], big: &[u8], kind: Kind) -> u64 {
    let mut right: u64 = 0;
    let mut place: usize = 0;
    // No `for`: a turn steps to the next line, whose place the line is judged with.
    while place < text.len() {
        let from = testing::next_line(text, place);
        let right_here = kind_of(text[place]) == Some(kind)
            && comes_out(text, big, kind, testing::numbers(text, place), from);
        right = right % 1000 + one(right_here);
        place = from;
    }
    right
}

// How many lines of each kind come out as they should.
fn counts(rt: &impl Print, text: &[u8], big: &[u8]) {
    print(rt, "forms ", count(text, big, Kind::Form));
    print(rt, " shapes ", count(text, big, Kind::Shape));
    print(rt, " trials ", count(text, big, Kind::Trial));
    print(rt, " slices ", count(text, big, Kind::Slice));
    print(rt, " reports ", count(text, big, Kind::Report));
    print(rt, " largest ", count(text, big, Kind::Largest));
}

fn main(rt: HostRuntime) {
    let mut text = [0u8; 65536];
    let mut big = [b'\n'; 65536];
    scatter(&mut big);
    let n = testing::read_full(&mut rt.stdin(), &mut text);
    counts(&rt, &text[..n], &big);
    let _ = println!(rt);
}
