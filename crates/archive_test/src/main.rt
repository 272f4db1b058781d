// Runs a script of calls on an archive, from standard input: the refusals at their limits, and what is just not refused.
// Prints how many of its lines came out as they should.
#![tactic(auto)]

ghost use Rattle.std.specs.Prelude.{◌≡◌, ◌≤◌, length};

use calls::Answer;
use refusals::Refusal;
use testing::{at, one};

fn reduce_into(
    w: &mut [u64],
    keep: u64,
    rule: u64,
    log: &mut [u64],
    n: usize,
) -> Result<u64, Refusal>
    requires { n ≤ length log.old }
{
    reduction::reduce(w, keep, rule, &mut log[0..n])
}

// A reduction into a log of up to 15 words, which a refusal has to leave as it was; none where it did not.
fn reduce(w: &mut [u64], row: [u64; 7]) -> Option<Result<u64, Refusal>> {
    let mut log = [7u64; 15];
    let drops = reduce_into(w, row[1], row[3], &mut log, (row[2] % 16) as usize);
    (drops.is_ok() || testing::filled(&log, 0, 7)).then_some(drops)
}

// What a line of the script calls.
#[derive(Clone, Copy)]
enum Call {
    Begin,
    Insert,
    Remove,
    Drop,
    Put,
    Least,
    Joint,
    Gain,
    Share,
    Audit,
    Word,
    // A name that no call has.
    Unknown,
}

// By the first letter of the line; none for a comment or an empty line.
fn call_of(line: &[u8]) -> Option<Call> {
    match line.first()? {
        b'#' => None,
        b'b' => Some(Call::Begin),
        b'i' => Some(Call::Insert),
        b'r' => Some(Call::Remove),
        b'd' => Some(Call::Drop),
        b'p' => Some(Call::Put),
        b'l' => Some(Call::Least),
        b'j' => Some(Call::Joint),
        b'g' => Some(Call::Gain),
        b's' => Some(Call::Share),
        b'a' => Some(Call::Audit),
        b'w' => Some(Call::Word),
        _ => Some(Call::Unknown),
    }
}

// The least contributor by a tie rule, as one number.
fn least(w: &[u64], rule: u64) -> Result<u64, Refusal> {
    let least = ask::least(w, rule)?;
    Ok(least.number % 1000000000 * 1000000000 + least.contribution % 1000000000)
}

// What the call answers, 0 where it has nothing to answer; none where it is never as it should be.
fn answer(w: &mut [u64], call: Call, row: [u64; 7]) -> Option<Result<u64, Refusal>> {
    let found = match call {
        Call::Begin => insertion::start(w, row[2], row[3], row[4], row[1]).map(|()| 0),
        Call::Insert => insertion::insert(w, row[1], row[2], row[3], row[4]).map(|()| 0),
        Call::Remove => removal::remove(w, row[1]).map(|()| 0),
        Call::Drop => return reduce(w, row),
        Call::Put => {
            testing::put(w, row[1] as usize, row[2]);
            Ok(0)
        }
        Call::Least => least(w, row[1]),
        Call::Joint => ask::joint(w, row[1], row[2]),
        Call::Gain => ask::gain(w, row[2], row[3], row[4]),
        Call::Share => ask::share(w),
        Call::Audit => ask::audit(w).map(u64::from),
        Call::Word => Ok(at(w, row[1] as usize)),
        Call::Unknown => return None,
    };
    Some(found)
}

// Whether the answer is the line's.
fn says(found: Result<u64, Refusal>, row: [u64; 7]) -> bool {
    let a = Answer::from(found);
    a.refusal == row[5] && a.value == row[6]
}

fn lend(w: &mut [u64], n: usize, call: Call, row: [u64; 7]) -> bool
    requires { n ≤ length w.old }
{
    answer(&mut w[0..n], call, row).is_some_and(|found| says(found, row))
}

// Whether the call is a question: it is lent the words to read alone, and cannot change them.
fn asks(call: Call) -> bool {
    match call {
        Call::Least | Call::Joint | Call::Gain | Call::Share | Call::Audit | Call::Word => true,
        _ => false,
    }
}

// Whether a call comes out as it should, and leaves all words as they were where it is refused.
fn holds(w: &mut [u64], call: Call, row: [u64; 7]) -> bool
    requires { length w.old ≡ 2568 }
{
    let n = (row[0] % 2569) as usize;
    if row[5] == 0 || asks(call) {
        return lend(w, n, call, row);
    }
    let mut before = [0u64; 2568];
    slices::copy(w, &mut before, 0);
    let right = lend(w, n, call, row);
    right && &*w == before.as_slice()
}

// How many lines come out as they should.
fn script(text: &[u8], w: &mut [u64]) -> u64
    requires { length w.old ≡ 2568 }
{
    let mut right: u64 = 0;
    for line in text.split(|byte| *byte == b'\n') {
        if let Some(call) = call_of(line) {
            right = right % 1000000 + one(holds(w, call, testing::numbers(line, 0)));
        }
    }
    right
}

// How many lines there are, without comments and empty ones.
fn lines(text: &[u8]) -> u64 {
    text.split(|byte| *byte == b'\n')
        .filter_map(call_of)
        .count() as u64
}

fn main(rt: HostRuntime) {
    let mut text = [0u8; 65536];
    let mut w = [7u64; 2568];
    let n = testing::read_full(&mut rt.stdin(), &mut text);
    testing::print(&rt, "archive: ", lines(&text[..n]));
    testing::print(&rt, " lines, ", script(&text[..n], &mut w));
    let _ = println!(rt; " as they should be");
}
