// Fields, lines and columns of decimal numbers in bytes: what a card is read by, and a report written by.
#![tactic(auto)]

ghost use Rattle.std.specs.Prelude.{◌≡◌, ◌+◌, ◌%◌, ◌≤◌, eqb, length};
ghost use Rattle.std.proofs.Math.Seq.{slice};
ghost use Rattle.slices.specs.Choices.{pick};
ghost use Rattle.slices.specs.Put.{put};
ghost use Rattle.text.specs.Fields.{space, digit, decimal, number, field_from, value_of, Part};
ghost use Rattle.text.specs.Lines.{line_from, numbers_of};
ghost use Rattle.text.specs.Justified.{justified, ColumnRoom};

// The values of a line's four fields, in their order.
#[derive(Clone, Copy)]
pub struct Line {
    pub first: u64,
    pub second: u64,
    pub third: u64,
    pub fourth: u64,
}

// The value of the digits from `at` up to `end`.
fn decimal(s: &[u8], at: usize, end: usize) -> Option<u64>
    requires { Part s.now at end }
    ensures { value_of result ≡ decimal 0 (slice at end s.now) }
{
    let mut v: u64 = 0;
    for i in at..end {
        let b = s[i];
        if !b.is_ascii_digit() {
            return None;
        }
        v = v * 10 + u64::from(b - b'0');
    }
    Some(v)
}

// The value of the number from `at` up to `end`.
fn number(s: &[u8], at: usize, end: usize) -> Option<u64>
    requires { Part s.now at end }
    ensures { value_of result ≡ number (slice at end s.now) }
{
    if at + 1 == end {
        return decimal(s, at, end);
    }
    if s[at] == b'0' {
        return None;
    }
    decimal(s, at, end)
}

// The value of the field of eight bytes that starts at byte `at`; none where it is not of the form.
pub fn field_at(s: &[u8], at: usize) -> Option<u64>
    requires { at + 8 ≤ length s.now }
    ensures { value_of result ≡ field_from at s.now }
{
    let end = at + 8;
    for i in at..end {
        if s[i] != b' ' {
            return number(s, i, end);
        }
    }
    None
}

// The line that starts at byte `at`; none where it is not of the form, as a rest of fewer than 33 bytes is not.
pub fn line_at(s: &[u8], at: usize) -> Option<Line>
    ensures { numbers_of result ≡ line_from at s.now }
{
    if s.len() < 33 {
        return None;
    }
    if s.len() - 33 < at {
        return None;
    }
    if s[at + 32] != b'\n' {
        return None;
    }
    Some(Line {
        first: field_at(s, at)?,
        second: field_at(s, at + 8)?,
        third: field_at(s, at + 16)?,
        fourth: field_at(s, at + 24)?,
    })
}

// The byte of the last digit.
fn last_digit(n: u64) -> u8
    ensures { result ≡ digit (n % 10) }
{
    b'0' + (n % 10) as u8
}

// The byte in front of others: a digit of what is left of the number, or a space where nothing is.
fn digit_or_space(rest: u64) -> u8
    ensures { result ≡ pick (eqb rest 0) space (digit (rest % 10)) }
{
    if rest == 0 { b' ' } else { last_digit(rest) }
}

// Writes n right-justified behind spaces into the `width` bytes from `at` on, and no other byte.
pub fn put_number(out: &mut [u8], at: usize, width: usize, n: u64)
    requires { ColumnRoom out.old at width }
    ensures { out.new ≡ put out.old at (justified width n) }
{
    let mut rest = n / 10;
    out[at + (width - 1)] = last_digit(n);
    for left in (0..width - 1).rev() {
        out[at + left] = digit_or_space(rest);
        rest /= 10;
    }
}
