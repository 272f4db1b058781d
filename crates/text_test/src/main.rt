// Reads fields and lines of the form and damaged ones, writes columns, and prints how many came out as they should.
#![tactic(auto)]

ghost use Rattle.std.specs.Prelude.{◌≤◌, length};

use testing::{at, one, print};

// How many of the fields, one behind the other, have these values, and no value behind the last.
fn fields(fields: &[u8], values: &[u64]) -> u64 {
    let mut found: u64 = 0;
    for i in 0..fields.len() / 8 {
        found = found % 1000 + one(text::field_at(fields, 8 * i) == values.get(i).copied());
    }
    found
}

fn good_fields() -> u64 {
    fields(
        b"       0       9      10 10485761000000099999999",
        &[0, 9, 10, 1048576, 10000000, 99999999],
    )
}

// No digit and a leading zero; spaces inside and behind; bytes that are no digits.
fn damaged_fields() -> u64 {
    fields(
        b"              00      070000000001234567      1      1 212      1      2       /      1:      -1      +1      1a     \t 1      1\n\x00      1",
        &[],
    )
}

// The values of the line at a byte, where there is one of the form.
fn values(card: &[u8], place: usize) -> Option<[u64; 4]> {
    let line = text::line_at(card, place)?;
    Some([line.first, line.second, line.third, line.fourth])
}

// How many of the lines at these bytes have the values due.
fn lines_so(card: &[u8], places: &[usize], due: Option<[u64; 4]>) -> u64 {
    let mut found: u64 = 0;
    for &place in places {
        found = found % 1000 + one(values(card, place) == due);
    }
    found
}

// The line twice; then each field damaged, no byte 10, and a line cut short. Damaged are also a byte too early and too
// late, behind the end, and no line.
fn lines() -> u64 {
    let card =
        b"       8       1      22     333\n       8       1      22     333\n      08       1      22     333\n       8              22     333\n       8       1     22      333\n       8       1      22     33x\n       8       1      22     333        8       1      22     333";
    let damaged = &[
        32,
        34,
        66,
        99,
        132,
        165,
        198,
        231,
        263,
        264,
        18446744073709551615,
    ];
    lines_so(card, &[0, 33], Some([8, 1, 22, 333])) % 1000
        + lines_so(card, damaged, None) % 1000
        + lines_so(b"", &[0], None) % 1000
}

// Writes the values into columns of these widths one behind the other, from byte 1 on, while there is room.
fn write(out: &mut [u8], widths: &[usize], values: &[u64]) {
    let mut from: usize = 1;
    for (t, &width) in widths.iter().enumerate() {
        if width == 0 || out.len() < width || out.len() - width < from {
            return;
        }
        text::put_number(out, from, width, at(values, t));
        from += width;
    }
}

// 1 where columns written one behind the other, with a byte free on either side, are the bytes due.
fn columns() -> u64 {
    let mut out = [b'.'; 78];
    write(
        &mut out,
        &[8, 8, 8, 8, 20, 20, 3, 1],
        &[0, 9, 10, 99999999, 0, 18446744073709551615, 12, 7],
    );
    let due = b".       0       9      1099999999                   018446744073709551615 127.";
    one(out == *due)
}

fn main(rt: HostRuntime) {
    print(&rt, "fields ", good_fields());
    print(&rt, " damaged ", damaged_fields());
    print(&rt, " lines ", lines());
    print(&rt, " columns ", columns());
    let _ = println!(rt);
}
