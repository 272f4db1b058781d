// What the test programs share: numbers that look random, a direct count of cells, words read and written safely
// anywhere, a script of calls, standard input and printing. No other crate uses it.
#![tactic(auto)]

ghost use Rattle.std.specs.Prelude.{◌≡◌, ◌≤◌, ◌<◌, length, drop};

use hypervolume::Point;
use std::io::{Print, Read};

// A number below 32,768 that looks random, the i-th of a kind for a set.
pub fn noise(set: u64, kind: u64, i: u64) -> u64
    ensures { result < 32768 }
{
    let seed = set % 65536 * 64 + kind % 4 * 16 + i % 16;
    let mixed = (seed * 1103515245 + 12345) / 1024 % 4194304;
    (mixed * 22695477 + seed) / 256 % 32768
}

// 1 for yes.
pub fn one(yes: bool) -> u64
    ensures { result ≤ 1 }
{
    u64::from(yes)
}

// The word at i; 0 behind the end.
pub fn at(w: &[u64], i: usize) -> u64 {
    w.get(i).copied().unwrap_or(0)
}

pub fn put(w: &mut [u64], i: usize, value: u64) {
    if let Some(word) = w.get_mut(i) {
        *word = value;
    }
}

// The items from `from` on. (No `skip`: it passes one item after the other.)
pub fn behind<T>(items: &[T], from: usize) -> &[T]
    ensures { result.now ≡ drop from items.now }
{
    items.get(from..).unwrap_or(&[])
}

// Whether the words from `from` on all have this value.
pub fn filled(words: &[u64], from: usize, value: u64) -> bool {
    behind(words, from).iter().all(|word| *word == value)
}

// Prints both. Where a write fails, the output is not the one that is due, and that it is compared with.
pub fn print(rt: &impl Print, name: &str, count: u64) {
    let _ = print!(rt; "{name}{count}");
}

// Reads until the bytes are full, the input ends or a read fails, and answers how many were read to their front.
pub fn read_full<R: Read>(input: &mut R, bytes: &mut [u8]) -> usize
    ensures { result ≤ length bytes.new }
{
    let mut read = 0;
    // No `for`: a turn steps by the bytes that it read.
    while read < bytes.len() {
        match input.read(&mut bytes[read..]) {
            Ok(more) if more > 0 => read += more,
            _ => return read,
        }
    }
    read
}

// The first n words, as far as there are so many.
pub fn first(words: &[u64], n: usize) -> &[u64] {
    words.get(..n).unwrap_or(words)
}

// The n items from `from` on; none where there are not so many.
pub fn part<T>(items: &[T], from: usize, n: usize) -> &[T] {
    behind(items, from).get(..n).unwrap_or(&[])
}

// A script has a line to a call: its name, then numbers, all parted by spaces.

// The first place from `from` on that is no space.
fn past_spaces(text: &[u8], from: usize) -> usize {
    (from..text.len())
        .find(|i| text[*i] != b' ')
        .unwrap_or(text.len().max(from))
}

// The first place from `from` on that is a space or ends the line.
fn past_word(text: &[u8], from: usize) -> usize {
    (from..text.len())
        .find(|i| text[*i] <= b' ')
        .unwrap_or(text.len().max(from))
}

// The number of the digits from `from` on, up to 19 of them; 0 where there is none.
fn number(text: &[u8], from: usize) -> u64 {
    let mut value: u64 = 0;
    for byte in behind(text, from) {
        if !byte.is_ascii_digit() {
            return value;
        }
        value = value % 1000000000000000000 * 10 + u64::from(*byte - b'0');
    }
    value
}

// The seven numbers of the line at `from`, 0 for those that it lacks.
pub fn numbers(text: &[u8], from: usize) -> [u64; 7]
    ensures { length result ≡ 7 }
{
    let mut row = [0u64; 7];
    let mut place = from;
    for value in &mut row {
        place = past_spaces(text, past_word(text, place));
        *value = number(text, place);
    }
    row
}

// Where the next line starts.
pub fn next_line(text: &[u8], from: usize) -> usize
    requires { from < length text.now }
    ensures { (from < result) × (result ≤ length text.now) }
{
    (from..text.len())
        .find(|i| text[*i] == b'\n')
        .map_or(text.len(), |i| i + 1)
}

// A coordinate of the points; beyond the box behind the end.
fn coordinate(points: &[u32], i: usize) -> u32 {
    points.get(i).copied().unwrap_or(8)
}

// The point of this number below 16, from 0.
pub fn point_at(points: &[u32], n: usize) -> Point {
    let from = 3 * (n % 16);
    Point {
        at: [
            coordinate(points, from),
            coordinate(points, from + 1),
            coordinate(points, from + 2),
        ],
    }
}

// Whether a point dominates a cell. The cells of a box of 8 on each axis have the numbers 64 x + 8 y + z.
fn dominates(p: Point, cell: u32) -> bool {
    let at = p.at;
    at[0] <= cell / 64 && at[1] <= cell / 8 % 8 && at[2] <= cell % 8
}

// Whether the cell lies within the reference.
fn inside(reference: Point, cell: u32) -> bool {
    let at = reference.at;
    cell / 64 < at[0] && cell / 8 % 8 < at[1] && cell % 8 < at[2]
}

// How many of the points, three coordinates each, dominate the cell. They are at most 12.
fn cover(points: &[u32], cell: u32) -> u64 {
    (0..12usize)
        .filter(|t| dominates(point_at(points, *t), cell))
        .count() as u64
}

// Whether p dominates the cell, within the reference, and from `least` to `most` of the points do.
fn counts(points: &[u32], reference: Point, p: Point, cell: u32, least: u64, most: u64) -> bool {
    if !inside(reference, cell) || !dominates(p, cell) {
        return false;
    }
    let over = cover(points, cell);
    least <= over && over <= most
}

// How many cells p dominates of which from `least` to `most` of the points do. The reference is at most 8 on each axis.
pub fn cells(points: &[u32], reference: Point, p: Point, least: u64, most: u64) -> u64 {
    (0..512u32)
        .filter(|cell| counts(points, reference, p, *cell, least, most))
        .count() as u64
}
