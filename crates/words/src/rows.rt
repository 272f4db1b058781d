// Records and the header, read from the words.
ghost use Rattle.std.specs.Prelude.{◌≡◌, true, ◌+◌, ◌*◌, ◌≤◌, ◌<◌, length, unwrap_or, IfSome};
ghost use Rattle.words.specs.Archive.{reference, key};
ghost use Rattle.words.specs.Layout.{read_shape, word};
ghost use Rattle.words.specs.Format.{shape_allowed, archive_rows};
ghost use Rattle.words.specs.Places.{as_row, as_record, as_shape, row_at, Found};

use hypervolume::Point;

// Five words as a record, before rows 2 and 3 have judged them; also a number and a point as a caller gives them.
#[derive(Clone, Copy)]
pub struct Row {
    pub number: u64,
    pub x: u64,
    pub y: u64,
    pub z: u64,
    pub kept: u64,
}

impl Row {
    // The numbers that the archive's order goes by.
    pub fn key(self) -> [u64; 4]
        ensures { result ≡ key (as_row self).trial }
    {
        [self.z, self.y, self.x, self.number]
    }
}

// A record that rows 2 and 3 have let pass.
#[derive(Clone, Copy)]
pub struct Record {
    pub number: u64,
    pub point: Point,
    pub kept: u64,
}

impl Record {
    // The numbers that the archive's order goes by.
    pub fn key(self) -> [u64; 4]
        ensures { result ≡ key (as_record self).trial }
    {
        let at = self.point.at;
        [at[2] as u64, at[1] as u64, at[0] as u64, self.number]
    }
}

// What a start fixes: the capacity and the reference point.
#[derive(Clone, Copy)]
pub struct Shape {
    pub capacity: u64,
    pub rx: u64,
    pub ry: u64,
    pub rz: u64,
}

// The five words at place i.
pub fn row_at(w: &[u64], i: usize) -> Row
    requires { 8 + 5 * (i + 1) ≤ length w.now }
    ensures { as_row result ≡ row_at w.now i }
{
    let at = 8 + 5 * i;
    Row {
        number: w[at],
        x: w[at + 1],
        y: w[at + 2],
        z: w[at + 3],
        kept: w[at + 4],
    }
}

// The record at place i, in words that rows 1 to 3 let pass.
pub fn record_at(w: &[u64], i: usize) -> Record
    requires { (archive_rows w.now 0 ≡ 0) × (i < word w.now 0) }
    ensures { as_record result ≡ row_at w.now i }
{
    let row = row_at(w, i);
    Record {
        number: row.number,
        point: Point::new(row.x, row.y, row.z),
        kept: row.kept,
    }
}

// The capacity and the reference that the header holds.
pub fn shape_of(w: &[u64]) -> Shape
    requires { 8 ≤ length w.now }
    ensures { as_shape result ≡ read_shape w.now }
{
    Shape {
        capacity: w[1],
        rx: w[2],
        ry: w[3],
        rz: w[4],
    }
}

// The reference of an allowed shape, as a point.
pub fn reference_point(s: Shape) -> Point
    requires { shape_allowed (as_shape s) ≡ true }
    ensures { result.at ≡ reference (as_shape s) }
{
    Point::new(s.rx, s.ry, s.rz)
}

// The reference of words that rows 1 to 3 let pass.
pub fn reference_of(w: &[u64]) -> Point
    requires { archive_rows w.now 0 ≡ 0 }
    ensures { result.at ≡ reference (read_shape w.now) }
{
    reference_point(shape_of(w))
}

// The place of the first of the first n records that has this number.
pub fn search(w: &[u64], n: usize, number: u64) -> Option<usize>
    requires { 8 + 5 * n ≤ length w.now }
    ensures found { Found w.now n number (unwrap_or result n) }
    ensures within { IfSome result (λ place. place < n) }
{
    for i in 0..n {
        if w[8 + 5 * i] == number {
            return Some(i);
        }
    }
    None
}

// The place of the record of this number.
pub fn find(w: &[u64], number: u64) -> Option<usize>
    requires { 8 + 5 * word w.now 0 ≤ length w.now }
    ensures found { Found w.now (word w.now 0) number (unwrap_or result (word w.now 0)) }
    ensures within { IfSome result (λ place. place < word w.now 0) }
{
    search(w, w[0] as usize, number)
}
