// Volume in doubles: the figure that published codes compute, of a reference corner and points that are given as doubles. The
// points are taken in ascending z; the area that they cover, seen along z, grows by what each of them gains, and each layer's
// area times its height is added up in double precision.
#![tactic(auto)]

ghost use Rattle.std.specs.Prelude.{◌≡◌, true, false, map, [], ◌+◌, ◌*◌, ◌≤◌, ◌<◌, ◌^◌, length, get_or, MatchOption, MatchResult};
ghost use Rattle.slices.specs.Choices.{pick};
ghost use Rattle.hypervolume.specs.Sorted.{Small};
ghost use Rattle.words.specs.Format.{within, each};
ghost use Rattle.order.specs.Keys.{Keyed, Few, Taken};
ghost use Rattle.doubles.specs.Doubles.{number_of};
ghost use Rattle.refusals.specs.declared.Refusal.TheVariants.{BadDouble};
ghost use Rattle.volume.specs.Volume.{Cells, Refused, corner, points_of, figure_of, volume, answer_of, volume_of};
ghost use Rattle.volume.specs.Layering.{Readable, ReadAs, Loaded, level_at, layer_or};

use doubles::number;
use hypervolume::Point;
use refusals::Refusal;

// The reference corner: three doubles.
#[repr(C)]
#[derive(Clone, Copy)]
pub struct Corner {
    pub x: f64,
    pub y: f64,
    pub z: f64,
}

// The answer for C, which has no `Result`: the refusal (0 when done), and the volume (+0 in a refusal).
#[repr(C)]
#[derive(Clone, Copy)]
pub struct VolumeAnswer {
    pub refusal: u64,
    pub volume: f64,
}

impl From<Result<f64, Refusal>> for VolumeAnswer {
    ghost from_gives = { λ found answer. answer ≡ answer_of (volume_of found) };

    fn from(found: Result<f64, Refusal>) -> VolumeAnswer {
        match found {
            Ok(volume) => VolumeAnswer { refusal: 0, volume },
            Err(refusal) => VolumeAnswer {
                refusal: refusal.number(),
                volume: 0.0,
            },
        }
    }
}

// The whole number from `low` to 1,048,576 that a double is.
fn read_number(x: f64, low: u64) -> Option<u64>
    ensures { MatchOption result (within low 1048576 (number_of x) ≡ false) (λ n. (n ≡ number_of x) × (within low 1048576 n ≡ true)) }
{
    let n = number(x)?;
    if n < low {
        return None;
    }
    Some(n)
}

// The point of three doubles, each of them a whole number from `low` to 1,048,576.
fn read_three(given: Corner, low: u64) -> Option<Point>
    ensures { ReadAs low (corner given) result }
{
    let x = read_number(given.x, low)?;
    let y = read_number(given.y, low)?;
    let z = read_number(given.z, low)?;
    Some(Point::new(x, y, z))
}

// The point at place i of the doubles.
fn read_point(ds: &[f64], i: usize) -> Option<Point>
    requires { 3 * i + 2 < length ds.now }
    ensures { ReadAs 0 (get_or (points_of ds.now) i []) result }
{
    let given = Corner {
        x: ds[3 * i],
        y: ds[3 * i + 1],
        z: ds[3 * i + 2],
    };
    read_three(given, 0)
}

// Reads the points, and gives each a key: its z, then its place. A double that is no such number refuses them.
fn read(ds: &[f64], points: &mut [[u32; 3]], keys: &mut [u32]) -> Result<(), Refusal>
    requires { Readable ds.now × (length points.old ≡ 512) × (length keys.old ≡ 512) }
    ensures { MatchResult result (λ done. (each (within 0 1048576) (map number_of ds.now) ≡ true) × Loaded ds.now points.new keys.new) (λ refusal. (refusal ≡ BadDouble) × (each (within 0 1048576) (map number_of ds.now) ≡ false)) }
{
    for i in 0..ds.len() / 3 {
        let Some(p) = read_point(ds, i) else {
            return Err(Refusal::BadDouble);
        };
        keys[i] = p.at[2] * 512 + i as u32;
        hypervolume::put_point(points, i, p);
    }
    Ok(())
}

// The z of the key at place i, or the reference's where that is lower or no key is left.
fn level_at(keys: &[u32], i: usize, rz: u32) -> u32
    ensures { result ≡ level_at keys.now i rz }
{
    match keys.get(i) {
        Some(key) => (*key / 512).min(rz),
        None => rz,
    }
}

// The sum with the layer from z up to the next level; as it is where that is the same level.
fn add_level(sum: f64, area: u64, z: u32, next: u32) -> f64
    requires { (area ≤ 2 ^ 53) × (next ≤ 2 ^ 53) }
    ensures { result ≡ layer_or sum area z next }
{
    if z < next {
        return doubles::add_layer(sum, area, (next - z) as u64);
    }
    sum
}

// The layers in turn. The test stops at the reference or behind the last key, whichever comes first, which no `for` says.
fn sum_layers(points: &[[u32; 3]], keys: &[u32], reference: Point, line: &mut [u64]) -> f64
    requires { Taken 2 points.now keys.now × Small reference.at × (length line.old ≡ 512) }
    ensures { result ≡ figure_of reference.at points.now }
{
    let rx = reference.at[0] as u64;
    let ry = reference.at[1] as u64;
    let rz = reference.at[2];
    let mut sum: f64 = 0.0;
    let mut area: u64 = 0;
    let mut m: usize = 0;
    let mut i: usize = 0;
    let mut z = level_at(keys, 0, rz);
    while z < rz {
        let p = hypervolume::point_at(points, (keys[i] % 512) as usize);
        let grown = area::grow(line, m, p, rx, ry);
        m = grown.held;
        area += grown.gain;
        i += 1;
        let next = level_at(keys, i, rz);
        sum = add_level(sum, area, z, next);
        z = next;
    }
    sum
}

// The keys put in order, then the layers.
fn in_order(points: &[[u32; 3]], keys: &mut [u32], ascending: &mut [u32], reference: Point) -> f64
    requires { Few points.now × Keyed 2 points.now keys.old × (length ascending.old ≡ length points.now) × Small reference.at }
    ensures { result ≡ figure_of reference.at points.now }
{
    order::order(keys, ascending);
    let mut line = [0u64; 512];
    sum_layers(points, ascending, reference, &mut line)
}

// Row 19 for the points, and the figure.
fn figure(ds: &[f64], reference: Point) -> Result<f64, Refusal>
    requires { Readable ds.now × Small reference.at }
    ensures { volume_of result ≡ pick (each (within 0 1048576) (map number_of ds.now)) (Cells (figure_of reference.at (points_of ds.now))) (Refused 19) }
{
    let mut points = [[0u32, 0, 0]; 512];
    let mut keys = [0u32; 512];
    let mut ascending = [0u32; 512];
    read(ds, &mut points, &mut keys)?;
    let n = ds.len() / 3;
    let sum = in_order(&points[..n], &mut keys[..n], &mut ascending[..n], reference);
    Ok(sum)
}

// Volume (reference, points): rows 17, 20 and 19, in this order.
pub fn measure(reference: Corner, points: &[f64]) -> Result<f64, Refusal>
    ensures { volume_of result ≡ volume reference points.now }
{
    if points.len() % 3 != 0 {
        return Err(Refusal::BadLength);
    }
    if 512 < points.len() / 3 {
        return Err(Refusal::TooManyPoints);
    }
    let Some(corner) = read_three(reference, 1) else {
        return Err(Refusal::BadDouble);
    };
    figure(points, corner)
}

// The call as C has it.
pub fn volume_answer(reference: Corner, points: &[f64]) -> VolumeAnswer
    ensures { result ≡ answer_of (volume reference points.now) }
{
    VolumeAnswer::from(measure(reference, points))
}
