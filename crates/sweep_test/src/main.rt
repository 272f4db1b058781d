// The gate's test of the sweep: edge lengths at the limits of their numbers, against a comparison of the two; small lists of
// points, with ties, equal and dominated points and points beyond the reference, against a direct count of the cells.
#![tactic(auto)]

ghost use Rattle.std.specs.Prelude.{◌≡◌, ◌≤◌, ◌<◌, length};
ghost use Rattle.hypervolume.specs.Sorted.{Small, Sorted};

use hypervolume::Point;
use testing::noise;

// Numbers at the limits of 0, of a coordinate, of 31 and of 32 bits, each beside its neighbours.
const LIMITS: [u32; 12] = [
    0, 1, 2, 1048575, 1048576, 1048577, 2147483647, 2147483648, 2147483649, 4294967293, 4294967294,
    4294967295,
];

// Whether the edge length is what a comparison of the two gives.
fn edge_agrees(reference: u32, x: u32) -> bool {
    hypervolume::edge(reference, x) == u64::from(reference.saturating_sub(x))
}

// How many of the 144 pairs of these numbers have another edge length.
fn edges_differ() -> u64 {
    let mut differ: u64 = 0;
    for pair in 0..144usize {
        if !edge_agrees(LIMITS[pair / 12], LIMITS[pair % 12]) {
            differ += 1;
        }
    }
    differ
}

// Points with x and y below `limit`, so that many are equal where it is small, and with equal neighbours on z.
fn fill(set: u64, limit: u64, points: &mut [[u32; 3]])
    requires { (0 < limit) × (length points.old ≤ 12) }
    ensures { Sorted points.new }
{
    let mut z: u64 = 0;
    for i in 0..points.len() {
        let x = noise(set, 0, i as u64) % limit;
        let y = noise(set, 1, i as u64) % limit;
        z += noise(set, 2, i as u64) % 2;
        hypervolume::put_point(points, i, Point::new(x, y, z));
    }
}

// A point with each coordinate from `least` to `least` + 7.
fn point(set: u64, kind: u64, least: u64) -> Point
    requires { least ≤ 1 }
    ensures { Small result.at }
{
    let x = noise(set, kind, 12) % 8;
    let y = noise(set, kind, 13) % 8;
    let z = noise(set, kind, 14) % 8;
    Point::new(least + x, least + y, least + z)
}

// A coordinate, three to a point; beyond the box behind the end.
fn coordinate(points: &[[u32; 3]], i: usize) -> u32 {
    if i / 3 < points.len() {
        hypervolume::point_at(points, i / 3).at[i % 3]
    } else {
        8
    }
}

// The coordinates, as the direct count takes them; the points behind the end dominate no cell.
fn coordinates(points: &[[u32; 3]]) -> [u32; 36] {
    std::array::from_fn(|i| coordinate(points, i))
}

// The counts at their places, and 0 at all others.
fn spread(places: &[u16], counts: &[u64]) -> [u64; 12] {
    let mut all = [0u64; 12];
    for (place, count) in places.iter().zip(counts) {
        testing::put(&mut all, *place as usize, *count);
    }
    all
}

// Whether the n counts in `out` are right: of each point's corner with u, the cells that one point alone dominates.
fn right(points: &[u32], reference: Point, u: Point, out: &[u64], n: usize) -> bool {
    (0..n).all(|t| {
        let corner = u.join(testing::point_at(points, t));
        testing::cells(points, reference, corner, 1, 1) == testing::at(out, t)
    })
}

// Whether the sweep agrees with the direct count.
fn sweep_agrees(points: &[[u32; 3]], all: &[u32], reference: Point) -> bool
    requires { Sorted points.now × (length points.now ≤ 12) × Small reference.at }
{
    let origin = Point { at: [0, 0, 0] };
    let mut line = [0u64; 12];
    let mut counts = [0u64; 12];
    let total = sweep::sweep(points, reference, &mut line, &mut counts);
    total == testing::cells(all, reference, origin, 1, 12)
        && right(all, reference, origin, &counts, points.len())
}

// Whether the update by u does. What it is lent holds something already.
fn update_agrees(points: &[[u32; 3]], all: &[u32], reference: Point, u: Point) -> bool
    requires { Sorted points.now × (length points.now ≤ 12) × Small reference.at × Small u.at }
{
    let mut corners = [[1u32; 3]; 12];
    let mut places = [11u16; 12];
    let mut line = [1u64; 12];
    let mut counts = [1u64; 12];
    let found = corners::update(
        points,
        u,
        reference,
        &mut corners,
        &mut places,
        &mut line,
        &mut counts,
    );
    let joints = spread(&places[..found.moved], &counts);
    found.gain == testing::cells(all, reference, u, 0, 0)
        && right(all, reference, u, &joints, points.len())
}

// The set of this number: up to 12 points, with coordinates below 1 to 10.
fn agrees(set: u64) -> bool {
    let n = (set % 13) as usize;
    let limit = 1 + set / 13 % 10;
    let mut points = [[0u32; 3]; 12];
    fill(set, limit, &mut points);
    let all = coordinates(&points[..n]);
    let reference = point(set, 3, 1);
    sweep_agrees(&points[..n], &all, reference)
        && update_agrees(&points[..n], &all, reference, point(set, 1, 0))
}

// How many of 400 sets differ from the direct count.
fn sets_differ() -> u64 {
    (0..400u64).filter(|set| !agrees(*set)).count() as u64
}

fn main(rt: HostRuntime) {
    testing::print(&rt, "edge: 144 pairs, ", edges_differ());
    testing::print(&rt, " differ\nsweep: 400 sets, ", sets_differ());
    let _ = println!(rt; " differ");
}
