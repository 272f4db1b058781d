// The sweep along a fourth axis. The points are taken in ascending w. No earlier point has a larger w, so in each layer that the
// next one reaches it meets the same picture, seen along w: on three axes its gain over the points before it, and its joint
// contribution with each of them, times the height up to the reference.
#![tactic(auto)]

ghost use Rattle.std.specs.Prelude.{◌≡◌, true, ◌∷◌, ◌++◌, [], ◌-◌, ◌/◌, ◌<◌, length, take, drop, get_or};
ghost use Rattle.slices.specs.Put.{put};
ghost use Rattle.slices.specs.Spread.{spread};
ghost use Rattle.words.specs.Format.{within, each};
ghost use Rattle.order.specs.Keys.{Keyed};
ghost use Rattle.sweep4.specs.Quadruples.{points_of, counts_of};
ghost use Rattle.sweep4.specs.Passing.{Readable, Taking, Swept, Counted, Placeable};

use hypervolume::Point;

// The key of each point: its w, then its place.
fn load_keys(coords: &[u64], keys: &mut [u32])
    requires { Readable coords.now × (length keys.old ≡ length coords.now / 4) }
    ensures { Keyed 3 (points_of coords.now) keys.new }
{
    for i in 0..keys.len() {
        keys[i] = coords[4 * i + 3] as u32 * 512 + i as u32;
    }
}

// The point at this place of the coordinates, seen along w.
fn read_point(coords: &[u64], place: usize) -> Point
    requires { Readable coords.now × (place < length coords.now / 4) }
    ensures { result.at ≡ take 3 (get_or (points_of coords.now) place []) }
{
    Point::new(
        coords[4 * place],
        coords[4 * place + 1],
        coords[4 * place + 2],
    )
}

// The height of the point of this key: from its w up to the reference's, 0 past it.
fn height_of(keys: &[u32], i: usize, rw: u32) -> u64
    requires { i < length keys.now }
    ensures { result ≡ rw - get_or keys.now i 0 / 512 }
{
    hypervolume::edge(rw, keys[i] / 512)
}

// The points in turn, as their keys stand. Answers the total; in `own` the contributions, in `whose` of which point each is: two
// slices, as `held::pass` takes them.
fn pass_all(
    coords: &[u64],
    keys: &[u32],
    reference: Point,
    rw: u32,
    own: &mut [u64],
    whose: &mut [u64],
) -> u64
    requires { Taking coords.now keys.now reference.at rw × (length own.old ≡ 512) × (length whose.old ≡ 512) }
    ensures { Swept (reference.at ++ (rw ∷ [])) (points_of coords.now) keys.now (length keys.now) own.new whose.new result }
{
    let mut points = [[0u32, 0, 0]; 512];
    let mut corners = [[0u32, 0, 0]; 512];
    let mut places = [0u16; 512];
    let mut line = [0u64; 512];
    let mut counts = [0u64; 512];
    let mut total: u64 = 0;
    for i in 0..keys.len() {
        let place = (keys[i] % 512) as usize;
        let p = read_point(coords, place);
        let height = height_of(keys, i, rw);
        let gained = held::pass(
            p,
            place,
            height,
            reference,
            i,
            &mut points,
            own,
            whose,
            &mut corners,
            &mut places,
            &mut line,
            &mut counts,
        );
        total += gained;
    }
    total
}

// The total, and behind it each contribution at the place of its point.
fn put_back(total: u64, own: &[u64], whose: &[u64], out: &mut [u64])
    requires { Placeable own.now whose.now out.old }
    ensures { out.new ≡ total ∷ spread (drop 1 out.old) whose.now own.now }
{
    out[0] = total;
    for i in 0..whose.len() {
        let place = whose[i] as usize;
        out[place + 1] = own[i];
    }
}

// The keys loaded and put in order, then the points in turn.
fn in_order(
    coords: &[u64],
    keys: &mut [u32],
    ascending: &mut [u32],
    reference: Point,
    rw: u32,
    own: &mut [u64],
    whose: &mut [u64],
) -> u64
    requires { Readable coords.now × (length keys.old ≡ length coords.now / 4) × (length ascending.old ≡ length coords.now / 4) × (each (within 1 32768) (reference.at ++ (rw ∷ [])) ≡ true) × (length own.old ≡ 512) × (length whose.old ≡ 512) }
    ensures { Counted (reference.at ++ (rw ∷ [])) (points_of coords.now) own.new whose.new result }
{
    load_keys(coords, keys);
    order::order(keys, ascending);
    pass_all(coords, ascending, reference, rw, own, whose)
}

// The counts, for coordinates and a reference that no row turns down.
pub fn count(coords: &[u64], reference: Point, rw: u32, out: &mut [u64])
    requires { Readable coords.now × (each (within 1 32768) (reference.at ++ (rw ∷ [])) ≡ true) × (length coords.now / 4 < length out.old) }
    ensures { out.new ≡ put out.old 0 (counts_of (reference.at ++ (rw ∷ [])) (points_of coords.now)) }
{
    let n = coords.len() / 4;
    let mut keys = [0u32; 512];
    let mut ascending = [0u32; 512];
    let mut own = [0u64; 512];
    let mut whose = [0u64; 512];
    let total = in_order(
        coords,
        &mut keys[..n],
        &mut ascending[..n],
        reference,
        rw,
        &mut own,
        &mut whose,
    );
    put_back(total, &own[..n], &whose[..n], out);
}
