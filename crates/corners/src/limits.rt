// Which corners an update counts. A corner may be left out where two that stay are at most it on all axes, and on real
// archives nearly all may: those beyond a limit on some axis.
ghost use Rattle.std.specs.Prelude.{◌≡◌, true, ◌≤◌, ◌<◌, length, get_or};
ghost use Rattle.corners.specs.Limits.{offer, Offered, Limits, Collecting, Collected};

use hypervolume::{Point, point_at, put_point};

// The two least offers on each axis.
#[derive(Clone, Copy)]
pub struct Offers {
    pub least: [u32; 3],
    pub second: [u32; 3],
}

// What t offers as the limit on an axis: its coordinate, where it is at most u on all others. 1,048,576 limits nothing.
#[tactic(auto, unfolding(crate::specs::Limits::offer, slices::specs::Choices::pick))]
fn offer(t: Point, u: Point, axis: usize) -> u32
    requires { axis < 3 }
    ensures { result ≡ offer t.at u.at axis }
{
    let mut moved = t;
    moved.at[axis] = 0;
    if moved.dominates(u) {
        t.at[axis]
    } else {
        1048576
    }
}

impl Offers {
    // The two least with those of one more point.
    pub fn with(self, t: Point, u: Point) -> Offers
        ensures { Offered self.least self.second t.at u.at result.least result.second 3 }
    {
        let mut least = [0u32; 3];
        let mut second = [0u32; 3];
        for axis in 0..3usize {
            let n = offer(t, u, axis);
            least[axis] = self.least[axis].min(n);
            second[axis] = self.second[axis].min(self.least[axis].max(n));
        }
        Offers { least, second }
    }
}

// The next place, from this one on, of a point that may lower a limit: it is within the limits so far, and at most u on two
// axes, that is, it passes five of six tests (u is within the limits). The points ascend on z, so past the limit on z none
// does, and the answer is the end. Every insertion and removal goes through the points here: so the loop stands apart from the
// offers, with few numbers live, and asks by one sum, since a test for each half could not be foretold. (With an Option for the
// place, a `for` here and a `while let` there, an update takes some 10 % longer.)
fn seek(points: &[[u32; 3]], from: usize, u: Point, limit: Point) -> usize
    requires { from ≤ length points.now }
    ensures { (from ≤ result) × (result ≤ length points.now) }
{
    let mut i = from;
    while i < points.len() {
        let t = point_at(points, i);
        if limit.at[2] < t.at[2] {
            return points.len();
        }
        if 5 <= t.axes_within(limit) + t.axes_within(u) {
            return i;
        }
        i = i + 1;
    }
    i
}

// Whether the limit on the first axis is u's own coordinate: then two of the points are at most u on all axes. (No point of a
// coordinate of 1,048,576 is covered so, since there nothing limits.)
pub fn covered(u: Point, limit: Point) -> bool
    ensures { result ≡ true → (get_or limit.at 0 0 ≡ get_or u.at 0 0) × (get_or u.at 0 0 < 1048576) }
{
    if limit.at[0] == u.at[0] {
        return u.at[0] < 1048576;
    }
    false
}

// The limit on each axis: the second least coordinate of the corners that equal u on all others. Where two points are at most u
// on all axes, these are limits enough.
pub fn limits(points: &[[u32; 3]], u: Point) -> Point
    ensures { Limits points.now u.at result.at }
{
    let mut offers = Offers {
        least: [1048576u32; 3],
        second: [1048576u32; 3],
    };
    let mut limit = u.join(Point {
        at: [1048576u32; 3],
    });
    let mut i: usize = 0;
    while i < points.len() {
        let next = seek(points, i, u, limit);
        if next == points.len() {
            return limit;
        }
        offers = offers.with(point_at(points, next), u);
        let second = offers.second;
        limit = u.join(Point { at: second });
        if covered(u, limit) {
            return limit;
        }
        i = next + 1;
    }
    limit
}

// The corners within the limit, in their order: how many, and in `places` where their points stand. The points ascend on
// z, so past the limit on z none is within. (A place takes 16 bits, to save memory.)
pub fn collect(
    points: &[[u32; 3]],
    u: Point,
    limit: Point,
    corners: &mut [[u32; 3]],
    places: &mut [u16],
) -> usize
    requires { Collecting points.now u.at limit.at corners.old places.old }
    ensures { Collected points.now u.at limit.at (length points.now) corners.new places.new result }
{
    let mut m: usize = 0;
    for i in 0..points.len() {
        let t = point_at(points, i);
        if limit.at[2] < t.at[2] {
            return m;
        }
        if t.dominates(limit) {
            put_point(corners, m, u.join(t));
            places[m] = i as u16;
            m += 1;
        }
    }
    m
}
