// The six orders of three axes, and points rearranged by them.
ghost use Rattle.std.specs.Prelude.{◌≡◌, ◌<◌, get_or};
ghost use Rattle.axes.specs.Orders.{x, place_of, letters, rearranged};

use hypervolume::Point;

// An order is its number: C gives it so, and the callers of `write` count through all six.
//
// Which old axis comes first, second and third: xyz, xzy, yxz, yzx, zxy, zyx.
const ORDERS: [[usize; 3]; 6] = [
    [0, 1, 2],
    [0, 2, 1],
    [1, 0, 2],
    [1, 2, 0],
    [2, 0, 1],
    [2, 1, 0],
];

// The old axis that comes at this place.
pub fn axis(order: usize, place: usize) -> usize
    requires { (order < 6) × (place < 3) }
    ensures { (result ≡ place_of (get_or (letters order) place x)) × (result < 3) }
{
    ORDERS[order][place]
}

// The point with its axes in this order.
pub fn rearranged(p: Point, order: usize) -> Point
    requires { order < 6 }
    ensures { result.at ≡ rearranged order p.at }
{
    let at = p.at;
    Point {
        at: [at[axis(order, 0)], at[axis(order, 1)], at[axis(order, 2)]],
    }
}
