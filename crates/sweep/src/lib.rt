// The one counting algorithm of the archive: a sweep over the points in ascending z. It counts the total and every
// contribution; over the corners with one more point (crate `corners`) it counts what that point would change.
#![tactic(auto)]

ghost use Rattle.std.specs.Prelude.{◌≡◌, ◌++◌, length, drop};
ghost use Rattle.hypervolume.specs.Counts.{total, contributions};
ghost use Rattle.sweep.specs.Points.{Ready};

use hypervolume::Point;

// The total of the points, and in `out` the contribution of each. After i points, `volume` and `out` are those of these
// points alone. No earlier point has a larger z, so in each layer that the next point reaches it meets the same
// picture, seen along z: one area to add and one area to take from each earlier point, `height` cells deep. The words of
// `line` are the caller's, so that whoever sweeps often clears none of them.
pub fn sweep(points: &[[u32; 3]], reference: Point, line: &mut [u64], out: &mut [u64]) -> u64
    requires { Ready points.now reference.at line.old out.old }
    ensures total { result ≡ total reference.at points.now }
    ensures contributions { out.new ≡ contributions reference.at points.now ++ drop (length points.now) out.old }
{
    let rx = reference.at[0] as u64;
    let ry = reference.at[1] as u64;
    let rz = reference.at[2];
    let mut m: usize = 0;
    let mut volume: u64 = 0;
    for i in 0..points.len() {
        let p = hypervolume::point_at(points, i);
        let x = p.at[0] as u64;
        let y = p.at[1] as u64;
        let height = hypervolume::edge(rz, p.at[2]);
        let at = line::rank(&line[..m], x);
        let column = strips::look_back(&line[..at], ry);
        let own = height * strips::strips(&line[..m], at, column, x, y, rx, ry, height, out);
        out[i] = own;
        volume += own;
        m = line::enter(line, m, at, column, line::entry(x, y, i));
    }
    volume
}
