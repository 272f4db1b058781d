// Points by value, indexed by axis, and their operations: upper corner, dominance and edge product. A list of points is a
// slice of their coordinates, three to a point.
#![tactic(auto)]

ghost use Rattle.std.specs.Prelude.{◌≡◌, ◌∷◌, [], ℕ, ◌-◌, ◌≤◌, ◌<◌, ◌*◌, leb, length, get_or, set};
ghost use Rattle.hypervolume.specs.Cells.{holds, dominates, join, edges};
ghost use Rattle.hypervolume.specs.Axes.{axes_within};

// A point: a coordinate for each axis, x, y, z.
#[derive(Clone, Copy)]
pub struct Point {
    pub at: [u32; 3],
}

// 1 where a coordinate is at most another, else 0. By arithmetic: a choice would become a branch that nothing foretells.
pub fn at_most(x: u32, y: u32) -> u32
    ensures { result ≡ holds (leb x y) }
{
    ((y as u64 + 4294967296 - x as u64) / 4294967296) as u32
}

// The point at place i of a list of points.
pub fn point_at(points: &[[u32; 3]], i: usize) -> Point
    requires { i < length points.now }
    ensures { result.at ≡ get_or points.now i [] }
{
    Point { at: points[i] }
}

// Puts a point at place i.
pub fn put_point(points: &mut [[u32; 3]], i: usize, p: Point)
    requires { i < length points.old }
    ensures { points.new ≡ set points.old i p.at }
{
    let at = p.at;
    points[i] = at;
}

// The edge length on one axis: the reference less the coordinate, or 0 past the reference. By arithmetic alone, so that there is
// no branch to mispredict: the quotient is 1 up to the reference and 0 past it.
pub fn edge(reference: u32, x: u32) -> u64
    ensures { result ≡ reference - x }
{
    let ahead = reference as u64 + 4294967296 - x as u64;
    ahead / 4294967296 * (ahead % 4294967296)
}

impl Point {
    // The point of three numbers, in the order of the axes.
    pub fn new(x: u64, y: u64, z: u64) -> Point
        requires { (x < 4294967296) × (y < 4294967296) × (z < 4294967296) }
        ensures { result.at ≡ x ∷ y ∷ z ∷ [] }
    {
        Point {
            at: [x as u32, y as u32, z as u32],
        }
    }

    // The upper corner of two points.
    #[tactic(auto, using(crate::proofs::Points::joined_more))]
    pub fn join(self, other: Point) -> Point
        ensures { result.at ≡ join self.at other.at }
    {
        let mut corner = self;
        for axis in 0..3usize {
            corner.at[axis] = corner.at[axis].max(other.at[axis]);
        }
        corner
    }

    // On how many axes this point is at most the other. A sum of tests takes no branch, where a chain of them would.
    pub fn axes_within(self, other: Point) -> u32
        ensures { result ≡ axes_within self.at other.at }
    {
        let mut axes: u32 = 0;
        for axis in 0..3usize {
            axes += at_most(self.at[axis], other.at[axis]);
        }
        axes
    }

    // Whether this point dominates the cell.
    pub fn dominates(self, cell: Point) -> bool
        ensures { result ≡ dominates self.at cell.at }
    {
        self.axes_within(cell) == 3
    }

    // The edge product under a reference of at most 1,048,576 on each axis: the cells that this point dominates.
    pub fn edges(self, reference: Point) -> u64
        requires { (axis : ℕ) → get_or reference.at axis 0 ≤ 1048576 }
        ensures { result ≡ edges reference.at self.at }
    {
        let mut product: u64 = 1;
        for axis in 0..3usize {
            product *= edge(reference.at[axis], self.at[axis]);
        }
        product
    }
}
