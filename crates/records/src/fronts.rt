// The front of the records that the words hold, counted, and written as word 6.
ghost use Rattle.std.specs.Prelude.{◌≡◌, ◌++◌};
ghost use Rattle.hypervolume.specs.Front.{front};
ghost use Rattle.words.specs.Layout.{layout, read, behind};
ghost use Rattle.words.specs.Format.{archive_rows};
ghost use Rattle.calls.specs.Calls.{held_points, renewed};

use crate::strides::load_points;
use front::front;

// How many trials are on the front.
pub fn count_front(w: &[u64]) -> u64
    requires { archive_rows w.now 0 ≡ 0 }
    ensures { result ≡ front (held_points (read w.now)) }
{
    let mut points = [[0u32, 0, 0]; 512];
    let m = load_points(w, w[0] as usize, &mut points);
    front(&points[..m])
}

// Counts the front anew and writes it.
pub fn renew(w: &mut [u64])
    requires { archive_rows w.old 0 ≡ 0 }
    ensures { w.new ≡ layout (renewed (read w.old).shape (read w.old).sum (read w.old).rows) ++ behind w.old }
{
    let front = count_front(w);
    w[6] = front;
}
