// The header, written in place.
ghost use Rattle.std.specs.Prelude.{◌≡◌, ◌≤◌, length};
ghost use Rattle.slices.specs.Put.{put};
ghost use Rattle.words.specs.Layout.{header_words};
ghost use Rattle.words.specs.Places.{as_shape};

use crate::rows::Shape;
use slices::copy;

// Writes the header.
pub fn put_header(w: &mut [u64], count: u64, s: Shape, total: u64, front: u64)
    requires { 8 ≤ length w.old }
    ensures { w.new ≡ put w.old 0 (header_words count (as_shape s) total front) }
{
    let header = [count, s.capacity, s.rx, s.ry, s.rz, total, front, 0];
    copy(&header, w, 0);
}
