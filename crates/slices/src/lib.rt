// Two tests as one; and words of a slice cleared, copied and moved: each writes one part of it, and nothing else.
#![tactic(auto)]

ghost use Rattle.std.specs.Prelude.{◌≡◌, ◌+◌, ◌≤◌, length, take, drop, replicate};
ghost use Rattle.slices.specs.Choices.{both};
ghost use Rattle.slices.specs.Put.{put};

// Both of two tests. As a call: `&&` would become a branch, also where nothing foretells it.
#[tactic(auto, unfolding(crate::specs::Choices::both))]
pub fn both(a: bool, b: bool) -> bool
    ensures { result ≡ both a b }
{
    if a { b } else { false }
}

// Clears n words from `at` on.
pub fn clear(w: &mut [u64], at: usize, n: usize)
    requires { at + n ≤ length w.old }
    ensures { w.new ≡ put w.old at (replicate n 0) }
{
    w[at..at + n].fill(0);
}

// Copies all of `from` to `at` and behind it.
#[tactic(auto, using(crate::proofs::Put::put_part))]
pub fn copy(from: &[u64], w: &mut [u64], at: usize)
    requires { at + length from.now ≤ length w.old }
    ensures { w.new ≡ put w.old at from.now }
{
    w[at..at + from.len()].copy_from_slice(from);
}

// Moves n words from `at` on `by` places up, the last one first. (A slice has no method that moves words within itself.)
pub fn move_up(w: &mut [u64], at: usize, n: usize, by: usize)
    requires { at + n + by ≤ length w.old }
    ensures { w.new ≡ put w.old (at + by) (take n (drop at w.old)) }
{
    for i in (0..n).rev() {
        w[at + by + i] = w[at + i];
    }
}

// Moves n words, those from `by` places above `at` on, down to `at`.
pub fn move_down(w: &mut [u64], at: usize, n: usize, by: usize)
    requires { at + n + by ≤ length w.old }
    ensures { w.new ≡ put w.old at (take n (drop (at + by) w.old)) }
{
    for i in 0..n {
        w[at + i] = w[at + by + i];
    }
}
