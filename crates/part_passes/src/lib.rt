// One pass over the bytes of a target whose sources are parts of another slice, each as long as the target.
#![tactic(auto)]

ghost use Rattle.std.specs.Prelude.{◌≡◌, ◌<◌, List, ℕ, length, map};
ghost use Rattle.std.specs.List.{All};
ghost use Rattle.passes.specs.InnerStarts.{Starts};
ghost use Rattle.passes.specs.InnerSums.{summed_parts, summed_byte, part_bytes};

// A byte XOR byte i of each part.
#[inline]
fn sum(first: u8, parts: &[&[u8]], i: usize) -> u8
    requires { All (λ part. i < length part.now) parts.now }
    ensures { result ≡ summed_byte first (part_bytes i (map (λ part. part.now) parts.now)) }
{
    let mut sum = first;
    for part in parts {
        sum ^= part[i];
    }
    sum
}

// Each byte of the target becomes what it begins with, made of its own byte and the first part's, and the other parts are added.
// Inlined, so that there is a loop of its own wherever the number of parts is known.
#[inline(always)]
pub fn pass<F: Fn(u8, u8) -> u8>(target: &mut [u8], first: &[u8], parts: &[&[u8]], begin: F)
    requires first_whole { length first.now ≡ length target.old }
    requires parts_whole { All (λ part. length part.now ≡ length target.old) parts.now }
    requires callable { F.IsAlwaysCallable begin }
    ensures { (start : List ℕ) → Starts (F.post begin) target.old first.now start → target.new ≡ summed_parts start (map (λ part. part.now) parts.now) }
{
    for i in 0..target.len() {
        target[i] = sum(begin(target[i], first[i]), parts, i);
    }
}
