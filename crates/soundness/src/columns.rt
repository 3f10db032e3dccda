// Equations tried on the columns of a stripe: the lowest column in which one of them fails.
ghost use Rattle.std.specs.Prelude.{◌≡◌, ℕ, ◌*◌, ◌≤◌, ◌<◌, length, get_or};
ghost use Rattle.bits.specs.Numerals.{set_width, numerals};
ghost use Rattle.soundness.specs.InnerColumns.{FirstNonzero, LowestFailing};

use bits::BitSet;
use row_passes::encode_symbol;

// The longest symbol, and so the longest sum of symbols; and the longest one for which less room is made empty.
const LONGEST: usize = 65536;

const SHORT: usize = 4096;

// The union of all bytes. The compiler makes a loop over many bytes at once of it.
fn union_of(bytes: &[u8]) -> u8
    ensures { result ≡ 0 → (i : ℕ) → i < length bytes.now → get_or bytes.now i 0 ≡ 0 }
{
    let mut all = 0;
    for byte in bytes {
        all |= *byte;
    }
    all
}

// The first byte that is not zero, or the length. Bytes are looked at one by one only where some is not zero.
fn first_nonzero(bytes: &[u8]) -> usize
    ensures { FirstNonzero bytes.now result }
{
    if union_of(bytes) == 0 {
        return bytes.len();
    }
    for (i, byte) in bytes.iter().enumerate() {
        if *byte != 0 {
            return i;
        }
    }
    bytes.len()
}

// The lowest column of a stripe in which one of the equations fails: its symbols don't sum to zero. L where none does. The sums are made in
// `sum`, of L bytes. From the lowest column so far on nothing is looked at.
fn lowest_by_sums(
    equations: &[BitSet],
    symbols: usize,
    size: usize,
    stripe: &[u8],
    sum: &mut [u8],
) -> usize
    requires { (symbols ≤ set_width) × (length stripe.now ≡ symbols * size) × (length sum.old ≡ size) }
    ensures { LowestFailing size symbols stripe.now (numerals equations.now) result }
{
    let mut lowest = size;
    for equation in equations {
        encode_symbol(*equation, symbols, size, stripe, sum);
        lowest = first_nonzero(&sum[0..lowest]);
        if lowest == 0 {
            return lowest;
        }
    }
    lowest
}

// The same, with room of its own for the sums: nothing that is lent is written.
pub fn lowest_failing(equations: &[BitSet], symbols: usize, size: usize, stripe: &[u8]) -> usize
    requires { (symbols ≤ set_width) × (size ≤ 65536) × (length stripe.now ≡ symbols * size) }
    ensures { LowestFailing size symbols stripe.now (numerals equations.now) result }
{
    if size <= SHORT {
        let mut sum = [0; SHORT];
        return lowest_by_sums(equations, symbols, size, stripe, &mut sum[0..size]);
    }
    let mut sum = [0; LONGEST];
    lowest_by_sums(equations, symbols, size, stripe, &mut sum[0..size])
}
