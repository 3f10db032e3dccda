// The bytes of one symbol of a lent stripe in one pass: cleared, taken from a symbol, or added to, and then the sources added.
// Any of them may be the target: each byte is summed before it is stored.
#![tactic(auto)]

ghost use Rattle.std.specs.Prelude.{◌≡◌, ◌+◌, ◌*◌, ◌≤◌, ◌<◌, List, ℕ, length, get_or, replicate};
ghost use Rattle.gf2.specs.Stripes.{symbol, SymbolWithin, xor_bytes, put_symbol};
ghost use Rattle.passes.specs.InnerSums.{summed, EachWithin, summed_byte, symbol_bytes};
ghost use Rattle.passes.specs.InnerStarts.{Starts};

use passes::Sources;

// Byte i of symbol s.
fn symbol_byte(stripe: &[u8], s: usize, size: usize, i: usize) -> u8
    requires { SymbolWithin size (length stripe.now) s × (i < size) }
    ensures { result ≡ get_or stripe.now (s * size + i) 0 }
{
    stripe[s * size + i]
}

// A byte XOR byte i of each source.
#[inline]
fn sum(first: u8, stripe: &[u8], sources: &[usize], size: usize, i: usize) -> u8
    requires { EachWithin size (length stripe.now) sources.now × (i < size) }
    ensures { result ≡ summed_byte first (symbol_bytes size stripe.now i sources.now) }
{
    let mut sum = first;
    for s in sources {
        sum ^= symbol_byte(stripe, *s, size, i);
    }
    sum
}

// Each byte of the target becomes what it begins with, made of its own byte and the source's, and the sources are added.
// There is a loop of its own for each number of sources.
fn pass<const N: usize, F: Fn(u8, u8) -> u8>(
    stripe: &mut [u8],
    target: usize,
    source: usize,
    size: usize,
    sources: [usize; N],
    begin: F,
)
    requires target_within { SymbolWithin size (length stripe.old) target }
    requires source_within { SymbolWithin size (length stripe.old) source }
    requires sources_within { EachWithin size (length stripe.old) sources }
    requires callable { F.IsAlwaysCallable begin }
    ensures { (start : List ℕ) → Starts (F.post begin) (symbol size stripe.old target) (symbol size stripe.old source) start → stripe.new ≡ put_symbol size stripe.old target (summed size stripe.old start sources.entry) }
{
    let to = target * size;
    for i in 0..size {
        let own = symbol_byte(stripe, target, size, i);
        let other = symbol_byte(stripe, source, size, i);
        stripe[to + i] = sum(begin(own, other), stripe, &sources, size, i);
    }
}

// A pass by a loop for just so many sources.
fn pass_with<F: Fn(u8, u8) -> u8>(
    stripe: &mut [u8],
    target: usize,
    source: usize,
    size: usize,
    sources: &Sources,
    begin: F,
)
    requires target_within { SymbolWithin size (length stripe.old) target }
    requires source_within { SymbolWithin size (length stripe.old) source }
    requires sources_within { EachWithin size (length stripe.old) sources.now.items }
    requires callable { F.IsAlwaysCallable begin }
    ensures { (start : List ℕ) → Starts (F.post begin) (symbol size stripe.old target) (symbol size stripe.old source) start → stripe.new ≡ put_symbol size stripe.old target (summed size stripe.old start sources.now.items) }
{
    match *sources.as_slice() {
        [] => pass(stripe, target, source, size, [], begin),
        [a] => pass(stripe, target, source, size, [a], begin),
        [a, b] => pass(stripe, target, source, size, [a, b], begin),
        [a, b, c] => pass(stripe, target, source, size, [a, b, c], begin),
        [a, b, c, d] => pass(stripe, target, source, size, [a, b, c, d], begin),
        [a, b, c, d, e, ..] => pass(stripe, target, source, size, [a, b, c, d, e], begin),
    }
}

// The target becomes zero bytes, and the sources are added.
pub fn clear(stripe: &mut [u8], target: usize, size: usize, sources: &Sources)
    requires target_within { SymbolWithin size (length stripe.old) target }
    requires sources_within { EachWithin size (length stripe.old) sources.now.items }
    ensures { stripe.new ≡ put_symbol size stripe.old target (summed size stripe.old (replicate size 0) sources.now.items) }
{
    pass_with(stripe, target, target, size, sources, |_, _| 0);
}

// The target becomes a symbol, and the sources are added.
pub fn copy(stripe: &mut [u8], target: usize, source: usize, size: usize, sources: &Sources)
    requires target_within { SymbolWithin size (length stripe.old) target }
    requires source_within { SymbolWithin size (length stripe.old) source }
    requires sources_within { EachWithin size (length stripe.old) sources.now.items }
    ensures { stripe.new ≡ put_symbol size stripe.old target (summed size stripe.old (symbol size stripe.old source) sources.now.items) }
{
    pass_with(stripe, target, source, size, sources, |_, other| other);
}

// The target becomes itself XOR a symbol, and the sources are added.
pub fn add(stripe: &mut [u8], target: usize, source: usize, size: usize, sources: &Sources)
    requires target_within { SymbolWithin size (length stripe.old) target }
    requires source_within { SymbolWithin size (length stripe.old) source }
    requires sources_within { EachWithin size (length stripe.old) sources.now.items }
    ensures { stripe.new ≡ put_symbol size stripe.old target (summed size stripe.old (xor_bytes (symbol size stripe.old target) (symbol size stripe.old source)) sources.now.items) }
{
    pass_with(
        stripe,
        target,
        source,
        size,
        sources,
        |own, other| own ^ other,
    );
}
