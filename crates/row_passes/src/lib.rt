// One encoded symbol: the data symbols of a row, up to six summed in one pass over the target's bytes.
#![tactic(auto)]

ghost use Rattle.std.specs.Prelude.{◌≡◌, ◌+◌, ◌-◌, ◌*◌, ◌≤◌, ◌<◌, List, ℕ, length, IfSome};
ghost use Rattle.std.specs.List.{All};
ghost use Rattle.bits.specs.BitSets.{has};
ghost use Rattle.bits.specs.Lists.{first_from};
ghost use Rattle.bits.specs.Numerals.{set_width, numeral};
ghost use Rattle.gf2.specs.Stripes.{symbol, encoded_symbol};
ghost use Rattle.passes.specs.InnerStarts.{Starts};
ghost use Rattle.passes.specs.InnerSums.{summed};
ghost use Rattle.row_passes.specs.InnerPasses.{DataSymbolFits, next_or, Gathers};

use bits::{BitSet, lowest_from};
use part_passes::pass;
use passes::Sources;

// The sources of a pass, and the data symbol that the next pass begins with, where one is left.
#[derive(Clone, Copy)]
struct Gathered {
    sources: Sources,
    next: Option<usize>,
}

// A data symbol, as a part out of the middle of the lent data.
fn data_symbol<'a>(contents: &'a [u8], t: usize, size: usize) -> &'a [u8]
    requires { DataSymbolFits size (length contents.now) t }
    ensures { result.now ≡ symbol size contents.now t }
{
    &contents[t * size..(t + 1) * size]
}

// One pass: each byte of the target becomes what it begins with, made of its own byte and the first data symbol's, and the sources are added.
fn do_pass<F: Fn(u8, u8) -> u8>(
    target: &mut [u8],
    contents: &[u8],
    first: usize,
    size: usize,
    sources: &Sources,
    begin: F,
)
    requires first_fits { DataSymbolFits size (length contents.now) first }
    requires sources_fit { All (DataSymbolFits size (length contents.now)) sources.now.items }
    requires target_whole { length target.old ≡ size }
    requires callable { F.IsAlwaysCallable begin }
    ensures { (start : List ℕ) → Starts (F.post begin) target.old (symbol size contents.now first) start → target.new ≡ summed size contents.now start sources.now.items }
{
    let begun = data_symbol(contents, first, size);
    match *sources.as_slice() {
        [] => pass(target, begun, &[], begin),
        [a] => pass(target, begun, &[data_symbol(contents, a, size)], begin),
        [a, b] => {
            let parts = [
                data_symbol(contents, a, size),
                data_symbol(contents, b, size),
            ];
            pass(target, begun, &parts, begin)
        }
        [a, b, c] => {
            let parts = [
                data_symbol(contents, a, size),
                data_symbol(contents, b, size),
                data_symbol(contents, c, size),
            ];
            pass(target, begun, &parts, begin)
        }
        [a, b, c, d] => {
            let parts = [
                data_symbol(contents, a, size),
                data_symbol(contents, b, size),
                data_symbol(contents, c, size),
                data_symbol(contents, d, size),
            ];
            pass(target, begun, &parts, begin)
        }
        [a, b, c, d, e, ..] => {
            let parts = [
                data_symbol(contents, a, size),
                data_symbol(contents, b, size),
                data_symbol(contents, c, size),
                data_symbol(contents, d, size),
                data_symbol(contents, e, size),
            ];
            pass(target, begun, &parts, begin)
        }
    }
}

// The first data symbol of a row from one on, where there is one.
fn next_symbol(row: BitSet, from: usize, data_symbols: usize) -> Option<usize>
    requires { (from ≤ data_symbols) × (data_symbols ≤ set_width) }
    ensures below { IfSome result (λ next. next < data_symbols) }
    ensures first { next_or data_symbols result ≡ first_from (has (numeral row)) from (data_symbols - from) }
{
    let next = lowest_from(row, from);
    if next < data_symbols {
        return Some(next);
    }
    None
}

// The data symbols of a row that a pass takes behind its first, and the one that the next pass begins with.
fn gather(row: BitSet, first: usize, data_symbols: usize) -> Gathered
    requires { (first < data_symbols) × (data_symbols ≤ set_width) }
    ensures below { IfSome result.next (λ next. next < data_symbols) }
    ensures gathered { Gathers (numeral row) data_symbols (first + 1) result.sources.items (next_or data_symbols result.next) }
{
    let mut sources = Sources::new();
    let mut next = next_symbol(row, first + 1, data_symbols);
    while let Some(source) = next {
        if sources.is_full() {
            break;
        }
        sources.push(source);
        next = next_symbol(row, source + 1, data_symbols);
    }
    Gathered { sources, next }
}

// One symbol: the XOR of the data symbols whose bits the row has, up to six in one pass.
pub fn encode_symbol(
    row: BitSet,
    data_symbols: usize,
    size: usize,
    contents: &[u8],
    target: &mut [u8],
)
    requires { (data_symbols ≤ set_width) × (length contents.now ≡ data_symbols * size) × (length target.old ≡ size) }
    ensures { target.new ≡ encoded_symbol size contents.now (numeral row) data_symbols }
{
    let Some(first) = next_symbol(row, 0, data_symbols) else {
        target.fill(0);
        return;
    };
    let gathered = gather(row, first, data_symbols);
    do_pass(
        target,
        contents,
        first,
        size,
        &gathered.sources,
        |_, other| other,
    );
    let mut next = gathered.next;
    while let Some(first) = next {
        let gathered = gather(row, first, data_symbols);
        do_pass(
            target,
            contents,
            first,
            size,
            &gathered.sources,
            |own, other| own ^ other,
        );
        next = gathered.next;
    }
}
