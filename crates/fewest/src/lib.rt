// A set of the fewest symbols that are enough to rebuild the wanted ones.
//
// A pattern's image is the set of the symbols on which it shows. A set is enough exactly if every image that avoids it avoids the wanted symbols too, so
// it meets every image that has a wanted symbol. The search takes such an image, and for the first symbol of it that may be taken it tries both: to
// take it, after which the images are reduced to those that avoid it, and to leave it out.
#![tactic(auto)]

ghost use Rattle.std.specs.Prelude.{◌≡◌, List, ℕ, ◌+◌, ◌^◌, ◌≤◌, ◌<◌, length, get_or, IfSome, IfNone};
ghost use Rattle.std.specs.Int.Bits.{bit_xor};
ghost use Rattle.bits.specs.BitSets.{has};
ghost use Rattle.bits.specs.Numerals.{set_width, numeral, numerals};
ghost use Rattle.gf2.specs.InnerElimination.{reduce_pattern};
ghost use Rattle.gf2.specs.Selection.{Below};
ghost use Rattle.gf2.specs.InnerSubsetPlans.{survivors};
ghost use Rattle.gf2.specs.Plans.{PlacesBelow};
ghost use Rattle.fewest.specs.InnerFewest.{Avoids, Fewest, Images, IsColumn, KeepsImages, Meets, MeetsEach, MeetsEachSum, NeededBesides, OfWidth, Searched, StillNeeded, either, size};

use bits::{
    BitSet, SET_WIDTH, below, common, count, empty, empty_sets, has, is_empty, lowest_from, sum,
    union, with,
};
use solve::{SetList, nonempty_sets, surviving_rows};

// The symbols whose rows have a data symbol's bit: on these the unit pattern of that bit shows.
fn column(rows: &[BitSet], bit: usize) -> BitSet
    requires { (length rows.now ≤ set_width) × (bit < set_width) }
    ensures { IsColumn (numerals rows.now) bit (numeral result) }
{
    let mut set = empty();
    for (s, row) in rows.iter().enumerate() {
        if has(*row, bit) {
            set = with(set, s);
        }
    }
    set
}

// The images of the unit patterns, of which every image is a sum.
fn columns(rows: &[BitSet], data_symbols: usize) -> SetList
    requires { (length rows.now ≤ set_width) × (data_symbols ≤ set_width) }
    ensures all { length result.items ≡ data_symbols }
    ensures columns { (i : ℕ) → i < data_symbols → IsColumn (numerals rows.now) i (get_or (numerals result.items) i 0) }
{
    let mut images = SetList::new();
    for bit in 0..data_symbols {
        images.push(column(rows, bit));
    }
    images
}

// Of the images that have a wanted symbol the first with the fewest symbols that may be taken.
fn next_image(images: &[BitSet], wanted: BitSet, allowed: BitSet) -> Option<usize>
    requires { OfWidth wanted }
    ensures found { IfSome result (λ at. (at < length images.now) × (Avoids (get_or (numerals images.now) at 0) (has (numeral wanted)) → ⊥)) }
    ensures none { IfNone result ((i : ℕ) → i < length images.now → Avoids (get_or (numerals images.now) i 0) (has (numeral wanted))) }
{
    let mut next = None;
    let mut fewest = SET_WIDTH;
    for (i, image) in images.iter().enumerate() {
        if !is_empty(common(*image, wanted)) {
            let choices = count(common(*image, allowed));
            if next.is_none() || choices < fewest {
                next = Some(i);
                fewest = choices;
            }
        }
    }
    next
}

// The images that avoid an element besides: one that has it is added to each that has it.
fn reduce(images: &mut [BitSet], pivot: BitSet, element: usize)
    requires { element < set_width }
    ensures { (i : ℕ) → i < length images.old → get_or (numerals images.new) i 0 ≡ reduce_pattern (numeral pivot) (2 ^ element) (get_or (numerals images.old) i 0) }
{
    for image in images {
        if has(*image, element) {
            *image = sum(*image, pivot);
        }
    }
}

// The images added to each other until each has a symbol of its own among those that may be taken, where that can be: sums of two are then small.
fn spread(images: &mut [BitSet], allowed: BitSet)
    ensures { KeepsImages (length images.old) (numerals images.old) (numerals images.new) }
{
    for i in 0..images.len() {
        let image = images[i];
        let own = lowest_from(common(image, allowed), 0);
        if own < SET_WIDTH {
            reduce(images, image, own);
            images[i] = image;
        }
    }
}

// Images that share no symbol that may be taken: their symbols of this kind, and how many images they are.
#[derive(Clone, Copy)]
struct Disjoint {
    used: BitSet,
    found: usize,
}

// One more, if it has a wanted symbol, and few symbols that may be taken, none of them used.
fn with_image(
    earlier: Disjoint,
    image: BitSet,
    wanted: BitSet,
    allowed: BitSet,
    few: usize,
) -> Disjoint
    ensures { StillNeeded (λ taken other. Meets (numeral wanted) (numeral allowed) taken other (numeral image)) earlier result }
{
    let used = earlier.used;
    let found = earlier.found;
    let shared = common(image, allowed);
    if is_empty(common(image, wanted)) {
        return earlier;
    }
    if few < count(shared) {
        return earlier;
    }
    if !is_empty(common(shared, used)) {
        return earlier;
    }
    if SET_WIDTH <= found {
        return earlier;
    }
    Disjoint {
        used: union(used, shared),
        found: found + 1,
    }
}

// The images one after the other.
fn with_images(
    earlier: Disjoint,
    images: &[BitSet],
    wanted: BitSet,
    allowed: BitSet,
    few: usize,
) -> Disjoint
    ensures { StillNeeded (MeetsEach (numeral wanted) (numeral allowed) (length images.now) (numerals images.now)) earlier result }
{
    let mut more = earlier;
    for image in images {
        more = with_image(more, *image, wanted, allowed, few);
    }
    more
}

// The sums of two of them each.
fn with_pairs(
    earlier: Disjoint,
    images: &[BitSet],
    wanted: BitSet,
    allowed: BitSet,
    few: usize,
) -> Disjoint
    ensures { StillNeeded (MeetsEachSum (numeral wanted) (numeral allowed) (length images.now) (numerals images.now)) earlier result }
{
    let mut more = earlier;
    for (i, image) in images.iter().enumerate() {
        for other in &images[..i] {
            more = with_image(more, sum(*image, *other), wanted, allowed, few);
        }
    }
    more
}

// So many symbols at least are to be taken besides, for any set that is enough.
fn symbols_needed(images: &[BitSet], wanted: BitSet, allowed: BitSet) -> usize
    requires { OfWidth wanted × OfWidth allowed }
    ensures { NeededBesides (length images.now) (numerals images.now) (numeral wanted) (numeral allowed) result }
{
    let none = Disjoint {
        used: empty(),
        found: 0,
    };
    let alone = with_images(none, images, wanted, allowed, 1);
    let pairs = with_pairs(alone, images, wanted, allowed, 2);
    let all = with_images(pairs, images, wanted, allowed, SET_WIDTH);
    all.found
}

// The images that the search begins with: those of the patterns' parts on the known and the wanted symbols, spread over the known ones. Empty ones are left
// out, so that there are no more than these symbols' rows have rank.
fn first_images(rows: &[BitSet], data_symbols: usize, known: BitSet, wanted: BitSet) -> SetList
    requires { (length rows.now ≤ set_width) × (data_symbols ≤ set_width) × Below data_symbols (numerals rows.now) }
    ensures { Images (survivors (either (numeral known) (numeral wanted)) (numerals rows.now)) (has 0) (length result.items) (numerals result.items) }
{
    let involved = surviving_rows(rows, union(known, wanted));
    let columns = columns(involved.as_slice(), data_symbols);
    let mut array = columns.array();
    let images = &mut array[..data_symbols];
    spread(images, known);
    nonempty_sets(images)
}

// What a search found, and how many branchings are left of those that it might make.
#[derive(Clone, Copy)]
struct Searching {
    best: BitSet,
    branchings: usize,
}

// The smaller of `best` and the smallest set that is enough, has what is taken, and otherwise only what may be taken. The images are spread where they are.
fn search(
    images: &mut [BitSet],
    wanted: BitSet,
    taken: BitSet,
    allowed: BitSet,
    best: BitSet,
    branchings: usize,
) -> Searching
    requires { (length images.old ≤ set_width) × OfWidth wanted × OfWidth taken × OfWidth allowed × OfWidth best }
    ensures small { OfWidth result.best }
    ensures fewer { result.branchings ≤ branchings }
    ensures counted { branchings < result.branchings + 2 ^ size (has (numeral allowed)) }
    ensures searched { (rows : List ℕ) → Images rows (has (numeral taken)) (length images.old) (numerals images.old)
        → Searched rows (numeral wanted) (numeral taken) (numeral allowed) (numeral best) (numeral result.best) result.branchings }
{
    spread(images, allowed);
    let Some(at) = next_image(images, wanted, allowed) else {
        if count(taken) < count(best) {
            return Searching {
                best: taken,
                branchings,
            };
        }
        return Searching { best, branchings };
    };
    let image = images[at];
    let element = lowest_from(common(image, allowed), 0);
    if SET_WIDTH <= element {
        return Searching { best, branchings };
    }
    if count(best) <= count(taken) + 1 {
        return Searching { best, branchings };
    }
    if count(best) - count(taken) <= symbols_needed(images, wanted, allowed) {
        return Searching { best, branchings };
    }
    if branchings == 0 {
        return Searching { best, branchings };
    }
    let left = sum(allowed, with(empty(), element));
    let mut copies = empty_sets();
    let reduced = &mut copies[..images.len()];
    reduced.copy_from_slice(images);
    reduce(reduced, image, element);
    let more = with(taken, element);
    let one = search(reduced, wanted, more, left, best, branchings - 1);
    search(images, wanted, taken, left, one.best, one.branchings)
}

// Of the known symbols a set that is enough for the wanted ones, all known symbols where these are not enough. It is a smallest one where the branchings are as
// many as the known symbols have subsets; the search makes no more.
pub fn fewest(
    rows: &[BitSet],
    data_symbols: usize,
    known: BitSet,
    wanted: BitSet,
    branchings: usize,
) -> BitSet
    requires { (length rows.now ≤ set_width) × (data_symbols ≤ set_width) × Below data_symbols (numerals rows.now)
        × PlacesBelow (length rows.now) (has (numeral known)) × PlacesBelow (length rows.now) (has (numeral wanted)) }
    ensures { Fewest (numerals rows.now) (has (numeral known)) (has (numeral wanted)) branchings (has (numeral result)) }
{
    let array = below(rows.len());
    let survivors = common(known, array);
    let targets = common(wanted, array);
    let images = first_images(rows, data_symbols, survivors, targets);
    let count = images.len();
    let mut array = images.array();
    let found = search(
        &mut array[..count],
        targets,
        empty(),
        survivors,
        survivors,
        branchings,
    );
    found.best
}
