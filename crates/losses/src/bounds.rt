// How many entries the lists of a plan sheet may have, by its edition.
ghost use Rattle.std.specs.Prelude.{◌≡◌, cond, eqb};
ghost use Rattle.bits.specs.BitSets.{count};
ghost use Rattle.bits.specs.Numerals.{numeral};
ghost use Rattle.plans.specs.Judgement.{most_failed, least_wanted};

use bits::{BitSet, count};

// Edition 3 lists at most all disks; editions 1 and 2 have one.
pub fn most_failed(edition: usize, disks: usize) -> usize
    ensures { result ≡ most_failed edition disks }
{
    if edition == 3 {
        return disks;
    }
    1
}

// Edition 2 lists at least one symbol.
pub fn least_wanted(edition: usize) -> usize
    ensures { result ≡ least_wanted edition }
{
    if edition == 2 {
        return 1;
    }
    0
}

// Editions 2 and 3 list at most all lost symbols, edition 1 none.
pub fn most_wanted(edition: usize, gone: BitSet) -> usize
    ensures { result ≡ cond (eqb edition 1) 0 (count (numeral gone)) }
{
    if edition == 1 {
        return 0;
    }
    count(gone)
}
