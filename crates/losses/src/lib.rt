// What a plan is judged by: the symbols that survive and those that are wanted, as sets.
#![tactic(auto)]

ghost use Rattle.std.specs.Prelude.{◌≡◌, cond, ℕ, ◌^◌, ◌<◌, eqb, length, get_or};
ghost use Rattle.codes.specs.Layouts.{symbols_of, disk_of};
ghost use Rattle.codes.specs.Codes.{LayoutWithin};
ghost use Rattle.bits.specs.BitSets.{has};
ghost use Rattle.bits.specs.Numerals.{set_width, numeral};
ghost use Rattle.lists.specs.Lists.{listed};
ghost use Rattle.plans.specs.Judgement.{lost, survives, wanted_of, origin_of};

use bits::{BitSet, below, empty, sum, union};
use codes::Layout;
use lists::set_of;
use sheets::byte_at;

pub mod bounds; // bounds.rt: how many entries a list may have

// Of an array's symbols those that survive and those that are wanted; places of wanted symbols count from `origin`.
#[derive(Clone, Copy)]
pub struct Loss {
    pub symbols: usize,
    pub survivors: BitSet,
    pub wanted: BitSet,
    pub origin: usize,
}

// The symbols of a disk.
pub fn strip_of(layout: Layout, disk: usize) -> BitSet
    requires { LayoutWithin layout × (disk < layout.disks) }
    ensures strip { (s : ℕ) → has (numeral result) s ≡ eqb (disk_of layout s) disk }
    ensures small { numeral result < 2 ^ set_width }
{
    let first = layout.first_symbol(disk);
    let end = first + layout.height_of(disk);
    sum(below(end), below(first))
}

// The symbols of the failed disks.
pub fn lost_symbols(layout: Layout, disks: &[u8]) -> BitSet
    requires { LayoutWithin layout × ((i : ℕ) → i < length disks.now → get_or disks.now i 0 < layout.disks) }
    ensures lost { (s : ℕ) → has (numeral result) s ≡ lost layout disks.now s }
    ensures small { numeral result < 2 ^ set_width }
{
    let mut gone = empty();
    for disk in disks {
        gone = union(gone, strip_of(layout, usize::from(*disk)));
    }
    gone
}

// Where places count from: in editions 1 and 2 they are rows of the failed disk, in edition 3 symbol numbers.
fn origin_of(layout: Layout, disks: &[u8], edition: usize) -> usize
    requires { LayoutWithin layout × (get_or disks.now 0 0 < layout.disks) }
    ensures { result ≡ origin_of layout disks.now edition }
{
    if edition == 3 {
        return 0;
    }
    layout.first_symbol(byte_at(disks, 0))
}

// The listed symbols, and without a list all lost ones.
fn wanted_symbols(gone: BitSet, list: &[u8]) -> BitSet
    requires { (i : ℕ) → i < length list.now → get_or list.now i 0 < set_width }
    ensures { (s : ℕ) → has (numeral result) s ≡ cond (eqb (length list.now) 0) (has (numeral gone) s) (listed list.now s) }
{
    if list.is_empty() {
        return gone;
    }
    set_of(list)
}

// The loss of these symbols, those of the failed disks, as a plan sees it.
pub fn loss_of(layout: Layout, disks: &[u8], gone: BitSet, edition: usize, list: &[u8]) -> Loss
    requires { LayoutWithin layout × (get_or disks.now 0 0 < layout.disks) × ((s : ℕ) → has (numeral gone) s ≡ lost layout disks.now s) × ((i : ℕ) → i < length list.now → get_or list.now i 0 < set_width) }
    ensures symbols { result.symbols ≡ symbols_of layout }
    ensures survivors { (s : ℕ) → has (numeral result.survivors) s ≡ survives layout disks.now s }
    ensures wanted { (s : ℕ) → has (numeral result.wanted) s ≡ wanted_of layout disks.now list.now s }
    ensures origin { result.origin ≡ origin_of layout disks.now edition }
{
    let symbols = layout.symbols();
    let survivors = sum(below(symbols), gone);
    let wanted = wanted_symbols(gone, list);
    let origin = origin_of(layout, disks, edition);
    Loss {
        symbols,
        survivors,
        wanted,
        origin,
    }
}
