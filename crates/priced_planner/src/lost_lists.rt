// The lists of a priced plan's sheet: the lost disks, away ones among them, and the wanted symbols one by one.
ghost use Rattle.std.specs.Prelude.{◌≡◌, ℕ, ◌≤◌, ◌<◌, length, get_or};
ghost use Rattle.bits.specs.BitSets.{has};
ghost use Rattle.bits.specs.Lists.{symbols_in};
ghost use Rattle.bits.specs.Numerals.{set_width, numeral};
ghost use Rattle.priced_planner.specs.PricedPlanner.{is_lost};

use bits::{BitSet, SET_WIDTH, has, with};
use fixed_lists::FixedList;
use lists::set_of;
use prices::DiskStates;
use prices::states::is_away;

// The numbers of a set, as bytes.
pub type ByteList = FixedList<u8, SET_WIDTH>;

// The elements of a set that are below a bound, rising.
pub fn entries_of(set: BitSet, bound: usize) -> ByteList
    requires { bound ≤ set_width }
    ensures { result.items ≡ symbols_in (has (numeral set)) 0 bound }
{
    let mut entries = ByteList::new();
    for number in 0..bound {
        if has(set, number) {
            entries.push(number as u8);
        }
    }
    entries
}

// Of so many disks those that are lost: the ones asked about, and the ones away.
pub fn lost_disks(asked: &[u8], states: &DiskStates, disks: usize) -> BitSet
    requires { (disks ≤ 64) × ((i : ℕ) → i < length asked.now → get_or asked.now i 0 < disks) }
    ensures { (d : ℕ) → has (numeral result) d ≡ is_lost asked.now states.now disks d }
{
    let mut lost = set_of(asked);
    for disk in 0..disks {
        if is_away(states[disk]) {
            lost = with(lost, disk);
        }
    }
    lost
}
