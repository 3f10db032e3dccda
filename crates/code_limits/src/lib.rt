// What a code keeps, whatever sheet it stands on: the limits of an array, and rows without a bit at K or above.
#![tactic(auto)]

ghost use Rattle.std.specs.Prelude.{◌≡◌, [], ◌∷◌, ◌≤◌, ◌<◌, length};
ghost use Rattle.bits.specs.Numerals.{set_width, numerals};
ghost use Rattle.refusals.specs.Orders.{outcome, first_of};
ghost use Rattle.code_limits.specs.CodeLimits.{limit_faults, stray_fault};

use bits::{BitSet, has, lowest_from};
use refusals::{Refusal, Verdict, refuse_if};

// The limits of an array.
pub fn limit_test(disks: usize, height: usize, data_symbols: usize) -> Verdict
    requires { (disks < 256) × (height < 256) }
    ensures { outcome result ≡ first_of (limit_faults disks height data_symbols) }
{
    refuse_if(disks < 2, Refusal::CodeBeyondLimit)?;
    refuse_if(64 < disks, Refusal::CodeBeyondLimit)?;
    refuse_if(height < 1, Refusal::CodeBeyondLimit)?;
    refuse_if(32 < height, Refusal::CodeBeyondLimit)?;
    refuse_if(64 < disks * height, Refusal::CodeBeyondLimit)?;
    refuse_if(data_symbols < 1, Refusal::CodeBeyondLimit)?;
    refuse_if(64 < data_symbols, Refusal::CodeBeyondLimit)
}

// 6 for the first stray bit, at row times 64 plus bit.
pub fn stray_test(rows: &[BitSet], data_symbols: usize) -> Verdict
    requires { (length rows.now ≤ set_width) × (data_symbols ≤ 64) }
    ensures { outcome result ≡ first_of (stray_fault (numerals rows.now) (length rows.now) data_symbols ∷ []) }
{
    let mut stray = None;
    'search: for (row, bits) in rows.iter().enumerate() {
        for bit in lowest_from(*bits, data_symbols)..64 {
            if has(*bits, bit) {
                stray = Some(row * 64 + bit);
                break 'search;
            }
        }
    }
    match stray {
        Some(place) => Err(Refusal::StrayBit { place }),
        None => Ok(()),
    }
}
