// Which states a disk can be in: refusal 42.
ghost use Rattle.std.specs.Prelude.{◌≡◌, ◌≤◌};
ghost use Rattle.prices.specs.Prices.{is_price, is_factor, is_state, is_away, first_bad_state};

use crate::{DiskState, DiskStates};

// Whether this is a price: 0 to 1,000,000.
fn is_price(x: f64) -> bool
    ensures { result ≡ is_price x }
{
    0.0 <= x && x <= 1000000.0
}

// Whether this is a factor: 1 to 64.
fn is_factor(x: f64) -> bool
    ensures { result ≡ is_factor x }
{
    1.0 <= x && x <= 64.0
}

// Whether a disk can be in this state.
fn is_state(state: DiskState) -> bool
    ensures { result ≡ is_state state }
{
    match state {
        DiskState::Away => true,
        DiskState::Idle { price } => is_price(price),
        DiskState::Busy { price, factor } => is_price(price) && is_factor(factor),
    }
}

// Whether a disk in this state is away.
pub fn is_away(state: DiskState) -> bool
    ensures { result ≡ is_away state }
{
    matches!(state, DiskState::Away)
}

// The lowest of so many disks that can't be in its state; their number where there is no such disk. States from there on are not looked at.
pub fn first_bad_state(states: &DiskStates, disks: usize) -> usize
    requires { disks ≤ 64 }
    ensures { result ≡ first_bad_state states.now disks }
{
    for disk in 0..disks {
        if !is_state(states[disk]) {
            return disk;
        }
    }
    disks
}
