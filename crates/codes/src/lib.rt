// A code by value, and its layout: which symbols lie on which disk.
#![tactic(auto)]

ghost use Rattle.std.specs.Prelude.{◌≡◌, ◌*◌, ◌≤◌, ◌<◌, eqb};
ghost use Rattle.codes.specs.Lengths.{symbol_length_faults, stripe_faults};
ghost use Rattle.refusals.specs.Orders.{outcome, first_of};
ghost use Rattle.bits.specs.Numerals.{numerals};
ghost use Rattle.codes.specs.LinearCodes.{WithinLimits, matrix};
ghost use Rattle.codes.specs.Layouts.{symbols_of, first_symbol, height_of, disk_of, on_disk};

use bits::{BitSet, BitSets};
use refusals::{Refusal, Verdict, refuse_if};

// The disks of an array and the symbols on each. Symbols are numbered disk after disk.
#[derive(Clone, Copy, Debug, PartialEq, Eq)]
pub struct Layout {
    pub disks: usize,
    pub height: usize,
}

// A code within the limits, held whole: row s of the generator matrix is rows[s]; rows behind the last symbol are empty.
#[derive(Clone, Copy)]
pub struct Code {
    pub layout: Layout,
    pub data_symbols: usize,
    pub rows: BitSets,
    ghost within: { WithinLimits (record { layout = layout; data_symbols = data_symbols; rows = numerals rows }) },
}

impl Layout {
    // N, the number of symbols in all.
    pub fn symbols(self) -> usize
        requires { (self.disks ≤ 255) × (self.height ≤ 255) }
        ensures { result ≡ symbols_of self }
    {
        self.disks * self.height
    }

    // The number of the first symbol on a disk.
    pub fn first_symbol(self, disk: usize) -> usize
        requires { (disk ≤ self.disks) × (self.disks ≤ 255) × (self.height ≤ 255) }
        ensures { result ≡ first_symbol self disk }
    {
        disk * self.height
    }

    // How many symbols a disk has.
    pub fn height_of(self, disk: usize) -> usize
        ensures { result ≡ height_of self disk }
    {
        self.height
    }

    // The disk on which a symbol lies.
    pub fn disk_of(self, symbol: usize) -> usize
        requires { 0 < self.height }
        ensures { result ≡ disk_of self symbol }
    {
        symbol / self.height
    }

    // Whether a symbol lies on a disk.
    pub fn on_disk(self, disk: usize, symbol: usize) -> bool
        requires { (disk ≤ self.disks) × (self.disks ≤ 255) × (self.height ≤ 255) }
        ensures { result ≡ on_disk self disk symbol }
    {
        let first = self.first_symbol(disk);
        first <= symbol && symbol < first + self.height_of(disk)
    }
}

// Whether so many bytes are exactly `count` symbols of `size` bytes each. No product is formed: each number may be any.
pub fn is_length(bytes: usize, count: usize, size: usize) -> bool
    ensures { result ≡ eqb bytes (count * size) }
{
    if size == 0 {
        return bytes == 0;
    }
    bytes % size == 0 && bytes / size == count
}

impl Code {
    ghost use Rattle.codes.specs.Codes.{linear};

    // The rows of the symbols: the generator matrix.
    pub fn matrix(&self) -> &[BitSet]
        ensures { numerals result.now ≡ matrix (linear self.now) }
    {
        &self.rows[..self.layout.symbols()]
    }
}

// 31.
pub fn symbol_length_test(size: usize) -> Verdict
    ensures { outcome result ≡ first_of (symbol_length_faults size) }
{
    refuse_if(size == 0, Refusal::SymbolLength)?;
    refuse_if(65536 < size, Refusal::SymbolLength)
}

// 31, 32: is this a stripe of so many symbols of `size` bytes?
pub fn stripe_test(symbols: usize, size: usize, stripe_bytes: usize) -> Verdict
    ensures { outcome result ≡ first_of (stripe_faults symbols size stripe_bytes) }
{
    let whole = is_length(stripe_bytes, symbols, size);
    symbol_length_test(size)?;
    refuse_if(!whole, Refusal::StripeLength)
}
