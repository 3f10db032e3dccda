// One strip: a part of the caller's own stripe, and the twin call that says why there is none.
#![tactic(auto)]

ghost use Rattle.std.specs.Prelude.{◌≡◌, ◌≤◌, ◌<◌, length};
ghost use Rattle.refusals.specs.Orders.{Fine, outcome, first_of};
ghost use Rattle.strips.specs.Strips.{strip_faults, strip_verdict, strip_shown};
ghost use Rattle.strips.specs.Places.{nowhere, strip_place, Shows, beginning};

use code_sheets::read_code;
use codes::{Layout, stripe_test};
use refusals::{Refusal, Verdict, refuse_if};

// Where a part lies: in the spare strip or in the stripe, from which byte on, and how many bytes.
#[derive(Clone, Copy, Debug, PartialEq, Eq)]
pub struct Part {
    pub in_spare: bool,
    pub start: usize,
    pub length: usize,
}

// The part of no bytes.
pub fn nowhere() -> Part
    ensures { result ≡ nowhere }
{
    Part {
        in_spare: false,
        start: 0,
        length: 0,
    }
}

// 7, 31, 32.
pub fn strip_test(layout: Layout, disk: usize, size: usize, bytes: usize) -> Verdict
    requires { (layout.disks ≤ 255) × (layout.height ≤ 255) }
    ensures { outcome result ≡ first_of (strip_faults layout disk size bytes) }
{
    refuse_if(layout.disks <= disk, Refusal::NoSuchDisk)?;
    stripe_test(layout.symbols(), size, bytes)
}

// Twin of `strip`: why it shows nothing, or that it shows the strip.
pub fn strip_verdict(sheet: &[u8], disk: usize, size: usize, stripe: &[u8]) -> Verdict
    ensures answer { outcome result ≡ strip_verdict sheet.now disk size (length stripe.now) }
{
    let code = read_code(sheet)?;
    strip_test(code.layout, disk, size, stripe.len())
}

// Where the strip of a disk lies in the stripe; a part of no bytes where `strip_verdict` refuses, and only there.
pub fn strip_place(sheet: &[u8], disk: usize, size: usize, stripe: &[u8]) -> Part
    ensures answer { result ≡ strip_place sheet.now disk size (length stripe.now) }
    ensures shows { Shows result stripe.now (strip_shown sheet.now disk size stripe.now) (strip_verdict sheet.now disk size (length stripe.now)) }
{
    let Ok(code) = read_code(sheet) else {
        return nowhere();
    };
    let Ok(()) = strip_test(code.layout, disk, size, stripe.len()) else {
        return nowhere();
    };
    let layout = code.layout;
    Part {
        in_spare: false,
        start: layout.first_symbol(disk) * size,
        length: layout.height_of(disk) * size,
    }
}

// The strip of a disk, as a part of the stripe; the empty part where `strip_verdict` refuses, and only there.
pub fn strip<'a>(sheet: &[u8], disk: usize, size: usize, stripe: &'a [u8]) -> &'a [u8]
    ensures answer { result.now ≡ strip_shown sheet.now disk size stripe.now }
    ensures shown { strip_verdict sheet.now disk size (length stripe.now) ≡ Fine → 0 < length result.now }
    ensures own { result.ref_ptr ≡ beginning (strip_place sheet.now disk size (length stripe.now)) stripe.entry.ref_ptr stripe.entry.ref_ptr }
{
    let part = strip_place(sheet, disk, size, stripe);
    let start = part.start;
    let end = start + part.length;
    &stripe[start..end]
}
