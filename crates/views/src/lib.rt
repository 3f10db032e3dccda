// Look up: a part of one of the caller's own slices, and the twin call that says why there is none. One strip stands in `strips`, and is
// passed on.
#![tactic(auto)]

ghost use Rattle.std.specs.Prelude.{◌≡◌, ◌≤◌, ◌<◌, length};
ghost use Rattle.refusals.specs.Orders.{Fine, outcome, first_of};
ghost use Rattle.strips.specs.Places.{slice_of, Shows, beginning};
ghost use Rattle.views.specs.Views.{look_up_faults, look_up_verdict, symbol_shown};
ghost use Rattle.views.specs.Places.{symbol_place};

use code_sheets::read_code;
use codes::{Code, is_length};
use refusals::{Refusal, Verdict, refuse_if};
pub use strips::{Part, strip, strip_place, strip_verdict};
use strips::{nowhere, strip_test};

// 7, 31, 32, 35, 38.
fn look_up_test(
    code: &Code,
    disk: usize,
    size: usize,
    bytes: usize,
    spare: usize,
    symbol: usize,
) -> Verdict
    ensures { outcome result ≡ first_of (look_up_faults code.now.layout disk size bytes spare symbol) }
{
    let layout = code.layout;
    let whole_spare = is_length(spare, layout.height_of(disk), size);
    strip_test(layout, disk, size, bytes)?;
    refuse_if(!whole_spare, Refusal::SpareStripLength)?;
    refuse_if(layout.symbols() <= symbol, Refusal::NoSuchSymbol)
}

// Twin of `look_up`: why it shows nothing, or that it shows the symbol.
pub fn look_up_verdict(
    sheet: &[u8],
    disk: usize,
    size: usize,
    stripe: &[u8],
    spare: &[u8],
    symbol: usize,
) -> Verdict
    ensures answer { outcome result ≡ look_up_verdict sheet.now disk size (length stripe.now) (length spare.now) symbol }
{
    let code = read_code(sheet)?;
    look_up_test(&code, disk, size, stripe.len(), spare.len(), symbol)
}

// Where a symbol is shown: one that survives in the stripe, a lost one in the spare strip; a part of no bytes where
// `look_up_verdict` refuses, and only there.
pub fn symbol_place(
    sheet: &[u8],
    disk: usize,
    size: usize,
    stripe: &[u8],
    spare: &[u8],
    symbol: usize,
) -> Part
    ensures answer { result ≡ symbol_place sheet.now disk size (length stripe.now) (length spare.now) symbol }
    ensures shows { Shows result (slice_of result stripe.now spare.now) (symbol_shown sheet.now disk size stripe.now spare.now symbol) (look_up_verdict sheet.now disk size (length stripe.now) (length spare.now) symbol) }
{
    let Ok(code) = read_code(sheet) else {
        return nowhere();
    };
    let Ok(()) = look_up_test(&code, disk, size, stripe.len(), spare.len(), symbol) else {
        return nowhere();
    };
    let layout = code.layout;
    if layout.disk_of(symbol) == disk {
        let row = symbol - layout.first_symbol(disk);
        return Part {
            in_spare: true,
            start: row * size,
            length: size,
        };
    }
    Part {
        in_spare: false,
        start: symbol * size,
        length: size,
    }
}

// A symbol: one that survives from the stripe, a lost one from the spare strip; the empty part where `look_up_verdict`
// refuses, and only there.
pub fn look_up<'a>(
    sheet: &[u8],
    disk: usize,
    size: usize,
    stripe: &'a [u8],
    spare: &'a [u8],
    symbol: usize,
) -> &'a [u8]
    ensures answer { result.now ≡ symbol_shown sheet.now disk size stripe.now spare.now symbol }
    ensures shown { look_up_verdict sheet.now disk size (length stripe.now) (length spare.now) symbol ≡ Fine → 0 < length result.now }
    ensures own { result.ref_ptr ≡ beginning (symbol_place sheet.now disk size (length stripe.now) (length spare.now) symbol) stripe.entry.ref_ptr spare.entry.ref_ptr }
{
    let part = symbol_place(sheet, disk, size, stripe, spare, symbol);
    let start = part.start;
    if part.in_spare {
        return &spare[start..start + part.length];
    }
    &stripe[start..start + part.length]
}
