// Encoding: the generator-matrix product, symbol by symbol.
#![tactic(auto)]

ghost use Rattle.std.specs.Prelude.{◌≡◌, ◌*◌, ◌≤◌, length};
ghost use Rattle.bits.specs.Numerals.{set_width, numerals};
ghost use Rattle.gf2.specs.Stripes.{encoding};
ghost use Rattle.refusals.specs.Orders.{outcome, first_of};
ghost use Rattle.encoding.specs.Encoding.{encode_faults, encode_verdict, encoded_stripe};

use bits::BitSet;
use code_sheets::read_code;
use codes::{is_length, symbol_length_test};
use refusals::{Refusal, Verdict, refuse_if};
use row_passes::encode_symbol;

// Every symbol, one after the other.
fn encode_symbols(
    rows: &[BitSet],
    data_symbols: usize,
    size: usize,
    contents: &[u8],
    stripe: &mut [u8],
)
    requires rows_few { length rows.now ≤ set_width }
    requires data_few { data_symbols ≤ set_width }
    requires size_small { size ≤ 65536 }
    requires data_whole { length contents.now ≡ data_symbols * size }
    requires stripe_whole { length stripe.old ≡ length rows.now * size }
    ensures { stripe.new ≡ encoding size data_symbols (numerals rows.now) contents.now }
{
    for (s, row) in rows.iter().enumerate() {
        let symbol = &mut stripe[s * size..(s + 1) * size];
        encode_symbol(*row, data_symbols, size, contents, symbol);
    }
}

// The order 31, 33, 32.
fn encode_test(
    symbols: usize,
    data_symbols: usize,
    size: usize,
    data_bytes: usize,
    stripe_bytes: usize,
) -> Verdict
    ensures { outcome result ≡ first_of (encode_faults symbols data_symbols size data_bytes stripe_bytes) }
{
    symbol_length_test(size)?;
    refuse_if(
        !is_length(data_bytes, data_symbols, size),
        Refusal::DataLength,
    )?;
    refuse_if(
        !is_length(stripe_bytes, symbols, size),
        Refusal::StripeLength,
    )
}

// Encodes data symbols of `size` bytes each into the whole stripe. A refusal changes no byte.
pub fn encode(sheet: &[u8], size: usize, contents: &[u8], stripe: &mut [u8]) -> Verdict
    ensures answer { outcome result ≡ encode_verdict sheet.now size (length contents.now) (length stripe.old) }
    ensures stripe { stripe.new ≡ encoded_stripe sheet.now size contents.now stripe.old }
{
    let code = read_code(sheet)?;
    let data_symbols = code.data_symbols;
    encode_test(
        code.layout.symbols(),
        data_symbols,
        size,
        contents.len(),
        stripe.len(),
    )?;
    encode_symbols(code.matrix(), data_symbols, size, contents, stripe);
    Ok(())
}
