// The rows of a code sheet behind its head of 6 bytes, read and written.
ghost use Rattle.std.specs.Prelude.{◌≡◌, ◌+◌, ◌≤◌, ◌<◌, length, take, drop};
ghost use Rattle.bits.specs.Numerals.{set_width, numeral, numerals};
ghost use Rattle.codes.specs.Codes.{rows_of};
ghost use Rattle.sheets.specs.Buffers.{from_place};
ghost use Rattle.sheets.specs.Bytes.{low_first, low_bytes};
ghost use Rattle.code_sheets.specs.CodeSheets.{row_bytes, sheet_length, row_in};

use bits::{BitSet, BitSets, byte_of, empty_sets, of_word};

// The length of a sheet of so many symbols. It is also where the row of the next symbol stands in a longer sheet.
pub fn sheet_length(symbols: usize) -> usize
    requires { symbols < 256 }
    ensures { result ≡ sheet_length symbols }
{
    6 + 8 * symbols
}

fn wide(byte: u8) -> u64
    ensures { (result ≡ byte) × (result < 256) }
{
    byte as u64
}

// A number of 4 bytes, low byte first.
fn half_row_at(sheet: &[u8], at: usize) -> u64
    requires { at + 4 ≤ length sheet.now }
    ensures { (result ≡ low_first (take 4 (drop at sheet.now))) × (result < 4294967296) }
{
    wide(sheet[at])
        + 256 * wide(sheet[at + 1])
        + 65536 * wide(sheet[at + 2])
        + 16777216 * wide(sheet[at + 3])
}

// A row of 8 bytes, low byte first.
fn row_at(sheet: &[u8], at: usize) -> BitSet
    requires { at + 8 ≤ length sheet.now }
    ensures { numeral result ≡ low_first (take 8 (drop at sheet.now)) }
{
    let low = half_row_at(sheet, at);
    let high = half_row_at(sheet, at + 4);
    of_word(low + 4294967296 * high)
}

// The rows of the sheet's symbols.
pub fn read_rows(sheet: &[u8], symbols: usize) -> BitSets
    requires { (symbols ≤ set_width) × (sheet_length symbols ≤ length sheet.now) }
    ensures { numerals result ≡ rows_of symbols (row_in sheet.now) }
{
    let mut rows = empty_sets();
    for s in 0..symbols {
        rows[s] = row_at(sheet, sheet_length(s));
    }
    rows
}

// A row's 8 bytes, low byte first.
fn write_row(row: BitSet, buffer: &mut [u8], at: usize)
    requires { at + 8 ≤ length buffer.old }
    ensures { buffer.new ≡ from_place at (low_bytes 8 (numeral row)) buffer.old }
{
    for i in 0..8 {
        buffer[at + i] = byte_of(row, i);
    }
}

// The rows of 8 bytes behind the head.
pub fn write_rows(rows: &[BitSet], buffer: &mut [u8])
    requires { (length rows.now ≤ set_width) × (sheet_length (length rows.now) ≤ length buffer.old) }
    ensures { buffer.new ≡ from_place 6 (row_bytes (numerals rows.now)) buffer.old }
{
    for (symbol, row) in rows.iter().enumerate() {
        write_row(*row, buffer, sheet_length(symbol));
    }
}
