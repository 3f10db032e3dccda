// The code sheet, read and written: refusals 1 to 6 in their order, and the code by value.
#![tactic(auto)]

ghost use Rattle.std.specs.Prelude.{◌≡◌, ◌<◌, IfOk};
ghost use Rattle.codes.specs.Codes.{WithinLimits, linear};
ghost use Rattle.refusals.specs.Orders.{outcome, first_of};
ghost use Rattle.code_sheets.specs.CodeReading.{head_faults, reading, as_read};

use code_limits::{limit_test, stray_test};
use codes::{Code, Layout};
use refusals::{Refusal, Verdict, refuse_if};
use sheets::byte_at;

pub mod rows; // rows.rt: the rows behind the head
pub mod write; // write.rt: the bytes of a code's sheet

use rows::{read_rows, sheet_length};

// The order for a code sheet up to its rows.
fn head_test(
    sheet_bytes: usize,
    count: usize,
    edition: usize,
    disks: usize,
    height: usize,
    data_symbols: usize,
    symbols: usize,
) -> Verdict
    requires { (disks < 256) × (height < 256) × (symbols < 256) }
    ensures { outcome result ≡ first_of (head_faults sheet_bytes count edition disks height data_symbols symbols) }
{
    refuse_if(sheet_bytes < 6, Refusal::CodeSheetTooShort)?;
    refuse_if(count != 4, Refusal::CodeSheetCount)?;
    refuse_if(edition != 1, Refusal::CodeSheetEdition)?;
    limit_test(disks, height, data_symbols)?;
    refuse_if(symbols != disks * height, Refusal::CodeSheetCount)?;
    let whole = sheet_length(symbols);
    refuse_if(sheet_bytes < whole, Refusal::CodeSheetTooShort)?;
    refuse_if(whole < sheet_bytes, Refusal::CodeSheetTooLong)
}

// Reads a code sheet, of any bytes and any length: its code, or the first refusal in document 01's order.
pub fn read_code(sheet: &[u8]) -> Result<Code, Refusal>
    ensures answer { as_read result ≡ reading sheet.now }
    ensures limits { IfOk result (λ code. WithinLimits (linear code)) }
{
    let count = byte_at(sheet, 0);
    let edition = byte_at(sheet, 1);
    let disks = byte_at(sheet, 2);
    let height = byte_at(sheet, 3);
    let data_symbols = byte_at(sheet, 4);
    let symbols = byte_at(sheet, 5);
    head_test(
        sheet.len(),
        count,
        edition,
        disks,
        height,
        data_symbols,
        symbols,
    )?;
    let rows = read_rows(sheet, symbols);
    stray_test(&rows[..symbols], data_symbols)?;
    Ok(Code {
        layout: Layout { disks, height },
        data_symbols,
        rows,
    })
}
