// The bytes of a code's sheet.
ghost use Rattle.std.specs.Prelude.{◌≡◌, ◌≤◌, length, take};
ghost use Rattle.codes.specs.Codes.{linear};
ghost use Rattle.sheets.specs.Buffers.{at_front};
ghost use Rattle.code_sheets.specs.CodeSheets.{code_sheet};

use crate::rows::write_rows;
use codes::Code;

// One byte 4, then edition 1, n, r, K, one byte each; one byte N.
fn write_head(code: &Code, buffer: &mut [u8])
    requires { 6 ≤ length buffer.old }
    ensures { buffer.new ≡ at_front (take 6 (code_sheet (linear code.now))) buffer.old }
{
    let layout = code.layout;
    buffer[0] = 4;
    buffer[1] = 1;
    buffer[2] = layout.disks as u8;
    buffer[3] = layout.height as u8;
    buffer[4] = code.data_symbols as u8;
    buffer[5] = layout.symbols() as u8;
}

// The sheet of a code at the front of the buffer; bytes behind it stay.
pub fn write_code(code: &Code, buffer: &mut [u8])
    requires { length (code_sheet (linear code.now)) ≤ length buffer.old }
    ensures { buffer.new ≡ at_front (code_sheet (linear code.now)) buffer.old }
{
    write_head(code, buffer);
    write_rows(code.matrix(), buffer);
}
