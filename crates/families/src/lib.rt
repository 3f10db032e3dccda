// A family's code sheet, written into a lent buffer.
#![tactic(auto)]

ghost use Rattle.std.specs.Prelude.{◌≡◌, true, length};
ghost use Rattle.family_codes.specs.Families.{listed};
ghost use Rattle.families.specs.FamilySheets.{family_sheet, as_written, family_answer, family_buffer, ReadsBack};

use code_sheets::rows::sheet_length;
use code_sheets::write::write_code;
pub use family_codes::Family;
use family_codes::listed::{is_listed, layout_of};
use family_matrices::code_of;
use refusals::{Refusal, refuse_if};

// The length of the sheet to be written.
fn sheet_length_of(family: Family) -> usize
    requires { listed family ≡ true }
    ensures { result ≡ length (family_sheet family) }
{
    let layout = layout_of(family);
    sheet_length(layout.symbols())
}

// Writes the family's code sheet at the front of the buffer and answers its length; bytes behind it stay. The refusals are 36, then 37: only the
// sheet of a listed family has a length.
pub fn write_family(family: Family, buffer: &mut [u8]) -> Result<usize, Refusal>
    ensures answer { as_written result ≡ family_answer family (length buffer.old) }
    ensures buffer { buffer.new ≡ family_buffer family buffer.old }
    ensures read_back { ReadsBack (as_written result) family buffer.new }
{
    refuse_if(!is_listed(family), Refusal::NotInFamily)?;
    let sheet_bytes = sheet_length_of(family);
    refuse_if(buffer.len() < sheet_bytes, Refusal::SheetBufferTooShort)?;
    write_code(&code_of(family), buffer);
    Ok(sheet_bytes)
}
