// What the desk answers: the parts of its input, the check, and the lines in a buffer.
#![tactic(auto)]

ghost use Rattle.std.specs.Prelude.{◌≡◌, ◌≤◌, length};
ghost use Rattle.desk_answers.specs.DeskAnswers.{code_sheet_in, plan_sheet_in, desk_text, written_length, written_over};

use arrayvec::ArrayString;
use checker::check;
use code_sheets::read_code;
use lines::{refusal_text, report};
use sheets::{byte_at, two_bytes_at};

// The code sheet, or what there is of it, and the plan sheet: what stands behind it, to the end.
#[tactic(auto, unfolding(crate::specs::DeskAnswers::sheet_length_in, crate::specs::DeskAnswers::code_sheet_in, crate::specs::DeskAnswers::plan_sheet_in))]
fn sheets_in(input: &[u8]) -> (&[u8], &[u8])
    ensures code_sheet { result.0.now ≡ code_sheet_in input.now }
    ensures plan_sheet { result.1.now ≡ plan_sheet_in input.now }
{
    let rest = input.get(3..).unwrap_or(&[]);
    rest.split_at(two_bytes_at(input, 1).min(rest.len()))
}

// What the desk prints for an input; 160 bytes are room for every text.
pub fn desk_text(input: &[u8]) -> ArrayString<160>
    ensures { result.bytes ≡ desk_text input.now }
{
    let (sheet, plan) = sheets_in(input);
    match read_code(sheet) {
        Ok(code) => {
            let disk = byte_at(input, 0);
            report(&code, disk, check(sheet, &[disk as u8], plan))
        }
        Err(refusal) => refusal_text(refusal),
    }
}

// Copies a text to the front of a buffer that has room for it, and answers its length; else 0, and the buffer stays.
fn copy_text(text: &[u8], out: &mut [u8]) -> usize
    ensures value { result ≡ written_length text.now out.old }
    ensures out_after { out.new ≡ written_over text.now out.old }
{
    let length = text.len();
    if out.len() < length {
        return 0;
    }
    for (i, byte) in text.iter().enumerate() {
        out[i] = *byte;
    }
    length
}

// Writes what the desk prints for an input at the front of `out`, and answers the text's length; bytes behind it stay.
// Where `out` is shorter than the text it answers 0 and writes nothing; 160 bytes are room for every text.
pub fn write_lines(input: &[u8], out: &mut [u8]) -> usize
    ensures answer { result ≡ written_length (desk_text input.now) out.old }
    ensures out { out.new ≡ written_over (desk_text input.now) out.old }
    ensures short { length (desk_text input.now) ≤ 160 }
{
    copy_text(desk_text(input).as_str().as_bytes(), out)
}
