// The lines that the desk prints: each behind the text so far, then all of an answer.
#![tactic(auto)]

ghost use Rattle.std.specs.Prelude.{◌≡◌, ◌+◌, ◌≤◌, ◌++◌, length};
ghost use Rattle.arrayvec.specs.ArrayString.{array_string_len};
ghost use Rattle.lines.specs.Lines.{code_line, disk_line, accepted_lines, refusal_line, answer_lines, lines_of};
ghost use Rattle.refusals.specs.Refusals.{numbered};
ghost use Rattle.refusals.specs.Orders.{Fine};
ghost use Rattle.codes.specs.Codes.{linear};
ghost use Rattle.plans.specs.Check.{as_checked};

use arrayvec::ArrayString;
use codes::Code;
use refusals::Refusal;
use texts::push_labelled;

// The line `code n r K`.
#[tactic(auto, unfolding(crate::specs::Lines::code_line))]
fn push_code(text: &mut ArrayString<160>, disks: usize, height: usize, data_symbols: usize)
    requires { array_string_len text.old + 68 ≤ 160 }
    ensures bytes { text.new.bytes ≡ text.old.bytes ++ code_line disks height data_symbols }
    ensures short { length (code_line disks height data_symbols) ≤ 68 }
{
    push_labelled(text, "code ", disks);
    push_labelled(text, " ", height);
    push_labelled(text, " ", data_symbols);
    text.push('\n');
}

// The line `disk d`.
#[tactic(auto, unfolding(crate::specs::Lines::disk_line))]
fn push_disk(text: &mut ArrayString<160>, disk: usize)
    requires { array_string_len text.old + 26 ≤ 160 }
    ensures bytes { text.new.bytes ≡ text.old.bytes ++ disk_line disk }
    ensures short { length (disk_line disk) ≤ 26 }
{
    push_labelled(text, "disk ", disk);
    text.push('\n');
}

// The lines `accepted` and `reads m`.
#[tactic(auto, unfolding(crate::specs::Lines::accepted_lines))]
fn push_accepted(text: &mut ArrayString<160>, reads: usize)
    requires { array_string_len text.old + 36 ≤ 160 }
    ensures { text.new.bytes ≡ text.old.bytes ++ accepted_lines reads }
{
    push_labelled(text, "accepted\nreads ", reads);
    text.push('\n');
}

// The line `refused N at P`.
#[tactic(auto, unfolding(crate::specs::Lines::refusal_line))]
fn push_refusal(text: &mut ArrayString<160>, refusal: Refusal)
    requires { array_string_len text.old + 53 ≤ 160 }
    ensures { text.new.bytes ≡ text.old.bytes ++ refusal_line (numbered refusal).number (numbered refusal).place }
{
    let number = refusal.number() as usize;
    let place = refusal.place();
    push_labelled(text, "refused ", number);
    push_labelled(text, " at ", place);
    text.push('\n');
}

// The lines of what the check answers.
fn push_answer(text: &mut ArrayString<160>, answer: Result<usize, Refusal>)
    requires { array_string_len text.old + 53 ≤ 160 }
    ensures { text.new.bytes ≡ text.old.bytes ++ answer_lines (as_checked answer) }
{
    match answer {
        Ok(reads) => push_accepted(text, reads),
        Err(refusal) => push_refusal(text, refusal),
    }
}

// The line of a refused code sheet, alone.
pub fn refusal_text(refusal: Refusal) -> ArrayString<160>
    ensures { result.bytes ≡ refusal_line (numbered refusal).number (numbered refusal).place }
{
    let mut text = ArrayString::new();
    push_refusal(&mut text, refusal);
    text
}

// The lines for a code sheet that was read: the code, the disk, the answer.
pub fn report(code: &Code, disk: usize, answer: Result<usize, Refusal>) -> ArrayString<160>
    ensures { result.bytes ≡ lines_of Fine (linear code.now) disk (as_checked answer) }
{
    let layout = code.layout;
    let mut text = ArrayString::new();
    push_code(&mut text, layout.disks, layout.height, code.data_symbols);
    push_disk(&mut text, disk);
    push_answer(&mut text, answer);
    text
}
