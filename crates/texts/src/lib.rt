// Numbers behind labels, in text of a fixed room.
#![tactic(auto)]

ghost use Rattle.std.specs.Prelude.{◌≡◌, ◌+◌, ◌≤◌, ◌++◌, length};
ghost use Rattle.arrayvec.specs.ArrayString.{array_string_len};
ghost use Rattle.texts.specs.Decimals.{labelled};

use arrayvec::ArrayString;
use itoa::Buffer;

// A label and the number behind it, which has at most 20 digits. They are pushed: `write!` answers a Result, and no clause says when it is Ok.
pub fn push_labelled<const ROOM: usize>(text: &mut ArrayString<ROOM>, label: &str, number: usize)
    requires { array_string_len text.old + length label.now + 20 ≤ ROOM }
    ensures bytes { text.new.bytes ≡ text.old.bytes ++ labelled label.now number }
    ensures short { length (labelled label.now number) ≤ length label.now + 20 }
{
    let mut digits = Buffer::new();
    text.push_str(label);
    text.push_str(digits.format(number));
}
