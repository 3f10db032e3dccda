// What both sheets rest on: a byte at a place, numbers as bytes, and lists behind their count.
#![tactic(auto)]

ghost use Rattle.std.specs.Prelude.{◌≡◌, [], ◌∷◌, ◌+◌, ◌/◌, ◌%◌, ◌≤◌, ◌<◌, length, get_or};
ghost use Rattle.sheets.specs.Buffers.{from_place};
ghost use Rattle.sheets.specs.Bytes.{two_bytes_at, counted};

// The byte at a place of a sheet, and 0 behind its end: the tests of the head need no sheet of full length.
pub fn byte_at(sheet: &[u8], at: usize) -> usize
    ensures { (result ≡ get_or sheet.now at 0) × (result < 256) }
{
    usize::from(sheet.get(at).copied().unwrap_or(0))
}

// The number that two bytes of a sheet make, low byte first.
pub fn two_bytes_at(sheet: &[u8], at: usize) -> usize
    requires { at < 65536 }
    ensures { (result ≡ two_bytes_at sheet.now at) × (result < 65536) }
{
    byte_at(sheet, at) + 256 * byte_at(sheet, at + 1)
}

// A number as two bytes from a place on, low byte first.
pub fn write_two_bytes(number: usize, at: usize, buffer: &mut [u8])
    requires { (number < 65536) × (at < 65536) × (at + 2 ≤ length buffer.old) }
    ensures { buffer.new ≡ from_place at (number % 256 ∷ number / 256 ∷ []) buffer.old }
{
    buffer[at] = (number % 256) as u8;
    buffer[at + 1] = (number / 256) as u8;
}

// A list from a place on: one byte count and that many entries.
pub fn write_list(list: &[u8], at: usize, buffer: &mut [u8])
    requires { (length list.now < 256) × (at < 65536) × (at + 1 + length list.now ≤ length buffer.old) }
    ensures { buffer.new ≡ from_place at (counted list.now) buffer.old }
{
    buffer[at] = list.len() as u8;
    // By a loop: of `copy_from_slice` the compiler makes a call of memmove here, a name that the library for C then needs from outside.
    for (i, entry) in list.iter().enumerate() {
        buffer[at + 1 + i] = *entry;
    }
}
