// The test vectors: reads records from standard input, makes the library call that each asks for, prints a line for each.
//
// A record is two bytes with its length, then one byte for the call, then the call's numbers of 8 bytes, then the rest.
// All numbers have their low byte first. A long input is not in the record: it is filled from a seed.
//
//   call 0, read a code sheet: the sheet
//   call 1, a family: which, its two parameters, buffer length, buffer seed
//   call 2, encode: L, data length, data seed, stripe length, stripe seed, sheet length; the sheet, the data's first bytes
//   call 3, one strip: disk, L, stripe length, stripe seed; the sheet
//   call 4, look up: disk, L, stripe length, stripe seed, spare length, spare seed, symbol; the sheet
//   call 5, check: number of asked disks, code sheet length; the asked disks (a byte each), the code sheet, the plan sheet
//   call 6, the desk: its whole input
//   call 7, rebuild: number of asked disks, L, stripe length, stripe seed, data length (0: no data is encoded first), data seed,
//     start and end of the strip that is ruined, its seed (below 256: that byte throughout), code sheet length; the asked disks,
//     the code sheet, the plan sheet
//   call 8, test survivors: number of asked disks, L, stripe length, stripe seed, data length (0: no data is encoded first), data seed,
//     start and end of a part that is ruined, its seed (below 256: that byte throughout), the same of a second part, code sheet length;
//     the asked disks, the code sheet
//
// What can't be printed is passed over: the rest of its line and the records behind it are still tried.
#![tactic(auto)]

ghost use Rattle.std.specs.Prelude.{◌≡◌, length};

use bits::low_word;
use code_sheets::read_code;
use codes::Code;
use families::Family;
use records::{
    digest, fill, front_of, number_at, print_number, print_refusal, put_over, read_full, rest_at,
};
use refusals::{Refusal, Verdict};
use sheets::{byte_at, two_bytes_at};
use soundness::Tested;
use std::io::Read;

// The most bytes that a record has.
const RECORD: usize = 8192;

// The most bytes that a long input has.
const ROOM: usize = 262144;

fn print_verdict(rt: &impl Print, verdict: Verdict) {
    match verdict {
        Ok(()) => {
            let _ = print!(rt; "fine");
        }
        Err(refusal) => print_refusal(rt, refusal),
    }
}

// The digest of a whole buffer, as the end of a line.
fn print_digest(rt: &impl Print, bytes: &[u8]) {
    let _ = print!(rt; " digest");
    print_number(rt, digest(bytes) as u64);
    let _ = println!(rt; "");
}

// The bytes of a short buffer, in hex.
fn print_short(rt: &impl Print, bytes: &[u8]) {
    if bytes.len() > 16 {
        return;
    }
    let _ = print!(rt; " bytes");
    for byte in bytes {
        let _ = print!(rt; " ");
        let _ = print!(rt; "{byte:02x}");
    }
}

// What a call showed: how many bytes, and which.
fn print_part(rt: &impl Print, part: &[u8]) {
    let _ = print!(rt; " part");
    print_number(rt, part.len() as u64);
    print_digest(rt, part);
}

fn print_code(rt: &impl Print, code: &Code) {
    let _ = print!(rt; "code");
    print_number(rt, code.layout.disks as u64);
    print_number(rt, code.layout.height as u64);
    print_number(rt, code.data_symbols as u64);
    let _ = print!(rt; " rows");
    for row in code.matrix() {
        print_number(rt, low_word(*row));
    }
}

fn read(rt: &impl Print, record: &[u8]) {
    match read_code(rest_at(record, 1)) {
        Ok(code) => print_code(rt, &code),
        Err(refusal) => print_refusal(rt, refusal),
    }
    let _ = println!(rt; "");
}

fn family_of(which: usize, first: usize, second: usize) -> Family {
    match which {
        0 => Family::SingleParity {
            data_disks: first,
            rows: second,
        },
        1 => Family::Liberation {
            w: first,
            data_disks: second,
        },
        2 => Family::RowDiagonal { p: first },
        _ => Family::EvenOdd { p: first },
    }
}

fn write_family(rt: &impl Print, record: &[u8], buffer: &mut [u8]) {
    let family = family_of(
        number_at(record, 1),
        number_at(record, 9),
        number_at(record, 17),
    );
    fill(buffer, number_at(record, 33));
    match families::write_family(family, buffer) {
        Ok(length) => {
            let _ = print!(rt; "sheet");
            print_number(rt, length as u64);
        }
        Err(refusal) => print_refusal(rt, refusal),
    }
    print_digest(rt, buffer);
}

fn encode(rt: &impl Print, record: &[u8], contents: &mut [u8], stripe: &mut [u8]) {
    let rest = rest_at(record, 49);
    let sheet = front_of(rest, number_at(record, 41));
    fill(contents, number_at(record, 17));
    put_over(contents, rest_at(rest, sheet.len()));
    fill(stripe, number_at(record, 33));
    let verdict = encoding::encode(sheet, number_at(record, 1), contents, stripe);
    print_verdict(rt, verdict);
    print_short(rt, stripe);
    print_digest(rt, stripe);
}

fn show_strip(rt: &impl Print, record: &[u8], stripe: &mut [u8]) {
    let disk = number_at(record, 1);
    let size = number_at(record, 9);
    let sheet = rest_at(record, 33);
    fill(stripe, number_at(record, 25));
    print_verdict(rt, views::strip_verdict(sheet, disk, size, stripe));
    print_part(rt, views::strip(sheet, disk, size, stripe));
}

fn look_up(rt: &impl Print, record: &[u8], stripe: &mut [u8], spare: &mut [u8]) {
    let disk = number_at(record, 1);
    let size = number_at(record, 9);
    let symbol = number_at(record, 49);
    let sheet = rest_at(record, 57);
    fill(stripe, number_at(record, 25));
    fill(spare, number_at(record, 41));
    print_verdict(
        rt,
        views::look_up_verdict(sheet, disk, size, stripe, spare, symbol),
    );
    print_part(rt, views::look_up(sheet, disk, size, stripe, spare, symbol));
}

fn check(rt: &impl Print, record: &[u8]) {
    let rest = rest_at(record, 17);
    let disks = front_of(rest, number_at(record, 1));
    let sheets = rest_at(rest, disks.len());
    let sheet = front_of(sheets, number_at(record, 9));
    let plan = rest_at(sheets, sheet.len());
    match checker::check(sheet, disks, plan) {
        Ok(reads) => {
            let _ = print!(rt; "accepted reads");
            print_number(rt, reads as u64);
        }
        Err(refusal) => print_refusal(rt, refusal),
    }
    let _ = println!(rt; "");
}

// The desk's text as one line: each newline is shown as a bar.
fn print_on_one_line(rt: &impl Print, text: &[u8]) {
    for letter in text {
        let shown = if *letter == b'\n' { b'|' } else { *letter };
        let _ = rt.write_all(&[shown]);
    }
    let _ = println!(rt; "");
}

fn desk(rt: &impl Print, record: &[u8]) {
    let mut out = [0u8; 160];
    let length = desk_answers::write_lines(rest_at(record, 1), &mut out);
    print_on_one_line(rt, front_of(&out, length));
}

// Ruins a part of a stripe, where there is such a part: with one byte throughout, for a seed below 256, or from the seed.
fn ruin(stripe: &mut [u8], start: usize, end: usize, seed: usize) {
    if let Some(part) = stripe.get_mut(start..end) {
        match u8::try_from(seed) {
            Ok(byte) => part.fill(byte),
            Err(_) => fill(part, seed),
        }
    }
}

// The stripe of a rebuild or a test: filled, or encoded where there is data, and then a part of it ruined.
fn make_stripe(record: &[u8], sheet: &[u8], size: usize, contents: &mut [u8], stripe: &mut [u8]) {
    fill(stripe, number_at(record, 25));
    fill(contents, number_at(record, 41));
    if !contents.is_empty() {
        // Where the data don't fit the code, the stripe stays as it was filled.
        let _ = encoding::encode(sheet, size, contents, stripe);
    }
    ruin(
        stripe,
        number_at(record, 49),
        number_at(record, 57),
        number_at(record, 65),
    );
}

fn rebuild(rt: &impl Print, record: &[u8], stripe: &mut [u8], contents: &mut [u8]) {
    let size = number_at(record, 9);
    let rest = rest_at(record, 81);
    let disks = front_of(rest, number_at(record, 1));
    let sheets = rest_at(rest, disks.len());
    let sheet = front_of(sheets, number_at(record, 73));
    let plan = rest_at(sheets, sheet.len());
    make_stripe(record, sheet, size, contents, stripe);
    print_verdict(rt, rebuild::rebuild(sheet, disks, plan, size, stripe));
    print_digest(rt, stripe);
}

fn print_tested(rt: &impl Print, tested: Result<Tested, Refusal>) {
    match tested {
        Ok(Tested::Sound) => {
            let _ = print!(rt; "sound");
        }
        Ok(Tested::Unsound { column }) => {
            let _ = print!(rt; "unsound");
            print_number(rt, column as u64);
        }
        Err(refusal) => print_refusal(rt, refusal),
    }
    let _ = println!(rt; "");
}

fn test_survivors(rt: &impl Print, record: &[u8], stripe: &mut [u8], contents: &mut [u8]) {
    let size = number_at(record, 9);
    let rest = rest_at(record, 105);
    let disks = front_of(rest, number_at(record, 1));
    let sheet = front_of(rest_at(rest, disks.len()), number_at(record, 97));
    make_stripe(record, sheet, size, contents, stripe);
    ruin(
        stripe,
        number_at(record, 73),
        number_at(record, 81),
        number_at(record, 89),
    );
    print_tested(rt, soundness::test_survivors(sheet, disks, size, stripe));
}

// The place of one long input.
fn room() -> [u8; ROOM]
    ensures { 262144 ≡ length result }
{
    [0; ROOM]
}

// Makes a call with two long inputs of these lengths; no record asks for more than there is room for. It stays a function of its own, so that
// the calls without long inputs don't need the stack for them.
#[inline(never)]
fn with_rooms<F: FnOnce(&mut [u8], &mut [u8])>(length: usize, second_length: usize, call: F)
    requires { F.IsAlwaysCallable call }
{
    if length > ROOM || second_length > ROOM {
        return;
    }
    let mut first = room();
    let mut second = room();
    call(&mut first[..length], &mut second[..second_length]);
}

fn answer(rt: &impl Print, record: &[u8]) {
    match byte_at(record, 0) {
        0 => read(rt, record),
        1 => with_rooms(number_at(record, 25), 0, |buffer, _| {
            write_family(rt, record, buffer)
        }),
        2 => with_rooms(
            number_at(record, 9),
            number_at(record, 25),
            |contents, stripe| encode(rt, record, contents, stripe),
        ),
        3 => with_rooms(number_at(record, 17), 0, |stripe, _| {
            show_strip(rt, record, stripe)
        }),
        4 => with_rooms(
            number_at(record, 17),
            number_at(record, 33),
            |stripe, spare| look_up(rt, record, stripe, spare),
        ),
        5 => check(rt, record),
        6 => desk(rt, record),
        7 => with_rooms(
            number_at(record, 17),
            number_at(record, 33),
            |stripe, contents| rebuild(rt, record, stripe, contents),
        ),
        8 => with_rooms(
            number_at(record, 17),
            number_at(record, 33),
            |stripe, contents| test_survivors(rt, record, stripe, contents),
        ),
        _ => {}
    }
}

// The place of one record.
fn record_room() -> [u8; RECORD]
    ensures { 8192 ≡ length result }
{
    [0; RECORD]
}

// Answers the next record, or says that there is none. A record that ends too early is answered as far as it goes.
fn answer_next(rt: &impl Print, input: &mut impl Read) -> bool {
    let mut head = [0u8; 2];
    if read_full(input, &mut head) < 2 {
        return false;
    }
    let length = two_bytes_at(&head, 0);
    if length > RECORD {
        return false;
    }
    let mut record = record_room();
    let got = read_full(input, &mut record[..length]);
    answer(rt, &record[..got]);
    true
}

fn main(rt: HostRuntime) {
    let mut input = rt.stdin();
    for _ in 0..u64::MAX {
        if !answer_next(&rt, &mut input) {
            break;
        }
    }
}
