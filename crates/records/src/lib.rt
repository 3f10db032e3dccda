// What a program of test records needs: the numbers and parts of a record, buffers filled from a seed, words printed and records read.
//
// All numbers of a record have their low byte first.
#![tactic(auto)]

ghost use Rattle.std.specs.Prelude.{◌≡◌, ◌≤◌, length, take, drop, replicate};
ghost use Rattle.lists.specs.Lists.{listed, same};
ghost use Rattle.records.specs.Records.{number_at, front, small_product, seeded, filled_part, digest_from, low_bits};
ghost use Rattle.sheets.specs.Buffers.{at_front};

use lists::is_same;
use refusals::Refusal;
use sheets::two_bytes_at;
use std::fmt;
use std::io::Read;

// The number in the 8 bytes at a place of a record.
pub fn number_at(record: &[u8], at: usize) -> usize
    requires { at ≤ 900 }
    ensures { result ≡ number_at «record».now at }
{
    two_bytes_at(record, at)
        + 65536 * two_bytes_at(record, at + 2)
        + 4294967296 * two_bytes_at(record, at + 4)
        + 281474976710656 * two_bytes_at(record, at + 6)
}

// The bytes from a place on, or none where the place is behind the end.
pub fn rest_at(bytes: &[u8], at: usize) -> &[u8]
    ensures { result.now ≡ drop at bytes.now }
{
    bytes.get(at..).unwrap_or(&[])
}

// The first bytes, as many as asked, or none where there are fewer.
pub fn front_of(bytes: &[u8], count: usize) -> &[u8]
    ensures { result.now ≡ front count bytes.now }
{
    if count <= bytes.len() {
        &bytes[..count]
    } else {
        &[]
    }
}

// The product of two numbers where it is at most 4096, and 0 otherwise.
#[tactic(auto, unfolding(crate::specs::Records::small_product))]
pub fn product(one: usize, other: usize) -> usize
    ensures { (result ≡ small_product one other) × (result ≤ 4096) }
{
    match one.checked_mul(other) {
        Some(whole) if whole <= 4096 => whole,
        _ => 0,
    }
}

// Fills a buffer from a seed.
pub fn fill(buffer: &mut [u8], seed: usize)
    ensures { buffer.new ≡ seeded (length buffer.old) seed }
{
    let mut state = seed % 2147483648;
    for byte in buffer.iter_mut() {
        state = (state * 1103515245 + 12345) % 2147483648;
        *byte = (state / 65536 % 256) as u8;
    }
}

// Fills the bytes of a buffer from a start up to an end from a seed, where it has them all.
pub fn fill_part(buffer: &mut [u8], start: usize, end: usize, seed: usize)
    ensures { buffer.new ≡ filled_part start end seed buffer.old }
{
    if start <= end && end <= buffer.len() {
        fill(&mut buffer[start..end], seed);
    }
}

// Puts bytes over the front of a buffer, as far as it goes.
pub fn put_over(buffer: &mut [u8], bytes: &[u8])
    ensures { buffer.new ≡ at_front (take (length buffer.old) bytes.now) buffer.old }
{
    let count = bytes.len().min(buffer.len());
    buffer[..count].copy_from_slice(&bytes[..count]);
}

// A long buffer, filled from a seed.
pub fn filled(seed: usize) -> [u8; 4096]
    ensures { (result ≡ seeded 4096 seed) × (4096 ≡ length result) }
{
    let mut buffer = [0u8; 4096];
    fill(&mut buffer, seed);
    buffer
}

// A digest in which every byte and the length count.
pub fn digest(bytes: &[u8]) -> usize
    ensures { result ≡ digest_from 0 bytes.now }
{
    let mut sum = 0;
    for byte in bytes {
        sum = (sum * 257 + usize::from(*byte) + 1) % 4294967291;
    }
    sum
}

// Whether two slices have the same bytes from a place on.
pub fn same_behind(one: &[u8], other: &[u8], at: usize) -> bool
    ensures { result ≡ same (drop at one.now) (drop at other.now) }
{
    is_same(rest_at(one, at), rest_at(other, at))
}

// Whether bytes are all zero.
pub fn is_zero(bytes: &[u8]) -> bool
    ensures { result ≡ same bytes.now (replicate (length bytes.now) 0) }
{
    bytes.iter().all(|byte| *byte == 0)
}

// Whether a number is among bytes.
pub fn contains(bytes: &[u8], number: usize) -> bool
    ensures { result ≡ listed bytes.now number }
{
    bytes.iter().any(|byte| number == usize::from(*byte))
}

// The bits of a pattern, the lowest first, each a byte of 0 or 1.
pub fn spread(pattern: u64) -> [u8; 64]
    ensures { result ≡ low_bits 64 pattern }
{
    let mut bits = [0u8; 64];
    let mut rest = pattern;
    for bit in bits.iter_mut() {
        *bit = (rest % 2) as u8;
        rest /= 2;
    }
    bits
}

// What is said of an answer: a word, after a blank, with "not-" in front of it where it does not hold.
#[derive(Clone, Copy)]
pub struct Said<'a> {
    pub holds: bool,
    pub word: &'a str,
}

impl<'a> fmt::Display for Said<'a> {
    fn fmt<W: fmt::Write>(&self, f: &mut fmt::Formatter<W>) -> fmt::Result {
        let not = if self.holds { "" } else { "not-" };
        let word = self.word;
        write!(f, " {not}{word}")
    }
}

// Prints a number, after a blank.
//
// Here and below each blank, number and word is printed by itself: what can't be printed is passed over, and nothing besides it.
pub fn print_number(rt: &impl Print, number: u64) {
    let _ = print!(rt; " ");
    let _ = print!(rt; "{number}");
}

// Prints a refusal: its number and its place.
pub fn print_refusal(rt: &impl Print, refusal: Refusal) {
    let _ = print!(rt; "refused");
    print_number(rt, refusal.number());
    let _ = print!(rt; " at");
    print_number(rt, refusal.place() as u64);
}

// Prints a word, after a blank, with "not-" in front of it where it does not hold.
pub fn print_word(rt: &impl Print, holds: bool, word: &str) {
    let _ = print!(rt; " ");
    if !holds {
        let _ = print!(rt; "not-");
    }
    let _ = print!(rt; "{word}");
}

// Prints bytes in hex, after a blank.
pub fn print_bytes(rt: &impl Print, bytes: &[u8]) {
    let _ = print!(rt; " ");
    for byte in bytes {
        let _ = print!(rt; "{byte:02x}");
    }
}

// Reads until the buffer is full or the input ends, which a read that fails does too, and answers how many bytes that were.
pub fn read_full(input: &mut impl Read, buffer: &mut [u8]) -> usize
    ensures { result ≤ length buffer.new }
{
    let mut got = 0;
    while got < buffer.len() {
        match input.read(&mut buffer[got..]) {
            Ok(0) | Err(_) => break,
            Ok(count) => got += count,
        }
    }
    got
}
