// The test vectors of planning: reads records from standard input, asks for a plan for each disk or set of disks that a record names, prints a
// line for each.
//
// A record is two bytes with its length, then one byte that is 1 where a plan's bytes are to be shown, one byte as a seed, two bytes with the
// buffer's length, one byte with the number of questions, 8 bytes with a number, one byte with their kind, two bytes with the length of a list of
// wanted symbols, the list, from kind 2 on the asked disks, a byte each, with kind 4 the disks' states, and the code sheet. All numbers have
// their low byte first. The buffer is filled from the seed, and so is the data of the stripe that a plan is tried on. States are one byte with
// the number of entries, at most 64, then so many kinds, a byte each, so many prices and so many factors, 8 bytes each: the bits of a float.
//
//   kind 0, disks one after the other, without a list: the number is the first disk
//   kind 1, disks one after the other, with a list: the number is the first disk
//   kind 2, one question about a set of disks, with a list that may be empty: the number is the number of asked disks
//   kind 3, as kind 2, of the planning that gives the fewest reads
//   kind 4, as kind 2, of planning at prices
//
//   refused NUMBER at PLACE same                             the refusal, and whether the buffer is as it was
//   plan LENGTH READS accepted behind-same restored BYTES    whether the checker accepts the plan with these reads, and its sheet wants what
//                                                            was asked for; whether the bytes behind it are as they were; whether it gives
//                                                            a stripe its wanted symbols back and keeps all other bytes; its bytes if asked for
//   priced LENGTH READS SUM settled ..                       so with kind 4, or "stopped", and as a plan from there on; the sum by its bits, as
//                                                            a number. The sheet's list of disks has to be the asked and the away ones, and
//                                                            its other list the wanted symbols one by one
//   patterns COUNT PATTERN .. same good                      whether the buffer is as it was, and each pattern's stripe as it has to be
//
// Where one of these is not so, its word begins with "not-". What can't be printed is passed over: the rest of its line and the records behind
// it are still tried.
#![tactic(auto)]

ghost use Rattle.std.specs.Prelude.{◌≡◌, ◌≤◌, length};

use bits::{BitSet, low_word};
use lists::is_same;
use planner::Planned;
use priced_planner::Priced;
use prices::DiskStates;
use records::{
    contains, fill_part, filled, front_of, is_zero, number_at, print_bytes, print_number,
    print_refusal, print_word, product, read_full, rest_at, same_behind, spread,
};
use refusals::Refusal;
use sheets::{byte_at, two_bytes_at};
use std::io::Read;

// The most bytes that a record, a buffer or a stripe has.
const ROOM: usize = 4096;

fn room() -> [u8; ROOM]
    ensures { 4096 ≡ length result }
{
    [0; ROOM]
}

// What a record asks for: a plan for one disk, without a list of wanted symbols or with one, or for a set of disks: any, one with the fewest
// reads, or one at prices.
#[derive(Clone, Copy, PartialEq, Eq)]
enum Kind {
    Disk,
    DiskListed,
    Set,
    Fewest,
    Priced,
}

impl From<usize> for Kind {
    fn from(number: usize) -> Kind {
        match number {
            0 => Kind::Disk,
            1 => Kind::DiskListed,
            2 => Kind::Set,
            4 => Kind::Priced,
            _ => Kind::Fewest,
        }
    }
}

impl Kind {
    // How many disks of a set a record of this kind names.
    fn asked_count(self, record: &[u8]) -> usize {
        match self {
            Kind::Disk | Kind::DiskListed => 0,
            Kind::Set | Kind::Fewest | Kind::Priced => number_at(record, 5),
        }
    }
}

// For how many disks there are states; for none where their number is above 64.
fn state_count(states: &[u8]) -> usize
    ensures { result ≤ 64 }
{
    let count = byte_at(states, 0);
    if count > 64 {
        return 0;
    }
    count
}

// A record, and the disks that a question of it is about.
#[derive(Clone, Copy)]
struct Question<'a> {
    record: &'a [u8],
    kind: Kind,
    disks: &'a [u8],
    list: &'a [u8],
    states: &'a [u8],
    sheet: &'a [u8],
}

// A question of a record about these disks.
fn question_about<'a>(record: &'a [u8], disks: &'a [u8]) -> Question<'a> {
    let kind = Kind::from(byte_at(record, 13));
    let list_length = two_bytes_at(record, 14);
    let behind_list = rest_at(rest_at(record, 16), list_length);
    let states = rest_at(behind_list, kind.asked_count(record));
    let states_length = match kind {
        Kind::Priced => 1 + 17 * state_count(states),
        _ => 0,
    };
    Question {
        record,
        kind,
        disks,
        list: front_of(rest_at(record, 16), list_length),
        states,
        sheet: rest_at(states, states_length),
    }
}

// The set of disks that a record names.
fn asked_in(record: &[u8]) -> &[u8] {
    let kind = Kind::from(byte_at(record, 13));
    let behind_list = rest_at(rest_at(record, 16), two_bytes_at(record, 14));
    front_of(behind_list, kind.asked_count(record))
}

// The float with these bits. Those of a NaN, which are above infinity's but for the sign, give some NaN: Rattle takes them for no float.
fn float_of(bits: u64) -> f64 {
    if bits % 9223372036854775808 > 9218868437227405312 {
        return 0.0 / 0.0;
    }
    f64::from_bits(bits)
}

// The bits of a sum as a number. What is not from 0 on, as no sum may be, is the highest number, which no sum has.
fn bits_of(sum: f64) -> u64 {
    if 0.0 <= sum {
        return f64::to_bits(sum);
    }
    u64::MAX
}

// Floats by their bits, 8 bytes each.
fn floats_in(bytes: &[u8]) -> [f64; 64]
    ensures { 64 ≡ length result }
{
    let mut floats = [0.0; 64];
    for i in 0..64 {
        floats[i] = float_of(number_at(rest_at(bytes, 8 * i), 0) as u64);
    }
    floats
}

// A list of a plan sheet: its entries, after their number at a place.
fn list_at(plan: &[u8], at: usize) -> &[u8] {
    front_of(rest_at(rest_at(plan, at), 1), byte_at(plan, at))
}

// Whether a list has the bytes for which this holds, and no others.
fn has_just<F: Fn(usize) -> bool>(listed: &[u8], holds: F) -> bool
    requires { F.IsAlwaysCallable holds }
{
    for entry in 0..256 {
        if contains(listed, entry) != holds(entry) {
            return false;
        }
    }
    true
}

// Whether a stripe of one byte a symbol is zero in every symbol that is chosen.
fn is_zero_where<F: Fn(usize) -> bool>(stripe: &[u8], is_chosen: F) -> bool
    requires { F.IsAlwaysCallable is_chosen }
{
    for (symbol, byte) in stripe.iter().enumerate() {
        if *byte != 0 && is_chosen(symbol) {
            return false;
        }
    }
    true
}

fn encodes(sheet: &[u8], size: usize, contents: &[u8], stripe: &mut [u8]) -> bool {
    encoding::encode(sheet, size, contents, stripe).is_ok()
}

// Whether the checker accepts a plan with these reads.
fn accepts(sheet: &[u8], disks: &[u8], plan: &[u8], reads: usize) -> bool {
    checker::check(sheet, disks, plan).is_ok_and(|true_reads| true_reads == reads)
}

impl<'a> Question<'a> {
    fn kinds(&self) -> &'a [u8] {
        front_of(rest_at(self.states, 1), state_count(self.states))
    }

    // Whether the record has a disk away.
    fn is_away(&self, disk: usize) -> bool {
        let kinds = self.kinds();
        self.kind == Kind::Priced && disk < kinds.len() && byte_at(kinds, disk) == 0
    }

    // The states that the record has. Where it has fewer than the array has disks, the lists end too early.
    fn disk_states(&self) -> DiskStates {
        let count = state_count(self.states);
        let prices = floats_in(rest_at(self.states, 1 + count));
        let factors = floats_in(rest_at(self.states, 1 + 9 * count));
        prices::kinds::states_told(self.kinds(), &prices[..count], &factors[..count])
    }

    // The disk on which a symbol lies; 0 for a sheet whose disks have no symbols.
    fn disk_of(&self, symbol: usize) -> usize {
        let height = byte_at(self.sheet, 3);
        if height == 0 {
            return 0;
        }
        symbol / height
    }

    // Whether a disk is lost: one that was asked about, or an away one.
    fn is_gone(&self, disk: usize) -> bool {
        contains(self.disks, disk) || self.is_away(disk)
    }

    fn is_lost(&self, symbol: usize) -> bool {
        self.is_gone(self.disk_of(symbol))
    }

    // Wanted are the listed symbols, and without a list all those of the asked disks.
    fn is_wanted(&self, symbol: usize) -> bool {
        if self.list.is_empty() {
            return contains(self.disks, self.disk_of(symbol));
        }
        contains(self.list, symbol)
    }

    // Whether an edition 3 sheet lists the asked disks, and the wanted symbols that planning was given.
    fn lists_asked(&self, plan: &[u8]) -> bool {
        let listed = byte_at(plan, 6);
        byte_at(plan, 0) == 5
            && byte_at(plan, 1) == 3
            && is_same(list_at(plan, 6), self.disks)
            && is_same(list_at(plan, 7 + listed), self.list)
    }

    // Whether an edition 3 sheet lists the lost disks of the array, away ones among them, and its wanted symbols one by one.
    fn lists_lost(&self, plan: &[u8]) -> bool {
        let listed = byte_at(plan, 6);
        let disks = byte_at(self.sheet, 2);
        let symbols = byte_at(self.sheet, 5);
        byte_at(plan, 0) == 5
            && byte_at(plan, 1) == 3
            && has_just(list_at(plan, 6), |disk| disk < disks && self.is_gone(disk))
            && has_just(list_at(plan, 7 + listed), |symbol| {
                symbol < symbols && self.is_wanted(symbol)
            })
    }

    // Whether a sheet is of the edition asked for, with the lists that planning was given.
    fn is_as_asked(&self, plan: &[u8]) -> bool {
        let edition = byte_at(plan, 1);
        match self.kind {
            Kind::Disk => edition == 1,
            Kind::DiskListed => edition == 2 && is_same(list_at(plan, 7), self.list),
            Kind::Set | Kind::Fewest => self.lists_asked(plan),
            Kind::Priced => self.lists_lost(plan),
        }
    }

    // Ruins the lost strips of a stripe. A symbol that is not wanted is then as ruined in the whole stripe: a rebuild has to keep its bytes.
    fn ruin(&self, size: usize, stripe: &mut [u8], whole: &mut [u8]) {
        for symbol in 0..byte_at(self.sheet, 5) {
            if self.is_lost(symbol) {
                let start = product(symbol, size);
                let end = start + product(1, size);
                fill_part(stripe, start, end, start);
                if !self.is_wanted(symbol) {
                    fill_part(whole, start, end, start);
                }
            }
        }
    }

    // Whether a plan for these lost disks restores a stripe of symbols of 1 to 7 bytes, but for lost symbols that are not wanted.
    fn restores(&self, lost: &[u8], plan: &[u8]) -> bool {
        let seed = byte_at(self.record, 1);
        let size = 1 + seed % 7;
        let length = product(byte_at(self.sheet, 5), size);
        let data = filled(seed);
        let contents = front_of(&data, product(byte_at(self.sheet, 4), size));
        let mut stripe_room = room();
        let mut whole_room = room();
        let stripe = &mut stripe_room[..length];
        let whole = &mut whole_room[..length];
        if !encodes(self.sheet, size, contents, stripe) {
            return false;
        }
        if !encodes(self.sheet, size, contents, whole) {
            return false;
        }
        self.ruin(size, stripe, whole);
        rebuild::rebuild(self.sheet, lost, plan, size, stripe).is_ok() && is_same(stripe, whole)
    }

    // Whether a pattern has bits below K alone, and a stripe that shows that the wanted symbols can't all be rebuilt: it is zero on every
    // surviving symbol and not in every wanted one.
    fn is_good(&self, pattern: u64) -> bool {
        let bits = spread(pattern);
        let data_symbols = byte_at(self.sheet, 4);
        let mut stripe_room = room();
        let stripe = &mut stripe_room[..byte_at(self.sheet, 5)];
        encodes(self.sheet, 1, front_of(&bits, data_symbols), stripe)
            && is_zero(rest_at(&bits, data_symbols))
            && is_zero_where(stripe, |symbol| !self.is_lost(symbol))
            && !is_zero_where(stripe, |symbol| self.is_wanted(symbol))
    }

    // Whether each pattern is good.
    fn are_good(&self, patterns: &[BitSet]) -> bool {
        for pattern in patterns {
            if !self.is_good(low_word(*pattern)) {
                return false;
            }
        }
        true
    }

    // Prints what holds of a plan for these lost disks, and its bytes if asked for.
    fn judge_plan(
        &self,
        rt: &impl Print,
        lost: &[u8],
        plan: &[u8],
        reads: usize,
        behind_same: bool,
    ) {
        let accepted = accepts(self.sheet, lost, plan, reads) && self.is_as_asked(plan);
        print_word(rt, accepted, "accepted");
        print_word(rt, behind_same, "behind-same");
        print_word(rt, self.restores(lost, plan), "restored");
        if byte_at(self.record, 0) == 1 {
            print_bytes(rt, plan);
        }
    }

    fn print_plan(&self, rt: &impl Print, plan: &[u8], reads: usize, behind_same: bool) {
        print_counts(rt, "plan", plan.len(), reads);
        self.judge_plan(rt, self.disks, plan, reads, behind_same);
    }

    // Prints a plan at prices. What it is to be judged by are the lost disks that it lists.
    fn print_priced(
        &self,
        rt: &impl Print,
        plan: &[u8],
        reads: usize,
        sum: f64,
        settled: bool,
        behind_same: bool,
    ) {
        print_counts(rt, "priced", plan.len(), reads);
        print_number(rt, bits_of(sum));
        let _ = if settled {
            print!(rt; " settled")
        } else {
            print!(rt; " stopped")
        };
        self.judge_plan(rt, list_at(plan, 6), plan, reads, behind_same);
    }

    fn print_patterns(&self, rt: &impl Print, patterns: &[BitSet], unchanged: bool) {
        let _ = print!(rt; "patterns");
        print_number(rt, patterns.len() as u64);
        for pattern in patterns {
            print_number(rt, low_word(*pattern));
        }
        print_word(rt, unchanged, "same");
        print_word(rt, self.are_good(patterns), "good");
    }

    // Prints what planning answered, and what became of its buffer, which was as the copy is.
    fn print_answer(
        &self,
        rt: &impl Print,
        answer: &Result<Planned, Refusal>,
        buffer: &[u8],
        copy: &[u8],
    ) {
        match answer {
            Ok(Planned::Plan { length, reads }) => self.print_plan(
                rt,
                front_of(buffer, *length),
                *reads,
                same_behind(buffer, copy, *length),
            ),
            Ok(Planned::Patterns(patterns)) => {
                self.print_patterns(rt, patterns.as_slice(), is_same(buffer, copy))
            }
            Err(refusal) => print_refused(rt, *refusal, is_same(buffer, copy)),
        }
    }

    // Prints what planning at prices answered, and what became of its buffer, which was as the copy is.
    fn print_priced_answer(
        &self,
        rt: &impl Print,
        answer: &Result<Priced, Refusal>,
        buffer: &[u8],
        copy: &[u8],
    ) {
        match answer {
            Ok(
                Priced::Plan {
                    length,
                    reads,
                    sum,
                    settled,
                },
            ) => self.print_priced(
                rt,
                front_of(buffer, *length),
                *reads,
                *sum,
                *settled,
                same_behind(buffer, copy, *length),
            ),
            Ok(Priced::Patterns(patterns)) => {
                self.print_patterns(rt, patterns.as_slice(), is_same(buffer, copy))
            }
            Err(refusal) => print_refused(rt, *refusal, is_same(buffer, copy)),
        }
    }

    // Asks for a plan: for one disk, without a list or with one, or for a set of disks, any plan or one with the fewest reads.
    fn plan(&self, disk: usize, buffer: &mut [u8]) -> Result<Planned, Refusal> {
        match self.kind {
            Kind::Disk => planner::plan(self.sheet, disk, buffer),
            Kind::DiskListed => planner::plan_wanted(self.sheet, disk, self.list, buffer),
            Kind::Set => planner::plan_disks(self.sheet, self.disks, self.list, buffer),
            Kind::Fewest | Kind::Priced => {
                fewest_planner::plan_fewest(self.sheet, self.disks, self.list, buffer)
            }
        }
    }

    // Asks with a buffer of the record's length, and prints the answer.
    fn ask(&self, rt: &impl Print, disk: usize) {
        let length = two_bytes_at(self.record, 2);
        if length > ROOM {
            return;
        }
        let seed = byte_at(self.record, 1);
        let mut buffer_room = filled(seed);
        let copy = filled(seed);
        let buffer = &mut buffer_room[..length];
        if self.kind == Kind::Priced {
            let answer = priced_planner::plan_priced(
                self.sheet,
                self.disks,
                self.list,
                &self.disk_states(),
                buffer,
            );
            self.print_priced_answer(rt, &answer, buffer, front_of(&copy, length));
            return;
        }
        let answer = self.plan(disk, buffer);
        self.print_answer(rt, &answer, buffer, front_of(&copy, length));
    }
}

fn print_counts(rt: &impl Print, name: &str, length: usize, reads: usize) {
    let _ = print!(rt; "{name}");
    print_number(rt, length as u64);
    print_number(rt, reads as u64);
}

fn print_refused(rt: &impl Print, refusal: Refusal, unchanged: bool) {
    print_refusal(rt, refusal);
    print_word(rt, unchanged, "same");
}

// Asks about each disk that a record names, one after the other. What is answered for a disk is judged by the set of it alone; one that a byte
// can't hold is refused, so that nothing is judged by its entry.
fn ask_about_each(rt: &impl Print, record: &[u8]) {
    let mut disk = number_at(record, 5);
    for _ in 0..byte_at(record, 4) {
        let disks = [(disk % 256) as u8];
        question_about(record, &disks).ask(rt, disk);
        let _ = println!(rt; "");
        if disk > 64 {
            break;
        }
        disk += 1;
    }
}

fn answer(rt: &impl Print, record: &[u8]) {
    match Kind::from(byte_at(record, 13)) {
        Kind::Disk | Kind::DiskListed => ask_about_each(rt, record),
        Kind::Set | Kind::Fewest | Kind::Priced => {
            question_about(record, asked_in(record)).ask(rt, 0);
            let _ = println!(rt; "");
        }
    }
}

// Answers the next record, or says that there is none.
fn answer_next(rt: &impl Print, input: &mut impl Read) -> bool {
    let mut head = [0u8; 2];
    if read_full(input, &mut head) < 2 {
        return false;
    }
    let length = two_bytes_at(&head, 0);
    if length > ROOM {
        return false;
    }
    let mut record = room();
    if read_full(input, &mut record[..length]) < length {
        return false;
    }
    answer(rt, &record[..length]);
    true
}

fn main(rt: HostRuntime) {
    let mut input = rt.stdin();
    for _ in 0..u64::MAX {
        if !answer_next(&rt, &mut input) {
            break;
        }
    }
}
