// How answers go out to C: a struct for each kind of answer, and the function that makes it. Enums go out as the number and the place of
// document 01's table beside the values of their case.
#![tactic(auto)]

ghost use Rattle.std.specs.Prelude.{◌≡◌, ◌%◌, ◌^◌, get_or};
ghost use Rattle.bits.specs.Numerals.{numerals};
ghost use Rattle.plans.specs.Check.{as_checked};
ghost use Rattle.refusals.specs.Orders.{outcome, Gives};
ghost use Rattle.code_sheets.specs.CodeReading.{as_read};
ghost use Rattle.families.specs.FamilySheets.{as_written};
ghost use Rattle.planning.specs.Planning.{as_planned, APatterns};
ghost use Rattle.answers.specs.InnerFits.{PatternFits};
ghost use Rattle.answers.specs.Answers.{out_verdict, out_code, out_sheet, out_checked, out_planned, out_pattern, out_part};

use bits::low_word;
use codes::Code;
use elimination::SetList;
use planning::Planned;
use refusals::{Refusal, Verdict};
use views::Part;

pub mod survivors; // survivors.rt: what the tester for survivors answers
pub mod priced; // priced.rt: what priced planning answers

// Nothing refused, or the refusal: navorzim_verdict in C.
#[repr(C)]
#[derive(Clone, Copy)]
pub struct OutVerdict {
    pub number: u64,
    pub place: usize,
}

// The shape of a code that was read: navorzim_code in C.
#[repr(C)]
#[derive(Clone, Copy)]
pub struct OutCode {
    pub number: u64,
    pub place: usize,
    pub disks: usize,
    pub rows: usize,
    pub data_symbols: usize,
    pub symbols: usize,
}

// The length of a code sheet that was written: navorzim_sheet in C.
#[repr(C)]
#[derive(Clone, Copy)]
pub struct OutSheet {
    pub number: u64,
    pub place: usize,
    pub length: usize,
}

// The read count of a plan that was accepted: navorzim_checked in C.
#[repr(C)]
#[derive(Clone, Copy)]
pub struct OutChecked {
    pub number: u64,
    pub place: usize,
    pub reads: usize,
}

// A plan's length and read count, or how many patterns there are and the first of them: navorzim_planned in C. Sets are one word: pattern_high is 0.
#[repr(C)]
#[derive(Clone, Copy)]
pub struct OutPlanned {
    pub number: u64,
    pub place: usize,
    pub length: usize,
    pub reads: usize,
    pub pattern: u64,
    pub pattern_high: u64,
    pub patterns: usize,
}

// A set of symbols or data symbols, as two words: navorzim_set in C. Sets are one word: high is 0.
#[repr(C)]
#[derive(Clone, Copy)]
pub struct OutSet {
    pub number: u64,
    pub place: usize,
    pub low: u64,
    pub high: u64,
}

// Where a part lies: navorzim_part in C.
#[repr(C)]
#[derive(Clone, Copy)]
pub struct OutPart {
    pub slice: usize,
    pub start: usize,
    pub length: usize,
}

impl From<Verdict> for OutVerdict {
    ghost from_gives = { λ verdict out. out ≡ out_verdict (outcome verdict) };

    fn from(verdict: Verdict) -> OutVerdict {
        match verdict {
            Ok(()) => OutVerdict {
                number: 0,
                place: 0,
            },
            Err(refusal) => OutVerdict {
                number: refusal.number(),
                place: refusal.place(),
            },
        }
    }
}

impl From<Result<Code, Refusal>> for OutCode {
    ghost from_gives = { λ read out. out ≡ out_code (as_read read) };

    fn from(read: Result<Code, Refusal>) -> OutCode {
        match read {
            Ok(code) => OutCode {
                number: 0,
                place: 0,
                disks: code.layout.disks,
                rows: code.layout.height,
                data_symbols: code.data_symbols,
                symbols: code.layout.symbols(),
            },
            Err(refusal) => OutCode {
                number: refusal.number(),
                place: refusal.place(),
                disks: 0,
                rows: 0,
                data_symbols: 0,
                symbols: 0,
            },
        }
    }
}

impl From<Result<usize, Refusal>> for OutSheet {
    ghost from_gives = { λ written out. out ≡ out_sheet (as_written written) };

    fn from(written: Result<usize, Refusal>) -> OutSheet {
        match written {
            Ok(length) => OutSheet {
                number: 0,
                place: 0,
                length,
            },
            Err(refusal) => OutSheet {
                number: refusal.number(),
                place: refusal.place(),
                length: 0,
            },
        }
    }
}

impl From<Result<usize, Refusal>> for OutChecked {
    ghost from_gives = { λ checked out. out ≡ out_checked (as_checked checked) };

    fn from(checked: Result<usize, Refusal>) -> OutChecked {
        match checked {
            Ok(reads) => OutChecked {
                number: 0,
                place: 0,
                reads,
            },
            Err(refusal) => OutChecked {
                number: refusal.number(),
                place: refusal.place(),
                reads: 0,
            },
        }
    }
}

impl From<Part> for OutPart {
    ghost from_gives = { λ part out. out ≡ out_part part };

    fn from(part: Part) -> OutPart {
        OutPart {
            slice: if part.in_spare { 1 } else { 0 },
            start: part.start,
            length: part.length,
        }
    }
}

// Entry `index` of a list of sets, as a word; 0 behind them.
pub fn listed_word(sets: &SetList, index: usize) -> u64
    ensures { result ≡ get_or (numerals sets.now.items) index 0 % 2 ^ 64 }
{
    match sets.as_slice().get(index) {
        Some(set) => low_word(*set),
        None => 0,
    }
}

// Pattern `index` of planning's answer, as it goes out.
pub fn out_pattern(answer: &Result<Planned, Refusal>, index: usize) -> OutSet
    ensures { result ≡ out_pattern (as_planned answer.now) index }
{
    match answer {
        Ok(Planned::Plan { .. }) => OutSet {
            number: 0,
            place: 0,
            low: 0,
            high: 0,
        },
        Ok(Planned::Patterns(patterns)) => OutSet {
            number: 0,
            place: 0,
            low: listed_word(patterns, index),
            high: 0,
        },
        Err(refusal) => OutSet {
            number: refusal.number(),
            place: refusal.place(),
            low: 0,
            high: 0,
        },
    }
}

// Patterns, as they go out: how many there are and the first of them.
pub fn out_patterns(patterns: &SetList) -> OutPlanned
    requires { PatternFits (Gives (APatterns (numerals patterns.now.items))) }
    ensures { result ≡ out_planned (Gives (APatterns (numerals patterns.now.items))) }
{
    OutPlanned {
        number: 0,
        place: 0,
        length: 0,
        reads: 0,
        pattern: listed_word(patterns, 0),
        pattern_high: 0,
        patterns: patterns.len(),
    }
}

// Planning's answer, as it goes out.
pub fn out_planned(answer: &Result<Planned, Refusal>) -> OutPlanned
    requires { PatternFits (as_planned answer.now) }
    ensures { result ≡ out_planned (as_planned answer.now) }
{
    match answer {
        Ok(Planned::Plan { length, reads }) => OutPlanned {
            number: 0,
            place: 0,
            length: *length,
            reads: *reads,
            pattern: 0,
            pattern_high: 0,
            patterns: 0,
        },
        Ok(Planned::Patterns(patterns)) => out_patterns(patterns),
        Err(refusal) => OutPlanned {
            number: refusal.number(),
            place: refusal.place(),
            length: 0,
            reads: 0,
            pattern: 0,
            pattern_high: 0,
            patterns: 0,
        },
    }
}
