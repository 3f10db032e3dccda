// A plan sheet, read and written. No other crate knows where a byte of one lies.
// It is written at the front of a lent buffer, from a subset of the survivors for each wanted symbol.
#![tactic(auto)]

ghost use Rattle.std.specs.Prelude.{◌≡◌, ◌+◌, ◌≤◌, ◌<◌, length};
ghost use Rattle.bits.specs.BitSets.{has};
ghost use Rattle.bits.specs.Numerals.{set_width, numeral, numerals};
ghost use Rattle.codes.specs.Layouts.{symbols_of};
ghost use Rattle.gf2.specs.InnerSubsetPlans.{fill_from};
ghost use Rattle.sheets.specs.Buffers.{at_front};
ghost use Rattle.plan_sheets.specs.PlanSheets.{first_count};
ghost use Rattle.plan_sheets.specs.InnerPlanSheets.{plan_sheet, head_for, with_steps, StepsFit, subset_plan, source_count, StepsWritable, Tells, PlanFits};

pub mod head;
pub mod step;

use bits::{BitSet, BitSets, count, empty, has, union};
use codes::Layout;
use gf2::Step;
use head::{PlanHead, head_length, sections_for, sheet_length, write_head};
use step::write_step;

// The sheet's length and read count.
#[derive(Clone, Copy)]
pub struct Written {
    pub length: usize,
    pub reads: usize,
}

// How many steps there are, and the symbols that they name as a source.
#[derive(Clone, Copy)]
struct Steps {
    count: usize,
    sources: BitSet,
}

// The steps for one wanted symbol, from step `number` on: its subset's first symbol is copied and the others are added, or where there is none
// the target is cleared. Answers the number behind them.
fn write_target(
    target: usize,
    subset: BitSet,
    symbols: usize,
    number: usize,
    buffer: &mut [u8],
) -> usize
    requires { (target < 256) × (symbols ≤ set_width) × StepsFit number (fill_from target 0 symbols (numeral subset)) (length buffer.old) }
    ensures answer { result ≡ number + length (fill_from target 0 symbols (numeral subset)) }
    ensures buffer { buffer.new ≡ with_steps buffer.old number (fill_from target 0 symbols (numeral subset)) }
{
    let mut next = number;
    for source in 0..symbols {
        if has(subset, source) {
            let step = if next == number {
                Step::Copy { target, source }
            } else {
                Step::Add { target, source }
            };
            write_step(step, next, buffer);
            next += 1;
        }
    }
    if next == number {
        write_step(Step::Clear { target }, next, buffer);
        next += 1;
    }
    next
}

// The steps for each wanted symbol.
fn write_steps(subsets: BitSets, symbols: usize, wanted: BitSet, buffer: &mut [u8]) -> Steps
    requires { StepsWritable (numerals subsets) symbols (has (numeral wanted)) (length buffer.old) }
    ensures answer { Tells symbols (subset_plan symbols (has (numeral wanted)) (numerals subsets)) result.count (numeral result.sources) }
    ensures buffer { buffer.new ≡ with_steps buffer.old 0 (subset_plan symbols (has (numeral wanted)) (numerals subsets)) }
{
    let mut sources = empty();
    let mut number = 0;
    for target in 0..symbols {
        if has(wanted, target) {
            let subset = subsets[target];
            number = write_target(target, subset, symbols, number, buffer);
            sources = union(sources, subset);
        }
    }
    Steps {
        count: number,
        sources,
    }
}

// The first byte of a sheet: how many numbers follow in its first section.
fn first_count(edition: usize) -> usize
    ensures { result ≡ first_count edition }
{
    if edition == 3 {
        return 5;
    }
    6
}

// The sheet at the front of the buffer: the steps first, as the head tells their number; bytes behind the sheet stay.
pub fn write_plan(
    edition: usize,
    layout: Layout,
    data_symbols: usize,
    failed: &[u8],
    list: &[u8],
    wanted: BitSet,
    subsets: BitSets,
    buffer: &mut [u8],
) -> Written
    requires { PlanFits edition layout data_symbols failed.now list.now (has (numeral wanted)) (numerals subsets) (length buffer.old) }
    ensures reads { result.reads ≡ source_count (symbols_of layout) (subset_plan (symbols_of layout) (has (numeral wanted)) (numerals subsets)) }
    ensures length { result.length ≡ length (plan_sheet (head_for edition layout data_symbols result.reads) failed.now list.now (subset_plan (symbols_of layout) (has (numeral wanted)) (numerals subsets))) }
    ensures buffer { buffer.new ≡ at_front (plan_sheet (head_for edition layout data_symbols result.reads) failed.now list.now (subset_plan (symbols_of layout) (has (numeral wanted)) (numerals subsets))) buffer.old }
{
    let symbols = layout.symbols();
    let sections = sections_for(edition, failed.len(), list.len());
    let start = head_length(sections);
    let steps = write_steps(subsets, symbols, wanted, &mut buffer[start..]);
    let number = steps.count;
    let reads = count(steps.sources);
    let head = PlanHead {
        count: first_count(edition),
        edition,
        disks: layout.disks,
        height: layout.height,
        data_symbols,
        reads,
    };
    write_head(head, failed, list, number, buffer);
    Written {
        length: sheet_length(sections, number),
        reads,
    }
}
