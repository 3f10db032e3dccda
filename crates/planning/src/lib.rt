// The work of planning, once nothing is refused: elimination over the surviving rows, then a plan sheet, or the patterns that tell what is gone.
#![tactic(auto)]

ghost use Rattle.std.specs.Prelude.{◌≡◌, ◌≤◌, length, IfOk, IfErr};
ghost use Rattle.bits.specs.BitSets.{has};
ghost use Rattle.bits.specs.Numerals.{set_width, numeral, numerals, padded};
ghost use Rattle.codes.specs.Codes.{linear};
ghost use Rattle.plan_requests.specs.PlanRequests.{asked_by};
ghost use Rattle.planning.specs.Planning.{as_found};
ghost use Rattle.refusals.specs.Orders.{Gives};
ghost use Rattle.planning.specs.InnerWork.{Workable, Chosen, SubsetsFound, PatternsLost, WorkedFrom};
ghost use Rattle.plans.specs.Judgement.{survives};

use bits::{BitSet, BitSets, empty_sets, is_empty};
use codes::Code;
use losses::{loss_of, lost_symbols};
use plan_requests::PlanRequest;
use plan_sheets::write_plan;
use solve::{SetList, eliminate_known};

// What planning gives: a plan sheet's length and read count, or the patterns that tell what is gone where there is no plan.
#[derive(Clone, Copy)]
pub enum Planned {
    Plan { length: usize, reads: usize },
    Patterns(SetList),
}

// Elimination over the rows of known symbols: for each wanted symbol a subset of the known ones that sums to it, or the patterns that are lost where some
// wanted symbol is out of reach.
pub fn subsets_from(code: &Code, wanted: BitSet, known: BitSet) -> Result<SetList, SetList>
    ensures found { IfOk result (λ subsets. SubsetsFound (linear code.now) (has (numeral known)) (has (numeral wanted)) (numerals subsets.items)) }
    ensures lost { IfErr result (λ lost. PatternsLost (linear code.now) (has (numeral known)) (has (numeral wanted)) (numerals lost.items)) }
{
    let rows = code.matrix();
    let eliminated = eliminate_known(code.rows, code.layout.symbols(), code.data_symbols, known);
    if !is_empty(eliminated.odd_pattern(rows, wanted)) {
        return Err(eliminated.lost_patterns(rows, wanted));
    }
    Ok(eliminated.wanted_subsets(rows, wanted))
}

// An array that begins with these sets.
pub fn array_of(sets: &[BitSet]) -> BitSets
    requires { length sets.now ≤ set_width }
    ensures { numerals result ≡ padded (numerals sets.now) }
{
    let mut array = empty_sets();
    array[..sets.len()].copy_from_slice(sets);
    array
}

// Works a plan out from known symbols, some of the survivors or all. The sheet is written only when every wanted row is known to have its subset.
pub fn work_from(
    code: &Code,
    request: PlanRequest,
    wanted: BitSet,
    known: BitSet,
    buffer: &mut [u8],
) -> Planned
    requires { Workable (linear code.now) (asked_by request) (length buffer.old) × Chosen (linear code.now) (asked_by request) (has (numeral wanted)) (has (numeral known)) }
    ensures { WorkedFrom (linear code.now) (asked_by request.entry) (has (numeral known)) buffer.old buffer.new (Gives (as_found result)) }
{
    let subsets = match subsets_from(code, wanted, known) {
        Ok(subsets) => subsets,
        Err(lost) => return Planned::Patterns(lost),
    };
    let written = write_plan(
        request.edition,
        code.layout,
        code.data_symbols,
        request.disks,
        request.wanted,
        wanted,
        array_of(subsets.as_slice()),
        buffer,
    );
    Planned::Plan {
        length: written.length,
        reads: written.reads,
    }
}

// Works a plan out from all survivors.
pub fn work_out(code: &Code, request: PlanRequest, buffer: &mut [u8]) -> Planned
    requires { Workable (linear code.now) (asked_by request) (length buffer.old) }
    ensures { WorkedFrom (linear code.now) (asked_by request.entry) (survives code.now.layout request.entry.disks.now) buffer.old buffer.new (Gives (as_found result)) }
{
    let layout = code.layout;
    let gone = lost_symbols(layout, request.disks);
    let loss = loss_of(layout, request.disks, gone, request.edition, request.wanted);
    work_from(code, request, loss.wanted, loss.survivors, buffer)
}
