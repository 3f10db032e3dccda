// The steps of a plan sheet, run on the rows until one is refused.
#![tactic(auto)]

ghost use Rattle.std.specs.Prelude.{◌≡◌, ◌≤◌, length};
ghost use Rattle.bits.specs.BitSets.{has};
ghost use Rattle.bits.specs.Numerals.{set_width, numeral, numerals};
ghost use Rattle.plan_sheets.specs.InnerPlanSheets.{StepsWithin};
ghost use Rattle.plan_sheets.specs.PlanSheets.{sheet_steps};
ghost use Rattle.plans.specs.InnerProgress.{source_of, value_of, reached, Progressed};

use bits::{BitSet, BitSets, empty, sum, with};
use gf2::Step;
use losses::Loss;
use plans::progress::Progress;
use refusals::Refusal;
use step_readings::read_step;

// The place that a step reads; a clear has no source, and its own target stands for one.
fn source_of(step: Step) -> usize
    ensures { result ≡ source_of step }
{
    match step {
        Step::Clear { target } => target,
        Step::Copy { source, .. } | Step::Add { source, .. } => source,
    }
}

// What a step makes of what its target held and its source holds.
fn value_of(step: Step, old: BitSet, source: BitSet) -> BitSet
    ensures { numeral result ≡ value_of step (numeral old) (numeral source) }
{
    match step {
        Step::Clear { .. } => empty(),
        Step::Copy { .. } => source,
        Step::Add { .. } => sum(old, source),
    }
}

// Runs the steps of a sheet, given as its bytes from the first step on, on the rows; each is read against the places known by then. The
// first faulty step ends the run.
#[tactic(auto, using(crate::proofs::PlaceLaws::named_target, crate::proofs::PlaceLaws::named_source))]
pub fn run_on_rows(
    code_rows: BitSets,
    loss: Loss,
    steps: &[u8],
    count: usize,
) -> Result<Progress, Refusal>
    requires { (loss.symbols ≤ set_width) × StepsWithin count (length steps.now) }
    ensures { Progressed loss.symbols (has (numeral loss.wanted)) (numerals code_rows) (numeral loss.survivors) (sheet_steps count steps.now) (reached result) }
{
    let symbols = loss.symbols;
    let wanted = loss.wanted;
    let mut rows = code_rows;
    let mut known = loss.survivors;
    let mut sources = empty();
    for number in 0..count {
        let reading = read_step(steps, number, symbols, wanted, known);
        let Ok(step) = reading else {
            return Err(reading.unwrap_err());
        };
        let target = step.target();
        let source = source_of(step);
        rows[target] = value_of(step, rows[target], rows[source]);
        known = with(known, target);
        sources = with(sources, source);
    }
    Ok(Progress {
        rows,
        known,
        sources,
    })
}
