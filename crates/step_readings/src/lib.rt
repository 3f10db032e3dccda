// A step of a plan sheet, read against the places known by then: a decoded step, or why it is refused.
#![tactic(auto)]

ghost use Rattle.std.specs.Prelude.{◌≡◌, ◌+◌, ◌≤◌, ◌<◌, length, IfOk};
ghost use Rattle.bits.specs.BitSets.{has};
ghost use Rattle.bits.specs.Numerals.{set_width, numeral};
ghost use Rattle.gf2.specs.Plans.{ready, NamesBelow};
ghost use Rattle.plan_sheets.specs.InnerPlanSheets.{StepsWithin};
ghost use Rattle.plan_sheets.specs.PlanSheets.{step_at};
ghost use Rattle.plans.specs.Judgement.{malformed, onto_itself, step_reading};
ghost use Rattle.plans.specs.InnerProgress.{as_step};

use bits::{BitSet, has};
use gf2::Step;
use plan_sheets::step::{SheetStep, step_at};
use refusals::{Refusal, refuse_if};

// 17: kind above 2, a number not below N, or clear with source not 0.
fn is_malformed(step: SheetStep, symbols: usize) -> bool
    ensures { result ≡ malformed symbols step }
{
    2 < step.kind
        || symbols <= step.target
        || symbols <= step.source
        || (step.kind == 0 && step.source != 0)
}

// 25: a copy or add whose source is its target; a clear has no source.
fn is_onto_itself(step: SheetStep) -> bool
    ensures { result ≡ onto_itself step }
{
    step.kind != 0 && step.source == step.target
}

// Whether every place that the step uses is known.
fn is_ready(step: Step, known: BitSet) -> bool
    requires { NamesBelow set_width step }
    ensures { result ≡ ready step (has (numeral known)) }
{
    match step {
        Step::Clear { .. } => true,
        Step::Copy { source, .. } => has(known, source),
        Step::Add { target, source } => has(known, target) && has(known, source),
    }
}

// In each step 17, 18, 25, 19.
#[tactic(auto, unfolding(plans::specs::Judgement::step_reading))]
fn judge_step(
    sheet_step: SheetStep,
    number: usize,
    symbols: usize,
    wanted: BitSet,
    known: BitSet,
) -> Result<Step, Refusal>
    requires { symbols ≤ set_width }
    ensures answer { as_step result ≡ step_reading symbols (has (numeral wanted)) (has (numeral known)) number sheet_step }
    ensures named { IfOk result (NamesBelow set_width) }
{
    let malformed = is_malformed(sheet_step, symbols);
    refuse_if(malformed, Refusal::MalformedStep { step: number })?;
    let is_wanted = has(wanted, sheet_step.target);
    refuse_if(!is_wanted, Refusal::TargetNotWanted { step: number })?;
    let onto_itself = is_onto_itself(sheet_step);
    refuse_if(onto_itself, Refusal::StepOntoItself { step: number })?;
    let step = Step::from(sheet_step);
    let ready = is_ready(step, known);
    refuse_if(!ready, Refusal::UnfilledPlaceUsed { step: number })?;
    Ok(step)
}

// Step `number` of the sheet.
pub fn read_step(
    steps: &[u8],
    number: usize,
    symbols: usize,
    wanted: BitSet,
    known: BitSet,
) -> Result<Step, Refusal>
    requires { (symbols ≤ set_width) × StepsWithin (number + 1) (length steps.now) }
    ensures answer { as_step result ≡ step_reading symbols (has (numeral wanted)) (has (numeral known)) number (step_at steps.now number) }
    ensures named { IfOk result (NamesBelow set_width) }
{
    judge_step(step_at(steps, number), number, symbols, wanted, known)
}
