// A step of a plan sheet: 3 bytes, its kind, its target and its source.
ghost use Rattle.std.specs.Prelude.{◌≡◌, [], ◌∷◌, ◌+◌, length};
ghost use Rattle.gf2.specs.Plans.{NamesBelow};
ghost use Rattle.plan_sheets.specs.PlanSheets.{step_of, step_at};
ghost use Rattle.plan_sheets.specs.InnerPlanSheets.{with_steps, StepsWithin, StepsFit};

use gf2::Step;

// A step as a sheet has it.
#[derive(Clone, Copy)]
pub struct SheetStep {
    pub kind: usize,
    pub target: usize,
    pub source: usize,
}

// Step `number` of the part of a sheet that has its steps: all its bytes are there.
pub fn step_at(steps: &[u8], number: usize) -> SheetStep
    requires { StepsWithin (number + 1) (length steps.now) }
    ensures { result ≡ step_at steps.now number }
{
    let at = 3 * number;
    SheetStep {
        kind: steps[at] as usize,
        target: steps[at + 1] as usize,
        source: steps[at + 2] as usize,
    }
}

// Kind 0 is clear, kind 1 copy, kind 2 add.
impl From<SheetStep> for Step {
    ghost from_gives = { λ step result. result ≡ step_of step };

    fn from(step: SheetStep) -> Step {
        let SheetStep {
            kind,
            target,
            source,
        } = step;
        match kind {
            0 => Step::Clear { target },
            1 => Step::Copy { target, source },
            _ => Step::Add { target, source },
        }
    }
}

// The step that a sheet's step stands for.
pub fn decoded(step: SheetStep) -> Step
    ensures { result ≡ step_of step }
{
    Step::from(step)
}

// The 3 bytes of step `number`, in the part of the buffer behind the head: the kinds as they are read, and 0 for a clear's source.
pub fn write_step(step: Step, number: usize, buffer: &mut [u8])
    requires { NamesBelow 256 step × StepsFit number (step ∷ []) (length buffer.old) }
    ensures { buffer.new ≡ with_steps buffer.old number (step ∷ []) }
{
    let (kind, target, source) = match step {
        Step::Clear { target } => (0, target as u8, 0),
        Step::Copy { target, source } => (1, target as u8, source as u8),
        Step::Add { target, source } => (2, target as u8, source as u8),
    };
    // Three stores: of an array that is copied, the compiler makes one byte and two, which wait for the bytes just stored.
    let at = 3 * number;
    buffer[at] = kind;
    buffer[at + 1] = target;
    buffer[at + 2] = source;
}
