// The theory of plans, of elimination and of stripes over sets of bits, and the steps of a plan.
#![tactic(auto)]

ghost use Rattle.std.specs.Prelude.{◌≡◌};

// One step of a plan, over symbol numbers (document 01, the plan sheet).
#[derive(Clone, Copy, Debug, PartialEq, Eq)]
pub enum Step {
    Clear { target: usize },
    Copy { target: usize, source: usize },
    Add { target: usize, source: usize },
}

impl Step {
    ghost use Rattle.gf2.specs.Plans.{target};

    // The place that a step writes.
    pub fn target(self) -> usize
        ensures { result ≡ target self }
    {
        match self {
            Step::Clear { target } | Step::Copy { target, .. } | Step::Add { target, .. } => target,
        }
    }
}
