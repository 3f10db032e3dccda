// How the answers of the tester for survivors go out to C.
ghost use Rattle.std.specs.Prelude.{◌≡◌};
ghost use Rattle.soundness.specs.Survivors.{as_listed, as_tested};
ghost use Rattle.answers.specs.SurvivorAnswers.{out_equations, out_equation, out_tested};

use crate::{OutSet, listed_word};
use elimination::SetList;
use refusals::Refusal;
use soundness::Tested;

// How many equations there are: navorzim_count in C.
#[repr(C)]
#[derive(Clone, Copy)]
pub struct OutCount {
    pub number: u64,
    pub place: usize,
    pub count: usize,
}

// Whether survivors can be sound: 1, or 0 and a column. navorzim_tested in C.
#[repr(C)]
#[derive(Clone, Copy)]
pub struct OutTested {
    pub number: u64,
    pub place: usize,
    pub sound: usize,
    pub column: usize,
}

impl From<&Result<SetList, Refusal>> for OutCount {
    ghost from_gives = { λ listed out. out ≡ out_equations (as_listed listed.now) };

    fn from(listed: &Result<SetList, Refusal>) -> OutCount {
        match listed {
            Ok(equations) => OutCount {
                number: 0,
                place: 0,
                count: equations.len(),
            },
            Err(refusal) => OutCount {
                number: refusal.number(),
                place: refusal.place(),
                count: 0,
            },
        }
    }
}

// One equation, as it goes out.
pub fn out_equation(listed: &Result<SetList, Refusal>, index: usize) -> OutSet
    ensures { result ≡ out_equation (as_listed listed.now) index }
{
    match listed {
        Ok(equations) => OutSet {
            number: 0,
            place: 0,
            low: listed_word(equations, index),
            high: 0,
        },
        Err(refusal) => OutSet {
            number: refusal.number(),
            place: refusal.place(),
            low: 0,
            high: 0,
        },
    }
}

impl From<Result<Tested, Refusal>> for OutTested {
    ghost from_gives = { λ tested out. out ≡ out_tested (as_tested tested) };

    fn from(tested: Result<Tested, Refusal>) -> OutTested {
        match tested {
            Ok(Tested::Sound) => OutTested {
                number: 0,
                place: 0,
                sound: 1,
                column: 0,
            },
            Ok(Tested::Unsound { column }) => OutTested {
                number: 0,
                place: 0,
                sound: 0,
                column,
            },
            Err(refusal) => OutTested {
                number: refusal.number(),
                place: refusal.place(),
                sound: 0,
                column: 0,
            },
        }
    }
}
