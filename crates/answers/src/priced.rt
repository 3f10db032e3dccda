// How the answers of priced planning go out to C.
ghost use Rattle.std.specs.Prelude.{◌≡◌};
ghost use Rattle.priced_planner.specs.PricedPlanner.{as_priced, unpriced};
ghost use Rattle.answers.specs.InnerFits.{PatternFits};
ghost use Rattle.answers.specs.PricedAnswers.{out_priced};

use crate::out_patterns;
use priced_planner::Priced;
use refusals::Refusal;

// A plan's length, read count and sum, with 1 for settled and 0 for stopped; or how many patterns there are and the first of them: navorzim_priced in C. Sets
// are one word: pattern_high is 0.
#[repr(C)]
#[derive(Clone, Copy)]
pub struct OutPriced {
    pub number: u64,
    pub place: usize,
    pub length: usize,
    pub reads: usize,
    pub settled: usize,
    pub sum: f64,
    pub pattern: u64,
    pub pattern_high: u64,
    pub patterns: usize,
}

// The answer of priced planning, as it goes out.
#[tactic(auto, using(prices::proofs::PriceLaws::zero_is))]
pub fn out_priced(answer: &Result<Priced, Refusal>) -> OutPriced
    requires { PatternFits (unpriced (as_priced answer.now)) }
    ensures { result ≡ out_priced (as_priced answer.now) }
{
    match answer {
        Ok(
            Priced::Plan {
                length,
                reads,
                sum,
                settled,
            },
        ) => OutPriced {
            number: 0,
            place: 0,
            length: *length,
            reads: *reads,
            settled: if *settled { 1 } else { 0 },
            sum: *sum,
            pattern: 0,
            pattern_high: 0,
            patterns: 0,
        },
        Ok(Priced::Patterns(patterns)) => {
            let shown = out_patterns(patterns);
            OutPriced {
                number: 0,
                place: 0,
                length: 0,
                reads: 0,
                settled: 0,
                sum: 0.0,
                pattern: shown.pattern,
                pattern_high: 0,
                patterns: shown.patterns,
            }
        }
        Err(refusal) => OutPriced {
            number: refusal.number(),
            place: refusal.place(),
            length: 0,
            reads: 0,
            settled: 0,
            sum: 0.0,
            pattern: 0,
            pattern_high: 0,
            patterns: 0,
        },
    }
}
