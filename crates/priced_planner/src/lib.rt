// A plan for lost disks where reads have prices: asked like planning for edition 3, and told the state of each disk.
#![tactic(auto)]

ghost use Rattle.std.specs.Prelude.{◌≡◌, length};
ghost use Rattle.codes.specs.Codes.{linear};
ghost use Rattle.plan_requests.specs.PlanRequests.{listed_on_set};
ghost use Rattle.planning.specs.InnerWork.{Workable};
ghost use Rattle.planning.specs.Planning.{BufferLeft};
ghost use Rattle.refusals.specs.Orders.{Gives, outcome_of};
ghost use Rattle.priced_planner.specs.PricedPlanner.{as_found, as_priced, unpriced, asked_with_away, priced_verdict, WantsAsAsked, AsPlanning, PatternsExactly, PricedBySwaps};
ghost use Rattle.priced_planner.specs.InnerPriced.{WorkedPriced};

use code_sheets::read_code;
use codes::Code;
use losses::{loss_of, lost_symbols};
use plan_requests::PlanRequest;
use prices::DiskStates;
use refusals::Refusal;
use solve::SetList;

pub mod requests; // requests.rt: what is tested before any work
pub mod lost_lists; // lost_lists.rt: the lists of the sheet
pub mod work; // work.rt: the plan of ordinary planning, made cheaper by swaps

use lost_lists::{entries_of, lost_disks};
use requests::priced_test;
use work::work_out_priced;

// What is answered: a plan sheet's length and read count with the sum of its charges, settled or stopped; or the patterns that tell what is gone where there
// is no plan.
#[derive(Clone, Copy)]
pub enum Priced {
    Plan {
        length: usize,
        reads: usize,
        sum: f64,
        settled: bool,
    },
    Patterns(SetList),
}

// Works a plan out with the away disks lost too. What is wanted is listed one by one: without a list it is all symbols of the disks asked about, and no more.
fn work_with_away(
    code: &Code,
    disks: &[u8],
    wanted: &[u8],
    states: &DiskStates,
    buffer: &mut [u8],
) -> Priced
    requires { Workable (linear code.now) (listed_on_set disks.now wanted.now) (length buffer.old) }
    ensures { WorkedPriced (linear code.now) (asked_with_away (linear code.now) (listed_on_set disks.now wanted.now) states.now) states.now buffer.old buffer.new (Gives (as_found result)) }
{
    let layout = code.layout;
    let lost = entries_of(lost_disks(disks, states, layout.disks), layout.disks);
    let gone = lost_symbols(layout, disks);
    let loss = loss_of(layout, disks, gone, 3, wanted);
    let list = entries_of(loss.wanted, loss.symbols);
    let request = PlanRequest {
        edition: 3,
        disks: lost.as_slice(),
        wanted: list.as_slice(),
    };
    work_out_priced(code, request, states, buffer)
}

// Plans the rebuild of the listed symbols of a set of disks, of all without entries, at the prices of the disks that are not away: an edition 3 plan sheet
// at the front of the buffer, or patterns and nothing written. A refusal changes no byte.
pub fn plan_priced(
    sheet: &[u8],
    disks: &[u8],
    wanted: &[u8],
    states: &DiskStates,
    buffer: &mut [u8],
) -> Result<Priced, Refusal>
    ensures refusal { outcome_of (as_priced result) ≡ priced_verdict sheet.now (listed_on_set disks.now wanted.now) states.now (length buffer.old) }
    ensures buffer { BufferLeft buffer.old buffer.new (unpriced (as_priced result)) }
    ensures wanted { WantsAsAsked sheet.now (listed_on_set disks.now wanted.now) states.now (length buffer.old) }
    ensures as_planning { AsPlanning sheet.now (listed_on_set disks.now wanted.now) states.now buffer.old buffer.new (as_priced result) }
    ensures exactly { PatternsExactly sheet.now (listed_on_set disks.now wanted.now) states.now (length buffer.old) (as_priced result) }
    ensures by_swaps { PricedBySwaps sheet.now (listed_on_set disks.now wanted.now) states.now buffer.new (as_priced result) }
{
    let code = read_code(sheet)?;
    priced_test(&code, disks, wanted, states, buffer.len())?;
    Ok(work_with_away(&code, disks, wanted, states, buffer))
}
