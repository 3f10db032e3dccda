// A plan with the fewest reads for lost disks that leave at most 16 symbols, or the patterns that tell what is gone: document 02's §13.
#![tactic(auto)]

ghost use Rattle.std.specs.Prelude.{◌≡◌, length};
ghost use Rattle.code_sheets.specs.CodeReading.{reading};
ghost use Rattle.fewest_planner.specs.FewestReads.{FewestReads};
ghost use Rattle.fewest_planner.specs.FewestCall.{fewest_faults, fewest_verdict, AsPlanning};
ghost use Rattle.plan_sheets.specs.InnerPlanSheets.{EditionFits};
ghost use Rattle.plan_requests.specs.PlanRequests.{asked_by, listed_on_set};
ghost use Rattle.planning.specs.Planning.{as_planned, BufferLeft};
ghost use Rattle.refusals.specs.Orders.{outcome, outcome_of, first_of};

use bits::count;
use code_sheets::read_code;
use codes::Code;
use losses::lost_symbols;
use plan_requests::{PlanRequest, plan_test};
pub use planning::Planned;
use refusals::{Refusal, Verdict, refuse_if};

pub mod work; // work.rt: the work, once nothing is refused

use work::work_out_fewest;

// As many as 16 survivors have subsets: with these the search always finds the fewest.
const BRANCHINGS: usize = 65_536;

// 7, 24, 23, 34, 41.
fn fewest_test(code: &Code, request: PlanRequest, room: usize) -> Verdict
    requires { EditionFits request.edition request.disks.now request.wanted.now }
    ensures { outcome result ≡ first_of (fewest_faults code.now.layout (asked_by request.entry) room) }
{
    plan_test(code, request, room)?;
    let gone = lost_symbols(code.layout, request.disks);
    let survivors = code.layout.symbols() - count(gone);
    refuse_if(16 < survivors, Refusal::TooManySurvivors { survivors })
}

// Plans the rebuild of the listed symbols of a set of disks, of all without entries, with the fewest reads: an edition 3 plan sheet that has both lists as
// they were given, or patterns. A refusal changes no byte.
pub fn plan_fewest(
    sheet: &[u8],
    disks: &[u8],
    wanted: &[u8],
    buffer: &mut [u8],
) -> Result<Planned, Refusal>
    ensures refusal { outcome_of (as_planned result) ≡ fewest_verdict sheet.now (listed_on_set disks.now wanted.now) (length buffer.old) }
    ensures buffer { BufferLeft buffer.old buffer.new (as_planned result) }
    ensures planning { AsPlanning sheet.now (listed_on_set disks.now wanted.now) buffer.old buffer.new (as_planned result) }
    ensures fewest { FewestReads (reading sheet.now).code (listed_on_set disks.now wanted.now) (as_planned result) }
{
    let request = PlanRequest {
        edition: 3,
        disks,
        wanted,
    };
    let code = read_code(sheet)?;
    fewest_test(&code, request, buffer.len())?;
    Ok(work_out_fewest(&code, request, BRANCHINGS, buffer))
}
