// A plan for lost disks, or for those of their symbols that are wanted, or the patterns that tell what is gone: demand 3, and document 02's §9.
#![tactic(auto)]

ghost use Rattle.std.specs.Prelude.{◌≡◌, length};
ghost use Rattle.refusals.specs.Orders.{outcome_of};
ghost use Rattle.plan_requests.specs.PlanRequests.{asked_by, whole_disk, listed_on, listed_on_set, planning_verdict};
ghost use Rattle.planning.specs.Planning.{as_planned, BufferLeft};
ghost use Rattle.planning.specs.Demand3.{Demand3, PlansWhereAnyCould, TellsGone, NothingGoneWherePlan, SamePatterns, SameSteps, RulesSayDemand2, Promised};
ghost use Rattle.plan_sheets.specs.InnerPlanSheets.{EditionFits};

use code_sheets::read_code;
use lists::disk_byte;
use plan_requests::{PlanRequest, plan_test};
pub use planning::Planned;
use planning::work_out;
use refusals::Refusal;

// Plans for failed disks and a list of wanted symbols; without entries all lost symbols are wanted.
fn plan_asked(sheet: &[u8], request: PlanRequest, buffer: &mut [u8]) -> Result<Planned, Refusal>
    requires { EditionFits request.edition request.disks.now request.wanted.now }
    ensures promised { Promised sheet.now (asked_by request.entry) buffer.old buffer.new (as_planned result) }
    ensures steps { SameSteps sheet.now (asked_by request.entry) buffer.new (as_planned result) }
{
    let code = read_code(sheet)?;
    plan_test(&code, request, buffer.len())?;
    Ok(work_out(&code, request, buffer))
}

// Plans the rebuild of a disk: an edition 1 plan sheet at the front of the buffer, or patterns and nothing written. A refusal changes no byte.
pub fn plan(sheet: &[u8], disk: usize, buffer: &mut [u8]) -> Result<Planned, Refusal>
    ensures refusal { outcome_of (as_planned result) ≡ planning_verdict sheet.now (whole_disk disk) (length buffer.old) }
    ensures buffer { BufferLeft buffer.old buffer.new (as_planned result) }
    ensures demand3 { Demand3 sheet.now (whole_disk disk) buffer.new (as_planned result) }
    ensures exactly { PlansWhereAnyCould sheet.now (whole_disk disk) (length buffer.old) (as_planned result) }
    ensures gone { TellsGone sheet.now (whole_disk disk) (as_planned result) }
    ensures none_gone { NothingGoneWherePlan sheet.now (whole_disk disk) (length buffer.old) (as_planned result) }
    ensures patterns { SamePatterns sheet.now (whole_disk disk) (as_planned result) }
    ensures rules { RulesSayDemand2 sheet.now (whole_disk disk) (length buffer.old) }
{
    let request = PlanRequest {
        edition: 1,
        disks: &[disk_byte(disk)],
        wanted: &[],
    };
    plan_asked(sheet, request, buffer)
}

// Plans the rebuild of the listed symbols of a disk alone: an edition 2 plan sheet that wants exactly these, or patterns. A refusal changes no byte.
pub fn plan_wanted(
    sheet: &[u8],
    disk: usize,
    wanted: &[u8],
    buffer: &mut [u8],
) -> Result<Planned, Refusal>
    ensures refusal { outcome_of (as_planned result) ≡ planning_verdict sheet.now (listed_on disk wanted.now) (length buffer.old) }
    ensures buffer { BufferLeft buffer.old buffer.new (as_planned result) }
    ensures demand3 { Demand3 sheet.now (listed_on disk wanted.now) buffer.new (as_planned result) }
    ensures exactly { PlansWhereAnyCould sheet.now (listed_on disk wanted.now) (length buffer.old) (as_planned result) }
    ensures gone { TellsGone sheet.now (listed_on disk wanted.now) (as_planned result) }
    ensures none_gone { NothingGoneWherePlan sheet.now (listed_on disk wanted.now) (length buffer.old) (as_planned result) }
    ensures patterns { SamePatterns sheet.now (listed_on disk wanted.now) (as_planned result) }
    ensures rules { RulesSayDemand2 sheet.now (listed_on disk wanted.now) (length buffer.old) }
{
    let request = PlanRequest {
        edition: 2,
        disks: &[disk_byte(disk)],
        wanted,
    };
    plan_asked(sheet, request, buffer)
}

// Plans the rebuild of the listed symbols of a set of disks, of all without entries: an edition 3 plan sheet that has both lists as they were given, or
// patterns. A refusal changes no byte.
pub fn plan_disks(
    sheet: &[u8],
    disks: &[u8],
    wanted: &[u8],
    buffer: &mut [u8],
) -> Result<Planned, Refusal>
    ensures refusal { outcome_of (as_planned result) ≡ planning_verdict sheet.now (listed_on_set disks.now wanted.now) (length buffer.old) }
    ensures buffer { BufferLeft buffer.old buffer.new (as_planned result) }
    ensures demand3 { Demand3 sheet.now (listed_on_set disks.now wanted.now) buffer.new (as_planned result) }
    ensures exactly { PlansWhereAnyCould sheet.now (listed_on_set disks.now wanted.now) (length buffer.old) (as_planned result) }
    ensures gone { TellsGone sheet.now (listed_on_set disks.now wanted.now) (as_planned result) }
    ensures none_gone { NothingGoneWherePlan sheet.now (listed_on_set disks.now wanted.now) (length buffer.old) (as_planned result) }
    ensures patterns { SamePatterns sheet.now (listed_on_set disks.now wanted.now) (as_planned result) }
    ensures rules { RulesSayDemand2 sheet.now (listed_on_set disks.now wanted.now) (length buffer.old) }
    ensures steps { SameSteps sheet.now (listed_on_set disks.now wanted.now) buffer.new (as_planned result) }
{
    let request = PlanRequest {
        edition: 3,
        disks,
        wanted,
    };
    plan_asked(sheet, request, buffer)
}
