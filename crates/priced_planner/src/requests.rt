// What is tested before any work: as of planning for edition 3, then 42.
ghost use Rattle.std.specs.Prelude.{◌≡◌};
ghost use Rattle.plan_requests.specs.PlanRequests.{listed_on_set};
ghost use Rattle.refusals.specs.Orders.{outcome, first_of};
ghost use Rattle.priced_planner.specs.PricedPlanner.{priced_faults};

use codes::Code;
use plan_requests::{PlanRequest, plan_test};
use prices::DiskStates;
use prices::states::first_bad_state;
use refusals::{Refusal, Verdict, refuse_if};

// 7, 24, 23, 34, 42.
pub fn priced_test(
    code: &Code,
    disks: &[u8],
    wanted: &[u8],
    states: &DiskStates,
    buffer_length: usize,
) -> Verdict
    ensures { outcome result ≡ first_of (priced_faults code.now.layout (listed_on_set disks.now wanted.now) states.now buffer_length) }
{
    let request = PlanRequest {
        edition: 3,
        disks,
        wanted,
    };
    plan_test(code, request, buffer_length)?;
    let bad = first_bad_state(states, code.layout.disks);
    refuse_if(bad < code.layout.disks, Refusal::BadDiskState { disk: bad })
}
