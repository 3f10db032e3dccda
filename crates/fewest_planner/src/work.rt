// A plan with the fewest reads, once nothing is refused: the work of planning from a smallest set of survivors that is enough.
ghost use Rattle.std.specs.Prelude.{◌^◌, ◌≤◌, length};
ghost use Rattle.codes.specs.Codes.{linear};
ghost use Rattle.fewest_planner.specs.FewestReads.{FewestReads, survivor_count};
ghost use Rattle.plan_requests.specs.PlanRequests.{asked_by};
ghost use Rattle.planning.specs.Planning.{as_found};
ghost use Rattle.planning.specs.InnerWork.{Workable, Worked};
ghost use Rattle.refusals.specs.Orders.{Gives};

use codes::Code;
use fewest::fewest;
use losses::{loss_of, lost_symbols};
use plan_requests::PlanRequest;
use planning::{Planned, work_from};

// Works out a plan; it reads as few symbols as any accepted plan does, where the branchings that the search may make are as many as the survivors have
// subsets. Patterns where no plan exists.
pub fn work_out_fewest(
    code: &Code,
    request: PlanRequest,
    branchings: usize,
    buffer: &mut [u8],
) -> Planned
    requires { Workable (linear code.now) (asked_by request) (length buffer.old) }
    ensures worked { Worked (linear code.now) (asked_by request.entry) buffer.old buffer.new (Gives (as_found result)) }
    ensures fewest { 2 ^ survivor_count code.now.layout request.entry.disks.now ≤ branchings
        → FewestReads (linear code.now) (asked_by request.entry) (Gives (as_found result)) }
{
    let layout = code.layout;
    let gone = lost_symbols(layout, request.disks);
    let loss = loss_of(layout, request.disks, gone, request.edition, request.wanted);
    let chosen = fewest(
        code.matrix(),
        code.data_symbols,
        loss.survivors,
        loss.wanted,
        branchings,
    );
    work_from(code, request, loss.wanted, chosen, buffer)
}
