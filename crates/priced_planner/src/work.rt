// The work of a priced plan, once nothing is refused, for lost disks, away ones among them: the plan that ordinary planning gives, made cheaper by swaps.
ghost use Rattle.std.specs.Prelude.{length};
ghost use Rattle.codes.specs.Codes.{linear};
ghost use Rattle.plan_requests.specs.PlanRequests.{asked_by};
ghost use Rattle.planning.specs.InnerWork.{Workable};
ghost use Rattle.priced_planner.specs.PricedPlanner.{as_found};
ghost use Rattle.priced_planner.specs.InnerPriced.{StartHeld, WorkedPriced};
ghost use Rattle.refusals.specs.Orders.{Gives};

use crate::Priced;
use bits::{BitSet, BitSets};
use codes::Code;
use losses::{loss_of, lost_symbols};
use plan_requests::PlanRequest;
use plan_sheets::write_plan;
use planning::{array_of, subsets_from};
use prices::DiskStates;
use soundness::equations_for;
use swaps::settle;

// Swaps from the sets of the start on, by the equations among the survivors of the same lost disks, then the sheet of the steps from the final sets.
fn write_settled(
    code: &Code,
    request: PlanRequest,
    states: &DiskStates,
    wanted: BitSet,
    start: BitSets,
    buffer: &mut [u8],
) -> Priced
    requires { Workable (linear code.now) (asked_by request) (length buffer.old) × StartHeld (linear code.now) (asked_by request) wanted start }
    ensures { WorkedPriced (linear code.now) (asked_by request.entry) states.now buffer.old buffer.new (Gives (as_found result)) }
{
    let mut sets = start;
    let equations = equations_for(code, request.disks);
    let settling = settle(code.layout, states, equations, wanted, &mut sets);
    let written = write_plan(
        request.edition,
        code.layout,
        code.data_symbols,
        request.disks,
        request.wanted,
        wanted,
        sets,
        buffer,
    );
    Priced::Plan {
        length: written.length,
        reads: written.reads,
        sum: settling.cost,
        settled: settling.settled,
    }
}

// Works a priced plan out for lost disks and a list of wanted symbols: the patterns that tell what is gone, or the sets of the plan that ordinary planning
// gives, and swaps from there on.
pub fn work_out_priced(
    code: &Code,
    request: PlanRequest,
    states: &DiskStates,
    buffer: &mut [u8],
) -> Priced
    requires { Workable (linear code.now) (asked_by request) (length buffer.old) }
    ensures { WorkedPriced (linear code.now) (asked_by request.entry) states.now buffer.old buffer.new (Gives (as_found result)) }
{
    let layout = code.layout;
    let gone = lost_symbols(layout, request.disks);
    let loss = loss_of(layout, request.disks, gone, request.edition, request.wanted);
    match subsets_from(code, loss.wanted, loss.survivors) {
        Ok(subsets) => {
            let start = array_of(subsets.as_slice());
            write_settled(code, request, states, loss.wanted, start, buffer)
        }
        Err(lost) => Priced::Patterns(lost),
    }
}
