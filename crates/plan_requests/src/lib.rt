// What can be asked of planning, and what is tested of it, behind the code sheet: 7, 24, 23, 34 in their order.
#![tactic(auto)]

ghost use Rattle.std.specs.Prelude.{◌≡◌, cond, ◌++◌, eqb};
ghost use Rattle.bits.specs.BitSets.{has, count};
ghost use Rattle.bits.specs.Numerals.{numeral};
ghost use Rattle.lists.specs.Lists.{list_faults};
ghost use Rattle.plans.specs.Judgement.{least_wanted};
ghost use Rattle.refusals.specs.Orders.{outcome, first_of};
ghost use Rattle.refusals.specs.Refusals.{◌at◌};
ghost use Rattle.plan_requests.specs.PlanRequests.{asked_by, least_buffer, room_faults, planning_faults};

use bits::BitSet;
use codes::Code;
use lists::{disks_test, wanted_test};
use losses::bounds::{least_wanted, most_wanted};
use losses::lost_symbols;
use refusals::{Refusal, Verdict, refuse_if};

// What planning is asked: the edition of the sheet, the failed disks, and the list of wanted symbols, which edition 1 does not have.
#[derive(Clone, Copy)]
pub struct PlanRequest<'a> {
    pub edition: usize,
    pub disks: &'a [u8],
    pub wanted: &'a [u8],
}

// The least buffer for a sheet of any plan.
fn least_buffer(edition: usize) -> usize
    ensures { result ≡ least_buffer edition }
{
    match edition {
        3 => 3210,
        2 => 3114,
        _ => 3081,
    }
}

// 23, 34: these symbols are lost.
fn list_and_room_test(edition: usize, gone: BitSet, wanted: &[u8], buffer_length: usize) -> Verdict
    ensures { outcome result ≡ first_of (list_faults (least_wanted edition) (cond (eqb edition 1) 0 (count (numeral gone))) (has (numeral gone)) wanted.now (λ position. 23 at position) ++ room_faults edition buffer_length) }
{
    let most = most_wanted(edition, gone);
    wanted_test(wanted, least_wanted(edition), most, gone)?;
    refuse_if(
        buffer_length < least_buffer(edition),
        Refusal::PlanBufferTooShort,
    )
}

// 7, 24, 23, 34.
pub fn plan_test(code: &Code, request: PlanRequest, buffer_length: usize) -> Verdict
    ensures { outcome result ≡ first_of (planning_faults code.now.layout (asked_by request.entry) buffer_length) }
{
    let layout = code.layout;
    disks_test(layout.disks, layout.disks, request.disks)?;
    let gone = lost_symbols(layout, request.disks);
    list_and_room_test(request.edition, gone, request.wanted, buffer_length)
}
