// Checking and rebuilding for one disk, by its number: the calls about the set of that disk. A number that no byte holds is none of any array's.
#![tactic(auto)]

ghost use Rattle.std.specs.Prelude.{◌↔◌, ◌≡◌, [], ◌∷◌, ℕ, length};
ghost use Rattle.plans.specs.Check.{as_checked, checked};
ghost use Rattle.plans.specs.Demand2.{DeservesAcceptance};
ghost use Rattle.refusals.specs.Orders.{Fine, outcome, Gives};
ghost use Rattle.rebuild.specs.Rebuild.{rebuild_verdict, stripe_after, Restored};
ghost use Rattle.code_sheets.specs.CodeReading.{reading};

use checker::check;
use lists::disk_byte;
use rebuild::rebuild;
use refusals::{Refusal, Verdict};

// Judges a plan sheet for a code sheet and a failed disk. It answers and changes nothing.
pub fn check_disk(sheet: &[u8], disk: usize, plan: &[u8]) -> Result<usize, Refusal>
    ensures answer { as_checked result ≡ checked sheet.now (disk ∷ []) plan.now }
    ensures demand2 { (count : ℕ) → (as_checked result ≡ Gives count) ↔ DeservesAcceptance sheet.now (disk ∷ []) plan.now count }
{
    check(sheet, &[disk_byte(disk)], plan)
}

// Rebuilds the symbols of a failed disk that a plan wants. A refusal changes no byte.
pub fn rebuild_disk(
    sheet: &[u8],
    disk: usize,
    plan: &[u8],
    size: usize,
    stripe: &mut [u8],
) -> Verdict
    ensures answer { outcome result ≡ rebuild_verdict sheet.now (disk ∷ []) plan.now size (length stripe.old) }
    ensures stripe { stripe.new ≡ stripe_after sheet.now (disk ∷ []) plan.now size stripe.old }
    ensures restored { outcome result ≡ Fine → Restored (reading sheet.now).code (disk ∷ []) plan.now size stripe.old stripe.new }
{
    rebuild(sheet, &[disk_byte(disk)], plan, size, stripe)
}
