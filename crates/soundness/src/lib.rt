// A tester for survivors: the equations among them, and whether they can be sound.
#![tactic(auto)]

ghost use Rattle.std.specs.Prelude.{◌≡◌, ◌*◌, ◌≤◌, length};
ghost use Rattle.bits.specs.Numerals.{numerals};
ghost use Rattle.code_sheets.specs.CodeReading.{reading};
ghost use Rattle.codes.specs.Codes.{linear, symbols};
ghost use Rattle.lists.specs.Lists.{GoodDisks};
ghost use Rattle.refusals.specs.Orders.{Gives, outcome, outcome_of, first_of};
ghost use Rattle.soundness.specs.Survivors.{equations_verdict, test_faults, test_verdict, as_listed, EquationsFor, ListsEquations, survivor_equations, ListsAlways, as_said, as_tested, Says, YesExactlyIfSound};

use code_sheets::read_code;
use codes::{Code, stripe_test};
use equations::equations_among;
use lists::disks_test;
use losses::{loss_of, lost_symbols};
use refusals::{Refusal, Verdict};
use solve::SetList;

pub mod columns; // columns.rt: the lowest column of a stripe in which an equation fails

use columns::lowest_failing;

// What the test answers: the survivors can be sound, or not, with the lowest column that shows it.
#[derive(Clone, Copy, Debug, PartialEq, Eq)]
pub enum Tested {
    Sound,
    Unsound { column: usize },
}

// 7, 24, 31, 32.
fn survivors_test(code: &Code, disks: &[u8], size: usize, stripe_bytes: usize) -> Verdict
    ensures { outcome result ≡ first_of (test_faults code.now.layout disks.now size stripe_bytes) }
{
    let layout = code.layout;
    disks_test(layout.disks, layout.disks, disks)?;
    stripe_test(layout.symbols(), size, stripe_bytes)
}

// The equations among the survivors of a good set of lost disks.
pub fn equations_for(code: &Code, disks: &[u8]) -> SetList
    requires { GoodDisks code.now.layout.disks code.now.layout.disks disks.now }
    ensures list { numerals result.items ≡ survivor_equations (linear code.now) disks.now }
    ensures equations { EquationsFor (linear code.now) disks.now (numerals result.items) }
{
    let layout = code.layout;
    let gone = lost_symbols(layout, disks);
    let loss = loss_of(layout, disks, gone, 3, &[]);
    equations_among(
        code.rows,
        layout.symbols(),
        code.data_symbols,
        loss.survivors,
    )
}

// A list of equations among the survivors of a set of lost disks: sets of surviving symbols whose rows sum to zero. Survivors meet all of them exactly
// if they come from some data.
pub fn list_equations(sheet: &[u8], disks: &[u8]) -> Result<SetList, Refusal>
    ensures refusal { outcome_of (as_listed result) ≡ equations_verdict sheet.now disks.now }
    ensures equations { ListsEquations sheet.now disks.now (as_listed result) }
    ensures list { ListsAlways sheet.now disks.now (as_listed result) }
{
    let code = read_code(sheet)?;
    disks_test(code.layout.disks, code.layout.disks, disks)?;
    Ok(equations_for(&code, disks))
}

// The test, once nothing is refused.
fn test_by_equations(code: &Code, disks: &[u8], size: usize, stripe: &[u8]) -> Tested
    requires { GoodDisks code.now.layout.disks code.now.layout.disks disks.now × (size ≤ 65536) × (length stripe.now ≡ symbols (linear code.now) * size) }
    ensures { Says (linear code.now) disks.now size stripe.now (Gives (as_said result)) }
{
    let equations = equations_for(code, disks);
    let lowest = lowest_failing(equations.as_slice(), code.layout.symbols(), size, stripe);
    if lowest < size {
        return Tested::Unsound { column: lowest };
    }
    Tested::Sound
}

// Whether the survivors of a set of lost disks can be sound: some valid stripe agrees with the lent one on every surviving byte. Where none does, the
// lowest byte column within a symbol for which none does. Nothing is written.
pub fn test_survivors(
    sheet: &[u8],
    disks: &[u8],
    size: usize,
    stripe: &[u8],
) -> Result<Tested, Refusal>
    ensures refusal { outcome_of (as_tested result) ≡ test_verdict sheet.now disks.now size (length stripe.now) }
    ensures says { Says (reading sheet.now).code disks.now size stripe.now (as_tested result) }
    ensures exactly { YesExactlyIfSound sheet.now disks.now size stripe.now (as_tested result) }
{
    let code = read_code(sheet)?;
    survivors_test(&code, disks, size, stripe.len())?;
    Ok(test_by_equations(&code, disks, size, stripe))
}
