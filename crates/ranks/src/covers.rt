//! The pairs that pass the second clause, which does not depend on the pairs that stand.

ghost use Rattle.std.specs.Prelude.{◌≡◌, ℕ, ◌<◌, ◌≤◌, not, ◌&&◌, nat_lt};
ghost use Rattle.lts.specs.Machines.{some_below};
ghost use Rattle.dense.specs.Rows.{in_row};
ghost use Rattle.ranks.specs.Steps.{in_rows};

use crate::sides::Sides;
use crate::states::by_state;
use clauses::rests::uncovered;
use dense::row::Row;

/// The states of the contract from which all rests of a closure are covered.
// The bound is asked, since `bare` has no element from 255 on.
fn cover_row(closure: Row, bare: &[Row; 255], m: usize) -> Row
    requires { m ≤ 255 }
    ensures { (q : ℕ) → q < 256 → in_row result q ≡ (nat_lt q m && not (some_below 256 (λ p. in_row closure p && in_rows bare.now q p))) }
{
    Row::of(m, |q| !closure.meets(bare[q]))
}

impl Sides<'_> {
    ghost use Rattle.closure.specs.Sheets.{Closed};
    ghost use Rattle.ranks.specs.Boards.{module_of, contract_of};
    ghost use Rattle.clauses.specs.Uncovered.{uncovered_in};
    ghost use Rattle.dense.specs.Copies.{meaning};
    ghost use Rattle.ranks.specs.Steps.{Covers};

    /// With each state of the contract, those of the module at which a rest is not covered.
    fn uncovered_rows(&self, sheet: &[u8]) -> [Row; 255]
        ensures { (q p : ℕ) → q < (contract_of self.now).size → p < 256 → in_rows result q p ≡ uncovered_in (module_of self.now) (contract_of self.now) sheet.now q p }
    {
        let module = self.module.machine;
        let contract = self.contract.machine;
        by_state(
            self.contract.size,
            Row::empty(),
            |q| -> Row
                ensures { (p : ℕ) → p < 256 → in_row result p ≡ uncovered_in (meaning «module».entry.now) (meaning contract.entry.now) sheet.entry.now q p }
            { uncovered(module, contract, sheet, q) },
        )
    }

    /// The pairs that pass the second clause, by the closure of the contract.
    pub(crate) fn cover(&self, sheet: &[u8]) -> [Row; 255]
        requires { Closed (contract_of self.now) sheet.now }
        ensures { Covers (module_of self.now) (contract_of self.now) result }
    {
        let bare = self.uncovered_rows(sheet);
        let m = self.contract.size;
        let closure = &self.module.closure;
        by_state(
            self.module.size,
            Row::empty(),
            |p| cover_row(closure[p], &bare, m),
        )
    }
}
