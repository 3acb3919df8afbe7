//! What the rounds ask again and again of the two machines, found once.

ghost use Rattle.std.specs.Prelude.{◌≡◌, ℕ, ◌*◌, ◌<◌, ◌≤◌, ◌&&◌, length, nat_lt};
ghost use Rattle.lts.specs.Labels.{member};
ghost use Rattle.lts.specs.Machines.{Machine, some_below};
ghost use Rattle.closure.specs.Sheets.{Closed};
ghost use Rattle.clauses.specs.Ranks.{reads};
ghost use Rattle.dense.specs.Copies.{meaning};
ghost use Rattle.dense.specs.Rows.{in_row};
ghost use Rattle.ranks.specs.Steps.{in_rows, ClosureRows, Arriving, steps_into};

use crate::states::by_state;
use dense::machine::Dense;
use dense::row::Row;
use labels::LabelSet;

/// A machine with the number of its states and its tau closure as rows.
// Fixed memory: a row for each state that a machine can have. No ArrayVec, as only a state is ever an index: none asks how many rows there are.
#[derive(Drop)]
pub(crate) struct Side<'a> {
    pub(crate) machine: &'a Dense,
    pub(crate) size: usize,
    pub(crate) closure: [Row; 255],
    ghost sized: { size ≡ (meaning machine.now).size },
    ghost closed: { ClosureRows (meaning machine.now) closure },
}

/// Both machines, and the labels on the moves into each state of the module.
#[derive(Drop)]
pub(crate) struct Sides<'a> {
    pub(crate) module: Side<'a>,
    pub(crate) contract: Side<'a>,
    pub(crate) arriving: [LabelSet; 255],
    ghost arrives: { Arriving (meaning «module».machine.now) arriving },
}

/// Row `p` of a closure.
fn closure_row(sheet: &[u8], n: usize, p: usize) -> Row
    requires room { n * n ≤ length sheet.now }
    requires inside { p < n }
    ensures { (t : ℕ) → t < 256 → in_row result t ≡ (nat_lt t n && reads sheet.now n p t) }
{
    Row::of(n, |t| sheet[p * n + t] == 1)
}

/// Whether some state moves on the label to the state.
fn arrives(module: &Dense, label: u8, state: usize) -> bool
    ensures { result ≡ some_below (meaning «module».now).size (λ t. (meaning «module».now).move t label state) }
{
    !module.before(label, Row::empty().with(state)).is_empty()
}

/// The labels on the moves into the state.
fn labels_into(module: &Dense, state: usize) -> LabelSet
    ensures { (l : ℕ) → l < 64 → member result.0 l ≡ some_below (meaning «module».now).size (λ t. (meaning «module».now).move t l state) }
{
    LabelSet::of(|label| arrives(module, label, state))
}

impl<'a> Side<'a> {
    /// Reads the closure from a sheet that begins with it.
    pub(crate) fn of(machine: &'a Dense, size: usize, sheet: &[u8]) -> Side<'a>
        requires states { size ≡ (meaning machine.now).size }
        requires closed { Closed (meaning machine.now) sheet.now }
        ensures { result.machine.now ≡ machine.now }
    {
        Side {
            machine,
            size,
            closure: by_state(size, Row::empty(), |p| closure_row(sheet, size, p)),
        }
    }

    /// The states that weak-step on the label into the set.
    pub(crate) fn steps_into(&self, label: u8, states: Row) -> Row
        ensures { (p : ℕ) → p < self.now.size → in_row result p ≡ steps_into (meaning self.now.machine.now) (in_row states) label p }
    {
        let before = self.machine.before(label, states);
        let closure = &self.closure;
        Row::of(self.size, |p| closure[p].meets(before))
    }
}

impl<'a> Sides<'a> {
    /// Asks the module for its labels.
    pub(crate) fn of(module: Side<'a>, contract: Side<'a>) -> Sides<'a>
        ensures own { result.«module» ≡ «module».entry }
        ensures other { result.contract ≡ contract.entry }
    {
        let arriving = by_state(module.size, LabelSet::empty(), |p| {
            labels_into(module.machine, p)
        });
        Sides {
            module,
            contract,
            arriving,
        }
    }
}
