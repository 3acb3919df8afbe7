//! The pairs that fail on one label, on all labels into a state, and on those into each state that changed.

use crate::board::Board;
use crate::sides::Sides;
use dense::row::Row;

impl Sides<'_> {
    ghost use Rattle.std.specs.Prelude.{◌<◌};
    ghost use Rattle.lts.specs.Machines.{each_below, implies};
    ghost use Rattle.dense.specs.Rows.{in_row};
    ghost use Rattle.ranks.specs.Boards.{module_of, answers, answers_all, Leaves};

    /// Leaves, with each state that weak-steps on the label to the state, only those that answer with a pair that stands.
    // A state is asked here and below, since the rows of the board are indexed by it.
    fn strike_label(&self, board: &mut Board, state: usize, label: u8)
        requires { state < (module_of self.now).size }
        ensures { Leaves self.now (λ p q. answers self.now board.old p q state label) board.old board.new }
    {
        let movers = self.module.steps_into(label, Row::empty().with(state));
        let answers = self.contract.steps_into(label, board.stands[state]);
        for (p, next) in board.next[..self.module.size].iter_mut().enumerate() {
            if movers.has(p) {
                *next = next.both(answers);
            }
        }
    }

    /// The same for each label on the moves into the state.
    fn strike_state(&self, board: &mut Board, state: usize)
        requires { state < (module_of self.now).size }
        ensures { Leaves self.now (λ p q. answers_all self.now board.old p q state) board.old board.new }
    {
        for label in self.arriving[state].iter() {
            self.strike_label(board, state, label);
        }
    }

    /// The same for each state whose pairs changed.
    pub(crate) fn strike_changed(&self, board: &mut Board)
        ensures { Leaves self.now (λ p q. each_below (module_of self.now).size (λ p'. implies (in_row board.old.changed p') (answers_all self.now board.old p q p'))) board.old board.new }
    {
        let changed = board.changed;
        // By number, since a row of bits has no iterator; a filter over the numbers would ask the same.
        for state in 0..self.module.size {
            if changed.has(state) {
                self.strike_state(board, state);
            }
        }
    }
}
