use crate::board::Board;
use crate::sides::Sides;
use dense::row::Row;

impl Sides<'_> {
    ghost use Rattle.std.specs.Prelude.{◌≡◌, ◌*◌, ◌<◌, length};
    ghost use Rattle.lts.specs.Machines.{some_below};
    ghost use Rattle.clauses.specs.Workspaces.{pairs};
    ghost use Rattle.dense.specs.Rows.{in_row};
    ghost use Rattle.ranks.specs.Boards.{module_of, contract_of, ranks_held, ReadyFor};
    ghost use Rattle.ranks.specs.Filled.{laid};
    ghost use Rattle.ranks.specs.Rounds.{strike, strikes, last_round, final_ranks};
    ghost use Rattle.ranks.specs.Steps.{Covers};

    /// Strikes each standing pair that fails against the pairs standing before the round, and sets the board up for the next one.
    fn strike_round(&self, board: &mut Board, ranks: &mut [u8], round: u16)
        requires room { length ranks.old ≡ 2 * pairs (module_of self.now) (contract_of self.now) }
        requires board { ReadyFor self.now ranks.old board.old }
        requires counts { 0 < round }
        ensures ranks { ranks_held self.now ranks.new ≡ strike (module_of self.now) (contract_of self.now) round (ranks_held self.now ranks.old) }
        ensures more { some_below 256 (in_row board.new.changed) ≡ strikes (module_of self.now) (contract_of self.now) (ranks_held self.now ranks.old) }
        ensures board { ReadyFor self.now ranks.new board.new }
    {
        self.strike_changed(board);
        board.mark_rows(ranks, self.module.size, self.contract.size, round);
    }

    /// Strikes round by round until a round strikes nothing; says how many rounds struck. Before the first round all pairs stand,
    /// and `covered` has those that pass the second clause.
    pub(crate) fn strike_all(&self, covered: [Row; 255], ranks: &mut [u8]) -> u16
        requires covers { Covers (module_of self.now) (contract_of self.now) covered }
        requires room { length ranks.old ≡ 2 * pairs (module_of self.now) (contract_of self.now) }
        ensures full { ranks.new ≡ laid (final_ranks (module_of self.now) (contract_of self.now)) }
        ensures last { result ≡ last_round (module_of self.now) (contract_of self.now) }
    {
        ranks.fill(0);
        let mut board = Board {
            stands: [Row::below(self.contract.size); 255],
            next: covered,
            changed: Row::below(self.module.size),
        };
        let mut done = 0;
        // A loop: it ends when a round strikes nothing, which no range tells.
        loop {
            self.strike_round(&mut board, ranks, done + 1);
            if board.changed.is_empty() {
                return done;
            }
            done += 1;
        }
    }
}
