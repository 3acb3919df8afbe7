ghost use Rattle.std.specs.Prelude.{◌≡◌, ℕ, ◌<◌, ◌≤◌, true, false, length};
ghost use Rattle.lts.specs.Machines.{Machine};
ghost use Rattle.ranks.specs.Filled.{workspace_after};
ghost use Rattle.judge.specs.Verdicts.{judged};
ghost use Rattle.calls.specs.Contents.{machine_at, pile_machine};
ghost use Rattle.calls.specs.Calls.{fit, fit_result, fit_workspace, lacks_helper, yes_or_refused, after, RefusedExactly};
ghost use Rattle.calls.specs.Histories.{GoesOn};
ghost use Rattle.house.specs.Means.{means};

use crate::house::House;
use calls::{Pile, Refusal, Seat};
use judge::judging::judge;
use judge::relation::EveryPair;
use judge::verdict::{Answer, Verdict};
use layers::parallel::Parallel;
use layers::restrict::Restrict;
use source::source::Source;

/// The verdict, if it is yes.
fn judge_yes<P: Source, Q: Source>(
    module: &P,
    contract: &Q,
    workspace: &mut [u8],
) -> Result<Verdict, Refusal>
    ensures value { result ≡ yes_or_refused (judged (P.Source.means «module».now) (Q.Source.means contract.now) (length workspace.old)) }
    ensures workspace { workspace.new ≡ workspace_after (P.Source.means «module».now) (Q.Source.means contract.now) workspace.old }
{
    let verdict = judge::<EveryPair, P, Q>(module, contract, workspace)?;
    match verdict.answer {
        Answer::Yes => Ok(verdict),
        Answer::No {
            round,
            counterexample,
        } => Err(Refusal::DoesNotConform {
            round,
            counterexample,
        }),
    }
}

impl House {
    /// Judges a pile of tables against table `c`.
    fn judge_pile(&self, pile: Pile, c: u8, workspace: &mut [u8]) -> Result<Verdict, Refusal>
        requires contract { c < length (means self.now).tables }
        requires table { pile.table < length (means self.now).tables }
        requires helper { lacks_helper (length (means self.now).tables) pile.helper ≡ false }
        ensures value { result ≡ yes_or_refused (judged (pile_machine (means self.now).tables pile) (machine_at (means self.now).tables c) (length workspace.old)) }
        ensures workspace { workspace.new ≡ workspace_after (pile_machine (means self.now).tables pile) (machine_at (means self.now).tables c) workspace.old }
    {
        let names = pile.hidden;
        let inner = self.table_at(pile.table);
        let contract = self.table_at(c);
        // The two arms make sources of different types, so no closure serves for both.
        match pile.helper {
            None => judge_yes(&Restrict { names, inner }, &contract, workspace),
            Some(h) => {
                let pair = Parallel {
                    left: inner,
                    right: self.table_at(h),
                };
                judge_yes(&Restrict { names, inner: pair }, &contract, workspace)
            }
        }
    }

    /// Fits a pile on seat `s` if it conforms to the contract there, in place of what was fitted before.
    pub fn fit(&mut self, s: u8, pile: Pile, workspace: &mut [u8]) -> Result<Verdict, Refusal>
        ensures answer { result ≡ fit_result (means self.old) s pile (length workspace.old) }
        ensures house { means self.new ≡ after (means self.old) (fit s pile (length workspace.old)) }
        ensures workspace { workspace.new ≡ fit_workspace (means self.old) s pile workspace.old }
        ensures exactly { RefusedExactly (means self.old) s pile (length workspace.old) result }
        ensures history { GoesOn (means self.old) (fit s pile (length workspace.old)) (means self.new) }
    {
        let c = self.may_fit(s, pile)?;
        let verdict = self.judge_pile(pile, c, workspace)?;
        self.put(s, Seat::Fitted(c, pile));
        Ok(verdict)
    }
}
