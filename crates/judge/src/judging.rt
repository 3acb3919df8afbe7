ghost use Rattle.std.specs.Prelude.{◌≡◌, ◌<◌, length, drop, MatchOption};
ghost use Rattle.lts.specs.Machines.{Machine};
ghost use Rattle.clauses.specs.Workspaces.{base};
ghost use Rattle.dense.specs.Copies.{meaning};
ghost use Rattle.ranks.specs.Rounds.{last_round};
ghost use Rattle.ranks.specs.Filled.{workspace_after};
ghost use Rattle.judge.specs.Cases.{WorkedCases};
ghost use Rattle.judge.specs.Promises.{FindsTheLargest, ContextKeepsYes, CounterexampleFails};
ghost use Rattle.judge.specs.Verdicts.{start_rank, Holding, answer, verdict, judged};

use crate::verdict::{Answer, Verdict};
use clauses::counterexample::Counterexample;
use clauses::ranks::rank;
use clauses::scan::first_failing_copied;
use dense::machine::Dense;
use lts::machines::Relation;
use ranks::filling::fill_copied;
use source::refusal::Refusal;
use source::source::Source;

/// Two machines, and a workspace that holds their closures and final ranks.
#[derive(Drop)]
struct Filled<'a> {
    module: &'a Dense,
    contract: &'a Dense,
    workspace: &'a [u8],
    ghost holding: { Holding (meaning «module».now) (meaning contract.now) workspace.now },
}

impl Filled<'_> {
    /// How many states each machine has.
    fn sizes(&self) -> (usize, usize)
        ensures { (result.0 ≡ (meaning self.now.«module».now).size) × (result.1 ≡ (meaning self.now.contract.now).size) }
    {
        (
            usize::from(self.module.size()),
            usize::from(self.contract.size()),
        )
    }

    /// The ranks, behind the two closures.
    fn ranks(&self) -> &[u8]
        ensures { result.now ≡ drop (base (meaning self.now.«module».now) (meaning self.now.contract.now)) self.now.workspace.now }
    {
        let (n, m) = self.sizes();
        &self.workspace[n * n + m * m..]
    }

    /// How many of the pairs stand.
    fn standing(&self) -> u16
        ensures { result ≡ (verdict (meaning self.now.«module».now) (meaning self.now.contract.now)).standing }
    {
        let (n, m) = self.sizes();
        let ranks = self.ranks();
        (0..n * m).filter(|i| rank(ranks, *i) == 0).count() as u16
    }

    /// The round that struck the pair of the starts, if one did.
    fn round(&self) -> Option<u16>
        ensures { MatchOption result (start_rank (meaning self.now.«module».now) (meaning self.now.contract.now) ≡ 0) (λ round. (round ≡ start_rank (meaning self.now.«module».now) (meaning self.now.contract.now)) × (0 < round)) }
    {
        let (_, m) = self.sizes();
        let starts = self.module.start() * m + self.contract.start();
        let rank = rank(self.ranks(), starts);
        (rank > 0).then_some(rank)
    }

    /// The answer that the ranks give.
    fn answer(&self) -> Answer
        ensures { result ≡ answer (meaning self.now.«module».now) (meaning self.now.contract.now) }
    {
        let Some(round) = self.round() else {
            return Answer::Yes;
        };
        let p = self.module.start();
        let q = self.contract.start();
        let found = first_failing_copied(self.module, self.contract, self.workspace, round, p, q);
        let Some(counterexample) = found else {
            unreachable!()
        };
        Answer::No {
            round,
            counterexample,
        }
    }

    /// The verdict, where the round struck last.
    fn verdict(&self, highest: u16) -> Verdict
        requires { highest ≡ last_round (meaning self.now.«module».now) (meaning self.now.contract.now) }
        ensures { result ≡ verdict (meaning self.now.«module».now) (meaning self.now.contract.now) }
    {
        let (states, others) = self.sizes();
        Verdict {
            states,
            others,
            highest,
            standing: self.standing(),
            answer: self.answer(),
        }
    }
}

/// Whether the module conforms to the contract.
pub fn judge<R: Relation, P: Source, Q: Source>(
    module: &P,
    contract: &Q,
    workspace: &mut [u8],
) -> Result<Verdict, Refusal>
    ensures value { result ≡ judged (P.Source.means «module».now) (Q.Source.means contract.now) (length workspace.old) }
    ensures workspace { workspace.new ≡ workspace_after (P.Source.means «module».now) (Q.Source.means contract.now) workspace.old }
    ensures largest_relation { FindsTheLargest (P.Source.means «module».now) (Q.Source.means contract.now) R.Relation.holds }
    ensures context_keeps_yes { ContextKeepsYes (P.Source.means «module».now) (Q.Source.means contract.now) (length workspace.old) }
    ensures counterexample_fails { CounterexampleFails (P.Source.means «module».now) (Q.Source.means contract.now) }
{
    let mut actual = Dense::none();
    actual.copy(module);
    let mut promised = Dense::none();
    promised.copy(contract);
    let highest = fill_copied(&actual, &promised, workspace)?;
    let filled = Filled {
        module: &actual,
        contract: &promised,
        workspace,
    };
    Ok(filled.verdict(highest))
}

/// Small machines, and what is answered of them.
pub fn worked_cases()
    ensures { WorkedCases }
{}
