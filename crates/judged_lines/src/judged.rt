// A verdict and the workspace that it leaves, as one line.
ghost use Rattle.std.specs.Prelude.{◌≡◌, IfOk};
ghost use Rattle.judge.specs.Verdicts.{judged};

use judge::judging::judge;
use judge::relation::EveryPair;
use judge::verdict::{Answer, Verdict};
use listed::shown::{Bytes, Failing, Yes};
use listed::untouched;
use source::refusal::Refusal;
use source::source::Source;
use std::alloc::{AllocError, Global};
use std::fmt;

#[derive(Drop)]
pub struct Judged {
    verdict: Result<Verdict, Refusal>,
    workspace: Vec<u8>,
}

impl Judged {
    pub fn of<P: Source, Q: Source>(
        alloc: Global,
        module: &P,
        contract: &Q,
        room: u32,
    ) -> Result<Judged, AllocError>
        ensures { IfOk result (λ j. j.verdict ≡ judged (P.Source.means «module».now) (Q.Source.means contract.now) room) }
    {
        let mut workspace = untouched(alloc, room as usize)?;
        let verdict = judge::<EveryPair, P, Q>(module, contract, workspace.as_mut_slice());
        Ok(Judged { verdict, workspace })
    }
}

impl fmt::Display for Judged {
    fn fmt<W: fmt::Write>(&self, f: &mut fmt::Formatter<W>) -> fmt::Result {
        match self.verdict {
            Ok(verdict) => show_verdict(verdict, f)?,
            Err(refusal) => write!(f, "refused,{}", refusal.number())?,
        }
        write!(f, ";{}", Bytes(self.workspace.as_slice()))
    }
}

fn show_verdict<W: fmt::Write>(verdict: Verdict, f: &mut fmt::Formatter<W>) -> fmt::Result {
    match verdict.answer {
        Answer::Yes => write!(f, "{}", Yes(verdict)),
        Answer::No {
            round,
            counterexample,
        } => {
            let (states, others) = (verdict.states, verdict.others);
            let failing = Failing(counterexample);
            write!(f, "no,{states},{others},{round},{failing}")
        }
    }
}
