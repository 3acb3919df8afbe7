ghost use Rattle.std.specs.Prelude.{◌≡◌, length};
ghost use Rattle.installer.specs.Outcomes.{Enters, outcome, worked_on};

use crate::outcome::Refused;
use judge::judging::judge;
use judge::relation::EveryPair;
use judge::verdict::Verdict;
use source::table::{Move, Table};

/// No text has more moves.
const MOST_MOVES: usize = 1024;

/// The table of the first text or the second, with its moves at the front of `places`.
fn enter<'a>(
    text: u8,
    bytes: &[u8],
    places: &'a mut [Move; MOST_MOVES],
) -> Result<Table<'a>, Refused>
    ensures { Enters text bytes.now result }
{
    let summary = table::check(bytes)
        .store(places)
        .map_err(|fault| Refused::faulty(text, fault))?;
    Ok(Table {
        states: summary.states,
        start: summary.start,
        moves: &places[..summary.moves],
    })
}

/// Both texts are entered, the module's first, and then judged.
pub(crate) fn outcome_of(
    module: &[u8],
    contract: &[u8],
    workspace: &mut [u8],
) -> Result<Verdict, Refused>
    ensures value { result ≡ outcome «module».now contract.now (length workspace.old) }
    ensures workspace { workspace.new ≡ worked_on «module».now contract.now workspace.old }
{
    let mut first_places = [Move::default(); MOST_MOVES];
    let actual = enter(1, module, &mut first_places)?;
    let mut second_places = [Move::default(); MOST_MOVES];
    let promised = enter(2, contract, &mut second_places)?;
    let verdict = judge::<EveryPair, _, _>(&actual, &promised, workspace)?;
    Ok(verdict)
}
