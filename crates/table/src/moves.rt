ghost use Rattle.std.specs.Prelude.{◌≡◌, map};
ghost use Rattle.table.specs.Table.{move_of};

use crate::fault::Fault;
use crate::field::Field;
use source::table::Move;

/// The fields after the kind, as a move of a table with so many states; the first fault is told.
#[tactic(auto, using(crate::proofs::Shapes::move_at))]
pub(crate) fn move_of(rest: &[&[u8]], states: u8, line: usize) -> Result<Move, Fault>
    ensures { result ≡ move_of states line (map (λ f. f.now) rest.now) }
{
    let [from, way, name, to] = rest else {
        return Err(Fault::Misshapen { line });
    };
    let from = Field::new(line, 2, from).figure(states)?;
    let way = Field::new(line, 3, way).way()?;
    let label = Field::new(line, 4, name).label(way)?;
    let to = Field::new(line, 5, to).figure(states)?;
    Ok(Move { from, label, to })
}
