ghost use Rattle.std.specs.Prelude.{◌≡◌, map};
ghost use Rattle.table.specs.Table.{head_of};

use crate::fault::Fault;
use crate::field::Field;

/// The first line of a table.
#[derive(Clone, Copy, PartialEq, Eq, Debug)]
pub struct Head {
    pub states: u8,
    pub start: u8,
}

/// The fields after the kind, as the number of states and the start, which lies below it.
#[tactic(auto, using(crate::proofs::Shapes::head_at))]
pub(crate) fn head_of(rest: &[&[u8]], line: usize) -> Result<Head, Fault>
    ensures { result ≡ head_of line (map (λ f. f.now) rest.now) }
{
    let [states, start] = rest else {
        return Err(Fault::Misshapen { line });
    };
    let states = Field::new(line, 2, states).states()?;
    let start = Field::new(line, 3, start).figure(states)?;
    Ok(Head { states, start })
}
