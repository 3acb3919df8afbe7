ghost use Rattle.std.specs.Prelude.{◌≡◌, ◌+◌, ◌*◌, ◌≤◌, length};
ghost use Rattle.dense.specs.Copies.{meaning};
ghost use Rattle.ranks.specs.Rounds.{last_round};
ghost use Rattle.ranks.specs.Filled.{filled, whole, workspace_after};

use crate::sides::{Side, Sides};
use closure::fill_closure;
use dense::machine::Dense;
use source::refusal::Refusal;
use source::source::Source;

/// Fills the closures and the ranks; says which round struck last.
fn fill(module: &Dense, contract: &Dense, n: usize, m: usize, workspace: &mut [u8]) -> u16
    requires states { n ≡ (meaning «module».now).size }
    requires others { m ≡ (meaning contract.now).size }
    requires room { (n + m) * (n + m) ≤ length workspace.old }
    ensures whole { workspace.new ≡ whole (meaning «module».now) (meaning contract.now) workspace.old }
    ensures last { result ≡ last_round (meaning «module».now) (meaning contract.now) }
{
    let (own, rest) = workspace.split_at_mut(n * n);
    let (other, rest) = rest.split_at_mut(m * m);
    let (ranks, _) = rest.split_at_mut(2 * (n * m));
    fill_closure(module, own);
    fill_closure(contract, other);
    let sides = Sides::of(Side::of(module, n, own), Side::of(contract, m, other));
    let covered = sides.cover(other);
    sides.strike_all(covered, ranks)
}

/// The same as `fill_workspace`, of sources that are copied.
pub fn fill_copied(module: &Dense, contract: &Dense, workspace: &mut [u8]) -> Result<u16, Refusal>
    ensures value { result ≡ filled (meaning «module».now) (meaning contract.now) (length workspace.old) }
    ensures workspace { workspace.new ≡ workspace_after (meaning «module».now) (meaning contract.now) workspace.old }
{
    let n = module.states().ok_or(Refusal::TooLarge)?;
    let m = contract.states().ok_or(Refusal::TooLarge)?;
    if workspace.len() < (n + m) * (n + m) {
        return Err(Refusal::TooShort);
    }
    Ok(fill(module, contract, n, m, workspace))
}

/// Fills the workspace with both closures and the ranks, and answers the last round that struck a pair.
/// A source that is too large is refused first, then a workspace that is too short; a refusal leaves it.
pub fn fill_workspace<P: Source, Q: Source>(
    module: &P,
    contract: &Q,
    workspace: &mut [u8],
) -> Result<u16, Refusal>
    ensures value { result ≡ filled (P.Source.means «module».now) (Q.Source.means contract.now) (length workspace.old) }
    ensures workspace { workspace.new ≡ workspace_after (P.Source.means «module».now) (Q.Source.means contract.now) workspace.old }
{
    let mut actual = Dense::none();
    actual.copy(module);
    let mut promised = Dense::none();
    promised.copy(contract);
    fill_copied(&actual, &promised, workspace)
}
