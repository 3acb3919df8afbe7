ghost use Rattle.std.specs.Prelude.{◌≡◌, ◌≤◌, length};
ghost use Rattle.installer.specs.Calls.{with_room, length_told, line_after, line_for, VerdictPromises};
ghost use Rattle.installer.specs.Figures.{FiguresAreDecimals};
ghost use Rattle.installer.specs.Outcomes.{worked_on};

use crate::entering::outcome_of;
use crate::line::line_of;
use crate::text::LINE_ROOM;

/// Writes the verdict on the module's text and the contract's as one line, ended by a line feed, and answers its length.
/// With a line buffer of fewer than 40 bytes it answers 0 and writes nothing.
pub fn verdict_line(module: &[u8], contract: &[u8], workspace: &mut [u8], line: &mut [u8]) -> usize
    ensures length { result ≡ length_told (line_for «module».now contract.now (length workspace.old)) line.old }
    ensures line { line.new ≡ line_after (line_for «module».now contract.now (length workspace.old)) line.old }
    ensures workspace { workspace.new ≡ with_room line.old (worked_on «module».now contract.now workspace.old) workspace.old }
    ensures short { result ≤ 40 }
    ensures promises { VerdictPromises «module».now contract.now (length workspace.old) }
    ensures decimals { FiguresAreDecimals }
{
    if line.len() < LINE_ROOM {
        // 0 says that nothing is written: C takes a length and no `Option`.
        return 0;
    }
    line_of(outcome_of(module, contract, workspace)).put(line)
}
