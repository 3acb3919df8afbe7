ghost use Rattle.std.specs.Prelude.{◌≡◌, ◌≤◌, length, drop};
ghost use Rattle.installer.specs.Calls.{with_room, length_told, line_after, line_for_input, worked_on_input, VerdictPromises};
ghost use Rattle.installer.specs.Cases.{WorkedCases};
ghost use Rattle.installer.specs.Inputs.{gap, first_text, second_text, FirstGap};

use crate::calls::verdict_line;
use crate::line::line_of;
use crate::outcome::Refused;
use crate::text::LINE_ROOM;
use table::LONGEST;

/// What an input that is too long is refused with.
const TOO_LONG: Refused = Refused {
    number: 4,
    text: 0,
    line: 0,
    field: 0,
};

/// Where the first empty line stands, or the input's length.
fn empty_line(input: &[u8]) -> usize
    ensures value { result ≡ gap input.now }
    ensures within { result ≤ length input.now }
{
    // A loop: of an empty line at the input's front `windows(2)` shows no pair, so it would be a case of its own.
    let mut fresh = true;
    for (at, byte) in input.iter().enumerate() {
        let ends = *byte == b'\n';
        if fresh && ends {
            return at;
        }
        fresh = ends;
    }
    input.len()
}

/// What stands behind an empty line, with which `rest` begins if it is not the input's end.
fn behind(rest: &[u8]) -> &[u8]
    ensures { result.now ≡ drop 1 rest.now }
{
    rest.get(1..).unwrap_or(&[])
}

/// The same of one input that holds both texts, parted by its first empty line; without one the contract's text is empty.
/// An input over 40,960 bytes is refused.
pub fn verdict_line_of_input(input: &[u8], workspace: &mut [u8], line: &mut [u8]) -> usize
    ensures length { result ≡ length_told (line_for_input input.now (length workspace.old)) line.old }
    ensures line { line.new ≡ line_after (line_for_input input.now (length workspace.old)) line.old }
    ensures workspace { workspace.new ≡ with_room line.old (worked_on_input input.now workspace.old) workspace.old }
    ensures short { result ≤ 40 }
    ensures parts { FirstGap input.now }
    ensures promises { VerdictPromises (first_text input.now) (second_text input.now) (length workspace.old) }
    ensures worked { WorkedCases }
{
    if line.len() < LINE_ROOM {
        // 0 says that nothing is written: C takes a length and no `Option`.
        return 0;
    }
    if input.len() > LONGEST {
        return line_of(Err(TOO_LONG)).put(line);
    }
    let (module, rest) = input.split_at(empty_line(input));
    verdict_line(module, behind(rest), workspace, line)
}
