//! The two calls of `installer` under their names for C: numbers and byte slices alone.
#![tactic(auto)]

ghost use Rattle.std.specs.Prelude.{◌≡◌, ◌≤◌, length};
ghost use Rattle.installer.specs.Calls.{with_room, length_told, line_after, line_for, VerdictPromises, line_for_input, worked_on_input};
ghost use Rattle.installer.specs.Figures.{FiguresAreDecimals};
ghost use Rattle.installer.specs.Outcomes.{worked_on};
ghost use Rattle.installer.specs.Cases.{WorkedCases};
ghost use Rattle.installer.specs.Inputs.{first_text, second_text, FirstGap};

// The two calls stand twice, since C finds them by their names in the static library, and Rust by their paths in `installer`.

/// Writes the verdict on the module's text and the contract's as one line, ended by a line feed, and answers its length.
/// With a line buffer of fewer than 40 bytes it answers 0 and writes nothing.
#[unsafe(no_mangle)]
pub extern "C" fn verdict_line(
    module: &[u8],
    contract: &[u8],
    workspace: &mut [u8],
    line: &mut [u8],
) -> usize
    ensures length { result ≡ length_told (line_for «module».now contract.now (length workspace.old)) line.old }
    ensures line { line.new ≡ line_after (line_for «module».now contract.now (length workspace.old)) line.old }
    ensures workspace { workspace.new ≡ with_room line.old (worked_on «module».now contract.now workspace.old) workspace.old }
    ensures short { result ≤ 40 }
    ensures promises { VerdictPromises «module».now contract.now (length workspace.old) }
    ensures decimals { FiguresAreDecimals }
{
    installer::verdict_line(module, contract, workspace, line)
}

/// The same of one input that holds both texts, parted by its first empty line; without one the contract's text is empty.
/// An input over 40,960 bytes is refused.
#[unsafe(no_mangle)]
pub extern "C" fn verdict_line_of_input(
    input: &[u8],
    workspace: &mut [u8],
    line: &mut [u8],
) -> usize
    ensures length { result ≡ length_told (line_for_input input.now (length workspace.old)) line.old }
    ensures line { line.new ≡ line_after (line_for_input input.now (length workspace.old)) line.old }
    ensures workspace { workspace.new ≡ with_room line.old (worked_on_input input.now workspace.old) workspace.old }
    ensures short { result ≤ 40 }
    ensures parts { FirstGap input.now }
    ensures promises { VerdictPromises (first_text input.now) (second_text input.now) (length workspace.old) }
    ensures worked { WorkedCases }
{
    installer::verdict_line_of_input(input, workspace, line)
}
