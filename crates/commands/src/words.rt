//! The words of a line.

ghost use Rattle.std.specs.Prelude.{◌<◌, map};
ghost use Rattle.arrayvec.specs.ArrayVec.{array_vec_len};
ghost use Rattle.commands.specs.Words.{Words};

use arrayvec::ArrayVec;

/// One more than any call has.
const MOST: usize = 6;

/// The first words of a line, which white space parts; they are all where they are fewer than `MOST`.
pub(crate) fn words_of(line: &str) -> ArrayVec<&str, MOST>
    ensures { array_vec_len result < 6 → Words line.now (map (λ x. x.now) result.items) }
{
    let mut words = ArrayVec::new();
    // By hand: `extend` answers a `Result`, which after `take` is always `Ok`.
    for word in line.split_whitespace().take(MOST) {
        words.push(word);
    }
    words
}
