ghost use Rattle.std.specs.Prelude.{◌≡◌, map, take};
ghost use Rattle.table.specs.Text.{pieces};
ghost use Rattle.table.specs.Table.{kind_of, line_says, stage_after};

use crate::fault::Fault;
use crate::head::{Head, head_of};
use crate::moves::move_of;
use arrayvec::ArrayVec;
use source::table::Move;

/// What a line says.
#[derive(Clone, Copy, PartialEq, Eq, Debug)]
pub enum Line {
    First(Head),
    Step(Move),
}

/// Whether the first line stands behind, and what it said.
// A rule of the project, so no `Option<Head>`: which line may stand where is told by the names of stage and kind.
#[derive(Clone, Copy)]
pub(crate) enum Stage {
    BeforeHead,
    AfterHead(Head),
}

impl Stage {
    /// Only the first line changes the stage.
    pub(crate) fn after(self, line: Line) -> Stage
        ensures { result ≡ stage_after self line }
    {
        match line {
            Line::First(head) => Stage::AfterHead(head),
            Line::Step(_) => self,
        }
    }
}

/// A line by its first word.
// A rule of the project, so no match on the words: which line may stand where is told by the names of stage and kind.
#[derive(Clone, Copy)]
enum Kind {
    Table,
    Move,
    Other,
}

/// One more than the fields of any line in order, so that too many show.
const MOST: usize = 6;

/// Reads a line: a table line stands first and once, and only move lines follow it.
pub(crate) fn read_line(bytes: &[u8], stage: Stage, line: usize) -> Result<Line, Fault>
    ensures { result ≡ line_says stage line (pieces 44 bytes.now) }
{
    let fields = fields_of(bytes);
    let [word, rest @ ..] = fields.as_slice() else {
        return Err(Fault::Misshapen { line });
    };
    match (stage, kind_of(word)) {
        (Stage::BeforeHead, Kind::Table) => head_of(rest, line).map(Line::First),
        (Stage::AfterHead(head), Kind::Move) => move_of(rest, head.states, line).map(Line::Step),
        _ => Err(Fault::Misshapen { line }),
    }
}

/// The fields of a line, which commas part, up to the first that is too many.
fn fields_of(line: &[u8]) -> ArrayVec<&[u8], MOST>
    ensures { map (λ f. f.now) result.items ≡ take 6 (pieces 44 line.now) }
{
    let mut fields = ArrayVec::new();
    // By hand: `extend` answers a `Result`, which after `take` is always `Ok`.
    for field in line.split(|b| *b == b',').take(MOST) {
        fields.push(field);
    }
    fields
}

/// The kind that the first word names.
fn kind_of(word: &[u8]) -> Kind
    ensures { result ≡ kind_of word.now }
{
    match word {
        b"table" => Kind::Table,
        b"move" => Kind::Move,
        _ => Kind::Other,
    }
}
