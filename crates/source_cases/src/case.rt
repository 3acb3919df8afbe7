// A case is a line SHAPE;HIDDEN;MAP;NAMES;SHEET;TEXT;TEXT;TEXT.
use labels::NameSet;
use listed::fields::{ascii, read};
use listed::lines::Unanswered;
use std::alloc::Global;
use std::str::FromStr;

// A pile of layers over one table, two or three.
#[derive(Clone, Copy, PartialEq, Eq, Debug)]
pub enum Shape {
    // A table alone.
    Plain,
    // Restrict<table>
    Hidden,
    // Relabel<table>
    Renamed,
    // Parallel<&table, &table>, both the same
    Twice,
    // Parallel<table, table>
    Pair,
    // Restrict<Parallel<table, table>>
    HiddenPair,
    // Relabel<Restrict<Parallel<table, table>>>
    RenamedHiddenPair,
    // Parallel<Restrict<table>, Relabel<table>>
    HiddenByRenamed,
    // Parallel<Parallel<table, table>, table>
    PairFirst,
    // Restrict<Parallel<table, Restrict<Parallel<table, table>>>>
    HiddenPairLast,
}

impl FromStr for Shape {
    type Err = Unanswered;

    fn from_str(field: &str) -> Result<Shape, Unanswered> {
        match field {
            "a" => Ok(Shape::Plain),
            "b" => Ok(Shape::Hidden),
            "c" => Ok(Shape::Renamed),
            "d" => Ok(Shape::Pair),
            "e" => Ok(Shape::HiddenPair),
            "f" => Ok(Shape::RenamedHiddenPair),
            "g" => Ok(Shape::HiddenByRenamed),
            "h" => Ok(Shape::PairFirst),
            "i" => Ok(Shape::HiddenPairLast),
            "j" => Ok(Shape::Twice),
            _ => Err(Unanswered::Unclear),
        }
    }
}

#[derive(Clone, Copy)]
pub struct Case<'a> {
    pub shape: Shape,
    // What every Restrict of the pile hides.
    pub hidden: NameSet,
    // What every Relabel of the pile renames by.
    pub map: [u8; 32],
    // What is searched with, and how many bytes the sheet has.
    pub names: NameSet,
    pub sheet: u16,
    pub texts: [&'a str; 3],
}

impl<'a> Case<'a> {
    // Not `TryFrom`: the fields are kept in a `Vec`, and `try_from` is given no allocator.
    pub fn read(alloc: Global, line: &'a [u8]) -> Result<Case<'a>, Unanswered> {
        // One more than a case has shows that there are too many.
        let fields: Vec<&'a str> = ascii(line)?.split(';').take(9).collect(alloc)?;
        let [shape, hidden, map, names, sheet, first, second, third] = fields.as_slice() else {
            return Err(Unanswered::Unclear);
        };
        Ok(Case {
            shape: read(shape)?,
            hidden: NameSet(read(hidden)?),
            map: map_of(alloc, map)?,
            names: NameSet(read(names)?),
            sheet: read(sheet)?,
            texts: [first, second, third],
        })
    }
}

// Just 32 numbers with commas between them.
fn map_of(alloc: Global, field: &str) -> Result<[u8; 32], Unanswered> {
    let numbers: Vec<u8> = field
        .split(',')
        .take(33)
        .map(|number| read::<u8>(number))
        .try_collect(alloc)?;
    <[u8; 32]>::try_from(numbers).map_err(|_| Unanswered::Unclear)
}
