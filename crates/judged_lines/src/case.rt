// A case is a line SHAPE;HIDDEN;ROOM;TEXT;TEXT;TEXT: the module's tables come first, and the contract's last.
use labels::NameSet;
use listed::fields::{ascii, read};
use listed::lines::Unanswered;
use std::alloc::Global;
use std::str::FromStr;

#[derive(Clone, Copy, PartialEq, Eq, Debug)]
pub enum Shape {
    // The first table.
    Plain,
    // Restrict<table>
    Hidden,
    // Parallel<table, table>
    Pair,
    // Restrict<Parallel<table, table>>
    HiddenPair,
    // Relabel<Restrict<Parallel<table, table>>>, where name k becomes 31 - k
    RenamedPair,
}

impl FromStr for Shape {
    type Err = Unanswered;

    fn from_str(field: &str) -> Result<Shape, Unanswered> {
        match field {
            "0" => Ok(Shape::Plain),
            "1" => Ok(Shape::Hidden),
            "2" => Ok(Shape::Pair),
            "3" => Ok(Shape::HiddenPair),
            "4" => Ok(Shape::RenamedPair),
            _ => Err(Unanswered::Unclear),
        }
    }
}

#[derive(Clone, Copy)]
pub struct Case<'a> {
    pub shape: Shape,
    // What a Restrict hides.
    pub hidden: NameSet,
    // How many bytes the workspace has.
    pub room: u32,
    pub first: &'a str,
    pub second: &'a str,
    pub contract: &'a str,
}

impl<'a> Case<'a> {
    // Not `TryFrom`: the fields are kept in a `Vec`, and `try_from` is given no allocator.
    pub fn read(alloc: Global, line: &'a [u8]) -> Result<Case<'a>, Unanswered> {
        // One more than a case has shows that there are too many.
        let fields: Vec<&'a str> = ascii(line)?.split(';').take(7).collect(alloc)?;
        let [shape, hidden, room, first, second, contract] = fields.as_slice() else {
            return Err(Unanswered::Unclear);
        };
        Ok(Case {
            shape: read(shape)?,
            hidden: NameSet(read(hidden)?),
            room: read(room)?,
            first,
            second,
            contract,
        })
    }
}
