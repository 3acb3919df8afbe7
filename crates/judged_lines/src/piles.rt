// The piles that the cases name, judged against their contracts.
use crate::case::{Case, Shape};
use crate::judged::Judged;
use layers::relabel::Relabel;
use listed::layered::{beside, hidden};
use listed::lines::Unanswered;
use listed::table_of;
use source::source::Source;
use source::table::Table;
use std::alloc::{AllocError, Global};
use std::array;

// The contract that a pile is judged against, and how many bytes the workspace has.
#[derive(Clone, Copy)]
struct Contract<'a> {
    alloc: Global,
    table: Table<'a>,
    room: u32,
}

impl Contract<'_> {
    fn judge<S: Source>(&self, module: &S) -> Result<Judged, Unanswered> {
        Ok(Judged::of(self.alloc, module, &self.table, self.room)?)
    }
}

pub fn answer_to(alloc: Global, line: &[u8]) -> Result<Judged, Unanswered> {
    let case = Case::read(alloc, line)?;
    let first = table_of(alloc, case.first)?;
    let other = table_of(alloc, case.contract)?;
    let contract = Contract {
        alloc,
        table: other.table(),
        room: case.room,
    };
    let names = case.hidden;
    let left = first.table();
    // Each shape is a source of another type, so no closure stands for all.
    match case.shape {
        Shape::Plain => contract.judge(&left),
        Shape::Hidden => contract.judge(&hidden(names, left)),
        Shape::Pair => {
            let second = table_of(alloc, case.second)?;
            contract.judge(&beside(left, second.table()))
        }
        Shape::HiddenPair => {
            let second = table_of(alloc, case.second)?;
            contract.judge(&hidden(names, beside(left, second.table())))
        }
        Shape::RenamedPair => {
            let second = table_of(alloc, case.second)?;
            contract.judge(&backwards(hidden(names, beside(left, second.table())))?)
        }
    }
}

// In which name k becomes 31 - k.
fn backwards<S: Source + Drop>(inner: S) -> Result<Relabel<S>, Unanswered> {
    let map = array::from_fn(|name| 31 - name as u8);
    Relabel::new(map, inner).map_err(|_| Unanswered::Unread)
}
