// The piles of layers that the cases name, and what each answers.
use crate::case::{Case, Shape};
use crate::told::Told;
use layers::relabel::Relabel;
use layers::restrict::Restrict;
use listed::layered::{beside, hidden};
use listed::lines::Unanswered;
use listed::table_of;
use source::source::Source;
use std::alloc::Global;

pub fn answer_to(alloc: Global, line: &[u8]) -> Result<Told, Unanswered> {
    let case = Case::read(alloc, line)?;
    let [first, second, third] = case.texts;
    let first = table_of(alloc, first)?;
    let a = first.table();
    // Each shape is a source of another type, so no closure stands for all. It has one table, two or three, and only those
    // are read.
    match case.shape {
        Shape::Plain => case.ask(alloc, &a),
        Shape::Hidden => case.ask(alloc, &case.hide(a)),
        Shape::Renamed => case.ask(alloc, &case.rename(a)?),
        Shape::Twice => case.ask(alloc, &beside(&a, &a)),
        Shape::Pair => {
            let second = table_of(alloc, second)?;
            case.ask(alloc, &beside(a, second.table()))
        }
        Shape::HiddenPair => {
            let second = table_of(alloc, second)?;
            case.ask(alloc, &case.hide(beside(a, second.table())))
        }
        Shape::RenamedHiddenPair => {
            let second = table_of(alloc, second)?;
            case.ask(alloc, &case.rename(case.hide(beside(a, second.table())))?)
        }
        Shape::HiddenByRenamed => {
            let second = table_of(alloc, second)?;
            case.ask(alloc, &beside(case.hide(a), case.rename(second.table())?))
        }
        Shape::PairFirst => {
            let second = table_of(alloc, second)?;
            let third = table_of(alloc, third)?;
            case.ask(alloc, &beside(beside(a, second.table()), third.table()))
        }
        Shape::HiddenPairLast => {
            let second = table_of(alloc, second)?;
            let third = table_of(alloc, third)?;
            let last = case.hide(beside(second.table(), third.table()));
            case.ask(alloc, &case.hide(beside(a, last)))
        }
    }
}

impl Case<'_> {
    fn hide<S>(&self, inner: S) -> Restrict<S> {
        hidden(self.hidden, inner)
    }

    fn rename<S: Source + Drop>(&self, inner: S) -> Result<Relabel<S>, Unanswered> {
        Ok(Relabel::new(self.map, inner)?)
    }

    fn ask<S: Source>(&self, alloc: Global, source: &S) -> Result<Told, Unanswered> {
        Ok(Told::of(alloc, source, self.names, self.sheet)?)
    }
}
