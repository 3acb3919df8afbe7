// The statement: each call with what came of it, then the seats, and whether the house can get stuck.
use crate::script::{Item, NoCall};
use crate::whole;
use calls::{Pile, Refusal, Reply, Seat};
use console::shown::{Entry, Shown};
use house::{House, SEATS};
use judge::verdict::Verdict;
use labels::{NameSet, VisibleLabel};
use search::{StuckState, search_alone};
use source::refusal::Refusal as Unsearched;
use std::io::ErrorKind;
use std::{fmt, io};

// What is told where no line asks for anything.
const USAGE: &str = "\
Each line of the input is a call:
  enter FILE                       reads the table in FILE, and answers its number
  seat SEAT TABLE                  puts a table on an empty seat, 0 to 5, as its contract
  fit SEAT MODULE HELPER NAMES     fits a table at a seat if it keeps the contract, beside
                                   a helper and without the names (each may be -)
  unfit SEAT                       takes away what is fitted
  clear SEAT                       empties the seat";

#[derive(Clone, Copy)]
pub struct Statement<'a> {
    pub items: &'a [Item],
    // Of the calls among the items alone, in order, as `replay` writes them: no item holds its own.
    pub replies: &'a [Result<Reply, Refusal>],
    pub house: &'a House,
}

impl fmt::Display for Statement<'_> {
    fn fmt<W: fmt::Write>(&self, f: &mut fmt::Formatter<W>) -> fmt::Result {
        if self.items.is_empty() {
            return f.write_str(USAGE);
        }
        let mut replies = self.replies.iter();
        for item in self.items {
            match &item.call {
                Ok(_) => {
                    writeln!(f, "{}", Shown::line(item.line.as_slice()))?;
                    if let Some(reply) = replies.next() {
                        show_reply(self.house, reply, f)?;
                    }
                }
                Err(NoCall::Unclear) => show_unclear(item, f)?,
                Err(NoCall::Unread(error)) => show_unread(item, error, f)?,
            }
        }
        writeln!(f)?;
        for seat in 0..SEATS as u8 {
            show_seat(self.house, seat, f)?;
        }
        show_stuck(self.house, f)
    }
}

fn show_unclear<W: fmt::Write>(item: &Item, f: &mut fmt::Formatter<W>) -> fmt::Result {
    let at = item.at;
    let line = Shown::line(item.line.as_slice());
    writeln!(f, "line {at} is no call: {line}")
}

fn show_unread<W: fmt::Write>(
    item: &Item,
    error: &io::Error,
    f: &mut fmt::Formatter<W>,
) -> fmt::Result {
    writeln!(f, "{}", Shown::line(item.line.as_slice()))?;
    match error.kind() {
        ErrorKind::NotFound => writeln!(f, "  there is no such file"),
        _ => writeln!(f, "  the file cannot be read: {error}"),
    }
}

fn show_reply<W: fmt::Write>(
    house: &House,
    reply: &Result<Reply, Refusal>,
    f: &mut fmt::Formatter<W>,
) -> fmt::Result {
    match reply {
        Ok(Reply::Entered(number)) => show_table(house, *number, f),
        Ok(Reply::Fitted(verdict)) => show_verdict(verdict, f),
        Ok(Reply::Done) => writeln!(f, "  done"),
        Err(refusal) => writeln!(f, "  {refusal}"),
    }
}

fn show_table<W: fmt::Write>(house: &House, number: u8, f: &mut fmt::Formatter<W>) -> fmt::Result {
    let Some(table) = house.table(number) else {
        return Ok(());
    };
    let entry = Entry {
        number: number as usize,
        states: table.states,
        start: table.start,
        moves: table.moves.len(),
        stuck: search_alone(&table),
    };
    write!(f, "{entry}")
}

fn show_verdict<W: fmt::Write>(verdict: &Verdict, f: &mut fmt::Formatter<W>) -> fmt::Result {
    writeln!(
        f,
        "  yes: {} states against {}; {} pairs stand, the last was struck in round {}",
        verdict.states, verdict.others, verdict.standing, verdict.highest
    )
}

fn show_seat<W: fmt::Write>(house: &House, seat: u8, f: &mut fmt::Formatter<W>) -> fmt::Result {
    match house.at(seat) {
        None | Some(Seat::Empty) => writeln!(f, "seat {seat}: empty"),
        Some(Seat::Contract(contract)) => writeln!(
            f,
            "seat {seat}: contract {contract}, nothing fitted"
        ),
        Some(Seat::Fitted(contract, pile)) => {
            write!(f, "seat {seat}: contract {contract}, fitted ")?;
            show_pile(pile, f)
        }
    }
}

fn show_pile<W: fmt::Write>(pile: Pile, f: &mut fmt::Formatter<W>) -> fmt::Result {
    write!(f, "table {}", pile.table)?;
    if let Some(helper) = pile.helper {
        write!(f, " beside table {helper}")?;
    }
    if pile.hidden != NameSet::NONE {
        write!(f, ", without the names {}", pile.hidden)?;
    }
    writeln!(f)
}

// On the names that lie between its seats, and then on all names.
fn show_stuck<W: fmt::Write>(house: &House, f: &mut fmt::Formatter<W>) -> fmt::Result {
    let between = whole::names_between(house);
    write!(
        f,
        "beside nobody, on the names between its seats ({between}): "
    )?;
    show_found(whole::stuck_in(house, between), f)?;
    writeln!(f)?;
    write!(f, "beside nobody, on all names: ")?;
    show_found(whole::stuck_in(house, NameSet::ALL), f)
}

fn show_found<W: fmt::Write>(
    found: Result<Option<StuckState>, Unsearched>,
    f: &mut fmt::Formatter<W>,
) -> fmt::Result {
    match found {
        Ok(None) => write!(f, "the house cannot get stuck"),
        Ok(Some(stuck)) => {
            let state = stuck.state;
            let label = VisibleLabel(stuck.label);
            write!(
                f,
                "the house can get stuck in state {state}, waiting for {label}"
            )
        }
        Err(refusal) => write!(
            f,
            "not searched (refusal {}): the house has more than 255 states",
            refusal.number()
        ),
    }
}
