// What comes of a call, and what is on the seats.
use calls::{Pile, Refusal, Reply, Request, Seat};
use house::{House, SEATS};
use listed::shown::{Failing, Yes, hash};
use listed::untouched;
use std::alloc::{AllocError, Global};
use std::fmt;

#[derive(Clone, Copy)]
pub struct Turn {
    reply: Result<Reply, Refusal>,
    // A hash of the workspace that a fit was lent.
    workspace: Option<u64>,
}

impl Turn {
    // `replay` makes the same calls, with a workspace that nobody sees.
    pub fn make(
        alloc: Global,
        house: &mut House,
        call: &Request<Vec<u8>>,
    ) -> Result<Turn, AllocError> {
        let mut workspace = None;
        let reply = match call {
            Request::Enter(text) => house.enter(text.as_slice()).map(Reply::Entered),
            Request::Seat(seat, contract) => house.seat(*seat, *contract).map(|()| Reply::Done),
            Request::Fit(seat, pile, room) => {
                let mut bytes = untouched(alloc, *room)?;
                let verdict = house.fit(*seat, *pile, bytes.as_mut_slice());
                workspace = Some(hash(bytes.as_slice()));
                verdict.map(Reply::Fitted)
            }
            Request::Unfit(seat) => house.unfit(*seat).map(|()| Reply::Done),
            Request::Clear(seat) => house.clear(*seat).map(|()| Reply::Done),
        };
        Ok(Turn { reply, workspace })
    }
}

impl fmt::Display for Turn {
    fn fmt<W: fmt::Write>(&self, f: &mut fmt::Formatter<W>) -> fmt::Result {
        match self.reply {
            Ok(reply) => show_reply(reply, f)?,
            Err(refusal) => show_refusal(refusal, f)?,
        }
        if let Some(hash) = self.workspace {
            write!(f, " #{hash:016x}")?;
        }
        Ok(())
    }
}

// The seats of a house, in order.
#[derive(Clone, Copy)]
pub struct Seats<'a>(pub &'a House);

impl fmt::Display for Seats<'_> {
    fn fmt<W: fmt::Write>(&self, f: &mut fmt::Formatter<W>) -> fmt::Result {
        for seat in 0..SEATS as u8 {
            show_seat(self.0.at(seat).unwrap_or(Seat::Empty), f)?;
        }
        Ok(())
    }
}

fn show_reply<W: fmt::Write>(reply: Reply, f: &mut fmt::Formatter<W>) -> fmt::Result {
    match reply {
        Reply::Entered(number) => write!(f, "table,{number}"),
        Reply::Fitted(verdict) => write!(f, "{}", Yes(verdict)),
        Reply::Done => write!(f, "done"),
    }
}

fn show_refusal<W: fmt::Write>(refusal: Refusal, f: &mut fmt::Formatter<W>) -> fmt::Result {
    write!(f, "refused,{}", refusal.number())?;
    match refusal {
        Refusal::Text(fault) => write!(f, ",{},{}", fault.line(), fault.field()),
        Refusal::NoPlace => write!(f, ",0,0"),
        Refusal::DoesNotConform {
            round,
            counterexample,
        } => write!(f, ",{round},{}", Failing(counterexample)),
        _ => Ok(()),
    }
}

// With a blank before it.
fn show_seat<W: fmt::Write>(seat: Seat, f: &mut fmt::Formatter<W>) -> fmt::Result {
    match seat {
        Seat::Empty => write!(f, " -"),
        Seat::Contract(contract) => write!(f, " {contract}"),
        Seat::Fitted(contract, pile) => {
            write!(f, " {contract}:")?;
            show_pile(pile, f)
        }
    }
}

fn show_pile<W: fmt::Write>(pile: Pile, f: &mut fmt::Formatter<W>) -> fmt::Result {
    let (table, hidden) = (pile.table, pile.hidden.0);
    match pile.helper {
        None => write!(f, "{table},-,{hidden}"),
        Some(helper) => write!(f, "{table},{helper},{hidden}"),
    }
}
