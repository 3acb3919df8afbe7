ghost use Rattle.std.specs.Prelude.{◌≡◌};
ghost use Rattle.calls.specs.Requests.{call_by, call_of};

use crate::seat::Pile;
use judge::verdict::Verdict;
use std::convert::AsSlice;

/// A call, as a program hands it in, with its text as a `T`. That of `fit` has the length of its workspace.
#[derive(Clone, Copy, PartialEq, Eq, Debug, Drop)]
pub enum Request<T> {
    Enter(T),
    Seat(u8, u8),
    Fit(u8, Pile, usize),
    Unfit(u8),
    Clear(u8),
}

impl<T: AsSlice<u8>> Request<T> {
    /// The same call, with the bytes of its text lent.
    pub fn lent(&self) -> Request<&[u8]>
        ensures { call_of result ≡ call_by T.items self.now }
    {
        match self {
            Request::Enter(text) => Request::Enter(text.as_slice()),
            Request::Seat(s, c) => Request::Seat(*s, *c),
            Request::Fit(s, pile, room) => Request::Fit(*s, *pile, *room),
            Request::Unfit(s) => Request::Unfit(*s),
            Request::Clear(s) => Request::Clear(*s),
        }
    }
}

/// What a call that is not refused answers: the new table's number, the verdict yes, or that it is done.
#[derive(Clone, Copy, PartialEq, Eq, Debug)]
pub enum Reply {
    Entered(u8),
    Fitted(Verdict),
    Done,
}
