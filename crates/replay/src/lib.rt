//! Runs of calls: a list of calls made on a new house, with the promise that the house keeps.
#![tactic(auto)]

ghost use Rattle.std.specs.Prelude.{◌≡◌, reverse};
ghost use Rattle.lts.specs.Systems.{Lts};
ghost use Rattle.calls.specs.Calls.{fit, fit_result, reply, after};
ghost use Rattle.calls.specs.Histories.{Leaves, left_by, taken_of, replies};
ghost use Rattle.calls.specs.Promises.{Promise};
ghost use Rattle.calls.specs.Requests.{call_of, calls_of, written_over};
ghost use Rattle.house.specs.Means.{means};

use calls::{Pile, Refusal, Reply, Request};
use house::House;
use judge::verdict::Verdict;
use lts::systems::System;

/// As many bytes as a verdict on two machines of 255 states wants.
pub const MOST_ROOM: usize = 260_100;

/// A fit with a workspace as long as `room`. A longer one than any verdict wants serves as well as that.
fn fit_within(
    house: &mut House,
    s: u8,
    pile: Pile,
    room: usize,
    workspace: &mut [u8; MOST_ROOM],
) -> Result<Verdict, Refusal>
    ensures answer { result ≡ fit_result (means house.old) s pile room }
    ensures left { means house.new ≡ after (means house.old) (fit s pile room) }
{
    let room = room.min(MOST_ROOM);
    house.fit(s, pile, &mut workspace[..room])
}

/// Makes one call, with a workspace as long as it names.
fn make(
    house: &mut House,
    request: &Request<&[u8]>,
    workspace: &mut [u8; MOST_ROOM],
) -> Result<Reply, Refusal>
    ensures answer { result ≡ reply (means house.old) (call_of request.now) }
    ensures left { means house.new ≡ after (means house.old) (call_of request.now) }
{
    // A match: the calls differ in what they are given and in what they answer, so no closure stands for all.
    match *request {
        Request::Enter(text) => house.enter(text).map(Reply::Entered),
        Request::Seat(s, c) => house.seat(s, c).map(|()| Reply::Done),
        Request::Fit(s, pile, room) => {
            fit_within(house, s, pile, room, workspace).map(Reply::Fitted)
        }
        Request::Unfit(s) => house.unfit(s).map(|()| Reply::Done),
        Request::Clear(s) => house.clear(s).map(|()| Reply::Done),
    }
}

/// Makes the calls one after another on a new house, writes what each is answered as far as there are places for it, and
/// gives the house that they leave. Beside any environment, it gets stuck as it is fitted only where its contracts can.
pub fn replay<E: System>(
    requests: &[Request<&[u8]>],
    answers: &mut [Result<Reply, Refusal>],
) -> House
    ensures run { Leaves (calls_of requests.now) (means result) }
    ensures house { means result ≡ left_by (taken_of (calls_of requests.now)) }
    ensures answers { answers.new ≡ written_over (reverse (replies (calls_of requests.now))) answers.old }
    ensures promise { Promise E.System.system (calls_of requests.now) }
{
    let mut workspace = [0u8; MOST_ROOM];
    let mut house = House::new();
    // No zip with the places, and so an index: a zip ends with the places, and a call whose answer has none is made too.
    for (i, request) in requests.iter().enumerate() {
        let answer = make(&mut house, request, &mut workspace);
        if i < answers.len() {
            answers[i] = answer;
        }
    }
    house
}
