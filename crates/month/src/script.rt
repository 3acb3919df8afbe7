// What the lines of the input ask for, with the texts of the files that they name.
use calls::Request;
use commands::{Command, Unclear, parse};
use console::input::read_file;
use replay::MOST_ROOM;
use std::alloc::{AllocError, Global};
use std::io;
use std::io::{BufRead, BufReader};

// Why a line makes no call.
#[derive(Drop)]
pub enum NoCall {
    // Its words make none.
    Unclear,
    // The file that it names cannot be read.
    Unread(io::Error),
}

impl From<Unclear> for NoCall {
    fn from(_unclear: Unclear) -> NoCall {
        NoCall::Unclear
    }
}

impl From<io::Error> for NoCall {
    fn from(error: io::Error) -> NoCall {
        NoCall::Unread(error)
    }
}

// A line that is not blank, with its number.
#[derive(Drop)]
pub struct Item {
    pub at: u64,
    pub line: Vec<u8>,
    pub call: Result<Request<Vec<u8>>, NoCall>,
}

pub fn read(rt: &HostRuntime) -> anyhow::Result<Vec<Item>> {
    let alloc = rt.alloc();
    let mut items = Vec::new(alloc);
    let lines = BufReader::new(alloc, rt.stdin())?.split(alloc, b'\n');
    for (at, line) in (1u64..).zip(lines) {
        let line = line?;
        if let Some(call) = call_of(rt, line.as_slice()).transpose() {
            items.push(Item { at, line, call })?;
        }
    }
    Ok(items)
}

// What a line asks for; nothing if it is blank.
fn call_of(rt: &HostRuntime, line: &[u8]) -> Result<Option<Request<Vec<u8>>>, NoCall> {
    let words = std::str::from_utf8(line).map_err(|_| Unclear)?;
    let command = parse(words)?;
    Ok(command.map(|command| request_of(rt, command)).transpose()?)
}

// A fit is lent as much workspace as any verdict wants.
fn request_of(rt: &HostRuntime, command: Command<'_>) -> io::Result<Request<Vec<u8>>> {
    Ok(match command {
        Command::Enter(name) => Request::Enter(read_file(rt, name)?),
        Command::Seat(seat, contract) => Request::Seat(seat, contract),
        Command::Fit(seat, pile) => Request::Fit(seat, pile, MOST_ROOM),
        Command::Unfit(seat) => Request::Unfit(seat),
        Command::Clear(seat) => Request::Clear(seat),
    })
}

// The calls, in order.
pub fn requests<'a>(
    alloc: Global,
    items: &'a [Item],
) -> Result<Vec<Request<&'a [u8]>>, AllocError> {
    items
        .iter()
        .filter_map(|item| item.call.as_ref().ok())
        .map(|call| call.lent())
        .collect(alloc)
}
