#![tactic(auto)]

// Takes calls from the input, one to a line, and prints a statement of what came of them.
mod command;
mod desk;
mod statement;

use command::{Command, parse};
use console::input::read_file;
use console::shown::{NO_TEXT, Shown};
use desk::Desk;
use statement::{Item, Totals};
use std::io::{BufRead, BufReader, BufWriter, Write};

fn main(rt: HostRuntime) -> anyhow::Result<()> {
    run(&rt)
}

fn run(rt: &HostRuntime) -> anyhow::Result<()> {
    let alloc = rt.alloc();
    let mut desk = Desk::new(alloc);
    let mut totals = Totals::default();
    let mut out = BufWriter::new(alloc, rt.stdout())?;
    let lines = BufReader::new(alloc, rt.stdin())?.split(alloc, b'\n');
    for (at, line) in (1u64..).zip(lines) {
        let line = line?;
        if let Some(item) = answer(rt, &mut desk, at, line.as_slice())? {
            totals.count(&item);
            write!(out, "{item}")?;
        }
    }
    totals.close(desk.kept(), desk.refused());
    write!(out, "{totals}")?;
    out.flush()?;
    Ok(())
}

fn answer<'a>(
    rt: &HostRuntime,
    desk: &mut Desk,
    at: u64,
    line: &'a [u8],
) -> anyhow::Result<Option<Item<'a>>> {
    match call_of(line) {
        Ok(None) => Ok(None),
        Ok(Some(call)) => Ok(Some(obey(rt, desk, call)?)),
        Err(shown) => Ok(Some(Item::Unclear(at, shown))),
    }
}

// What a line asks for, or what is shown of one that is no call.
fn call_of(line: &[u8]) -> Result<Option<Command<'_>>, Shown<'_>> {
    let words = std::str::from_utf8(line).map_err(|_| Shown(NO_TEXT))?;
    parse(words).map_err(|_| Shown(words.trim_ascii()))
}

fn obey<'a>(rt: &HostRuntime, desk: &mut Desk, call: Command<'a>) -> anyhow::Result<Item<'a>> {
    let Command::Enter(name) = call;
    match read_file(rt, name) {
        Ok(text) => Ok(Item::Entered(name, desk.enter(text.as_slice())?)),
        Err(error) => Ok(Item::Unread(name, error)),
    }
}
