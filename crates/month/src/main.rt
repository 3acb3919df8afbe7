#![tactic(auto)]

// Takes calls on a house from the input, one to a line, makes them in a new house, and prints a statement of them.
mod script;
mod statement;
mod whole;

use calls::{Nobody, Reply};
use replay::replay;
use statement::Statement;

fn main(rt: HostRuntime) -> anyhow::Result<()> {
    run(&rt)
}

fn run(rt: &HostRuntime) -> anyhow::Result<()> {
    let alloc = rt.alloc();
    let items = script::read(rt)?;
    let requests = script::requests(alloc, items.as_slice())?;
    let mut replies = vec![in alloc; Ok(Reply::Done); requests.len()]?;
    let house = replay::<Nobody>(requests.as_slice(), replies.as_mut_slice());
    let statement = Statement {
        items: items.as_slice(),
        replies: replies.as_slice(),
        house: &house,
    };
    rt.println(&statement)?;
    Ok(())
}
