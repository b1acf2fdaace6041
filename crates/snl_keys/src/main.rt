//! Times keystrokes in a text that is open in a session, by what is typed and where. In: the text,
//! or a template of it, on standard input. Out: what was typed, on standard output; its times on
//! standard error.
#![tactic(auto)]

mod keys;
mod stop;
mod text;
mod timing;
mod typing;

use std::io::{self, Read};
use stop::Stop;
use text::text_of;

fn run(rt: &HostRuntime) -> Result<(), Stop> {
    let mut template = Vec::new(rt.alloc());
    rt.stdin().read_to_end(&mut template)?;
    let text = text_of(rt.alloc(), &template)?;
    typing::measure(rt, rt.alloc(), &text)
}

fn main(rt: HostRuntime) -> io::Result<()> {
    match run(&rt) {
        Ok(()) => Ok(()),
        Err(Stop::Output(error)) => Err(error),
        Err(Stop::Memory) => { println!(rt; "out of memory") }
        Err(Stop::Edit) => { println!(rt; "an edit was refused") }
    }
}
