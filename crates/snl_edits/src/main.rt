//! A session under edits, compared after each of them: with a new session that gets the same text
//! at once, and its cost with a second count, which the texts before and after the edit alone give.
//! There is no code of the product here. In: a list of edits, on standard input, after which come
//! 20,000 random ones; or, as arguments, how many random edits, and their seed, where these alone
//! are wanted. Out: how many edits were made with no difference; else where something differs.
#![tactic(auto)]

mod any_edit;
mod commands;
mod compared;
mod count;
mod faults;
mod list;
mod numbers;
mod parts;
mod quoted;
mod random;
mod rows;
mod splice;
mod typed;

use anyhow::Result;
use std::{env, io};

// Makes the edits of the list, and then random ones.
fn run_all(rt: &HostRuntime) -> Result<()> {
    let list = io::read_to_string(rt.alloc(), rt.stdin())?;
    list::run(rt, rt.alloc(), &list)?;
    random::run(rt, rt.alloc(), 20_000, 1)
}

// Makes as many random edits as a word tells, of the seed that another does.
fn run_random(rt: &HostRuntime, count: &str, seed: &str) -> Result<()> {
    random::run(rt, rt.alloc(), count.parse::<u64>()?, seed.parse::<u64>()?)
}

fn run(rt: &HostRuntime) -> Result<()> {
    let mut words = env::args(rt)?.skip(1);
    match words.next() {
        Some(count) => {
            let seed = words.next();
            run_random(rt, &count, seed.as_deref().unwrap_or("1"))
        }
        None => run_all(rt),
    }
}

fn main(rt: HostRuntime) -> Result<()> {
    run(&rt)
}
