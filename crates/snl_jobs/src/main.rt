//! The jobs that users of the front end wait for, done through the public calls of a session, on
//! texts that a seed defines. In: as arguments the name of a job, a seed below 2^32, and how many
//! rounds. Out: what was done, and a digest of all answers.
#![tactic(auto)]

mod answers;
mod broken;
mod building;
mod digest;
mod editor;
mod faults;
mod faulty;
mod listing;
mod maker;
mod naming;
mod numbers;
mod places;
mod program;
mod typing;
mod words;

use anyhow::{Context, Result, bail};
use digest::Digest;
use editor::Editor;
use numbers::Numbers;
use program::Markers;
use std::alloc::Global;
use std::env;
use typing::{MARKED, PLAIN};

// A job that users wait for.
#[derive(Clone, Copy, PartialEq, Eq)]
enum Job {
    Typing,
    Naming,
    Preprocessed,
    Building,
    Listing,
    Broken,
    Faulty,
}

// Each job and its word.
static JOBS: [(&str, Job); 7] = [
    ("typing", Job::Typing),
    ("naming", Job::Naming),
    ("preprocessed", Job::Preprocessed),
    ("building", Job::Building),
    ("listing", Job::Listing),
    ("broken", Job::Broken),
    ("faulty", Job::Faulty),
];

// Does a job in an editor.
fn do_in(
    alloc: Global,
    editor: &mut Editor,
    job: Job,
    numbers: &mut Numbers,
    rounds: usize,
) -> Result<()> {
    match job {
        Job::Typing => typing::run(alloc, editor, numbers, rounds, &PLAIN, Markers::Nowhere),
        Job::Preprocessed => {
            typing::run(alloc, editor, numbers, rounds, &MARKED, Markers::Top)?;
            typing::run(alloc, editor, numbers, rounds, &MARKED, Markers::Parts)
        }
        Job::Naming => naming::run(alloc, editor, numbers, rounds),
        Job::Listing => listing::run(alloc, editor, numbers, rounds),
        Job::Broken => broken::run(alloc, editor, numbers, rounds),
        Job::Faulty => faulty::run(alloc, editor, numbers, rounds),
        Job::Building => {
            editor.edits = building::run(alloc, &mut editor.digest, numbers, rounds)?;
            Ok(())
        }
    }
}

// Does a job, and tells what came of it.
fn do_job(
    rt: &impl Print,
    alloc: Global,
    name: &str,
    job: Job,
    seed: u64,
    rounds: usize,
) -> Result<()> {
    let mut editor = Editor::new(alloc)?;
    let mut numbers = Numbers::of(job as u64, seed);
    do_in(alloc, &mut editor, job, &mut numbers, rounds)?;
    println!(rt;
        "{name}, seed {seed}, rounds {rounds}: {} edits, digest {:016x}",
        editor.edits,
        editor.digest.value()
    )?;
    Ok(())
}

// Does the job that a word names, or all of them.
fn do_jobs(rt: &impl Print, alloc: Global, word: &str, seed: u64, rounds: usize) -> Result<()> {
    let mut is_known = false;
    for (name, job) in &JOBS {
        if word == "all" || word == *name {
            is_known = true;
            do_job(rt, alloc, name, *job, seed, rounds)?;
        }
    }
    if !is_known {
        bail!("the jobs are typing, naming, preprocessed, building, listing, broken and faulty");
    }
    Ok(())
}

fn main(rt: HostRuntime) -> Result<()> {
    let mut words = env::args(&rt)?.skip(1);
    let word = words.next().context("the name of a job is missing")?;
    let seed = words.next().context("the seed is missing")?;
    let rounds = words.next().context("the number of rounds is missing")?;
    do_jobs(
        &rt,
        rt.alloc(),
        &word,
        u64::from(seed.parse::<u32>()?),
        rounds.parse::<usize>()?,
    )
}
