//! Files are opened one after another, each in a new session, as a build or an editor opens them.

use crate::digest::Digest;
use crate::editor::Editor;
use crate::numbers::Numbers;
use crate::program::{Markers, Shape, program_of};
use anyhow::Result;
use std::alloc::Global;

// Opens a text in a session of its own, and adds what that answered.
fn build(alloc: Global, digest: &mut Digest, text: &[u8]) -> Result<()> {
    let mut editor = Editor::new(alloc)?;
    editor.open(text)?;
    digest.add(editor.digest.value());
    Ok(())
}

// A size from 2 to 200 KB, small ones more often than large ones.
fn any_size(numbers: &mut Numbers) -> usize {
    let side = numbers.below(10).wrapping_add(1);
    side.wrapping_mul(side).wrapping_mul(2000)
}

fn markers_of(number: usize) -> Markers {
    match number % 3 {
        0 => Markers::Nowhere,
        1 => Markers::Top,
        _ => Markers::Parts,
    }
}

/// Opens 24 files of 2 to 200 KB and one of about 1 MB, for each round of the job.
pub fn run(
    alloc: Global,
    digest: &mut Digest,
    numbers: &mut Numbers,
    rounds: usize,
) -> Result<usize> {
    let files = rounds.saturating_mul(25);
    for number in 0..files {
        let size = match number % 25 {
            24 => 1_000_000,
            _ => any_size(numbers),
        };
        let shape = Shape {
            markers: markers_of(number),
            ..Shape::of(size)
        };
        let program = program_of(alloc, numbers.part(), shape)?;
        build(alloc, digest, &program.text)?;
    }
    Ok(files)
}
