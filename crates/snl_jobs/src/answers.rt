//! What a session answers: diagnostics and tables go into a digest, with all that is told of each.
//! Rows are taken apart by the names of all their fields, so that none is forgotten, and each list
//! comes with its length.

use crate::digest::Digest;
use snl_session::{
    ChannelRow, Destination, Diagnostic, FlagRow, NamedState, OptionRow, Queue, ScopeName, SetRow,
    Span, StateRow, Synced, Tables, WakeUp,
};

fn add_span(digest: &mut Digest, span: Span) {
    digest.add_size(span.start);
    digest.add_size(span.len);
}

fn add_any_span(digest: &mut Digest, span: Option<Span>) {
    digest.add_flag(span.is_some());
    if let Some(span) = span {
        add_span(digest, span);
    }
}

// Adds the number of a line, and the place of its file's name.
fn add_line(digest: &mut Digest, number: usize, file: Option<(usize, usize)>) {
    digest.add_size(number);
    digest.add_flag(file.is_some());
    if let Some((start, len)) = file {
        digest.add_size(start);
        digest.add_size(len);
    }
}

/// Adds diagnostics.
pub fn add_diagnostics(digest: &mut Digest, found: &[Diagnostic]) {
    digest.add_size(found.len());
    for diagnostic in found {
        let Diagnostic {
            offset,
            line,
            file,
            code,
            subject,
        } = *diagnostic;
        digest.add_size(offset);
        add_line(digest, line, file);
        digest.add(code as u64);
        digest.add_size(subject);
    }
}

fn add_options(digest: &mut Digest, options: &[OptionRow]) {
    digest.add_size(options.len());
    for option in options {
        let OptionRow { letter, is_set } = *option;
        digest.add(u64::from(letter));
        digest.add_flag(is_set);
    }
}

fn add_scope(digest: &mut Digest, scope: ScopeName) {
    match scope {
        ScopeName::Program => digest.add(0),
        ScopeName::StateSet(set) => {
            digest.add(1);
            add_span(digest, set);
        }
        ScopeName::State { set, state } => {
            digest.add(2);
            add_any_span(digest, set);
            add_span(digest, state);
        }
    }
}

fn add_flags(digest: &mut Digest, flags: &[FlagRow]) {
    digest.add_size(flags.len());
    for flag in flags {
        let FlagRow { name, scope } = *flag;
        add_span(digest, name);
        add_scope(digest, scope);
    }
}

fn add_queue(digest: &mut Digest, queue: Queue) {
    match queue {
        Queue::Unqueued => digest.add(0),
        Queue::Default => digest.add(1),
        Queue::Length(length) => {
            digest.add(2);
            digest.add(length);
        }
    }
}

fn add_sync(digest: &mut Digest, sync: Option<Synced>) {
    digest.add_flag(sync.is_some());
    if let Some(Synced { flag, queue }) = sync {
        digest.add_flag(flag.is_some());
        digest.add_size(flag.unwrap_or(0));
        add_queue(digest, queue);
    }
}

fn add_channel(digest: &mut Digest, channel: &ChannelRow) {
    let ChannelRow {
        variable,
        element,
        scope,
        pv,
        is_monitored,
        sync,
    } = channel;
    add_span(digest, *variable);
    digest.add_flag(element.is_some());
    digest.add(element.unwrap_or(0));
    add_scope(digest, *scope);
    digest.add_bytes(pv.bytes());
    digest.add_flag(*is_monitored);
    add_sync(digest, *sync);
}

fn add_channels(digest: &mut Digest, channels: &[ChannelRow]) {
    digest.add_size(channels.len());
    for channel in channels {
        add_channel(digest, channel);
    }
}

fn add_numbers(digest: &mut Digest, numbers: &[usize]) {
    digest.add_size(numbers.len());
    for number in numbers {
        digest.add_size(*number);
    }
}

fn add_target(digest: &mut Digest, target: NamedState) {
    let NamedState { name, is_known } = target;
    add_span(digest, name);
    digest.add_flag(is_known);
}

fn add_targets(digest: &mut Digest, targets: &[NamedState]) {
    digest.add_size(targets.len());
    for target in targets {
        add_target(digest, *target);
    }
}

fn add_transitions(digest: &mut Digest, transitions: &[Destination]) {
    digest.add_size(transitions.len());
    for transition in transitions {
        match *transition {
            Destination::Exit => digest.add(0),
            Destination::State(target) => {
                digest.add(1);
                add_target(digest, target);
            }
        }
    }
}

fn add_wake(digest: &mut Digest, wake: &[WakeUp]) {
    digest.add_size(wake.len());
    for meant in wake {
        let (kind, number) = match *meant {
            WakeUp::Flag(number) => (0, number),
            WakeUp::Channel(number) => (1, number),
            WakeUp::Variable(number) => (2, number),
        };
        digest.add(kind);
        digest.add_size(number);
    }
}

fn add_state(digest: &mut Digest, state: &StateRow) {
    let StateRow {
        name,
        line,
        mark,
        options,
        transitions,
        gotos,
        wake,
    } = state;
    add_span(digest, *name);
    add_line(digest, line.number, line.file);
    digest.add(*mark as u64);
    add_options(digest, options.as_slice());
    add_transitions(digest, transitions.as_slice());
    add_targets(digest, gotos.as_slice());
    add_wake(digest, wake.as_slice());
}

fn add_set(digest: &mut Digest, set: &SetRow) {
    let SetRow { name, line, states } = set;
    add_span(digest, *name);
    add_line(digest, line.number, line.file);
    digest.add_size(states.len());
    for state in states.as_slice() {
        add_state(digest, state);
    }
}

fn add_sets(digest: &mut Digest, sets: &[SetRow]) {
    digest.add_size(sets.len());
    for set in sets {
        add_set(digest, set);
    }
}

/// Adds tables, with all their rows.
pub fn add_tables(digest: &mut Digest, tables: &Tables) {
    let Tables {
        program,
        options,
        flags,
        channels,
        variables,
        sets,
    } = tables;
    add_any_span(digest, *program);
    add_options(digest, options.as_slice());
    add_flags(digest, flags.as_slice());
    add_channels(digest, channels.as_slice());
    digest.add_size(variables.len());
    for numbers in variables.as_slice() {
        add_numbers(digest, numbers.as_slice());
    }
    add_sets(digest, sets.as_slice());
}
