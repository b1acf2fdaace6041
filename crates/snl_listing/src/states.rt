//! The lines of state sets and states.
#![tactic(auto)]

ghost use Rattle.std.specs.Prelude.{◌≡◌, ℕ, ◌+◌, ◌++◌, ◌∷◌, ◌&&◌, [], List, length, IfOk, OnOk, decimal, codes, if◌then◌else◌};
ghost use Rattle.std.specs.List.{concat, flat_map};
ghost use Rattle.snl_tables.specs.Marks.{marked};
ghost use Rattle.snl_tables.specs.WakeSets.{IsFor, wake_channels, wake_flags};
ghost use Rattle.snl_listing.specs.Lister.{IsReady};
ghost use Rattle.snl_listing.specs.Listing.{destination_text, goto_line, mark_text, numbered, set_line, set_text, state_line, state_lines, state_text, unless_faulty, wake_line, when_line};
ghost use Rattle.snl_listing.specs.Parts.{part_text};
ghost use Rattle.snl_listing.specs.Sink.{Put};

use crate::lines::put_options;
use crate::parts::{Part, name, put_line};
use crate::sink::Sink;
use crate::words::{Word, put_words};
use snl_tables::{
    Destination, NamedState, NumberSet, SetRow, StateMark, StateRow, Tables, WakeMarks,
};

fn mark_word(mark: StateMark) -> &'static str
    ensures { result.now ≡ mark_text mark }
{
    match mark {
        StateMark::Faulty => "faulty",
        StateMark::Repeated => "repeated",
        StateMark::Unknown => "unknown",
        StateMark::Reached => "reached",
        StateMark::Unreached => "unreached",
    }
}

fn put_state_line<S: Sink>(sink: &mut S, text: &[u8], state: &StateRow) -> Result<(), S::Error>
    ensures { Put result (S.Took sink.old sink.new) (S.Broke sink.old sink.new)
        (state_line text.now state.now) }
{
    put_line(
        sink,
        &[
            Part::Plain("state "),
            Part::Escaped(name(text, state.name)),
            Part::Plain(" line "),
            Part::Number(state.line.number as u64),
            Part::File {
                text,
                file: state.line.file,
            },
            Part::Plain(" "),
            Part::Plain(mark_word(state.mark)),
            Part::Plain("\n"),
        ],
    )
}

fn put_set_line<S: Sink>(sink: &mut S, text: &[u8], set: &SetRow) -> Result<(), S::Error>
    ensures { Put result (S.Took sink.old sink.new) (S.Broke sink.old sink.new)
        (set_line text.now set.now) }
{
    put_line(
        sink,
        &[
            Part::Plain("ss "),
            Part::Escaped(name(text, set.name)),
            Part::Plain(" line "),
            Part::Number(set.line.number as u64),
            Part::File {
                text,
                file: set.line.file,
            },
            Part::Plain("\n"),
        ],
    )
}

// What follows the name of a target.
fn question(target: NamedState) -> &'static str
    ensures { result.now ≡ (if target.is_known then [] else codes " ?") }
{
    if target.is_known { "" } else { " ?" }
}

fn put_when<S: Sink>(
    sink: &mut S,
    text: &[u8],
    number: usize,
    destination: Destination,
) -> Result<(), S::Error>
    ensures { Put result (S.Took sink.old sink.new) (S.Broke sink.old sink.new)
        (when_line text.now number destination) }
{
    let (shown, mark) = match destination {
        Destination::Exit => (Part::Plain("exit"), ""),
        Destination::State(target) => (Part::Escaped(name(text, target.name)), question(target)),
    };
    put_line(
        sink,
        &[
            Part::Plain("  when "),
            Part::Number(number as u64),
            Part::Plain(" "),
            shown,
            Part::Plain(mark),
            Part::Plain("\n"),
        ],
    )
}

fn put_transitions<S: Sink>(
    sink: &mut S,
    text: &[u8],
    transitions: &[Destination],
) -> Result<(), S::Error>
    ensures { Put result (S.Took sink.old sink.new) (S.Broke sink.old sink.new)
        (numbered (when_line text.now) 0 transitions.now) }
{
    for (number, destination) in transitions.iter().enumerate() {
        put_when(sink, text, number, *destination)?;
    }
    Ok(())
}

fn put_goto<S: Sink>(sink: &mut S, text: &[u8], target: NamedState) -> Result<(), S::Error>
    ensures { Put result (S.Took sink.old sink.new) (S.Broke sink.old sink.new)
        (goto_line text.now target) }
{
    put_line(
        sink,
        &[
            Part::Plain("  goto "),
            Part::Escaped(name(text, target.name)),
            Part::Plain(question(target)),
            Part::Plain("\n"),
        ],
    )
}

fn put_gotos<S: Sink>(sink: &mut S, text: &[u8], targets: &[NamedState]) -> Result<(), S::Error>
    ensures { Put result (S.Took sink.old sink.new) (S.Broke sink.old sink.new)
        (flat_map (goto_line text.now) targets.now) }
{
    for target in targets {
        put_goto(sink, text, *target)?;
    }
    Ok(())
}

// Puts the numbers of a set, which is empty then.
fn put_numbers<S: Sink>(sink: &mut S, letter: &str, numbers: &mut NumberSet) -> Result<(), S::Error>
    ensures put { Put result (S.Took sink.old sink.new) (S.Broke sink.old sink.new)
        (flat_map (λ n. letter.now ++ decimal n) (marked numbers.old)) }
    ensures empty { OnOk result (marked numbers.new ≡ []) }
    ensures limit { length numbers.new ≡ length numbers.old }
{
    while let Some(number) = numbers.take_first() {
        put_words(sink, &[Word::Plain(letter), Word::Number(number as u64)])?;
    }
    Ok(())
}

fn none_word(no_flag: bool, no_channel: bool) -> &'static str
    ensures { result.now ≡ (if no_flag && no_channel then codes " -" else []) }
{
    if no_flag && no_channel { " -" } else { "" }
}

// Puts the line of a wake-up set, with a word for the empty one. Its numbers are taken out.
fn put_sets<S: Sink>(
    sink: &mut S,
    flags: &mut NumberSet,
    channels: &mut NumberSet,
    none: &'static str,
) -> Result<(), S::Error>
    ensures put { Put result (S.Took sink.old sink.new) (S.Broke sink.old sink.new)
        (concat (codes "  wake"
        ∷ flat_map (λ n. codes " f" ++ decimal n) (marked flags.old)
        ∷ flat_map (λ n. codes " c" ++ decimal n) (marked channels.old)
        ∷ none.now ∷ codes "\n" ∷ [])) }
    ensures no_flag { OnOk result (marked flags.new ≡ []) }
    ensures no_channel { OnOk result (marked channels.new ≡ []) }
    ensures flag_limit { length flags.new ≡ length flags.old }
    ensures channel_limit { length channels.new ≡ length channels.old }
{
    sink.put("  wake")?;
    put_numbers(sink, " f", flags)?;
    put_numbers(sink, " c", channels)?;
    put_words(sink, &[Word::Plain(none), Word::Plain("\n")])
}

// Puts the line of a wake-up set, whose numbers are taken out.
fn put_marked<S: Sink>(
    sink: &mut S,
    flags: &mut NumberSet,
    channels: &mut NumberSet,
) -> Result<(), S::Error>
    ensures put { Put result (S.Took sink.old sink.new) (S.Broke sink.old sink.new)
        (wake_line (marked flags.old) (marked channels.old)) }
    ensures no_flag { OnOk result (marked flags.new ≡ []) }
    ensures no_channel { OnOk result (marked channels.new ≡ []) }
    ensures flag_limit { length flags.new ≡ length flags.old }
    ensures channel_limit { length channels.new ≡ length channels.old }
{
    let none = none_word(flags.is_empty(), channels.is_empty());
    put_sets(sink, flags, channels, none)
}

// Puts the line of a state's wake-up set.
fn put_wake<S: Sink>(
    sink: &mut S,
    marks: &mut WakeMarks,
    tables: &Tables,
    state: &StateRow,
) -> Result<(), S::Error>
    requires { IsReady tables.now marks.old }
    ensures put { Put result (S.Took sink.old sink.new) (S.Broke sink.old sink.new)
        (wake_line (wake_flags tables.now state.now) (wake_channels tables.now state.now)) }
    ensures ready { OnOk result (IsReady tables.now marks.new) }
{
    marks.mark(tables, state);
    put_marked(sink, &mut marks.flags, &mut marks.channels)
}

fn put_details<S: Sink>(
    sink: &mut S,
    marks: &mut WakeMarks,
    text: &[u8],
    tables: &Tables,
    state: &StateRow,
) -> Result<(), S::Error>
    requires { IsReady tables.now marks.old }
    ensures put { Put result (S.Took sink.old sink.new) (S.Broke sink.old sink.new)
        (state_lines text.now tables.now state.now) }
    ensures ready { OnOk result (IsReady tables.now marks.new) }
{
    put_options(sink, "  ", state.options.as_slice())?;
    put_transitions(sink, text, state.transitions.as_slice())?;
    put_gotos(sink, text, state.gotos.as_slice())?;
    put_wake(sink, marks, tables, state)
}

fn put_state<S: Sink>(
    sink: &mut S,
    marks: &mut WakeMarks,
    text: &[u8],
    tables: &Tables,
    state: &StateRow,
) -> Result<(), S::Error>
    requires { IsReady tables.now marks.old }
    ensures put { Put result (S.Took sink.old sink.new) (S.Broke sink.old sink.new)
        (state_text text.now tables.now state.now) }
    ensures ready { OnOk result (IsReady tables.now marks.new) }
{
    put_state_line(sink, text, state)?;
    match state.mark {
        StateMark::Faulty => Ok(()),
        _ => put_details(sink, marks, text, tables, state),
    }
}

fn put_states<S: Sink>(
    sink: &mut S,
    marks: &mut WakeMarks,
    text: &[u8],
    tables: &Tables,
    states: &[StateRow],
) -> Result<(), S::Error>
    requires { IsReady tables.now marks.old }
    ensures put { Put result (S.Took sink.old sink.new) (S.Broke sink.old sink.new)
        (flat_map (state_text text.now tables.now) states.now) }
    ensures ready { OnOk result (IsReady tables.now marks.new) }
{
    for state in states {
        put_state(sink, marks, text, tables, state)?;
    }
    Ok(())
}

fn put_set<S: Sink>(
    sink: &mut S,
    marks: &mut WakeMarks,
    text: &[u8],
    tables: &Tables,
    set: &SetRow,
) -> Result<(), S::Error>
    requires { IsReady tables.now marks.old }
    ensures put { Put result (S.Took sink.old sink.new) (S.Broke sink.old sink.new)
        (set_text text.now tables.now set.now) }
    ensures ready { OnOk result (IsReady tables.now marks.new) }
{
    put_set_line(sink, text, set)?;
    put_states(sink, marks, text, tables, set.states.as_slice())
}

/// Puts the state sets of a text, each with its states.
pub(crate) fn put_state_sets<S: Sink>(
    sink: &mut S,
    marks: &mut WakeMarks,
    text: &[u8],
    tables: &Tables,
    sets: &[SetRow],
) -> Result<(), S::Error>
    requires { IsReady tables.now marks.old }
    ensures put { Put result (S.Took sink.old sink.new) (S.Broke sink.old sink.new)
        (flat_map (set_text text.now tables.now) sets.now) }
    ensures ready { OnOk result (IsReady tables.now marks.new) }
{
    for set in sets {
        put_set(sink, marks, text, tables, set)?;
    }
    Ok(())
}
