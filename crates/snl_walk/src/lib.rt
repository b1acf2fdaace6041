//! What is found in an item, in the order of its text: its tree comes in, a list of occurrences
//! goes out, each with what the rules ask of its place and with the declaration in the item that
//! its name resolves to. It knows nothing of the other items.
#![tactic(auto)]

mod calls;
mod declares;
mod expressions;
mod items;
mod laws;
mod name_set;
mod occurrence;
mod other_items;
mod rules;
mod source;
mod stack;
mod statements;
mod undeclared;
mod used;
mod visible;

pub use items::occurrences;
pub use laws::{
    each_finding_once, findings_have_rule_codes, findings_stand_at_tokens,
    functions_are_named_first, option_letters_rise, repeated_names_resolve,
    same_answers_same_findings, same_bytes_same_occurrences, subscripts_stand_second, tokens_rise,
};
pub use name_set::NameSet;
pub use occurrence::{ArgumentRole, Follows, Local, Manner, Occurrence, What};
pub use other_items::{OtherItems, Outer};
pub use rules::{Finding, findings};
pub use source::Source;
pub use used::{TargetUse, WakeUse, target_uses, targets, uses, wake_uses};
