//! Tests of what names of a text mean, of where they are named, of other names for them, of what a
//! hover says of them, and of the symbols of a text. There is no code of the product here.
#![tactic(auto)]

#[cfg(test)]
mod document_symbols;
#[cfg(test)]
mod hovers;
#[cfg(test)]
mod meanings;
#[cfg(test)]
mod notes;
#[cfg(test)]
mod references;
#[cfg(test)]
mod related;
#[cfg(test)]
mod renames;
