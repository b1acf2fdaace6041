//! Reads options.
#![tactic(auto, unfolding(crate::proofs::Opened::Clauses::options))]

ghost use Rattle.snl_grammar.specs.Reading.Clauses as spec;
ghost use Rattle.snl_expression.specs.Reads.{ReadsFrom};

use snl_expression::{Stop, expect, kind_at};
use snl_grammar::tree::clause::{OptionLine, OptionSign};
use snl_lex::Kind;

// "+" | "-"
// +
fn sign(kinds: &[Kind], at: usize) -> Result<(OptionSign, usize), Stop>
    ensures { ReadsFrom kinds.now at result spec.sign }
{
    match kind_at(kinds, at) {
        Some(Kind::Plus) => {
            let at = expect(kinds, at, Kind::Plus)?;
            Ok((OptionSign::Plus, at))
        }
        Some(Kind::Minus) => {
            let at = expect(kinds, at, Kind::Minus)?;
            Ok((OptionSign::Minus, at))
        }
        _ => Err(Stop::Here(at)),
    }
}

/// `option`, a sign and letters, with `;` after them.
// option = "option" ( "+" | "-" ) NAME ";"
// option +rs;
pub fn option_line(kinds: &[Kind], at: usize) -> Result<(OptionLine, usize), Stop>
    ensures { ReadsFrom kinds.now at result spec.option_line }
{
    let at = expect(kinds, at, Kind::Option)?;
    let (sign, at) = sign(kinds, at)?;
    let letters = at;
    let at = expect(kinds, at, Kind::Name)?;
    let at = expect(kinds, at, Kind::Semicolon)?;
    Ok((OptionLine { sign, letters }, at))
}
