//! The names in expressions and initialisers, in the order of the text: a tree comes in,
//! occurrences go out.

ghost use Rattle.std.specs.Prelude.{◌≡◌, ◌++◌, false, OnOk, map};
ghost use Rattle.std.specs.List.{flat_map};
ghost use Rattle.snl_walk.specs.Tokens.{IsSource, bytes_in};
ghost use Rattle.snl_walk.specs.Scopes.{manner_of, seen};
ghost use Rattle.snl_walk.specs.Expressions.{are_subscripts, before, following, names_if, names_in_all, names_in_arguments, names_in_arms, names_in_expr, names_in_init, names_in_links, names_in_tails, names_in_targets, names_in_value, names_in_values, operand, plain, subscript_by, tail_of};

use crate::calls::role_in;
use crate::occurrence::{ExpressionName, Follows, Manner, Occurrence, Setting, What};
use crate::source::Source;
use crate::visible::Visible;
use snl_cut::OutOfMemory;
use snl_grammar::tree::declaration::Init;
use snl_grammar::tree::expression::{Expr, Suffix};
use snl_grammar::{Assignment, Binary};
use sqlite_items::Boxed;

// The name that an expression is, if it is a name alone.
fn name_of(expr: &Expr) -> Option<usize>
    ensures { result ≡ (operand expr.now).name }
{
    match expr {
        Expr::Name(name) => Some(*name),
        _ => None,
    }
}

// Whether an expression is an integer alone.
fn is_integer(expr: &Expr) -> bool
    ensures { result ≡ (operand expr.now).is_integer }
{
    matches!(expr, Expr::Integer(_))
}

fn is_subscript(suffix: &Suffix) -> bool
    ensures { result ≡ (tail_of suffix.now).is_subscript }
{
    matches!(suffix, Suffix::Subscript(_))
}

fn are_subscripts(suffixes: &[Suffix]) -> bool
    ensures { result ≡ are_subscripts (map tail_of suffixes.now) }
{
    for suffix in suffixes {
        if !is_subscript(suffix) {
            return false;
        }
    }
    true
}

fn subscript_by(is_integer: bool) -> Follows
    ensures { result ≡ subscript_by is_integer }
{
    if is_integer {
        Follows::Index
    } else {
        Follows::Subscript
    }
}

// What a suffix is to the operand before it.
fn follows_of(suffix: &Suffix) -> Follows
    ensures { result ≡ (tail_of suffix.now).follows }
{
    match suffix {
        Suffix::Call(_) => Follows::Call,
        Suffix::Subscript(index) => subscript_by(is_integer(index)),
        Suffix::Member(_) | Suffix::Arrow(_) | Suffix::Increment | Suffix::Decrement => {
            Follows::Other
        }
    }
}

fn following(suffixes: &[Suffix]) -> Follows
    ensures { result ≡ following (map tail_of suffixes.now) }
{
    match suffixes.first() {
        Some(suffix) => follows_of(suffix),
        None => Follows::Nothing,
    }
}

/// The setting of an expression that nothing follows and that is no first argument.
pub(crate) fn plain() -> Setting
    ensures { result ≡ plain }
{
    Setting {
        follows: Follows::Nothing,
        argument_of: None,
    }
}

// The setting of an operand before these suffixes.
fn before(suffixes: &[Suffix], setting: Setting) -> Setting
    ensures { result ≡ before (map tail_of suffixes.now) setting }
{
    let follows = following(suffixes);
    if are_subscripts(suffixes) {
        Setting {
            follows,
            argument_of: setting.argument_of,
        }
    } else {
        Setting {
            follows,
            argument_of: None,
        }
    }
}

fn manner_of(source: &Source, in_condition: bool, setting: Setting) -> Manner
    requires { IsSource source.now.text.now source.now.tokens.now }
    ensures { result ≡ manner_of (bytes_in source.now) in_condition setting }
{
    Manner {
        follows: setting.follows,
        role: role_in(source, setting.argument_of),
        in_condition,
    }
}

// A name where these are visible.
fn seen(source: &Source, names: &Visible, in_condition: bool, name: ExpressionName) -> Occurrence
    requires { IsSource source.now.text.now source.now.tokens.now }
    ensures { result ≡ seen (bytes_in source.now) names.now in_condition name }
{
    Occurrence {
        token: name.token,
        what: What::Name(manner_of(source, in_condition, name.setting)),
        means: names.get(source.bytes(name.token)),
    }
}

/// Adds the names in an expression.
#[cycle(expressions)]
pub(crate) fn add_expr(
    source: &Source,
    names: &Visible,
    in_condition: bool,
    expr: &Expr,
    setting: Setting,
    found: &mut Vec<Occurrence>,
) -> Result<(), OutOfMemory>
    requires { IsSource source.now.text.now source.now.tokens.now }
    ensures { OnOk result (found.new.items ≡ found.old.items
        ++ map (seen (bytes_in source.now) names.now in_condition) (names_in_expr setting expr.now)) }
{
    match expr {
        Expr::Name(token) => {
            let name = ExpressionName {
                token: *token,
                setting,
            };
            found.push(seen(source, names, in_condition, name))?;
            Ok(())
        }
        Expr::Group(inner) => add_expr(source, names, in_condition, inner.get(), plain(), found),
        Expr::Postfix(operand, suffixes) => {
            let inner = before(suffixes.as_slice(), setting);
            add_expr(source, names, in_condition, operand.get(), inner, found)?;
            let name = name_of(operand.get());
            add_suffixes(
                source,
                names,
                in_condition,
                suffixes.as_slice(),
                name,
                found,
            )
        }
        Expr::Prefixed(_, operand) => {
            add_expr(source, names, in_condition, operand.get(), plain(), found)
        }
        Expr::Chain(first, links) => {
            add_expr(source, names, in_condition, first.get(), plain(), found)?;
            add_links(source, names, in_condition, links.as_slice(), found)
        }
        Expr::Conditional(first, arms) => {
            add_expr(source, names, in_condition, first.get(), plain(), found)?;
            add_arms(source, names, in_condition, arms.as_slice(), found)
        }
        Expr::Assigned(targets, value) => {
            add_targets(source, names, in_condition, targets.as_slice(), found)?;
            add_expr(source, names, in_condition, value.get(), plain(), found)
        }
        Expr::Sequence(first, others) => {
            add_expr(source, names, in_condition, first.get(), plain(), found)?;
            add_all(source, names, in_condition, others.as_slice(), found)
        }
        Expr::Integer(_)
        | Expr::Floating(_)
        | Expr::Character(_)
        | Expr::Text(_)
        | Expr::SizeofType(_) => Ok(()),
    }
}

// Adds the names in the suffixes of an operand, which may be a name alone.
#[cycle(expressions)]
fn add_suffixes(
    source: &Source,
    names: &Visible,
    in_condition: bool,
    suffixes: &[Suffix],
    name: Option<usize>,
    found: &mut Vec<Occurrence>,
) -> Result<(), OutOfMemory>
    requires { IsSource source.now.text.now source.now.tokens.now }
    ensures { OnOk result (found.new.items ≡ found.old.items
        ++ map (seen (bytes_in source.now) names.now in_condition)
        (names_in_tails name (map tail_of suffixes.now))) }
{
    let mut call = name;
    for suffix in suffixes {
        add_suffix(source, names, in_condition, suffix, call, found)?;
        call = None;
    }
    Ok(())
}

// Adds the names in a suffix, after a name or not.
#[cycle(expressions)]
fn add_suffix(
    source: &Source,
    names: &Visible,
    in_condition: bool,
    suffix: &Suffix,
    call: Option<usize>,
    found: &mut Vec<Occurrence>,
) -> Result<(), OutOfMemory>
    requires { IsSource source.now.text.now source.now.tokens.now }
    ensures { OnOk result (found.new.items ≡ found.old.items
        ++ map (seen (bytes_in source.now) names.now in_condition) ((tail_of suffix.now).names call)) }
{
    match suffix {
        Suffix::Subscript(index) => add_expr(source, names, in_condition, index, plain(), found),
        Suffix::Call(arguments) => {
            add_arguments(
                source,
                names,
                in_condition,
                arguments.as_slice(),
                call,
                found,
            )
        }
        Suffix::Member(_) | Suffix::Arrow(_) | Suffix::Increment | Suffix::Decrement => Ok(()),
    }
}

// Adds the names in the arguments of a call, of a name or not.
#[cycle(expressions)]
fn add_arguments(
    source: &Source,
    names: &Visible,
    in_condition: bool,
    exprs: &[Expr],
    call: Option<usize>,
    found: &mut Vec<Occurrence>,
) -> Result<(), OutOfMemory>
    requires { IsSource source.now.text.now source.now.tokens.now }
    ensures { OnOk result (found.new.items ≡ found.old.items
        ++ map (seen (bytes_in source.now) names.now in_condition)
        (names_in_arguments call (map operand exprs.now))) }
{
    let mut argument_of = call;
    for expr in exprs {
        let setting = Setting {
            follows: Follows::Nothing,
            argument_of,
        };
        add_expr(source, names, in_condition, expr, setting, found)?;
        argument_of = None;
    }
    Ok(())
}

#[cycle(expressions)]
fn add_links(
    source: &Source,
    names: &Visible,
    in_condition: bool,
    links: &[(Binary, Expr)],
    found: &mut Vec<Occurrence>,
) -> Result<(), OutOfMemory>
    requires { IsSource source.now.text.now source.now.tokens.now }
    ensures { OnOk result (found.new.items ≡ found.old.items
        ++ map (seen (bytes_in source.now) names.now in_condition)
        (names_in_links (map (λ link. (link.0, operand link.1)) links.now))) }
{
    for link in links {
        add_expr(source, names, in_condition, &link.1, plain(), found)?;
    }
    Ok(())
}

#[cycle(expressions)]
fn add_arms(
    source: &Source,
    names: &Visible,
    in_condition: bool,
    arms: &[(Expr, Expr)],
    found: &mut Vec<Occurrence>,
) -> Result<(), OutOfMemory>
    requires { IsSource source.now.text.now source.now.tokens.now }
    ensures { OnOk result (found.new.items ≡ found.old.items
        ++ map (seen (bytes_in source.now) names.now in_condition)
        (names_in_arms (map (λ arm. (operand arm.0, operand arm.1)) arms.now))) }
{
    for arm in arms {
        add_expr(source, names, in_condition, &arm.0, plain(), found)?;
        add_expr(source, names, in_condition, &arm.1, plain(), found)?;
    }
    Ok(())
}

#[cycle(expressions)]
fn add_targets(
    source: &Source,
    names: &Visible,
    in_condition: bool,
    targets: &[(Expr, Assignment)],
    found: &mut Vec<Occurrence>,
) -> Result<(), OutOfMemory>
    requires { IsSource source.now.text.now source.now.tokens.now }
    ensures { OnOk result (found.new.items ≡ found.old.items
        ++ map (seen (bytes_in source.now) names.now in_condition)
        (names_in_targets (map (λ target. (operand target.0, target.1)) targets.now))) }
{
    for target in targets {
        add_expr(source, names, in_condition, &target.0, plain(), found)?;
    }
    Ok(())
}

#[cycle(expressions)]
fn add_all(
    source: &Source,
    names: &Visible,
    in_condition: bool,
    exprs: &[Expr],
    found: &mut Vec<Occurrence>,
) -> Result<(), OutOfMemory>
    requires { IsSource source.now.text.now source.now.tokens.now }
    ensures { OnOk result (found.new.items ≡ found.old.items
        ++ map (seen (bytes_in source.now) names.now in_condition)
        (names_in_all (map operand exprs.now))) }
{
    for expr in exprs {
        add_expr(source, names, in_condition, expr, plain(), found)?;
    }
    Ok(())
}

/// Adds the names in an expression, if there is one.
pub(crate) fn add_optional(
    source: &Source,
    names: &Visible,
    in_condition: bool,
    expr: &Option<Expr>,
    found: &mut Vec<Occurrence>,
) -> Result<(), OutOfMemory>
    requires { IsSource source.now.text.now source.now.tokens.now }
    ensures { OnOk result (found.new.items ≡ found.old.items
        ++ map (seen (bytes_in source.now) names.now in_condition) (names_if expr.now)) }
{
    match expr {
        Some(expr) => add_expr(source, names, in_condition, expr, plain(), found),
        None => Ok(()),
    }
}

/// Adds the names in the lengths of a declarator or a parameter.
pub(crate) fn add_lengths(
    source: &Source,
    names: &Visible,
    lengths: &[Option<Expr>],
    found: &mut Vec<Occurrence>,
) -> Result<(), OutOfMemory>
    requires { IsSource source.now.text.now source.now.tokens.now }
    ensures { OnOk result (found.new.items ≡ found.old.items
        ++ map (seen (bytes_in source.now) names.now false) (flat_map names_if lengths.now)) }
{
    for length in lengths {
        add_optional(source, names, false, length, found)?;
    }
    Ok(())
}

// Adds the names in an initialiser.
#[cycle(initialisers)]
fn add_init(
    source: &Source,
    names: &Visible,
    init: &Init,
    found: &mut Vec<Occurrence>,
) -> Result<(), OutOfMemory>
    requires { IsSource source.now.text.now source.now.tokens.now }
    ensures { OnOk result (found.new.items ≡ found.old.items
        ++ map (seen (bytes_in source.now) names.now false) (names_in_init init.now)) }
{
    match init {
        Init::Value(value) => add_expr(source, names, false, value, plain(), found),
        Init::List(values, _) => add_inits(source, names, values.as_slice(), found),
    }
}

#[cycle(initialisers)]
fn add_inits(
    source: &Source,
    names: &Visible,
    values: &[Init],
    found: &mut Vec<Occurrence>,
) -> Result<(), OutOfMemory>
    requires { IsSource source.now.text.now source.now.tokens.now }
    ensures { OnOk result (found.new.items ≡ found.old.items
        ++ map (seen (bytes_in source.now) names.now false)
        (names_in_values (map names_in_init values.now))) }
{
    for value in values {
        add_init(source, names, value, found)?;
    }
    Ok(())
}

/// Adds the names in the value of a declarator, if it has one.
pub(crate) fn add_value(
    source: &Source,
    names: &Visible,
    value: &Option<Boxed<Init>>,
    found: &mut Vec<Occurrence>,
) -> Result<(), OutOfMemory>
    requires { IsSource source.now.text.now source.now.tokens.now }
    ensures { OnOk result (found.new.items ≡ found.old.items
        ++ map (seen (bytes_in source.now) names.now false) (names_in_value value.now)) }
{
    match value {
        Some(init) => add_init(source, names, init.get(), found),
        None => Ok(()),
    }
}
