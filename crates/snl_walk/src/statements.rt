//! What is found in the statements of an item: a tree comes in, occurrences go out, in the order of
//! the text.

ghost use Rattle.std.specs.Prelude.{◌≡◌, [], ◌∷◌, ◌++◌, IfOk, OnOk};
ghost use Rattle.snl_walk.specs.Tokens.{IsSource, bytes_in};
ghost use Rattle.snl_walk.specs.Statements.{change, content_of, declaration_at, found_in_block, found_in_branches, found_in_declaration, found_in_declarator, found_in_head, found_in_stmt, has_more, in_loop, jump, last_of};
ghost use Rattle.snl_walk.specs.Scopes.{under_names};

use crate::declares::{declared_by_block, is_event_flag};
use crate::expressions::{add_expr, add_lengths, add_optional, add_value, plain};
use crate::occurrence::{Context, Local, Occurrence, What};
use crate::source::Source;
use crate::visible::Visible;
use snl_cut::OutOfMemory;
use snl_grammar::tree::declaration::{Declaration, Declarator};
use snl_grammar::tree::statement::{ForHead, Member, Stmt};
use sqlite_items::Boxed;

/// Takes in what a scope declares: its first declaration comes first.
pub(crate) fn enter<'a>(
    source: &Source<'a>,
    declared: &[Local],
    names: &mut Visible<'a>,
) -> Result<(), OutOfMemory>
    requires { IsSource source.now.text.now source.now.tokens.now }
    ensures { OnOk result (names.new ≡ under_names (bytes_in source.now) declared.now
        ++ names.old) }
{
    let mut left = declared.len();
    while left > 0 {
        left -= 1;
        let declaration = declared[left];
        names.push(source.bytes(declaration.token), declaration)?;
    }
    Ok(())
}

// Whether a declarator is more than a name.
fn has_more(declarator: &Declarator) -> bool
    ensures { result ≡ has_more declarator.now }
{
    declarator.pointers.len() != 0 || declarator.lengths.len() != 0 || declarator.init.is_some()
}

/// A name where it is declared.
pub(crate) fn declaration_at(
    source: &Source,
    names: &Visible,
    is_wrong: bool,
    token: usize,
) -> Occurrence
    requires { IsSource source.now.text.now source.now.tokens.now }
    ensures { result ≡ declaration_at (bytes_in source.now) names.now is_wrong token }
{
    Occurrence {
        token,
        what: What::Declaration { is_wrong },
        means: names.get(source.bytes(token)),
    }
}

// Adds what is found in a declarator, of an event flag or not, and in a block or not.
fn add_declarator(
    source: &Source,
    names: &Visible,
    is_flag: bool,
    in_block: bool,
    declarator: &Declarator,
    found: &mut Vec<Occurrence>,
) -> Result<(), OutOfMemory>
    requires { IsSource source.now.text.now source.now.tokens.now }
    ensures { OnOk result (found.new.items ≡ found.old.items
        ++ found_in_declarator (bytes_in source.now) names.now is_flag in_block declarator.now) }
{
    let is_wrong = is_flag && (in_block || has_more(declarator));
    found.push(declaration_at(source, names, is_wrong, declarator.name))?;
    add_lengths(source, names, declarator.lengths.as_slice(), found)?;
    add_value(source, names, &declarator.init, found)
}

/// Adds what is found in a declaration, in a block or not.
pub(crate) fn add_declaration(
    source: &Source,
    names: &Visible,
    in_block: bool,
    declaration: &Declaration,
    found: &mut Vec<Occurrence>,
) -> Result<(), OutOfMemory>
    requires { IsSource source.now.text.now source.now.tokens.now }
    ensures { OnOk result (found.new.items ≡ found.old.items
        ++ found_in_declaration (bytes_in source.now) names.now in_block declaration.now) }
{
    let is_flag = is_event_flag(declaration.of.base);
    for declarator in declaration.declarators.as_slice() {
        add_declarator(source, names, is_flag, in_block, declarator, found)?;
    }
    Ok(())
}

// Adds what is found in the brackets of a `for`.
fn add_head(
    source: &Source,
    names: &Visible,
    head: &ForHead,
    found: &mut Vec<Occurrence>,
) -> Result<(), OutOfMemory>
    requires { IsSource source.now.text.now source.now.tokens.now }
    ensures { OnOk result (found.new.items ≡ found.old.items
        ++ found_in_head (bytes_in source.now) names.now head.now) }
{
    add_optional(source, names, false, &head.first, found)?;
    add_optional(source, names, false, &head.condition, found)?;
    add_optional(source, names, false, &head.step, found)
}

fn in_loop(context: Context) -> Context
    ensures { result ≡ in_loop context }
{
    Context {
        in_loop: true,
        in_transition: context.in_transition,
    }
}

// Adds a `break` or a `continue`.
fn add_jump(word: usize, context: Context, found: &mut Vec<Occurrence>) -> Result<(), OutOfMemory>
    ensures { OnOk result (found.new.items ≡ found.old.items ++ jump word context ∷ []) }
{
    found.push(Occurrence {
        token: word,
        what: What::Jump {
            in_loop: context.in_loop,
        },
        means: None,
    })?;
    Ok(())
}

// Adds a statement `state NAME;`.
fn add_change(
    word: usize,
    name: usize,
    context: Context,
    found: &mut Vec<Occurrence>,
) -> Result<(), OutOfMemory>
    ensures { OnOk result (found.new.items ≡ found.old.items ++ change word name context) }
{
    found.push(Occurrence {
        token: word,
        what: What::Change {
            in_transition: context.in_transition,
        },
        means: None,
    })?;
    if context.in_transition {
        found.push(Occurrence {
            token: name,
            what: What::Target,
            means: None,
        })?;
    }
    Ok(())
}

// Adds what is found in a statement.
#[cycle(statements)]
fn add_statement<'a>(
    source: &Source<'a>,
    names: &mut Visible<'a>,
    context: Context,
    statement: &Stmt,
    found: &mut Vec<Occurrence>,
) -> Result<(), OutOfMemory>
    requires { IsSource source.now.text.now source.now.tokens.now }
    ensures found { OnOk result (found.new.items ≡ found.old.items
        ++ found_in_stmt (bytes_in source.now) statement.now names.old context) }
    ensures names { OnOk result (names.new ≡ names.old) }
{
    match statement {
        Stmt::Expr(expr) => add_expr(source, names, false, expr, plain(), found),
        Stmt::Block(members) => add_block(source, names, context, members.as_slice(), found),
        Stmt::If(arms, last) => {
            for arm in arms.as_slice() {
                add_expr(source, names, false, &arm.0, plain(), found)?;
                add_statement(source, names, context, &arm.1, found)?;
            }
            add_last(source, names, context, last, found)
        }
        Stmt::While(condition, body) => {
            add_expr(source, names, false, condition, plain(), found)?;
            add_statement(source, names, in_loop(context), body.get(), found)
        }
        Stmt::For(head, body) => {
            add_head(source, names, head.get(), found)?;
            add_statement(source, names, in_loop(context), body.get(), found)
        }
        Stmt::Break(word) | Stmt::Continue(word) => add_jump(*word, context, found),
        Stmt::Return(value) => add_optional(source, names, false, value, found),
        Stmt::State { word, name } => add_change(*word, *name, context, found),
        Stmt::Empty | Stmt::CCode(_) => Ok(()),
    }
}

// Adds what is found after the last `else` of a choice.
#[cycle(statements)]
fn add_last<'a>(
    source: &Source<'a>,
    names: &mut Visible<'a>,
    context: Context,
    last: &Option<Boxed<Stmt>>,
    found: &mut Vec<Occurrence>,
) -> Result<(), OutOfMemory>
    requires { IsSource source.now.text.now source.now.tokens.now }
    ensures found { OnOk result (found.new.items ≡ found.old.items
        ++ found_in_branches (bytes_in source.now) [] (last_of (bytes_in source.now) last.now)
        names.old context) }
    ensures names { OnOk result (names.new ≡ names.old) }
{
    match last {
        Some(last) => add_statement(source, names, context, last.get(), found),
        None => Ok(()),
    }
}

// Adds what is found in a member of a block.
#[cycle(statements)]
fn add_content<'a>(
    source: &Source<'a>,
    names: &mut Visible<'a>,
    context: Context,
    member: &Member,
    found: &mut Vec<Occurrence>,
) -> Result<(), OutOfMemory>
    requires { IsSource source.now.text.now source.now.tokens.now }
    ensures found { OnOk result (found.new.items ≡ found.old.items
        ++ (content_of (bytes_in source.now) member.now).found names.old context) }
    ensures names { OnOk result (names.new ≡ names.old) }
{
    match member {
        Member::Declaration(declaration) => {
            add_declaration(source, names, true, declaration, found)
        }
        Member::Statement(statement) => add_statement(source, names, context, statement, found),
    }
}

/// Adds what is found in a block, which is a scope.
#[cycle(statements)]
pub(crate) fn add_block<'a>(
    source: &Source<'a>,
    names: &mut Visible<'a>,
    context: Context,
    members: &[Member],
    found: &mut Vec<Occurrence>,
) -> Result<(), OutOfMemory>
    requires { IsSource source.now.text.now source.now.tokens.now }
    ensures found { OnOk result (found.new.items ≡ found.old.items
        ++ found_in_block (bytes_in source.now) members.now names.old context) }
    ensures names { OnOk result (names.new ≡ names.old) }
{
    let declared = declared_by_block(source, members)?;
    enter(source, &declared, names)?;
    for member in members {
        add_content(source, names, context, member, found)?;
    }
    names.leave(declared.len());
    Ok(())
}
