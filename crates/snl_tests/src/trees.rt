//! The trees of items: which form each has, and what hangs under what.

use crate::reading::item_of;
use snl_syntax::Binary;
use snl_syntax::tree::declaration::{Declaration, Init};
use snl_syntax::tree::expression::Expr;
use snl_syntax::tree::item::Item;
use snl_syntax::tree::state::{StateMember, Target, Transition};
use snl_syntax::tree::statement::{Member, Stmt};
use sqlite_items::Items;
use std::alloc::Global;
use std::process::Abort;
use std::test::Fail;

fn form_of(item: &Item) -> &'static str {
    match item {
        Item::Header { .. } => "header",
        Item::Definition(_) => "declaration",
        Item::Foreign(_) => "foreign",
        Item::Clause(_) => "clause",
        Item::OptionLine(_) => "option",
        Item::Entry(_) => "entry",
        Item::Exit(_) => "exit",
        Item::SsBegin { .. } => "state set",
        Item::SsEnd => "end of a state set",
        Item::StateBlock { .. } => "state",
        Item::Function(_) => "function",
        Item::StructDef { .. } => "struct",
        Item::CBlock(_) => "C code",
        Item::Empty => "empty",
    }
}

static FORMS: [(&str, &str); 17] = [
    ("program p", "header"),
    ("int x;", "declaration"),
    ("struct s x;", "declaration"),
    ("foreign x;", "foreign"),
    ("assign x;", "clause"),
    ("syncQ x 3;", "clause"),
    ("option +a;", "option"),
    ("entry { }", "entry"),
    ("exit { }", "exit"),
    ("ss a {", "state set"),
    ("}", "end of a state set"),
    ("state i { }", "state"),
    ("int f();", "function"),
    ("struct s *f() { }", "function"),
    ("struct s { };", "struct"),
    ("%{c}%", "C code"),
    (";", "empty"),
];

#[test]
fn items_have_their_form(rt: HostRuntime) -> Result<(), Fail> {
    for (text, wanted) in &FORMS {
        let form = form_of(&item_of(rt.alloc(), text.as_bytes())?);
        assert!(rt; form == *wanted, "{text} is no {wanted}");
    }
    Ok(())
}

fn declaration_of(item: &Item) -> Option<&Declaration> {
    match item {
        Item::Definition(declaration) => Some(declaration.get()),
        _ => None,
    }
}

fn init_value(init: &Init) -> Option<&Expr> {
    match init {
        Init::Value(value) => Some(value),
        Init::List(..) => None,
    }
}

// The value of the first variable that an item declares.
fn value_of(item: &Item) -> Option<&Expr> {
    let declarator = declaration_of(item)?.declarators.get(0)?;
    init_value(declarator.init.as_ref()?.get())
}

// What an expression is, with the length of its list.
fn form_of_expression(expression: &Expr) -> (&'static str, usize) {
    match expression {
        Expr::Group(_) => ("group", 1),
        Expr::Postfix(_, suffixes) => ("postfix", suffixes.len()),
        Expr::Prefixed(prefixes, _) => ("prefixed", prefixes.len()),
        Expr::Chain(_, links) => ("chain", links.len()),
        Expr::Conditional(_, arms) => ("conditional", arms.len()),
        Expr::Assigned(targets, _) => ("assigned", targets.len()),
        Expr::Sequence(_, rest) => ("sequence", rest.len()),
        _ => ("leaf", 1),
    }
}

static EXPRESSIONS: [(&str, &str, usize); 17] = [
    ("a", "leaf", 1),
    ("\"s\" \"t\"", "leaf", 1),
    ("sizeof(int)", "leaf", 1),
    ("(a + b)", "group", 1),
    ("a[1](2).b++", "postfix", 4),
    ("-a++", "prefixed", 1),
    ("- (int) sizeof a", "prefixed", 3),
    ("a - b - c", "chain", 2),
    ("a - b + c - d", "chain", 3),
    ("a - b * c", "chain", 1),
    ("a == b != c", "chain", 2),
    ("a < b == c", "chain", 1),
    ("a ? b : c ? d : e", "conditional", 2),
    ("a ? b ? c : d : e", "conditional", 1),
    ("a || b ? c : d", "conditional", 1),
    ("a = b += c ? d : e", "assigned", 2),
    ("a = (b = c)", "assigned", 1),
];

// What the value of a variable is.
fn form_in(alloc: Global, text: &str) -> Result<Option<(&'static str, usize)>, Fail> {
    let item = item_of(alloc, format!(in alloc; "int x = {text};")?.as_bytes())?;
    Ok(value_of(&item).map(form_of_expression))
}

#[test]
fn expressions_have_their_form(rt: HostRuntime) -> Result<(), Fail> {
    for (text, form, count) in &EXPRESSIONS {
        let found = form_in(rt.alloc(), text)?;
        assert!(rt;
            found == Some((*form, *count)),
            "{text} is no {form} of {count}"
        );
    }
    Ok(())
}

// The operators of each level, from the loosest on.
static LEVELS: [(&str, Binary); 10] = [
    ("||", Binary::Or),
    ("&&", Binary::And),
    ("|", Binary::BitOr),
    ("^", Binary::BitXor),
    ("&", Binary::BitAnd),
    ("!=", Binary::NotEqual),
    (">=", Binary::GreaterEqual),
    ("<<", Binary::ShiftLeft),
    ("-", Binary::Subtract),
    ("/", Binary::Divide),
];

// The only operator of a chain.
fn operator_of(chain: &Expr) -> Option<Binary> {
    match chain {
        Expr::Chain(_, links) if links.len() == 1 => Some(links.get(0)?.0),
        _ => None,
    }
}

// The only operator of a chain that is a variable's value.
fn operator_in(alloc: Global, text: &str) -> Result<Option<Binary>, Fail> {
    let item = item_of(alloc, text.as_bytes())?;
    Ok(value_of(&item).and_then(operator_of))
}

// The operator that holds the other one, where the first of two stands before the second.
fn outer_of(alloc: Global, first: &str, second: &str) -> Result<Option<Binary>, Fail> {
    let text = format!(in alloc; "int x = a {first} b {second} c;")?;
    operator_in(alloc, &text)
}

#[test]
fn a_looser_operator_holds_a_tighter_one(rt: HostRuntime) -> Result<(), Fail> {
    for i in 1..LEVELS.len() {
        let (loose, wanted) = LEVELS[i - 1];
        let (tight, _) = LEVELS[i];
        let before = outer_of(rt.alloc(), loose, tight)?;
        let after = outer_of(rt.alloc(), tight, loose)?;
        assert!(rt;
            before == Some(wanted) && after == Some(wanted),
            "at {loose} and {tight}"
        );
    }
    Ok(())
}

fn members_of(item: &Item) -> Option<&Items<StateMember>> {
    match item {
        Item::StateBlock { members, .. } => Some(members),
        _ => None,
    }
}

fn transition_in(member: &StateMember) -> Option<&Transition> {
    match member {
        StateMember::When(transition) => Some(transition),
        _ => None,
    }
}

// The transition that is the first member of a state.
fn first_transition(members: &Items<StateMember>) -> Option<&Transition> {
    transition_in(members.get(0)?)
}

// The tokens of a chain of three names, with a `-` between any two.
fn differences(condition: &Expr) -> Option<[usize; 3]> {
    let Expr::Chain(first, links) = condition else {
        return None;
    };
    match (first.get(), links.as_slice()) {
        (
            Expr::Name(a),
            [
                (Binary::Subtract, Expr::Name(b)),
                (Binary::Subtract, Expr::Name(c)),
            ],
        ) => { Some([*a, *b, *c]) }
        _ => None,
    }
}

// The name that is the only condition of an `if`, its body, and whether it has an `else`.
fn choice(statement: &Stmt) -> Option<(usize, &Stmt, bool)> {
    let Stmt::If(arms, branch) = statement else {
        return None;
    };
    match arms.as_slice() {
        [(Expr::Name(name), body)] => Some((*name, body, branch.is_some())),
        _ => None,
    }
}

// The statement that is the first member of a block.
fn statement_of(transition: &Transition) -> Option<&Stmt> {
    match transition.block.get(0)? {
        Member::Statement(statement) => Some(statement),
        Member::Declaration(_) => None,
    }
}

// The name that is the only condition of the outer `if` of a transition, whether that has an
// `else`, and the same of the inner one.
fn choices(transition: &Transition) -> Option<[(usize, bool); 2]> {
    let (name, body, has_else) = choice(statement_of(transition)?)?;
    let (inner, _body, inner_has_else) = choice(body)?;
    Some([(name, has_else), (inner, inner_has_else)])
}

fn expect_choices(rt: &impl Abort, transition: Option<&Transition>) {
    let choices = transition.and_then(choices);
    assert_eq!(rt; choices, Some([(14, false), (18, true)]));
    let target = transition.map(|one| one.target);
    assert_eq!(rt; target, Some(Target::Exit));
    let condition = transition.and_then(|one| one.condition.as_ref());
    assert_eq!(rt; condition.and_then(differences), Some([5, 7, 9]));
}

#[test]
fn an_else_belongs_to_the_nearest_if(rt: HostRuntime) -> Result<(), Fail> {
    let text = b"state i { when (a - b - c) { if (p) if (q) x = 1; else x = 2; } exit }";
    let item = item_of(rt.alloc(), text)?;
    expect_choices(&rt, members_of(&item).and_then(first_transition));
    Ok(())
}
