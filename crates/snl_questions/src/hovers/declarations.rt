//! The line of a declaration.
//! In: a text, its line ends, and the span of the name that is declared. Out: the line, without the
//! white space around it, cut where it is long.

ghost use Rattle.std.specs.Prelude.{◌≡◌, ◌<◌, ◌≤◌, length};
ghost use Rattle.std.specs.Fmt.{is_char_start};
ghost use Rattle.std.specs.Fmt.Cut.{floor_char_boundary};
ghost use Rattle.snl_lex.specs.LineList.{line_ends};
ghost use Rattle.snl_questions.specs.Hover.{cut, declaration_line, without_blanks};

use snl_place::line_around;
use snl_tables::Span;

/// So many bytes of a line are shown at most.
const LONGEST: usize = 200;

// Whether a character of UTF-8 begins with the byte.
fn is_char_start(byte: u8) -> bool
    ensures { result ≡ is_char_start byte }
{
    byte < 0x80 || 0xC0 <= byte
}

// The last place up to an index where a character begins.
#[tactic(auto, using(crate::proofs::Boundaries::boundary_before, crate::proofs::Boundaries::boundary_here, crate::proofs::Boundaries::boundary_zero))]
fn floor_char_boundary(bytes: &[u8], index: usize) -> usize
    requires { index < length bytes.now }
    ensures place { result ≡ floor_char_boundary bytes.now index }
    ensures before { result ≤ index }
{
    let mut place = index;
    while place > 0 && !is_char_start(bytes[place]) {
        place -= 1;
    }
    place
}

fn without_blanks(line: &[u8]) -> &[u8]
    ensures { result.now ≡ without_blanks line.now }
{
    line.trim_ascii()
}

fn cut(line: &[u8]) -> &[u8]
    ensures { result.now ≡ cut line.now }
{
    if line.len() <= LONGEST {
        return line;
    }
    &line[..floor_char_boundary(line, LONGEST)]
}

/// The line that has the name in its declaration.
#[tactic(auto, unfolding(crate::specs::Hover::declaration_line))]
pub fn declaration_line<'a>(text: &'a [u8], ends: &[usize], declared: Span) -> &'a [u8]
    requires { ends.now ≡ line_ends text.now }
    ensures { result.now ≡ declaration_line text.now declared }
{
    cut(without_blanks(line_around(text, ends, declared.start)))
}
