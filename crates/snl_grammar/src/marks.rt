//! What a token is to the cut into items: the few tokens that begin, end or nest an item.

ghost use Rattle.snl_grammar.specs.Items.{is_body, is_close, is_head, is_open, is_semicolon};
ghost use Rattle.std.specs.Prelude.{◌≡◌};

/// A token as the cut sees it.
#[derive(Clone, Copy, Debug, PartialEq, Eq)]
pub enum Mark {
    /// The word `program`.
    Program,
    /// The word `ss`.
    Ss,
    /// The words `state`, `entry` and `exit`, whose items end after a block.
    Body,
    Name,
    Text,
    CCode,
    OpenBrace,
    CloseBrace,
    OpenParen,
    CloseParen,
    Semicolon,
    Other,
}

impl Mark {
    pub(crate) fn is_body(self) -> bool
        ensures { result ≡ is_body self }
    {
        matches!(self, Mark::Body)
    }

    pub(crate) fn is_semicolon(self) -> bool
        ensures { result ≡ is_semicolon self }
    {
        matches!(self, Mark::Semicolon)
    }

    pub(crate) fn is_open(self) -> bool
        ensures { result ≡ is_open self }
    {
        matches!(self, Mark::OpenBrace)
    }

    pub(crate) fn is_close(self) -> bool
        ensures { result ≡ is_close self }
    {
        matches!(self, Mark::CloseBrace)
    }

    pub(crate) fn is_head(self) -> bool
        ensures { result ≡ is_head self }
    {
        matches!(self, Mark::Ss | Mark::Program)
    }
}
