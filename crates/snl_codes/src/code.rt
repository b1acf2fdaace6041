//! The codes of the diagnostics: this project's profile, as are the texts of their messages.
ghost use Rattle.std.specs.Prelude.{◌≡◌, codes, false, true};
ghost use Rattle.snl_codes.specs.Codes.{is_error, message_of, name_of, quoted_by, quoted_bytes, row_of};

/// What kind of finding it is: an error, with `E`, or a warning, with `W`.
#[derive(Clone, Copy, Debug, PartialEq, Eq)]
pub enum Code {
    E01,
    E02,
    E03,
    E04,
    E05,
    E06,
    E07,
    E08,
    E09,
    E10,
    E11,
    E12,
    E13,
    E14,
    E15,
    E16,
    E17,
    E18,
    E19,
    E20,
    E21,
    E22,
    W01,
    W02,
    W03,
    W04,
    W05,
}

// What a message quotes of the token that it is about.
#[derive(Clone, Copy)]
enum Quoted {
    Nothing,
    OneByte,
    Token,
}

impl Quoted {
    fn bytes(self, len: usize) -> usize
        ensures { result ≡ quoted_by self len }
    {
        match self {
            Quoted::Nothing => 0,
            Quoted::OneByte => 1,
            Quoted::Token => len,
        }
    }
}

// How a code is printed, and what its message quotes.
#[derive(Clone, Copy)]
struct CodeRow {
    name: &'static str,
    message: &'static str,
    is_error: bool,
    quoted: Quoted,
}

fn error(name: &'static str, message: &'static str, quoted: Quoted) -> CodeRow
    ensures name { result.name.now ≡ name.now }
    ensures message { result.message.now ≡ message.now }
    ensures kind { result.is_error ≡ true }
    ensures quoted { result.quoted ≡ quoted }
{
    CodeRow {
        name,
        message,
        is_error: true,
        quoted,
    }
}

fn warning(name: &'static str, message: &'static str, quoted: Quoted) -> CodeRow
    ensures name { result.name.now ≡ name.now }
    ensures message { result.message.now ≡ message.now }
    ensures kind { result.is_error ≡ false }
    ensures quoted { result.quoted ≡ quoted }
{
    CodeRow {
        name,
        message,
        is_error: false,
        quoted,
    }
}

impl Code {
    // specs/Codes.antt has the same rows, each with who finds what has the code.
    fn row(self) -> CodeRow
        ensures name { result.name.now ≡ (row_of self).name }
        ensures message { result.message.now ≡ (row_of self).message }
        ensures kind { result.is_error ≡ (row_of self).is_error }
        ensures quoted { result.quoted ≡ (row_of self).quoted }
    {
        use Quoted::{Nothing, OneByte, Token};
        match self {
            Code::E01 => error("E01", "bad piece", Nothing),
            Code::E02 => error("E02", "syntax error", Nothing),
            Code::E03 => error("E03", "item out of place", Nothing),
            Code::E04 => error("E04", "state set braces do not match", Nothing),
            Code::E05 => error("E05", "one program header is required", Nothing),
            Code::E06 => error("E06", "state set or state is missing", Nothing),
            Code::E07 => error("E07", "declared twice", Token),
            Code::E08 => error("E08", "state set named twice", Token),
            Code::E09 => error("E09", "state named twice in its state set", Token),
            Code::E10 => error("E10", "unknown state", Token),
            Code::E11 => error("E11", "clause on an undeclared variable", Token),
            Code::E12 => error("E12", "assigned twice", Token),
            Code::E13 => error("E13", "not assigned", Token),
            Code::E14 => error("E14", "not an event flag", Token),
            Code::E15 => error("E15", "type cannot be assigned", Token),
            Code::E16 => error("E16", "subscript or list does not fit the variable", Token),
            Code::E17 => error("E17", "event flag declared wrongly", Token),
            Code::E18 => error("E18", "state change outside a transition", Nothing),
            Code::E19 => error("E19", "not inside a loop", Token),
            Code::E20 => error("E20", "argument is not an event flag", Token),
            Code::E21 => error("E21", "argument is not assigned", Token),
            Code::E22 => error("E22", "synced twice", Token),
            Code::W01 => warning("W01", "undeclared name", Token),
            Code::W02 => warning("W02", "state not reachable", Token),
            Code::W03 => warning("W03", "delay outside a condition", Nothing),
            Code::W04 => warning("W04", "unknown option letter", OneByte),
            Code::W05 => warning("W05", "monitored twice", Token),
        }
    }

    /// The code as it is printed, as `E10`.
    #[tactic(auto, unfolding(crate::specs::Codes::name_of))]
    pub fn name(self) -> &'static str
        ensures { result.now ≡ name_of self }
    {
        self.row().name
    }

    /// The message as it is printed, without what it quotes.
    #[tactic(auto, unfolding(crate::specs::Codes::message_of))]
    pub fn message(self) -> &'static str
        ensures { result.now ≡ message_of self }
    {
        self.row().message
    }

    /// Whether it is an error, and no warning.
    #[tactic(auto, unfolding(crate::specs::Codes::is_error))]
    pub fn is_error(self) -> bool
        ensures { result ≡ is_error self }
    {
        self.row().is_error
    }

    /// How many bytes its message quotes, from the first byte of what it is about. `len` is the
    /// length of the token there.
    pub fn quoted_bytes(self, len: usize) -> usize
        ensures { result ≡ quoted_bytes self len }
    {
        self.row().quoted.bytes(len)
    }
}
