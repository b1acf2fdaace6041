//! The laws of what is said. A function here does nothing: its contract is the law. Each but the
//! last says that the bytes are the text, with no space, of a value of JSON.

ghost use Rattle.std.specs.Prelude.{◌≡◌, ℕ, List, Option};
ghost use Rattle.serde_json.specs.Data.{Data};
ghost use Rattle.serde_json.specs.Written.{compact_text};
ghost use Rattle.snl_say.specs.declared.answers.ErrorCode.{ErrorCode};
ghost use Rattle.snl_place.specs.declared.places.Encoding.{Encoding};
ghost use Rattle.snl_place.specs.declared.places.Place.{Place};
ghost use Rattle.snl_say.specs.declared.severity.Severity.{Severity};
ghost use Rattle.snl_say.specs.Answered.{Answered, answered_data, answered_text};
ghost use Rattle.snl_say.specs.Answers.{error_data, error_text, hover_data, hover_text, initialize_data, initialize_text, location_data, location_text, null_data, null_text};
ghost use Rattle.snl_say.specs.Notices.{message_data, message_text};
ghost use Rattle.snl_say.specs.Publish.{Found, publish_data, publish_text};
ghost use Rattle.snl_say.specs.Symbols.{IsNested, SymbolFound, in_order, forest_of, symbols_data, symbols_text};

/// What is published: the diagnostics, the URI, and the version where there is one.
pub fn publish_is_json()
    ensures { (found : List Found) (uri : List ℕ) (version : Option ℕ)
        → compact_text (publish_data found uri version) ≡ publish_text found uri version }
{}

/// A message that is shown.
pub fn message_is_json()
    ensures { (severity : Severity) (message : List ℕ)
        → compact_text (message_data severity message) ≡ message_text severity message }
{}

/// The answer `null`.
pub fn null_is_json()
    ensures { (id : Data) → compact_text (null_data id) ≡ null_text id }
{}

/// The answer to `initialize`.
pub fn initialize_is_json()
    ensures { (id : Data) (encoding : Encoding)
        → compact_text (initialize_data id encoding) ≡ initialize_text id encoding }
{}

/// An error in place of an answer.
pub fn error_is_json()
    ensures { (id : Data) (code : ErrorCode)
        → compact_text (error_data id code) ≡ error_text id code }
{}

/// Symbols, whatever their depths are.
pub fn symbols_are_json()
    ensures { (id : Data) (symbols : List SymbolFound)
        → compact_text (symbols_data id symbols) ≡ symbols_text id symbols }
{}

/// A part of a document.
pub fn location_is_json()
    ensures { (id : Data) (uri : List ℕ) (start stop : Place)
        → compact_text (location_data id uri start stop) ≡ location_text id uri start stop }
{}

/// What is told of a part of a document.
pub fn hover_is_json()
    ensures { (id : Data) (contents : List ℕ) (start stop : Place)
        → compact_text (hover_data id contents start stop) ≡ hover_text id contents start stop }
{}

/// The answer to a request on a document, whatever its shape is.
pub fn answers_are_json()
    ensures { (id : Data) (uri : List ℕ) (answered : Answered)
        → compact_text (answered_data id uri answered) ≡ answered_text id uri answered }
{}

/// Whatever the depths of symbols are, each of them is there, in their order, and is in the last
/// one before it that is less deep.
pub fn symbols_are_nested()
    ensures kept { (symbols : List SymbolFound) → in_order (forest_of symbols) ≡ symbols }
    ensures nested { (symbols : List SymbolFound) → IsNested 0 (forest_of symbols) }
{}
