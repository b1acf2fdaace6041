//! The laws of what is heard. A function here does nothing: its contract is the law.

ghost use Rattle.std.specs.Prelude.{◌≡◌, ◌≢◌, ◌≤◌, ℕ, List, Option, Some, true, codes, IsUtf8};
ghost use Rattle.serde_json.specs.Data.{Data, Members, depth, null, object, put};
ghost use Rattle.serde_json.specs.Find.{get};
ghost use Rattle.serde_json.specs.Read.{max_depth};
ghost use Rattle.serde_json.specs.Written.{compact_text};
ghost use Rattle.snl_place.specs.declared.places.Encoding.{Encoding};
ghost use Rattle.snl_place.specs.declared.places.Place.{Place};
ghost use Rattle.snl_say.specs.declared.severity.Severity.{Severity};
ghost use Rattle.snl_say.specs.declared.answers.ErrorCode.{ErrorCode};
ghost use Rattle.snl_say.specs.Answered.{Answered, answered_data, answered_text};
ghost use Rattle.snl_say.specs.Answers.{error_data, error_text, hover_data, hover_text, initialize_data, initialize_text, location_data, location_text, null_data, null_text};
ghost use Rattle.snl_say.specs.Notices.{message_data, message_text};
ghost use Rattle.snl_say.specs.Publish.{Found, publish_data, publish_text};
ghost use Rattle.snl_say.specs.Symbols.{SymbolFound, symbols_data, symbols_text};
ghost use Rattle.snl_hear.specs.Heard.{Notification, Request, heard_in};
ghost use Rattle.snl_hear.specs.Ids.{IsSoundId, is_id};
ghost use Rattle.snl_hear.specs.Json.{json_in};
ghost use Rattle.snl_hear.specs.Notifications.{Noted};
ghost use Rattle.snl_hear.specs.Requests.{Asked};
ghost use Rattle.snl_hear.specs.Sound.{AreSoundFound, AreSoundSymbols, IsSound, IsSoundAnswer, IsSoundPlace, IsSoundVersion};
ghost use Rattle.snl_hear.specs.Spelled.{IsAsked, IsTold, notification_data, request_data};

use snl_say::{
    answers_are_json, error_is_json, hover_is_json, initialize_is_json, location_is_json,
    message_is_json, null_is_json, publish_is_json, symbols_are_json,
};

/// A request is heard as what it asks, with its id, as a client writes it.
pub fn requests_are_heard()
    ensures { (id : Data) (method : List ℕ) (params : Data) (asked : Asked)
        → is_id id ≡ true → IsAsked method params asked
        → heard_in (Some (request_data id method params)) ≡ Request id asked }
{}

/// A notification is heard as what it tells, as a client writes it.
pub fn notifications_are_heard()
    ensures { (method : List ℕ) (params : Data) (noted : Noted) → IsTold method params noted
        → heard_in (Some (notification_data method params)) ≡ Notification noted }
{}

/// Members that the protocol adds to a message say nothing here.
pub fn other_members_say_nothing()
    ensures { (key : List ℕ) (d : Data) (ms : Members)
        → key ≢ codes "method" → key ≢ codes "id" → key ≢ codes "params"
        → key ≢ codes "result" → key ≢ codes "error"
        → heard_in (Some (object (put key d ms))) ≡ heard_in (Some (object ms)) }
{}

/// The id of a request is that of its message: whoever answers with it answers that request.
pub fn ids_are_kept()
    ensures { (d id : Data) (asked : Asked) → heard_in (Some d) ≡ Request id asked
        → get (codes "id") d ≡ Some id }
{}

/// The text of a value is that value again, to whoever reads it: where its strings are UTF-8, its
/// numbers integers of 64 bits, and the names of its objects rise.
pub fn values_read_back()
    ensures { (d : Data) → IsSound d → depth d ≤ max_depth → json_in (compact_text d) ≡ Some d }
{}

/// An answer with an id that was heard is the value that it is to be, to whoever reads it: so the
/// client finds its id in it. Strings are UTF-8, and the depth of a symbol is 61 at most. `answer`
/// is of a request on a document, whatever the shape of its answer is, and the last clause of an
/// error where no id is known.
pub fn answers_read_back()
    ensures null_answer { (id : Data) → IsSoundId id
        → json_in (null_text id) ≡ Some (null_data id) }
    ensures initialize { (id : Data) (encoding : Encoding) → IsSoundId id
        → json_in (initialize_text id encoding) ≡ Some (initialize_data id encoding) }
    ensures symbols { (id : Data) (symbols : List SymbolFound) → IsSoundId id
        → AreSoundSymbols symbols
        → json_in (symbols_text id symbols) ≡ Some (symbols_data id symbols) }
    ensures location { (id : Data) (uri : List ℕ) (start stop : Place) → IsSoundId id
        → IsUtf8 uri → IsSoundPlace start → IsSoundPlace stop
        → json_in (location_text id uri start stop) ≡ Some (location_data id uri start stop) }
    ensures hover { (id : Data) (contents : List ℕ) (start stop : Place) → IsSoundId id
        → IsUtf8 contents → IsSoundPlace start → IsSoundPlace stop
        → json_in (hover_text id contents start stop) ≡ Some (hover_data id contents start stop) }
    ensures answer { (id : Data) (uri : List ℕ) (answered : Answered) → IsSoundId id
        → IsUtf8 uri → IsSoundAnswer answered
        → json_in (answered_text id uri answered) ≡ Some (answered_data id uri answered) }
    ensures error { (id : Data) (code : ErrorCode) → IsSoundId id
        → json_in (error_text id code) ≡ Some (error_data id code) }
    ensures error_alone { (code : ErrorCode)
        → json_in (error_text null code) ≡ Some (error_data null code) }
{
    null_is_json();
    initialize_is_json();
    symbols_are_json();
    location_is_json();
    hover_is_json();
    answers_are_json();
    error_is_json();
}

/// So are what is published and what is shown, where their strings are UTF-8.
pub fn notices_read_back()
    ensures publish { (found : List Found) (uri : List ℕ) (version : Option ℕ)
        → AreSoundFound found → IsUtf8 uri → IsSoundVersion version
        → json_in (publish_text found uri version) ≡ Some (publish_data found uri version) }
    ensures message { (severity : Severity) (message : List ℕ) → IsUtf8 message
        → json_in (message_text severity message) ≡ Some (message_data severity message) }
{
    publish_is_json();
    message_is_json();
}

/// What nests deeper than 127 levels is no JSON.
pub fn json_is_shallow()
    ensures { (bytes : List ℕ) (d : Data) → json_in bytes ≡ Some d → depth d ≤ max_depth }
{}
