//! Each request is answered exactly once, and a notification never.

ghost use Rattle.std.specs.Prelude.{◌≡◌, ◌∷◌, [], List, None, Some, All};
ghost use Rattle.serde_json.specs.Data.{Data};
ghost use Rattle.serde_json.specs.Written.{compact_text};
ghost use Rattle.snl_docs.specs.Served.{Served, replied};
ghost use Rattle.snl_document.specs.Says.{Says};
ghost use Rattle.snl_hear.specs.Heard.{Notification, Request};
ghost use Rattle.snl_hear.specs.Notifications.{Noted};
ghost use Rattle.snl_hear.specs.Requests.{Asked};
ghost use Rattle.snl_replies.specs.Replies.{Reply, body_of};
ghost use Rattle.snl_server_laws.specs.Answered.{answered_ids, asked_ids, data_of, id_of, replied_to_all};
ghost use Rattle.snl_turns.specs.Turns.{Turn, heard_at};

use snl_say::{
    answers_are_json, error_is_json, initialize_is_json, message_is_json, null_is_json,
    publish_is_json,
};

/// The body of each reply is the text of its value of JSON.
pub fn replies_are_json()
    ensures { (reply : Reply) → compact_text (data_of reply) ≡ body_of reply }
{
    publish_is_json();
    message_is_json();
    null_is_json();
    initialize_is_json();
    answers_are_json();
    error_is_json();
}

/// There is one reply to a request, which has the request's id. No reply to a notification has an
/// id.
pub fn requests_are_answered_once()
    ensures request { (says : Says) (s : Served) (turn : Turn) (id : Data) (asked : Asked)
        → heard_at turn ≡ Request id asked
        → (reply : Reply) × (replied says s turn ≡ reply ∷ []) × (id_of reply ≡ Some id) }
    ensures notification { (says : Says) (s : Served) (turn : Turn) (noted : Noted)
        → heard_at turn ≡ Notification noted
        → All (λ reply. id_of reply ≡ None) (replied says s turn) }
{}

/// Of all that is said in a talk, the answers are those to the requests in it, one to each and in
/// their order. What is no message is answered too, with the id `null`.
pub fn talks_are_answered()
    ensures { (says : Says) (s : Served) (turns : List Turn)
        → answered_ids (replied_to_all says s turns) ≡ asked_ids turns }
{}
