//! Whether a reply says what was seen.
ghost use Rattle.std.specs.Prelude.{◌≡◌, ◌↔◌, ◌<◌, IsTrue, List, map};
ghost use Rattle.std.specs.List.{flat_map};
ghost use Rattle.service_conformance.specs.Possible.{reply_in};
ghost use Rattle.service_conformance.specs.Seen.{count_words, list_words, seen_text, word_text};
ghost use Rattle.service_conformance.specs.Words.{handle_words};
ghost use Rattle.service_descriptions.specs.Replies.{id_word, text_of};

use super::line_reply::{LineReply, given};
use super::seen_reply::{ReplyWord, SeenReply};
use iox2_container::container::Attached;

/// Whether these are the ids that are printed of the items.
fn are_ids<T: Attached>(items: &[T], ids: &[u128]) -> bool
    ensures { IsTrue result
        ↔ (flat_map id_word (map T.number items.now) ≡ flat_map id_word ids.now) }
{
    let mut at = 0;
    while at < items.len() && at < ids.len() {
        let (one, other) = (items[at].key(), ids[at]);
        if one != other {
            return false;
        }
        at += 1;
    }
    items.len() == ids.len()
}

/// Whether the reply is a list of these ids.
#[tactic(auto, using(crate::proofs::Seen::ports_list))]
fn is_list(reply: &LineReply, ids: &[u128]) -> bool
    ensures { IsTrue result ↔ (text_of (reply_in reply.now) ≡ list_words ids.now) }
{
    match reply {
        LineReply::Nodes(nodes) => are_ids(nodes.as_slice(), ids),
        LineReply::Ports(ports) => are_ids(ports.as_slice(), ids),
        _ => false,
    }
}

/// Whether the reply is this count.
fn is_count(reply: &LineReply, count: usize) -> bool
    ensures { IsTrue result ↔ (text_of (reply_in reply.now) ≡ count_words count) }
{
    match reply {
        LineReply::Count(n) => *n == count,
        _ => false,
    }
}

/// Whether the reply is a handle of this slot and this ticket.
fn is_handle(reply: &LineReply, slot: usize, ticket: u64) -> bool
    ensures { IsTrue result ↔ (text_of (reply_in reply.now) ≡ handle_words slot ticket) }
{
    let Some(handle) = given(reply) else {
        return false;
    };
    handle.slot() == slot && handle.ticket() == ticket
}

/// Whether the reply is the one without numbers.
fn is_word(reply: &LineReply, word: ReplyWord) -> bool
    ensures { IsTrue result ↔ (text_of (reply_in reply.now) ≡ word_text word) }
{
    match reply {
        LineReply::Word(replied) => *replied == word,
        _ => false,
    }
}

/// Whether the reply has the words of what was seen.
pub(super) fn says(reply: &LineReply, seen: &SeenReply) -> bool
    ensures { IsTrue result ↔ (text_of (reply_in reply.now) ≡ seen_text seen.now) }
{
    match seen {
        SeenReply::Handle(slot, ticket) => is_handle(reply, *slot, *ticket),
        SeenReply::Word(word) => is_word(reply, *word),
        SeenReply::List(ids) => is_list(reply, ids.as_slice()),
        SeenReply::Count(n) => is_count(reply, *n),
    }
}
