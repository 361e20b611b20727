//! Replies that were seen, by what their words say.
ghost use Rattle.std.specs.Prelude.{◌≡◌, ◌≢◌, ◌<◌, ◌^◌, ℕ, List, All, IfNone, IfOk, IfSome, IsTrue, true};
ghost use Rattle.service_conformance.specs.Seen.{IsSeen, IsToLine, changes_nothing, count_words};
ghost use Rattle.service_conformance.specs.Seen.{list_words, seen_text, word_text};
ghost use Rattle.service_conformance.specs.Words.{handle_words};
ghost use Rattle.service_descriptions.specs.declared.replay.machine.reply.Reply.{Reply as OneReply};
ghost use Rattle.service_descriptions.specs.Lines.{IsId};
ghost use Rattle.service_descriptions.specs.Replies.{text_of};

use super::id_word::PrintedId;
use line_streams::{After, LineEnd, Number, Phrase, Then, after_word, list_before};
use service_descriptions::replay::Reply;
use std::alloc::{AllocError, Global};

/// A reply without numbers.
#[derive(Clone, Copy, Debug, PartialEq, Eq)]
pub enum ReplyWord {
    /// As `Reply::Locked`.
    Locked,
    /// As `Reply::Full`.
    Full,
    /// As `Reply::NotRegistered`.
    NotRegistered,
    /// As `Reply::HasOwners`.
    HasOwners,
    /// As `Reply::NoMoreOwners`.
    NoMoreOwners,
    /// As `Reply::PortsAttached`.
    PortsAttached,
    /// As `Reply::Released`.
    Released,
    /// As `Reply::NotOwned`.
    NotOwned,
    /// As `Reply::NoHandle`.
    NoHandle,
    /// As `Reply::WrongPattern`.
    WrongPattern,
}

/// What the words of a reply to a command that has a line say.
#[derive(Debug, Drop)]
pub enum SeenReply {
    /// The slot and the ticket of a handle.
    Handle(usize, u64),
    /// A reply without numbers.
    Word(ReplyWord),
    /// The ids of nodes, or of ports.
    List(Vec<u128>),
    /// How many ports there are.
    Count(usize),
}

/// Whether a reply that says so says that nothing changed.
pub(super) fn changes_nothing(seen: &SeenReply) -> bool
    ensures { result ≡ changes_nothing seen.now }
{
    match seen {
        SeenReply::Handle(_, _) => false,
        SeenReply::Word(ReplyWord::HasOwners) => false,
        SeenReply::Word(ReplyWord::NoMoreOwners) => false,
        SeenReply::Word(ReplyWord::Released) => false,
        SeenReply::Word(_) => true,
        SeenReply::List(_) => true,
        SeenReply::Count(_) => true,
    }
}

/// A number.
const NUMBER: Number = Number(u64::MAX);

/// The slot and the ticket of the handle in the words.
#[tactic(auto, using(crate::proofs::Words::unread))]
#[inline(always)]
fn slot_and_ticket(words: &[u8]) -> Option<(usize, u64)>
    ensures some { IfSome result (λ h. handle_words h.0 h.1 ≡ words.now) }
    ensures words { IfSome result (λ h. (h.0 < 2 ^ 64) × (h.1 < 2 ^ 64)) }
    ensures none { IfNone result ((slot ticket : ℕ) → slot < 2 ^ 64 → ticket < 2 ^ 64
        → handle_words slot ticket ≢ words.now) }
{
    let ticket = After(b" ", Then(NUMBER, LineEnd::Bytes));
    let Some(((slot, (ticket, ())), _)) = After(b"handle ", Then(NUMBER, ticket)).read(words) else {
        return None;
    };
    Some((slot as usize, ticket))
}

/// Whether the words are this one, which is compared in place.
#[inline(always)]
fn is_word(words: &[u8], word: &[u8]) -> bool
    ensures yes { IsTrue result → word.now ≡ words.now }
    ensures no { word.now ≡ words.now → IsTrue result }
{
    match after_word(words, word) {
        Some(rest) => rest.is_empty(),
        None => false,
    }
}

/// The reply without numbers that the words are. Those of removals come first, since logs have most
/// of these.
fn word_in(words: &[u8]) -> Option<ReplyWord>
    ensures some { IfSome result (λ w. word_text w ≡ words.now) }
    ensures none { IfNone result ((w : ReplyWord) → word_text w ≢ words.now) }
{
    if is_word(words, b"has-owners") {
        return Some(ReplyWord::HasOwners);
    }
    if is_word(words, b"released") {
        return Some(ReplyWord::Released);
    }
    if is_word(words, b"locked") {
        return Some(ReplyWord::Locked);
    }
    if is_word(words, b"full") {
        return Some(ReplyWord::Full);
    }
    if is_word(words, b"not-registered") {
        return Some(ReplyWord::NotRegistered);
    }
    if is_word(words, b"no-owners") {
        return Some(ReplyWord::NoMoreOwners);
    }
    if is_word(words, b"ports-attached") {
        return Some(ReplyWord::PortsAttached);
    }
    if is_word(words, b"not-owned") {
        return Some(ReplyWord::NotOwned);
    }
    if is_word(words, b"no-handle") {
        return Some(ReplyWord::NoHandle);
    }
    if is_word(words, b"wrong-pattern") {
        return Some(ReplyWord::WrongPattern);
    }
    None
}

/// The count in the words.
#[tactic(auto, using(crate::proofs::Seen::uncounted))]
fn count_in(words: &[u8]) -> Option<usize>
    ensures some { IfSome result (λ n. (count_words n ≡ words.now) × (n < 2 ^ 64)) }
    ensures none { IfNone result ((n : ℕ) → n < 2 ^ 64 → count_words n ≢ words.now) }
{
    let Some(((n, ()), _)) = After(b"count ", Then(NUMBER, LineEnd::Bytes)).read(words) else {
        return None;
    };
    Some(n as usize)
}

/// The ids in the words of a list.
fn ids_in(alloc: Global, words: &[u8]) -> Result<Option<Vec<u128>>, AllocError>
    ensures some { IfOk result (λ found. IfSome found (λ ids.
        (list_words ids.items ≡ words.now) × All IsId ids.items)) }
    ensures none { IfOk result (λ found. IfNone found
        ((ids : List ℕ) → All IsId ids → list_words ids ≢ words.now)) }
{
    let Some(rest) = after_word(words, b"list") else {
        return Ok(None);
    };
    let Some((ids, rest)) = list_before(alloc, rest, b" ", b' ', &PrintedId)? else {
        return Ok(None);
    };
    if !rest.is_empty() {
        return Ok(None);
    }
    Ok(Some(ids))
}

/// What the words of a reply to a command that has a line say, or `None` where they are the words
/// of no such reply.
#[tactic(auto, using(crate::proofs::Seen::none_replied))]
#[inline(always)]
pub fn read_reply(alloc: Global, words: &[u8]) -> Result<Option<SeenReply>, AllocError>
    ensures some { IfOk result (λ found. IfSome found
        (λ r. (seen_text r ≡ words.now) × IsSeen r)) }
    ensures none { IfOk result (λ found. IfNone found
        ((r : SeenReply) → IsSeen r → seen_text r ≢ words.now)) }
    ensures no_reply { IfOk result (λ found. IfNone found
        ((r : OneReply) → IsToLine r → text_of r ≢ words.now)) }
{
    if let Some((slot, ticket)) = slot_and_ticket(words) {
        return Ok(Some(SeenReply::Handle(slot, ticket)));
    }
    if let Some(word) = word_in(words) {
        return Ok(Some(SeenReply::Word(word)));
    }
    if let Some(n) = count_in(words) {
        return Ok(Some(SeenReply::Count(n)));
    }
    let Some(ids) = ids_in(alloc, words)? else {
        return Ok(None);
    };
    Ok(Some(SeenReply::List(ids)))
}
