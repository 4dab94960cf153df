//! The groups of keys.

ghost use Rattle.std.specs.Prelude.{◌≡◌, ◌++◌, ◌<◌, MatchOption, None, Some, length, true};
ghost use Rattle.receipts.specs.Pages.{are_same, begins_with, group_of, row_name, up_to};
ghost use Rattle.list_page.specs.Asks.{rule_of};

use crate::page_ask::PageAsk;

/// A text up to the end of the first place at which a delimiter stands in it.
fn up_to<'a>(delimiter: &[u8], text: &'a [u8]) -> Option<&'a [u8]>
    requires { 0 < length delimiter.now }
    ensures { MatchOption result (up_to delimiter.now text.now ≡ None) (λ front. up_to delimiter.now text.now ≡ Some front.now) }
{
    for at in 0..text.len() {
        if text[at..].starts_with(delimiter) {
            return Some(&text[..at + delimiter.len()]);
        }
    }
    None
}

/// The part of a key's group behind the prefix.
fn tail_of<'a>(ask: &PageAsk, key: &'a [u8]) -> Option<&'a [u8]>
    ensures { MatchOption result (group_of (rule_of ask.now) key.now ≡ None)
        (λ tail. group_of (rule_of ask.now) key.now ≡ Some (ask.now.prefix ++ tail.now)) }
{
    let delimiter = ask.delimiter.as_slice();
    if delimiter.is_empty() || key.len() < ask.prefix.len() {
        return None;
    }
    up_to(delimiter, &key[ask.prefix.len()..])
}

/// Whether a text is the group of a key.
pub(crate) fn is_group(ask: &PageAsk, text: &[u8], key: &[u8]) -> bool
    ensures { result ≡ are_same (Some text.now) (group_of (rule_of ask.now) key.now) }
{
    let Some(tail) = tail_of(ask, key) else {
        return false;
    };
    let prefix = ask.prefix.as_slice();
    text.starts_with(prefix) && &text[prefix.len()..] == tail
}

/// The group of a key that begins with the prefix.
pub(crate) fn group_of<'a>(ask: &PageAsk, key: &'a [u8]) -> Option<&'a [u8]>
    requires { begins_with ask.now.prefix key.now ≡ true }
    ensures { MatchOption result (group_of (rule_of ask.now) key.now ≡ None) (λ group. group_of (rule_of ask.now) key.now ≡ Some group.now) }
{
    match tail_of(ask, key) {
        None => None,
        Some(tail) => Some(&key[..ask.prefix.len() + tail.len()]),
    }
}

/// The name of the row that a key is in, which begins with the prefix.
pub(crate) fn row_name<'a>(ask: &PageAsk, key: &'a [u8]) -> &'a [u8]
    requires { begins_with ask.now.prefix key.now ≡ true }
    ensures { result.now ≡ row_name (rule_of ask.now) key.now }
{
    match group_of(ask, key) {
        None => key,
        Some(group) => group,
    }
}
