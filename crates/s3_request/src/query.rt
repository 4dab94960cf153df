//! The query of a target: names and values in their order.

ghost use Rattle.std.specs.Prelude.{◌≡◌, ◌<◌, ℕ, [], map, length, slice_index_or, IfOk, IsTrue, MatchOption, None, Some, true, false};
ghost use Rattle.std.specs.Str.{bytes_eq};
ghost use Rattle.s3_request.specs.Query.{pairs_of, value_of, has, is_unserved, asks_unserved};

use fault_base::NoMemory;
use form_urlencoded::parse;
use std::alloc::Global;
use std::marker::Model;

/// An argument: a name and its value, both decoded.
#[derive(Drop)]
pub struct Argument {
    name: String,
    value: String,
}

/// The arguments of a query. A contract sees the pairs of names and values.
#[derive(Drop)]
pub struct Query {
    arguments: Vec<Argument>,
}

impl Model for Query {
    ghost use Rattle.std.specs.Prelude.{map};
    ghost use Rattle.s3_request.specs.Query.{Pairs, seen};

    ghost Value = { Pairs };

    ghost view = { λ q. map seen q.arguments.items };
}

impl Query {
    /// The arguments of an encoded query. A `+` is a blank, an empty piece between two `&` is none, and what is no UTF-8 becomes U+FFFD.
    /// The only error is want of memory.
    pub fn read(alloc: Global, query: &[u8]) -> Result<Query, NoMemory>
        ensures { IfOk result (λ read. read ≡ pairs_of query.now) }
    {
        let mut arguments = Vec::new(alloc);
        for pair in parse(alloc, query).into_owned() {
            let (name, value) = pair?;
            arguments.push(Argument { name, value })?;
        }
        Ok(Query { arguments })
    }

    /// How many arguments there are.
    pub fn len(&self) -> usize
        ensures { result ≡ length self.now }
    {
        self.arguments.len()
    }

    /// The name of argument `i`.
    pub fn name(&self, i: usize) -> &str
        requires { i < length self.now }
        ensures { result.now ≡ (slice_index_or self.now i ([], [])).0 }
    {
        self.arguments[i].name.as_str()
    }

    /// The value of argument `i`.
    fn value(&self, i: usize) -> &str
        requires { i < length self.now }
        ensures { result.now ≡ (slice_index_or self.now i ([], [])).1 }
    {
        self.arguments[i].value.as_str()
    }

    /// The first value of a name.
    pub fn value_of(&self, name: &str) -> Option<&str>
        ensures { MatchOption result (value_of self.now name.now ≡ None) (λ value. value_of self.now name.now ≡ Some value.now) }
    {
        for i in 0..self.len() {
            if name == self.name(i) {
                return Some(self.value(i));
            }
        }
        None
    }

    /// Whether a name is present, with or without a value.
    pub fn has(&self, name: &str) -> bool
        ensures { result ≡ has self.now name.now }
    {
        self.value_of(name).is_some()
    }

    /// Whether an argument has a name of a call that isn't served.
    pub fn asks_unserved(&self) -> bool
        ensures { result ≡ asks_unserved self.now }
    {
        for i in 0..self.len() {
            if is_unserved(self.name(i)) {
                return true;
            }
        }
        false
    }
}

/// Whether a call with this name in its query isn't served.
fn is_unserved(name: &str) -> bool
    ensures { result ≡ is_unserved name.now }
{
    matches!(
        name,
        "accelerate"
            | "acl"
            | "analytics"
            | "attributes"
            | "cors"
            | "delete"
            | "encryption"
            | "intelligent-tiering"
            | "inventory"
            | "legal-hold"
            | "lifecycle"
            | "location"
            | "logging"
            | "metrics"
            | "notification"
            | "object-lock"
            | "ownershipControls"
            | "policy"
            | "policyStatus"
            | "publicAccessBlock"
            | "replication"
            | "requestPayment"
            | "restore"
            | "retention"
            | "select"
            | "tagging"
            | "torrent"
            | "website"
    )
}
