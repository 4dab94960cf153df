//! What a listing looks for.

ghost use Rattle.std.specs.Prelude.{◌≡◌, ◌≤◌, IsUtf8, length, string_bytes};
ghost use Rattle.list_page.specs.Asks.{rule_of};
ghost use Rattle.list_page.specs.Starting.{first_key};
ghost use Rattle.list_ops.specs.Names.{front};

use list_page::PageAsk;
use seal_file::Text;

/// What a listing looks for: keys of a bucket, and what its page is to hold of them.
#[derive(Drop)]
pub struct Target {
    /// What the page is to hold.
    pub(crate) ask: PageAsk,
    /// The bucket.
    pub(crate) bucket: Text,
    /// With what the names of its keys' registers begin.
    pub(crate) begin: String,
    pub ghost begins: { string_bytes begin ≡ front bucket },
    pub ghost short: { length bucket ≤ 63 },
    pub ghost first: { ∥ IsUtf8 (first_key (rule_of ask)) ∥₁ },
}
