//! From which key on a page looks for keys.

ghost use Rattle.std.specs.Prelude.{◌≡◌, IfOk};
ghost use Rattle.list_page.specs.Asks.{rule_of};
ghost use Rattle.list_page.specs.Starting.{first_key, start_of};

use crate::page_ask::PageAsk;
use crate::wanting::is_before;
use fault_base::NoMemory;
use seal_file::Text;
use std::alloc::Global;

/// A start that begins with the prefix, or else the prefix.
fn start_of<'a>(prefix: &'a Text, start: &'a Option<Text>) -> &'a [u8]
    ensures { result.now ≡ start_of prefix.now start.now }
{
    match start {
        None => prefix.as_slice(),
        Some(start) => {
            if start.as_slice().starts_with(prefix.as_slice()) {
                start.as_slice()
            } else {
                prefix.as_slice()
            }
        }
    }
}

/// A key before which no wanted one stands.
pub fn first_key(alloc: Global, ask: &PageAsk) -> Result<Text, NoMemory>
    ensures { IfOk result (λ key. key ≡ first_key (rule_of ask.now)) }
{
    let by_key = start_of(&ask.prefix, &ask.key_after);
    let by_name = start_of(&ask.prefix, &ask.name_after);
    if is_before(by_key, by_name) {
        Text::from_slice(alloc, by_name)
    } else {
        Text::from_slice(alloc, by_key)
    }
}
