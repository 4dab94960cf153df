//! What a page is to hold.

ghost use Rattle.std.specs.Prelude.{◌≡◌, IfOk, None, if◌then◌else◌, is_some};
ghost use Rattle.receipts.specs.Pages.{keys_rule, versions_rule};
ghost use Rattle.list_page.specs.Asks.{rule_of};

use call_types::VersionName;
use desk_base::{ListAsk, VersionsAsk};
use fault_base::NoMemory;
use seal_file::Text;
use std::alloc::Global;

/// What a page is to hold, of a listing of keys or of versions.
#[derive(Drop)]
pub struct PageAsk {
    /// What the keys begin with.
    pub prefix: Text,
    /// What ends a group behind the prefix; empty for none.
    pub delimiter: Text,
    /// How many rows at most.
    pub most: u16,
    /// Whether each version and marker of a key is given, in place of its current object alone.
    pub versions: bool,
    /// Keys up to this one are left out.
    pub key_after: Option<Text>,
    /// But of that key itself the versions behind this one are given.
    pub id_after: Option<VersionName>,
    /// Rows up to this name are left out.
    pub name_after: Option<Text>,
}

impl PageAsk {
    /// That of a ListObjectsV2.
    pub fn of_keys(alloc: Global, ask: &ListAsk) -> Result<PageAsk, NoMemory>
        ensures { IfOk result (λ page. rule_of page ≡ keys_rule ask.now) }
    {
        let prefix = copy_of(alloc, &ask.prefix)?;
        let delimiter = copy_of(alloc, &ask.delimiter)?;
        let key_after = start_of(alloc, ask)?;
        let name_after = copy_if_any(alloc, &ask.token)?;
        Ok(PageAsk {
            prefix,
            delimiter,
            most: ask.most,
            versions: false,
            key_after,
            id_after: None,
            name_after,
        })
    }

    /// That of a ListObjectVersions.
    pub fn of_versions(alloc: Global, ask: &VersionsAsk) -> Result<PageAsk, NoMemory>
        ensures { IfOk result (λ page. rule_of page ≡ versions_rule ask.now) }
    {
        let prefix = copy_of(alloc, &ask.prefix)?;
        let delimiter = copy_of(alloc, &ask.delimiter)?;
        let key_after = copy_if_any(alloc, &ask.key_marker)?;
        Ok(PageAsk {
            prefix,
            delimiter,
            most: ask.most,
            versions: true,
            key_after,
            id_after: ask.id_marker,
            name_after: None,
        })
    }
}

fn copy_of(alloc: Global, text: &Text) -> Result<Text, NoMemory>
    ensures { IfOk result (λ copy. copy ≡ text.now) }
{
    Text::from_slice(alloc, text.as_slice())
}

fn copy_if_any(alloc: Global, text: &Option<Text>) -> Result<Option<Text>, NoMemory>
    ensures { IfOk result (λ copy. copy ≡ text.now) }
{
    match text {
        None => Ok(None),
        Some(text) => Ok(Some(copy_of(alloc, text)?)),
    }
}

/// The key up to which keys are left out: none where a token says which rows are.
fn start_of(alloc: Global, ask: &ListAsk) -> Result<Option<Text>, NoMemory>
    ensures { IfOk result (λ start. start ≡ (if is_some ask.now.token then None else ask.now.start_after)) }
{
    match &ask.token {
        Some(_) => Ok(None),
        None => copy_if_any(alloc, &ask.start_after),
    }
}
