//! Pages in words.

use call_types::{Etag, PageCut, PageRow, Reply, VersionName, VersionRow};
use seal_file::Text;
use std::alloc::Global;
use trial_base::{NoAnswer, said, said_bytes};

/// A text in quotes, or in hex digits where it isn't UTF-8.
pub fn told_text(alloc: Global, text: &Text) -> Result<String, NoAnswer> {
    match str::from_utf8(text.as_slice()) {
        Ok(text) => Ok(format!(in alloc; "'{text}'")?),
        Err(_) => said_bytes(alloc, "", text.as_slice()),
    }
}

/// The name of a version: `null`, or the sequence number of its id.
fn told_name(alloc: Global, name: &VersionName) -> Result<String, NoAnswer> {
    match name {
        VersionName::Null => said(alloc, "null"),
        VersionName::Id(id) => Ok(format!(in alloc; "{}", id.change.0.seq)?),
    }
}

/// An entity tag behind a blank, or nothing where it is of zeros and of no parts.
fn told_etag(alloc: Global, etag: &Etag) -> Result<String, NoAnswer> {
    if etag.md5 == [0; 16] && etag.parts == 0 {
        return said(alloc, "");
    }
    let digits = said_bytes(alloc, " ", etag.md5.as_slice())?;
    Ok(format!(in alloc; "{digits}-{}", etag.parts)?)
}

/// A group, whose keys begin with this text.
fn told_group(alloc: Global, group: &Text) -> Result<String, NoAnswer> {
    let group = told_text(alloc, group)?;
    Ok(format!(in alloc; "group {group}")?)
}

/// `object KEY SECOND LENGTH ETAG` or `group PREFIX`
fn told_key(alloc: Global, row: &PageRow) -> Result<String, NoAnswer> {
    match row {
        PageRow::Group(group) => told_group(alloc, group),
        PageRow::Object {
            key,
            modified,
            length,
            etag,
        } => {
            let key = told_text(alloc, key)?;
            let etag = told_etag(alloc, etag)?;
            Ok(format!(in alloc; "object {key} {modified} {length}{etag}")?)
        }
    }
}

/// `NAME AGE` of a version.
fn told_age(alloc: Global, id: &VersionName, latest: bool) -> Result<String, NoAnswer> {
    let id = told_name(alloc, id)?;
    let age = if latest { "latest" } else { "older" };
    Ok(format!(in alloc; "{id} {age}")?)
}

/// `object KEY SECOND NAME AGE LENGTH ETAG`, `marker KEY SECOND NAME AGE`, or `group PREFIX`
fn told_version(alloc: Global, row: &VersionRow) -> Result<String, NoAnswer> {
    match row {
        VersionRow::Group(group) => told_group(alloc, group),
        VersionRow::Marker {
            key,
            id,
            latest,
            modified,
        } => {
            let key = told_text(alloc, key)?;
            let age = told_age(alloc, id, *latest)?;
            Ok(format!(in alloc; "marker {key} {modified} {age}")?)
        }
        VersionRow::Object {
            key,
            id,
            latest,
            modified,
            length,
            etag,
        } => {
            let key = told_text(alloc, key)?;
            let age = told_age(alloc, id, *latest)?;
            let etag = told_etag(alloc, etag)?;
            Ok(format!(in alloc; "object {key} {modified} {age} {length}{etag}")?)
        }
    }
}

/// Where a page ends: `whole`, or `cut`; and the name and the version of its last row, where these are told.
fn told_cut(alloc: Global, cut: &PageCut) -> Result<String, NoAnswer> {
    let mut out = said(alloc, if cut.truncated { "cut" } else { "whole" })?;
    if let Some(next) = &cut.next {
        let next = told_text(alloc, next)?;
        write!(out, " at {next}")?;
    }
    if let Some(id) = &cut.next_id {
        let id = told_name(alloc, id)?;
        write!(out, " {id}")?;
    }
    Ok(out)
}

/// A page: where it ends, and behind each ` ; ` a row.
pub fn told_page(alloc: Global, page: &Reply) -> Result<String, NoAnswer> {
    match page {
        Reply::Page(rows, cut) => {
            let mut out = told_cut(alloc, cut)?;
            for row in rows.as_slice() {
                let row = told_key(alloc, row)?;
                write!(out, " ; {row}")?;
            }
            Ok(out)
        }
        Reply::Versions(rows, cut) => {
            let mut out = told_cut(alloc, cut)?;
            for row in rows.as_slice() {
                let row = told_version(alloc, row)?;
                write!(out, " ; {row}")?;
            }
            Ok(out)
        }
        _ => said(alloc, "no page"),
    }
}
