//! What stands before a root's content: the declaration and the root's start tag.

ghost use Rattle.std.specs.Prelude.{◌≡◌, ◌≤◌, length, IfOk, IfErr};
ghost use Rattle.s3_docs.specs.Machine.{Start, Opened, Declaration, Mark, Before, Rooted, Spaced, Quote, Quoted, root_name, within, due};
ghost use Rattle.s3_docs.specs.declared.prologue.Root.{Root};
ghost use Rattle.s3_docs.specs.Reads.{Reads, Stops};

use crate::pieces::{expect, is_blank, open_tag, skip_blanks};

/// The documents that are read, by the names of their roots.
#[derive(Clone, Copy)]
pub enum Root {
    /// The body of CompleteMultipartUpload.
    CompleteMultipartUpload,
    /// The body of PutBucketVersioning.
    VersioningConfiguration,
}

/// The name of a root.
fn root_name(root: Root) -> &'static [u8]
    ensures { result.now ≡ root_name root }
{
    match root {
        Root::CompleteMultipartUpload => b"CompleteMultipartUpload",
        Root::VersioningConfiguration => b"VersioningConfiguration",
    }
}

/// The bytes behind the first `?>`.
fn declaration(text: &[u8]) -> Result<&[u8], usize>
    ensures reads { IfOk result (λ rest. (root : Root) → Reads (Declaration root) text.now (Before root) rest.now) }
    ensures stops { IfErr result (λ left. (root : Root) → Stops (Declaration root) text.now left) }
{
    let mut rest = text;
    let mut marked = false;
    while let [byte, after @ ..] = rest {
        if marked && *byte == b'>' {
            return Ok(after);
        }
        marked = *byte == b'?';
        rest = after;
    }
    Err(0)
}

/// The bytes behind the closing quote of a root's attribute and its `>`.
fn quoted(text: &[u8], quote: u8) -> Result<&[u8], usize>
    ensures reads { IfOk result (λ rest. (root : Root) → Reads (Quoted root quote) text.now (within root) rest.now) }
    ensures stops { IfErr result (λ left. (root : Root) → Stops (Quoted root quote) text.now left) }
{
    let mut rest = text;
    while let [byte, after @ ..] = rest {
        if *byte == quote {
            return expect(after, b">");
        }
        rest = after;
    }
    Err(0)
}

/// The bytes behind a quoted value and `>`.
fn quote(text: &[u8]) -> Result<&[u8], usize>
    ensures reads { IfOk result (λ rest. (root : Root) → Reads (Quote root) text.now (within root) rest.now) }
    ensures stops { IfErr result (λ left. (root : Root) → Stops (Quote root) text.now left) }
{
    match text {
        [b'"', rest @ ..] => quoted(rest, b'"'),
        [b'\'', rest @ ..] => quoted(rest, b'\''),
        _ => Err(text.len()),
    }
}

/// The bytes behind white space, `xmlns` with its value, and `>`.
fn spaced(text: &[u8]) -> Result<&[u8], usize>
    ensures reads { IfOk result (λ rest. (root : Root) → Reads (Spaced root) text.now (within root) rest.now) }
    ensures stops { IfErr result (λ left. (root : Root) → Stops (Spaced root) text.now left) }
{
    let rest = skip_blanks(text);
    match rest {
        [b'x', after @ ..] => {
            let value = expect(after, b"mlns=")?;
            quote(value)
        }
        _ => Err(rest.len()),
    }
}

/// The bytes behind the rest of a root's start tag, from the end of its name on.
fn rooted(text: &[u8]) -> Result<&[u8], usize>
    ensures reads { IfOk result (λ rest. (root : Root) → Reads (Rooted root) text.now (within root) rest.now) }
    ensures stops { IfErr result (λ left. (root : Root) → Stops (Rooted root) text.now left) }
{
    match text {
        [b'>', rest @ ..] => Ok(rest),
        [byte, rest @ ..] if is_blank(*byte) => spaced(rest),
        _ => Err(text.len()),
    }
}

/// The bytes behind the root's start tag, from its name on.
fn named(text: &[u8], root: Root) -> Result<&[u8], usize>
    ensures reads { IfOk result (λ rest. Reads (due (root_name root) (Rooted root)) text.now (within root) rest.now) }
    ensures stops { IfErr result (λ left. Stops (due (root_name root) (Rooted root)) text.now left) }
{
    let rest = expect(text, root_name(root))?;
    rooted(rest)
}

/// The bytes behind white space and the root's start tag.
fn before(text: &[u8], root: Root) -> Result<&[u8], usize>
    ensures reads { IfOk result (λ rest. Reads (Before root) text.now (within root) rest.now) }
    ensures stops { IfErr result (λ left. Stops (Before root) text.now left) }
{
    let rest = open_tag(text)?;
    named(rest, root)
}

/// The bytes behind the root's start tag, from behind the first `<` on.
fn opened(text: &[u8], root: Root) -> Result<&[u8], usize>
    ensures reads { IfOk result (λ rest. Reads (Opened root) text.now (within root) rest.now) }
    ensures stops { IfErr result (λ left. Stops (Opened root) text.now left) }
{
    match text {
        [b'?', after @ ..] => {
            let inside = expect(after, b"xml")?;
            let behind = declaration(inside)?;
            before(behind, root)
        }
        _ => named(text, root),
    }
}

/// The bytes behind the root's start tag, from the first byte of the document on.
pub fn start(text: &[u8], root: Root) -> Result<&[u8], usize>
    ensures reads { IfOk result (λ rest. Reads (Start root) text.now (within root) rest.now) }
    ensures stops { IfErr result (λ left. Stops (Start root) text.now left) }
{
    match text {
        [b'<', rest @ ..] => opened(rest, root),
        _ => before(text, root),
    }
}
