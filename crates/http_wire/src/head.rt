//! The head of a request.

ghost use Rattle.std.specs.Prelude.{◌≡◌, ◌==◌, ◌<◌, ◌≤◌, [], length, IfOk, slice_index_or};
ghost use Rattle.httparse.specs.Spans.{IsRequestWithin};
ghost use Rattle.http_wire.specs.Parts.{parts_at};

use httparse::spans::{HeaderSpan, RequestSpans, Span};
use std::alloc::{AllocError, Global};
use std::marker::Model;

/// The head of a request: one buffer, and where its parts stand in it. A contract sees it as a record of the method,
/// the target, the minor version, and the name and the value of each header line.
#[derive(Drop)]
pub struct Head {
    bytes: Vec<u8>,
    method: Span,
    target: Span,
    minor: u8,
    lines: Vec<HeaderSpan>,
}

impl Model for Head {
    ghost use Rattle.std.specs.Prelude.{map, length, All, ◌≤◌};
    ghost use Rattle.httparse.specs.Spans.{span_bytes, header_bytes, IsWithin, IsHeaderWithin};
    ghost use Rattle.http_wire.specs.Parts.{HeadParts};

    ghost Value = { HeadParts };

    ghost view = { λ h. record {
      method = span_bytes h.bytes.items h.method;
      target = span_bytes h.bytes.items h.target;
      minor = h.minor;
      lines = map (header_bytes h.bytes.items) h.lines.items;
    } };

    ghost invariant = { λ h. IsWithin (length h.bytes.items) h.method × IsWithin (length h.bytes.items) h.target
        × (h.minor ≤ 1) × All (IsHeaderWithin (length h.bytes.items)) h.lines.items };
}

impl Head {
    /// A copy of the head that the parser found at the front of the bytes. The only error is want of memory.
    pub(crate) fn copy_of(
        alloc: Global,
        bytes: &[u8],
        spans: RequestSpans,
        headers: &[HeaderSpan],
    ) -> Result<Head, AllocError>
        requires { IsRequestWithin bytes.now headers.now spans }
        ensures { IfOk result (λ head. head ≡ parts_at bytes.now headers.now spans) }
    {
        let copy = Vec::from_slice(alloc, &bytes[..spans.len])?;
        let lines = Vec::from_slice(alloc, &headers[..spans.headers])?;
        Ok(Head {
            bytes: copy,
            method: spans.method,
            target: spans.path,
            minor: spans.version,
            lines,
        })
    }

    /// The method.
    pub fn method(&self) -> &[u8]
        ensures { result.now ≡ self.now.method }
    {
        self.method.of(&self.bytes)
    }

    /// The target.
    pub fn target(&self) -> &[u8]
        ensures { result.now ≡ self.now.target }
    {
        self.target.of(&self.bytes)
    }

    /// The minor version: 0 for HTTP/1.0, and 1 for HTTP/1.1.
    pub fn minor(&self) -> u8
        ensures same { result ≡ self.now.minor }
        ensures range { result ≤ 1 }
    {
        self.minor
    }

    /// How many header lines there are.
    pub fn len(&self) -> usize
        ensures { result ≡ length self.now.lines }
    {
        self.lines.len()
    }

    /// Whether there is no header line.
    pub fn is_empty(&self) -> bool
        ensures { result ≡ (length self.now.lines == 0) }
    {
        self.lines.is_empty()
    }

    /// The name of header line `i`, as it came.
    pub fn name(&self, i: usize) -> &[u8]
        requires { i < length self.now.lines }
        ensures { result.now ≡ (slice_index_or self.now.lines i ([], [])).0 }
    {
        let line = self.lines[i];
        line.name.of(&self.bytes)
    }

    /// The value of header line `i`, without the white space around it.
    pub fn value(&self, i: usize) -> &[u8]
        requires { i < length self.now.lines }
        ensures { result.now ≡ (slice_index_or self.now.lines i ([], [])).1 }
    {
        let line = self.lines[i];
        line.value.of(&self.bytes)
    }
}
