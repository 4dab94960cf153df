//! Texts inside a document.

ghost use Rattle.std.specs.Prelude.{◌≡◌, ◌++◌, ◌+◌, ◌-◌, ◌<◌, ◌≤◌, true, false, length, take, drop, slice_index_or, OnOk, IfOk};
ghost use Rattle.percent_encoding.specs.Percent.{percent_encode_byte};
ghost use Rattle.std.specs.Fmt.{digit_glyph};
ghost use Rattle.s3_reply.specs.Documents.{listed_name};
ghost use Rattle.s3_reply.specs.Escaping.{escaped, escaped_byte, is_kept, is_plain, url_byte, url_encoded};
ghost use Rattle.s3_reply.specs.Laws.{TextsStayInside};

use fault_base::NoMemory;

/// The law of escaped texts, for a caller's proof: none ends its element or begins another. It does nothing.
pub fn escaping_laws()
    ensures { TextsStayInside }
{}

/// Whether the byte stands for itself in a document.
fn is_plain(byte: u8) -> bool
    ensures { result ≡ is_plain byte }
{
    byte >= 32 && !(byte == b'&' || byte == b'<' || byte == b'>' || byte == b'"')
}

/// Whether the byte stays in a percent-encoded name.
fn is_kept(byte: u8) -> bool
    ensures { result ≡ is_kept byte }
{
    (byte >= b'A' && byte <= b'Z')
        || (byte >= b'a' && byte <= b'z')
        || (byte >= b'0' && byte <= b'9')
        || (byte == b'-' || byte == b'.' || byte == b'_' || byte == b'~' || byte == b'/')
}

/// Appends a text as a document has it. Bytes that stand for themselves are appended together.
pub(crate) fn push_text(out: &mut Vec<u8>, text: &[u8]) -> Result<(), NoMemory>
    ensures { OnOk result (out.new.items ≡ out.old.items ++ escaped text.now) }
{
    let mut from = 0;
    for k in 0..text.len() {
        from = push_reserved(out, text, from, k)?;
    }
    out.extend_from_slice(&text[from..])?;
    Ok(())
}

/// Appends byte `k` of a text where it doesn't stand for itself, and what is before it from `from` on. The answer is the place of the first byte that
/// is still to be appended.
fn push_reserved(out: &mut Vec<u8>, text: &[u8], from: usize, k: usize) -> Result<usize, NoMemory>
    requires order { from ≤ k }
    requires within { k < length text.now }
    ensures next { IfOk result (λ next. next ≤ k + 1) }
    ensures written { IfOk result (λ next. out.new.items ++ take (k + 1 - next) (drop next text.now)
        ≡ (out.old.items ++ take (k - from) (drop from text.now)) ++ escaped_byte (slice_index_or text.now k 0)) }
{
    let byte = text[k];
    if is_plain(byte) {
        return Ok(from);
    }
    out.extend_from_slice(&text[from..k])?;
    push_reference(out, byte)?;
    Ok(k + 1)
}

/// Appends the reference that stands for a byte.
fn push_reference(out: &mut Vec<u8>, byte: u8) -> Result<(), NoMemory>
    requires { is_plain byte ≡ false }
    ensures { OnOk result (out.new.items ≡ out.old.items ++ escaped_byte byte) }
{
    match byte {
        b'&' => out.extend_from_slice(b"&amp;")?,
        b'<' => out.extend_from_slice(b"&lt;")?,
        b'>' => out.extend_from_slice(b"&gt;")?,
        b'"' => out.extend_from_slice(b"&quot;")?,
        _ => push_control(out, byte)?,
    }
    Ok(())
}

/// Appends the reference that stands for a control byte.
fn push_control(out: &mut Vec<u8>, byte: u8) -> Result<(), NoMemory>
    requires { byte < 32 }
    ensures { OnOk result (out.new.items ≡ out.old.items ++ escaped_byte byte) }
{
    out.extend_from_slice(b"&#x")?;
    if byte >= 16 {
        out.extend_from_slice(&[b'1', digit(byte - 16), b';'])?;
    } else {
        out.extend_from_slice(&[digit(byte), b';'])?;
    }
    Ok(())
}

/// The upper-case hex digit of a number below 16.
fn digit(number: u8) -> u8
    requires { number < 16 }
    ensures { result ≡ digit_glyph true number }
{
    if number < 10 {
        b'0' + number
    } else {
        b'A' + (number - 10)
    }
}

/// Appends a percent-encoded name. Bytes that stay are appended together.
pub(crate) fn push_url(out: &mut Vec<u8>, name: &[u8]) -> Result<(), NoMemory>
    ensures { OnOk result (out.new.items ≡ out.old.items ++ url_encoded name.now) }
{
    let mut from = 0;
    for k in 0..name.len() {
        from = push_percent(out, name, from, k)?;
    }
    out.extend_from_slice(&name[from..])?;
    Ok(())
}

/// Appends byte `k` of a name where it doesn't stay, and what is before it from `from` on. The answer is the place of the first byte that is still to
/// be appended.
fn push_percent(out: &mut Vec<u8>, name: &[u8], from: usize, k: usize) -> Result<usize, NoMemory>
    requires order { from ≤ k }
    requires within { k < length name.now }
    ensures next { IfOk result (λ next. next ≤ k + 1) }
    ensures written { IfOk result (λ next. out.new.items ++ take (k + 1 - next) (drop next name.now)
        ≡ (out.old.items ++ take (k - from) (drop from name.now)) ++ url_byte (slice_index_or name.now k 0)) }
{
    let byte = name[k];
    if is_kept(byte) {
        return Ok(from);
    }
    out.extend_from_slice(&name[from..k])?;
    push_percent_byte(out, byte)?;
    Ok(k + 1)
}

/// Appends a percent sign and the two digits of a byte.
#[tactic(auto, unfolding(percent_encoding::specs::Percent::percent_encode_byte))]
fn push_percent_byte(out: &mut Vec<u8>, byte: u8) -> Result<(), NoMemory>
    ensures { OnOk result (out.new.items ≡ out.old.items ++ percent_encode_byte byte) }
{
    out.extend_from_slice(&[b'%', digit(byte / 16), digit(byte % 16)])?;
    Ok(())
}

/// Appends a name of a listing, percent-encoded where the call asks for it.
pub(crate) fn push_listed(out: &mut Vec<u8>, encoded: bool, name: &[u8]) -> Result<(), NoMemory>
    ensures { OnOk result (out.new.items ≡ out.old.items ++ escaped (listed_name encoded name.now)) }
{
    if encoded {
        push_url(out, name)
    } else {
        push_text(out, name)
    }
}
