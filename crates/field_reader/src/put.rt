//! Appending fields to a buffer. A call that lacks memory appends nothing, but for a part of a short text.

ghost use Rattle.std.specs.Prelude.{◌≡◌, ◌≤◌, ◌++◌, length, is_ok, take, OnOk, OnErr, if◌then◌else◌};
ghost use Rattle.std.specs.Int.{w8, w16, w32, w64};
ghost use Rattle.field_reader.specs.Spelling.{number_bytes, short_text_bytes};

use std::alloc::AllocError;

/// Appends bytes.
pub fn put_bytes(out: &mut Vec<u8>, bytes: &[u8]) -> Result<(), AllocError>
    ensures { out.new.items ≡ (if is_ok result then out.old.items ++ bytes.now else out.old.items) }
{
    out.extend_from_slice(bytes)
}

/// Appends a number of one byte.
#[tactic(auto, unfolding(crate::specs::Spelling::number_bytes))]
pub fn put_u8(out: &mut Vec<u8>, number: u8) -> Result<(), AllocError>
    ensures { out.new.items ≡ (if is_ok result then out.old.items ++ number_bytes w8 number else out.old.items) }
{
    out.extend_from_slice(&[number])
}

/// Appends a number of two bytes, the high one first.
#[tactic(auto, unfolding(crate::specs::Spelling::number_bytes))]
pub fn put_u16(out: &mut Vec<u8>, number: u16) -> Result<(), AllocError>
    ensures { out.new.items ≡ (if is_ok result then out.old.items ++ number_bytes w16 number else out.old.items) }
{
    out.extend_from_slice(&number.to_be_bytes())
}

/// Appends a number of four bytes, the highest first.
#[tactic(auto, unfolding(crate::specs::Spelling::number_bytes))]
pub fn put_u32(out: &mut Vec<u8>, number: u32) -> Result<(), AllocError>
    ensures { out.new.items ≡ (if is_ok result then out.old.items ++ number_bytes w32 number else out.old.items) }
{
    out.extend_from_slice(&number.to_be_bytes())
}

/// Appends a number of eight bytes, the highest first.
#[tactic(auto, unfolding(crate::specs::Spelling::number_bytes))]
pub fn put_u64(out: &mut Vec<u8>, number: u64) -> Result<(), AllocError>
    ensures { out.new.items ≡ (if is_ok result then out.old.items ++ number_bytes w64 number else out.old.items) }
{
    out.extend_from_slice(&number.to_be_bytes())
}

/// Appends a short text: its length as one byte, and its bytes. After an error the length may stand there alone.
pub fn put_short_text(out: &mut Vec<u8>, text: &[u8]) -> Result<(), AllocError>
    requires { length text.now ≤ 255 }
    ensures put { OnOk result (out.new.items ≡ out.old.items ++ short_text_bytes text.now) }
    ensures err { OnErr result (take (length out.old.items) out.new.items ≡ out.old.items) }
{
    put_u8(out, text.len() as u8)?;
    put_bytes(out, text)
}
