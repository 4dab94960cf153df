//! Sealing a body, and opening a sealed file.

ghost use Rattle.std.specs.Prelude.{◌≡◌, ℕ, List, IfOk, IsOkAnd};
ghost use Rattle.seal_file.specs.Sealing.{sealed, IsDamage, Unseals, SealedIsInjective};
ghost use Rattle.seal_file.specs.declared.damage.Damage.{Damage};

use crate::damage::Damage;
use fault_base::NoMemory;
use sha2::{Digest, Sha256};
use std::alloc::Global;

/// The file of a kind and a body: both, and the SHA-256 of both together. It allocates once, and want of
/// memory is its only error.
pub fn seal(alloc: Global, kind: [u8; 4], body: &[u8]) -> Result<Vec<u8>, NoMemory>
    ensures { IfOk result (λ file. file.items ≡ sealed kind body.now) }
{
    let mut file = Vec::with_capacity(alloc, body.len() + 36)?;
    file.extend_from_slice(&kind)?;
    file.extend_from_slice(body)?;
    let digest = Sha256::digest(file.as_slice());
    file.extend_from_slice(&digest)?;
    Ok(file)
}

/// The body of a file of this kind, or the first damage of bytes that are none: too few bytes, then a
/// wrong digest, then another kind. It allocates nothing.
pub fn unseal(kind: [u8; 4], bytes: &[u8]) -> Result<&[u8], Damage>
    ensures outcome { Unseals kind bytes.now result }
    ensures opens { (body : List ℕ) → bytes.now ≡ sealed kind body → IsOkAnd result (λ found. found.now ≡ body) }
    ensures damaged { (damage : Damage) → IsDamage kind bytes.now damage → result ≡ Err damage }
{
    let short = Damage::Short(bytes.len() as u64);
    let Some((content, stored)) = bytes.split_last_chunk::<32>() else {
        return Err(short);
    };
    let Some((found, body)) = content.split_first_chunk::<4>() else {
        return Err(short);
    };
    let computed = Sha256::digest(content);
    if *stored != computed {
        return Err(Damage::Digest {
            stored: *stored,
            computed,
        });
    }
    if *found != kind {
        return Err(Damage::Kind(*found));
    }
    Ok(body)
}

/// The law of sealed files, for a caller's proof: a file has one body. It does nothing.
pub fn sealing_laws()
    ensures { SealedIsInjective }
{}
