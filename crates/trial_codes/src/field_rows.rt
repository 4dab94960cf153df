//! Rows over `gf256`.

use crate::told::{byte, digest};
use gf256::{field_laws, inv, mul, polynomial_laws, pow};
use std::alloc::Global;
use trial_base::{NoAnswer, number, said, said_bytes, said_number, word};

/// The inverses of the elements from 1 on.
fn inverses(alloc: Global) -> Result<String, NoAnswer> {
    let mut found = [0; 255];
    for element in 1..=255u8 {
        found[element as usize - 1] = inv(element);
    }
    said_bytes(alloc, "", found.as_slice())
}

/// `products`: the SHA-256 of the product of each two elements, those of 0 first.
fn products(alloc: Global) -> Result<String, NoAnswer> {
    let mut found = Vec::new(alloc);
    for a in 0..=255u8 {
        for b in 0..=255u8 {
            found.push(mul(a, b))?;
        }
    }
    digest(alloc, found.as_slice())
}

/// `powers COUNT`: the SHA-256 of the first powers of each element, so many, those of 0 first.
fn powers(alloc: Global, count: u32) -> Result<String, NoAnswer> {
    let mut found = Vec::new(alloc);
    for element in 0..=255u8 {
        for exponent in 0..count {
            found.push(pow(element, exponent))?;
        }
    }
    digest(alloc, found.as_slice())
}

/// `inv ELEMENT`
fn inverse(alloc: Global, element: u8) -> Result<String, NoAnswer> {
    if element == 0 {
        return said(alloc, "0 has no inverse");
    }
    said_number(alloc, "", u64::from(inv(element)))
}

pub fn answer(alloc: Global, row: &str) -> Result<String, NoAnswer> {
    let (a, b) = (word(row, 1), word(row, 2));
    let exponent = number(b).min(0xffff_ffff) as u32;
    match word(row, 0) {
        "mul" => said_number(alloc, "", u64::from(mul(byte(a), byte(b)))),
        "pow" => said_number(alloc, "", u64::from(pow(byte(a), exponent))),
        "inv" => inverse(alloc, byte(a)),
        "inverses" => inverses(alloc),
        "products" => products(alloc),
        "powers" => powers(alloc, number(a).min(1000) as u32),
        "laws" => {
            field_laws();
            polynomial_laws();
            said(alloc, "done")
        }
        _ => said(alloc, "no such call"),
    }
}
