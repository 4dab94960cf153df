//! The laws of the field and of polynomials over it, for a caller's proof.

ghost use Rattle.std.specs.Prelude.{◌≡◌, ℕ, ◌<◌, bit_xor};
ghost use Rattle.gf256.specs.Field.{modulus, power, product, sum_of_copies};
ghost use Rattle.gf256.specs.Polynomial.{AgreeingPolynomialsAreEqual};

/// The product is the remainder of the sum of shifted copies modulo the polynomial: they differ by a multiple of it, and
/// the product is a byte. The elements with the product and exclusive or are a field. An element is its own negative, and the
/// powers of 2 are all elements but 0. It does nothing.
pub fn field_laws()
    ensures reduced { (a b : ℕ) → (q : ℕ) × (sum_of_copies a b 8 ≡ bit_xor (sum_of_copies q modulus 7) (product a b)) }
    ensures closed { (a b : ℕ) → a < 256 → b < 256 → product a b < 256 }
    ensures associative { (a b c : ℕ) → a < 256 → b < 256 → c < 256 → product (product a b) c ≡ product a (product b c) }
    ensures commutative { (a b : ℕ) → a < 256 → b < 256 → product a b ≡ product b a }
    ensures distributive { (a b c : ℕ) → product a (bit_xor b c) ≡ bit_xor (product a b) (product a c) }
    ensures one { (a : ℕ) → a < 256 → product a 1 ≡ a }
    ensures zero { (a : ℕ) → product a 0 ≡ 0 }
    ensures invertible { (a : ℕ) → 0 < a → a < 256 → (b : ℕ) × ((b < 256) × (product a b ≡ 1)) }
    ensures one_inverse { (a b c : ℕ) → a < 256 → b < 256 → c < 256 → product a b ≡ 1 → product a c ≡ 1 → b ≡ c }
    ensures generator { (a : ℕ) → 0 < a → a < 256 → (n : ℕ) × ((n < 255) × (power 2 n ≡ a)) }
    ensures sum_closed { (a b : ℕ) → a < 256 → b < 256 → bit_xor a b < 256 }
    ensures sum_associative { (a b c : ℕ) → bit_xor (bit_xor a b) c ≡ bit_xor a (bit_xor b c) }
    ensures sum_commutative { (a b : ℕ) → bit_xor a b ≡ bit_xor b a }
    ensures sum_zero { (a : ℕ) → bit_xor a 0 ≡ a }
    ensures negative { (a : ℕ) → bit_xor a a ≡ 0 }
{}

/// Two polynomials of degree below D that agree at D distinct elements are equal. It does nothing.
pub fn polynomial_laws()
    ensures { AgreeingPolynomialsAreEqual }
{}
