//! Laws of the sum. The functions do nothing: each has a law as its contract.
ghost use Rattle.std.specs.Prelude.{◌≡◌, ◌++◌, ℕ, List, [], ◌∷◌, codes};
ghost use Rattle.std.specs.List.{repeat};
ghost use Rattle.sum.specs.Crc.{crc32c, register_after};

/// The sum of published examples: nine digits, and 32 bytes of 0 (RFC 3720, appendix B.4).
pub fn published_sums()
    ensures digits { crc32c (codes "123456789") ≡ 3808858755 }
    ensures zeros { crc32c (repeat 32 (0 ∷ [])) ≡ 2324772522 }
{}

/// Bytes in two pieces bring the same register as in one.
pub fn pieces_are_joined()
    ensures { (register : ℕ) (front back : List ℕ) → register_after register (front ++ back) ≡ register_after (register_after register front) back }
{}
