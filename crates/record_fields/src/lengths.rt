//! Lengths of spellings, which stay at 2^64 - 1 where they would be greater.
ghost use Rattle.std.specs.Prelude.{◌≡◌, ℕ, List, [], ◌∷◌, ◌++◌};
ghost use Rattle.record_fields.specs.Codec.{capped};

/// How long one byte is.
#[tactic(auto, unfolding(crate::specs::Codec::capped))]
pub fn byte_len() -> u64
    ensures { (byte : ℕ) → result ≡ capped (byte ∷ []) }
{
    1
}

/// How long two spellings are together.
pub fn joined_len(first: u64, others: u64) -> u64
    ensures { (a b : List ℕ) → first ≡ capped a → others ≡ capped b → result ≡ capped (a ++ b) }
{
    first.saturating_add(others)
}

/// How long a byte and what follows it are.
pub fn tagged_len(others: u64) -> u64
    ensures { (byte : ℕ) (bytes : List ℕ) → others ≡ capped bytes → result ≡ capped (byte ∷ bytes) }
{
    others.saturating_add(1)
}
