ghost use Rattle.std.specs.Prelude.{◌≡◌, ◌<◌, ◌^◌, ℕ, ℤ, pos};
ghost use Rattle.linear_forms.specs.Forms.{Alike, word_of};

/// The word of an integer is the same number modulo 2^64, and the only word that is.
pub fn one_word()
    ensures same { (z : ℤ) → Alike (pos (word_of z)) z }
    ensures only { (n : ℕ) (z : ℤ) → n < 2 ^ 64 → Alike (pos n) z → n ≡ word_of z }
{}
