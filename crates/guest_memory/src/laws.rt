ghost use Rattle.std.specs.Prelude.{◌≡◌, ◌<◌, ℕ, List, All, length, true};
ghost use Rattle.rv64_decode.specs.Area.{Area, fetch_of, writable_of};
ghost use Rattle.rv64_decode.specs.Ask.{Ask, after};
ghost use Rattle.rv64_decode.specs.Range.{AreBytes};
ghost use Rattle.guest_memory.specs.Layout.{AreasLieFrom, KeepAreas};
ghost use Rattle.guest_memory.specs.Spans.{all_permitted, with_bytes_at};
ghost use Rattle.guest_memory.specs.WholeAreas.{LoadedLaw, WholeLaw, AlignedLaw};

/// Whatever is written to a memory where it may be, its areas and their permissions stay, and the
/// bytes of areas that may not be written, as those of code.
pub fn areas_stay()
    ensures access { (m : List Area) (ask : Ask) → AreasLieFrom 0 m → KeepAreas m (after m ask) }
    ensures buffer { (m : List Area) (addr : ℕ) (bytes : List ℕ)
        → all_permitted writable_of (length bytes) m addr ≡ true → KeepAreas m (with_bytes_at m addr bytes) }
    ensures bytes { (m : List Area) (addr : ℕ) (bytes : List ℕ) → AreBytes m → All (λ b. b < 256) bytes
        → AreBytes (with_bytes_at m addr bytes) }
    ensures same { (m : List Area) → KeepAreas m m }
    ensures again { (m n o : List Area) → KeepAreas m n → KeepAreas n o → KeepAreas m o }
    ensures lie { (m n : List Area) → AreasLieFrom 0 m → KeepAreas m n → AreasLieFrom 0 n }
    ensures code { (m n : List Area) (addr : ℕ) → AreasLieFrom 0 m → KeepAreas m n
        → fetch_of n addr ≡ fetch_of m addr }
{}

/// The areas that an executable starts with, and all that lie as they do, begin and end at multiples of 8. So the area
/// in which an aligned access begins has all of its bytes.
pub fn areas_are_whole()
    ensures loaded { LoadedLaw }
    ensures whole { WholeLaw }
    ensures aligned { AlignedLaw }
{}
