//! Laws of listings, as functions that are called for nothing but what they ensure.

ghost use Rattle.std.specs.Prelude.{◌≡◌, ℕ, List};
ghost use Rattle.asm_files.specs.Listings.{IsFirstBad, IsListing};

use asm_text::statement_laws;

/// A text is the listing of one image at most; a listing has no bad line, and any other text has one first bad line at most.
pub fn listing_laws()
    ensures one { (text a b : List ℕ) → IsListing text a → IsListing text b → a ≡ b }
    ensures good { (text a : List ℕ) (line : ℕ) → IsListing text a → IsFirstBad text line → ⊥ }
    ensures first { (text : List ℕ) (a b : ℕ) → IsFirstBad text a → IsFirstBad text b → a ≡ b }
{
    statement_laws();
}
