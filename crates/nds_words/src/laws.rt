//! Laws of words and of scripts, as functions that are called for nothing but what they ensure.

ghost use Rattle.std.specs.Prelude.{◌≡◌, ℕ, List};
ghost use Rattle.ds_base.specs.declared.keys.KeyLine.{KeyLine};
ghost use Rattle.nds_words.specs.Scripts.{IsFirstBadAt, IsScript};
ghost use Rattle.nds_words.specs.Words.{WordsAskForOne};

/// Words ask for one thing at most.
pub fn word_laws()
    ensures { WordsAskForOne }
{}

/// A text is the script of one list of lines at most; a script has no bad line, and any other text has one first bad line and one column
/// of it at most.
pub fn script_laws()
    ensures one { (text : List ℕ) (a b : List KeyLine) → IsScript text a → IsScript text b → a ≡ b }
    ensures good { (text : List ℕ) (lines : List KeyLine) (line column : ℕ) → IsScript text lines → IsFirstBadAt text line column → ⊥ }
    ensures first { (text : List ℕ) (l c m d : ℕ) → IsFirstBadAt text l c → IsFirstBadAt text m d → (l ≡ m) × (c ≡ d) }
{}
