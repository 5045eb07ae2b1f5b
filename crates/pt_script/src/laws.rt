// What holds of the language.
ghost use Rattle.std.specs.Prelude.{◌≡◌, ◌≢◌, ℕ, List, IsTrue};
ghost use Rattle.pt_script.specs.declared.line.Line.{Line};
ghost use Rattle.pt_script.specs.declared.error.Reason.{Reason};
ghost use Rattle.pt_script.specs.Text.{script_text, all_stated, IsBadAt};
ghost use Rattle.pt_script.specs.Numbered.{is_lawful};
ghost use Rattle.pt_script.specs.First.{IsFirst};

use pt_stream::one_number;

/// No two lists of lines have one text, where a text can state their numbers.
pub fn one_text()
    ensures { (ls ms : List Line) → IsTrue (all_stated ls) → IsTrue (all_stated ms) →
        script_text ls ≡ script_text ms → ls ≡ ms }
{
    one_number();
}

/// A text that is bad at a line is that of no script.
pub fn bad_is_no_script()
    ensures { (text : List ℕ) (number : ℕ) (reason : Reason) → IsBadAt text number reason →
        (ls : List Line) → IsTrue (is_lawful ls) → text ≢ script_text ls }
{
    one_number();
}

/// A text is bad at one line at most, and for one reason.
pub fn one_refusal()
    ensures { (text : List ℕ) (i j : ℕ) (r s : Reason) → IsBadAt text i r → IsBadAt text j s → (i ≡ j) × (r ≡ s) }
{
    one_number();
}

/// The line at which a text is bad is the first that no script has after the lines before it.
pub fn bad_line_is_first()
    ensures { (text : List ℕ) (number : ℕ) (reason : Reason) (b : IsBadAt text number reason) → IsFirst text number reason b }
{
    one_number();
}
