//! What is written is read back, as a law.
ghost use Rattle.std.specs.Prelude.{ℕ, List, ◌++◌};
ghost use Rattle.df_format.specs.Grammar.{Stands};
ghost use Rattle.df_frozen.specs.Plain.{Plain};
ghost use Rattle.df_label.specs.declared.label.Label.{Label};
ghost use Rattle.df_label.specs.declared.privilege.Privilege.{Privilege};
ghost use Rattle.df_value_text.specs.Fits.{IsLabel, IsPrivilege, IsTag, IsValue};
ghost use Rattle.df_value_text.specs.Label.{label_text, privilege_text, tag_text};
ghost use Rattle.df_value_text.specs.Value.{value_text};
ghost use Rattle.df_value_text.specs.code.WordEnd.{EndsWord};

/// A literal that was printed is parsed back, where nothing, a space or a line feed follows it: by
/// this law, and the clause `only` of each reader, which gives the place behind it too.
#[tactic(auto, using(crate::proofs::WordEnds::tag_stands, crate::proofs::WordEnds::label_stands, crate::proofs::WordEnds::privilege_stands, crate::proofs::WordEnds::value_stands))]
pub fn what_is_written_stands()
    ensures tag { (tag rest : List ℕ) → IsTag tag → EndsWord rest →
        Stands tag_text IsTag (tag_text tag ++ rest) tag rest }
    ensures label { (label : Label) (rest : List ℕ) → IsLabel label → EndsWord rest →
        Stands label_text IsLabel (label_text label ++ rest) label rest }
    ensures privilege { (privilege : Privilege) (rest : List ℕ) → IsPrivilege privilege →
        EndsWord rest →
        Stands privilege_text IsPrivilege (privilege_text privilege ++ rest) privilege rest }
    ensures value { (value : Plain) (rest : List ℕ) → IsValue value → EndsWord rest →
        Stands value_text IsValue (value_text value ++ rest) value rest }
{}
