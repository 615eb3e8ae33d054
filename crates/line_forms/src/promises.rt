//! What holds of the definitions.

ghost use Rattle.std.specs.Prelude.{◌≡◌, true, List, [], ◌∷◌, ◌++◌, None, Some};
ghost use Rattle.line_forms.specs.declared.depths.Depths.{Depths};
ghost use Rattle.line_forms.specs.declared.read_error.ReadError.TheVariants.{TooDeep};
ghost use Rattle.line_forms.specs.DeepFront.{IsTooDeep, deep_front};
ghost use Rattle.line_forms.specs.Grammar.{Grammar, Value};
ghost use Rattle.line_forms.specs.InFront.{IsInFront, On};
ghost use Rattle.line_forms.specs.Ll1.{Begins, Finish, FirstItem, is_ll1};
ghost use Rattle.line_forms.specs.Printed.{IsWell, printed, value_kept};
ghost use Rattle.line_forms.specs.Read.{read};
ghost use Rattle.line_forms.specs.Reading.{Found, Stopped};
ghost use Rattle.syntax_tree.specs.Lexeme.{Lexeme};

/// What is read of a part of a line is spelled in front. And a well-formed part without an expression that is too deep,
/// which stands in front, is what is read, whole or with a rest after it, where its grammar needs no look back.
pub fn printed_exact()
    ensures sound { (depths : Depths) (g : Grammar) (ts : List Lexeme) → On (read depths g ts) (IsInFront depths g ts) }
    ensures found { (depths : Depths) (g : Grammar) (fs : List FirstItem) → is_ll1 g fs ≡ true → (v : Value g) → IsWell g v
        → deep_front depths g v ≡ None → (us : List Lexeme) → Begins fs us → read depths g (printed g v ++ us) ≡ Found (value_kept g v, us) }
    ensures whole { (depths : Depths) (g : Grammar) → is_ll1 g (Finish ∷ []) ≡ true → (v : Value g) → IsWell g v
        → deep_front depths g v ≡ None → read depths g (printed g v) ≡ Found (value_kept g v, []) }
{}

/// A reading that stops at an expression that is too deep has a front before it of a well-formed part, up to and with its
/// first such expression. And it stops so where such a front stands, where the grammar needs no look back. Such a front is
/// a front of the lexemes of the part.
pub fn too_deep_exact()
    ensures sound { (depths : Depths) (g : Grammar) (ts : List Lexeme) → read depths g ts ≡ Stopped TooDeep → IsTooDeep depths g ts }
    ensures found { (depths : Depths) (g : Grammar) (fs : List FirstItem) → is_ll1 g fs ≡ true → (ts : List Lexeme) → IsTooDeep depths g ts → read depths g ts ≡ Stopped TooDeep }
    ensures printed { (depths : Depths) (g : Grammar) (v : Value g) (front : List Lexeme) → deep_front depths g v ≡ Some front
        → (rest : List Lexeme) × (printed g v ≡ front ++ rest) }
{}
