//! Laws of texts and expressions: how the grammar (`Spells`), the function that the parser computes
//! (`expr_of`), the canonical text (`canon`) and the refusals fit together.
//!
//! What is spelled within the profile is read as just that, each refusal means what it says, and no
//! spelling is shorter than the canonical one.

ghost use Rattle.std.specs.Prelude.{◌≡◌, ◌≤◌, ℕ, List, length, Ok, Err};
ghost use Rattle.sig_expr.specs.declared.error.ExprError.{ExprError};
ghost use Rattle.sig_expr.specs.declared.item.Item.{Item};
ghost use Rattle.sig_expr.specs.Canon.{canon};
ghost use Rattle.sig_expr.specs.FirstFaults.{IsFirstFault};
ghost use Rattle.sig_expr.specs.Profile.{InProfile, IsExpression};
ghost use Rattle.sig_expr.specs.Refusals.{IsFaulty, Means};
ghost use Rattle.sig_expr.specs.Spelling.{Spells};
ghost use Rattle.sig_expr.specs.Texts.{expr_of};

/// What a text of the profile spells is read.
pub fn spelled_is_read()
    ensures { (e : List Item) (t : List ℕ) → InProfile t → Spells e t → expr_of t ≡ Ok e }
{}

/// What is read of a text is spelled by it, and the text is in the profile.
pub fn read_is_spelled()
    ensures { (e : List Item) (t : List ℕ) → expr_of t ≡ Ok e → InProfile t × Spells e t }
{}

/// A text is refused for what the refusal means.
pub fn refusals_mean_so()
    ensures { (fault : ExprError) (t : List ℕ) → expr_of t ≡ Err fault → Means fault t }
{}

/// A text spells one list of items alone, in the profile or not.
pub fn text_spells_one()
    ensures { (e e' : List Item) (t : List ℕ) → Spells e t → Spells e' t → e ≡ e' }
{}

/// What is read is an expression, by its structure.
pub fn read_is_expression()
    ensures { (e : List Item) (t : List ℕ) → expr_of t ≡ Ok e → IsExpression e }
{}

/// An expression is read: of its canonical text.
pub fn expression_is_read()
    ensures { (e : List Item) → IsExpression e → expr_of (canon e) ≡ Ok e }
{}

/// What a text of the profile spells is an expression.
pub fn spelled_is_expression()
    ensures { (e : List Item) (t : List ℕ) → InProfile t → Spells e t → IsExpression e }
{}

/// The canonical text is a spelling, and no other is shorter.
pub fn canonical_is_shortest()
    ensures { (e : List Item) (t : List ℕ) → Spells e t → Spells e (canon e) × (length (canon e) ≤ length t) }
{}

/// Canonical texts of different expressions differ.
pub fn canonical_texts_differ()
    ensures { (e e' : List Item) → IsExpression e → IsExpression e' → canon e ≡ canon e' → e ≡ e' }
{}

/// The first faulty gap or bracket is answered, so a text has one first fault alone.
pub fn first_fault_is_answered()
    ensures { (fault : ExprError) (t : List ℕ) → IsFirstFault fault t → expr_of t ≡ Err fault }
{}

/// A text with a first fault is of the grammar and not in the profile.
pub fn first_fault_is_outside_profile()
    ensures { (fault : ExprError) (t : List ℕ) → IsFirstFault fault t → IsFaulty t }
{}

/// A text of the grammar that is not in the profile has a first fault.
pub fn faulty_text_has_first_fault()
    ensures { (t : List ℕ) → IsFaulty t → (fault : ExprError) × IsFirstFault fault t }
{}
