//! Hiding and overloading, a region at a time.

ghost use Rattle.std.specs.Prelude.{◌≡◌, ◌++◌, ◌∷◌, ◌⊎◌, [], ℕ, List, true, length, filter};
ghost use Rattle.std.specs.List.{list_all};
ghost use Rattle.vhdl_units.specs.declared.entry.Entry.{Entry};
ghost use Rattle.vhdl_units.specs.Entries.{is_literal};
ghost use Rattle.vhdl_names_overloads.specs.Literals.{first_other};
ghost use Rattle.vhdl_names_scope.specs.Declarations.{Named, own};
ghost use Rattle.vhdl_names_scope.specs.Hiding.{seen};
ghost use Rattle.vhdl_names_scope.specs.Nesting.{Nested, meanings};

/// What hiding and overloading come to: a name denotes one thing, or literals alone; a declaration that is
/// no literal hides all that the name denotes around its region; literals hide no literal; a region that
/// doesn't declare a name changes nothing.
pub fn overloading()
    ensures alone { (n : Nested) (name : List ℕ) → (list_all is_literal (meanings n name) ≡ true) ⊎ (length (meanings n name) ≡ 1) }
    ensures hidden { (name : List ℕ) (region : List Named) (around : List (List Named)) (e : Entry) →
        first_other (own name region) ≡ Some e → seen name (region ∷ around) [] ≡ e ∷ [] }
    ensures literals { (name : List ℕ) (region : List Named) (around : List (List Named)) →
        first_other (own name region) ≡ None →
        filter is_literal (seen name (region ∷ around) []) ≡ own name region ++ filter is_literal (seen name around []) }
    ensures undeclared { (name : List ℕ) (region : List Named) (around : List (List Named)) →
        own name region ≡ [] → seen name (region ∷ around) [] ≡ seen name around [] }
{}
