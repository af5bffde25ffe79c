//! What holds of every list of tokens.
ghost use Rattle.std.specs.Prelude.{◌≡◌, ◌||◌, ℕ, List, Some, true};
ghost use Rattle.std.specs.FinSet.{contains};
ghost use Rattle.std.specs.List.{list_any};
ghost use Rattle.cx_token_defs.specs.declared.Token.{Token};
ghost use Rattle.cx_type_names.specs.Groups.{behind_group, behind_groups};
ghost use Rattle.cx_type_names.specs.Names.{is_identifier, is_standard, is_type_name, type_names};
ghost use Rattle.cx_type_names.specs.Soup.{AreGroups, IsGroup};

/// Attribute groups are passed over exactly as the grammar spells them ([dcl.attr.grammar]): a group is passed where one stands in front,
/// and as many as stand in a row.
pub fn groups_are_spelled()
    ensures group { (tokens rest : List Token) → IsGroup tokens rest → behind_group tokens ≡ Some rest }
    ensures only { (tokens rest : List Token) → behind_group tokens ≡ Some rest → IsGroup tokens rest }
    ensures row { (tokens : List Token) → AreGroups tokens (behind_groups tokens) }
    ensures last { (tokens rest : List Token) → IsGroup (behind_groups tokens) rest → ⊥ }
{}

/// What is in the set of a list's names of types: by a test on the list (`test`), always the names of the library (`standard`), and
/// besides them nothing but identifiers of the list (`listed`).
pub fn members()
    ensures test { (tokens : List Token) (text : List ℕ) → contains (type_names tokens) text ≡ is_type_name tokens text }
    ensures standard { (tokens : List Token) (text : List ℕ) → is_standard text ≡ true → is_type_name tokens text ≡ true }
    ensures listed { (tokens : List Token) (text : List ℕ) → is_type_name tokens text ≡ true → (is_standard text || list_any (is_identifier text) tokens) ≡ true }
{}
