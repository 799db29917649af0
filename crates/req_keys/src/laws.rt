//! What the definitions on keys mean, in the words of sets.
ghost use Rattle.std.specs.Prelude.{◌≡◌, ◌↔◌, ◌^◌, ◌<◌, List, ℕ, All, Contains, IsTrue};
ghost use Rattle.std.specs.declared.cmp.Ordering.TheVariants.{Less, Equal};
ghost use Rattle.req_keys.specs.Positions.{has};
ghost use Rattle.req_keys.specs.Key.{PositionSet, IsKey, is_subset_of, is_disjoint_of};
ghost use Rattle.req_keys.specs.Order.{ComesBefore, key_cmp, key_eq};
ghost use Rattle.req_keys.specs.Words.{words_of, key_of_words, IsRowOver};

/// The test of membership finds what the list contains.
pub fn membership_is_containing()
    ensures { (members : List ℕ) (position : ℕ) → IsTrue (has members position) ↔ Contains members position }
{}

/// The test of a subset says that each member is in the other.
pub fn subset_is_of_members()
    ensures { (a b : PositionSet) → IsTrue (is_subset_of a b) ↔ All (Contains b.members) a.members }
{}

/// The test of disjointness says that no member is in the other.
pub fn disjointness_is_of_members()
    ensures { (a b : PositionSet) → IsTrue (is_disjoint_of a b) ↔ All (λ i. ¬ Contains b.members i) a.members }
{}

/// The order of keys is that of diagnoses.
pub fn order_is_of_diagnoses()
    ensures { (a b : PositionSet) → IsKey a → IsKey b → (key_cmp a b ≡ Less) ↔ ComesBefore a b }
{}

/// Keys that compare as equal are one.
pub fn equal_keys_are_one()
    ensures eq { (a b : PositionSet) → IsTrue (key_eq a b) ↔ (a ≡ b) }
    ensures cmp { (a b : PositionSet) → (key_cmp a b ≡ Equal) ↔ (a ≡ b) }
{}

/// A key is what its words show, and a row of words is that of the key that it shows.
pub fn words_and_keys_are_inverse()
    ensures from_words { (key : PositionSet) → IsKey key → key_of_words key.n (words_of key) ≡ key }
    ensures words { (n : ℕ) (words : List ℕ) → IsRowOver n words → All (λ word. word < 2 ^ 64) words → words_of (key_of_words n words) ≡ words }
{}
