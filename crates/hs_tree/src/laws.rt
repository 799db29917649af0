//! What the tree over a table of answers asks and finds.
ghost use Rattle.std.specs.Prelude.{◌≡◌, ℕ, None, List};
ghost use Rattle.pref_sets.specs.Answers.{Answer, AgreesWith, Ask, IsDone, answer_to};
ghost use Rattle.pref_sets.specs.Properties.{PassesToFewer};
ghost use Rattle.req_keys.specs.Positions.{RiseWithin};
ghost use Rattle.hs_tree.specs.Listing.{AreMinimalDiagnoses, IsListing};
ghost use Rattle.hs_tree.specs.Tree.{tree, found_by, next_of};

use pref_sets::Property;

/// The tree asks no set that has an answer in the table, whatever the table. So no set is asked twice where each answer is
/// put into the table.
pub fn tree_asks_new_sets()
    ensures { (n most : ℕ) (first asked : List ℕ) (table : List Answer) →
        next_of (tree n first most table) ≡ Ask asked → answer_to table asked ≡ None }
{}

/// What the tree finds, over every table that agrees with a property that passes to fewer members, from a first set of
/// positions that don't have the property together, which needn't be minimal: minimal diagnoses up to the size, in order,
/// each once. When the tree is done these are all of them, whatever known conflicts were used as labels again.
pub fn tree_lists_minimal_diagnoses<P: Property>()
    ensures found { (about : P) (n most : ℕ) (first : List ℕ) (table : List Answer) → PassesToFewer (P.holds about) →
        RiseWithin 0 n first → ¬ P.holds about first → AgreesWith (P.holds about) table →
        AreMinimalDiagnoses (P.holds about) n most (found_by (tree n first most table)) }
    ensures listing { (about : P) (n most : ℕ) (first : List ℕ) (table : List Answer) → PassesToFewer (P.holds about) →
        RiseWithin 0 n first → ¬ P.holds about first → AgreesWith (P.holds about) table →
        IsDone (next_of (tree n first most table)) →
        IsListing (P.holds about) n most (found_by (tree n first most table)) }
{}

/// There is at most one listing.
pub fn listing_is_unique<P: Property>()
    ensures { (about : P) (n most : ℕ) (a b : List (List ℕ)) →
        IsListing (P.holds about) n most a → IsListing (P.holds about) n most b → a ≡ b }
{}
