//! What FastDiag and QuickXplain over a table of answers find, which sets they ask, and that they end.
ghost use Rattle.std.specs.Prelude.{◌≡◌, ℕ, ◌*◌, ◌-◌, ◌≤◌, Bool, true, false, MatchBool, Some, None, List, [], ◌∷◌, ◌++◌, length, All, Contains};
ghost use Rattle.std.specs.List.{range_with_len};
ghost use Rattle.std.specs.List.Sorted.{IsStrictlyIncreasing};
ghost use Rattle.pref_sets.specs.Answers.{Answer, AgreesWith, IsClosed, IsWithinSat, IsToldInTurn, Next, Ask, Done, answer_to, and_then, same_set};
ghost use Rattle.pref_sets.specs.FastDiag.{fd, fd_behind, fd_part, unless_sat};
ghost use Rattle.pref_sets.specs.Kept.{IsKept};
ghost use Rattle.pref_sets.specs.Positions.{union, lower_half, upper_half};
ghost use Rattle.pref_sets.specs.Preferred.{AgreeOn, IsWithin, IsPreferredConflictTo};
ghost use Rattle.pref_sets.specs.Properties.{PassesToFewer};
ghost use Rattle.pref_sets.specs.QuickXplain.{qx, qx_behind, qx_part, unless_unsat};
ghost use Rattle.pref_sets.specs.Renumbering.{at_places, AnswersByPlaces, AnswersSomeByPlaces, next_at_places};
ghost use Rattle.pref_sets.specs.Trimmed.{IsTrimmed};

use crate::laws::Property;

/// What FastDiag finds is the kept set: of ascending positions that don't have the property together, over every table
/// that agrees with the property, which passes to fewer members. It has the property where the empty set has it, and no
/// position can join. Behind a background it is the kept set for the property that a set has with it.
pub fn fd_is_kept<P: Property>()
    ensures kept { (about : P) (positions kept : List ℕ) (table : List Answer) → PassesToFewer (P.holds about) →
        IsStrictlyIncreasing positions → ¬ P.holds about positions →
        AgreesWith (P.holds about) table → fd positions table ≡ Done kept →
        IsKept (P.holds about) positions kept }
    ensures holds { (about : P) (positions kept : List ℕ) (table : List Answer) → PassesToFewer (P.holds about) →
        IsStrictlyIncreasing positions → P.holds about [] → ¬ P.holds about positions →
        AgreesWith (P.holds about) table → fd positions table ≡ Done kept → P.holds about kept }
    ensures maximal { (about : P) (positions kept : List ℕ) (table : List Answer) → PassesToFewer (P.holds about) →
        IsStrictlyIncreasing positions → ¬ P.holds about positions →
        AgreesWith (P.holds about) table → fd positions table ≡ Done kept →
        (other : List ℕ) → P.holds about other → IsWithin kept other →
        (position : ℕ) → Contains positions position → Contains other position → Contains kept position }
    ensures behind { (about : P) (positions background kept : List ℕ) (table : List Answer) →
        PassesToFewer (P.holds about) →
        IsStrictlyIncreasing positions → ¬ P.holds about (union background positions) →
        AgreesWith (P.holds about) table → fd_behind table positions background true ≡ Done kept →
        IsKept (λ set. P.holds about (union background set)) positions kept }
    ensures behind_holds { (about : P) (positions background kept : List ℕ) (table : List Answer) →
        PassesToFewer (P.holds about) →
        IsStrictlyIncreasing positions → P.holds about background → ¬ P.holds about (union background positions) →
        AgreesWith (P.holds about) table → fd_behind table positions background true ≡ Done kept →
        P.holds about (union background kept) }
    ensures behind_maximal { (about : P) (positions background kept : List ℕ) (table : List Answer) →
        PassesToFewer (P.holds about) →
        IsStrictlyIncreasing positions → ¬ P.holds about (union background positions) →
        AgreesWith (P.holds about) table → fd_behind table positions background true ≡ Done kept →
        (other : List ℕ) → P.holds about (union background other) → IsWithin kept other →
        (position : ℕ) → Contains positions position → Contains other position → Contains kept position }
    ensures within { (positions kept : List ℕ) (table : List Answer) → fd positions table ≡ Done kept →
        IsWithin kept positions }
    ensures ascending { (positions kept : List ℕ) (table : List Answer) → IsStrictlyIncreasing positions →
        fd positions table ≡ Done kept → IsStrictlyIncreasing kept }
{}

/// The same for a table of which no Unsat set is within a Sat one, and that has the positions as Unsat. Its property is to be within a
/// set that the table has as Sat.
pub fn fd_of_closed_table()
    ensures { (positions kept : List ℕ) (table : List Answer) → IsStrictlyIncreasing positions →
        IsClosed table → answer_to table positions ≡ Some false → fd positions table ≡ Done kept →
        IsKept (IsWithinSat table) positions kept }
{}

/// What QuickXplain finds is the trimmed set for not having the property: of ascending positions, where the empty set
/// has the property, over every table that agrees with the property, which passes to fewer members. If the positions
/// don't have it together, that is their preferred conflict: a conflict to which no other one of the positions is
/// preferred, and the only one. It is subset-minimal.
pub fn qx_is_trimmed<P: Property>()
    ensures trimmed { (about : P) (positions left : List ℕ) (table : List Answer) → PassesToFewer (P.holds about) →
        IsStrictlyIncreasing positions → P.holds about [] → AgreesWith (P.holds about) table →
        qx positions table ≡ Done left → IsTrimmed (λ set. ¬ P.holds about set) positions left }
    ensures conflict { (about : P) (positions left : List ℕ) (table : List Answer) → PassesToFewer (P.holds about) →
        IsStrictlyIncreasing positions → ¬ P.holds about positions → P.holds about [] →
        AgreesWith (P.holds about) table → qx positions table ≡ Done left → ¬ P.holds about left }
    ensures minimal { (about : P) (positions left : List ℕ) (table : List Answer) → PassesToFewer (P.holds about) →
        IsStrictlyIncreasing positions → P.holds about [] → AgreesWith (P.holds about) table →
        qx positions table ≡ Done left → (other : List ℕ) → IsWithin other left →
        ¬ P.holds about other → IsWithin left other }
    ensures preferred { (about : P) (positions left : List ℕ) (table : List Answer) → PassesToFewer (P.holds about) →
        IsStrictlyIncreasing positions → P.holds about [] → AgreesWith (P.holds about) table →
        qx positions table ≡ Done left → (other : List ℕ) → ¬ P.holds about other → IsWithin other positions →
        ¬ IsPreferredConflictTo positions other left }
    ensures only { (about : P) (positions left : List ℕ) (table : List Answer) → PassesToFewer (P.holds about) →
        IsStrictlyIncreasing positions → ¬ P.holds about positions → P.holds about [] →
        AgreesWith (P.holds about) table → qx positions table ≡ Done left →
        (other : List ℕ) → ¬ P.holds about other → IsWithin other positions →
        ((third : List ℕ) → ¬ P.holds about third → IsWithin third positions →
        ¬ IsPreferredConflictTo positions third other) → AgreeOn positions other left }
    ensures within { (positions left : List ℕ) (table : List Answer) → qx positions table ≡ Done left →
        IsWithin left positions }
    ensures ascending { (positions left : List ℕ) (table : List Answer) → IsStrictlyIncreasing positions →
        qx positions table ≡ Done left → IsStrictlyIncreasing left }
{}

/// The same for a table of which no Unsat set is within a Sat one, and that has the empty set as Sat. It is a conflict where the table has
/// the positions as Unsat.
pub fn qx_of_closed_table()
    ensures trimmed { (positions left : List ℕ) (table : List Answer) → IsStrictlyIncreasing positions →
        IsClosed table → answer_to table [] ≡ Some true → qx positions table ≡ Done left →
        IsTrimmed (λ set. ¬ IsWithinSat table set) positions left }
    ensures conflict { (positions left : List ℕ) (table : List Answer) → IsStrictlyIncreasing positions →
        IsClosed table → answer_to table positions ≡ Some false → answer_to table [] ≡ Some true →
        qx positions table ≡ Done left → ¬ IsWithinSat table left }
    ensures minimal { (positions left : List ℕ) (table : List Answer) → IsStrictlyIncreasing positions →
        IsClosed table → answer_to table [] ≡ Some true → qx positions table ≡ Done left →
        (other : List ℕ) → IsWithin other left → ¬ IsWithinSat table other → IsWithin left other }
{}

/// FastDiag asks only sets of its positions, and none that the table has. Of ascending positions it asks neither the
/// empty set nor all.
pub fn fd_asks_new_sets()
    ensures new { (positions asked : List ℕ) (table : List Answer) → fd positions table ≡ Ask asked →
        answer_to table asked ≡ None }
    ensures within { (positions asked : List ℕ) (table : List Answer) → fd positions table ≡ Ask asked →
        IsWithin asked positions }
    ensures ascending { (positions asked : List ℕ) (table : List Answer) → IsStrictlyIncreasing positions →
        fd positions table ≡ Ask asked → IsStrictlyIncreasing asked }
    ensures part { (positions asked : List ℕ) (table : List Answer) → IsStrictlyIncreasing positions →
        fd positions table ≡ Ask asked → (¬ asked ≡ []) × (¬ asked ≡ positions) }
{}

/// The same behind a background, which every asked set has. Where the background has none of the positions, and is known
/// to be Unsat with all of them, it is asked neither alone nor with all of them.
pub fn fd_behind_asks_new_sets()
    ensures new { (positions background asked : List ℕ) (known : Bool) (table : List Answer) →
        fd_behind table positions background known ≡ Ask asked → answer_to table asked ≡ None }
    ensures within { (positions background asked : List ℕ) (known : Bool) (table : List Answer) →
        fd_behind table positions background known ≡ Ask asked → IsWithin asked (union background positions) }
    ensures ascending { (positions background asked : List ℕ) (known : Bool) (table : List Answer) →
        IsStrictlyIncreasing positions → fd_behind table positions background known ≡ Ask asked →
        IsStrictlyIncreasing asked }
    ensures part { (positions background asked : List ℕ) (table : List Answer) → IsStrictlyIncreasing positions →
        ((position : ℕ) → Contains background position → ¬ Contains positions position) →
        fd_behind table positions background true ≡ Ask asked →
        (¬ IsWithin asked background) × (¬ IsWithin positions asked) }
{}

/// QuickXplain asks only sets of its positions, and none that the table has. Of ascending positions it asks neither the
/// empty set nor all.
pub fn qx_asks_new_sets()
    ensures new { (positions asked : List ℕ) (table : List Answer) → qx positions table ≡ Ask asked →
        answer_to table asked ≡ None }
    ensures within { (positions asked : List ℕ) (table : List Answer) → qx positions table ≡ Ask asked →
        IsWithin asked positions }
    ensures ascending { (positions asked : List ℕ) (table : List Answer) → IsStrictlyIncreasing positions →
        qx positions table ≡ Ask asked → IsStrictlyIncreasing asked }
    ensures part { (positions asked : List ℕ) (table : List Answer) → IsStrictlyIncreasing positions →
        qx positions table ≡ Ask asked → (¬ asked ≡ []) × (¬ asked ≡ positions) }
{}

/// FastDiag ends: over m positions at most 2 * m - 2 sets are asked one after the other, whatever the table at the
/// start and the answers, and none of them twice. After so many it is done, and stays so when more is told; and for
/// each test that answers there is such a table.
pub fn fd_ends()
    ensures few { (positions : List ℕ) (start told : List Answer) → IsToldInTurn (fd positions) start told →
        length told ≤ 2 * length positions - 2 }
    ensures done { (positions : List ℕ) (start told : List Answer) → IsToldInTurn (fd positions) start told →
        2 * length positions - 2 ≤ length told →
        (kept : List ℕ) × (fd positions (start ++ told) ≡ Done kept) }
    ensures stays { (positions kept : List ℕ) (table more : List Answer) → fd positions table ≡ Done kept →
        fd positions (table ++ more) ≡ Done kept }
    ensures once { (positions : List ℕ) (start told : List Answer) → IsToldInTurn (fd positions) start told →
        (before : List Answer) (answer : Answer) (after : List Answer) →
        told ≡ before ++ answer ∷ after → answer_to (start ++ before) answer.set ≡ None }
    ensures answered { (positions : List ℕ) (start : List Answer) (test : List ℕ → Bool) →
        (told : List Answer) × (kept : List ℕ) × IsToldInTurn (fd positions) start told ×
        All (λ answer. answer.sat ≡ test answer.set) told × (fd positions (start ++ told) ≡ Done kept) }
{}

/// FastDiag behind a background ends in the same way, where all positions with it are known to be Unsat.
pub fn fd_behind_ends()
    ensures few { (positions background : List ℕ) (start told : List Answer) →
        IsToldInTurn (λ table. fd_behind table positions background true) start told →
        length told ≤ 2 * length positions - 2 }
    ensures done { (positions background : List ℕ) (start told : List Answer) →
        IsToldInTurn (λ table. fd_behind table positions background true) start told →
        2 * length positions - 2 ≤ length told →
        (kept : List ℕ) × (fd_behind (start ++ told) positions background true ≡ Done kept) }
    ensures stays { (positions background kept : List ℕ) (table more : List Answer) →
        fd_behind table positions background true ≡ Done kept →
        fd_behind (table ++ more) positions background true ≡ Done kept }
    ensures once { (positions background : List ℕ) (start told : List Answer) →
        IsToldInTurn (λ table. fd_behind table positions background true) start told →
        (before : List Answer) (answer : Answer) (after : List Answer) →
        told ≡ before ++ answer ∷ after → answer_to (start ++ before) answer.set ≡ None }
    ensures answered { (positions background : List ℕ) (start : List Answer) (test : List ℕ → Bool) →
        (told : List Answer) × (kept : List ℕ) ×
        IsToldInTurn (λ table. fd_behind table positions background true) start told ×
        All (λ answer. answer.sat ≡ test answer.set) told ×
        (fd_behind (start ++ told) positions background true ≡ Done kept) }
{}

/// QuickXplain ends: over m positions at most 2 * m - 2 sets are asked one after the other, whatever the table at the
/// start and the answers, and none of them twice. After so many it is done, and stays so when more is told; and for
/// each test that answers there is such a table.
pub fn qx_ends()
    ensures few { (positions : List ℕ) (start told : List Answer) → IsToldInTurn (qx positions) start told →
        length told ≤ 2 * length positions - 2 }
    ensures done { (positions : List ℕ) (start told : List Answer) → IsToldInTurn (qx positions) start told →
        2 * length positions - 2 ≤ length told →
        (left : List ℕ) × (qx positions (start ++ told) ≡ Done left) }
    ensures stays { (positions left : List ℕ) (table more : List Answer) → qx positions table ≡ Done left →
        qx positions (table ++ more) ≡ Done left }
    ensures once { (positions : List ℕ) (start told : List Answer) → IsToldInTurn (qx positions) start told →
        (before : List Answer) (answer : Answer) (after : List Answer) →
        told ≡ before ++ answer ∷ after → answer_to (start ++ before) answer.set ≡ None }
    ensures answered { (positions : List ℕ) (start : List Answer) (test : List ℕ → Bool) →
        (told : List Answer) × (left : List ℕ) × IsToldInTurn (qx positions) start told ×
        All (λ answer. answer.sat ≡ test answer.set) told × (qx positions (start ++ told) ≡ Done left) }
{}

/// FastDiag over another table that answers what this one does, on sets of the positions: it asks the same set, if that
/// has no answer there either, and finds the same. Behind a background the sets are those of positions with it.
pub fn fd_over_more_answers()
    ensures asks { (positions asked : List ℕ) (table other : List Answer) →
        ((set : List ℕ) (sat : Bool) → IsWithin set positions →
        answer_to table set ≡ Some sat → answer_to other set ≡ Some sat) →
        fd positions table ≡ Ask asked → answer_to other asked ≡ None → fd positions other ≡ Ask asked }
    ensures finds { (positions kept : List ℕ) (table other : List Answer) →
        ((set : List ℕ) (sat : Bool) → IsWithin set positions →
        answer_to table set ≡ Some sat → answer_to other set ≡ Some sat) →
        fd positions table ≡ Done kept → fd positions other ≡ Done kept }
    ensures asks_behind { (positions background asked : List ℕ) (known : Bool) (table other : List Answer) →
        ((set : List ℕ) (sat : Bool) → IsWithin set (union background positions) →
        answer_to table set ≡ Some sat → answer_to other set ≡ Some sat) →
        fd_behind table positions background known ≡ Ask asked → answer_to other asked ≡ None →
        fd_behind other positions background known ≡ Ask asked }
    ensures finds_behind { (positions background kept : List ℕ) (known : Bool) (table other : List Answer) →
        ((set : List ℕ) (sat : Bool) → IsWithin set (union background positions) →
        answer_to table set ≡ Some sat → answer_to other set ≡ Some sat) →
        fd_behind table positions background known ≡ Done kept → fd_behind other positions background known ≡ Done kept }
{}

/// QuickXplain over another table that answers what this one does, on sets of the positions: it asks the same set, if
/// that has no answer there either, and finds the same.
pub fn qx_over_more_answers()
    ensures asks { (positions asked : List ℕ) (table other : List Answer) →
        ((set : List ℕ) (sat : Bool) → IsWithin set positions →
        answer_to table set ≡ Some sat → answer_to other set ≡ Some sat) →
        qx positions table ≡ Ask asked → answer_to other asked ≡ None → qx positions other ≡ Ask asked }
    ensures finds { (positions left : List ℕ) (table other : List Answer) →
        ((set : List ℕ) (sat : Bool) → IsWithin set positions →
        answer_to table set ≡ Some sat → answer_to other set ≡ Some sat) →
        qx positions table ≡ Done left → qx positions other ≡ Done left }
{}

/// FastDiag of ascending positions behind a background is FastDiag over their places 1, 2, .., m and a table that answers
/// by places. What the one asks, the other asks of the positions there with the background; what the one keeps is kept.
/// Where the table has more answers, FastDiag behind the background asks that set if the table has no answer on it, and
/// keeps the same.
pub fn fd_goes_by_places()
    ensures same { (positions background : List ℕ) (table small : List Answer) → IsStrictlyIncreasing positions →
        AnswersByPlaces positions background table small →
        fd_behind table positions background true ≡
        next_at_places positions background (fd (range_with_len 1 (length positions)) small) }
    ensures asks { (positions background places : List ℕ) (table small : List Answer) →
        IsStrictlyIncreasing positions → AnswersSomeByPlaces positions background table small →
        fd (range_with_len 1 (length positions)) small ≡ Ask places →
        answer_to table (union background (at_places positions places)) ≡ None →
        fd_behind table positions background true ≡ Ask (union background (at_places positions places)) }
    ensures finds { (positions background places : List ℕ) (table small : List Answer) →
        IsStrictlyIncreasing positions → AnswersSomeByPlaces positions background table small →
        fd (range_with_len 1 (length positions)) small ≡ Done places →
        fd_behind table positions background true ≡ Done (at_places positions places) }
{}

/// The number of positions is count enough for FastDiag: a greater count changes nothing, and the recursion goes by
/// the halves, with no count in sight.
pub fn fd_goes_by_halves()
    ensures enough { (count : ℕ) (table : List Answer) (positions background : List ℕ) (known : Bool) →
        length positions ≤ count →
        fd_part count table positions background known ≡ fd_behind table positions background known }
    ensures one { (table : List Answer) (position : ℕ) (background : List ℕ) (known : Bool) →
        fd_behind table (position ∷ []) background known ≡ unless_sat table (position ∷ []) background known (Done []) }
    ensures more { (table : List Answer) (positions background : List ℕ) (known : Bool) → 2 ≤ length positions →
        fd_behind table positions background known ≡
        unless_sat table positions background known
        (and_then (fd_behind table (lower_half positions) background false) (λ lower.
        and_then (fd_behind table (upper_half positions) (union background lower) (same_set lower (lower_half positions))) (λ upper.
        Done (union lower upper)))) }
{}

/// The number of positions is count enough for QuickXplain: a greater count changes nothing, and the recursion goes by
/// the halves, with no count in sight.
pub fn qx_goes_by_halves()
    ensures enough { (count : ℕ) (table : List Answer) (background added positions : List ℕ) →
        length positions ≤ count →
        qx_part count table background added positions ≡ qx_behind table background added positions }
    ensures one { (table : List Answer) (background added : List ℕ) (position : ℕ) →
        qx_behind table background added (position ∷ []) ≡ unless_unsat table background added (Done (position ∷ [])) }
    ensures more { (table : List Answer) (background added positions : List ℕ) → 2 ≤ length positions →
        qx_behind table background added positions ≡
        unless_unsat table background added
        (and_then (qx_behind table (union background (lower_half positions)) (lower_half positions) (upper_half positions)) (λ upper.
        and_then (qx_behind table (union background upper) upper (lower_half positions)) (λ lower.
        Done (union lower upper)))) }
{}

/// A table that agrees with a property still does with one more right answer.
pub fn right_answers_agree<P: Property>()
    ensures none { (about : P) → AgreesWith (P.holds about) [] }
    ensures one_more { (about : P) (table : List Answer) (answer : Answer) → AgreesWith (P.holds about) table →
        MatchBool answer.sat (P.holds about answer.set) (¬ P.holds about answer.set) →
        AgreesWith (P.holds about) (table ++ answer ∷ []) }
{}

/// Answers are told in turn one by one, and each set that has an answer then was asked over what was told before it.
pub fn answers_in_turn()
    ensures none { (next : List Answer → Next) (start : List Answer) → IsToldInTurn next start [] }
    ensures one_more { (next : List Answer → Next) (start told : List Answer) (answer : Answer) →
        IsToldInTurn next start told → next (start ++ told) ≡ Ask answer.set →
        IsToldInTurn next start (told ++ answer ∷ []) }
    ensures asked { (next : List Answer → Next) (told : List Answer) (set : List ℕ) (sat : Bool) →
        IsToldInTurn next [] told → answer_to told set ≡ Some sat →
        (before after : List Answer) × (told ≡ before ++ record { set = set; sat = sat } ∷ after) × (next before ≡ Ask set) }
{}
