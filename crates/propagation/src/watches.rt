//! Which literals of each clause are watched.
ghost use Rattle.std.specs.Prelude.{◌≡◌, ◌≢◌, ◌⊎◌, ◌+◌, ◌*◌, ◌/◌, ◌<◌, ◌≤◌, ◌^◌, ◌++◌, [], ◌∷◌, All, Any, Contains, IfOk, IsFalse, IsTrue, List, OnOk, slice_get, slice_index, slice_index_or, slice_set, length, Some, ℕ};
ghost use Rattle.clauses.specs.declared.literal.Lit.{Lit};
ghost use Rattle.clauses.specs.Clause.{negation};
ghost use Rattle.clauses.specs.Problem.{IsBelow};
ghost use Rattle.propagation.specs.inside.Visits.{IsStep};
ghost use Rattle.propagation.specs.inside.Pairing.{ArePaired, row_of};
ghost use Rattle.propagation.specs.inside.Trails.{code_of};
ghost use Rattle.propagation.specs.inside.Watching.{AreInside, AreKept, IsGrowth, IsRefuted, IsReleased, IsRelinked, nothing, partner, watched_at};

use crate::codes::Code;
use crate::flat::FlatClauses;
use crate::pairs::{Pairs, bring_row};
use crate::sorting::sort_chain;
use crate::trail::Trail;
use crate::visits::{Visit, look_at};
use std::alloc::{AllocError, Global};
use std::marker::Model;

/// What stands in place of an entry where a chain ends.
pub(crate) const NOTHING: usize = usize::MAX;

/// Two watched literals of each clause, in two entries. A chain leads through the entries of each literal, so that
/// watching another literal takes no memory. Clauses of two literals may stand apart, where no chain is walked.
#[derive(Drop)]
pub(crate) struct Watches {
    variables: usize,
    /// The literal that each entry watches.
    watched: Vec<Code>,
    /// The entry behind each entry in its chain.
    next: Vec<usize>,
    /// The first entry of the chain of each literal, by its number. Of two chains more the first is spare, and the second has
    /// the entries of the clauses that are apart.
    heads: Vec<usize>,
    /// Those clauses.
    pairs: Pairs,
}

impl Model for Watches {
    ghost use Rattle.std.specs.Prelude.{min, vec_capacity};
    ghost use Rattle.propagation.specs.inside.Watching.{AreWatches, Watching};

    ghost Value = { Watching };

    ghost view = { λ a. record { variables = a.variables; watched = a.watched.items; room = min (vec_capacity a.watched) (vec_capacity a.next); pairs = a.pairs } };

    ghost invariant = { λ a. AreWatches a.variables a.pairs a.watched.items a.heads.items a.next.items };
}

impl Watches {
    /// Nothing is watched.
    pub fn new(alloc: Global, variables: usize) -> Result<Watches, AllocError>
        requires { variables ≤ 1000000 }
        ensures variables { IfOk result (λ watches. watches.variables ≡ variables) }
        ensures watched { IfOk result (λ watches. watches.watched ≡ []) }
        ensures plain { IfOk result (λ watches. watches.pairs.others ≡ []) }
    {
        let heads = vec![in alloc; NOTHING; 2 * variables + 2]?;
        Ok(Watches {
            variables,
            watched: Vec::new(alloc),
            next: Vec::new(alloc),
            heads,
            pairs: Pairs::none(alloc),
        })
    }

    /// Makes room for the entries of one clause more.
    pub fn reserve(&mut self) -> Result<(), AllocError>
        ensures variables { self.new.variables ≡ self.old.variables }
        ensures watched { self.new.watched ≡ self.old.watched }
        ensures pairs { self.new.pairs ≡ self.old.pairs }
        ensures room { OnOk result (length self.new.watched + 2 ≤ self.new.room) }
    {
        self.watched.reserve(2)?;
        self.next.reserve(2)?;
        Ok(())
    }

    /// Appends an entry.
    fn watch(&mut self, literal: Code)
        requires variable { IsBelow self.old.variables literal }
        requires room { length self.old.watched < self.old.room }
        ensures { self.new ≡ record self.old { watched = self.old.watched ++ literal ∷ [] } }
    {
        let slot = literal.slot();
        let entry = self.next.len();
        self.next.push_reserved(self.heads[slot]);
        self.watched.push_reserved(literal);
        self.heads[slot] = entry;
    }

    /// Watches two literals of one clause more.
    pub fn attach(&mut self, one: Code, other: Code)
        requires one { IsBelow self.old.variables one }
        requires other { IsBelow self.old.variables other }
        requires room { length self.old.watched + 2 ≤ self.old.room }
        ensures { self.new ≡ record self.old { watched = self.old.watched ++ one ∷ other ∷ [] } }
    {
        self.watch(one);
        self.watch(other);
    }

    /// Sets the clauses of two literals apart, where none is yet.
    pub fn set_apart(&mut self, clauses: &FlatClauses) -> Result<(), AllocError>
        requires inside { AreInside clauses.now self.old.watched }
        requires plain { self.old.pairs.others ≡ [] }
        requires few { self.old.variables ≤ 1000000 }
        ensures variables { self.new.variables ≡ self.old.variables }
        ensures watched { self.new.watched ≡ self.old.watched }
        ensures paired { OnOk result (ArePaired clauses.now self.new.pairs) }
    {
        let alloc = *self.watched.allocator();
        let slots = 2 * self.variables;
        let mut starts = Vec::with_capacity(alloc, slots + 1)?;
        let mut others = Vec::with_capacity(alloc, self.watched.len())?;
        starts.push_reserved(0);
        for slot in 0..slots {
            sort_chain(
                clauses,
                &self.watched,
                &mut self.heads,
                &mut self.next,
                slot,
                self.variables,
                &mut others,
            );
            starts.push_reserved(others.len());
        }
        self.pairs = Pairs { starts, others };
        Ok(())
    }

    /// Nothing is watched any more. What was reserved stays so.
    pub fn clear(&mut self)
        ensures variables { self.new.variables ≡ self.old.variables }
        ensures watched { self.new.watched ≡ [] }
        ensures plain { self.new.pairs.others ≡ [] }
    {
        release(&mut self.heads, &self.watched);
        let last = 2 * self.variables + 1;
        self.heads[last] = NOTHING;
        self.pairs = Pairs::none(*self.watched.allocator());
        self.watched.clear();
        self.next.clear();
    }

    /// Looks at the clauses that watch the literal, which is false now, and brings in what they force. False where one is
    /// refuted.
    pub fn spread(&mut self, clauses: &FlatClauses, literal: Code, trail: &mut Trail) -> bool
        requires inside { AreInside clauses.now self.old.watched }
        requires paired { ArePaired clauses.now self.old.pairs }
        requires below { All (All (IsBelow self.old.variables)) clauses.now }
        requires variables { trail.old.variables ≡ self.old.variables }
        requires variable { IsBelow self.old.variables literal }
        requires is_false { Contains trail.old.literals (negation literal) }
        ensures same { self.new.variables ≡ self.old.variables }
        ensures pairs { self.new.pairs ≡ self.old.pairs }
        ensures inside { AreInside clauses.now self.new.watched }
        ensures growth { IsGrowth clauses.now trail.old trail.new }
        ensures kept { AreKept trail.old.literals self.old.watched self.new.watched }
        ensures seen { IsTrue result → (entry : ℕ) → entry < length self.new.watched → watched_at self.new.watched entry ≡ literal → Contains trail.new.literals (watched_at self.new.watched (partner entry)) }
        ensures refuted { IsFalse result → Any (IsRefuted trail.new.literals) clauses.now }
    {
        if self.watched.is_empty() {
            return true;
        }
        if !bring_row(self.pairs.row(literal.slot()), trail) {
            return false;
        }
        self.walk(clauses, literal, trail)
    }

    /// Goes along the chain of the literal, which is false now, and brings in what its clauses force. False where one is refuted.
    fn walk(&mut self, clauses: &FlatClauses, literal: Code, trail: &mut Trail) -> bool
        requires inside { AreInside clauses.now self.old.watched }
        requires below { All (All (IsBelow self.old.variables)) clauses.now }
        requires variables { trail.old.variables ≡ self.old.variables }
        requires variable { IsBelow self.old.variables literal }
        requires is_false { Contains trail.old.literals (negation literal) }
        requires brought { (other : Lit) → Contains (row_of self.old.pairs (code_of literal)) other → Contains trail.old.literals other }
        ensures same { self.new.variables ≡ self.old.variables }
        ensures pairs { self.new.pairs ≡ self.old.pairs }
        ensures inside { AreInside clauses.now self.new.watched }
        ensures growth { IsGrowth clauses.now trail.old trail.new }
        ensures kept { AreKept trail.old.literals self.old.watched self.new.watched }
        ensures seen { IsTrue result → (entry : ℕ) → entry < length self.new.watched → watched_at self.new.watched entry ≡ literal → Contains trail.new.literals (watched_at self.new.watched (partner entry)) }
        ensures refuted { IsFalse result → Any (IsRefuted trail.new.literals) clauses.now }
    {
        let from = literal.slot();
        let mut last = NOTHING;
        let mut entry = self.heads[from];
        while entry != NOTHING {
            let behind = self.next[entry];
            match step(clauses, &mut self.watched, entry, literal, trail) {
                Visit::Stays => last = entry,
                Visit::Moves(found) => {
                    let to = found.slot();
                    relink(&mut self.heads, &mut self.next, from, last, entry, to);
                }
                Visit::Refuted => return false,
            }
            entry = behind;
        }
        true
    }
}

/// The other entry of the same clause.
pub(crate) fn partner(entry: usize) -> usize
    requires { entry + 1 < 2 ^ 64 }
    ensures { result ≡ partner entry }
{
    entry + 1 - 2 * (entry % 2)
}

/// Looks at the clause of the entry, which watches the literal, and watches the one to which it moves.
fn step(
    clauses: &FlatClauses,
    watched: &mut [Code],
    entry: usize,
    literal: Code,
    trail: &mut Trail,
) -> Visit
    requires entry { entry < length watched.old }
    requires sized { length watched.old ≡ 2 * length clauses.now }
    requires clauses { All (All (IsBelow trail.old.variables)) clauses.now }
    requires literal_in { Contains (slice_index_or clauses.now (entry / 2) []) literal }
    requires other_in { Contains (slice_index_or clauses.now (entry / 2) []) (watched_at watched.old (partner entry)) }
    requires is_false { Contains trail.old.literals (negation literal) }
    ensures { IsStep entry (slice_index_or clauses.now (entry / 2) []) (watched_at watched.old (partner entry)) watched.old watched.new trail.old trail.new result }
{
    let other = watched[partner(entry)];
    let visit = look_at(clauses.get(entry / 2), literal, other, trail);
    if let Visit::Moves(found) = visit {
        watched[entry] = found;
    }
    visit
}

/// Takes an entry out of the chain `from`, where it stands behind `last` or is the first, to the front of the chain `to`.
fn relink(
    heads: &mut [usize],
    next: &mut [usize],
    from: usize,
    last: usize,
    entry: usize,
    to: usize,
)
    requires from { from < length heads.old }
    requires to { to < length heads.old }
    requires apart { from ≢ to }
    requires entry { entry < length next.old }
    requires last { (last ≡ nothing) ⊎ ((last < length next.old) × (last ≢ entry)) }
    ensures { IsRelinked heads.old next.old from last entry to heads.new next.new }
{
    if last == NOTHING {
        heads[from] = next[entry];
    } else {
        next[last] = next[entry];
    }
    next[entry] = heads[to];
    heads[to] = entry;
}

/// Moves the first entry of one chain to the front of another.
pub(crate) fn shift(heads: &mut [usize], next: &mut [usize], from: usize, to: usize)
    requires from { from < length heads.old }
    requires to { to < length heads.old }
    requires apart { from ≢ to }
    requires some { slice_index heads.old from < length next.old }
    ensures heads { heads.new ≡ slice_set (slice_set heads.old from (slice_index next.old (slice_index heads.old from))) to (slice_index heads.old from) }
    ensures next { next.new ≡ slice_set next.old (slice_index heads.old from) (slice_index heads.old to) }
{
    let entry = heads[from];
    heads[from] = next[entry];
    next[entry] = heads[to];
    heads[to] = entry;
}

/// Ends the chains of these literals at once.
fn release(heads: &mut [usize], watched: &[Code])
    requires { (k : ℕ) → k < length watched.now → code_of (watched_at watched.now k) < length heads.old }
    ensures { IsReleased heads.old watched.now heads.new }
{
    for literal in watched {
        heads[literal.slot()] = NOTHING;
    }
}
