//! The table and its calls.
ghost use Rattle.std.specs.Prelude.{Bool, ◌≡◌, ◌⊎◌, ◌==◌, ℕ, ◌+◌, ◌*◌, ◌<◌, ◌≤◌, ◌/◌, ◌^◌, false, true, IfOk, [], ◌∷◌, ◌++◌, length, List, Some, IsFalse};
ghost use Rattle.std.specs.Int.{bit_at};
ghost use mathlib.Core.Option.{some};
ghost use lib.ListN.{get_elem?};
ghost use Rattle.req_keys.specs.Key.{PositionSet};
ghost use Rattle.req_keys.specs.Words.{words_of};
ghost use Rattle.req_keys.specs.declared.verdict.Verdict.{Verdict};
ghost use Rattle.req_keys.specs.declared.verdict.Cell.{Cell};
ghost use Rattle.req_keys.specs.declared.verdict.Cell.TheVariants as Cell;
ghost use Rattle.check_table.specs.declared.view.KnownEntry.{KnownEntry};
ghost use Rattle.check_table.specs.declared.found.Took.TheVariants as Took;
ghost use Rattle.check_table.specs.declared.found.Posted.TheVariants as Posted;
ghost use Rattle.check_table.specs.declared.found.Drawn.TheVariants as Drawn;
ghost use Rattle.check_table.specs.declared.found.Claimed.TheVariants as Claimed;
ghost use Rattle.check_table.specs.declared.view.Stage.TheVariants.{Idle, Holds, Runs};
ghost use Rattle.check_table.specs.Places.{key_width, slot, answer_code, code, cell_of, has_mark, IsKeyOf, IsVerdictOf};
ghost use Rattle.check_table.specs.Views.{noted, after_draw, after_claim, after_read, after_answer, after_stop_look, after_mark_look, after_look, after_take, after_cancel, after_stop, after_write, after_post, posted_key, after_seat, newcomer, after_leave};
ghost use Rattle.check_table.specs.Found.{drawn_of, ClaimedIs, TookIs, left_of, ticket_in, IsIdle, IsHolding, IsRunning, IsWanted, IsVerdict, MayGiveUp, LooksOnce, LooksTwice};
ghost use Rattle.check_table.specs.Rule.{opened};
ghost use Rattle.check_table.specs.Seats.{IsMainOf, IsWorkerOf};
ghost use Rattle.check_table.specs.inside.Seated.{IsMainIn, CanBeMet};

use crate::found::{Claimed, Drawn, GaveUp, Left, Posted, Took};
use crate::rule::{
    Answer, Cancel, Claim, Draw, Enter, Leave, Look, LookAtMark, LookAtStop, Order, Post, Read,
    Setting, Stop, Take, Write,
};
use crate::seats::{MainSeat, WorkerSeat};
use crate::view::View;
use atomic_table::Table;
use clauses::Problem;
use req_keys::{Cell, Key, Verdict};
use std::alloc::{AllocError, Global};
use std::marker::Model;
use std::snapshot::Snapshot;

/// Entries with keys and answers, shared by threads. It is made for one problem, which its contracts speak of.
#[derive(Drop)]
pub struct CheckTable {
    table: Table<(), View, Setting, Order, Global>,
    size: u64,
    width: u64,
}

impl Model for CheckTable {
    ghost use Rattle.std.specs.Prelude.{Bool, ◌≡◌, ◌+◌, ◌*◌, ◌≤◌};
    ghost use Rattle.check_table.specs.Places.{key_width};
    ghost use Rattle.check_table.specs.Seats.{TableData};

    ghost Value = { TableData };

    ghost view = { λ a. record { id = a.table.shared.table_id; problem = a.table.shared.key.problem.value; size = a.table.shared.key.size } };

    ghost invariant = { λ a. (a.size ≡ a.table.shared.key.size) × (a.width ≡ key_width a.table.shared.key.problem.value) × (a.table.shared.table_id.words ≡ 2 + a.size * (1 + a.width)) × (a.width ≤ 64) × (a.size ≤ 4096) × (a.table.shared.table_id.slots ≡ 0) };
}

impl CheckTable {
    /// A table with no entry posted, and its main seat.
    pub fn open(
        alloc: Global,
        problem: &Problem,
        entries: u32,
    ) -> Result<(CheckTable, MainSeat), AllocError>
        requires some { 1 ≤ entries }
        requires most { entries ≤ 4096 }
        ensures problem { IfOk result (λ r. r.0.problem ≡ problem.now) }
        ensures size { IfOk result (λ r. r.0.size ≡ entries) }
        ensures own { IfOk result (λ r. IsMainOf r.0 r.1) }
        ensures new { IfOk result (λ r. r.1.sees ≡ opened problem.now entries) }
    {
        let size = entries as u64;
        let width = ((problem.n() + 63) / 64) as u64;
        let about = Setting {
            problem: Snapshot::of(problem),
            size,
        };
        let mut words = Vec::new(alloc);
        for _ in 0..2 + size * (1 + width) {
            words.push(0)?;
        }
        let (table, seat) = Table::of_words(alloc, &words, &about)?;
        let table = CheckTable { table, size, width };
        Ok((
            table,
            MainSeat {
                seat,
                posted: 0,
                made: 0,
            },
        ))
    }

    // The place of a word of an entry.
    fn at(&self, entry: u32, word: u64) -> usize
        requires entry { entry < self.now.size }
        requires word { word ≤ key_width self.now.problem }
        ensures place { result ≡ slot (key_width self.now.problem) entry word }
        ensures inside { result < self.now.id.words }
    {
        (2 + entry as u64 * (1 + self.width) + word) as usize
    }

    /// A seat for one more worker.
    pub fn seat(&self, main: &mut MainSeat) -> WorkerSeat
        requires own { IsMainOf self.now main.old }
        requires few { main.old.sees.made < 64 }
        ensures own { IsMainOf self.now main.new }
        ensures worker { IsWorkerOf self.now result }
        ensures new { result.sees ≡ newcomer main.old.sees }
        ensures view { main.new.sees ≡ after_seat main.old.sees }
    {
        let seat = self.table.shared.split_seat::<Enter>(&mut main.seat);
        main.made += 1;
        WorkerSeat {
            seat,
            number: main.made as u64,
            ticket: 0,
            running: false,
        }
    }

    // Writes the next word of the next key.
    fn write(&self, main: &mut MainSeat, j: u32, word: u64)
        requires own { IsMainIn self.now main.old }
        requires at { length main.old.sees.written ≡ j }
        requires room { j < key_width self.now.problem }
        requires few { length main.old.sees.entries < self.now.size }
        ensures table { main.new.table ≡ main.old.table }
        ensures view { main.new.sees ≡ after_write word main.old.sees }
    {
        let _width = self.width;
        let at = self.at(main.posted, 1 + j as u64);
        self.table.shared.store::<Write>(&mut main.seat, at, word);
    }

    // Posts the key whose words are written.
    fn publish(&self, main: &mut MainSeat)
        requires own { IsMainIn self.now main.old }
        requires few { length main.old.sees.entries < self.now.size }
        requires whole { (key : PositionSet) × IsKeyOf self.now.problem key × (main.old.sees.written ≡ words_of key) }
        ensures table { main.new.table ≡ main.old.table }
        ensures view { main.new.sees ≡ after_post main.old.sees }
    {
        let at = self.at(main.posted, 0);
        self.table.shared.store::<Post>(&mut main.seat, at, 1);
        main.posted += 1;
    }

    /// Posts a key at the next entry.
    pub fn post(&self, main: &mut MainSeat, key: &Key) -> Posted
        requires own { IsMainOf self.now main.old }
        requires key { key.now.n ≡ length self.now.problem.roots }
        ensures own { IsMainOf self.now main.new }
        ensures full { result ≡ Posted.Full → (length main.old.sees.entries ≡ self.now.size) × (main.new ≡ main.old) }
        ensures at { (t : ℕ) → result ≡ Posted.At t → (t ≡ length main.old.sees.entries) × (t < self.now.size) × (main.new.sees ≡ posted_key key.now main.old.sees) }
    {
        let at = main.posted;
        if at as u64 >= self.size {
            return Posted::Full;
        }
        for j in 0..(key.n() + 63) / 64 {
            self.write(main, j, key.word(j));
        }
        self.publish(main);
        Posted::At(at)
    }

    /// Takes the entry where it is posted, or tells what stands there.
    pub fn take(&self, main: &mut MainSeat, entry: u32) -> Took
        requires own { IsMainOf self.now main.old }
        requires wanted { IsWanted main.old.sees entry }
        ensures own { IsMainOf self.now main.new }
        ensures view { main.new.sees ≡ after_take entry (slot (key_width self.now.problem) entry 0) main.new.sees.trace.word main.old.sees }
        ensures answer { (c : Cell) × (main.new.sees.trace.word ≡ code c false) × TookIs c result }
        ensures right { (e : KnownEntry) → get_elem? main.old.sees.entries entry ≡ some e → (v : Verdict) → result ≡ Took.Answered v → IsVerdictOf self.now.problem e.key v }
        ensures kept { (e : KnownEntry) → get_elem? main.old.sees.entries entry ≡ some e → (v : Verdict) → e.seen ≡ Some v → result ≡ Took.Answered v }
    {
        let _posted = main.posted;
        let at = self.at(entry, 0);
        let shared = &self.table.shared;
        let found = shared.compare_exchange::<Take>(&mut main.seat, at, 1, 3);
        took(cell_at(found))
    }

    /// What stands at the entry.
    pub fn look(&self, main: &mut MainSeat, entry: u32) -> Cell
        requires own { IsMainOf self.now main.old }
        requires posted { entry < length main.old.sees.entries }
        ensures own { IsMainOf self.now main.new }
        ensures view { main.new.sees ≡ after_look entry (slot (key_width self.now.problem) entry 0) main.new.sees.trace.word main.old.sees }
        ensures answer { (e : KnownEntry) → get_elem? main.old.sees.entries entry ≡ some e → main.new.sees.trace.word ≡ code result e.cancelled }
        ensures right { (e : KnownEntry) → get_elem? main.old.sees.entries entry ≡ some e → (v : Verdict) → result ≡ Cell.Answered v → IsVerdictOf self.now.problem e.key v }
        ensures kept { (e : KnownEntry) → get_elem? main.old.sees.entries entry ≡ some e → (v : Verdict) → e.seen ≡ Some v → result ≡ Cell.Answered v }
    {
        let _posted = main.posted;
        let at = self.at(entry, 0);
        let found = self.table.shared.load::<Look>(&mut main.seat, at);
        cell_at(found)
    }

    /// Sets the cancel mark of the entry: its answer is no longer wanted.
    pub fn cancel(&self, main: &mut MainSeat, entry: u32)
        requires own { IsMainOf self.now main.old }
        requires wanted { IsWanted main.old.sees entry }
        ensures own { IsMainOf self.now main.new }
        ensures view { main.new.sees ≡ after_cancel entry (slot (key_width self.now.problem) entry 0) main.new.sees.trace.word main.old.sees }
    {
        let _posted = main.posted;
        let at = self.at(entry, 0);
        self.table.shared.fetch_or::<Cancel>(&mut main.seat, at, 8);
    }

    /// Tells the workers to stop.
    pub fn stop(&self, main: &mut MainSeat)
        requires own { IsMainOf self.now main.old }
        ensures own { IsMainOf self.now main.new }
        ensures view { main.new.sees ≡ after_stop main.old.sees }
    {
        self.table.shared.store::<Stop>(&mut main.seat, 1, 1);
    }

    /// Draws the next ticket.
    pub fn draw(&self, w: &mut WorkerSeat) -> Drawn
        requires own { IsWorkerOf self.now w.old }
        requires idle { IsIdle w.old.sees }
        requires more { w.old.sees.done ≡ false }
        ensures own { IsWorkerOf self.now w.new }
        ensures view { w.new.sees ≡ after_draw 0 w.new.sees.trace.word w.old.sees }
        ensures answer { result ≡ drawn_of self.now.size w.new.sees.trace.word }
        ensures ticket { (t : ℕ) → result ≡ Drawn.Ticket t → (t < self.now.size) × (w.new.sees.stage ≡ Holds t) × (w.new.sees.done ≡ false) }
        ensures no_more { result ≡ Drawn.NoMore → (w.new.sees.stage ≡ Idle) × (w.new.sees.done ≡ true) }
    {
        let found = self.table.shared.fetch_add::<Draw>(&mut w.seat, 0, 1);
        if found < self.size {
            w.ticket = found as u32;
            Drawn::Ticket(found as u32)
        } else {
            Drawn::NoMore
        }
    }

    /// Tries to begin the entry of the ticket.
    pub fn claim(&self, w: &mut WorkerSeat) -> Claimed
        requires own { IsWorkerOf self.now w.old }
        requires holding { IsHolding w.old.sees }
        ensures own { IsWorkerOf self.now w.new }
        ensures view { w.new.sees ≡ after_claim (slot (key_width self.now.problem) (ticket_in w.old.sees.stage) 0) w.new.sees.trace.word w.old.sees }
        ensures answer { (c : Cell) × (mark : Bool) × (w.new.sees.trace.word ≡ code c mark) × ClaimedIs c mark result }
        ensures taken { result ≡ Claimed.Taken → w.new.sees.stage ≡ Runs (ticket_in w.old.sees.stage) [] }
        ensures not_yet { result ≡ Claimed.NotYet → w.new.sees.stage ≡ w.old.sees.stage }
        ensures gone { result ≡ Claimed.Gone → w.new.sees.stage ≡ Idle }
    {
        let at = self.at(w.ticket, 0);
        let run = 2 + 256 * w.number;
        let shared = &self.table.shared;
        let found = shared.compare_exchange::<Claim>(&mut w.seat, at, 1, run);
        match found {
            1 => {
                w.running = true;
                Claimed::Taken
            }
            0 => Claimed::NotYet,
            _ => Claimed::Gone,
        }
    }

    /// Word j of the key of the entry that the seat runs.
    pub fn key_word(&self, w: &mut WorkerSeat, j: u32) -> u64
        requires own { IsWorkerOf self.now w.old }
        requires running { IsRunning w.old.sees }
        requires within { j < key_width self.now.problem }
        ensures own { IsWorkerOf self.now w.new }
        ensures view { w.new.sees ≡ after_read j (slot (key_width self.now.problem) (ticket_in w.old.sees.stage) (1 + j)) result w.old.sees }
        ensures bits { (b : ℕ) → b < 64 → length self.now.problem.roots ≤ 64 * j + b → IsFalse (bit_at result b == 1) }
    {
        let _width = self.width;
        let at = self.at(w.ticket, 1 + j as u64);
        self.table.shared.load::<Read>(&mut w.seat, at)
    }

    /// Answers for the entry that the seat runs.
    pub fn answer(&self, w: &mut WorkerSeat, v: Verdict) -> Left
        requires own { IsWorkerOf self.now w.old }
        requires verdict { IsVerdict w.old.sees v }
        ensures own { IsWorkerOf self.now w.new }
        ensures view { w.new.sees ≡ after_answer (slot (key_width self.now.problem) (ticket_in w.old.sees.stage) 0) w.new.sees.trace.word w.old.sees }
        ensures answer { (mark : Bool) × (w.new.sees.trace.word ≡ code (Cell.Running w.old.sees.number) mark) × (result ≡ left_of mark) }
    {
        let at = self.at(w.ticket, 0);
        let run = 2 + 256 * w.number;
        let shared = &self.table.shared;
        let found = shared.compare_exchange::<Answer>(&mut w.seat, at, run, code_of(v));
        w.running = false;
        if found == run { Left::Kept } else { Left::Late }
    }

    /// Gives up the entry that the seat runs.
    pub fn give_up(&self, w: &mut WorkerSeat, why: GaveUp)
        requires own { IsWorkerOf self.now w.old }
        requires running { IsRunning w.old.sees }
        requires cause { MayGiveUp why w.old.sees }
        ensures own { IsWorkerOf self.now w.new }
        ensures view { w.new.sees ≡ after_answer (slot (key_width self.now.problem) (ticket_in w.old.sees.stage) 0) w.new.sees.trace.word w.old.sees }
        ensures word { (mark : Bool) × (w.new.sees.trace.word ≡ code (Cell.Running w.old.sees.number) mark) }
    {
        let at = self.at(w.ticket, 0);
        let run = 2 + 256 * w.number;
        let shared = &self.table.shared;
        shared.compare_exchange::<Answer>(&mut w.seat, at, run, 4);
        w.running = false;
    }

    /// Whether the seat is to stop: the table is stopped, or the entry that it runs is cancelled.
    pub fn stopped(&self, w: &mut WorkerSeat) -> bool
        requires own { IsWorkerOf self.now w.old }
        ensures own { IsWorkerOf self.now w.new }
        ensures looks { LooksOnce w.old.sees w.new.sees result ⊎ LooksTwice w.old.sees w.new.sees result }
    {
        let found = self.table.shared.load::<LookAtStop>(&mut w.seat, 1);
        if found == 1 {
            return true;
        }
        if w.running {
            return self.marked(w);
        }
        false
    }

    // Whether the entry that the seat runs has the mark.
    fn marked(&self, w: &mut WorkerSeat) -> bool
        requires own { IsWorkerOf self.now w.old }
        requires running { IsRunning w.old.sees }
        ensures own { IsWorkerOf self.now w.new }
        ensures view { w.new.sees ≡ after_mark_look (slot (key_width self.now.problem) (ticket_in w.old.sees.stage) 0) w.new.sees.trace.word w.old.sees }
        ensures answer { result ≡ has_mark w.new.sees.trace.word }
    {
        let at = self.at(w.ticket, 0);
        self.table.shared.load::<LookAtMark>(&mut w.seat, at) / 8 % 2 == 1
    }

    /// A worker's seat ends.
    pub fn leave(&self, main: &mut MainSeat, w: WorkerSeat)
        requires own { IsMainOf self.now main.old }
        requires worker { IsWorkerOf self.now w }
        requires rests { IsRunning w.sees → ⊥ }
        requires stopped { IsHolding w.sees → w.sees.saw_stop ≡ true }
        ensures own { IsMainOf self.now main.new }
        ensures view { main.new.sees ≡ after_leave w.sees main.old.sees }
    {
        let WorkerSeat { seat, .. } = w;
        self.table.shared.join_seat::<Leave>(&mut main.seat, seat);
    }

    /// Ends the table. All workers' seats have left.
    pub fn close(self, main: MainSeat)
        requires own { IsMainOf self main }
        requires left { main.sees.left ≡ main.sees.made }
    {
        let CheckTable { table, .. } = self;
        let MainSeat { seat, .. } = main;
        table.close_with(seat).free();
    }
}

// The state word of an answer.
fn code_of(v: Verdict) -> u64
    ensures { result ≡ answer_code v }
{
    match v {
        Verdict::Sat => 5,
        Verdict::Unsat => 6,
        Verdict::Limit => 7,
    }
}

// The cell that a state word says.
fn cell_at(found: u64) -> Cell
    requires { found / 256 < 2 ^ 32 }
    ensures { result ≡ cell_of found }
{
    match found % 8 {
        0 => Cell::Empty,
        1 => Cell::Posted,
        2 => Cell::Running((found / 256) as u32),
        3 => Cell::Mine,
        4 => Cell::GivenUp,
        5 => Cell::Answered(Verdict::Sat),
        6 => Cell::Answered(Verdict::Unsat),
        _ => Cell::Answered(Verdict::Limit),
    }
}

// What a take answers of the cell that it met.
fn took(cell: Cell) -> Took
    requires { CanBeMet cell }
    ensures { TookIs cell result }
{
    match cell {
        Cell::Posted => Took::Mine,
        Cell::GivenUp => Took::GivenUp,
        Cell::Answered(v) => Took::Answered(v),
        Cell::Running(_) | Cell::Empty | Cell::Mine => Took::Running,
    }
}
