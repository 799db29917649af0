//! The rule of the table, and the kinds of step.
ghost use Rattle.check_table.specs.Rule.{Rule, opened};
ghost use Rattle.check_table.specs.Steps.{draws, claims, reads, answers, looks_at_stop, looks_at_mark, writes, posts, stops, looks, takes, cancels, left_of_split, right_of_split, both_joined};
ghost use Rattle.check_table.specs.declared.view.View.TheVariants.{Main, Spent};

use crate::view::View;
use atomic_table::{Join, Play, Split, TableRule};
use clauses::Problem;
use std::snapshot::Snapshot;

/// What the table is told once.
#[derive(Drop)]
pub struct Setting {
    pub problem: Snapshot<Problem>,
    pub size: u64,
}

/// The rule, and the view of the main seat of a new table.
pub struct Order;

impl TableRule<(), View, Setting> for Order {
    ghost holds = { λ about. Rule about.problem.value about.size };

    ghost first = { λ about. Main (opened about.problem.value about.size) };
}

pub struct Draw;

impl Play<(), View> for Draw {
    ghost then = { draws };
}

pub struct Claim;

impl Play<(), View> for Claim {
    ghost then = { claims };
}

pub struct Read;

impl Play<(), View> for Read {
    ghost then = { reads };
}

pub struct Answer;

impl Play<(), View> for Answer {
    ghost then = { answers };
}

pub struct LookAtStop;

impl Play<(), View> for LookAtStop {
    ghost then = { looks_at_stop };
}

pub struct LookAtMark;

impl Play<(), View> for LookAtMark {
    ghost then = { looks_at_mark };
}

pub struct Write;

impl Play<(), View> for Write {
    ghost then = { writes };
}

pub struct Post;

impl Play<(), View> for Post {
    ghost then = { posts };
}

pub struct Stop;

impl Play<(), View> for Stop {
    ghost then = { stops };
}

pub struct Look;

impl Play<(), View> for Look {
    ghost then = { looks };
}

pub struct Take;

impl Play<(), View> for Take {
    ghost then = { takes };
}

pub struct Cancel;

impl Play<(), View> for Cancel {
    ghost then = { cancels };
}

/// A worker's seat is split from the main seat.
pub struct Enter;

impl Split<View> for Enter {
    ghost left = { left_of_split };

    ghost right = { right_of_split };
}

/// A worker's seat is joined to the main seat.
pub struct Leave;

impl Join<View> for Leave {
    ghost both = { both_joined };

    ghost spent = { Spent };
}
