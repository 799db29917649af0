//! Waiting between two looks at what another thread is to do.
use std::sync::Wait;
use std::thread::{Parker, yield_now};
use std::time::Duration;

/// After so many looks it sleeps between two.
const QUICK_LOOKS: u32 = 2_000;

/// So many microseconds.
const NAP_MICROSECONDS: u64 = 50;

/// The patience of a thread that looks again and again at what another thread is to do. At first it only lets others
/// run between two looks. After 2,000 looks it sleeps for 50 microseconds between two, so that it takes no processor from
/// those that search. Each wait has a new one.
#[derive(Drop)]
pub struct Patience {
    looks: u32,
    bed: Parker,
}

impl Patience {
    /// That of a thread that has not looked yet.
    pub fn new() -> Patience {
        Patience {
            looks: 0,
            bed: Parker::new(),
        }
    }

    /// Passes the time after a look that found nothing.
    pub fn pause<R: Wait>(&mut self, rt: &R) {
        if self.looks < QUICK_LOOKS {
            self.looks += 1;
            yield_now();
        } else {
            self.bed
                .park_timeout(rt, Duration::from_micros(NAP_MICROSECONDS));
        }
    }
}
