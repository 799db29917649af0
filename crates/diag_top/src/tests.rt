//! Whole runs over a shelf and a sink in memory.
mod rows;

use super::*;
use diag_base::{MemShelf, MemSink};
use std::alloc::{AllocError, Global};
use std::sync::atomic::AtomicU64;
use std::sync::atomic::Ordering::SeqCst;
use std::test::Fail;
use std::thread::yield_now;

const PHONE: &[u8] =
    b"features\n\tPhone\n\t\tmandatory\n\t\t\tScreen\n\t\t\t\talternative\n\t\t\t\t\tBasic\n\t\t\t\t\tColour\n\t\toptional\n\t\t\tCamera\n\t\t\tGPS\nconstraints\n\tCamera => Colour\n";

fn words_of(alloc: Global, words: &[&str]) -> Result<Vec<String>, AllocError> {
    let mut all = Vec::new(alloc);
    for word in words {
        all.push(String::from_str(alloc, word)?)?;
    }
    Ok(all)
}

fn phone(alloc: Global) -> Result<MemShelf, AllocError> {
    let mut shelf = MemShelf::new(alloc);
    shelf.set(alloc, "m", PHONE)?;
    shelf.set(alloc, "c", b"Camera\nBasic\nGPS\n")?;
    Ok(shelf)
}

const CERTIFIED: &[u8] =
    b"diag 1\nmodel 6 features 1 constraints\nrequirements 3\nresult explained\ndiagnosis 1\n  2 Basic\nconflict 2\n  1 Camera\n  2 Basic\nchecks 6 predicted 7 wasted 2\nend\ncertificate 1\nexplained\nkept 1 3\nconflict 1 2\nproduct 1 2 4 5 6\nrefute 2\nclash\nrefute conflict\nclash\nneed 1\nproduct 1 2 3\nneed 2\nproduct 1 2 4 5\nend\n";

/// What is said of a certificate with these bytes.
#[derive(Clone, Copy)]
struct Said {
    certificate: &'static [u8],
    text: &'static [u8],
}

/// What `diagnose` writes is accepted, alone and behind the report, and each part of it is looked at.
#[test]
fn a_certificate_follows_and_is_judged(rt: HostRuntime) -> Result<(), Fail> {
    let words = words_of(
        rt.alloc(),
        &["diagnose", "m", "c", "--certify", "--ahead", "3"],
    )?;
    let mut shelf = phone(rt.alloc())?;
    let mut sink = MemSink::new(rt.alloc(), 10_000)?;
    let status = run_alone(rt.alloc(), words.as_slice(), &mut shelf, &mut sink);
    assert_eq!(rt; status, Some(Status::Explained));
    assert_eq!(rt; sink.written(), CERTIFIED);
    let rows = [
        Said {
            certificate: CERTIFIED,
            text: b"verified explained\n",
        },
        Said {
            certificate: b"certificate 1\nexplained\nkept 1 3\nconflict 1 2\nproduct 1 2 4 5 6\nrefute 2\nclash\nrefute conflict\nclash\nneed 1\nproduct 1 2 3\nneed 2\nproduct 1 2 4 5\nend\n",
            text: b"verified explained\n",
        },
        Said {
            certificate: b"certificate 1\nexplained\nkept 1 3\nconflict 1 2\nproduct 1 2 3 5 6\nrefute 2\nclash\n",
            text: b"rejected line 5 NotProduct\n",
        },
        Said {
            certificate: b"certificate 1\nexplained\nkept 1 3\nconflict 1 2\nproduct 1 2 4 5 6\nrefute 2\nrefute conflict\nclash\n",
            text: b"rejected line 7 NoEnd\n",
        },
        Said {
            certificate: b"",
            text: b"rejected line 1 NoCertificate\n",
        },
        Said {
            certificate: b"certificate 1\nexplained\nkept 1 1\n",
            text: b"rejected line 3 BadLine\n",
        },
        Said {
            certificate: b"certificate 1\nexplained\nkept 1 3\nconflict 1 2\nproduct 1 2 4 5 6\nrefute 2\nclash\nrefute conflict\n",
            text: b"rejected line 9 NoEnd\n",
        },
        Said {
            certificate: b"certificate 1\nexplained\nkept 1 3\nconflict 1 2\nproduct 1 2 4 5 6\nrefute 2\nclash\nrefute conflict\nclash\nneed 1\n",
            text: b"rejected line 11 BadLine\n",
        },
        Said {
            certificate: b"certificate 1\nexplained\nkept 1 3\nconflict 1 2\nproduct 1 2 4 5 6\nrefute 2\nclash\nrefute conflict\nclash\nneed 1\nproduct 1 2 3\nneed 2\nproduct 1 2 4 5\n",
            text: b"rejected line 14 BadLine\n",
        },
        Said {
            certificate: b"certificate 1\nexplained\nkept 1 3\nconflict 1 2\nproduct 1 2 4 5 6\nrefute 2\nclash\nrefute conflict\nclash\nneed 1\nproduct 1 2 3\nneed 2\nproduct 1 2 4 5\nend\nend\n",
            text: b"rejected line 15 BadLine\n",
        },
    ];
    let words = words_of(rt.alloc(), &["verify", "m", "c", "t"])?;
    for row in &rows {
        shelf.set(rt.alloc(), "t", row.certificate)?;
        let mut sink = MemSink::new(rt.alloc(), 100)?;
        let status = run_alone(rt.alloc(), words.as_slice(), &mut shelf, &mut sink);
        let accepted = status == Some(Status::Verified);
        assert_eq!(rt; accepted, row.text.starts_with(b"verified"));
        assert_eq!(rt; sink.written(), row.text);
    }
    Ok(())
}

/// Where the words ask for workers, nothing is done on one thread.
#[test]
fn alone_nothing_is_done_for_workers(rt: HostRuntime) -> Result<(), Fail> {
    let words = words_of(rt.alloc(), &["diagnose", "m", "c", "--workers", "1"])?;
    let mut shelf = phone(rt.alloc())?;
    let mut sink = MemSink::new(rt.alloc(), 10_000)?;
    let status = run_alone(rt.alloc(), words.as_slice(), &mut shelf, &mut sink);
    assert_eq!(rt; status, None);
    assert_eq!(rt; sink.written(), b"".as_slice());
    Ok(())
}

/// Whoever comes to entry 0 waits until a worker has answered entry 1.
#[derive(Drop)]
struct Held {
    answered: AtomicU64,
    gave_up: AtomicU64,
}

impl Gate for Held {
    fn before(&self, entry: u32) {
        if entry != 0 {
            return;
        }
        for _ in 0..5_000_000 {
            if self.answered.load(SeqCst) > 0 {
                return;
            }
            yield_now();
        }
        self.gave_up.fetch_add(1, SeqCst);
    }

    fn answered(&self, entry: u32) {
        if entry == 1 {
            self.answered.fetch_add(1, SeqCst);
        }
    }
}

const AHEAD: &[u8] =
    b"diag 1\nmodel 6 features 1 constraints\nrequirements 3\nresult explained\ndiagnosis 1\n  2 Basic\nconflict 2\n  1 Camera\n  2 Basic\nchecks 6 predicted 7 wasted 2\nend\n";

/// Two threads are at work at once, and what is written is what one thread writes.
#[test]
fn workers_answer_beside_the_main_thread(rt: HostRuntime) -> Result<(), Fail> {
    let words = words_of(
        rt.alloc(),
        &["diagnose", "m", "c", "--ahead", "3", "--workers", "2"],
    )?;
    let gate = Held {
        answered: AtomicU64::new(0),
        gave_up: AtomicU64::new(0),
    };
    let mut shelf = phone(rt.alloc())?;
    let mut sink = MemSink::new(rt.alloc(), 10_000)?;
    let status = run(
        &rt,
        rt.alloc(),
        words.as_slice(),
        &mut shelf,
        &mut sink,
        &gate,
    );
    assert_eq!(rt; status, Status::Explained);
    assert_eq!(rt; sink.written(), AHEAD);
    assert!(rt; gate.answered.load(SeqCst) > 0 && gate.gave_up.load(SeqCst) == 0);
    Ok(())
}

const LISTED: &[u8] =
    b"diag 1\nmodel 3 features 0 constraints\nrequirements 4\nresult explained\ndiagnosis 2\n  3 !A\n  4 !B\nconflict 2\n  1 A\n  3 !A\nlisting 4 size 4\n  3 4\n  2 3\n  1 4\n  1 2\nchecks 12 predicted ";

#[test]
fn any_number_of_workers_writes_the_same(rt: HostRuntime) -> Result<(), Fail> {
    let mut shelf = MemShelf::new(rt.alloc());
    shelf.set(
        rt.alloc(),
        "m",
        b"features\n\tR\n\t\toptional\n\t\t\tA\n\t\t\tB\n",
    )?;
    shelf.set(rt.alloc(), "c", b"A\nB\n!A\n!B\n")?;
    let mut first = MemSink::new(rt.alloc(), 10_000)?;
    for workers in ["0", "1", "7"] {
        let words = words_of(
            rt.alloc(),
            &[
                "diagnose",
                "m",
                "c",
                "--list",
                "4",
                "--workers",
                workers,
                "--ahead",
                "3",
            ],
        )?;
        let mut sink = MemSink::new(rt.alloc(), 10_000)?;
        let status = run(
            &rt,
            rt.alloc(),
            words.as_slice(),
            &mut shelf,
            &mut sink,
            &OpenGate,
        );
        assert_eq!(rt; status, Status::Explained);
        assert!(rt; sink.written().starts_with(LISTED));
        if workers == "0" {
            first = sink;
        } else {
            assert_eq!(rt; sink.written(), first.written());
        }
    }
    Ok(())
}

/// The first bytes, and then the others so many times.
fn repeated(
    alloc: Global,
    first: &[u8],
    again: &[u8],
    times: usize,
) -> Result<Vec<u8>, AllocError> {
    let mut text = Vec::new(alloc);
    text.extend_from_slice(first)?;
    for _ in 0..times {
        text.extend_from_slice(again)?;
    }
    Ok(text)
}

/// A report that is longer than a piece of 4,096 bytes: all but the first requirement are given up.
#[test]
fn a_long_text_goes_in_pieces(rt: HostRuntime) -> Result<(), Fail> {
    let words = words_of(rt.alloc(), &["diagnose", "m", "c"])?;
    let mut shelf = phone(rt.alloc())?;
    let config = repeated(rt.alloc(), b"GPS\n", b"!GPS\n", 400)?;
    shelf.set(rt.alloc(), "c", config.as_slice())?;
    let mut sink = MemSink::new(rt.alloc(), 10_000)?;
    sink.fail_on(1, 5)?;
    let status = run_alone(rt.alloc(), words.as_slice(), &mut shelf, &mut sink);
    assert_eq!(rt; status, Some(Status::WriteFault));
    assert_eq!(rt; sink.written().len(), 4_101);
    Ok(())
}

#[test]
fn faults_are_told(rt: HostRuntime) -> Result<(), Fail> {
    let words = words_of(rt.alloc(), &["diagnose", "m", "c"])?;
    let mut shelf = phone(rt.alloc())?;
    shelf.fail_on(1)?;
    let mut sink = MemSink::new(rt.alloc(), 10_000)?;
    sink.fail_on(1, 5)?;
    let status = run_alone(rt.alloc(), words.as_slice(), &mut shelf, &mut sink);
    assert_eq!(rt; status, Some(Status::ReadFault));
    assert_eq!(rt; sink.written(), b"read failed configuration\n".as_slice());
    let status = run_alone(rt.alloc(), words.as_slice(), &mut shelf, &mut sink);
    assert_eq!(rt; status, Some(Status::WriteFault));
    assert_eq!(rt;
        sink.written(),
        b"read failed configuration\ndiag ".as_slice()
    );
    Ok(())
}

/// A put that fails, after so many bytes of it, and how many bytes the sink then has.
#[derive(Clone, Copy)]
struct Failing {
    put: u64,
    after: usize,
    written: usize,
}

#[test]
fn a_generated_text_is_put_as_far_as_it_goes(rt: HostRuntime) -> Result<(), Fail> {
    let words = words_of(rt.alloc(), &["generate", "1", "2000", "model"])?;
    let mut shelf = MemShelf::new(rt.alloc());
    let mut whole = MemSink::new(rt.alloc(), 1_000_000)?;
    let status = run_alone(rt.alloc(), words.as_slice(), &mut shelf, &mut whole);
    assert_eq!(rt; status, Some(Status::Generated));
    let rows = [
        Failing {
            put: 0,
            after: 0,
            written: 0,
        },
        Failing {
            put: 0,
            after: 1,
            written: 1,
        },
        Failing {
            put: 0,
            after: 4_095,
            written: 4_095,
        },
        Failing {
            put: 1,
            after: 0,
            written: 4_096,
        },
        Failing {
            put: 1,
            after: 1,
            written: 4_097,
        },
        Failing {
            put: 1,
            after: 10,
            written: 4_106,
        },
        Failing {
            put: 1,
            after: 4_095,
            written: 8_191,
        },
        Failing {
            put: 2,
            after: 0,
            written: 8_192,
        },
        Failing {
            put: 2,
            after: 1,
            written: 8_193,
        },
        Failing {
            put: 2,
            after: 4_095,
            written: 12_287,
        },
    ];
    for row in &rows {
        let mut sink = MemSink::new(rt.alloc(), 1_000_000)?;
        sink.fail_on(row.put, row.after)?;
        let status = run_alone(rt.alloc(), words.as_slice(), &mut shelf, &mut sink);
        assert_eq!(rt; status, Some(Status::WriteFault));
        assert_eq!(rt; sink.written().len(), row.written);
        assert!(rt; whole.written().starts_with(sink.written()));
    }
    Ok(())
}
