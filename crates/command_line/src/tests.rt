//! Reading words, on the happy path.
use super::*;
use std::alloc::{AllocError, Global};
use std::test::Fail;

fn words_of(alloc: Global, words: &[&str]) -> Result<Vec<String>, AllocError> {
    let mut all = Vec::new(alloc);
    for word in words {
        all.push(String::from_str(alloc, word)?)?;
    }
    Ok(all)
}

#[test]
fn words_are_read(rt: HostRuntime) -> Result<(), Fail> {
    let words = words_of(
        rt.alloc(),
        &[
            "diagnose",
            "m",
            "c",
            "--rungs",
            "2",
            "--certify",
            "--workers",
            "3",
            "--allowance",
            "70",
        ],
    )?;
    let command = read_words(words.as_slice());
    let said = Command::Diagnose {
        model: "m",
        config: "c",
        workers: 3,
        ahead: 0,
        allowance: 70,
        rungs: 2,
        list: None,
        certify: true,
    };
    assert_eq!(rt; command, Some(said));
    assert_eq!(rt; Status::TooLarge.code(), 67);
    Ok(())
}
