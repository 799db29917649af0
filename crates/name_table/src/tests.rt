//! Names that begin alike, each with the number that it was put in with.
use crate::{Names, Seed};
use std::alloc::AllocError;

/// The empty name begins all of them. Two are longer than a machine word, and differ in their last byte alone.
const NAMES: [(&[u8], u32); 8] = [
    (b"", 9),
    (b"a", 3),
    (b"ab", 0),
    (b"abc", 4_294_967_295),
    (b"abd", 3),
    (b"ba", 1),
    (b"Area_of_the_engine_1", 7),
    (b"Area_of_the_engine_2", 8),
];

#[test]
fn finds_names_that_begin_alike(rt: HostRuntime) -> Result<(), AllocError> {
    let mut seed = Seed::new();
    seed.feed(b"features\n\tArea\n");
    let mut names = Names::new(rt.alloc(), seed);
    assert!(&rt; names.len() == 0);
    for (name, number) in NAMES {
        let before = names.get(name);
        assert!(&rt; before.is_none());
        names.insert(name, number)?;
    }
    for (name, number) in NAMES {
        assert!(&rt; names.get(name) == Some(number));
    }
    assert!(&rt; names.len() == 8);
    assert!(&rt; names.get(b"Area_of_the_engine_").is_none());
    assert!(&rt; names.get(b"Area_of_the_engine_11").is_none());
    assert!(&rt; names.get(b"A").is_none());
    Ok(())
}
