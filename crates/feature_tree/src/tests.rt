//! A model grown by hand, and each call once.
use super::*;
use std::test::Fail;

// R with a mandatory child A and an optional child B, and the requirement that B is there.
#[test]
fn grows_a_model(rt: HostRuntime) -> Result<(), Fail> {
    let alloc = rt.alloc();
    let root = Text::from_slice(alloc, b"R")?;
    let first = Text::from_slice(alloc, b"A")?;
    let mut second = Text::new(alloc);
    second.push(b'B')?;
    let mut tree = Tree::new(alloc, root)?;
    assert_eq!(rt;
        tree.add_group(alloc, 0, GroupKind::Range, 1, None, first)?,
        1
    );
    assert_eq!(rt; tree.add_child(alloc, 0, second)?, 2);
    let mut constraints = Row::new(alloc);
    constraints.push(Formula::Not(Boxed::new(alloc, Formula::Name(1))?))?;
    let model = tree.into_model(constraints);
    assert_eq!(rt; model.features.len(), 3);
    assert!(rt; model.is_product(&[true, false, true]));
    assert!(rt; !model.is_product(&[true, true, false]));
    assert!(rt; !model.is_product(&[true, false, false]));
    Ok(())
}

#[test]
fn reads_formulas(rt: HostRuntime) -> Result<(), Fail> {
    let alloc = rt.alloc();
    let mut parts = Row::new(alloc);
    parts.push(Formula::Name(0))?;
    parts.push(Formula::Not(Boxed::new(alloc, Formula::Name(1))?))?;
    let all = Formula::All(parts);
    assert!(rt; all.holds(&[true, false]));
    assert!(rt; !all.holds(&[true, true]));
    Ok(())
}

// (a => !b) <=> (b | a), where a is feature 2 and b is feature 1.
#[test]
fn numbers_names(rt: HostRuntime) -> Result<(), Fail> {
    let alloc = rt.alloc();
    let negation = Formula::Not(Boxed::new(alloc, Formula::Name(1))?);
    let mut negations = Row::new(alloc);
    negations.push(negation)?;
    let all = Formula::All(negations);
    let left = Formula::Implies(
        Boxed::new(alloc, Formula::Name(0))?,
        Boxed::new(alloc, all)?,
    );
    let mut parts = Row::new(alloc);
    parts.push(Formula::Name(1))?;
    parts.push(Formula::Name(0))?;
    let right = Formula::Any(parts);
    let formula = Formula::Same(Boxed::new(alloc, left)?, Boxed::new(alloc, right)?);
    let numbered = formula.numbered(alloc, &[2, 1])?;
    assert!(rt; numbered.holds(&[false, false, true]));
    assert!(rt; numbered.holds(&[true, true, false]));
    assert!(rt; !numbered.holds(&[true, true, true]));
    assert!(rt; !numbered.holds(&[true, false, false]));
    Ok(())
}

#[test]
fn names_are_their_bytes(rt: HostRuntime) -> Result<(), Fail> {
    let alloc = rt.alloc();
    let name = Text::from_slice(alloc, b"A1")?;
    let mut same = Text::new(alloc);
    same.push(b'A')?;
    same.push(b'1')?;
    let other = Text::from_slice(alloc, b"A2")?;
    assert!(rt; name == same);
    assert!(rt; name != other);
    assert_eq!(rt; name.as_slice(), b"A1".as_slice());
    Ok(())
}

#[test]
fn rows_are_lists(rt: HostRuntime) -> Result<(), Fail> {
    let mut numbers: Numbers = Row::new(rt.alloc());
    numbers.push(7)?;
    numbers.push(8)?;
    assert_eq!(rt; numbers.len(), 2);
    *numbers.get_mut(1) = 9;
    assert_eq!(rt; *numbers.get(0), 7);
    assert_eq!(rt; numbers.as_slice(), [7, 9].as_slice());
    Ok(())
}
