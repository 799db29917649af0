//! Runs that were worked by hand: how each ends, and what it writes.
use super::*;

/// The model `m`, the configuration `c`, the words of the command line, and how the run ends with which text.
#[derive(Clone, Copy)]
struct Row<'a> {
    what: &'static str,
    model: &'a [u8],
    config: &'a [u8],
    words: &'a [&'a str],
    status: Status,
    text: &'a [u8],
}

/// The run ends as the row says, with its text and no other.
fn is_as_told(alloc: Global, row: &Row<'_>) -> Result<bool, AllocError> {
    let words = words_of(alloc, row.words)?;
    let mut shelf = MemShelf::new(alloc);
    shelf.set(alloc, "m", row.model)?;
    shelf.set(alloc, "c", row.config)?;
    let mut sink = MemSink::new(alloc, 10_000)?;
    let status = run_alone(alloc, words.as_slice(), &mut shelf, &mut sink);
    Ok(status == Some(row.status) && sink.written() == row.text)
}

const PLAIN: &[u8] = b"features\n\tR\n\t\toptional\n\t\t\tA\n\t\t\tB\n";

const THREE: &[u8] = b"features\n\tR\n\t\toptional\n\t\t\tA\n\t\t\tB\n\t\t\tC\n";

const SIMPLE: &[u8] = b"features\n\tR\n\t\tmandatory\n\t\t\tA\n\t\toptional\n\t\t\tB\n";

/// A search that begins with `A` false has to learn from it.
const GUESS: &[u8] =
    b"features\n\tR\n\t\toptional\n\t\t\tA\n\t\t\tB\nconstraints\n\tA | B\n\tA | !B\n";

const SQUARE: &[u8] =
    b"features\n\tR\n\t\toptional\n\t\t\tA\n\t\t\tB\nconstraints\n\tA | B\n\tA | !B\n\t!A | B\n\t!A | !B\n";

const CUBE: &[u8] =
    b"features\n\tR\n\t\toptional\n\t\t\tA\n\t\t\tB\n\t\t\tC\nconstraints\n\tA | B | C\n\tA | B | !C\n\tA | !B | C\n\tA | !B | !C\n\t!A | B | C\n\t!A | B | !C\n\t!A | !B | C\n\t!A | !B | !C\n";

/// The first model with every kind of line that is passed over, each ended by two bytes.
const DECORATED: &[u8] =
    b"namespace Phones\r\ninclude\r\n\tBoolean.group-cardinality\r\n/* two\r\n   lines */\r\nfeatures\r\n\t\"Phone\" {abstract}\r\n        \tmandatory  // eight blanks, then a tab\r\n\t\t\tScreen {abstract true, note 'A.B. // no comment'}\r\n\t\t\t\talternative\r\n\t\t\t\t\tBasic {price 12.5, tags [small, 'old'],\r\n   more {deep 1}}\r\n\t\t\t\t\tBoolean Colour\r\n\t\toptional\r\n\t\t\tCamera {constraint Camera => Colour}\r\n\t\t\tGPS\r\n";

/// Against the first model: the camera wants the other screen.
const FIRST: &[u8] = b"Camera\nBasic\nGPS\n";

/// Configurations that no product meets.
const ADVICE: [Row<'static>; 17] = [
    Row {
        what: "one choice is given up",
        model: PHONE,
        config: FIRST,
        words: &["diagnose", "m", "c"],
        status: Status::Explained,
        text: b"diag 1\nmodel 6 features 1 constraints\nrequirements 3\nresult explained\ndiagnosis 1\n  2 Basic\nconflict 2\n  1 Camera\n  2 Basic\nchecks 6 predicted 0 wasted 0\nend\n",
    },
    Row {
        what: "all minimal diagnoses",
        model: PHONE,
        config: FIRST,
        words: &["diagnose", "m", "c", "--list", "3"],
        status: Status::Explained,
        text: b"diag 1\nmodel 6 features 1 constraints\nrequirements 3\nresult explained\ndiagnosis 1\n  2 Basic\nconflict 2\n  1 Camera\n  2 Basic\nlisting 2 size 3\n  2\n  1\nchecks 7 predicted 0 wasted 0\nend\n",
    },
    Row {
        what: "no diagnosis of size none",
        model: PHONE,
        config: FIRST,
        words: &["diagnose", "m", "c", "--list", "0"],
        status: Status::Explained,
        text: b"diag 1\nmodel 6 features 1 constraints\nrequirements 3\nresult explained\ndiagnosis 1\n  2 Basic\nconflict 2\n  1 Camera\n  2 Basic\nlisting 0 size 0\nchecks 6 predicted 0 wasted 0\nend\n",
    },
    Row {
        what: "checks are predicted",
        model: PHONE,
        config: FIRST,
        words: &["diagnose", "m", "c", "--ahead", "3"],
        status: Status::Explained,
        text: b"diag 1\nmodel 6 features 1 constraints\nrequirements 3\nresult explained\ndiagnosis 1\n  2 Basic\nconflict 2\n  1 Camera\n  2 Basic\nchecks 6 predicted 7 wasted 2\nend\n",
    },
    Row {
        what: "the first of two stands",
        model: SIMPLE,
        config: b"B\n!B\n",
        words: &["diagnose", "m", "c"],
        status: Status::Explained,
        text: b"diag 1\nmodel 3 features 0 constraints\nrequirements 2\nresult explained\ndiagnosis 1\n  2 !B\nconflict 2\n  1 B\n  2 !B\nchecks 4 predicted 0 wasted 0\nend\n",
    },
    Row {
        what: "no last line feed",
        model: b"features\n\tR\n\t\tmandatory\n\t\t\tA\n\t\toptional\n\t\t\tB",
        config: b"B\n!B\n",
        words: &["diagnose", "m", "c"],
        status: Status::Explained,
        text: b"diag 1\nmodel 3 features 0 constraints\nrequirements 2\nresult explained\ndiagnosis 1\n  2 !B\nconflict 2\n  1 B\n  2 !B\nchecks 4 predicted 0 wasted 0\nend\n",
    },
    Row {
        what: "the first can't stand",
        model: SIMPLE,
        config: b"!A\nB\n",
        words: &["diagnose", "m", "c"],
        status: Status::Explained,
        text: b"diag 1\nmodel 3 features 0 constraints\nrequirements 2\nresult explained\ndiagnosis 1\n  1 !A\nconflict 1\n  1 !A\nchecks 4 predicted 0 wasted 0\nend\n",
    },
    Row {
        what: "never without the root",
        model: PHONE,
        config: b"!Phone\n",
        words: &["diagnose", "m", "c"],
        status: Status::Explained,
        text: b"diag 1\nmodel 6 features 1 constraints\nrequirements 1\nresult explained\ndiagnosis 1\n  1 !Phone\nconflict 1\n  1 !Phone\nchecks 2 predicted 0 wasted 0\nend\n",
    },
    Row {
        what: "one wish twice",
        model: PHONE,
        config: b"Camera\n!Camera\nCamera\n",
        words: &["diagnose", "m", "c", "--list", "3"],
        status: Status::Explained,
        text: b"diag 1\nmodel 6 features 1 constraints\nrequirements 3\nresult explained\ndiagnosis 1\n  2 !Camera\nconflict 2\n  1 Camera\n  2 !Camera\nlisting 2 size 3\n  2\n  1 3\nchecks 8 predicted 0 wasted 0\nend\n",
    },
    Row {
        what: "two conflicts",
        model: PLAIN,
        config: b"A\nB\n!A\n!B\n",
        words: &["diagnose", "m", "c"],
        status: Status::Explained,
        text: b"diag 1\nmodel 3 features 0 constraints\nrequirements 4\nresult explained\ndiagnosis 2\n  3 !A\n  4 !B\nconflict 2\n  1 A\n  3 !A\nchecks 7 predicted 0 wasted 0\nend\n",
    },
    Row {
        what: "two conflicts, listed",
        model: PLAIN,
        config: b"A\nB\n!A\n!B\n",
        words: &["diagnose", "m", "c", "--list", "4"],
        status: Status::Explained,
        text: b"diag 1\nmodel 3 features 0 constraints\nrequirements 4\nresult explained\ndiagnosis 2\n  3 !A\n  4 !B\nconflict 2\n  1 A\n  3 !A\nlisting 4 size 4\n  3 4\n  2 3\n  1 4\n  1 2\nchecks 12 predicted 0 wasted 0\nend\n",
    },
    Row {
        what: "at most three of four",
        model: b"features\n\tR\n\t\t[2..3]\n\t\t\tA\n\t\t\tB\n\t\t\tC\n\t\t\tD\n",
        config: b"A\nB\nC\nD\n",
        words: &["diagnose", "m", "c"],
        status: Status::Explained,
        text: b"diag 1\nmodel 5 features 0 constraints\nrequirements 4\nresult explained\ndiagnosis 1\n  4 D\nconflict 4\n  1 A\n  2 B\n  3 C\n  4 D\nchecks 8 predicted 0 wasted 0\nend\n",
    },
    Row {
        what: "one of three",
        model: b"features\n\tR\n\t\talternative\n\t\t\tA\n\t\t\tB\n\t\t\tC\n",
        config: b"A\nB\nC\n",
        words: &["diagnose", "m", "c", "--list", "3"],
        status: Status::Explained,
        text: b"diag 1\nmodel 4 features 0 constraints\nrequirements 3\nresult explained\ndiagnosis 2\n  2 B\n  3 C\nconflict 2\n  1 A\n  2 B\nlisting 3 size 3\n  2 3\n  1 3\n  1 2\nchecks 8 predicted 0 wasted 0\nend\n",
    },
    Row {
        what: "a chain from the left",
        model: THREE,
        config: b"A => B => C\n!A\n!C\n",
        words: &["diagnose", "m", "c"],
        status: Status::Explained,
        text: b"diag 1\nmodel 4 features 0 constraints\nrequirements 3\nresult explained\ndiagnosis 1\n  3 !C\nconflict 3\n  1 A => B => C\n  2 !A\n  3 !C\nchecks 6 predicted 0 wasted 0\nend\n",
    },
    Row {
        what: "every kind of line",
        model: DECORATED,
        config: FIRST,
        words: &["diagnose", "m", "c"],
        status: Status::Explained,
        text: b"diag 1\nmodel 6 features 1 constraints\nrequirements 3\nresult explained\ndiagnosis 1\n  2 Basic\nconflict 2\n  1 Camera\n  2 Basic\nchecks 6 predicted 0 wasted 0\nend\n",
    },
    Row {
        what: "tiers and a must",
        model: PHONE,
        config: b"version 2\nmust Basic\ntier 2\nGPS\ntier 1\nCamera\nColour\n",
        words: &["diagnose", "m", "c"],
        status: Status::Explained,
        text: b"diag 1\nmodel 6 features 1 constraints\nrequirements 3\nmusts 1\nresult explained\ndiagnosis 2\n  1 Camera\n  2 Colour\nconflict 1\n  1 Camera\nchecks 6 predicted 0 wasted 0\nend\n",
    },
    Row {
        what: "musts against each other",
        model: PHONE,
        config: b"version 2\nmust Camera\nmust GPS\nmust Basic\nScreen\n",
        words: &["diagnose", "m", "c"],
        status: Status::Background,
        text: b"diag 1\nmodel 6 features 1 constraints\nrequirements 1\nmusts 3\nresult background\nmust diagnosis 1\n  3 Basic\nmust conflict 2\n  1 Camera\n  3 Basic\nchecks 8 predicted 0 wasted 0\nend\n",
    },
];

#[test]
fn the_advice_is_written(rt: HostRuntime) -> Result<(), Fail> {
    for row in &ADVICE {
        let what = row.what;
        assert!(rt; is_as_told(rt.alloc(), row)?, "{what}");
    }
    Ok(())
}

/// Runs without requirements.
const MODELS: [Row<'static>; 19] = [
    Row {
        what: "nothing is required",
        model: PHONE,
        config: b"",
        words: &["diagnose", "m", "c"],
        status: Status::Consistent,
        text: b"diag 1\nmodel 6 features 1 constraints\nrequirements 0\nresult consistent\nchecks 1 predicted 0 wasted 0\nend\n",
    },
    Row {
        what: "nothing is required of three",
        model: SIMPLE,
        config: b"",
        words: &["diagnose", "m", "c"],
        status: Status::Consistent,
        text: b"diag 1\nmodel 3 features 0 constraints\nrequirements 0\nresult consistent\nchecks 1 predicted 0 wasted 0\nend\n",
    },
    Row {
        what: "the root forbids itself",
        model: b"features\n\tPhone\n\t\tmandatory\n\t\t\tScreen\n\t\t\t\talternative\n\t\t\t\t\tBasic\n\t\t\t\t\tColour\n\t\toptional\n\t\t\tCamera\n\t\t\tGPS\nconstraints\n\tPhone => !Phone\n",
        config: b"",
        words: &["diagnose", "m", "c"],
        status: Status::Background,
        text: b"diag 1\nmodel 6 features 1 constraints\nrequirements 0\nresult background\nchecks 1 predicted 0 wasted 0\nend\n",
    },
    Row {
        what: "five of four",
        model: b"features\n\tR\n\t\t[5..5]\n\t\t\tA\n\t\t\tB\n\t\t\tC\n\t\t\tD\n",
        config: b"",
        words: &["diagnose", "m", "c"],
        status: Status::Background,
        text: b"diag 1\nmodel 5 features 0 constraints\nrequirements 0\nresult background\nchecks 1 predicted 0 wasted 0\nend\n",
    },
    Row {
        what: "one guess is too many",
        model: GUESS,
        config: b"",
        words: &["diagnose", "m", "c", "--allowance", "0"],
        status: Status::Limit,
        text: b"diag 1\nmodel 3 features 2 constraints\nrequirements 0\nresult limit\nlimit in all at none\nchecks 1 predicted 0 wasted 0\nend\n",
    },
    Row {
        what: "one guess",
        model: GUESS,
        config: b"",
        words: &["diagnose", "m", "c", "--allowance", "1"],
        status: Status::Consistent,
        text: b"diag 1\nmodel 3 features 2 constraints\nrequirements 0\nresult consistent\nchecks 1 predicted 0 wasted 0\nend\n",
    },
    Row {
        what: "more than is ever learned",
        model: GUESS,
        config: b"",
        words: &["diagnose", "m", "c", "--allowance", "31"],
        status: Status::Consistent,
        text: b"diag 1\nmodel 3 features 2 constraints\nrequirements 0\nresult consistent\nchecks 1 predicted 0 wasted 0\nend\n",
    },
    Row {
        what: "the other value first",
        model: GUESS,
        config: b"",
        words: &["diagnose", "m", "c", "--allowance", "0", "--rungs", "1"],
        status: Status::Consistent,
        text: b"diag 1\nmodel 3 features 2 constraints\nrequirements 0\nresult consistent\nchecks 1 predicted 0 wasted 0\nend\n",
    },
    Row {
        what: "a square needs one",
        model: SQUARE,
        config: b"",
        words: &["diagnose", "m", "c", "--allowance", "1", "--certify"],
        status: Status::Background,
        text: b"diag 1\nmodel 3 features 4 constraints\nrequirements 0\nresult background\nchecks 1 predicted 0 wasted 0\nend\ncertificate 1\nbackground\nlearn 2\nclash\nend\n",
    },
    Row {
        what: "no certificate at a limit",
        model: SQUARE,
        config: b"",
        words: &["diagnose", "m", "c", "--allowance", "0", "--certify"],
        status: Status::Limit,
        text: b"diag 1\nmodel 3 features 4 constraints\nrequirements 0\nresult limit\nlimit in all at none\nchecks 1 predicted 0 wasted 0\nend\n",
    },
    Row {
        what: "ten times nothing",
        model: SQUARE,
        config: b"",
        words: &["diagnose", "m", "c", "--allowance", "0", "--rungs", "4"],
        status: Status::Limit,
        text: b"diag 1\nmodel 3 features 4 constraints\nrequirements 0\nresult limit\nlimit in all at none\nchecks 1 predicted 0 wasted 0\nend\n",
    },
    Row {
        what: "a cube with none",
        model: CUBE,
        config: b"",
        words: &["diagnose", "m", "c", "--allowance", "0"],
        status: Status::Limit,
        text: b"diag 1\nmodel 4 features 8 constraints\nrequirements 0\nresult limit\nlimit in all at none\nchecks 1 predicted 0 wasted 0\nend\n",
    },
    Row {
        what: "a cube with one",
        model: CUBE,
        config: b"",
        words: &["diagnose", "m", "c", "--allowance", "1"],
        status: Status::Limit,
        text: b"diag 1\nmodel 4 features 8 constraints\nrequirements 0\nresult limit\nlimit in all at none\nchecks 1 predicted 0 wasted 0\nend\n",
    },
    Row {
        what: "a cube with two",
        model: CUBE,
        config: b"",
        words: &["diagnose", "m", "c", "--allowance", "2"],
        status: Status::Limit,
        text: b"diag 1\nmodel 4 features 8 constraints\nrequirements 0\nresult limit\nlimit in all at none\nchecks 1 predicted 0 wasted 0\nend\n",
    },
    Row {
        what: "a cube needs three",
        model: CUBE,
        config: b"",
        words: &["diagnose", "m", "c", "--allowance", "3"],
        status: Status::Background,
        text: b"diag 1\nmodel 4 features 8 constraints\nrequirements 0\nresult background\nchecks 1 predicted 0 wasted 0\nend\n",
    },
    Row {
        what: "a cube in two attempts",
        model: CUBE,
        config: b"",
        words: &[
            "diagnose",
            "m",
            "c",
            "--allowance",
            "1",
            "--rungs",
            "1",
            "--certify",
        ],
        status: Status::Background,
        text: b"diag 1\nmodel 4 features 8 constraints\nrequirements 0\nresult background\nchecks 1 predicted 0 wasted 0\nend\ncertificate 1\nbackground\nlearn -2 -3\nlearn -2\nlearn -3\nclash\nend\n",
    },
    Row {
        what: "a model is drawn",
        model: b"",
        config: b"",
        words: &["generate", "1", "4", "model"],
        status: Status::Generated,
        text: b"features\n\tF0\n\t\toptional\n\t\t\tF1\n\t\t\tF2\n\t\t\tF3\n\t\t\tF4\nconstraints\n\tF3 => F2\n",
    },
    Row {
        what: "a configuration is drawn",
        model: b"",
        config: b"",
        words: &["generate", "1", "4", "config"],
        status: Status::Generated,
        text: b"F3\n",
    },
    Row {
        what: "a drawn report",
        model: b"",
        config: b"",
        words: &["generate", "1", "4", "report"],
        status: Status::Generated,
        text: b"diag 1\nmodel 5 features 1 constraints\nrequirements 1\nresult consistent\nchecks 1 predicted 0 wasted 0\nend\n",
    },
];

#[test]
fn a_model_alone_is_judged(rt: HostRuntime) -> Result<(), Fail> {
    for row in &MODELS {
        let what = row.what;
        assert!(rt; is_as_told(rt.alloc(), row)?, "{what}");
    }
    Ok(())
}

/// Files that can't be read.
const REFUSED: [Row<'static>; 10] = [
    Row {
        what: "more at least than at most",
        model: b"features\n\tR\n\t\t[3..2]\n\t\t\tA\n\t\t\tB\n",
        config: b"",
        words: &["diagnose", "m", "c"],
        status: Status::BadModel,
        text: b"model refused line 3 BadGroup\n",
    },
    Row {
        what: "an open brace",
        model: b"features\n\tR {abstract",
        config: FIRST,
        words: &["diagnose", "m", "c"],
        status: Status::BadModel,
        text: b"model refused line 2 OpenBracket\n",
    },
    Row {
        what: "a feature with a size",
        model: b"features\n\tPhone\n\t\tmandatory\n\t\t\tInteger Size\n",
        config: FIRST,
        words: &["diagnose", "m", "c"],
        status: Status::BadModel,
        text: b"model refused line 4 Unsupported\n",
    },
    Row {
        what: "a composed model",
        model: b"imports\nfeatures\n\tR\n",
        config: FIRST,
        words: &["diagnose", "m", "c"],
        status: Status::BadModel,
        text: b"model refused line 1 Unsupported\n",
    },
    Row {
        what: "no feature of the model",
        model: SIMPLE,
        config: b"C\n",
        words: &["diagnose", "m", "c"],
        status: Status::BadConfig,
        text: b"configuration refused line 1 Unknown\n",
    },
    Row {
        what: "a misspelt feature",
        model: PHONE,
        config: b"Camra\n",
        words: &["diagnose", "m", "c"],
        status: Status::BadConfig,
        text: b"configuration refused line 1 Unknown\n",
    },
    Row {
        what: "half a formula",
        model: PHONE,
        config: b"Camera &\n",
        words: &["diagnose", "m", "c"],
        status: Status::BadConfig,
        text: b"configuration refused line 1 BadFormula\n",
    },
    Row {
        what: "a comparison",
        model: PHONE,
        config: b"Camera > 3\n",
        words: &["diagnose", "m", "c"],
        status: Status::BadConfig,
        text: b"configuration refused line 1 Unsupported\n",
    },
    Row {
        what: "no tier so low",
        model: PHONE,
        config: b"version 2\ntier 0\n",
        words: &["diagnose", "m", "c"],
        status: Status::BadConfig,
        text: b"configuration refused line 2 BadTier\n",
    },
    Row {
        what: "a version to come",
        model: PHONE,
        config: b"version 3\n",
        words: &["diagnose", "m", "c"],
        status: Status::BadConfig,
        text: b"configuration refused line 1 Unsupported\n",
    },
];

#[test]
fn files_are_refused(rt: HostRuntime) -> Result<(), Fail> {
    for row in &REFUSED {
        let what = row.what;
        assert!(rt; is_as_told(rt.alloc(), row)?, "{what}");
    }
    Ok(())
}

/// Words that aren't in the grammar.
const MISSPELT: [&[&str]; 8] = [
    &[],
    &["diagnose", "m"],
    &["diagnose", "m", "c", "--workers", "65"],
    &["diagnose", "m", "c", "--ahead", "3", "--ahead", "3"],
    &["diagnose", "m", "c", "--ahead=3"],
    &["diagnose", "m", "c", "--list", "03"],
    &["diagnose", "-m", "c"],
    &["generate", "1", "0", "model"],
];

#[test]
fn words_are_refused(rt: HostRuntime) -> Result<(), Fail> {
    for words in MISSPELT {
        let row = Row {
            what: "words",
            model: PHONE,
            config: FIRST,
            words,
            status: Status::BadWords,
            text: b"words refused\n",
        };
        let count = words.len();
        assert!(rt; is_as_told(rt.alloc(), &row)?, "{count} words");
    }
    Ok(())
}

#[test]
fn requirements_are_counted(rt: HostRuntime) -> Result<(), Fail> {
    let most = repeated(rt.alloc(), b"", b"R\n", 4_096)?;
    let over = repeated(rt.alloc(), b"R\n", b"R\n", 4_096)?;
    let rows = [
        Row {
            what: "as many requirements as there may be",
            model: b"features\n\tR\n",
            config: most.as_slice(),
            words: &["diagnose", "m", "c"],
            status: Status::Consistent,
            text: b"diag 1\nmodel 1 features 0 constraints\nrequirements 4096\nresult consistent\nchecks 1 predicted 0 wasted 0\nend\n",
        },
        Row {
            what: "one requirement more",
            model: b"features\n\tR\n",
            config: over.as_slice(),
            words: &["diagnose", "m", "c"],
            status: Status::BadConfig,
            text: b"configuration refused line 4097 TooMany\n",
        },
    ];
    for row in &rows {
        let what = row.what;
        assert!(rt; is_as_told(rt.alloc(), row)?, "{what}");
    }
    Ok(())
}

#[test]
fn formulas_are_only_so_high(rt: HostRuntime) -> Result<(), Fail> {
    let mut high = repeated(rt.alloc(), b"", b"!", 199)?;
    high.extend_from_slice(b"Camera\n")?;
    let higher = repeated(rt.alloc(), b"!", high.as_slice(), 1)?;
    let rows = [
        Row {
            what: "as high as a formula may be",
            model: PHONE,
            config: high.as_slice(),
            words: &["diagnose", "m", "c"],
            status: Status::Consistent,
            text: b"diag 1\nmodel 6 features 1 constraints\nrequirements 1\nresult consistent\nchecks 1 predicted 0 wasted 0\nend\n",
        },
        Row {
            what: "a formula one higher",
            model: PHONE,
            config: higher.as_slice(),
            words: &["diagnose", "m", "c"],
            status: Status::BadConfig,
            text: b"configuration refused line 1 TooDeep\n",
        },
    ];
    for row in &rows {
        let what = row.what;
        assert!(rt; is_as_told(rt.alloc(), row)?, "{what}");
    }
    Ok(())
}

/// A root with 2,000 children of which 1,000 have to be chosen.
fn wide_model(alloc: Global) -> Result<Vec<u8>, AllocError> {
    let mut text = Vec::new(alloc);
    text.extend_from_slice(b"features\n\tR\n\t\t[1000..1000]\n")?;
    for number in 0..2_000 {
        let line = format!(in alloc; "\t\t\tA{number}\n")?;
        text.extend_from_slice(line.as_bytes())?;
    }
    Ok(text)
}

#[test]
fn problems_are_only_so_large(rt: HostRuntime) -> Result<(), Fail> {
    let wide = wide_model(rt.alloc())?;
    let row = Row {
        what: "too many variables",
        model: wide.as_slice(),
        config: b"",
        words: &["diagnose", "m", "c"],
        status: Status::TooLarge,
        text: b"problem refused variables 1503501 limit 1000000\n",
    };
    assert!(rt; is_as_told(rt.alloc(), &row)?);
    Ok(())
}

const DERIVED: &[u8] =
    b"diag 1\nmodel 3 features 4 constraints\nrequirements 0\nresult background\nchecks 1 predicted 0 wasted 0\nend\ncertificate 1\nbackground\nlearn 2\nclash\nend\n";

const MISTAKEN: &[u8] =
    b"diag 1\nmodel 3 features 4 constraints\nrequirements 0\nresult background\nchecks 1 predicted 0 wasted 0\nend\ncertificate 1\nbackground\nlearn -1\nclash\nend\n";

/// The lines before a certificate aren't looked at, but they count.
#[test]
fn a_derivation_is_judged(rt: HostRuntime) -> Result<(), Fail> {
    let mut shelf = MemShelf::new(rt.alloc());
    shelf.set(rt.alloc(), "m", SQUARE)?;
    shelf.set(rt.alloc(), "c", b"")?;
    let words = words_of(rt.alloc(), &["verify", "m", "c", "t"])?;
    for (status, certificate, text) in [
        (
            Status::Verified,
            DERIVED,
            b"verified background\n".as_slice(),
        ),
        (
            Status::Rejected,
            MISTAKEN,
            b"rejected line 9 NotConsequence\n".as_slice(),
        ),
    ] {
        shelf.set(rt.alloc(), "t", certificate)?;
        let mut sink = MemSink::new(rt.alloc(), 100)?;
        let end = run_alone(rt.alloc(), words.as_slice(), &mut shelf, &mut sink);
        assert_eq!(rt; end, Some(status));
        assert_eq!(rt; sink.written(), text);
    }
    Ok(())
}

/// A file that isn't there, and a sink that takes three bytes.
#[test]
fn faults_end_a_run(rt: HostRuntime) -> Result<(), Fail> {
    let words = words_of(rt.alloc(), &["diagnose", "m", "c"])?;
    let mut shelf = MemShelf::new(rt.alloc());
    let mut sink = MemSink::new(rt.alloc(), 100)?;
    let status = run_alone(rt.alloc(), words.as_slice(), &mut shelf, &mut sink);
    assert_eq!(rt; status, Some(Status::ReadFault));
    assert_eq!(rt; sink.written(), b"read failed model\n".as_slice());
    shelf.set(rt.alloc(), "m", SIMPLE)?;
    shelf.set(rt.alloc(), "c", b"B\n!B\n")?;
    let mut sink = MemSink::new(rt.alloc(), 10_000)?;
    sink.fail_on(0, 3)?;
    let status = run_alone(rt.alloc(), words.as_slice(), &mut shelf, &mut sink);
    assert_eq!(rt; status, Some(Status::WriteFault));
    assert_eq!(rt; sink.written(), b"dia".as_slice());
    Ok(())
}
