// Texts of derivations.
use crate::sources::{query_over, read_over};
use pipes_derivation::{Derivation, print_derivation};
use pipes_query::Query;
use pipes_token::{ReadFault, TextRefusal, TextWhy};
use std::alloc::Global;
use std::test::Fail;

// A query, and what is read of the text over its two sources.
fn read(alloc: Global, text: &str) -> Result<(Query, Result<Derivation, ReadFault>), Fail> {
    let query = query_over(alloc, "a")?;
    let derivation = read_over(alloc, &query, text)?;
    Ok((query, derivation))
}

fn is_read(alloc: Global, text: &str) -> Result<bool, Fail> {
    let (_query, derivation) = read(alloc, text)?;
    Ok(derivation.is_ok())
}

// A text, and what is printed of its derivation.
const PRINTED: [(&str, &str); 5] = [
    ("plan a", "plan a\n"),
    (
        "step filter_merge at top plan filter(true, a)",
        "step filter_merge at top\nplan filter(true, a)\n",
    ),
    (
        "step join_assoc back at 0.1.0 step filter_true at 1 plan union(a, b)",
        "step join_assoc back at 0.1.0\nstep filter_true at 1\nplan union(a, b)\n",
    ),
    (
        "step filter_map back at top with(0<$1)plan a # the end",
        "step filter_map back at top with (0 < $1)\nplan a\n",
    ),
    (
        "step map_merge back at 0 with [$1, -7] [($0 + 1)] plan a",
        "step map_merge back at 0 with [$1, -7] [($0 + 1)]\nplan a\n",
    ),
];

fn prints(alloc: Global, text: &str, want: &str) -> Result<bool, Fail> {
    let (query, derivation) = read(alloc, text)?;
    match derivation {
        Ok(derivation) => {
            let mut out = Vec::new(alloc);
            print_derivation(&query, &derivation, &mut out)?;
            Ok(out.as_slice() == want.as_bytes())
        }
        Err(_) => Ok(false),
    }
}

// How many are printed as they are to be, up to the first that isn't.
fn printed(alloc: Global, rows: &[(&str, &str)]) -> Result<usize, Fail> {
    let mut done = 0_usize;
    for (text, want) in rows {
        if !prints(alloc, text, want)? {
            break;
        }
        done = done.saturating_add(1);
    }
    Ok(done)
}

#[test]
fn printed_as_read(rt: HostRuntime) -> Result<(), Fail> {
    assert_eq!(rt; printed(rt.alloc(), &PRINTED)?, 5);
    Ok(())
}

// A text, and where and why it is refused.
type Refused = (&'static str, u32, u32, TextWhy);

const REFUSED: [Refused; 13] = [
    ("step filter_marge at top plan a", 1, 6, TextWhy::Name),
    ("step filter at top plan a", 1, 6, TextWhy::Name),
    ("step 1 at top plan a", 1, 6, TextWhy::Token),
    ("step filter_merge top plan a", 1, 19, TextWhy::Token),
    ("step filter_merge at\n2 plan a", 2, 1, TextWhy::Range),
    ("step filter_merge at 0.2 plan a", 1, 24, TextWhy::Range),
    ("step filter_merge at top.0 plan a", 1, 25, TextWhy::Token),
    (
        "step filter_merge at top with plan a",
        1,
        31,
        TextWhy::Token,
    ),
    (
        "step map_merge back at top with [$0] plan a",
        1,
        38,
        TextWhy::Token,
    ),
    ("step filter_merge at top", 1, 25, TextWhy::Ended),
    ("plan c", 1, 6, TextWhy::Name),
    ("plan a plan a", 1, 8, TextWhy::Token),
    ("", 1, 1, TextWhy::Ended),
];

fn refuses(alloc: Global, text: &str, line: u32, column: u32, why: TextWhy) -> Result<bool, Fail> {
    let (_query, derivation) = read(alloc, text)?;
    match derivation {
        Err(ReadFault::Text(refusal)) => Ok(refusal == TextRefusal { line, column, why }),
        _ => Ok(false),
    }
}

// How many are refused as they are to be, up to the first that isn't.
fn refused(alloc: Global, rows: &[Refused]) -> Result<usize, Fail> {
    let mut done = 0_usize;
    for (text, line, column, why) in rows {
        if !refuses(alloc, text, *line, *column, *why)? {
            break;
        }
        done = done.saturating_add(1);
    }
    Ok(done)
}

#[test]
fn refusals(rt: HostRuntime) -> Result<(), Fail> {
    assert_eq!(rt; refused(rt.alloc(), &REFUSED)?, 13);
    Ok(())
}

// A path of 32 numbers, and one of 33.
#[test]
fn long_paths(rt: HostRuntime) -> Result<(), Fail> {
    let alloc = rt.alloc();
    let most = ".1".repeat(alloc, 31)?;
    let path = format!(in alloc; "step filter_true at 0{most} plan a")?;
    let long = format!(in alloc; "step filter_true at 0{most}.1 plan a")?;
    assert!(rt; is_read(alloc, path.as_str())?);
    assert!(rt; refuses(alloc, long.as_str(), 1, 85, TextWhy::Many)?);
    Ok(())
}

// As many steps as there may be, and one more.
#[test]
fn many_steps(rt: HostRuntime) -> Result<(), Fail> {
    let alloc = rt.alloc();
    let most = "step filter_true at top\n".repeat(alloc, 256)?;
    let steps = format!(in alloc; "{most}plan a")?;
    let more = format!(in alloc; "{most}step filter_true at top plan a")?;
    assert!(rt; is_read(alloc, steps.as_str())?);
    assert!(rt; refuses(alloc, more.as_str(), 257, 1, TextWhy::Many)?);
    Ok(())
}
