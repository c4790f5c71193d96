//! Causes, and sources that are long or are read where memory is refused.

ghost use Rattle.std.specs.Prelude.{◌<◌};

use pb_source::{SourceCause, SourceFault, TokenKind, lex};
use std::alloc::Global;
use std::test::Fail;

/// A cause, its number and its name.
#[derive(Clone, Copy)]
struct Named {
    cause: SourceCause,
    number: u8,
    name: &'static str,
}

const CAUSES: &[Named] = &[
    Named {
        cause: SourceCause::SourceTooLarge,
        number: 50,
        name: "SourceTooLarge",
    },
    Named {
        cause: SourceCause::BadToken,
        number: 62,
        name: "BadToken",
    },
    Named {
        cause: SourceCause::Memory,
        number: 70,
        name: "Memory",
    },
];

#[test]
fn causes(rt: HostRuntime) -> Result<(), Fail> {
    for named in CAUSES {
        assert!(rt; named.cause.number() == named.number && named.cause.name() == named.name);
    }
    let fault = SourceFault {
        byte: 7,
        cause: SourceCause::OpenText,
    };
    let line = format!(in rt.alloc(); "{fault}")?;
    assert_eq!(rt; line.as_str(), "OpenText at byte 7");
    Ok(())
}

/// A word this many times over.
fn repeated(alloc: Global, word: &str, times: u32) -> Result<String, Fail> {
    let mut text = String::new(alloc);
    for _ in 0..times {
        text.push_str(word)?;
    }
    Ok(text)
}

/// How many tokens the source has.
fn count(alloc: Global, source: &str) -> Result<usize, Fail> {
    Ok(lex(alloc, source)?.len())
}

#[test]
fn long_sources(rt: HostRuntime) -> Result<(), Fail> {
    let alloc = rt.alloc();
    let signs = repeated(alloc, ";", 1_000_000)?;
    assert_eq!(rt; count(alloc, &signs)?, 1_000_000);
    let comments = repeated(alloc, "/**///\n", 500_000)?;
    assert_eq!(rt; count(alloc, &comments)?, 0);
    let mut text = repeated(alloc, "'", 1)?;
    text.push_str(&repeated(alloc, "\\'", 5_000_000)?)?;
    assert!(rt; lex(alloc, &text).is_err());
    text.push('\'')?;
    assert_eq!(rt; count(alloc, &text)?, 1);
    Ok(())
}

/// Where an allocation is refused, as by `.ci/allocations`, that is reported at byte 0.
#[test]
fn allocations(rt: HostRuntime) -> Result<(), Fail> {
    let is_told = match lex(rt.alloc(), "message M { int32 a = 1; }") {
        Ok(tokens) => tokens.len() == 9 && tokens[0].kind == TokenKind::Word,
        Err(fault) => {
            fault
                == SourceFault {
                    byte: 0,
                    cause: SourceCause::Memory,
                }
        }
    };
    assert!(rt; is_told);
    Ok(())
}
