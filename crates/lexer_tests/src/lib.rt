//! Tokens of short texts, each expected answer worked out by hand from the rules.
#![tactic(auto)]

use faults::Fault;
use lexer::token::Token;
use lexer::tokens::tokens;
use std::alloc::Global;
use std::fmt::Write;

/// The tokens of a text: a letter for the kind, then the place; a number with its value.
pub fn outline(heap: Global, text: &[u8]) -> Result<String, Fault> {
    let mut out = String::new(heap);
    for token in tokens(heap, text)? {
        let place = token.part().place;
        match token {
            Token::Name(_) => write!(out, "n{place} ")?,
            Token::Number(_, value) => write!(out, "{value}@{place} ")?,
            Token::Keyword(_, _) => write!(out, "k{place} ")?,
            Token::Sign(_, _) => write!(out, "s{place} ")?,
        }
    }
    Ok(out)
}

#[cfg(test)]
mod tests {
    use super::*;
    use std::test::Fail;

    #[test]
    fn kinds_and_places(rt: HostRuntime) -> Result<(), Fail> {
        let heap = rt.alloc();
        assert_eq!(rt; outline(heap, b"MODEL g")?.as_str(), "k0 n6 ");
        assert_eq!(rt;
            outline(heap, b"  x=(-5);\n")?.as_str(),
            "n2 s3 s4 s5 5@6 s7 s8 "
        );
        assert_eq!(rt;
            outline(heap, b"a<b&&c||d")?.as_str(),
            "n0 s1 n2 s3 n5 s6 n8 "
        );
        assert_eq!(rt;
            outline(heap, b"Model TABLES KEY2 KEY")?.as_str(),
            "n0 n6 n13 k18 "
        );
        assert_eq!(rt;
            outline(heap, b"12ab 0 1000000000")?.as_str(),
            "12@0 n2 0@5 1000000000@7 "
        );
        assert_eq!(rt; outline(heap, b"")?.as_str(), "");
        Ok(())
    }

    #[test]
    fn refused_where_no_token_stands(rt: HostRuntime) {
        let heap = rt.alloc();
        assert!(rt; outline(heap, b"a & b") == Err(Fault::NoToken { place: 2 }));
        assert!(rt; outline(heap, b"007") == Err(Fault::NoToken { place: 0 }));
        assert!(rt; outline(heap, b"x 1000000001") == Err(Fault::NoToken { place: 2 }));
        assert!(rt; outline(heap, b"x\x00") == Err(Fault::NoToken { place: 1 }));
        assert!(rt; outline(heap, b"\t\r\n_") == Err(Fault::NoToken { place: 3 }));
    }
}
