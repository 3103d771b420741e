//! Paths, case files and cases as text: well-formed ones and damaged ones, each expected answer worked out from the rules.
#![tactic(auto)]

use cases::view::read_case;
use drafts::text::{TextFault, case_bytes};
use faults::Fault;
use paths::read::read_path;
use paths::write::write_path;
use std::alloc::Global;

/// Whether a path is refused at a place.
pub fn path_breaks(heap: Global, text: &[u8], place: usize) -> bool {
    read_path(heap, text).is_err_and(|fault| fault == Fault::BadPath { place })
}

/// A path read and written again.
pub fn path_again(heap: Global, text: &[u8]) -> Result<String, Fault> {
    let marks = read_path(heap, text)?;
    write_path(heap, marks.as_slice())
}

/// The place at which a case file is refused, for two tables of 1 and 8 attributes; `None` where it is not.
pub fn case_place(bytes: &[u8]) -> Option<usize> {
    match read_case(bytes, &[1, 8]) {
        Err(Fault::BadCase { place }) => Some(place),
        _ => None,
    }
}

/// The number that is given for a word, or another where none is.
fn word_of(changes: &[(usize, i32)], at: usize, own: i32) -> i32 {
    changes
        .iter()
        .find(|change| change.0 == at)
        .map_or(own, |change| change.1)
}

/// A case file of some records whose words are 0 but for the count of records and the given ones.
pub fn case_file(heap: Global, records: u16, changes: &[(usize, i32)]) -> Result<Vec<u8>, Fault> {
    let mut bytes = Vec::new(heap);
    for at in 0..19 + 9 * usize::from(records) {
        let own = if at == 0 { i32::from(records) } else { 0 };
        bytes.extend_from_slice(&word_of(changes, at, own).to_be_bytes())?;
    }
    Ok(bytes)
}

/// The place at which a case file with these words is refused; `None` where it is not.
pub fn place(heap: Global, records: u16, changes: &[(usize, i32)]) -> Result<Option<usize>, Fault> {
    let bytes = case_file(heap, records, changes)?;
    Ok(case_place(bytes.as_slice()))
}

/// Whether a word of a file of three records may be from one number to another, and no further.
pub fn ranges(heap: Global, at: u8, low: i32, high: i32) -> Result<bool, Fault> {
    let word = usize::from(at);
    let below = place(heap, 3, &[(word, low.saturating_sub(1))])?;
    let above = place(heap, 3, &[(word, high.saturating_add(1))])?;
    let least = place(heap, 3, &[(word, low)])?;
    let most = place(heap, 3, &[(word, high)])?;
    Ok(below == Some(4 * word) && above == Some(4 * word) && least == None && most == None)
}

/// Whether a text is refused at a line.
pub fn text_refused(heap: Global, text: &[u8], line: usize) -> bool {
    case_bytes(heap, text).is_err_and(|fault| fault == TextFault::BadLine { line })
}

#[cfg(test)]
mod tests {
    use super::*;
    use std::test::Fail;

    #[test]
    fn paths_are_refused_where_they_break(rt: HostRuntime) {
        let heap = rt.alloc();
        assert!(rt; path_breaks(heap, b"F", 1));
        assert!(rt; path_breaks(heap, b"TT", 1));
        assert!(rt; path_breaks(heap, b"T  E", 2));
        assert!(rt; path_breaks(heap, b"T ", 2));
        assert!(rt; path_breaks(heap, b"K1", 1));
        assert!(rt; path_breaks(heap, b"F01", 2));
        assert!(rt; path_breaks(heap, b" T", 0));
        assert!(rt; path_breaks(heap, b"t", 0));
        assert!(rt; path_breaks(heap, b"W D\nW", 3));
        assert!(rt; path_breaks(heap, b"C5 C5x", 5));
    }

    #[test]
    fn paths_are_read_and_written(rt: HostRuntime) -> Result<(), Fail> {
        let heap = rt.alloc();
        assert_eq!(rt; path_again(heap, b"K T C1")?.as_str(), "K T C1");
        assert_eq!(rt; path_again(heap, b"")?.as_str(), "");
        assert_eq!(rt; path_again(heap, b"\nT T")?.as_str(), "");
        assert_eq!(rt;
            path_again(heap, b"T E L O N X W K F0 C99 D16\nzz")?.as_str(),
            "T E L O N X W K F0 C99 D16"
        );
        assert_eq!(rt;
            path_again(heap, b"F123456789012345678901234567890")?.as_str(),
            "F1000000"
        );
        Ok(())
    }

    #[test]
    fn at_most_512_marks(rt: HostRuntime) -> Result<(), Fail> {
        let heap = rt.alloc();
        let mut text = Vec::new(heap);
        for _ in 0..512 {
            text.extend_from_slice(b"T ")?;
        }
        assert!(rt; path_breaks(heap, text.as_slice(), 1024));
        let _ = text.pop();
        assert!(rt; !path_breaks(heap, text.as_slice(), 1024));
        text.extend_from_slice(b" E")?;
        assert!(rt; path_breaks(heap, text.as_slice(), 1024));
        Ok(())
    }

    #[test]
    fn words_have_ranges(rt: HostRuntime) -> Result<(), Fail> {
        let heap = rt.alloc();
        for at in [1, 2, 9, 19, 28, 37] {
            assert!(rt; ranges(heap, at, 0, 3)?);
        }
        for at in [3, 8, 11, 18] {
            assert!(rt; ranges(heap, at, 0, 0)?);
        }
        assert!(rt; ranges(heap, 10, 0, 8)?);
        for at in [20, 27, 29, 45] {
            assert!(rt; ranges(heap, at, -1_000_000_000, 1_000_000_000)?);
        }
        Ok(())
    }

    #[test]
    fn sizes_and_orders(rt: HostRuntime) -> Result<(), Fail> {
        let heap = rt.alloc();
        assert!(rt; place(heap, 0, &[])? == None);
        assert!(rt; place(heap, 1_024, &[])? == None);
        assert!(rt; place(heap, 1_025, &[])? == Some(0));
        assert!(rt; place(heap, 0, &[(0, -1)])? == Some(0));
        assert!(rt; place(heap, 1, &[(0, 2)])? == Some(0));
        assert!(rt; case_place(b"") == Some(0));
        assert!(rt; place(heap, 2, &[(5, 1), (3, 1)])? == Some(12));
        assert!(rt; place(heap, 2, &[(1, 1), (2, 1), (36, 1_000_000_001)])? == Some(144));
        Ok(())
    }

    #[test]
    fn records_are_met_once(rt: HostRuntime) -> Result<(), Fail> {
        let heap = rt.alloc();
        assert!(rt; place(heap, 2, &[(1, 1), (19, 1)])? == Some(76));
        assert!(rt; place(heap, 2, &[(1, 1), (2, 1)])? == Some(8));
        assert!(rt; place(heap, 2, &[(1, 1), (19, 2), (9, 2)])? == Some(36));
        assert!(rt; place(heap, 2, &[(9, 2), (10, 1), (11, 2)])? == Some(44));
        assert!(rt; place(heap, 2, &[(1, 1), (19, 2), (28, 1)])? == Some(112));
        assert!(rt; place(heap, 2, &[(19, 1), (28, 2)])? == None);
        Ok(())
    }

    #[test]
    fn texts_are_cases(rt: HostRuntime) -> Result<(), Fail> {
        let heap = rt.alloc();
        let file = case_bytes(
            heap,
            b"table 2\n7 -3\n8\ntable 1\n5\nreads 1 -2\nlist\nlist 4\n",
        )?;
        let case = read_case(file.as_slice(), &[1, 8])?;
        assert!(rt; case.row(2, 0) == Some([7, -3, 0, 0, 0, 0, 0, 0]));
        assert!(rt; case.row(2, 1) == Some([8, 0, 0, 0, 0, 0, 0, 0]));
        assert!(rt; case.row(2, 2) == None && case.rows(2) == 2 && case.rows(3) == 0);
        assert!(rt; case.row(1, 0) == Some([5, 0, 0, 0, 0, 0, 0, 0]));
        assert!(rt; case.read(1) == Some(-2) && case.read(2) == None && case.reads() == 2);
        assert!(rt; case.lists() == 2 && case.list(1, 0) == None);
        assert!(rt; case.list(2, 0) == Some(4) && case.list(3, 0) == None);
        Ok(())
    }

    #[test]
    fn bad_lines_are_told(rt: HostRuntime) {
        let heap = rt.alloc();
        assert!(rt; text_refused(heap, b"7\n", 1));
        assert!(rt; text_refused(heap, b"table 1\n1  2\n", 2));
        assert!(rt; text_refused(heap, b"table 1\n\n", 2));
        assert!(rt; text_refused(heap, b"table 9\n", 1));
        assert!(rt; text_refused(heap, b"table 1\n1\ntable 1\n", 3));
        assert!(rt; text_refused(heap, b"reads 1\nreads 2\n", 2));
        assert!(rt; text_refused(heap, b"reads 01\n", 1));
        assert!(rt; text_refused(heap, b"table 1\n1\nreads 5\n2\n", 4));
        assert!(rt; text_refused(heap, b"table 1\n1\nlist\n2\n", 4));
        assert!(rt; text_refused(heap, b"list 1000000001\n", 1));
        assert!(rt; text_refused(heap, b"table 1\n1 2 3 4 5 6 7 8 9\n", 2));
    }
}
