// Lines read and answers written, each beside what it should be.
use crate::{Problem, Request, answer_text, read_request};
use brackets::Partner;
use document::{Answer, RecordRefusal};
use model::{Change, Refusal, Replacement};
use notation::{digits_text, quoted_text};
use std::test::Fail;

#[test]
fn lines_are_read(rt: HostRuntime) -> Result<(), Fail> {
    let heap = rt.alloc();
    let edit = read_request(heap, b"\tedit 007  4294967295 \"a b\\\"\\x1Fz\\n\" \r")?;
    assert!(rt;
        matches!(&edit, Ok(Request::Edit { from: 7, to: 4294967295, bytes }) if bytes.as_slice() == b"a b\"\x1Fz\n".as_slice())
    );
    let pairs = read_request(heap, b"edit 0 2 x0Aff")?;
    assert!(rt;
        matches!(&pairs, Ok(Request::Edit { from: 0, to: 2, bytes }) if bytes.as_slice() == b"\n\xFF".as_slice())
    );
    let paint = read_request(heap, b"paint 3 1 2 9")?;
    let due = Change {
        place: 3,
        removed: 1,
        inserted: 2,
        end: 9,
    };
    assert!(rt; matches!(paint, Ok(Request::Paint(Some(change))) if change == due));
    assert!(rt; matches!(read_request(heap, b"# open")?, Ok(Request::PassedOver)));
    assert!(rt;
        matches!(
            read_request(heap, b"text 1 2 3")?,
            Ok(Request::Text {
                from: 1,
                to: 2,
                room: Some(3)
            })
        )
    );
    assert!(rt; matches!(read_request(heap, b"screen")?, Ok(Request::Screen(None))));
    Ok(())
}

#[test]
fn scripts_are_read(rt: HostRuntime) -> Result<(), Fail> {
    let heap = rt.alloc();
    let none = read_request(heap, b"script x61 ")?;
    assert!(rt;
        matches!(&none, Ok(Request::Script { text, records }) if text.as_slice() == b"a".as_slice() && records.is_empty())
    );
    let two = read_request(heap, b"script \"a b\"  0,0,0,3 \t7,4294967295,01,2\r")?;
    let first = Replacement {
        from: 0,
        to: 0,
        start: 0,
        end: 3,
    };
    let second = Replacement {
        from: 7,
        to: 4294967295,
        start: 1,
        end: 2,
    };
    assert!(rt;
        matches!(&two, Ok(Request::Script { text, records }) if text.as_slice() == b"a b".as_slice() && records.as_slice() == [first, second].as_slice())
    );
    Ok(())
}

#[test]
fn questions_are_read(rt: HostRuntime) -> Result<(), Fail> {
    let heap = rt.alloc();
    assert!(rt;
        matches!(
            read_request(heap, b"range 1 2")?,
            Ok(Request::Range { from: 1, to: 2 })
        )
    );
    let same = read_request(heap, b"same 7 \"wall\" ")?;
    assert!(rt;
        matches!(&same, Ok(Request::Same { place: 7, bytes }) if bytes.as_slice() == b"wall".as_slice())
    );
    assert!(rt; matches!(read_request(heap, b"place 9")?, Ok(Request::Place(9))));
    assert!(rt;
        matches!(
            read_request(heap, b"spot 3 4")?,
            Ok(Request::Spot { line: 3, column: 4 })
        )
    );
    assert!(rt; matches!(read_request(heap, b"partner 5")?, Ok(Request::Partner(5))));
    Ok(())
}

#[test]
fn problems_are_told(rt: HostRuntime) -> Result<(), Fail> {
    let heap = rt.alloc();
    let lines: [(&[u8], Problem); 16] = [
        (b"Open", Problem::UnknownCall),
        (b"text 1", Problem::Number),
        (b"screen 4294967296", Problem::Number),
        (b"edit 0 0 x0", Problem::Bytes),
        (b"edit 0 0 \"a\" b", Problem::Bytes),
        (b"size 1", Problem::LeftOver),
        (b"script", Problem::Bytes),
        (b"script \"a\"0,0,0,1", Problem::Bytes),
        (b"script x61 0,0,0", Problem::Record),
        (b"script x61 0,0,0,1,1", Problem::Record),
        (b"script x61 0,0,0,1 0,0,0,-1", Problem::Record),
        (b"range 1 2 3", Problem::LeftOver),
        (b"same 1", Problem::Bytes),
        (b"place x", Problem::Number),
        (b"spot 1", Problem::Number),
        (b"partner 1 2", Problem::LeftOver),
    ];
    for (line, expected) in lines {
        assert!(rt; matches!(read_request(heap, line)?, Err(problem) if problem == expected));
    }
    Ok(())
}

#[test]
fn questions_are_answered(rt: HostRuntime) -> Result<(), Fail> {
    let heap = rt.alloc();
    let refused = RecordRefusal {
        index: 2,
        refusal: Refusal::OutsidePart(7),
    };
    let other = Partner {
        place: 3,
        agree: false,
    };
    let answers: [(Answer, &str); 9] = [
        (Answer::Done(0), "done 0"),
        (Answer::RecordRefused(refused), "refused 2 15 script 7"),
        (Answer::Begins(true), "yes"),
        (Answer::Begins(false), "no"),
        (Answer::Position { line: 4, column: 0 }, "4 0"),
        (Answer::Spot(12), "12"),
        (Answer::Partner(Some(other)), "3 differ"),
        (Answer::Partner(None), "none"),
        (
            Answer::Refused(Refusal::NoBracket(9)),
            "refused 14 document 9",
        ),
    ];
    for (answer, line) in answers {
        assert!(rt; answer_text(heap, answer)?.as_str() == line);
    }
    Ok(())
}

#[test]
fn answers_are_written(rt: HostRuntime) -> Result<(), Fail> {
    let heap = rt.alloc();
    let due = Change {
        place: 3,
        removed: 1,
        inserted: 2,
        end: 9,
    };
    assert!(rt; answer_text(heap, Answer::Due(due))?.as_str() == "due 3 1 2 9");
    let refusal = Refusal::OutsideText(12);
    assert!(rt; answer_text(heap, Answer::Refused(refusal))?.as_str() == "refused 6 tree 12");
    assert!(rt;
        quoted_text(heap, b"a\"\\\n\x00\xFF ")?.as_slice()
            == b"\"a\\\"\\\\\\n\\x00\\xFF \"".as_slice()
    );
    assert!(rt; digits_text(heap, &[0, 10, 31])?.as_slice() == b"0af".as_slice());
    Ok(())
}
