// Texts cut at every place: the join of what the meters read of both parts is what they read of the whole.
use grammar::Words;
use layers::{Comment, Quoted};
use measure::place_reading::Extent;
use measure::walk_reading::{Entry, Passage};
use meter::{Blank, Meter, Pair, Place};
use walks::Walk;

static TEXTS: [&[u8]; 8] = [
    b"",
    b"\n",
    b"(a\"]\")\n{[}",
    b")))((\n# )\n(\"\\\"\n)",
    b"a1 2.5m\n\nx",
    b"\xF0\x9F\x98\x80a\xC3\xA9\n\xE2\x82\xAC",
    b"\x80\xBF\xC0\xEF\xF0\xFF\n",
    b"one (two [three] \"four\n\" five) } # six ]\n{ seven",
];

fn pile() -> Walk<Quoted<Comment<Words>>> {
    Walk {
        grammar: Quoted {
            below: Comment { below: Words },
        },
    }
}

// Whether the meter reads the text as its bytes in order, and as any two parts of it.
fn agrees<R: Copy + PartialEq, M: Meter<Reading = R>>(meter: &M, text: &[u8]) -> bool {
    let whole = meter.measure(text);
    let mut sum = meter.empty();
    for (i, byte) in text.iter().enumerate() {
        let (left, right) = text.split_at(i);
        if meter.join(&meter.measure(left), &meter.measure(right)) != whole {
            return false;
        }
        sum = meter.join(&sum, &meter.single(*byte));
    }
    sum == whole && meter.join(&whole, &meter.empty()) == whole
}

#[test]
fn cut_everywhere(rt: HostRuntime) {
    for text in &TEXTS {
        assert!(rt; agrees(&Blank, *text));
        assert!(rt; agrees(&Place, *text));
        assert!(rt; agrees(&pile(), *text));
        assert!(rt;
            agrees(
                &Pair {
                    first: pile(),
                    second: Place,
                },
                *text,
            )
        );
    }
}

// What a walk of the pile from state 0 says of a text.
fn from_start(text: &[u8]) -> Option<Entry> {
    let passage = pile().measure(text)?;
    Some(passage.entry(0))
}

fn entry(end: u8, closings: u32, openings: u32) -> Option<Entry> {
    Some(Entry {
        end,
        closings,
        openings,
    })
}

fn place(length: u32, lines: u32, units: u32) -> Option<Extent> {
    Some(Extent {
        length,
        lines,
        units,
    })
}

#[test]
fn known_readings(rt: HostRuntime) {
    assert!(rt; Place.measure(b"a\nbc") == place(4, 1, 2));
    assert!(rt; Place.measure(b"\xF0\x9F\x98\x80a") == place(5, 0, 3));
    assert!(rt; Place.measure(b"\x80\xBF\xC0\xEF\xF0\xFF") == place(6, 0, 6));
    assert!(rt; from_start(b"(a\"]\")") == entry(0, 0, 0));
    assert!(rt; from_start(b"))(") == entry(0, 2, 1));
    assert!(rt; from_start(b"(\"))") == entry(6, 0, 1));
}

// The longest length is told, one byte more is not, and what is overlong stays so.
#[test]
fn overlong_stays(rt: HostRuntime) {
    let byte = place(1, 0, 1);
    assert!(rt; Place.join(&place(262_143, 0, 0), &byte) == place(262_144, 0, 1));
    assert!(rt; Place.join(&place(262_144, 0, 0), &byte) == None);
    assert!(rt; Place.join(&place(u32::MAX, 0, 0), &byte) == None);
    assert!(rt; Place.join(&byte, &None) == None);
    assert!(rt; Place.join(&None, &byte) == None);
    let read = pile().single(b'a');
    assert!(rt; pile().join(&read, &None) == None);
    assert!(rt; pile().join(&None, &read) == None);
}

// Values that are no text's reading are joined too: a state without an entry stays, a count stops at its greatest.
#[test]
fn strange_values_join(rt: HostRuntime) {
    let strange = Entry {
        end: 200,
        closings: u32::MAX,
        openings: u32::MAX,
    };
    let left = Some(Passage {
        length: 1,
        entries: [strange; 64],
    });
    let joined = pile().join(&left, &pile().single(b')'));
    assert!(rt; joined.is_some_and(|passage| passage.entry(0) == strange && passage.length == 2));
    assert!(rt;
        Place.join(&place(1, u32::MAX, u32::MAX), &place(1, 0, 9)) == place(2, u32::MAX, u32::MAX)
    );
}
