// Places of an empty text: the only one is its start.
use document::Document;
use grammar::Words;
use meter::Blank;
use model::Refusal;
use slots::slot::Slot;
use walks::{Readings, document_meter};

// The line and the column of a place in a document without a text.
fn place_in_empty_text(place: u32) -> Result<(u32, u32), Refusal> {
    let mut slots: [Slot<Readings<()>>; 0] = [];
    let mut store: [u8; 0] = [];
    let mut readings: [Readings<()>; 0] = [];
    let meter = document_meter(Words, Blank);
    let document = Document::new(&mut slots, &mut store, &mut readings);
    document.place(&meter, place)
}

#[test]
fn an_empty_text_has_its_start_alone(rt: HostRuntime) {
    assert!(rt; place_in_empty_text(0) == Ok((0, 0)));
    assert!(rt; place_in_empty_text(1).map_err(|refusal| refusal.number()) == Err(12));
}
