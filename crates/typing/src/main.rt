// Types a scene by the calls that hand a pass and a due on, shows the text and its screen after each edit, and asks for a bracket.
// A print that fails waits until the last pass is spent: a `?` before that would lose one, which the check refuses.

#![tactic(auto)]

ghost use Rattle.std.specs.Prelude.{◌≡◌, ◌≤◌, length, None};
ghost use Rattle.model.specs.Calls.{paint_refusal};
ghost use Rattle.document.specs.Content.{model_of};
ghost use Rattle.typing.specs.declared.TheConstants.{CELLS};

use brackets::Partner;
use document::{Document, Due, Pass, Refused};
use editing::Readings;
use grammar::Words;
use layers::Comment;
use load::Room;
use meter::Blank;
use model::Refusal;
use notation::{digits_text, quoted_text};
use std::io;
use std::io::Write;
use walks::{DocumentMeter, document_meter};

const SLOTS: u16 = 8;

// How much of the text is shown.
const SHOWN: u32 = 40;

// As many cells as the longest text has bytes.
const CELLS: usize = 262144;

type SceneMeter = DocumentMeter<Comment<Words>, Blank>;

fn scene_meter() -> SceneMeter {
    document_meter(Comment { below: Words }, Blank)
}

// A document with its screen, which has room for every text.
#[derive(Drop)]
struct Scene<'a> {
    document: Document<'a, Readings<()>>,
    screen: &'a mut [u8],
    ghost wide: { CELLS ≤ length screen.now },
}

impl Scene<'_> {
    fn open(&mut self) -> Result<Pass, Refusal>
        ensures { (model_of self.new.document).due ≡ (model_of self.old.document).due }
    {
        self.document.open(&scene_meter())
    }

    // Paints a due that the document waits for, on a screen that has room: it is not refused.
    fn paint(&mut self, due: Due) -> Pass
        requires { paint_refusal (model_of self.old.document) due.change (length self.old.screen.now) ≡ None }
        ensures { (model_of self.new.document).due ≡ None }
    {
        self.document
            .paint(&scene_meter(), due, self.screen)
            .unwrap()
    }

    // One edit and its paint. A refused edit gives its pass back, and that is the pass to go on with.
    fn edit(&mut self, pass: Pass, from: u32, to: u32, text: &str) -> Pass
        requires { (model_of self.old.document).due ≡ None }
        ensures { (model_of self.new.document).due ≡ None }
    {
        match self
            .document
            .edit(&scene_meter(), pass, from, to, text.as_bytes())
        {
            Ok(due) => self.paint(due),
            Err(Refused { back, refusal: _ }) => back,
        }
    }

    // Closes a document on which nothing waits to be painted: it is not refused.
    fn close(&self, pass: Pass)
        requires { (model_of self.now.document).due ≡ None }
    {
        self.document.close(pass).unwrap()
    }

    // The text, and below it the screen's cells for it.
    fn show(&self, rt: &HostRuntime) -> io::Result<()> {
        let (bytes, _, _) = self.document.size();
        let count = bytes.min(SHOWN);
        let mut text = vec![in rt.alloc(); 0; count as usize]?;
        self.document.text(0, count, &mut text).unwrap();
        let mut out = quoted_text(rt.alloc(), &text)?;
        out.extend_from_slice(b"\n ")?;
        out.extend_from_slice(&digits_text(rt.alloc(), &self.screen[..count as usize])?)?;
        out.push(b'\n')?;
        rt.stdout().write_all(&out)
    }

    // The line and the column of a place, and where the partner of the bracket there stands.
    fn ask(&self, rt: &HostRuntime, place: u32) -> io::Result<()> {
        let position = self.document.place(&scene_meter(), place);
        let partner = self.document.partner(&scene_meter(), place);
        match (position, partner) {
            (Ok((line, column)), Ok(Some(Partner { place: other, .. }))) => {
                println!(rt; "{place}: line {line}, column {column}, partner at {other}")
            }
            _ => println!(rt; "{place}: no bracket with a partner"),
        }
    }
}

fn main(rt: HostRuntime) -> io::Result<()> {
    let mut room = Room::for_slots(rt.alloc(), SLOTS)?;
    let mut screen = vec![in rt.alloc(); 0; CELLS]?;
    let mut scene = Scene {
        document: Document::new(&mut room.slots, &mut room.store, &mut room.readings),
        screen: &mut screen,
    };
    let pass = match scene.open() {
        Ok(pass) => pass,
        Err(refusal) => return println!(rt; "refused {}", refusal.number()),
    };
    let pass = scene.edit(pass, 0, 0, "wall (2.5 m) # oak");
    let first = scene.show(&rt);
    let pass = scene.edit(pass, 13, 14, "");
    let second = scene.show(&rt);
    let pass = scene.edit(pass, 90, 95, "beyond the end");
    let third = scene.show(&rt);
    let asked = scene.ask(&rt, 11);
    scene.close(pass);
    first.and(second).and(third).and(asked)
}
