// A text read to its end and reported on: its colours, its extent, what a tree says of it.
use crate::refusal::{Refusal, told};
use grammar::Grammar;
use hosting::{Work, begins_with_digit, with_pile};
use load::{MOST, load_text, loaded_text, slots_named};
use report::{Pile, View, report_of, summary_of, summary_text};
use std::io::{Read, Write};

// What is to be written of the text.
#[derive(Clone, Copy)]
pub enum Task {
    Colour(View),
    Measure,
    // Load the text into a tree of so many slots.
    Tree(u16),
}

impl Task {
    // An Option and no FromStr: a word that names no task is a pile or a number, and no error.
    pub fn named(option: &str) -> Option<Task> {
        match option {
            "--colour" => Some(Task::Colour(View::Digits)),
            "--show" => Some(Task::Colour(View::Terminal)),
            "--measure" => Some(Task::Measure),
            "--tree" => Some(Task::Tree(MOST)),
            _ => None,
        }
    }

    fn write<G: Grammar + Copy>(
        self,
        rt: &HostRuntime,
        grammar: &G,
        text: &[u8],
    ) -> anyhow::Result<()> {
        let heap = rt.alloc();
        match self {
            Task::Colour(view) => rt
                .stdout()
                .write_all(&report_of(heap, grammar, view, text)?)?,
            Task::Measure => rt.println(summary_text(heap, summary_of(grammar, text))?)?,
            Task::Tree(slots) => {
                let loaded = load_text(heap, grammar, slots, text)?.ok_or(Refusal::TooLong(slots));
                rt.println(loaded_text(heap, told(rt, loaded)?)?)?
            }
        }
        Ok(())
    }
}

// What is to be written under a pile, one after the other.
#[derive(Drop)]
struct OneShot<'r, 't> {
    rt: &'r HostRuntime,
    tasks: &'t [Task],
}

impl Work for OneShot<'_, '_> {
    type Output = anyhow::Result<()>;

    // What is read and written, no clause knows.
    ghost done = { λ _ _ _ _. Unit {0} };

    fn run<G: Grammar + Copy>(&mut self, grammar: &G) -> anyhow::Result<()> {
        if grammar.count() == 0 {
            return told(self.rt, Err(Refusal::UnusablePile));
        }
        let mut text = Vec::new(self.rt.alloc());
        self.rt.stdin().read_to_end(&mut text)?;
        for task in self.tasks {
            task.write(self.rt, grammar, &text)?;
        }
        Ok(())
    }
}

// The slots that a number behind `--tree` asks for.
fn slots_asked(word: &str) -> Result<u16, Refusal<'_>> {
    slots_named(word).ok_or(Refusal::TreeSize(word))
}

// The pile that a word names, where none was named before.
fn pile_asked(before: Option<Pile>, word: &str) -> Result<Pile, Refusal<'_>> {
    let named = Pile::named(word).ok_or(Refusal::UnknownPile(word))?;
    if before.is_some() {
        return Err(Refusal::SecondPile);
    }
    Ok(named)
}

// Follows the words `[PILE] [--colour] [--show] [--measure] [--tree [SLOTS]]`.
pub fn report_on_input(rt: &HostRuntime, words: &[&str]) -> anyhow::Result<()> {
    let mut pile = None;
    let mut tasks = Vec::new(rt.alloc());
    let mut words = words.iter().peekable();
    // No `for`: an option may take the word behind it too.
    while let Some(word) = words.next() {
        match Task::named(word) {
            Some(Task::Tree(most)) => {
                let slots = match words.next_if(|next| begins_with_digit(next)) {
                    Some(number) => told(rt, slots_asked(number))?,
                    None => most,
                };
                tasks.push(Task::Tree(slots))?;
            }
            Some(task) => tasks.push(task)?,
            None => pile = Some(told(rt, pile_asked(pile, word))?),
        }
    }
    let mut work = OneShot { rt, tasks: &tasks };
    with_pile(pile.unwrap_or(Pile::StringComment), &mut work)
}
