ghost use Rattle.std.specs.Prelude.{◌≡◌, ◌<◌, ◌+◌, ◌∷◌, [], ℕ, OnOk, IfOk, MatchOption, IfSome, IfNone, length, map};
ghost use Rattle.cobol_syntax.specs.declared.program.Paragraph.{Paragraph};
ghost use Rattle.program_meaning.specs.State.{at_end, at_front};
ghost use Rattle.tree_reading.specs.Reading.{read_sentence, read_paragraph};
ghost use Rattle.run_control.specs.Held.{held, with_entry, nothing_held, tasks_of, frames_of, point_of, held_with, next_of, next_with, next_with_list, state_at, task_before};
ghost use Rattle.run_control.specs.Work.{work, entry_work, entries_work, frame_work};
ghost use Rattle.run_control.specs.Moves.{HasMoved, Stays};
ghost use Rattle.run_control.specs.Program.{Begins, Stops, Steps};

use crate::labels::Labels;
use crate::task::{Entry, Frame, Task};
use cobol_syntax::{Paragraph, Sentence, Statement};
use std::alloc::Global;
use y2k_base::Memory;

/// Where a run of a program is.
pub struct Position<'a> {
    /// What is left of the sentence, the newest entry last, and below each open PERFORM what is left where it goes on.
    pub(crate) entries: Vec<Entry<'a>>,
    /// The sentences left of the paragraph.
    pub(crate) sentences: &'a [Sentence],
    /// The paragraphs after it.
    pub(crate) paragraphs: &'a [Paragraph],
}

impl Drop for Position<'_> {
    fn drop(self) {
        let Position {
            entries: _entries,
            sentences: _,
            paragraphs: _,
        } = self;
    }
}

/// A move towards the next task.
enum Move<'a> {
    /// The task is taken off.
    Task(Task<'a>),
    /// Something that takes no step is passed.
    Passed,
    /// The text has ended.
    Ended,
}

impl<'a> Position<'a> {
    /// The first statement of a program, with no open PERFORM.
    pub fn start(alloc: Global, labels: &Labels<'a>) -> Position<'a>
        ensures { Begins labels.now result }
    {
        let mut position = Position {
            entries: Vec::new(alloc),
            sentences: &[],
            paragraphs: &[],
        };
        position.stand_before(labels.paragraphs());
        position
    }

    /// Stands at the front of the first of these paragraphs.
    pub(crate) fn stand_before(&mut self, paragraphs: &'a [Paragraph])
        ensures entries { self.new.entries ≡ self.old.entries }
        ensures sentences { map read_sentence self.new.sentences.now ≡ (at_front (map read_paragraph paragraphs.now)).sentences }
        ensures paragraphs { map read_paragraph self.new.paragraphs.now ≡ (at_front (map read_paragraph paragraphs.now)).paragraphs }
    {
        match paragraphs {
            [] => {
                self.sentences = &[];
                self.paragraphs = &[];
            }
            [paragraph, more @ ..] => {
                self.sentences = paragraph.sentences.items();
                self.paragraphs = more;
            }
        }
    }

    /// Puts an entry on the stack.
    pub(crate) fn push(&mut self, entry: Entry<'a>) -> Result<(), Memory>
        ensures held { OnOk result (held self.new.entries.items ≡ with_entry (held self.old.entries.items) entry.entry) }
        ensures work { OnOk result (entries_work self.new.entries.items ≡ entries_work self.old.entries.items + entry_work entry.entry) }
        ensures sentences { self.new.sentences ≡ self.old.sentences }
        ensures paragraphs { self.new.paragraphs ≡ self.old.paragraphs }
    {
        self.entries.push(entry)?;
        Ok(())
    }

    /// Takes the newest entry off the stack.
    pub(crate) fn pop(&mut self) -> Option<Entry<'a>>
        ensures some { IfSome result (λ entry. held self.old.entries.items ≡ with_entry (held self.new.entries.items) entry) }
        ensures work { IfSome result (λ entry. entries_work self.old.entries.items ≡ entries_work self.new.entries.items + entry_work entry) }
        ensures none { IfNone result (self.old.entries.items ≡ []) }
        ensures same { IfNone result (self.new.entries.items ≡ []) }
        ensures sentences { self.new.sentences ≡ self.old.sentences }
        ensures paragraphs { self.new.paragraphs ≡ self.old.paragraphs }
    {
        self.entries.pop()
    }

    /// Puts the newest open PERFORM back, if there is one.
    fn put_back(&mut self, frame: Option<Frame<'a>>) -> Result<(), Memory>
        ensures held { OnOk result (held self.new.entries.items ≡ held_with self.old.entries.items frame.entry) }
        ensures work { OnOk result (entries_work self.new.entries.items ≡ entries_work self.old.entries.items + frame_work frame.entry) }
        ensures sentences { self.new.sentences ≡ self.old.sentences }
        ensures paragraphs { self.new.paragraphs ≡ self.old.paragraphs }
    {
        match frame {
            Some(frame) => {
                self.push(Entry::Return(frame))?;
                Ok(())
            }
            None => Ok(()),
        }
    }

    /// Goes on behind a PERFORM whose range ends here.
    fn go_back(&mut self, frame: Frame<'a>)
        ensures entries { self.new.entries ≡ self.old.entries }
        ensures sentences { self.new.sentences.now ≡ frame.entry.sentences.now }
        ensures paragraphs { self.new.paragraphs.now ≡ frame.entry.paragraphs.now }
    {
        self.sentences = frame.sentences;
        self.paragraphs = frame.paragraphs;
    }

    /// From the end of a paragraph into the next one, or to the end of the text.
    #[tactic(auto, using(crate::proofs::Settled::of_paragraph, crate::proofs::Settled::of_text))]
    fn fall(&mut self) -> Move<'a>
        requires tasks { tasks_of self.old ≡ [] }
        requires sentences { self.old.sentences.now ≡ [] }
        requires stays { Stays (frames_of self.old) (length self.old.paragraphs.now) }
        ensures { HasMoved (next_of self.old) (work self.old) self.new result }
    {
        match self.paragraphs {
            [paragraph, more @ ..] => {
                self.sentences = paragraph.sentences.items();
                self.paragraphs = more;
                Move::Passed
            }
            [] => {
                self.entries.clear();
                Move::Ended
            }
        }
    }

    /// From the end of a paragraph, where the newest open PERFORM was taken off the stack.
    #[tactic(auto, using(crate::proofs::Settled::of_range))]
    fn leave_paragraph(&mut self, frame: Option<Frame<'a>>) -> Result<Move<'a>, Memory>
        requires newest { IfNone frame (self.old.entries.items ≡ []) }
        requires sentences { self.old.sentences.now ≡ [] }
        ensures { IfOk result (HasMoved (next_with self.old frame.entry) (work self.old + frame_work frame.entry) self.new) }
    {
        match frame {
            None => Ok(self.fall()),
            Some(frame) => {
                if frame.after == self.paragraphs.len() {
                    self.go_back(frame);
                    Ok(Move::Passed)
                } else {
                    self.push(Entry::Return(frame))?;
                    Ok(self.fall())
                }
            }
        }
    }

    /// From the end of a sentence, where the newest open PERFORM was taken off the stack.
    #[tactic(auto, using(crate::proofs::Settled::of_sentence))]
    fn leave_sentence(&mut self, frame: Option<Frame<'a>>) -> Result<Move<'a>, Memory>
        requires newest { IfNone frame (self.old.entries.items ≡ []) }
        ensures { IfOk result (HasMoved (next_with self.old frame.entry) (work self.old + frame_work frame.entry) self.new) }
    {
        match self.sentences {
            [] => self.leave_paragraph(frame),
            [sentence, more @ ..] => {
                self.put_back(frame)?;
                self.push(Entry::Rest(sentence.statements.items()))?;
                self.sentences = more;
                Ok(Move::Passed)
            }
        }
    }

    /// Goes on in a list of statements.
    fn go_on(&mut self, list: &'a [Statement]) -> Result<Move<'a>, Memory>
        ensures { IfOk result (HasMoved (next_with_list self.old list.now) (work self.old + 1) self.new) }
    {
        match list {
            [] => Ok(Move::Passed),
            [statement, more @ ..] => {
                self.push(Entry::Rest(more))?;
                Ok(Move::Task(Task::Do(statement)))
            }
        }
    }

    /// One move.
    #[tactic(auto, using(crate::proofs::Settled::of_task))]
    fn advance(&mut self) -> Result<Move<'a>, Memory>
        ensures { IfOk result (HasMoved (next_of self.old) (work self.old) self.new) }
    {
        match self.pop() {
            None => self.leave_sentence(None),
            Some(Entry::Return(frame)) => self.leave_sentence(Some(frame)),
            Some(Entry::Next(task)) => Ok(Move::Task(task)),
            Some(Entry::Rest(list)) => self.go_on(list),
        }
    }

    /// Takes the next task off, past the ends of sentences, paragraphs and PERFORMs, which takes no step.
    fn find_task(&mut self) -> Result<Option<Task<'a>>, Memory>
        ensures { IfOk result (λ found. MatchOption found (next_of self.old ≡ at_end) (λ task. next_of self.old ≡ task_before task self.new)) }
    {
        loop {
            match self.advance()? {
                Move::Task(task) => return Ok(Some(task)),
                Move::Ended => return Ok(None),
                Move::Passed => {}
            }
        }
    }

    /// Takes the next step's task off. `None` is the end of the text, where the step is a STOP RUN.
    #[tactic(auto, using(crate::proofs::Settled::of_step, crate::proofs::Settled::of_stop))]
    pub fn next_task(&mut self) -> Result<Option<Task<'a>>, Memory>
        ensures task { IfOk result (λ found. MatchOption found (next_of self.old ≡ at_end) (λ task. next_of self.old ≡ task_before task self.new)) }
        ensures step { IfOk result (λ found. MatchOption found (Stops self.old) (λ task. Steps self.old task self.new)) }
    {
        let found = self.find_task()?;
        Ok(found)
    }
}
