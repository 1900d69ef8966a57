ghost use Rattle.std.specs.Prelude.{◌≡◌, ℕ, ◌∷◌, ◌++◌, [], OnOk, map};
ghost use Rattle.tree_reading.specs.Reading.{read_statements, read_sentence, read_paragraph, read_id};
ghost use Rattle.program_meaning.specs.Tree.{StatementId as Id, GoTo, NextSentence};
ghost use Rattle.program_meaning.specs.State.{Program, at_front};
ghost use Rattle.program_meaning.specs.Step.{Calendar, act, begin, turn, turns, times_turn, until_turn, after_turn, further, tested, advanced, begun, entered};
ghost use Rattle.run_control.specs.Held.{held, Held, frames_of, tasks_of, point_of, read_body, read_loop};
ghost use Rattle.run_control.specs.Program.{Leads, LeadsIn};

use crate::labels::Labels;
use crate::position::Position;
use crate::task::{Body, Entry, Frame, Loop, Stage, Task};
use cobol_syntax::{Statement, StatementId};
use y2k_base::Memory;

impl<'a> Position<'a> {
    /// Drops what is left of the sentence.
    fn drop_tasks(&mut self) -> Result<(), Memory>
        ensures tasks { OnOk result (tasks_of self.new ≡ []) }
        ensures frames { OnOk result (frames_of self.new ≡ frames_of self.old) }
        ensures sentences { self.new.sentences ≡ self.old.sentences }
        ensures paragraphs { self.new.paragraphs ≡ self.old.paragraphs }
    {
        loop {
            match self.pop() {
                None => return Ok(()),
                Some(Entry::Return(frame)) => {
                    self.push(Entry::Return(frame))?;
                    return Ok(());
                }
                Some(Entry::Rest(_)) => {}
                Some(Entry::Next(_)) => {}
            }
        }
    }

    /// Goes on with a list of statements, and then with what is left: a branch of IF, or the list of a phrase.
    pub fn begin(&mut self, list: &'a [Statement]) -> Result<(), Memory>
        ensures { OnOk result (Leads self.old self.new (λ program day. begin program day (read_statements list.now))) }
    {
        self.push(Entry::Rest(list))?;
        Ok(())
    }

    /// NEXT SENTENCE: what is left of the sentence is dropped, inline PERFORMs included.
    pub fn next_sentence(&mut self) -> Result<(), Memory>
        ensures { (id : Id) → OnOk result (Leads self.old self.new (λ program day. act program day id NextSentence)) }
    {
        self.drop_tasks()?;
        Ok(())
    }

    /// GO TO: what is left of the paragraph is dropped, and the open PERFORMs stay open.
    pub fn go_to(&mut self, labels: &Labels<'a>, name: &[u8]) -> Result<(), Memory>
        ensures { (id : Id) → OnOk result (LeadsIn labels.now self.old self.new (λ program day. act program day id (GoTo name.now))) }
    {
        self.drop_tasks()?;
        self.stand_before(labels.paragraphs_from(name));
        Ok(())
    }

    /// A turn of what is performed, as a PERFORM without a phrase makes one.
    pub fn turn(&mut self, labels: &Labels<'a>, what: Body<'a>) -> Result<(), Memory>
        ensures { OnOk result (LeadsIn labels.now self.old self.new (λ program day. turn program day (read_body what.entry) [])) }
    {
        match what {
            Body::Inline(list) => {
                self.push(Entry::Rest(list))?;
                Ok(())
            }
            Body::Through(range) => {
                let after = labels.left_after(range.last.items());
                self.open(after)?;
                self.stand_before(labels.paragraphs_from(range.first.items()));
                Ok(())
            }
        }
    }

    /// Opens a PERFORM whose range so many paragraphs come after, and which goes on here.
    fn open(&mut self, after: usize) -> Result<(), Memory>
        ensures { OnOk result (held self.new.entries.items ≡ record { tasks = []; frames = record { after = after; goes_on = point_of self.old } ∷ frames_of self.old }) }
    {
        let frame = Frame {
            after,
            sentences: self.sentences,
            paragraphs: self.paragraphs,
        };
        self.push(Entry::Return(frame))?;
        Ok(())
    }

    /// A turn under TIMES, where `left` turns are left with this one; of none there is no turn.
    pub fn turn_again(
        &mut self,
        labels: &Labels<'a>,
        id: StatementId,
        what: Body<'a>,
        left: u128,
    ) -> Result<(), Memory>
        ensures { OnOk result (LeadsIn labels.now self.old self.new (λ program day. times_turn program day (read_id id) (read_body what.entry) left)) }
    {
        match left {
            0 => Ok(()),
            1 => {
                self.turn(labels, what)?;
                Ok(())
            }
            _ => {
                let left = left - 1;
                self.push(Entry::Next(Task::Turn { id, what, left }))?;
                self.turn(labels, what)?;
                Ok(())
            }
        }
    }

    /// PERFORM with TIMES, where its operand has this number: one below 1 makes no turn.
    pub fn perform_times(
        &mut self,
        labels: &Labels<'a>,
        id: StatementId,
        what: Body<'a>,
        count: i128,
    ) -> Result<(), Memory>
        ensures { OnOk result (LeadsIn labels.now self.old self.new (λ program day. times_turn program day (read_id id) (read_body what.entry) (turns count))) }
    {
        self.turn_again(labels, id, what, turns_of(count))?;
        Ok(())
    }

    /// PERFORM with UNTIL: first the setting of VARYING, or else what follows it.
    pub fn perform_until(&mut self, labels: &Labels<'a>, perform: Loop<'a>) -> Result<(), Memory>
        ensures { OnOk result (LeadsIn labels.now self.old self.new (λ program day. entered program day (read_loop perform.entry) (read_loop perform.entry).vary)) }
    {
        match perform.vary {
            None => {
                self.after_setting(labels, perform)?;
                Ok(())
            }
            Some(vary) => {
                self.push(Entry::Next(Task::Loop(Stage::Set(vary), perform)))?;
                Ok(())
            }
        }
    }

    /// Goes on after the item of VARYING is set: by the first turn where the test stands behind it, else by the test.
    pub fn after_setting(&mut self, labels: &Labels<'a>, perform: Loop<'a>) -> Result<(), Memory>
        ensures { OnOk result (LeadsIn labels.now self.old self.new (λ program day. begun program day (read_loop perform.entry))) }
    {
        if perform.after {
            self.turn_until(labels, perform)?;
            Ok(())
        } else {
            self.push(Entry::Next(Task::Loop(Stage::Test, perform)))?;
            Ok(())
        }
    }

    /// Goes on after the item of VARYING is stepped: by a turn where the test was before the stepping.
    pub fn after_stepping(&mut self, labels: &Labels<'a>, perform: Loop<'a>) -> Result<(), Memory>
        ensures { OnOk result (LeadsIn labels.now self.old self.new (λ program day. advanced program day (read_loop perform.entry))) }
    {
        if perform.after {
            self.turn_until(labels, perform)?;
            Ok(())
        } else {
            Ok(())
        }
    }

    /// Goes on after the condition of UNTIL was tested, which holds or not.
    pub fn after_test(
        &mut self,
        labels: &Labels<'a>,
        perform: Loop<'a>,
        holds: bool,
    ) -> Result<(), Memory>
        ensures { OnOk result (LeadsIn labels.now self.old self.new (λ program day. tested program day (read_loop perform.entry) holds)) }
    {
        if holds {
            Ok(())
        } else {
            self.further_turn(labels, perform)?;
            Ok(())
        }
    }

    /// A further turn under UNTIL: after a test behind the turn the stepping comes first.
    fn further_turn(&mut self, labels: &Labels<'a>, perform: Loop<'a>) -> Result<(), Memory>
        ensures { OnOk result (LeadsIn labels.now self.old self.new (λ program day. further program day (read_loop perform.entry) perform.entry.after (read_loop perform.entry).vary)) }
    {
        if perform.after {
            match perform.vary {
                Some(vary) => {
                    self.push(Entry::Next(Task::Loop(Stage::Advance(vary), perform)))?;
                    Ok(())
                }
                None => {
                    self.turn_until(labels, perform)?;
                    Ok(())
                }
            }
        } else {
            self.turn_until(labels, perform)?;
            Ok(())
        }
    }

    /// A turn under UNTIL, and what follows it.
    fn turn_until(&mut self, labels: &Labels<'a>, perform: Loop<'a>) -> Result<(), Memory>
        ensures { OnOk result (LeadsIn labels.now self.old self.new (λ program day. until_turn program day (read_loop perform.entry))) }
    {
        self.push_after_turn(perform)?;
        self.turn(labels, perform.what)?;
        Ok(())
    }

    /// What follows a turn under UNTIL, in front of what is left.
    fn push_after_turn(&mut self, perform: Loop<'a>) -> Result<(), Memory>
        ensures held { (program : Program) (day : Calendar) → OnOk result (held self.new.entries.items ≡ record { tasks = after_turn program day (read_loop perform.entry) ++ tasks_of self.old; frames = frames_of self.old }) }
        ensures sentences { self.new.sentences ≡ self.old.sentences }
        ensures paragraphs { self.new.paragraphs ≡ self.old.paragraphs }
    {
        self.push(Entry::Next(Task::Loop(Stage::Test, perform)))?;
        if perform.after {
            Ok(())
        } else {
            match perform.vary {
                None => Ok(()),
                Some(vary) => {
                    self.push(Entry::Next(Task::Loop(Stage::Advance(vary), perform)))?;
                    Ok(())
                }
            }
        }
    }
}

/// How many turns a count makes: one below 1 makes none.
fn turns_of(count: i128) -> u128
    ensures { result ≡ turns count }
{
    if count < 0 { 0 } else { count as u128 }
}
