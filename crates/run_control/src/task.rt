ghost use Rattle.std.specs.Prelude.{◌≡◌, map};
ghost use Rattle.tree_reading.specs.Reading.{read_performed, read_statement, read_condition, read_id, vary_if};
ghost use Rattle.run_control.specs.Held.{read_body, read_loop};

use cobol_syntax::{Condition, NamePair, Paragraph, Sentence, Statement, StatementId, Vary};
use y2k_base::List;

/// What a PERFORM performs.
#[derive(Clone, Copy)]
pub enum Body<'a> {
    /// The statements of an inline PERFORM.
    Inline(&'a [Statement]),
    /// The paragraphs and sections from the first one to the end of the last one.
    Through(&'a NamePair),
}

impl<'a> Body<'a> {
    /// What a PERFORM statement with this range and these statements performs.
    pub fn of(range: &'a Option<NamePair>, body: &'a List<Statement>) -> Body<'a>
        ensures { read_body result ≡ read_performed range.now (map read_statement body.now) }
    {
        match range {
            Some(range) => Body::Through(range),
            None => Body::Inline(body.items()),
        }
    }
}

/// An entered PERFORM with UNTIL. `after` is TEST AFTER.
#[derive(Clone, Copy)]
pub struct Loop<'a> {
    pub id: StatementId,
    pub what: Body<'a>,
    pub after: bool,
    pub test: &'a Condition,
    pub vary: Option<&'a Vary>,
}

impl<'a> Loop<'a> {
    /// The loop that a PERFORM statement with this range and these statements enters.
    pub fn of(
        id: StatementId,
        what: Body<'a>,
        after: bool,
        test: &'a Condition,
        vary: &'a Option<Vary>,
    ) -> Loop<'a>
        ensures { read_loop result ≡ record { id = read_id id; what = read_body what.entry; after = after; test = read_condition test.now; vary = vary_if vary.now } }
    {
        match vary {
            Some(vary) => Loop {
                id,
                what,
                after,
                test,
                vary: Some(vary),
            },
            None => Loop {
                id,
                what,
                after,
                test,
                vary: None,
            },
        }
    }
}

/// What a loop does next: it sets the item of VARYING, or steps it, or tests its condition.
#[derive(Clone, Copy)]
pub enum Stage<'a> {
    Set(&'a Vary),
    Advance(&'a Vary),
    Test,
}

/// What takes one step of a run.
#[derive(Clone, Copy)]
pub enum Task<'a> {
    Do(&'a Statement),
    /// A further turn under TIMES. `left` counts the turns left, with this one.
    Turn {
        id: StatementId,
        what: Body<'a>,
        left: u128,
    },
    Loop(Stage<'a>, Loop<'a>),
}

/// An open PERFORM of paragraphs: how many paragraphs of the program come after its range, and where it goes on. What
/// is left of the sentence there are the entries below it.
#[derive(Clone, Copy)]
pub(crate) struct Frame<'a> {
    pub(crate) after: usize,
    pub(crate) sentences: &'a [Sentence],
    pub(crate) paragraphs: &'a [Paragraph],
}

/// An entry of the stack of what is left to do.
#[derive(Clone, Copy)]
pub(crate) enum Entry<'a> {
    /// The statements left of a list.
    Rest(&'a [Statement]),
    Next(Task<'a>),
    /// The end of the paragraphs of an open PERFORM. What lies above it is left of the sentence where the run is.
    Return(Frame<'a>),
}
