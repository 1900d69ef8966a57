ghost use Rattle.std.specs.Prelude.{◌≡◌, ◌≢◌, ◌↔◌, ◌∷◌, [], IsTrue, IfSome, IfNone, ℕ, length, map, string_bytes, codes};
ghost use Rattle.annodomini_cli.specs.Command.{IsNoRun, IsRun, IsTask};
ghost use Rattle.trial_run.specs.declared.day.Day as days;

use crate::command::is_name;
use run_command::{read_bound, read_day};
use trial_run::Day;

/// The words of `run M JOB YYMMDD BOUND OUT` after the form's own.
#[derive(Clone, Copy)]
pub struct RunWords<'a> {
    pub main: &'a str,
    pub job: &'a str,
    pub task: Task<'a>,
}

/// On which day a job runs, for how many steps, and into which folder.
#[derive(Clone, Copy)]
pub struct Task<'a> {
    pub day: Day,
    pub bound: u64,
    pub out: &'a str,
}

/// Six words.
#[derive(Clone, Copy)]
struct SixWords<'a> {
    form: &'a str,
    main: &'a str,
    job: &'a str,
    date: &'a str,
    number: &'a str,
    out: &'a str,
}

/// The words of `run M JOB YYMMDD BOUND OUT`, where they have this form.
pub fn run_of(words: &[String]) -> Option<RunWords<'_>>
    ensures found { IfSome result (λ c. IsRun (map string_bytes words.now) c.main.now c.job.now c.task.day c.task.bound c.task.out.now) }
    ensures none { IfNone result (IsNoRun (map string_bytes words.now)) }
{
    match six_of(words) {
        Some(six) => run_in(six),
        None => None,
    }
}

fn six_of(words: &[String]) -> Option<SixWords<'_>>
    ensures found { IfSome result (λ s. map string_bytes words.now ≡ s.form.now ∷ s.main.now ∷ s.job.now ∷ s.date.now ∷ s.number.now ∷ s.out.now ∷ []) }
    ensures none { IfNone result (length words.now ≢ 6) }
{
    let [form, main, job, date, number, out] = words else {
        return None;
    };
    Some(SixWords {
        form: form.as_str(),
        main: main.as_str(),
        job: job.as_str(),
        date: date.as_str(),
        number: number.as_str(),
        out: out.as_str(),
    })
}

fn run_in(six: SixWords<'_>) -> Option<RunWords<'_>>
    ensures found { IfSome result (λ c. IsRun (six.entry.form.now ∷ six.entry.main.now ∷ six.entry.job.now ∷ six.entry.date.now ∷ six.entry.number.now ∷ six.entry.out.now ∷ [])
        c.main.now c.job.now c.task.day c.task.bound c.task.out.now) }
    ensures none { IfNone result (IsNoRun (six.entry.form.now ∷ six.entry.main.now ∷ six.entry.job.now ∷ six.entry.date.now ∷ six.entry.number.now ∷ six.entry.out.now ∷ [])) }
{
    if !is_run(six.form) {
        return None;
    }
    match task_of(six.main, six.date, six.number, six.out) {
        Some(task) => Some(RunWords {
            main: six.main,
            job: six.job,
            task,
        }),
        None => None,
    }
}

fn is_run(word: &str) -> bool
    ensures { IsTrue result ↔ (word.now ≡ codes "run") }
{
    word == "run"
}

/// What is to be run, where the names are names, the date a day, and the number a bound.
fn task_of<'a>(main: &str, date: &str, number: &str, out: &'a str) -> Option<Task<'a>>
    ensures found { IfSome result (λ t. IsTask main.now date.now number.now out.now t.day t.bound) }
    ensures out { IfSome result (λ t. t.out.now ≡ out.now) }
    ensures none { IfNone result ((day : days.Day) (bound : ℕ) → IsTask main.now date.now number.now out.now day bound → ⊥) }
{
    if !is_name(main.as_bytes()) || !is_name(out.as_bytes()) {
        return None;
    }
    match read_day(date) {
        Some(day) => match read_bound(number) {
            Some(bound) => Some(Task { day, bound, out }),
            None => None,
        },
        None => None,
    }
}
