ghost use Rattle.std.specs.Prelude.{◌≡◌, ℕ, List, map, string_bytes};
ghost use Rattle.shelf.specs.Causes.{Rose};
ghost use Rattle.answers.specs.Said.{IsSaid};
ghost use Rattle.label_command.specs.Answer.{IsAnswered};
ghost use Rattle.label_report.specs.Answer as report;
ghost use Rattle.plan_command.specs.Answer as planning;
ghost use Rattle.run_command.specs.Answer as running;
ghost use Rattle.trial_run.specs.declared.day.Day as days;
ghost use Rattle.annodomini_cli.specs.Command.{IsLabel, IsLabelOne, IsNoPlan, IsNoRun, IsPlan, IsRun};
ghost use Rattle.annodomini_cli.specs.Forms.{HaveNoForm};
ghost use Rattle.annodomini_cli.specs.WriteWords.{IsNoConversion};

use crate::command::{label_one_of, manifest_of};
use crate::run_words::run_of;
use crate::write_words::conversion_of;
use answers::{USAGE, say};
use convert_command::report_conversion;
use label_command::label_one;
use label_report::report_labels;
use plan_command::report_plan;
use run_command::report_run;
use shelf::{Shelf, Sink};
use std::alloc::Global;

/// What the program prints for words that have no form.
const USAGE_LINE: &str =
    "usage: annodomini label-one SRC ITEM, label M, plan M, convert M OUT, run M JOB YYMMDD BOUND OUT, generate N OUT, agree M JOB YYMMDD BOUND OUT, update M1 M2, age M YEARS OUT, age-new M NEW YEARS OUT, contract M NEW OUT\n";

/// Does what the words ask for, prints the answer, and gives the exit status.
pub fn annodomini<S: Shelf, K: Sink>(
    alloc: Global,
    words: &[String],
    shelf: &mut S,
    out: &mut K,
) -> u8
    // Words without a form, and no others, have status 2 and the usage line.
    ensures usage { HaveNoForm (map string_bytes words.now) → IsSaid 2 USAGE_LINE.now (K.taken out.old) (K.taken out.new) result }
    ensures no_form { result ≡ 2 → HaveNoForm (map string_bytes words.now) }

    // The label lines of one program.
    ensures label_one { (source : List ℕ) → (item : List ℕ) → IsLabelOne (map string_bytes words.now) source item → IsAnswered source item (S.told shelf.old) (K.taken out.old) (K.taken out.new) result }

    // The labels of the portfolio of a manifest, or its conflicts.
    ensures label { (main : List ℕ) → IsLabel (map string_bytes words.now) main → report.IsAnswered (report.IsAnswer main (S.told shelf.old)) (K.taken out.old) (K.taken out.new) result }

    // What a conversion would change in the pictures of the portfolio of a manifest, or what stands against it.
    ensures plan { (main : List ℕ) → IsPlan (map string_bytes words.now) main → report.IsAnswered (planning.IsAnswer main (S.told shelf.old)) (K.taken out.old) (K.taken out.new) result }

    // A fault of the outside is answered only where it came.
    ensures shelf_fault { result ≡ 6 → Rose (S.faults shelf.old) (S.faults shelf.new) }
    ensures sink_fault { result ≡ 7 → Rose (K.faults out.old) (K.faults out.new) }

    // A job of the portfolio of a manifest.
    ensures run { (main : List ℕ) (job : List ℕ) (day : days.Day) (bound : ℕ) (into : List ℕ) → IsRun (map string_bytes words.now) main job day bound into →
        running.IsAnswered (running.IsAnswer (S.told shelf.old) main job day bound into) (K.taken out.old) (K.taken out.new) (S.told shelf.new) result }

    // But for a run and a conversion the files stay as they are.
    ensures same { IsNoRun (map string_bytes words.now) → IsNoConversion (map string_bytes words.now) → S.told shelf.new ≡ S.told shelf.old }
{
    match label_one_of(words) {
        Some(found) => label_one(alloc, found.source, found.item, shelf, out),
        None => match manifest_of(words, "label") {
            Some(main) => report_labels(alloc, main, shelf, out),
            None => plan_or_run(alloc, words, shelf, out),
        },
    }
}

/// Plans a conversion or runs a job, where the words ask for it, or prints the usage line.
fn plan_or_run<S: Shelf, K: Sink>(alloc: Global, words: &[String], shelf: &mut S, out: &mut K) -> u8
    ensures usage { IsNoPlan (map string_bytes words.now) → IsNoRun (map string_bytes words.now) → IsNoConversion (map string_bytes words.now) → IsSaid 2 USAGE_LINE.now (K.taken out.old) (K.taken out.new) result }
    ensures no_plan { result ≡ 2 → IsNoPlan (map string_bytes words.now) }
    ensures no_run { result ≡ 2 → IsNoRun (map string_bytes words.now) }
    ensures no_conversion { result ≡ 2 → IsNoConversion (map string_bytes words.now) }
    ensures plan { (main : List ℕ) → IsPlan (map string_bytes words.now) main → report.IsAnswered (planning.IsAnswer main (S.told shelf.old)) (K.taken out.old) (K.taken out.new) result }
    ensures run { (main : List ℕ) (job : List ℕ) (day : days.Day) (bound : ℕ) (into : List ℕ) → IsRun (map string_bytes words.now) main job day bound into →
        running.IsAnswered (running.IsAnswer (S.told shelf.old) main job day bound into) (K.taken out.old) (K.taken out.new) (S.told shelf.new) result }
    ensures shelf_fault { result ≡ 6 → Rose (S.faults shelf.old) (S.faults shelf.new) }
    ensures sink_fault { result ≡ 7 → Rose (K.faults out.old) (K.faults out.new) }
    ensures same { IsNoRun (map string_bytes words.now) → IsNoConversion (map string_bytes words.now) → S.told shelf.new ≡ S.told shelf.old }
{
    match manifest_of(words, "plan") {
        Some(main) => report_plan(alloc, main, shelf, out),
        None => run_or_usage(alloc, words, shelf, out),
    }
}

/// Runs a job, where the words ask for it, or prints the usage line.
fn run_or_usage<S: Shelf, K: Sink>(
    alloc: Global,
    words: &[String],
    shelf: &mut S,
    out: &mut K,
) -> u8
    ensures usage { IsNoRun (map string_bytes words.now) → IsNoConversion (map string_bytes words.now) → IsSaid 2 USAGE_LINE.now (K.taken out.old) (K.taken out.new) result }
    ensures no_form { result ≡ 2 → IsNoRun (map string_bytes words.now) }
    ensures no_conversion { result ≡ 2 → IsNoConversion (map string_bytes words.now) }
    ensures run { (main : List ℕ) (job : List ℕ) (day : days.Day) (bound : ℕ) (into : List ℕ) → IsRun (map string_bytes words.now) main job day bound into →
        running.IsAnswered (running.IsAnswer (S.told shelf.old) main job day bound into) (K.taken out.old) (K.taken out.new) (S.told shelf.new) result }
    ensures shelf_fault { result ≡ 6 → Rose (S.faults shelf.old) (S.faults shelf.new) }
    ensures sink_fault { result ≡ 7 → Rose (K.faults out.old) (K.faults out.new) }
    ensures same { IsNoRun (map string_bytes words.now) → IsNoConversion (map string_bytes words.now) → S.told shelf.new ≡ S.told shelf.old }
{
    match run_of(words) {
        Some(found) => {
            let task = found.task;
            report_run(
                alloc, found.main, found.job, task.day, task.bound, task.out, shelf, out,
            )
        }
        None => convert_or_usage(alloc, words, shelf, out),
    }
}

/// Converts a portfolio, where the words ask for it, or prints the usage line.
fn convert_or_usage<S: Shelf, K: Sink>(
    alloc: Global,
    words: &[String],
    shelf: &mut S,
    out: &mut K,
) -> u8
    ensures usage { IsNoConversion (map string_bytes words.now) → IsSaid 2 USAGE_LINE.now (K.taken out.old) (K.taken out.new) result }
    ensures no_conversion { result ≡ 2 → IsNoConversion (map string_bytes words.now) }
    ensures shelf_fault { result ≡ 6 → Rose (S.faults shelf.old) (S.faults shelf.new) }
    ensures sink_fault { result ≡ 7 → Rose (K.faults out.old) (K.faults out.new) }
    ensures same { IsNoConversion (map string_bytes words.now) → S.told shelf.new ≡ S.told shelf.old }
{
    match conversion_of(words) {
        Some(found) => report_conversion(alloc, found.main, found.out, shelf, out),
        None => say(USAGE_LINE.as_bytes(), USAGE, out),
    }
}
