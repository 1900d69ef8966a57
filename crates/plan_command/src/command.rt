ghost use Rattle.std.specs.Prelude.{◌≡◌, ◌≢◌, IfOk};
ghost use Rattle.std.specs.List.{AllByRecursion};
ghost use Rattle.data_layout.specs.Index.{IsReady};
ghost use Rattle.shelf.specs.Causes.{Rose};
ghost use Rattle.year_labels.specs.Facts.{IsClean};
ghost use Rattle.convert_plan.specs.Plans.{IsPlanOf};
ghost use Rattle.text_conversion.specs.Faults.{HasConversionFault};
ghost use Rattle.label_report.specs.Answer as labels;
ghost use Rattle.reports.specs.Limits as limits;
ghost use Rattle.reports.specs.Plans as plans;
ghost use Rattle.plan_command.specs.Answer as spec;

use answers::{CONFLICT, DONE, LIMIT, NO_MEMORY, say};
use convert_plan::{Plan, PlanFault};
use label_report::conflicts_text;
use labelled_portfolio::{Labelled, label_portfolio};
use manifest_load::{Opened, open_manifest};
use plan_limits::Limit;
use refusal_lines::{refuse, refuse_manifest};
use reports::{limit_line, plan_rows};
use shelf::{Shelf, Sink};
use std::alloc::Global;
use text_conversion::convert_portfolio;
use y2k_base::{Bytes, Memory};

/// Prints the rows of the plan of that manifest's portfolio, or, where something stands against its conversion, the line of
/// the first limit; where a byte has unlike labels, its conflicts; else the line of the first refusal. The status is 0, 1, 3,
/// 4, 6, 7 or 8.
pub fn report_plan<S: Shelf, K: Sink>(alloc: Global, main: &str, shelf: &mut S, out: &mut K) -> u8
    ensures answer { labels.IsAnswered (spec.IsAnswer main.now (S.told shelf.old)) (K.taken out.old) (K.taken out.new) result }
    ensures form { result ≢ 2 }
    ensures shelf_fault { result ≡ 6 → Rose (S.faults shelf.old) (S.faults shelf.new) }
    ensures sink_fault { result ≡ 7 → Rose (K.faults out.old) (K.faults out.new) }
    ensures same { S.told shelf.new ≡ S.told shelf.old }
{
    match open_manifest(alloc, main, shelf) {
        Ok(opened) => report_opened(alloc, &opened, shelf, out),
        Err(refusal) => refuse_manifest(alloc, main, &refusal, out),
    }
}

fn report_opened<S: Shelf, K: Sink>(
    alloc: Global,
    opened: &Opened,
    shelf: &mut S,
    out: &mut K,
) -> u8
    ensures answer { labels.IsAnswered (spec.IsAnswerFor (S.told shelf.old) opened.now) (K.taken out.old) (K.taken out.new) result }
    ensures form { result ≢ 2 }
    ensures shelf_fault { result ≡ 6 → Rose (S.faults shelf.old) (S.faults shelf.new) }
    ensures sink_fault { result ≡ 7 → Rose (K.faults out.old) (K.faults out.new) }
    ensures same { S.told shelf.new ≡ S.told shelf.old }
{
    match label_portfolio(alloc, opened, shelf) {
        Ok(labelled) => report(alloc, opened, &labelled, out),
        Err(refusal) => refuse(alloc, opened, &refusal, out),
    }
}

/// Prints the plan of a labelled portfolio, what stands against it, or its conflicts.
fn report<K: Sink>(alloc: Global, opened: &Opened, labelled: &Labelled, out: &mut K) -> u8
    requires { AllByRecursion IsReady labelled.now.seeded.gathered.portfolio.layouts }
    ensures answer { labels.IsAnswered (spec.IsReport opened.now labelled.now) (K.taken out.old) (K.taken out.new) result }
    ensures form { result ≢ 2 }
    ensures inside { result ≢ 6 }
    ensures sink_fault { result ≡ 7 → Rose (K.faults out.old) (K.faults out.new) }
{
    if labelled.labels.labelling.clean() {
        report_clean(alloc, labelled, out)
    } else {
        match conflicts_text(alloc, opened, labelled) {
            Ok(rows) => say(rows.items(), CONFLICT, out),
            Err(_) => NO_MEMORY,
        }
    }
}

/// The same where no byte has unlike labels.
fn report_clean<K: Sink>(alloc: Global, labelled: &Labelled, out: &mut K) -> u8
    requires ready { AllByRecursion IsReady labelled.now.seeded.gathered.portfolio.layouts }
    requires clean { IsClean labelled.now.labels.labelling }
    ensures answer { labels.IsAnswered (spec.IsPlanned labelled.now) (K.taken out.old) (K.taken out.new) result }
    ensures form { result ≢ 2 }
    ensures inside { result ≢ 6 }
    ensures sink_fault { result ≡ 7 → Rose (K.faults out.old) (K.faults out.new) }
{
    match convert_portfolio(
        alloc,
        &labelled.seeded.gathered,
        &labelled.labels.labelling,
        &labelled.windows,
    ) {
        Ok(conversion) => report_rows(alloc, labelled, &conversion.plan, out),
        Err(fault) => report_limit(alloc, labelled, &fault, out),
    }
}

/// Prints the rows of a plan.
fn report_rows<K: Sink>(alloc: Global, labelled: &Labelled, plan: &Plan, out: &mut K) -> u8
    requires { IsPlanOf labelled.now.labels.labelling labelled.now.seeded.gathered.portfolio labelled.now.windows plan.now }
    ensures answer { labels.IsAnswered (spec.IsPlanned labelled.now) (K.taken out.old) (K.taken out.new) result }
    ensures form { result ≢ 2 }
    ensures inside { result ≢ 6 }
    ensures sink_fault { result ≡ 7 → Rose (K.faults out.old) (K.faults out.new) }
{
    match plan_text(alloc, labelled, plan) {
        Ok(rows) => say(rows.items(), DONE, out),
        Err(_) => NO_MEMORY,
    }
}

/// Prints the limit that stands against a conversion.
pub fn report_limit<K: Sink>(
    alloc: Global,
    labelled: &Labelled,
    fault: &PlanFault,
    out: &mut K,
) -> u8
    requires { HasConversionFault labelled.now.labels.labelling labelled.now.seeded.gathered.portfolio labelled.now.windows fault.now }
    ensures answer { labels.IsAnswered (spec.IsPlanned labelled.now) (K.taken out.old) (K.taken out.new) result }
    ensures form { result ≢ 2 }
    ensures inside { result ≢ 6 }
    ensures sink_fault { result ≡ 7 → Rose (K.faults out.old) (K.faults out.new) }
{
    match fault {
        PlanFault::Limit(limit) => match limit_text(alloc, labelled, limit) {
            Ok(line) => say(line.items(), LIMIT, out),
            Err(_) => NO_MEMORY,
        },
        PlanFault::Memory => NO_MEMORY,
    }
}

fn plan_text(alloc: Global, labelled: &Labelled, plan: &Plan) -> Result<Bytes, Memory>
    ensures { IfOk result (plans.IsPlanReport labelled.now.seeded.gathered.texts labelled.now.seeded.gathered.portfolio plan.now.index) }
{
    let gathered = &labelled.seeded.gathered;
    let text = plan_rows(alloc, &gathered.texts, &gathered.portfolio, plan)?;
    Ok(text)
}

fn limit_text(alloc: Global, labelled: &Labelled, limit: &Limit) -> Result<Bytes, Memory>
    ensures { IfOk result (λ line. line ≡ limits.limit_line labelled.now.seeded.gathered.texts labelled.now.seeded.gathered.portfolio limit.now) }
{
    let gathered = &labelled.seeded.gathered;
    let line = limit_line(alloc, &gathered.texts, &gathered.portfolio, limit)?;
    Ok(line)
}
