ghost use Rattle.std.specs.Prelude.{IfOk, IfErr};
ghost use Rattle.std.specs.List.{AllByRecursion};
ghost use Rattle.data_layout.specs.Index.{IsReady};
ghost use Rattle.year_labels.specs.Facts.{IsClean};
ghost use Rattle.convert_plan.specs.Plans.{IsPlanOf};
ghost use Rattle.text_conversion.specs.Faults as spec;

use crate::clash::limit_of;
use crate::convert::convert_texts;
use convert_plan::{Plan, PlanFault, make_plan};
use gathered::Gathered;
use std::alloc::Global;
use window_items::Windows;
use y2k_base::Texts;
use year_labels::Labelling;

/// The plan of a portfolio against whose conversion nothing stands, and its texts after it.
pub struct Conversion<'a> {
    pub plan: Plan<'a>,
    pub texts: Texts,
}

impl<'a> Drop for Conversion<'a> {
    fn drop(self) {
        let Conversion {
            plan: _plan,
            texts: _texts,
        } = self;
    }
}

/// The conversion of a portfolio with these labels and windows, or the first limit that stands against it. The last kind of
/// limit is that programs which share words would need them unlike.
pub fn convert_portfolio<'a>(
    alloc: Global,
    gathered: &Gathered,
    labelling: &'a Labelling,
    windows: &Windows,
) -> Result<Conversion<'a>, PlanFault>
    requires ready { AllByRecursion IsReady gathered.now.portfolio.layouts }
    requires clean { IsClean labelling.now }
    ensures plan { IfOk result (λ conversion. IsPlanOf labelling.now gathered.now.portfolio windows.now conversion.plan) }
    ensures fault { IfErr result (spec.HasConversionFault labelling.now gathered.now.portfolio windows.now) }
{
    match make_plan(alloc, &gathered.portfolio, labelling, windows) {
        Ok(plan) => convert_planned(alloc, gathered, labelling, windows, plan),
        Err(fault) => Err(fault),
    }
}

fn convert_planned<'a>(
    alloc: Global,
    gathered: &Gathered,
    labelling: &'a Labelling,
    windows: &Windows,
    plan: Plan<'a>,
) -> Result<Conversion<'a>, PlanFault>
    requires ready { AllByRecursion IsReady gathered.now.portfolio.layouts }
    requires planned { IsPlanOf labelling.now gathered.now.portfolio windows.now plan }
    ensures plan { IfOk result (λ conversion. IsPlanOf labelling.now gathered.now.portfolio windows.now conversion.plan) }
    ensures fault { IfErr result (spec.HasConversionFault labelling.now gathered.now.portfolio windows.now) }
{
    match convert_texts(alloc, gathered, &plan) {
        Ok(texts) => Ok(Conversion { plan, texts }),
        Err(fault) => Err(limit_of(alloc, &fault)),
    }
}
