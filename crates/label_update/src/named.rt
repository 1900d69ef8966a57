ghost use Rattle.std.specs.Prelude.{◌≡◌, ◌↔◌, IfOk, map, Contains, refl};
ghost use Rattle.std.specs.Cmp.{eq_by_cmp_equiv, partial_equiv_from_equiv, partial_order_from_total};
ghost use Rattle.std.specs.BTreeSet.{IsFromIterResult};
ghost use Rattle.std.specs.Ordering.{as_partial_cmp, eq_by_cmp};
ghost use Rattle.year_labels.specs.Order.{label_cmp};
ghost use Rattle.label_update.specs.Named as spec;
ghost use Rattle.label_update.specs.Laws.{named_total};

use crate::names::{AreaName, area_names, name_at};
use data_layout::Portfolio;
use std::alloc::{AllocError, Global};
use std::cmp::Ordering;
use std::collections::BTreeSet;
use y2k_base::{Memory, Twin};
use year_labels::{Fact, Label, Labelling};

/// That the byte of an area bears a label; bytes count from 0. Named facts are in byte order of program and name, then
/// in order of turn, offset and label.
#[derive(Debug)]
pub struct NamedFact {
    pub area: AreaName,
    pub offset: u32,
    pub label: Label,
}

impl Drop for NamedFact {
    fn drop(self) {
        let NamedFact {
            area: _area,
            offset: _,
            label: _,
        } = self;
    }
}

impl Twin for NamedFact {
    fn twin(&self, alloc: Global) -> Result<NamedFact, Memory> {
        Ok(NamedFact {
            area: self.area.twin(alloc)?,
            offset: self.offset,
            label: self.label,
        })
    }
}

impl PartialEq for NamedFact {
    ghost eq = { eq_by_cmp spec.named_cmp };

    ghost laws = { partial_equiv_from_equiv (eq_by_cmp_equiv named_total) };

    fn eq(&self, other: &NamedFact) -> bool {
        self.cmp(other) == Ordering::Equal
    }
}

impl Eq for NamedFact {
    ghost laws = { eq_by_cmp_equiv named_total };
}

impl PartialOrd for NamedFact {
    ghost partial_cmp = { as_partial_cmp spec.named_cmp };

    ghost laws = { partial_order_from_total named_total };

    fn partial_cmp(&self, other: &NamedFact) -> Option<Ordering> {
        Some(self.cmp(other))
    }
}

impl Ord for NamedFact {
    ghost cmp = { spec.named_cmp };

    ghost total = { named_total };

    ghost matches_partial_cmp = { λ x y. refl };

    ghost matches_eq = { λ x y. refl };

    fn cmp(&self, other: &NamedFact) -> Ordering {
        let programs = self.area.program.items().cmp(other.area.program.items());
        let names = self.area.name.items().cmp(other.area.name.items());
        let turns = self.area.turn.cmp(&other.area.turn);
        let offsets = self.offset.cmp(&other.offset);
        let labels = cmp_labels(self.label, other.label);
        programs.then(names.then(turns.then(offsets.then(labels))))
    }
}

fn cmp_labels(first: Label, second: Label) -> Ordering
    ensures { result ≡ label_cmp first second }
{
    first.cmp(&second)
}

/// The facts of a labelling of the portfolio, with the names of their areas.
pub(crate) fn named_facts(
    alloc: Global,
    portfolio: &Portfolio,
    labelling: &Labelling,
) -> Result<BTreeSet<NamedFact>, Memory>
    ensures { IfOk result (λ named. spec.AreNamed portfolio.now labelling.now named.keys) }
{
    let names = area_names(alloc, portfolio)?;
    let facts = with_names(alloc, names.items(), labelling)?;
    let named = as_set(alloc, facts)?;
    Ok(named)
}

/// The facts in order, each with the name of its area.
fn with_names(
    alloc: Global,
    names: &[AreaName],
    labelling: &Labelling,
) -> Result<Vec<NamedFact>, Memory>
    ensures { IfOk result (λ facts. facts.items ≡ map (spec.named_fact names.now) labelling.now) }
{
    let mut facts = Vec::new(alloc);
    for i in 0..labelling.count() {
        match labelling.at(i) {
            Some(fact) => facts.push(with_name(alloc, names, fact)?)?,
            None => return Ok(facts),
        }
    }
    Ok(facts)
}

fn with_name(alloc: Global, names: &[AreaName], fact: Fact) -> Result<NamedFact, Memory>
    ensures { IfOk result (λ named. named ≡ spec.named_fact names.now fact) }
{
    let area = name_at(alloc, names, fact.place.area)?;
    Ok(NamedFact {
        area,
        offset: fact.place.offset,
        label: fact.label,
    })
}

/// Each of the facts once, in order.
fn as_set(alloc: Global, facts: Vec<NamedFact>) -> Result<BTreeSet<NamedFact>, AllocError>
    ensures ordered { IfOk result (λ set. spec.IsAscending set.keys) }
    ensures same { IfOk result (λ set. (f : _) → Contains set.keys f ↔ Contains facts.items f) }
{
    let set = collected(alloc, facts)?;
    Ok(set)
}

fn collected(alloc: Global, facts: Vec<NamedFact>) -> Result<BTreeSet<NamedFact>, AllocError>
    ensures { IfOk result (IsFromIterResult spec.named_cmp facts.items) }
{
    facts.into_iter().collect(alloc)
}
