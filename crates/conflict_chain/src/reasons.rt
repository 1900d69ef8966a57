ghost use Rattle.std.specs.Prelude.{All};
ghost use Rattle.year_labels.specs.Derivation.{AreDerivable};
ghost use Rattle.year_labels.specs.Forms.{IsFit};
ghost use Rattle.conflict_chain.specs.Reasons.{HaveChains};

use year_labels::{Labelling, RuleInst, Seed};

/// Does nothing: its contract is the law that each fact of a labelling has a chain.
pub fn each_fact_has_a_chain(seeds: &[Seed], rules: &[RuleInst], labelling: &Labelling)
    requires fit { All (λ r. IsFit r.form) rules.now }
    requires labelled { AreDerivable seeds.now rules.now labelling.now }
    ensures { HaveChains seeds.now rules.now labelling.now }
{}
