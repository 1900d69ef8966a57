ghost use Rattle.std.specs.Prelude.{◌≡◌, IfOk};

use crate::{Fact, Label, Role, Rule, RuleForm, RuleInst, Seed, View};
use std::alloc::Global;
use y2k_base::{Memory, Twin};

impl Twin for Label {
    fn twin(&self, _: Global) -> Result<Label, Memory> {
        Ok(*self)
    }
}

impl Twin for Fact {
    fn twin(&self, _: Global) -> Result<Fact, Memory> {
        Ok(*self)
    }
}

impl Twin for Seed {
    fn twin(&self, _: Global) -> Result<Seed, Memory> {
        Ok(*self)
    }
}

impl Twin for Role {
    fn twin(&self, _: Global) -> Result<Role, Memory> {
        Ok(*self)
    }
}

impl Twin for Rule {
    fn twin(&self, _: Global) -> Result<Rule, Memory> {
        Ok(*self)
    }
}

impl Twin for View {
    fn twin(&self, alloc: Global) -> Result<View, Memory> {
        match self {
            View::Bytes { span, powers } => Ok(View::Bytes {
                span: *span,
                powers: powers.twin(alloc)?,
            }),
            View::Packed { span, digits } => Ok(View::Packed {
                span: *span,
                digits: *digits,
            }),
            View::Plain => Ok(View::Plain),
        }
    }
}

impl Twin for RuleForm {
    fn twin(&self, alloc: Global) -> Result<RuleForm, Memory> {
        match self {
            RuleForm::Give { fact } => Ok(RuleForm::Give { fact: *fact }),
            RuleForm::GiveDigit { view, power, role } => Ok(RuleForm::GiveDigit {
                view: view.twin(alloc)?,
                power: *power,
                role: *role,
            }),
            RuleForm::Alike { a, b } => Ok(RuleForm::Alike { a: *a, b: *b }),
            RuleForm::Digits { a, b } => Ok(RuleForm::Digits {
                a: a.twin(alloc)?,
                b: b.twin(alloc)?,
            }),
            RuleForm::Fill { view, from } => Ok(RuleForm::Fill {
                view: view.twin(alloc)?,
                from: *from,
            }),
            RuleForm::Sum { a, b, c } => Ok(RuleForm::Sum {
                a: a.twin(alloc)?,
                b: b.twin(alloc)?,
                c: c.twin(alloc)?,
            }),
            RuleForm::Difference { a, b, c } => Ok(RuleForm::Difference {
                a: a.twin(alloc)?,
                b: b.twin(alloc)?,
                c: c.twin(alloc)?,
            }),
        }
    }
}

impl Twin for RuleInst {
    fn twin(&self, alloc: Global) -> Result<RuleInst, Memory> {
        Ok(RuleInst {
            rule: self.rule,
            at: self.at,
            form: self.form.twin(alloc)?,
        })
    }
}
