ghost use Rattle.std.specs.Prelude.{◌≡◌, ◌≤◌, ◌*◌, IfOk, length};
ghost use Rattle.portfolio_gen.specs.Digits.{HaveDigits};
ghost use Rattle.portfolio_gen.specs.Employees as employee_spec;
ghost use Rattle.portfolio_gen.specs.Sources as source_spec;

use crate::employees::employees;
use crate::sources::{manifest, seeds, source_texts};
use std::alloc::Global;
use y2k_base::{Bytes, Memory, Texts};

/// A portfolio that was made from a number.
#[derive(Debug)]
pub struct Made {
    /// The text of the manifest.
    pub manifest: Bytes,
    /// The copybook and the two programs.
    pub texts: Texts,
    /// The text of the seeds.
    pub seeds: Bytes,
    /// The file EMPIN, which the first program reads.
    pub input: Bytes,
}

impl Drop for Made {
    fn drop(self) {
        let Made {
            manifest: _manifest,
            texts: _texts,
            seeds: _seeds,
            input: _input,
        } = self;
    }
}

/// The portfolio with so many employees. Each number has one portfolio: its dates come from a sequence of numbers that
/// begins with that of the employees. A record has 20 bytes: which record it is, modulo a million, in six digits, a date
/// in six digits, and the word `EMPLOYEE`.
pub fn make(alloc: Global, number: u32) -> Result<Made, Memory>
    requires some { 1 ≤ number }
    requires most { number ≤ 1000000 }
    ensures manifest { IfOk result (λ made. made.manifest ≡ source_spec.manifest) }
    ensures texts { IfOk result (λ made. made.texts.list ≡ source_spec.source_texts) }
    ensures seeds { IfOk result (λ made. made.seeds ≡ source_spec.seeds) }
    ensures input { IfOk result (λ made. made.input ≡ employee_spec.employees number) }
    ensures length { IfOk result (λ made. length made.input ≡ 20 * number) }
    ensures digits { IfOk result (λ made. HaveDigits number made.input) }
{
    Ok(Made {
        manifest: manifest(alloc)?,
        texts: source_texts(alloc)?,
        seeds: seeds(alloc)?,
        input: employees(alloc, number)?,
    })
}
