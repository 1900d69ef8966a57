ghost use Rattle.std.specs.Prelude.{◌≡◌, IfOk, IfErr};
ghost use Rattle.exact_arithmetic.specs.Answers.{scaled_answer, outcome_answer, read_outcome};
ghost use Rattle.number_bytes.specs.Held.{read_scaled};
ghost use Rattle.program_meaning.specs.Answer.{Gives};
ghost use Rattle.storage_places.specs.Meets.{Meets};
ghost use Rattle.storage_sums.specs.Faults as spec;

use decimal_bytes::Scaled;
use exact_arithmetic::{ArithmeticFault, Outcome};
use storage_places::RunFault;

/// A fault of arithmetic as one of the run.
fn run_fault(fault: ArithmeticFault) -> RunFault
    ensures { result ≡ spec.run_fault fault }
{
    match fault {
        ArithmeticFault::Wide => RunFault::Wide,
        ArithmeticFault::Zero => RunFault::Zero,
    }
}

/// A number that was computed, or the fault of the run.
pub(crate) fn number_or_fault(number: Result<Scaled, ArithmeticFault>) -> Result<Scaled, RunFault>
    ensures ok { IfOk result (λ x. scaled_answer number ≡ Gives (read_scaled x)) }
    ensures err { IfErr result (Meets (scaled_answer number)) }
{
    match number {
        Ok(number) => Ok(number),
        Err(fault) => Err(run_fault(fault)),
    }
}

/// An outcome, or the fault of the run.
pub(crate) fn outcome_or_fault(
    outcome: Result<Outcome, ArithmeticFault>,
) -> Result<Outcome, RunFault>
    ensures ok { IfOk result (λ x. outcome_answer outcome ≡ Gives (read_outcome x)) }
    ensures err { IfErr result (Meets (outcome_answer outcome)) }
{
    match outcome {
        Ok(outcome) => Ok(outcome),
        Err(fault) => Err(run_fault(fault)),
    }
}

/// With a size phrase a divisor of 0 is a size error.
pub(crate) fn by_phrase(
    phrase: bool,
    outcome: Result<Outcome, RunFault>,
) -> Result<Outcome, RunFault>
    ensures { result ≡ spec.phrased phrase outcome }
{
    match outcome {
        Err(RunFault::Zero) if phrase => Ok(Outcome {
            is_error: true,
            result: 0,
            rest: 0,
        }),
        same => same,
    }
}
