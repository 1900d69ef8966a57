ghost use Rattle.std.specs.Prelude.{◌≡◌, ◌≤◌, IfOk, IfErr, take};
ghost use Rattle.program_meaning.specs.Moves.{literal_text};
ghost use Rattle.storage_places.specs.declared.fault.RunFault.TheVariants.{Memory};

use number_bytes::put_digits;
use storage_places::RunFault;

/// The digits of a number literal.
#[derive(Clone, Copy)]
pub(crate) struct Digits {
    text: [u8; 18],
    length: u8,
    ghost short: { length ≤ 18 },
}

impl Digits {
    /// The digits of a literal. It has at most 18 in each program that is read; for a longer one, which none has, the
    /// answer is want of memory.
    pub(crate) fn of(number: i128, digits: u8) -> Result<Digits, RunFault>
        ensures text { IfOk result (λ d. take d.length d.text ≡ literal_text number digits) }
        ensures memory { IfErr result (λ fault. fault ≡ Memory) }
    {
        if digits > 18 {
            return Err(RunFault::Memory);
        }
        let mut text = [b'0'; 18];
        put_digits(number, &mut text[..digits as usize]);
        Ok(Digits {
            text,
            length: digits,
        })
    }

    pub(crate) fn bytes(&self) -> &[u8]
        ensures { result.now ≡ take self.now.length self.now.text }
    {
        &self.text[..self.length as usize]
    }
}
