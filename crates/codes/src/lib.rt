// The two codes (document 02, 2026-13): by which coefficients a volume is made.
#![tactic(auto)]

ghost use Rattle.std.specs.Prelude.{◌≡◌};
ghost use Rattle.codes.specs.Codes.{CodeFrom, code_number, code_of};

// Par 1.0's own code, whose coefficients are powers, and the code of Cauchy coefficients.
#[derive(Clone, Copy, Debug, PartialEq, Eq)]
pub enum Code {
    Powers,
    Cauchy,
}

// The refusal of a number that is that of no code.
#[derive(Clone, Copy, Debug, PartialEq, Eq)]
pub struct NoCode;

// The number of a code.
impl From<Code> for u64 {
    ghost from_gives = { λ code number. number ≡ code_number code };

    fn from(code: Code) -> u64 {
        match code {
            Code::Powers => 0,
            Code::Cauchy => 1,
        }
    }
}

// The code of a number, where it is that of a code.
impl TryFrom<u64> for Code {
    type Error = NoCode;

    ghost try_from_gives = { CodeFrom };

    fn try_from(number: u64) -> Result<Code, NoCode> {
        match number {
            0 => Ok(Code::Powers),
            1 => Ok(Code::Cauchy),
            _ => Err(NoCode),
        }
    }
}

// The code of a number; any number but 0 gives the second.
pub fn code_of(number: u64) -> Code
    ensures { result ≡ code_of number }
{
    Code::try_from(number).unwrap_or(Code::Cauchy)
}
