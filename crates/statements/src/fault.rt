// Why a statement was refused.
ghost use Rattle.std.specs.Prelude.{◌≡◌};
ghost use Rattle.statements.specs.Faults.{statement_refusal};

// Each refusal has the number that it is known by.
#[derive(Clone, Copy, PartialEq, Eq, Debug)]
pub enum StatementFault {
    // The period is above 95.
    Period = 17,
    // The statement is longer than the buffer.
    Long = 35,
}

impl StatementFault {
    // The number that the refusal is known by.
    pub fn number(self) -> u8
        ensures { result ≡ statement_refusal self }
    {
        self as u8
    }
}
