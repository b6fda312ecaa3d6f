//! How a call of the program ends.
ghost use Rattle.std.specs.Prelude.{◌≡◌};
ghost use Rattle.statepoint_tool.specs.Status.{code_of};

/// How a call of the program ends. The variants stand in the order of their exit statuses, from 0.
#[derive(Clone, Copy, Debug, PartialEq, Eq)]
pub enum Status {
    /// The program returned, or the text was written whole.
    Done,
    /// The module has a fault.
    ModuleRefused,
    /// The words give no command.
    WordsRefused,
    /// A file that the words name could not be read.
    ReadFault,
    /// Standard output or standard error could not be written.
    WriteFault,
    /// Memory was wanted and could not be had.
    WantOfMemory,
    /// The program trapped.
    Trapped,
    /// Another step would have passed the bound on steps.
    OutOfSteps,
    /// The plan has a fault.
    PlanRefused,
    /// The input has a fault.
    InputRefused,
    /// The verifier found a fault in the rewritten module.
    CheckSaidNo,
    /// The bytes of a given stack map are no map.
    MapRefused,
    /// A file is longer than the limit.
    TooLong,
    /// The address machine ended in poison or in a lost frame.
    Stray,
}

impl Status {
    /// The exit status of the program.
    pub fn code(&self) -> u8
        ensures { result ≡ code_of self.now }
    {
        *self as u8
    }
}
