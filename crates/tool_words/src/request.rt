//! What the words of a command line ask for.
ghost use Rattle.std.specs.Prelude.{◌≡◌, IfOk, string_bytes};

use sp_ids::Memory;
use std::alloc::Global;
use std::marker::Model;

/// The name of a file, as a word of the command line gives it. Contracts see its bytes.
#[derive(Debug, Drop)]
pub struct FileName {
    text: String,
}

impl Model for FileName {
    ghost use Rattle.std.specs.Prelude.{ℕ, List, string_bytes};

    ghost Value = { List ℕ };

    ghost view = { λ name. string_bytes name.text };
}

impl FileName {
    /// A copy of the word.
    pub fn of(alloc: Global, word: &str) -> Result<FileName, Memory>
        ensures { IfOk result (λ name. name ≡ word.now) }
    {
        Ok(FileName {
            text: String::from_str(alloc, word)?,
        })
    }

    /// The bytes of the name.
    pub fn bytes(&self) -> &[u8]
        ensures { result.now ≡ self.now }
    {
        self.text.as_bytes()
    }

    /// The name as text.
    pub fn as_str(&self) -> &str
        ensures { result.now ≡ self.now }
    {
        self.text.as_str()
    }
}

/// A run that the words ask for: the names of the files that it takes, and how many steps it may take.
#[derive(Debug, Drop)]
pub struct RunRequest {
    pub code: FileName,
    pub input: FileName,
    pub plan: FileName,
    pub steps: u64,
}

/// What the options of the command line choose. Without one of the name a stack map is the module's own.
#[derive(Debug, Drop)]
pub(crate) struct Options {
    pub(crate) raw: bool,
    pub(crate) places: bool,
    pub(crate) trace: bool,
    pub(crate) trust: bool,
    pub(crate) map: Option<FileName>,
}

/// What is written of a rewritten module.
#[derive(Clone, Copy, Debug, PartialEq, Eq)]
pub enum Part {
    Text,
    /// Its stack map as text.
    MapText,
    /// The bytes of its stack map.
    MapBytes,
}

/// What the words of the command line ask for.
#[derive(Debug, Drop)]
pub enum Command {
    /// Write the text of the module.
    Show {
        module: FileName,
    },
    /// Write this of the rewritten module.
    Rewrite {
        module: FileName,
        part: Part,
    },
    /// Say whether the verifier finds a fault in this rewritten module, and which is the least.
    Check {
        module: FileName,
    },
    /// Run the module by the source meaning, over the input and under the plan, for at most so many steps.
    Source(RunRequest),
    /// The same, of its rewritten module on the address machine, over the stack map in the file of this name, or else over its own.
    Run {
        request: RunRequest,
        map: Option<FileName>,
        /// The objects that live at the end are shown, each with its place.
        places: bool,
        /// What each event does is shown.
        trace: bool,
    },
    /// The same, of this module, which is a rewritten one. It is verified first, unless it is trusted.
    Exec {
        request: RunRequest,
        map: Option<FileName>,
        trust: bool,
        places: bool,
        trace: bool,
    },
    /// Make the module of this seed and size, rewrite it, run it while all objects move at each event, for at most so many steps,
    /// and write its numbers.
    Gen {
        seed: u64,
        size: u32,
        steps: u64,
    },
}
