// A script: documents to add, with their answers; and why one is refused.
use builder::BuilderFault;
use document::Document;
use executable::ExecutableFault;
use refusal::Refusal;
use thiserror::Error;

/// One call of a script: a document to add, strict or not; and the answer to it, the refusal or none, once the script was run.
#[derive(Clone, Copy)]
pub struct Adding<'d> {
    pub document: Document<'d>,
    pub strict: bool,
    pub answer: Option<BuilderFault>,
}

/// Why nothing is run.
#[derive(Clone, Copy, PartialEq, Eq, Debug, Error)]
pub enum ScriptFault {
    /// No builder is made.
    #[error("{0}")]
    NoBuilder(BuilderFault),
    /// What is lent to a walk is too short. No other refusal of a finished document comes.
    #[error("{0}")]
    Finished(ExecutableFault),
}

impl From<BuilderFault> for ScriptFault {
    ghost use Rattle.std.specs.Prelude.{◌≡◌};
    ghost use Rattle.scripts.specs.declared.script.ScriptFault.TheVariants as fault;

    ghost from_gives = { λ e r. r ≡ fault.NoBuilder e };

    fn from(e: BuilderFault) -> ScriptFault {
        ScriptFault::NoBuilder(e)
    }
}

impl From<ExecutableFault> for ScriptFault {
    ghost use Rattle.std.specs.Prelude.{◌≡◌};
    ghost use Rattle.scripts.specs.declared.script.ScriptFault.TheVariants as fault;

    ghost from_gives = { λ e r. r ≡ fault.Finished e };

    fn from(e: ExecutableFault) -> ScriptFault {
        ScriptFault::Finished(e)
    }
}

impl From<ScriptFault> for Refusal {
    ghost use Rattle.std.specs.Prelude.{◌≡◌};
    ghost use Rattle.scripts.specs.Refusals.{refusal_of};

    ghost from_gives = { λ fault r. r ≡ refusal_of fault };

    fn from(fault: ScriptFault) -> Refusal {
        match fault {
            ScriptFault::NoBuilder(fault) => fault.into(),
            ScriptFault::Finished(fault) => fault.into(),
        }
    }
}
