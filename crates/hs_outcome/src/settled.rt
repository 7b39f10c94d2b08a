// Answers with their faults.
ghost use Rattle.std.specs.Prelude.{◌≡◌, Result, IfOk};
ghost use Rattle.hs_exec.specs.declared.answer.Answer.{Answer as TheAnswer};
ghost use Rattle.hs_rel.specs.Outcome.{Answers, IsNoVerdict, stop_of};
ghost use Rattle.hs_values.specs.declared.fault.EvalFault.{EvalFault as Fault};

use hs_exec::Answer;
use hs_rel::EvalStop;
use hs_values::EvalFault;

/// What an evaluation gave, its fault among it. An `Err` is a stop, or want of memory.
pub(crate) fn settled(
    given: Result<Answer, EvalStop>,
) -> Result<Result<Answer, EvalFault>, EvalStop>
    ensures answer { (means : Result TheAnswer Fault) → Answers means given → IfOk result (λ outcome. means ≡ outcome) }
    ensures stop { stop_of result ≡ stop_of given }
    ensures err { IsNoVerdict result }
{
    match given {
        Ok(answer) => Ok(Ok(answer)),
        Err(EvalStop::Fault(EvalFault::NoMemory)) => Err(EvalStop::Fault(EvalFault::NoMemory)),
        Err(EvalStop::Fault(fault)) => Ok(Err(fault)),
        Err(EvalStop::Stop(kind)) => Err(EvalStop::Stop(kind)),
    }
}
