//! How probes make public calls while requests for memory are refused: each call is named as it is made. Where it is
//! refused its name is told on standard error, what it was called on has to be as it was before, and the same call
//! again has to succeed.
//!
//! A call's row is a case of an enum, whose name is the call's: `State::merge` is `StateMerge`, `read_url` is
//! `ReadUrl`. `tests/memory/calls.py` finds the calls in the sources, so that none is without a row. An attempt gives
//! `None` where what the call is made on was refused.
#![tactic(auto)]

ghost use Rattle.std.specs.Fn.{FnReturnsAt};
ghost use Rattle.std.specs.Prelude.{◌≡◌, ◌⊎◌, true, false, cond, Some, IfOk};
ghost use Rattle.refused_calls.specs.declared.Tried.TheVariants.{Answered, Refused, Repeated, Changed};

use anyhow::{Result, bail};
use std::fmt::Debug;

/// What came of a call.
#[derive(Clone, Copy, Debug, PartialEq, Eq)]
pub enum Tried {
    Answered,
    Refused,
    /// Refused with all as it was, and answered at the second try on the same.
    Repeated,
    /// Refused, and something is different.
    Changed,
}

/// What became of what a call was made on.
#[derive(Clone, Copy, Debug)]
pub struct Change {
    /// The call was answered.
    pub is_answered: bool,
    /// All was as before where it wasn't.
    pub is_as_before: bool,
    /// The same call was answered then.
    pub is_repeated: bool,
}

impl Tried {
    /// What came of a call that changes nothing.
    pub fn of(is_answered: bool) -> Tried
        ensures { result ≡ cond is_answered Answered Refused }
    {
        Tried::of_change(Change {
            is_answered,
            is_as_before: true,
            is_repeated: false,
        })
    }

    /// What came of a call that changes something.
    pub fn of_change(change: Change) -> Tried
        ensures answered { change.is_answered ≡ true → result ≡ Answered }
        ensures changed { change.is_answered ≡ false → change.is_as_before ≡ false → result ≡ Changed }
        ensures repeated { change.is_answered ≡ false → change.is_as_before ≡ true
            → result ≡ cond change.is_repeated Repeated Refused }
    {
        if change.is_answered {
            Tried::Answered
        } else if !change.is_as_before {
            Tried::Changed
        } else if change.is_repeated {
            Tried::Repeated
        } else {
            Tried::Refused
        }
    }
}

/// What came of a call, which is made again where what it is made on was refused.
fn attempt<F: Fn() -> Option<Tried>>(call: F) -> Option<Tried>
    requires { F.IsAlwaysCallable call }
    ensures { F.post call result }
{
    match call() {
        Some(tried) => Some(tried),
        None => call(),
    }
}

/// Makes a call that asks for memory, once more where it is refused.
pub fn insist<R: Print + Eprint, N: Debug + Copy, F: Fn() -> Option<Tried>>(
    rt: &R,
    name: N,
    call: F,
) -> Result<()>
    requires { F.IsAlwaysCallable call }
    ensures { IfOk result (λ _. F.post call (Some Answered) ⊎ F.post call (Some Repeated)) }
{
    println!(rt; "{name:?}")?;
    let tried = attempt(&call);
    if tried == Some(Tried::Answered) {
        return Ok(());
    }
    eprintln!(rt; "{name:?}")?;
    let again = match tried {
        Some(Tried::Refused) => attempt(&call),
        other => other,
    };
    match again {
        Some(Tried::Answered | Tried::Repeated) => Ok(()),
        Some(Tried::Changed) => bail!("a refused {name:?} changed something"),
        _ => bail!("{name:?} is refused twice"),
    }
}

/// Makes a call that shares what it copies, and asks for no memory.
pub fn share<R: Print, N: Debug + Copy, F: Fn() -> Option<Tried>>(
    rt: &R,
    name: N,
    call: F,
) -> Result<()>
    requires { F.IsAlwaysCallable call }
    ensures { IfOk result (λ _. F.post call (Some Answered)) }
{
    println!(rt; "{name:?}, which asks for none")?;
    if attempt(call) != Some(Tried::Answered) {
        bail!("{name:?} asks for memory");
    }
    Ok(())
}

/// What may be asked for again where a helper of these files is refused.
pub fn again<T, F: Fn() -> Option<T>>(make: F) -> Result<T>
    requires { F.IsAlwaysCallable make }
    ensures { IfOk result (λ made. F.post make (Some made)) }
{
    match make() {
        Some(made) => Ok(made),
        None => match make() {
            Some(made) => Ok(made),
            None => bail!("what calls are made on is refused twice"),
        },
    }
}
