//! Calls of closures that may fail to allocate.
ghost use Rattle.std.specs.Prelude.{IfOk};
ghost use Rattle.blaze_streams.specs.Answers.{TakesValue, AnswersAtValue};
ghost use Rattle.blaze_streams.specs.Fallible.{ok_calls};

use crate::asks::Asks;
use crate::carrier::ValueCarrier;
use std::alloc::AllocError;
use std::marker::PhantomData;

/// Calls a closure that returns a `Result`, with the arguments that `C` selects. The closure's result is returned
/// unchanged.
pub struct Fallible<C>(PhantomData<C>);

impl<F, VC: ValueCarrier, W, C: Asks<F, VC, Result<W, AllocError>>> Asks<F, VC, W> for Fallible<C> {
    type Arguments = C::Arguments;

    ghost shows = { C.shows };

    ghost calls = { ok_calls C.calls };

    ghost has_arguments = { C.has_arguments };

    fn ask(f: &mut F, carrier: VC) -> Result<W, AllocError>
        requires has { C.has_arguments (VC.shown carrier) }
        requires callable { TakesValue C.shows C.calls f.old (VC.shown carrier) }
        ensures { IfOk result (λ answer. AnswersAtValue C.shows (ok_calls C.calls) f.old
            (VC.shown carrier) answer f.new) }
    {
        C::ask(f, carrier)?
    }
}
