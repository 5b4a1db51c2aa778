//! Ways to call a closure with a carrier: the arguments that the closure gets.
ghost use Rattle.std.specs.Prelude.{◌≡◌, true, ⊤, IfOk, IsOkAnd};
ghost use Rattle.std.specs.Fn.{Mut};
ghost use Rattle.blaze_streams.specs.Answers.{TakesValue, AnswersAtValue};
ghost use Rattle.blaze_streams.specs.Carried.{shown_pair};
ghost use Rattle.blaze_streams.specs.JoinAnswers.{either, left_or_both, both};
ghost use Rattle.blaze_streams.specs.Joins.{is_joined};
ghost use Rattle.blaze_streams.specs.declared.segmenting.joins.JoinKind.TheVariants.{Inner, Left};
ghost use Rattle.blaze_streams.specs.declared.segmenting.joins.JoinKind.TheVariants.{Full};

use crate::carrier::ValueCarrier;
use std::alloc::AllocError;

/// Calls closures with carriers.
pub trait Asks<F, VC: ValueCarrier, W> {
    /// The arguments of a call.
    type Arguments;

    // The value that the arguments represent.
    ghost shows: { Self.Arguments → VC.Value };

    // The calls of the closure that return a value.
    ghost calls: { Mut F Self.Arguments W };

    // Some arguments represent the value.
    ghost has_arguments: { VC.Value → Type 0 };

    /// Calls the closure once with the carrier and returns its result. If the closure fails to allocate, it returns
    /// `Err`.
    fn ask(f: &mut F, carrier: VC) -> Result<W, AllocError>
        requires has { has_arguments (VC.shown carrier) }
        requires callable { TakesValue shows calls f.old (VC.shown carrier) }
        ensures { IfOk result (λ answer. AnswersAtValue shows calls f.old (VC.shown carrier) answer
            f.new) };
}

/// The closure gets the carrier.
pub struct Whole;

impl<VC: ValueCarrier, W, F: FnMut(VC) -> W> Asks<F, VC, W> for Whole {
    type Arguments = (VC, ());

    ghost shows = { λ a. VC.shown a.0 };

    ghost calls = { F.FnMut };

    ghost has_arguments = { λ _. ⊤ };

    fn ask(f: &mut F, carrier: VC) -> Result<W, AllocError>
        requires callable { TakesValue (λ a. VC.shown a.0) F.FnMut f.old (VC.shown carrier) }
        ensures { IsOkAnd result (λ answer. AnswersAtValue (λ a. VC.shown a.0) F.FnMut f.old
            (VC.shown carrier) answer f.new) }
    {
        Ok(f(carrier))
    }
}

/// The closure gets the carriers of two streams at a segment of a full join. At least one is `Some`.
pub struct Either;

impl<VCL: ValueCarrier, VCR: ValueCarrier, W, F: FnMut(Option<VCL>, Option<VCR>) -> W> Asks<
    F,
    (Option<VCL>, Option<VCR>),
    W,
> for Either {
    type Arguments = (Option<VCL>, (Option<VCR>, ()));

    ghost shows = { either VCL.shown VCR.shown };

    ghost calls = { F.FnMut };

    ghost has_arguments = { λ p. is_joined Full p.0 p.1 ≡ true };

    fn ask(f: &mut F, carrier: (Option<VCL>, Option<VCR>)) -> Result<W, AllocError>
        requires callable { TakesValue (either VCL.shown VCR.shown) F.FnMut f.old
            (shown_pair VCL.shown VCR.shown carrier) }
        ensures { IsOkAnd result (λ answer. AnswersAtValue (either VCL.shown VCR.shown) F.FnMut f.old
            (shown_pair VCL.shown VCR.shown carrier) answer f.new) }
    {
        let (left, right) = carrier;
        Ok(f(left, right))
    }
}

/// The closure gets the left stream's carrier, and the right stream's if it exists, at a segment of a left join.
pub struct LeftOrBoth;

impl<VCL: ValueCarrier, VCR: ValueCarrier, W, F: FnMut(VCL, Option<VCR>) -> W> Asks<
    F,
    (Option<VCL>, Option<VCR>),
    W,
> for LeftOrBoth {
    type Arguments = (VCL, (Option<VCR>, ()));

    ghost shows = { left_or_both VCL.shown VCR.shown };

    ghost calls = { F.FnMut };

    ghost has_arguments = { λ p. is_joined Left p.0 p.1 ≡ true };

    fn ask(f: &mut F, carrier: (Option<VCL>, Option<VCR>)) -> Result<W, AllocError>
        requires has { let pair = shown_pair VCL.shown VCR.shown carrier in is_joined Left pair.0
            pair.1 ≡ true }
        requires callable { TakesValue (left_or_both VCL.shown VCR.shown) F.FnMut f.old
            (shown_pair VCL.shown VCR.shown carrier) }
        ensures { IsOkAnd result (λ answer. AnswersAtValue (left_or_both VCL.shown VCR.shown) F.FnMut f.old
            (shown_pair VCL.shown VCR.shown carrier) answer f.new) }
    {
        let (left, right) = carrier;
        let Some(left) = left else { unreachable!() };
        Ok(f(left, right))
    }
}

/// The closure gets the carriers of both streams, at a segment of an inner join.
pub struct Both;

impl<VCL: ValueCarrier, VCR: ValueCarrier, W, F: FnMut(VCL, VCR) -> W> Asks<
    F,
    (Option<VCL>, Option<VCR>),
    W,
> for Both {
    type Arguments = (VCL, (VCR, ()));

    ghost shows = { both VCL.shown VCR.shown };

    ghost calls = { F.FnMut };

    ghost has_arguments = { λ p. is_joined Inner p.0 p.1 ≡ true };

    fn ask(f: &mut F, carrier: (Option<VCL>, Option<VCR>)) -> Result<W, AllocError>
        requires has { let pair = shown_pair VCL.shown VCR.shown carrier in is_joined Inner pair.0
            pair.1 ≡ true }
        requires callable { TakesValue (both VCL.shown VCR.shown) F.FnMut f.old
            (shown_pair VCL.shown VCR.shown carrier) }
        ensures { IsOkAnd result (λ answer. AnswersAtValue (both VCL.shown VCR.shown) F.FnMut f.old
            (shown_pair VCL.shown VCR.shown carrier) answer f.new) }
    {
        let (left, right) = carrier;
        let Some(left) = left else { unreachable!() };
        let Some(right) = right else { unreachable!() };
        Ok(f(left, right))
    }
}
