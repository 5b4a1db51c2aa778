//! Carriers: what a stream yields to represent a value.
ghost use Rattle.std.specs.Prelude.{◌≡◌, true, IfOk, ⊤};
ghost use Rattle.std.specs.Rc.{rc_value};
ghost use Rattle.blaze_entries.specs.Painted.{ClonesAreAlike};
ghost use Rattle.blaze_streams.specs.Carried.{shown_option, AreOptions};

use std::alloc::AllocError;
use std::rc::Rc;

/// Represents one value in a stream: for example by a reference, by an `Rc` or as an owned value.
pub trait ValueCarrier: Drop {
    /// The type of the value.
    type Value: Eq + Clone;

    // The value that a carrier represents.
    ghost shown: { Self → Self.Value };

    // A clone of a value is `==` to it.
    ghost can_carry: { Type 0 } = { ⊤ };

    // The second value is one that `carry` may represent for the first.
    ghost is_carried: { Self.Value → Self.Value → Type 0 } = { λ v w. w ≡ v };

    /// Returns whether the values of two carriers are `==`.
    fn value_eq(&self, other: &Self) -> bool
        ensures { result ≡ Self.Value.eq (shown self.now) (shown other.now) };

    /// Returns a value that is `==` to the carrier's. If an allocation fails, the carrier is dropped.
    fn into_value(self) -> Result<Self::Value, AllocError>
        requires { can_carry }
        ensures { IfOk result (λ value. Self.Value.eq (shown self) value ≡ true) };

    /// Returns another carrier. Its value is `==` to the value of `self`. If an allocation fails, this carrier is
    /// unchanged.
    fn carry(&self) -> Result<Self, AllocError>
        ensures carried { IfOk result (λ other. is_carried (shown self.now) (shown other)) }
        ensures alike { can_carry
            → IfOk result (λ other. Self.Value.eq (shown self.now) (shown other) ≡ true) };
}

/// A carrier whose value can be compared with a value.
pub trait HasValue: ValueCarrier {
    /// Returns whether the carrier's value is `==` to `value`.
    fn has_value(&self, value: &Self::Value) -> bool
        ensures { result ≡ Self.Value.eq (Self.shown self.now) value.now };
}

/// A reference represents its target. `into_value` clones, and `carry` allocates nothing.
impl<V: Eq + Clone> ValueCarrier for &V {
    type Value = V;

    ghost shown = { λ r. r.now };

    ghost can_carry = { ClonesAreAlike V.is_clone V.eq };

    fn value_eq(&self, other: &Self) -> bool {
        **self == **other
    }

    fn into_value(self) -> Result<V, AllocError> {
        (*self).clone()
    }

    fn carry(&self) -> Result<Self, AllocError> {
        Ok(*self)
    }
}

impl<V: Eq + Clone> HasValue for &V {
    fn has_value(&self, value: &V) -> bool {
        **self == *value
    }
}

/// The unit value represents itself. No method allocates.
impl ValueCarrier for () {
    type Value = ();

    ghost shown = { λ u. u };

    fn value_eq(&self, other: &Self) -> bool {
        *self == *other
    }

    fn into_value(self) -> Result<(), AllocError> {
        Ok(self)
    }

    fn carry(&self) -> Result<Self, AllocError> {
        Ok(*self)
    }
}

/// A position in a list represents itself. No method allocates.
impl ValueCarrier for usize {
    type Value = usize;

    ghost shown = { λ i. i };

    fn value_eq(&self, other: &Self) -> bool {
        *self == *other
    }

    fn into_value(self) -> Result<usize, AllocError> {
        Ok(self)
    }

    fn carry(&self) -> Result<Self, AllocError> {
        Ok(*self)
    }
}

/// A `bool` represents itself. No method allocates.
impl ValueCarrier for bool {
    type Value = bool;

    ghost shown = { λ b. b };

    fn value_eq(&self, other: &Self) -> bool {
        *self == *other
    }

    fn into_value(self) -> Result<bool, AllocError> {
        Ok(self)
    }

    fn carry(&self) -> Result<Self, AllocError> {
        Ok(*self)
    }
}

/// An `Rc` represents the value that it shares. `into_value` clones the value if other owners exist, and `carry` clones
/// the `Rc`.
impl<V: Eq + Clone> ValueCarrier for Rc<V> {
    type Value = V;

    ghost shown = { rc_value };

    ghost can_carry = { ClonesAreAlike V.is_clone V.eq };

    fn value_eq(&self, other: &Self) -> bool {
        *self.as_ref() == *other.as_ref()
    }

    fn into_value(self) -> Result<V, AllocError> {
        Rc::unwrap_or_clone(self)
    }

    fn carry(&self) -> Result<Self, AllocError> {
        self.clone()
    }
}

/// An option of a carrier represents the option of its value.
impl<VC: ValueCarrier> ValueCarrier for Option<VC> {
    type Value = Option<VC::Value>;

    ghost shown = { shown_option VC.shown };

    ghost can_carry = { VC.can_carry };

    ghost is_carried = { AreOptions VC.is_carried };

    fn value_eq(&self, other: &Self) -> bool {
        match (self, other) {
            (None, None) => true,
            (Some(carrier), Some(other)) => carrier.value_eq(other),
            _ => false,
        }
    }

    fn into_value(self) -> Result<Option<VC::Value>, AllocError> {
        match self {
            None => Ok(None),
            Some(carrier) => Ok(Some(carrier.into_value()?)),
        }
    }

    fn carry(&self) -> Result<Self, AllocError> {
        match self {
            None => Ok(None),
            Some(carrier) => Ok(Some(carrier.carry()?)),
        }
    }
}

/// A pair of carriers represents the pair of their values.
impl<VCL: ValueCarrier, VCR: ValueCarrier> ValueCarrier for (VCL, VCR) {
    type Value = (VCL::Value, VCR::Value);

    ghost shown = { λ p. (VCL.shown p.0, VCR.shown p.1) };

    ghost can_carry = { VCL.can_carry × VCR.can_carry };

    ghost is_carried = { λ p q. VCL.is_carried p.0 q.0 × VCR.is_carried p.1 q.1 };

    fn value_eq(&self, other: &Self) -> bool {
        self.0.value_eq(&other.0) && self.1.value_eq(&other.1)
    }

    fn into_value(self) -> Result<(VCL::Value, VCR::Value), AllocError> {
        let (left, right) = self;
        Ok((left.into_value()?, right.into_value()?))
    }

    fn carry(&self) -> Result<Self, AllocError> {
        Ok((self.0.carry()?, self.1.carry()?))
    }
}
