//! What shapes made of others accept. A caller cites a law by calling it.
ghost use Rattle.std.specs.Prelude.{◌≡◌, Bool, ◌&&◌, List, ◌++◌, length};
ghost use Rattle.sweep_rules.specs.Rules.{accepts, both, span_of};

use crate::shapes::Shape;

/// Two shapes side by side accept what both accept.
pub fn both_accept<M: Shape, N: Shape>()
    ensures { (m : M) (n : N) (bits : List Bool) → accepts (both (M.rules m) (N.rules n)) bits ≡ (accepts (M.rules m) bits && accepts (N.rules n) bits) }
{}

/// A shape over a span of the bits accepts where it accepts the bits of its span.
pub fn spans_accept<S: Shape>()
    ensures { (s : S) (front middle back : List Bool) → accepts (span_of (length front) (length middle) (S.rules s)) (front ++ middle ++ back) ≡ accepts (S.rules s) middle }
{}
