//! Laws of the definitions, each as the contract of a function that does nothing.

ghost use Rattle.text_pieces.specs.Laws.{AreCutsJoined, AreNumbersReadBack};

/// `cut_first(b, t)` is `Some((x, y))` if and only if `t` is `x`, `b` and `y`, and `x` has no `b`. `cut_last` likewise, with no `b` in
/// `y`. The parts between all such bytes are the part before the first and those of the rest.
pub fn cuts_join_back()
    ensures { AreCutsJoined }
{}

/// Reading plain digits is the inverse of printing a number. The reading that allows zeros before a number then says the same.
pub fn numbers_read_back()
    ensures { AreNumbersReadBack }
{}
