//! Laws of the operator table, for the layers that stand on it. Each is the contract of a function
//! that does nothing.

ghost use Rattle.fir_bits.specs.working.Laws.{Monotone, HasItsType, CutUndoesExtend, ExtendKeepsInteger, HeadBesideTail, CvtKeepsInteger, PadKeepsInteger, NegGivesNegative, ReinterpretKeepsBits, WordsAreRead, LeastWidthIsLeast};

/// Wider operands never give a narrower result, so that a least solution of widths exists. An
/// operand or result of more than 128 bits counts as 129 (FIRRTL spec, "Width Inference").
pub fn monotone()
    ensures { Monotone }
{}

/// The value of an operation has the kind and the width of the operation's type.
pub fn has_its_type()
    ensures { HasItsType }
{}

/// Cutting a value that was extended to its first width gives it back.
pub fn cut_undoes_extend()
    ensures { CutUndoesExtend }
{}

/// A value that is extended by its sign stands for the same integer.
pub fn extend_keeps_integer()
    ensures { ExtendKeepsInteger }
{}

/// `cat(head(e, n), tail(e, n))` has the bits of `e`, where `n` is at most its width.
pub fn head_beside_tail()
    ensures { HeadBesideTail }
{}

/// `cvt` keeps the integer.
pub fn cvt_keeps_integer()
    ensures { CvtKeepsInteger }
{}

/// `pad` keeps the integer.
pub fn pad_keeps_integer()
    ensures { PadKeepsInteger }
{}

/// `neg` gives the integer's negative.
pub fn neg_gives_negative()
    ensures { NegGivesNegative }
{}

/// `asUInt` and `asSInt` keep the bits.
pub fn reinterpret_keeps_bits()
    ensures { ReinterpretKeepsBits }
{}

/// The word of an operation is read as that operation.
pub fn words_are_read()
    ensures { WordsAreRead }
{}

/// A literal's least width holds its number, and no lesser one from 1 on does (FIRRTL spec, "Literals").
pub fn least_width_is_least()
    ensures { LeastWidthIsLeast }
{}
