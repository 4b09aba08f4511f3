//! The usage text.

/// What is printed where the words are no request.
pub const USAGE: &str = "usage: fort decide [--states N] [--reduce] [--certificate] FORMULA
       fort witness [--states N] [--reduce] [--certificate] FORMULA
       fort check FORMULA
       fort sample N
       fort solutions [--states N] [--most M] H FORMULA
       fort confirm FORMULA
       fort synth [--states N] RULES HEIGHT FORMULA
";
