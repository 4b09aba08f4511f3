//! The rows of the commands: what stands behind each one's name on a command line.
ghost use Rattle.std.specs.Prelude.{◌≡◌, map};
ghost use Rattle.fort_answers.specs.Commands.{commands};
ghost use Rattle.fort_words.specs.RowView.{as_pair, pair_of};

/// The numbers from `low` to `high`, by the name under which one is given.
#[derive(Clone, Copy)]
pub(crate) struct Number {
    pub(crate) name: &'static str,
    pub(crate) low: u32,
    pub(crate) high: u32,
}

/// What can stand behind a command's name.
#[derive(Clone, Copy)]
pub(crate) enum Parameter {
    /// `--NAME`
    Flag(&'static str),
    /// `--NAME N`, and the text of N where it is left out
    Setting {
        number: Number,
        default: &'static str,
    },
    /// `N`, which is required
    NumberWord(Number),
    /// A text, which is required
    TextWord(&'static str),
}

/// A command: its name, and its parameters, of which words are told apart by their order.
#[derive(Clone, Copy)]
pub(crate) struct Row {
    pub(crate) name: &'static str,
    pub(crate) parameters: &'static [Parameter],
}

/// The most states of a part of the formula.
pub(crate) const STATES: Number = Number {
    name: "states",
    low: 1,
    high: 1_000_000,
};

pub(crate) const REDUCE: &str = "reduce";

pub(crate) const CERTIFICATE: &str = "certificate";

pub(crate) const FORMULA: &str = "formula";

/// The size of a made problem.
pub(crate) const COUNT: Number = Number {
    name: "count",
    low: 1,
    high: 64,
};

/// How high the terms of solutions may be.
pub(crate) const HEIGHT: Number = Number {
    name: "height",
    low: 0,
    high: 64,
};

/// How many solutions are wanted.
pub(crate) const MOST: Number = Number {
    name: "most",
    low: 1,
    high: 1000,
};

/// How many rules the systems of a family have.
pub(crate) const RULE_COUNT: Number = Number {
    name: "rules",
    low: 1,
    high: 4,
};

/// How high the sides of its rules may be.
pub(crate) const SIDE_HEIGHT: Number = Number {
    name: "height",
    low: 0,
    high: 2,
};

const STATES_OR_DEFAULT: Parameter = Parameter::Setting {
    number: STATES,
    default: "10000",
};

/// `decide [--states N] [--reduce] [--certificate] FORMULA`
pub(crate) const DECIDE: Row = Row {
    name: "decide",
    parameters: &[
        STATES_OR_DEFAULT,
        Parameter::Flag(REDUCE),
        Parameter::Flag(CERTIFICATE),
        Parameter::TextWord(FORMULA),
    ],
};

/// `witness [--states N] [--reduce] [--certificate] FORMULA`
pub(crate) const WITNESS: Row = Row {
    name: "witness",
    parameters: &[
        STATES_OR_DEFAULT,
        Parameter::Flag(REDUCE),
        Parameter::Flag(CERTIFICATE),
        Parameter::TextWord(FORMULA),
    ],
};

/// `check FORMULA`
pub(crate) const CHECK: Row = Row {
    name: "check",
    parameters: &[Parameter::TextWord(FORMULA)],
};

/// `sample N`
pub(crate) const SAMPLE: Row = Row {
    name: "sample",
    parameters: &[Parameter::NumberWord(COUNT)],
};

/// `solutions [--states N] [--most M] H FORMULA`
pub(crate) const SOLUTIONS: Row = Row {
    name: "solutions",
    parameters: &[
        STATES_OR_DEFAULT,
        Parameter::Setting {
            number: MOST,
            default: "1000",
        },
        Parameter::NumberWord(HEIGHT),
        Parameter::TextWord(FORMULA),
    ],
};

/// `confirm FORMULA`
pub(crate) const CONFIRM: Row = Row {
    name: "confirm",
    parameters: &[Parameter::TextWord(FORMULA)],
};

/// `synth [--states N] RULES HEIGHT FORMULA`
pub(crate) const SYNTH: Row = Row {
    name: "synth",
    parameters: &[
        STATES_OR_DEFAULT,
        Parameter::NumberWord(RULE_COUNT),
        Parameter::NumberWord(SIDE_HEIGHT),
        Parameter::TextWord(FORMULA),
    ],
};

const ROWS: &[Row] = &[DECIDE, WITNESS, CHECK, SAMPLE, SOLUTIONS, CONFIRM, SYNTH];

/// The rows of the commands.
pub(crate) fn rows() -> &'static [Row]
    ensures { map as_pair result.now ≡ map pair_of commands }
{
    ROWS
}
