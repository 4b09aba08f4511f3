//! What is asked of a formula.
ghost use Rattle.std.specs.Prelude.{◌≡◌};
ghost use Rattle.fort_questions.specs.Questions.{as_openness, as_tail, openness_of, tail_of};

use fort_words::{Bounds, Family, Options};

/// What a request asks of a formula over an input.
#[derive(Clone, Copy, Debug)]
pub enum Question {
    /// Whether it is true.
    Truth(Options),
    /// A certificate of whether it is true.
    Certificate(Options),
    /// The least terms for its free variables that satisfy it.
    Terms(Options),
    /// A certificate of these terms, or that there are none.
    TermsCertificate(Options),
    /// Whether the certificate behind the problem proves it or its negation.
    Check,
    /// The first terms for its free variables that satisfy it.
    Solutions(Options, Bounds),
    /// Whether the certificate behind the problem proves that some terms satisfy it, or that none do.
    Confirm,
    /// The first system of a family over the input's signature that makes it true.
    Synth(Options, Family),
}

/// The formulas of which something is asked.
#[derive(Clone, Copy, Debug)]
pub enum Openness {
    Any,
    /// Those in which no variable is free.
    Closed,
    /// Those in which one is.
    Open,
}

/// What has to stand behind the problem of an input.
#[derive(Clone, Copy, Debug)]
pub enum Tail {
    Nothing,
    Certificate,
    /// A certificate of an open formula.
    OpenCertificate,
    /// Nothing behind the declarations, and before them a plain `(format TRS)`.
    NoRules,
}

impl Question {
    pub fn openness(self) -> Openness
        ensures { as_openness result ≡ openness_of self }
    {
        match self {
            Question::Truth(_) | Question::Certificate(_) | Question::Check => Openness::Closed,
            Question::Synth(_, _) => Openness::Closed,
            Question::Terms(_) => Openness::Any,
            Question::TermsCertificate(_) | Question::Solutions(_, _) | Question::Confirm =>
                Openness::Open,
        }
    }

    pub fn tail(self) -> Tail
        ensures { as_tail result ≡ tail_of self }
    {
        match self {
            Question::Truth(_) | Question::Certificate(_) => Tail::Nothing,
            Question::Terms(_) | Question::TermsCertificate(_) => Tail::Nothing,
            Question::Solutions(_, _) => Tail::Nothing,
            Question::Confirm => Tail::OpenCertificate,
            Question::Check => Tail::Certificate,
            Question::Synth(_, _) => Tail::NoRules,
        }
    }
}
