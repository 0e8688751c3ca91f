// Why a layout is refused. Each refusal is a type of its own, so that a call cannot give the other's number.
ghost use Rattle.std.specs.Prelude.{◌≡◌, Some};
ghost use Rattle.layout.specs.Refusals.{not_made_number, not_fit_number};
ghost use Rattle.layout.specs.Words.{not_made_words, not_fit_words};

use std::error::Error;
use std::fmt;

// The plan has no layout of this kind: it is refused itself, or wants more than the processors have.
#[derive(Clone, Copy, PartialEq, Eq, Debug)]
pub struct NotMade;

impl NotMade {
    pub fn number(self) -> u8
        ensures { result ≡ not_made_number self }
    {
        27
    }
}

impl fmt::Display for NotMade {
    ghost output = { λ e. Some not_made_words };

    fn fmt<W: fmt::Write>(&self, f: &mut fmt::Formatter<W>) -> fmt::Result {
        f.write_str("the plan has no layout of this kind")
    }
}

impl Error for NotMade {}

// The layout is not one of this plan.
#[derive(Clone, Copy, PartialEq, Eq, Debug)]
pub struct NotFit;

impl NotFit {
    pub fn number(self) -> u8
        ensures { result ≡ not_fit_number self }
    {
        28
    }
}

impl fmt::Display for NotFit {
    ghost output = { λ e. Some not_fit_words };

    fn fmt<W: fmt::Write>(&self, f: &mut fmt::Formatter<W>) -> fmt::Result {
        f.write_str("the layout is not one of this plan")
    }
}

impl Error for NotFit {}
