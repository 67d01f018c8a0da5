// The calls that a line can begin with, by name.
ghost use Rattle.std.specs.Prelude.{◌≡◌};
ghost use Rattle.std.specs.Option.{ok_or};
ghost use Rattle.session.specs.Names.{named};
ghost use Rattle.session.specs.declared.problem.Problem.TheVariants.{UnknownCall};

use crate::problem::Problem;

#[derive(Clone, Copy)]
pub enum CallName {
    Open,
    Edit,
    Paint,
    Close,
    Text,
    Colours,
    Size,
    Screen,
    Script,
    Range,
    Same,
    Place,
    Spot,
    Partner,
}

impl TryFrom<&[u8]> for CallName {
    type Error = Problem;

    ghost try_from_gives = { λ word call. call ≡ ok_or (named word.now) UnknownCall };

    fn try_from(word: &[u8]) -> Result<CallName, Problem> {
        match word {
            b"open" => Ok(CallName::Open),
            b"edit" => Ok(CallName::Edit),
            b"paint" => Ok(CallName::Paint),
            b"close" => Ok(CallName::Close),
            b"text" => Ok(CallName::Text),
            b"colours" => Ok(CallName::Colours),
            b"size" => Ok(CallName::Size),
            b"screen" => Ok(CallName::Screen),
            b"script" => Ok(CallName::Script),
            b"range" => Ok(CallName::Range),
            b"same" => Ok(CallName::Same),
            b"place" => Ok(CallName::Place),
            b"spot" => Ok(CallName::Spot),
            b"partner" => Ok(CallName::Partner),
            _ => Err(Problem::UnknownCall),
        }
    }
}
