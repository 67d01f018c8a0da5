// Why a reading came to no request: the line has a problem, or no memory was left.
ghost use Rattle.std.specs.Prelude.{◌≡◌};
ghost use Rattle.session.specs.declared.unread.Unread.TheVariants as unread;

use crate::problem::Problem;
use std::alloc::AllocError;

#[derive(Drop)]
pub(crate) enum Unread {
    Problem(Problem),
    Memory(AllocError),
}

impl From<Problem> for Unread {
    ghost from_gives = { λ problem error. error ≡ unread.Problem problem };

    fn from(problem: Problem) -> Unread {
        Unread::Problem(problem)
    }
}

impl From<AllocError> for Unread {
    ghost from_gives = { λ problem error. error ≡ unread.Memory problem };

    fn from(problem: AllocError) -> Unread {
        Unread::Memory(problem)
    }
}
