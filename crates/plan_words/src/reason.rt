//! The numbers of the reasons.

ghost use Rattle.std.specs.Prelude.{◌≡◌};
ghost use Rattle.plan_model.specs.Plan.{why_number};

use plan_model::PlanWhy;

/// The number by which a reason is printed, 1 to 10 in the order of [`PlanWhy`]. This project's own.
pub fn why_number(why: PlanWhy) -> u8
    ensures { result ≡ why_number why }
{
    match why {
        PlanWhy::UnknownWord => 1,
        PlanWhy::WrongCount => 2,
        PlanWhy::BadNumber => 3,
        PlanWhy::Repeated => 4,
        PlanWhy::BadKind => 5,
        PlanWhy::TooManyFeeds => 6,
        PlanWhy::NoFeed => 7,
        PlanWhy::NotText => 8,
        PlanWhy::OutputNamed => 9,
        PlanWhy::TooLong => 10,
    }
}
