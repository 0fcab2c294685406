//! The numbers of the reasons.

ghost use Rattle.std.specs.Prelude.{◌≡◌};
ghost use Rattle.feed_reply.specs.Reasons.{reason_number};

use reply_model::ReplyWhy;

/// The number by which a reason is printed, 1 to 12 in the order of [`ReplyWhy`]. This project's
/// own.
pub fn why_number(why: ReplyWhy) -> u8
    ensures { result ≡ reason_number why }
{
    match why {
        ReplyWhy::Malformed => 1,
        ReplyWhy::VersionTooNew => 2,
        ReplyWhy::NotFound => 3,
        ReplyWhy::PeerError(_) => 4,
        ReplyWhy::Redirect(_) => 5,
        ReplyWhy::WrongUid => 6,
        ReplyWhy::BadOrder => 7,
        ReplyWhy::NoOrder => 8,
        ReplyWhy::Subnormals => 9,
        ReplyWhy::OldProtocol => 10,
        ReplyWhy::LineTooLong => 11,
        ReplyWhy::TooManyLines => 12,
    }
}
