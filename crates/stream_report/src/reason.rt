//! The numbers of the reasons.

ghost use Rattle.std.specs.Prelude.{◌≡◌};
ghost use Rattle.report_model.specs.Reasons.{reason_number};

use xdf_model::Why;

/// The number by which a reason is printed, 1 to 11 in the order of [`Why`]. This project's own.
pub fn why_number(why: Why) -> u8
    ensures { result ≡ reason_number why }
{
    match why {
        Why::BadWidth => 1,
        Why::LengthUnderTwo => 2,
        Why::TooLong => 3,
        Why::ShortContent => 4,
        Why::UnknownStream => 5,
        Why::RepeatedStream => 6,
        Why::NoShape => 7,
        Why::BadStampWidth => 8,
        Why::SamplesShort => 9,
        Why::ExtraBytes => 10,
        Why::BadBoundary => 11,
    }
}
