//! The numbers of a line that told a fault.

/// The number N of a line `fault 3 line N why M`; none of any other line.
pub fn refused_line(line: &str) -> Option<u64> {
    let (number, _) = plan_numbers(line)?;
    Some(number)
}

/// The number N of a line `fault 3 line N why M`, and M.
pub(crate) fn plan_numbers(line: &str) -> Option<(u64, u64)> {
    let (number, why) = line.strip_prefix("fault 3 line ")?.split_once(" why ")?;
    Some((number.parse::<u64>().ok()?, why.parse::<u64>().ok()?))
}

/// The number behind these words, which begin the line.
pub(crate) fn number_behind(line: &str, words: &str) -> Option<u64> {
    line.strip_prefix(words)?.parse::<u64>().ok()
}

/// The place P of a line `bad P why N`, and N.
pub(crate) fn place_numbers(line: &str) -> Option<(u64, u64)> {
    let (place, why) = line.strip_prefix("bad ")?.split_once(" why ")?;
    Some((place.parse::<u64>().ok()?, why.parse::<u64>().ok()?))
}
