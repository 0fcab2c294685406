use super::*;
use sample_values::{Sample, Stamp};
use std::test::Fail;

#[test]
fn a_gap_is_the_positions_between_two_that_came(rt: HostRuntime) -> Result<(), Fail> {
    let mut expected = Expected::new();
    let told = [
        expected.gap_before(7, 0),
        expected.gap_before(7, 1),
        expected.gap_before(7, 4),
        expected.gap_before(7, 5),
        expected.gap_before(7, 9),
    ];
    assert_eq!(rt;
        format!(in rt.alloc(); "{told:?}")?.as_str(),
        "[None, None, Some(Row { stream: 7, first: 2, count: 2 }), None, Some(Row { stream: 7, first: 6, count: 3 })]"
    );
    Ok(())
}

#[test]
fn a_row_is_read_as_it_was_made(rt: HostRuntime) -> Result<(), Fail> {
    let row = Row {
        stream: 1,
        first: 0,
        count: 2,
    };
    let sample = row_sample(rt.alloc(), &row)?;
    assert_eq!(rt; sample.stamp(), Stamp::None);
    assert_eq!(rt;
        (sample.bits_at(0), sample.bits_at(1), sample.bits_at(2)),
        (Some(1), Some(0), Some(2))
    );
    assert_eq!(rt; read_row(&sample), Some(row));
    Ok(())
}

#[test]
fn a_sample_of_no_row_in_range_is_none(rt: HostRuntime) -> Result<(), Fail> {
    for (stamp, values) in [
        (Stamp::Bits(0), [1, 0, 2].as_slice()),
        (Stamp::None, [1, 0].as_slice()),
        (Stamp::None, [1, 0, 2, 3].as_slice()),
        (Stamp::None, [0, 0, 2].as_slice()),
        (Stamp::None, [65_536, 0, 2].as_slice()),
        (Stamp::None, [1, 1 << 62, 2].as_slice()),
        (Stamp::None, [1, 0, 0].as_slice()),
        (Stamp::None, [1, 0, (1 << 62) + 1].as_slice()),
    ] {
        let mut sample = Sample::new(rt.alloc(), stamp);
        for value in values {
            sample.push_bits(*value)?;
        }
        assert_eq!(rt; read_row(&sample), None, "{values:?}");
    }
    Ok(())
}

#[test]
fn a_tally_counts(rt: HostRuntime) {
    let mut tally = Tally::new();
    tally.keep();
    tally.lose(2);
    tally.lose(3);
    assert_eq!(rt; (tally.kept(), tally.lost()), (1, 5));
}
