use super::*;

#[test]
fn a_document_tells_its_shape_or_the_first_reason(rt: HostRuntime) {
    let shape = |count, format| Ok(Shape { count, format });
    for (doc, want) in [
        (
            "<info><channel_count>1</channel_count><channel_format>int16</channel_format></info>",
            shape(1, Format::Int16),
        ),
        (
            "<channel_format>string</channel_format><channel_count>04096</channel_count>",
            shape(4096, Format::Text),
        ),
        (
            "<info><channel_format>int16</channel_format></info>",
            Err(NoShape::NoCount),
        ),
        ("<channel_count>0</channel_count>", Err(NoShape::BadCount)),
        (
            "<channel_count>4097</channel_count>",
            Err(NoShape::BadCount),
        ),
        (
            "<channel_count>000001</channel_count>",
            Err(NoShape::BadCount),
        ),
        (
            "<channel_count> 1</channel_count><channel_count>1</channel_count>",
            Err(NoShape::BadCount),
        ),
        ("<channel_count>1</channel_count>", Err(NoShape::NoFormat)),
        (
            "<channel_count>1</channel_count><channel_format>int8 </channel_format>",
            Err(NoShape::BadFormat),
        ),
    ] {
        assert_eq!(rt; find_shape(doc.as_bytes()), want, "in {doc}");
    }
}

#[test]
fn a_document_tells_its_number_or_none(rt: HostRuntime) {
    use Element::{Overruns, SampleCount};
    for (doc, element, want) in [
        ("", SampleCount, None),
        (
            "<sample_count>12</sample_count><overruns>3</overruns>",
            SampleCount,
            Some(12),
        ),
        (
            "<sample_count>12</sample_count><overruns>3</overruns>",
            Overruns,
            Some(3),
        ),
        (
            "<overruns>18446744073709551615</overruns>",
            Overruns,
            Some(u64::MAX),
        ),
        ("<overruns>18446744073709551616</overruns>", Overruns, None),
        (
            "<overruns>00000000000000000007</overruns>",
            Overruns,
            Some(7),
        ),
        ("<overruns>000000000000000000007</overruns>", Overruns, None),
        ("<overruns></overruns>", Overruns, None),
        (
            "<overruns>1 </overruns><overruns>1</overruns>",
            Overruns,
            None,
        ),
        ("<overruns>1</sample_count>", Overruns, None),
    ] {
        assert_eq!(rt; find_number(doc.as_bytes(), element), want, "in {doc}");
    }
}
